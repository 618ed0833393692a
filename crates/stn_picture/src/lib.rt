//! Pictures of a plan as SVG, which a mission is run from: its steps with their soonest and latest times on one axis
//! of time, or, where all bounds have no schedule, a walk round the conflict.
#![tactic(auto)]

pub use laws::{one_picture, same_pictures};
pub use picture::print_picture;

mod laws;
mod picture;
