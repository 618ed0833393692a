//! Events of a plan, and bounds on the differences of their times; the first bound that times break; what comes next, and which
//! events are left.
#![tactic(auto)]

pub use bound::{Bound, BoundFault};
pub use event::{Event, MOST_EVENTS, MOST_STEPS};
pub use schedule::first_broken;
pub use windows::{Next, RehearseFault, is_left};

mod bound;
mod event;
mod schedule;
mod windows;
