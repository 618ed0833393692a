//! What mends a conflict: each record without which the others have a schedule, and which records to drop
//! so that the rest has one. The plan and the state alone decide.
#![tactic(auto)]

pub use print::{print_repairs, repairs_of};
pub use repair::Repair;

mod dropped;
mod live;
mod print;
mod repair;
mod repairs;
