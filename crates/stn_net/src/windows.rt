//! What comes next in a plan, and why it can't be rehearsed; which events are left.
//!
//! A list of flags says which events are done: one for each event, the origin's first. The origin's
//! counts for nothing.

pub use answers::{Next, RehearseFault};
pub use left::is_left;

mod answers;
mod left;
