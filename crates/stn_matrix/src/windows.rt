//! The windows of a plan's events, which event may run next, and a rehearsal of the whole rest of a
//! plan.
//!
//! A list of flags says which events are done: one for each event, the origin's first. The origin's
//! counts for nothing.

pub use dispatch::{next, ready};
pub use ends::window;
pub use laws::{next_unique, rehearsal_unique, rehearsed_or_overdue, something_comes_next};
pub use rehearsal::rehearse;
pub use soonest::{overdue, soonest_next, soonest_runs};

mod dispatch;
mod ends;
mod laws;
mod rehearsal;
mod soonest;
