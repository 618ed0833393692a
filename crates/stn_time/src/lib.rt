//! Times in whole milliseconds, and their texts in seconds.
#![tactic(auto)]

pub use millis::{HORIZON, Ms};
pub use printing::print_millis;
pub use reading::TimeFault;
pub use std::alloc::AllocError as Memory;

mod millis;
mod printing;
mod reading;
