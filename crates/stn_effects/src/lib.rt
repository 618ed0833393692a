//! What is printed, on the output and on the standard error.
#![tactic(auto)]

pub use printing::{print, print_now, tell, tell_failure, tell_fault};

mod printing;
