//! Refusals and faults: why a call or a command ends without its answer, and what is printed for it.
#![tactic(auto)]

pub use code::Code;
pub use failure::{Failure, Fault};
pub use refusal::{Place, Refusal};

mod code;
mod failure;
mod refusal;
