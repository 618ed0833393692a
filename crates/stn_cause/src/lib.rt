//! What keeps a program from a file, a folder or an address, as people read it.
#![tactic(auto)]

pub use cause::Cause;
pub use laws::causes_told_apart;
pub use trouble::append_trouble;

mod cause;
mod laws;
mod trouble;
