//! The commands on logs: what each changes or says, by the words of its command line, and what people may not expect of a change.
#![tactic(auto)]

pub use commands::{answer, answer_with};
pub use hints::{Hint, hints_of};
pub use keeping::{Kept, Known, find_log};

mod answered;
mod changes;
mod commands;
mod explaining;
mod hints;
mod keeping;
