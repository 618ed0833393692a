//! What people should know of a command besides its answer: why it ends without one, and what it waits for.
#![tactic(auto)]

pub use absent::absent_event;
pub use file::refused_file;
pub use reason::{reason_in_line, reason_of};
pub use telling::{append_counts, append_refused_word};
pub use waiting::waiting_of;

mod absent;
mod file;
mod flags;
mod fragile;
mod reason;
mod telling;
mod waiting;
