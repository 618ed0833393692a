//! Readers and writers that count their failed calls, and whole inputs and outputs over them; readers and writers with a deadline;
//! other sites, as a reader and a writer each.
#![tactic(auto)]

pub use callers::{Callers, MemoryCallers};
pub use connection::{Connection, Watch};
pub use counted::Counted;
pub use deadline::{Deadline, TimedStream, Timer, UntilDeadline};
pub use partner::{Ear, Finish, Partner};
pub use whole::{MOST_BYTES, ReadFault, WriteFault, drain, read_whole, write_whole};

mod callers;
mod connection;
mod counted;
mod deadline;
mod partner;
mod whole;
