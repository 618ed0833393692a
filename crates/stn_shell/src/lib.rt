//! The command line of the program: its commands, a shell on a log, and the process.
#![tactic(auto)]

pub use coprocess::run_shell;
pub use execution::{execute, execute_over};
pub use process::{Wordless, program, run_process};

mod coprocess;
mod execution;
mod lines;
mod process;
mod reasons;
