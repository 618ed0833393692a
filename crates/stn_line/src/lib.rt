//! The words of the command line: what `stn` is asked to do, on which log and for which site; and what is said for help, and of
//! each refusal and fault.
#![tactic(auto)]

pub use explanations::{Subject, fault_word, meaning_of, print_explained};
pub use help::said;
pub use reading::line;
pub use words::{
    DrawingWords, EventChoice, Line, LineFault, LogChange, LogQuestion, NameWords, NewLog, SiteLog,
};

mod commands;
mod explanations;
mod help;
mod reading;
mod words;
