//! What the program's refusals and faults mean, and what to do about them.

pub use printing::{meaning_of, print_explained};
pub use subject::{Subject, fault_word};

mod printing;
mod subject;
mod table;
