//! Questions that people ask of a plan: which records, steps and bounds it has, what may run from now on,
//! why an event's window ends where it does, and why two events come no closer and no further apart. They
//! change nothing.
#![tactic(auto)]

pub use answer::print_answer;
pub use apart::print_apart;
pub use asked::Question;
pub use bounds::print_bounds;
pub use foresight::{next_with, rehearse_with};
pub use names::{source_names, step_names};
pub use ready::{append_event_line, print_ready_with};
pub use ready_event::ReadyEvent;
pub use records::print_records;
pub use steps::{names_of, print_steps};
pub use why::print_why;
pub use words::{LoneQuery, Outlook, lone_query, read_outlook};

mod answer;
mod apart;
mod asked;
mod bounds;
mod ends;
mod foresight;
mod names;
mod ready;
mod ready_event;
mod records;
mod steps;
mod why;
mod words;
