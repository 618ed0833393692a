//! What a site is asked, and what is told of its changes. Scripts and commands on logs read their words, choose the site or the log,
//! and ask here.
#![tactic(auto)]

pub use changes::Made;
pub use guarding::print_guard;
pub use names::say_named;
pub use queries::{Choice, Query, append_said, say};
pub use steps::{read_owned, read_steps};
pub use words::{no_such_word, read_between, read_event, read_id, read_time};

mod changes;
mod dispatch;
mod guarding;
mod named_lines;
mod names;
mod queries;
mod steps;
mod words;
