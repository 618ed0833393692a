//! Scripts: a text of commands, run from a reader to a writer.
#![tactic(auto)]

pub use heading::opening_word;
pub use script::{Ran, RunFault, run};
pub use stn_device::{Counted, MOST_BYTES};
pub use stn_world::World;

mod actions;
mod answer;
mod command;
mod heading;
mod reading;
mod script;
