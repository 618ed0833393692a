//! Logs: what a site knows, as the bytes of a file.

pub use fault::LoadFault;
pub use laws::logs_are_sound;
pub use reading::{load, load_plan};
pub use writing::{save, spell_log};

mod fault;
mod laws;
mod reading;
mod version;
mod writing;
