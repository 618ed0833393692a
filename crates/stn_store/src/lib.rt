//! What logs say, and the logs and texts that stand under names, as files or in memory.
#![tactic(auto)]

pub use files::FileStore;
pub use log::{LoadFault, load, load_plan, logs_are_sound, save, spell_log};
pub use look::{Look, SeenFile};
pub use memory::MemoryStore;
pub use merging::{find_same, take_in};
pub use store::Store;
pub use trouble::Trouble;

mod beside;
mod files;
mod lock;
mod log;
mod look;
mod memory;
mod merging;
mod place;
mod reading;
mod same;
mod store;
mod trouble;
