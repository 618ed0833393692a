//! What a site holds: bounds that were added, withdrawn and replaced, and the join of what two sites hold.
#![tactic(auto)]

pub use faults::{CounterSpent, PartFault, RecordsFault};
pub use id::{Id, MOST_SITES, Site};
pub use id_map::{Additions, Amendments, IdMap, Tombstones};
pub use join::{Join, JoinFault};
pub use laws::{
    counts_same, maps_by_items_alone, states_by_items_alone, takes_agree, tombstones_agree,
};
pub use live_records::LiveRecords;
pub use map_value::MapValue;
pub use record::{Mark, Record};
pub use records::Records;
pub use state::State;

mod faults;
mod id;
mod id_map;
mod join;
mod laws;
mod live_records;
mod map_value;
mod record;
mod records;
mod sorted;
mod state;

/// The greatest number of ids that a site knows.
pub const MOST_KNOWN: usize = 4096;
