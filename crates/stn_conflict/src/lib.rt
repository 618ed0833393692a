//! The named cycle of bounds that contradict each other; ways and greatest differences between events; earliest, latest and
//! soonest times; windows and networks that take more bounds: all without a matrix.
#![tactic(auto)]

pub use links::{
    BothWays, Cycle, Distances, Link, Side, Way, negative_cycle_is_conflict, one_named_cycle,
    one_way,
};
pub use network::Network;
pub use reach::distances;
pub use search::cycle;
pub use times::{earliest_and_latest, latest, soonest};
pub use ways::both_ways;
pub use windows::Windows;

mod arcs;
mod graph;
mod levels;
mod links;
mod network;
mod outgoing;
mod reach;
mod relaxation;
mod search;
mod times;
mod ways;
mod windows;
