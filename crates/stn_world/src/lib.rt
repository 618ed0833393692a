//! Several sites over one plan.
#![tactic(auto)]

pub use world::{MOST_PACKETS, World};

mod world;
