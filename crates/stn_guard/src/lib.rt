//! Bounds that make a plan hold whatever each of its sites does within its own bounds.
//!
//! A list of sites gives each event its owner, the origin's entry first. The origin's counts for nothing.
#![tactic(auto)]

pub use adding::add_guard;
pub use guarding::guard;
pub use laws::{
    guard_needs_schedule, guards_glue, made_guards, one_guard, own_windows_are_whole,
    same_counts_same_guard, shared_is_no_sites_own,
};

mod adding;
mod guarding;
mod laws;
mod owners;
mod splitting;
