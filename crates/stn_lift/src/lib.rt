//! Plans, read from their texts, and the base of a plan: its events, the bounds that it sets itself and its planned times.
#![tactic(auto)]

pub use base::{Base, lift};
pub use bounds::step_of;
pub use fault::{BaseFault, LiftFault};
pub use plan::{Plan, PlanFault, Step};
pub use source::Source;

mod atoms;
mod base;
mod bounds;
mod fault;
mod footprint;
mod numbers;
mod plan;
mod source;
mod timeline;
