//! Laws of domains and of plans: what their texts and faults are, when steps take place, and which events interfere. No function of the
//! program calls one.
#![tactic(auto)]

pub use domains::{faults_by_cause, small_letters};
pub use plans::{interference_by_atoms, lift_faults_by_cause, plan_faults_by_cause, planned_times};

mod domains;
mod plans;
pub mod trees;
