//! One site's replica of a plan: what it holds, with how far apart its events can be, and the rest of its plan.
#![tactic(auto)]

pub use replica::Replica;
pub use stn_site::{BoundName, ReplicaFault};

mod closest;
mod dispatch;
mod matrices;
mod plan_matrix;
mod replica;
mod report;
mod risen;
mod site_copy;
