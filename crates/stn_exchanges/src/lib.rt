//! Sessions and exchanges with other sites, over logs.
#![tactic(auto)]

pub use connections::{send_on, serve_each, serve_on};
pub use laws::{served_by_visits, stopped_after_fewer};
pub use partners::send_to_partner;
pub use peer::{Peer, Service, Talk, connect, meet};

mod connections;
mod joining;
mod laws;
mod partners;
mod peer;
