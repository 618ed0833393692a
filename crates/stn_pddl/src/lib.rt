//! Domains of PDDL 2.1, read from any bytes: durative actions with constant durations, whose conditions and effects are
//! conjunctions of literals.
#![tactic(auto)]

mod action;
mod actions;
mod atom;
mod condition;
mod domain;
mod fault;
mod fields;
pub mod tree;
mod word;

pub use action::{Action, Atom, Names, Term};
pub use domain::Domain;
pub use fault::DomainFault;
pub use tree::Name;
