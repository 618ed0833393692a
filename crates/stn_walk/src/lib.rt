//! The picture of a conflict as SVG: a walk round it, link by link, with what mends it.
#![tactic(auto)]

pub use conflict::conflict_text;

mod conflict;
mod frame;
mod parts;
mod rows;
mod style;
mod walk;
