//! The chart of a plan as SVG: its steps with their soonest and latest times on one axis of time.
#![tactic(auto)]

pub use chart::chart_text;
pub use laws::{steps_have_rows, times_are_on_the_axis};
pub use look::Look;

mod chart;
mod floors;
mod frame;
mod holders;
mod laws;
mod legend;
mod look;
mod parts;
mod places;
mod rows;
mod style;
mod tables;
