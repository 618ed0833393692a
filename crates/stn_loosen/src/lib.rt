//! Plans for real clocks: a planner's plan with durations that give, over a bare plan with as many steps.
#![tactic(auto)]

pub use adding::loosen;
pub use fragile::fragile_lines;
pub use plan::loosened;
pub use tolerance::Tolerance;

mod adding;
mod crossed;
mod fragile;
mod making;
mod nearest;
mod parts;
mod plan;
mod promise;
mod span;
mod starts;
mod tolerance;
