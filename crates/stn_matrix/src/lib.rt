//! The matrix of the greatest differences of a plan's events, and what it tells: windows, what comes next, rehearsals. What
//! comes next, the rest of the plan and what is overdue by soonest or latest times alone.
#![tactic(auto)]

pub use matrix::Matrix;
pub use windows::{
    next, next_unique, overdue, ready, rehearsal_unique, rehearse, rehearsed_or_overdue,
    something_comes_next, soonest_next, soonest_runs, window,
};

mod matrix;
mod windows;
