//! One site's copy of a plan: what the site holds, its changes, and its report.
#![tactic(auto)]

pub use change::{AskedBound, Change};
pub use done::EVENT_FLAGS;
pub use faults::ReplicaFault;
pub use laws::{
    one_report, same_counts_same_bytes, same_items_same_bytes, state_is_union, took_same_same_bytes,
};
pub use lines::{append_range_line, append_window_line, bound_at, bound_name};
pub use names::BoundName;
pub use own::{Own, OwnedSteps, StepRange, are_within, flags_among};
pub use pieces::{Piece, append_pieces};
pub use report::append_link_lines;
pub use site_copy::SiteCopy;
pub use site_plan::SitePlan;
pub use windows::windows_with;

mod change;
mod done;
mod faults;
mod laws;
mod lines;
mod names;
mod own;
mod parts;
mod pieces;
mod report;
mod site_copy;
mod site_plan;
mod windows;
