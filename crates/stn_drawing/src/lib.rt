//! What pictures as SVG are drawn with: texts that are escaped, times, an axis with its ticks, what each picture begins
//! with. After an error of a call that appends, the output has no meaning: no clause says what stands in it.
#![tactic(auto)]

pub use axis::Axis;
pub use escape::{append_cut, append_shown};
pub use event::EventName;
pub use laws::texts_are_escaped;
pub use memory::in_memory;
pub use seconds::Seconds;
pub use sheet::{append_heading, append_opening, append_paper};

mod axis;
mod escape;
mod event;
mod laws;
mod memory;
mod seconds;
mod sheet;
mod ticks;
