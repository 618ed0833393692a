ghost use Rattle.std.specs.Prelude.{◌≡◌, ℕ, ◌≤◌, false, slice_index_or};
ghost use Rattle.stn_net.specs.Event.{most_events};
ghost use Rattle.stn_records.specs.{Record.is_done_mark as marks_done, Content.AllProper};
ghost use Rattle.stn_site.specs.Report.{is_done};

use crate::site_plan::SitePlan;
use std::alloc::Allocator;
use stn_net::MOST_EVENTS;
use stn_records::{Mark, Records};

/// How many events a plan has at most, the origin too.
pub const EVENT_FLAGS: usize = MOST_EVENTS as usize + 1;

impl<A: Allocator + Copy> SitePlan<A> {
    /// For each event, the origin first, whether a live record says that it is done, which fixes the
    /// event at one time. It asks for no memory.
    pub fn done_flags(&self) -> [bool; EVENT_FLAGS]
        ensures done { (event : ℕ) → event ≤ most_events → slice_index_or result event false ≡ is_done self.now.state event }
        ensures fixed { AllProper self.now.state.additions }
    {
        done_flags(self.records())
    }
}

fn done_flags<A: Allocator + Copy>(records: &Records<A>) -> [bool; EVENT_FLAGS]
    ensures done { (event : ℕ) → event ≤ most_events → slice_index_or result event false ≡ is_done records.now event }
    ensures fixed { AllProper records.now.additions }
{
    let mut flags = [false; EVENT_FLAGS];
    for (_, record) in records.live_records() {
        if is_done(record.mark) {
            flags[usize::from(record.bound.to().number())] = true;
        }
    }
    flags
}

fn is_done(mark: Mark) -> bool
    ensures { result ≡ marks_done mark }
{
    mark == Mark::Done
}
