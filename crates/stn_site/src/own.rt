ghost use Rattle.std.specs.{Prelude.{◌≡◌, ℕ, ◌+◌, ◌≤◌, ◌||◌, not, false, slice_index_or}, List.list_any};
ghost use Rattle.stn_net.specs.Event.{most_events};
ghost use Rattle.stn_records.specs.Content.{AllProper};
ghost use Rattle.stn_site.specs.Own as own_events;
ghost use Rattle.stn_site.specs.{Own.is_own, Report.is_done};

use crate::done::EVENT_FLAGS;
use crate::site_plan::SitePlan;
use std::alloc::Allocator;
use stn_lift::step_of;
use stn_net::{Event, MOST_EVENTS};
use stn_records::Site;

/// Steps of a plan by their numbers, which are counted from 1: those from `first` to `last`, both included.
#[derive(Clone, Copy, Debug, PartialEq, Eq)]
pub struct StepRange {
    /// The number of the first.
    pub first: u32,
    /// The number of the last; where it is less than that of the first, there are no steps.
    pub last: u32,
}

/// Steps that a site owns.
#[derive(Clone, Copy, Debug, PartialEq, Eq)]
pub struct OwnedSteps {
    /// The site.
    pub site: Site,
    /// Its steps.
    pub steps: StepRange,
}

/// The events that a site chooses itself: those of the steps of some ranges, or the starts of these steps alone, where
/// the ends come by themselves.
#[derive(Clone, Copy)]
pub struct Own<'a> {
    /// The ranges.
    pub steps: &'a [StepRange],
    /// Whether it chooses their starts alone.
    pub starts: bool,
}

impl StepRange {
    /// Whether a plan of so many steps has all of them.
    pub fn is_within(&self, steps: u16) -> bool
        ensures { result ≡ own_events.is_within steps self.now }
    {
        1 <= self.first && self.last <= u32::from(steps)
    }

    /// Whether the event is the start or the end of one of them.
    pub fn has(&self, event: Event) -> bool
        ensures { result ≡ own_events.has self.now event }
    {
        let step = u32::from(step_of(event));
        self.first <= step && step <= self.last
    }
}

impl Own<'_> {
    /// Whether the site chooses the event.
    pub fn has(&self, event: Event) -> bool
        ensures { result ≡ is_own self.now event }
    {
        any_has(self.steps, event) && !(self.starts && is_end(event))
    }
}

/// Whether a plan of so many steps has all steps that sites are said to own.
pub fn are_within(owned: &[OwnedSteps], steps: u16) -> bool
    ensures { result ≡ own_events.are_within steps owned.now }
{
    for one in owned {
        if !one.steps.is_within(steps) {
            return false;
        }
    }
    true
}

/// For each event, the origin first, whether it doesn't count as left: it is done, or the site doesn't choose it. It asks for
/// no memory.
pub fn flags_among<A: Allocator + Copy>(plan: &SitePlan<A>, own: &Own<'_>) -> [bool; EVENT_FLAGS]
    ensures left { (event : ℕ) → event ≤ most_events
        → slice_index_or result event false ≡ (is_done plan.now.state event || not (is_own own.now event)) }
    ensures fixed { AllProper plan.now.state.additions }
{
    let mut flags = plan.done_flags();
    for number in 0..MOST_EVENTS + 1 {
        let event = Event::new(number).unwrap();
        if !own.has(event) {
            flags[usize::from(number)] = true;
        }
    }
    flags
}

// Whether one of the ranges has the event's step.
fn any_has(ranges: &[StepRange], event: Event) -> bool
    ensures { result ≡ list_any (λ range. own_events.has range event) ranges.now }
{
    ranges.iter().any(|range| range.has(event))
}

// Whether the event is the end of its step.
fn is_end(event: Event) -> bool
    ensures { result ≡ own_events.is_end event }
{
    event.number() == 2 * step_of(event)
}
