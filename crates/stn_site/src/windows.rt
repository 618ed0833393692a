ghost use Rattle.std.specs.Prelude.{◌≡◌, ℕ, ◌+◌, ◌≤◌, ◌++◌, List, length, All, IfOk, OnOk, OnErr, MatchOption};
ghost use Rattle.stn_net.specs.{Difference.{Difference, NamesEvents}, Schedule.HasSchedule};
ghost use Rattle.stn_lift.specs.PlanSource.{base_bounds, events_of};
ghost use Rattle.stn_conflict.specs.Distances.{AreDistancesFrom, AreDistancesTo};
ghost use Rattle.stn_site.specs.{Bounds.all_bounds, Report.{most_report, IsReport}, Windows.AreWindows};

use crate::site_plan::SitePlan;
use std::alloc::Allocator;
use stn_conflict::{Distances, distances};
use stn_lift::Base;
use stn_net::{Bound, Event};
use stn_time::{Memory, Ms};

impl<A: Allocator + Copy> SitePlan<A> {
    /// The windows of the origin and of all events, in their order: the earliest and the latest time of
    /// each; none exactly where all bounds have no schedule. It fails only if memory runs out.
    pub fn windows(&self) -> Result<Option<Vec<(Ms, Ms), A>>, Memory>
        ensures { IfOk result (λ found. MatchOption found (¬ HasSchedule (all_bounds self.now.source self.now.state))
            (λ windows. AreWindows (all_bounds self.now.source self.now.state) (events_of self.now.source) windows.items)) }
    {
        let live = self.live_bounds()?;
        windows_with(self.alloc(), self.base(), &live)
    }

    /// Appends the report: how many steps, events, live records and replaced ids there are; then, where
    /// all bounds have a schedule, the window of each event, and else one cycle of bounds that
    /// contradict each other. It depends on the plan and the state alone, and has at most 65,536
    /// bytes. If memory runs out, it appends nothing.
    pub fn report<B: Allocator>(&self, out: &mut Vec<u8, B>) -> Result<(), Memory>
        ensures reported { OnOk result ((text : List ℕ) × IsReport self.now.source self.now.state text × (out.new.items ≡ out.old.items ++ text)) }
        ensures short { OnOk result (length out.new.items ≤ length out.old.items + most_report) }
        ensures kept { OnErr result (out.new.items ≡ out.old.items) }
    {
        match self.windows()? {
            Some(windows) => self.report_with(Some(&windows), out),
            None => self.report_with(None, out),
        }
    }
}

/// The windows of the origin and of all events of a plan, in their order, where more bounds hold beside its own: the earliest and the
/// latest time of each; none exactly where all these have no schedule. It fails only if memory runs out.
pub fn windows_with<A: Allocator + Copy>(
    alloc: A,
    base: &Base<A>,
    more: &[Bound],
) -> Result<Option<Vec<(Ms, Ms), A>>, Memory>
    requires { All (NamesEvents (events_of base.now)) more.now }
    ensures { IfOk result (λ found. MatchOption found (¬ HasSchedule (base_bounds base.now ++ more.now))
        (λ windows. AreWindows (base_bounds base.now ++ more.now) (events_of base.now) windows.items)) }
{
    match distances(alloc, base.events(), base.bounds(), more, Event::origin())? {
        Some(found) => Ok(Some(windows_of(alloc, &found)?)),
        None => Ok(None),
    }
}

// The windows of the origin and of all events, in their order, by their distances from the origin and to it.
fn windows_of<A: Allocator + Copy>(
    alloc: A,
    origin: &Distances<A>,
) -> Result<Vec<(Ms, Ms), A>, Memory>
    requires { length origin.now.to.items ≡ length origin.now.from.items }
    ensures { (bounds : List Difference) (events : ℕ) → AreDistancesFrom bounds events 0 origin.now.from.items → AreDistancesTo bounds events 0 origin.now.to.items
        → IfOk result (λ windows. AreWindows bounds events windows.items) }
{
    let mut windows = Vec::new(alloc);
    for event in 0..origin.from.len() {
        windows.push((-origin.to[event], origin.from[event]))?;
    }
    Ok(windows)
}
