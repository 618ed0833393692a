//! The windows that are drawn.
ghost use Rattle.std.specs.Prelude.{◌≡◌, ◌≤◌, ◌++◌, not, ◌&&◌, int_lt, All, IfOk, OnOk, MatchOption};
ghost use Rattle.stn_net.specs.{Difference.NamesEvents, Event.most_events, Schedule.HasSchedule};
ghost use Rattle.stn_lift.specs.PlanSource.{events_of};
ghost use Rattle.stn_site.specs.{Bounds.{all_bounds, live_bounds}, Windows.{window_at, AreWindows}};
ghost use Rattle.stn_chart.specs.{Chart.{floor, floors, overdue_event, AreDrawn}, Seen.present_floor};

use crate::look::Look;
use crate::tables::window_at;
use std::alloc::Allocator;
use stn_net::{Bound, Event};
use stn_site::{SitePlan, windows_with};
use stn_time::{HORIZON, Memory, Ms};

/// The windows that are drawn, of the origin and of all events, and the overdue event, where what is left comes too late.
#[derive(Drop)]
pub struct Drawn<A: Allocator> {
    pub windows: Vec<(Ms, Ms), A>,
    pub overdue: Option<u16>,
}

/// What is drawn; none exactly where all bounds have no schedule.
pub fn drawn_at<A: Allocator + Copy>(
    plan: &SitePlan<A>,
    look: &Look<'_>,
) -> Result<Option<Drawn<A>>, Memory>
    ensures { IfOk result (λ found. MatchOption found (¬ HasSchedule (all_bounds plan.now.source plan.now.state))
        (λ drawn. AreDrawn plan.now.source plan.now.state look.now.present drawn.windows.items drawn.overdue)) }
{
    match windows_from(plan, look.present)? {
        Some(windows) => Ok(Some(Drawn {
            windows,
            overdue: None,
        })),
        None => late_windows(plan, look.present),
    }
}

// The windows of all bounds, where what is left comes too late.
fn late_windows<A: Allocator + Copy>(
    plan: &SitePlan<A>,
    now: Option<Ms>,
) -> Result<Option<Drawn<A>>, Memory>
    requires { ¬ HasSchedule (all_bounds plan.now.source plan.now.state ++ floors plan.now.state (events_of plan.now.source) now) }
    ensures { IfOk result (λ found. MatchOption found (¬ HasSchedule (all_bounds plan.now.source plan.now.state))
        (λ drawn. AreDrawn plan.now.source plan.now.state now drawn.windows.items drawn.overdue)) }
{
    match plan.windows()? {
        Some(windows) => {
            let overdue = overdue_event(plan, &windows, now);
            Ok(Some(Drawn { windows, overdue }))
        }
        None => Ok(None),
    }
}

// The windows where all that is left comes now or later; none exactly where there is no such schedule.
fn windows_from<A: Allocator + Copy>(
    plan: &SitePlan<A>,
    now: Option<Ms>,
) -> Result<Option<Vec<(Ms, Ms), A>>, Memory>
    ensures { IfOk result (λ found. MatchOption found
        (¬ HasSchedule (all_bounds plan.now.source plan.now.state ++ floors plan.now.state (events_of plan.now.source) now))
        (λ windows. AreWindows (all_bounds plan.now.source plan.now.state ++ floors plan.now.state (events_of plan.now.source) now) (events_of plan.now.source) windows.items)) }
{
    windows_with(plan.alloc(), plan.base(), &live_and_floors(plan, now)?)
}

// The bounds of the live records, and then that what is left comes now or later.
fn live_and_floors<A: Allocator + Copy>(
    plan: &SitePlan<A>,
    now: Option<Ms>,
) -> Result<Vec<Bound, A>, Memory>
    ensures bounds { IfOk result (λ bounds. bounds.items
        ≡ live_bounds plan.now.state ++ floors plan.now.state (events_of plan.now.source) now) }
    ensures named { IfOk result (λ bounds. All (NamesEvents (events_of plan.now.source)) bounds.items) }
{
    let mut bounds = plan.live_bounds()?;
    if let Some(now) = now {
        let flags = plan.done_flags();
        let events = plan.base().events();
        for before in 0..events {
            let done = flags[usize::from(before) + 1];
            push_floor(&mut bounds, events, before + 1, now, done)?;
        }
    }
    Ok(bounds)
}

// Adds the bound that an event comes now or later, where it is left.
fn push_floor<A: Allocator>(
    bounds: &mut Vec<Bound, A>,
    events: u16,
    event: u16,
    now: Ms,
    done: bool,
) -> Result<(), Memory>
    requires some { 1 ≤ event }
    requires within { event ≤ events }
    requires few { events ≤ most_events }
    requires named { All (NamesEvents events) bounds.old.items }
    ensures pushed { OnOk result (bounds.new.items ≡ bounds.old.items ++ present_floor done now event) }
    ensures named { OnOk result (All (NamesEvents events) bounds.new.items) }
{
    if done {
        Ok(())
    } else {
        bounds.push(floor(events, event, now))?;
        Ok(())
    }
}

// The bound that an event comes now or later.
fn floor(events: u16, event: u16, now: Ms) -> Bound
    requires some { 1 ≤ event }
    requires within { event ≤ events }
    requires few { events ≤ most_events }
    ensures value { result ≡ floor now event }
    ensures named { NamesEvents events result }
{
    let event = Event::new(event).unwrap();
    let horizon = Ms::new(HORIZON).unwrap();
    Bound::new(events, Event::origin(), event, now, horizon).unwrap()
}

// The first event that is left and whose latest time is past.
fn overdue_event<A: Allocator + Copy>(
    plan: &SitePlan<A>,
    windows: &[(Ms, Ms)],
    now: Option<Ms>,
) -> Option<u16>
    ensures { result ≡ overdue_event plan.now.state windows.now (events_of plan.now.source) now }
{
    let now = now?;
    let flags = plan.done_flags();
    for before in 0..plan.base().events() {
        let done = flags[usize::from(before) + 1];
        if is_overdue(windows, done, now, before + 1) {
            return Some(before + 1);
        }
    }
    None
}

// Whether an event is left, and its latest time is past.
fn is_overdue(windows: &[(Ms, Ms)], done: bool, now: Ms, event: u16) -> bool
    ensures { result ≡ (not done && int_lt (window_at windows.now event).1 now) }
{
    !done && window_at(windows, usize::from(event)).1 < now
}
