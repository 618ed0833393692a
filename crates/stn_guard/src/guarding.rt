ghost use Rattle.std.specs.Prelude.{◌≡◌, ◌≢◌, ◌+◌, ◌<◌, ◌≤◌, ◌↔◌, ◌++◌, ◌&&◌, ◌||◌, false, ℕ, ℤ, length, take, slice_index_or, All, IsNone, IfOk, IfSome, OnOk};
ghost use Rattle.stn_net.specs.{Event.most_events, Difference.{NamesEvents}, Schedule.HasSchedule, Horizon.horizon_bounds, Windows.Window.IsWindow};
ghost use Rattle.stn_guard.specs.{Owners.owner_of, Guard.Guards, Making.{names_event, says_more, window_bound, AreSharedWindows, IsGuardOf}, Splitting.{AreNamedWindows, HasOwners, is_kept, kept}};

use crate::splitting::{is_shared, split_shared, window_bound};
use std::alloc::Allocator;
use stn_conflict::Windows;
use stn_net::{Bound, Event};
use stn_records::Site;
use stn_time::{HORIZON, Memory};

/// The guard of the bounds of `base` followed by those of `extra`: bounds that make every shared bound hold, whatever
/// each site does within its own bounds. A bound is shared if its events have different owners, and neither is the
/// origin.
///
/// There is one bound for each event that a shared bound names, in the order of the events: its window in the bounds
/// with the guard. A window that says no more than the horizon is left out. None exactly where the bounds have no
/// schedule. There are so many `events` beside the origin, `base` begins with their horizon bounds, and all bounds are
/// about them. `owners` has a site for each event, the origin's first; that one counts for nothing. It fails only if
/// memory runs out.
pub fn guard<A: Allocator + Copy>(
    alloc: A,
    events: u16,
    base: &[Bound],
    extra: &[Bound],
    owners: &[Site],
) -> Result<Option<Vec<Bound, A>>, Memory>
    requires few { events ≤ most_events }
    requires one_each { length owners.now ≡ events + 1 }
    requires begins { take events base.now ≡ horizon_bounds events }
    requires base_named { All (NamesEvents events) base.now }
    requires extra_named { All (NamesEvents events) extra.now }
    ensures none { IfOk result (λ found. IsNone found ↔ ¬ HasSchedule (base.now ++ extra.now)) }
    ensures guards { IfOk result (λ found. IfSome found (λ guard. Guards (owner_of owners.now) (base.now ++ extra.now) guard.items)) }
    ensures windows { IfOk result (λ found. IfSome found (λ guard. AreSharedWindows (owner_of owners.now) events (base.now ++ extra.now)
        ((base.now ++ extra.now) ++ guard.items) guard.items)) }
    ensures made { IfOk result (λ found. IfSome found (λ guard. IsGuardOf (owner_of owners.now) events (base.now ++ extra.now) guard.items)) }
{
    let Some(mut windows) = Windows::of(alloc, events, base, extra)? else {
        return Ok(None);
    };
    split_shared(&mut windows, base, owners)?;
    split_shared(&mut windows, extra, owners)?;
    let mut named = vec![in alloc; false; owners.len()]?;
    note_named(&mut named, base, owners);
    note_named(&mut named, extra, owners);
    Ok(Some(named_windows(alloc, &windows, &named)?))
}

// Notes the events that a shared bound names.
fn note_named(named: &mut [bool], bounds: &[Bound], owners: &[Site])
    requires one_each { length named.old ≡ length owners.now }
    requires owned { All (HasOwners owners.now) bounds.now }
    ensures one_each { length named.new ≡ length named.old }
    ensures named { (event : ℕ) → event < length named.old → slice_index_or named.new event false
        ≡ (slice_index_or named.old event false || names_event (owner_of owners.now) bounds.now event) }
{
    for bound in bounds {
        if is_shared(bound, owners) {
            named[usize::from(bound.from().number())] = true;
            named[usize::from(bound.to().number())] = true;
        }
    }
}

// The windows of the events that are named; those that say no more than the horizon are left out.
fn named_windows<A: Allocator + Copy>(
    alloc: A,
    windows: &Windows<A>,
    named: &[bool],
) -> Result<Vec<Bound, A>, Memory>
    requires few { windows.now.events ≤ most_events }
    requires one_each { length named.now ≡ windows.now.events + 1 }
    requires possible { HasSchedule windows.now.bounds }
    ensures { IfOk result (λ found. AreNamedWindows windows.now named.now found.items) }
{
    let mut found = Vec::new(alloc);
    for number in 1..windows.events() + 1 {
        let event = Event::new(number).unwrap();
        keep(&mut found, named, window_of(windows, event))?;
    }
    Ok(found)
}

// Appends the window, if its event is named and it says more than the horizon; if memory runs out, it appends nothing.
fn keep<A: Allocator>(
    windows: &mut Vec<Bound, A>,
    named: &[bool],
    window: Bound,
) -> Result<(), Memory>
    requires { window.to < length named.now }
    ensures { OnOk result (windows.new.items ≡ windows.old.items ++ kept named.now window) }
{
    if !is_kept(named, &window) {
        return Ok(());
    }
    windows.push(window)?;
    Ok(())
}

// Whether the event of the window is named, and it says more than the horizon.
fn is_kept(named: &[bool], window: &Bound) -> bool
    requires { window.now.to < length named.now }
    ensures { result ≡ is_kept named.now window.now }
{
    named[usize::from(window.to().number())] && says_more(window)
}

// The window of an event as a bound.
fn window_of<A: Allocator + Copy>(windows: &Windows<A>, event: Event) -> Bound
    requires beside { event ≢ 0 }
    requires within { event ≤ windows.now.events }
    requires possible { HasSchedule windows.now.bounds }
    ensures { (ends : ℤ × ℤ) × IsWindow windows.now.bounds event ends.0 ends.1 × (result ≡ window_bound event ends) }
{
    let (earliest, latest) = windows.window(event);
    window_bound(windows.events(), event, earliest, latest)
}

// Whether the bound says more of an event than the horizon does.
fn says_more(bound: &Bound) -> bool
    ensures { result ≡ says_more bound.now }
{
    0 < bound.lo().get() || bound.hi().get() < HORIZON
}
