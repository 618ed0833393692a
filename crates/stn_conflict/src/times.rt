ghost use Rattle.std.specs.Prelude.{◌≡◌, ◌+◌, ◌≤◌, ◌++◌, neg_ℤ, List, length, map, take, All, IfOk, OnOk, MatchOption};
ghost use Rattle.stn_net.specs.{Difference.{Difference, NamesEvents}, Event.most_events, Horizon.horizon_bounds, Schedule.{HasSchedule, times_of}, Windows.{Dispatch.CanWaitUntil, Leading.AreFloorsBelow, Soonest.{AreEarliest, AreLatest, AreSoonest}}};

use crate::arcs::Direction;
use crate::reach::distances_from;
use crate::relaxation::horizon;
use std::alloc::Allocator;
use stn_net::{Bound, Event, is_left};
use stn_time::{Memory, Ms};

/// The latest times of the origin and of all events, by the bounds of `base` followed by those of
/// `extra`; none exactly where these have no schedule. There are so many `events` beside the origin,
/// `base` begins with their horizon bounds, and all bounds are about them. It fails only if memory
/// runs out.
pub fn latest<A: Allocator + Copy>(
    alloc: A,
    events: u16,
    base: &[Bound],
    extra: &[Bound],
) -> Result<Option<Vec<Ms, A>>, Memory>
    requires few { events ≤ most_events }
    requires begins { take events base.now ≡ horizon_bounds events }
    requires base_named { All (NamesEvents events) base.now }
    requires extra_named { All (NamesEvents events) extra.now }
    ensures { IfOk result (λ found. MatchOption found (¬ HasSchedule (base.now ++ extra.now))
        (λ times. (length times.items ≡ events + 1) × AreLatest (base.now ++ extra.now) events (times_of times.items))) }
{
    distances_from(
        alloc,
        Direction::Forward,
        events,
        base,
        extra,
        Event::origin(),
    )
}

/// The earliest and the latest times of the origin and of all events; none exactly where the bounds have no schedule. The
/// bounds are as those of `latest`. It fails only if memory runs out.
pub fn earliest_and_latest<A: Allocator + Copy>(
    alloc: A,
    events: u16,
    base: &[Bound],
    extra: &[Bound],
) -> Result<Option<(Vec<Ms, A>, Vec<Ms, A>)>, Memory>
    requires few { events ≤ most_events }
    requires begins { take events base.now ≡ horizon_bounds events }
    requires base_named { All (NamesEvents events) base.now }
    requires extra_named { All (NamesEvents events) extra.now }
    ensures earliest { IfOk result (λ found. MatchOption found (¬ HasSchedule (base.now ++ extra.now))
        (λ times. (length times.0.items ≡ events + 1) × AreEarliest (base.now ++ extra.now) events (times_of times.0.items))) }
    ensures latest { IfOk result (λ found. MatchOption found (¬ HasSchedule (base.now ++ extra.now))
        (λ times. (length times.1.items ≡ events + 1) × AreLatest (base.now ++ extra.now) events (times_of times.1.items))) }
{
    let Some(early) = earliest(alloc, events, base, extra)? else {
        return Ok(None);
    };
    match latest(alloc, events, base, extra)? {
        Some(late) => Ok(Some((early, late))),
        None => Ok(None),
    }
}

/// The times of a schedule in which each event that is left (not the origin, and not done) comes from now on, as soon as in
/// any such schedule; none exactly where there is no such schedule. The bounds are as those of `latest`. It fails only if
/// memory runs out.
pub fn soonest<A: Allocator + Copy>(
    alloc: A,
    events: u16,
    base: &[Bound],
    extra: &[Bound],
    done: &[bool],
    now: Ms,
) -> Result<Option<Vec<Ms, A>>, Memory>
    requires few { events ≤ most_events }
    requires begins { take events base.now ≡ horizon_bounds events }
    requires base_named { All (NamesEvents events) base.now }
    requires extra_named { All (NamesEvents events) extra.now }
    requires one_each { length done.now ≡ events + 1 }
    ensures { IfOk result (λ found. MatchOption found (¬ CanWaitUntil (base.now ++ extra.now) done.now now)
        (λ times. (length times.items ≡ events + 1) × AreSoonest (base.now ++ extra.now) done.now now (times_of times.items))) }
{
    let mut above = Vec::from_slice(alloc, extra)?;
    append_floors(events, done, now, &mut above)?;
    earliest(alloc, events, base, &above)
}

// The earliest times, in the same way.
fn earliest<A: Allocator + Copy>(
    alloc: A,
    events: u16,
    base: &[Bound],
    extra: &[Bound],
) -> Result<Option<Vec<Ms, A>>, Memory>
    requires few { events ≤ most_events }
    requires begins { take events base.now ≡ horizon_bounds events }
    requires base_named { All (NamesEvents events) base.now }
    requires extra_named { All (NamesEvents events) extra.now }
    ensures { IfOk result (λ found. MatchOption found (¬ HasSchedule (base.now ++ extra.now))
        (λ times. (length times.items ≡ events + 1) × AreEarliest (base.now ++ extra.now) events (times_of times.items))) }
{
    let back = Direction::Backward;
    match distances_from(alloc, back, events, base, extra, Event::origin())? {
        Some(far) => Ok(Some(opposite(alloc, &far)?)),
        None => Ok(None),
    }
}

// The times with their signs changed.
fn opposite<A: Allocator>(alloc: A, times: &[Ms]) -> Result<Vec<Ms, A>, Memory>
    ensures { IfOk result (λ turned. turned.items ≡ map neg_ℤ times.now) }
{
    let mut turned = Vec::new(alloc);
    for time in times {
        turned.push(-*time)?;
    }
    Ok(turned)
}

// Appends, for each event that is left, the bound that it comes at this time or later.
fn append_floors<A: Allocator>(
    events: u16,
    done: &[bool],
    now: Ms,
    out: &mut Vec<Bound, A>,
) -> Result<(), Memory>
    requires few { events ≤ most_events }
    requires one_each { length done.now ≡ events + 1 }
    ensures { OnOk result ((floors : List Difference) × (out.new.items ≡ out.old.items ++ floors)
        × AreFloorsBelow done.now now (length done.now) floors × All (NamesEvents events) floors) }
{
    for number in 1..events + 1 {
        let event = Event::new(number).unwrap();
        if is_left(done, event) {
            out.push(Bound::new(events, Event::origin(), event, now, horizon()).unwrap())?;
        }
    }
    Ok(())
}
