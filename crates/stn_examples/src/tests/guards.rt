// Guards of small plans, worked out by hand.
use crate::tests::sweep::{Call, judged, requests};
use std::alloc::{Allocator, Global};
use std::rc::Rc;
use stn_guard::add_guard;
use stn_lift::Base;
use stn_net::{Bound, BoundFault, Event};
use stn_records::{Id, Mark, Records, Site};
use stn_refusing::{Outcome, Refusing};
use stn_site::{OwnedSteps, ReplicaFault, SitePlan, StepRange};
use stn_time::Ms;
use stn_world::World;

// What site 1 of a bare plan of so many steps holds at first.
fn bare_plan<A: Allocator + Copy>(alloc: A, steps: u16) -> Option<SitePlan<A>> {
    let base = Base::bare(alloc, steps).ok()?;
    let base = Rc::new(alloc, base).ok()?;
    let site = Site::new(1)?;
    Some(SitePlan::new(alloc, site, base))
}

fn add<A: Allocator + Copy>(
    plan: &mut SitePlan<A>,
    from: u16,
    to: u16,
    least: i64,
    most: i64,
) -> bool {
    match (
        Event::new(from),
        Event::new(to),
        Ms::new(least),
        Ms::new(most),
    ) {
        (Some(from), Some(to), Some(least), Some(most)) => {
            plan.add(from, to, least, most).is_ok()
        }
        _ => false,
    }
}

// The step is the site's.
fn owned(site: u8, step: u32) -> Option<OwnedSteps> {
    let site = Site::new(site)?;
    Some(OwnedSteps {
        site,
        steps: StepRange {
            first: step,
            last: step,
        },
    })
}

// Whether the record at a place says only that the event comes within these times.
fn is_window<A: Allocator + Copy>(
    plan: &SitePlan<A>,
    place: usize,
    event: u16,
    least: i64,
    most: i64,
) -> bool {
    match plan.records().record_at(place) {
        Some((_, mark, bound)) => {
            mark == Mark::Plain
                && bound.from() == Event::origin()
                && bound.to().number() == event
                && bound.lo().get() == least
                && bound.hi().get() == most
        }
        None => false,
    }
}

// The second step starts at most four seconds after the end of the first, which comes by ten seconds.
fn two_steps<A: Allocator + Copy>(alloc: A) -> Option<SitePlan<A>> {
    let mut plan = bare_plan(alloc, 2)?;
    if add(&mut plan, 2, 3, 0, 4_000) && add(&mut plan, 0, 2, 0, 10_000) {
        Some(plan)
    } else {
        drop(plan);
        None
    }
}

// The start comes by nine seconds, and so the end no earlier than five; the middle of what is left, seven, parts the two.
fn is_parted<A: Allocator + Copy>(plan: &SitePlan<A>) -> bool {
    is_window(plan, 2, 2, 5_000, 7_000) && is_window(plan, 3, 3, 7_000, 9_000)
}

fn guards_two_sites(alloc: Global) -> Option<bool> {
    let mut plan = two_steps(alloc)?;
    let other = owned(2, 2)?;
    let ids = add_guard(&mut plan, &[other]).ok()??;
    Some(ids.len() == 2 && is_parted(&plan))
}

#[test]
fn two_sites_share_a_bound(rt: HostRuntime) {
    assert!(rt; guards_two_sites(rt.alloc()) == Some(true));
}

// Whether the guard was made, or memory was lacking.
fn is_guarded(plan: &mut SitePlan<&Refusing<Global>>, other: OwnedSteps) -> (bool, bool) {
    match add_guard(plan, &[other]) {
        Ok(Some(ids)) => {
            let two = ids.len() == 2;
            drop(ids);
            (two && is_parted(plan), false)
        }
        Ok(None) => (false, false),
        Err(fault) => (false, fault == ReplicaFault::Memory),
    }
}

// What a guard answers one of whose requests is refused: it is made as with memory, where the request only asked in advance for more
// room. Else the same call then makes it.
fn guard_twice(
    heap: &Refusing<Global>,
    number: u64,
    plan: &mut SitePlan<&Refusing<Global>>,
    other: OwnedSteps,
) -> Outcome {
    heap.refuse(number);
    let (right, memory) = is_guarded(plan, other);
    let unchanged = memory && plan.records().known() == 2;
    let answer = judged(heap, right, unchanged || right);
    answer.only_if(right || is_guarded(plan, other).0)
}

/// What the guard of two sites is while a request is refused.
pub fn guard_refused(heap: &Refusing<Global>, number: u64) -> Outcome {
    let Some(other) = owned(2, 2) else {
        return Outcome::Wrong;
    };
    let Some(mut plan) = two_steps(heap) else {
        return Outcome::Wrong;
    };
    let answer = guard_twice(heap, number, &mut plan, other);
    drop(plan);
    answer
}

#[test]
fn guards_without_memory(rt: HostRuntime) {
    assert!(rt; requests(&rt, rt.alloc(), Call::Guard) > 5);
}

// The two sites, each of which holds the guard.
fn two_guarded_sites(alloc: Global) -> Option<(SitePlan<Global>, SitePlan<Global>)> {
    let mut plan = two_steps(alloc)?;
    let other = owned(2, 2)?;
    add_guard(&mut plan, &[other]).ok()??;
    let site = Site::new(2)?;
    let mut beside = plan.beside(site).ok()?;
    beside.take(plan.records()).ok()?;
    Some((plan, beside))
}

fn execute(plan: &mut SitePlan<Global>, event: u16, time: i64) -> Option<()> {
    let event = Event::new(event)?;
    let time = Ms::new(time)?;
    plan.done(event, time).ok()?;
    Some(())
}

// Each takes what the other holds. Whether all their bounds have a schedule then.
fn meet(one: &mut SitePlan<Global>, other: &mut SitePlan<Global>) -> Option<bool> {
    one.take(other.records()).ok()?;
    other.take(one.records()).ok()?;
    let windows = one.windows().ok()?;
    let others = other.windows().ok()?;
    Some(windows.is_some() && others.is_some())
}

// One executes its event and meets the other, which then executes its own.
fn act_in_turn(
    one: &mut SitePlan<Global>,
    first: (u16, i64),
    other: &mut SitePlan<Global>,
    last: (u16, i64),
) -> Option<bool> {
    execute(one, first.0, first.1)?;
    let met = meet(one, other)?;
    execute(other, last.0, last.1)?;
    let met_again = meet(one, other)?;
    Some(met && met_again)
}

// Site 1 ends its step at the first moment that the guard leaves it, and meets site 2, which then starts its own at the last:
// four seconds later, as many as there may be.
fn first_site_acts_first(alloc: Global) -> Option<bool> {
    let (mut first, mut second) = two_guarded_sites(alloc)?;
    act_in_turn(&mut first, (2, 5_000), &mut second, (3, 9_000))
}

#[test]
fn the_end_is_known_before_the_start(rt: HostRuntime) {
    assert!(rt; first_site_acts_first(rt.alloc()) == Some(true));
}

// Site 2 starts its step at the first moment that the guard leaves it, and meets site 1, which then ends its own at the last:
// at that same moment.
fn second_site_acts_first(alloc: Global) -> Option<bool> {
    let (mut first, mut second) = two_guarded_sites(alloc)?;
    act_in_turn(&mut second, (3, 7_000), &mut first, (2, 7_000))
}

#[test]
fn the_start_is_known_before_the_end(rt: HostRuntime) {
    assert!(rt; second_site_acts_first(rt.alloc()) == Some(true));
}

// A site of a world adds a bound.
fn add_in(
    world: &mut World<Global>,
    site: u32,
    events: (u16, u16),
    least: i64,
    most: i64,
) -> Option<()> {
    let from = Event::new(events.0)?;
    let to = Event::new(events.1)?;
    let least = Ms::new(least)?;
    let most = Ms::new(most)?;
    match world.add(site, from, to, least, most) {
        Ok(_) => Some(()),
        Err(_) => None,
    }
}

fn done_in(world: &mut World<Global>, site: u32, event: u16, time: i64) -> Option<()> {
    let event = Event::new(event)?;
    let time = Ms::new(time)?;
    if world.done(site, event, time).is_ok() {
        Some(())
    } else {
        None
    }
}

fn merge_in(world: &mut World<Global>, into: u32, from: u32) -> Option<()> {
    match world.merge(into, from) {
        Ok(_) => Some(()),
        Err(_) => None,
    }
}

// A world whose first site adds the same two bounds, and then those of the guard; the second takes them in.
fn guarded_world(alloc: Global) -> Option<World<Global>> {
    let base = Base::bare(alloc, 2).ok()?;
    let base = Rc::new(alloc, base).ok()?;
    let mut world = World::new(alloc, base, 2).ok()?;
    add_in(&mut world, 1, (2, 3), 0, 4_000)?;
    add_in(&mut world, 1, (0, 2), 0, 10_000)?;
    add_in(&mut world, 1, (0, 2), 5_000, 7_000)?;
    add_in(&mut world, 1, (0, 3), 7_000, 9_000)?;
    merge_in(&mut world, 2, 1)?;
    Some(world)
}

// Whether both sites of the world hold just what a site holds that made the guard.
fn world_holds_the_guard(alloc: Global) -> Option<bool> {
    let (plan, beside) = two_guarded_sites(alloc)?;
    let world = guarded_world(alloc)?;
    let first = world.replica(1)?.records();
    let second = world.replica(2)?.records();
    let all = first.holds(plan.records()) && second.holds(beside.records());
    Some(all && plan.records().holds(first) && beside.records().holds(second))
}

#[test]
fn a_guard_is_steps_of_a_world(rt: HostRuntime) {
    assert!(rt; world_holds_the_guard(rt.alloc()) == Some(true));
}

// Whether all bounds that a site of a world holds have a schedule.
fn has_windows(world: &World<Global>, site: u32) -> Option<bool> {
    Some(world.replica(site)?.plan().windows().ok()?.is_some())
}

// Both sites act out of contact, as late and as early as the guard leaves them, and then hear of each other.
fn acts_apart_in_a_world(alloc: Global) -> Option<bool> {
    let mut world = guarded_world(alloc)?;
    done_in(&mut world, 1, 2, 5_000)?;
    done_in(&mut world, 2, 3, 9_000)?;
    merge_in(&mut world, 1, 2)?;
    merge_in(&mut world, 2, 1)?;
    Some(has_windows(&world, 1)? && has_windows(&world, 2)?)
}

#[test]
fn guarded_sites_of_a_world_keep_a_schedule(rt: HostRuntime) {
    assert!(rt; acts_apart_in_a_world(rt.alloc()) == Some(true));
}

// Three starts, each at most two seconds after the one before, the first by eight seconds: six and five part the first two,
// and 7.5 and 5.75 the last two.
fn guards_three_sites(alloc: Global) -> Option<bool> {
    let mut plan = bare_plan(alloc, 3)?;
    let added = add(&mut plan, 0, 1, 0, 8_000)
        && add(&mut plan, 1, 3, 0, 2_000)
        && add(&mut plan, 3, 5, 0, 2_000);
    let second = owned(2, 2)?;
    let third = owned(3, 3)?;
    let ids = add_guard(&mut plan, &[second, third]).ok()??;
    Some(
        added
            && ids.len() == 3
            && is_window(&plan, 3, 1, 4_000, 5_000)
            && is_window(&plan, 4, 3, 5_500, 5_750)
            && is_window(&plan, 5, 5, 5_750, 7_500),
    )
}

#[test]
fn three_sites_share_two_bounds(rt: HostRuntime) {
    assert!(rt; guards_three_sites(rt.alloc()) == Some(true));
}

// The second step starts no earlier than twenty seconds: a conflict, so nothing is added.
fn guards_no_conflict(alloc: Global) -> Option<bool> {
    let mut plan = two_steps(alloc)?;
    let added = add(&mut plan, 0, 3, 20_000, 30_000);
    let other = owned(2, 2)?;
    let found = add_guard(&mut plan, &[other]).ok()?;
    Some(added && found.is_none() && plan.records().known() == 3)
}

#[test]
fn a_conflict_has_no_guard(rt: HostRuntime) {
    assert!(rt; guards_no_conflict(rt.alloc()) == Some(true));
}

// The site's record of this counter, which another site held.
fn late_record(alloc: Global, counter: u16) -> Option<Records<Global>> {
    let least = Ms::new(0)?;
    let most = Ms::new(1_000)?;
    let bound = Bound::new(4, Event::origin(), Event::new(1)?, least, most).ok()?;
    let site = Site::new(1)?;
    let id = Id::new(site, counter)?;
    let mut records = Records::new(alloc);
    records.add(id, Mark::Plain, bound).ok()?;
    Some(records)
}

// One record could still be made, and the guard has two.
fn spends_no_counter(alloc: Global) -> Option<bool> {
    let mut plan = two_steps(alloc)?;
    let late = late_record(alloc, 65_534)?;
    let taken = plan.take(&late).is_ok();
    let other = owned(2, 2)?;
    let refused = add_guard(&mut plan, &[other]) == Err(ReplicaFault::CounterSpent);
    Some(taken && refused && plan.records().known() == 3)
}

#[test]
fn a_guard_is_not_cut(rt: HostRuntime) {
    assert!(rt; spends_no_counter(rt.alloc()) == Some(true));
}

// One id more could be known, and the guard has two.
fn knows_no_more(alloc: Global) -> Option<bool> {
    let mut plan = two_steps(alloc)?;
    let mut added = true;
    for _ in 0..4_093u16 {
        added = added && add(&mut plan, 0, 4, 0, 30_000);
    }
    let other = owned(2, 2)?;
    let refused = add_guard(&mut plan, &[other]) == Err(ReplicaFault::Full);
    Some(added && refused && plan.records().known() == 4_095)
}

#[test]
fn a_guard_wants_ids(rt: HostRuntime) {
    assert!(rt; knows_no_more(rt.alloc()) == Some(true));
}

// The plan has two steps.
fn has_no_third_step(alloc: Global) -> Option<bool> {
    let mut plan = two_steps(alloc)?;
    let other = owned(2, 3)?;
    let refused = add_guard(&mut plan, &[other]) == Err(ReplicaFault::Bound(BoundFault::NoEvent));
    Some(refused && plan.records().known() == 2)
}

#[test]
fn a_step_beyond_the_plan(rt: HostRuntime) {
    assert!(rt; has_no_third_step(rt.alloc()) == Some(true));
}
