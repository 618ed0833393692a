//! What is drawn of a plan that has no schedule.
ghost use Rattle.std.specs.Prelude.{◌≡◌, ◌+◌, ◌++◌, ◌<◌, ◌≤◌, ◌^◌, length, map, max, ◌+ℤ◌, unsigned_abs, All, IfOk};
ghost use Rattle.stn_net.specs.{Schedule.HasSchedule, Event.most_events};
ghost use Rattle.stn_conflict.specs.{Arcs.{arc_of, IsNegativeCycle}, Named.IsNamedCycle};
ghost use Rattle.stn_site.specs.Bounds.{all_bounds, live_bounds};
ghost use Rattle.stn_walk.specs.{Conflict.IsWalkPicture, Walk.{early, late, greatest, sums_of}};

use crate::parts::{AXIS_LEFT, AXIS_WIDTH, sum_in, top_of};
use crate::walk::Walk;
use std::alloc::{AllocError, Allocator};
use stn_conflict::{Link, Side, cycle};
use stn_drawing::Axis;
use stn_net::Bound;
use stn_repairs::repairs_of;
use stn_site::{SitePlan, bound_at};
use stn_time::Memory;

/// The picture of a plan whose bounds have no schedule: a walk along the links of the conflict that its report names,
/// with what mends it. It depends on the title, on the names, on the plan and on the state alone.
pub fn conflict_text<'x, A: Allocator + Copy>(
    plan: &SitePlan<A>,
    title: &'x [u8],
    names: &'x [Vec<u8, A>],
) -> Result<Vec<u8, A>, Memory>
    requires { ¬ HasSchedule (all_bounds plan.now.source plan.now.state) }
    ensures { IfOk result (λ text. IsWalkPicture title.now (map (λ name. name.items) names.now) plan.now.source plan.now.state text.items) }
{
    let base = plan.base();
    let live = plan.live_bounds()?;
    match cycle(plan.alloc(), base.events(), base.bounds(), &live)? {
        Some(found) => text_along(plan, title, names, &live, &found.links),
        None => Err(AllocError),
    }
}

// The picture of a walk along these links, which are the named cycle.
fn text_along<'x, A: Allocator + Copy>(
    plan: &SitePlan<A>,
    title: &'x [u8],
    names: &'x [Vec<u8, A>],
    live: &[Bound],
    links: &[Link],
) -> Result<Vec<u8, A>, Memory>
    requires live { live.now ≡ live_bounds plan.now.state }
    requires named { IsNamedCycle (all_bounds plan.now.source plan.now.state) links.now }
    requires negative { IsNegativeCycle (all_bounds plan.now.source plan.now.state) links.now }
    requires places { All (λ link. link.place < length (all_bounds plan.now.source plan.now.state)) links.now }
    requires short { length links.now ≤ most_events + 1 }
    ensures { IfOk result (λ text. IsWalkPicture title.now (map (λ name. name.items) names.now) plan.now.source plan.now.state text.items) }
{
    let base = plan.base().bounds();
    let ids = plan.live_ids()?;
    let sums = sums_of(plan.alloc(), base, live, links)?;
    let repairs = repairs_of(plan, links)?;
    let (before, after) = reach_of(&sums);
    let bottom = top_of(links.len() + 1);
    let walk = Walk {
        title,
        names,
        base,
        ids: &ids,
        others: live,
        links,
        sums: &sums,
        repairs: &repairs,
        axis: Axis::reaching(AXIS_LEFT, AXIS_WIDTH, before, after, bottom),
    };
    let mut text = Vec::new(plan.alloc());
    walk.append(&mut text)?;
    Ok(text)
}

// The sums of the first links: of none of them, of the first, and so on, to that of all.
fn sums_of<A: Allocator>(
    alloc: A,
    base: &[Bound],
    others: &[Bound],
    links: &[Link],
) -> Result<Vec<i64, A>, Memory>
    requires places { All (λ link. link.place < length base.now + length others.now) links.now }
    requires short { length links.now ≤ most_events + 1 }
    ensures sums { IfOk result (λ sums. sums.items ≡ sums_of (base.now ++ others.now) links.now) }
    ensures small { IfOk result (λ sums. All (λ sum. unsigned_abs sum < 2 ^ 45) sums.items) }
{
    let mut sums = Vec::new(alloc);
    sums.push(0)?;
    for place in 0..links.len() {
        let weight = weight_of(base, others, links[place]);
        sums.push(added(sum_in(&sums, place), weight))?;
    }
    Ok(sums)
}

// The sum of one link more.
fn added(sum: i64, weight: i64) -> i64
    requires sum { unsigned_abs sum < 2 ^ 45 }
    requires weight { unsigned_abs weight < 2 ^ 35 }
    ensures { result ≡ sum +ℤ weight }
{
    sum + weight
}

// What a link allows.
fn weight_of(base: &[Bound], others: &[Bound], link: Link) -> i64
    requires { link.place < length base.now + length others.now }
    ensures value { result ≡ (arc_of (base.now ++ others.now) link).weight }
    ensures small { unsigned_abs result < 2 ^ 35 }
{
    let bound = bound_at(base, others, link.place);
    match link.side {
        Side::Upper => bound.hi().get(),
        Side::Lower => -bound.lo().get(),
    }
}

// How far the sums lie before 0, and after it.
fn reach_of(sums: &[i64]) -> (u64, u64)
    requires { All (λ sum. unsigned_abs sum < 2 ^ 45) sums.now }
    ensures before { result.0 ≡ greatest early sums.now }
    ensures after { result.1 ≡ greatest late sums.now }
    ensures small { (result.0 < 2 ^ 45) × (result.1 < 2 ^ 45) }
{
    let (mut before, mut after) = (0, 0);
    for place in 0..sums.len() {
        let sum = sum_in(sums, place);
        before = early(sum).max(before);
        after = late(sum).max(after);
    }
    (before, after)
}

// How far a time lies before 0.
fn early(time: i64) -> u64
    ensures value { result ≡ early time }
    ensures small { result ≤ unsigned_abs time }
{
    if time < 0 { time.unsigned_abs() } else { 0 }
}

// How far it lies after 0.
fn late(time: i64) -> u64
    ensures value { result ≡ late time }
    ensures small { result ≤ unsigned_abs time }
{
    if time < 0 { 0 } else { time.unsigned_abs() }
}
