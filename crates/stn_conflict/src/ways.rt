ghost use Rattle.std.specs.Prelude.{◌≡◌, ◌+◌, ◌<◌, ◌≤◌, ◌↔◌, ◌++◌, length, take, reverse, All, IsNone, IfOk, IfSome, MatchOption};
ghost use Rattle.stn_net.specs.{Event.most_events, Difference.NamesEvents, Schedule.HasSchedule, Horizon.horizon_bounds};
ghost use Rattle.stn_conflict.specs.{Relaxation.{AreDistances, IsNetwork}, Named.{IsWay, IsWayOf}};

use crate::arcs::Direction;
use crate::graph::Graph;
use crate::levels::{first_step, levels_from};
use crate::links::{BothWays, Link, Way};
use crate::outgoing::Rows;
use crate::relaxation::Search;
use std::alloc::Allocator;
use stn_net::{Bound, Event};
use stn_time::{Memory, Ms};

/// The ways from one event to another and back, over the bounds of `base` followed by those of `extra`, with places
/// counted from 0 through both: the sides of bounds that let `to` come at most so long after `from`, and `from` after
/// `to`; none exactly where these bounds have no schedule. There are so many `events` beside the origin, `base` begins
/// with their horizon bounds, and all bounds are about them. It fails only if memory runs out.
pub fn both_ways<A: Allocator + Copy>(
    alloc: A,
    events: u16,
    base: &[Bound],
    extra: &[Bound],
    from: Event,
    to: Event,
) -> Result<Option<BothWays<A>>, Memory>
    requires few { events ≤ most_events }
    requires begins { take events base.now ≡ horizon_bounds events }
    requires base_named { All (NamesEvents events) base.now }
    requires extra_named { All (NamesEvents events) extra.now }
    requires from { from ≤ events }
    requires to { to ≤ events }
    ensures none { IfOk result (λ found. IsNone found ↔ ¬ HasSchedule (base.now ++ extra.now)) }
    ensures onward { IfOk result (λ found. IfSome found
        (λ both. IsWayOf (base.now ++ extra.now) from to (events + 1) both.onward.links.items both.onward.sum)) }
    ensures back { IfOk result (λ found. IfSome found
        (λ both. IsWayOf (base.now ++ extra.now) to from (events + 1) both.back.links.items both.back.sum)) }
{
    let whole = base.len() + extra.len();
    let rows = Rows::of(alloc, Direction::Forward, whole, events, base, extra)?;
    let graph = Graph::new(events, base, extra, &rows);
    let Some(onward) = way(alloc, &graph, from, to)? else {
        return Ok(None);
    };
    let Some(back) = way(alloc, &graph, to, from)? else {
        return Ok(None);
    };
    Ok(Some(BothWays { onward, back }))
}

// The way over the bounds, or none where they have no schedule.
fn way<A: Allocator + Copy>(
    alloc: A,
    graph: &Graph<'_, A>,
    from: Event,
    to: Event,
) -> Result<Option<Way<A>>, Memory>
    requires few { graph.now.events ≤ most_events }
    requires kept { graph.now.events ≤ graph.now.whole }
    requires whole { length graph.now.bounds ≤ graph.now.whole }
    requires network { IsNetwork graph.now.events graph.now.bounds }
    requires from { from ≤ graph.now.events }
    requires to { to ≤ graph.now.events }
    ensures { IfOk result (λ found. MatchOption found (¬ HasSchedule graph.now.bounds)
        (λ way. IsWayOf graph.now.bounds from to (graph.now.events + 1) way.links.items way.sum)) }
{
    let Some(search) = Search::found(alloc, graph, from)? else {
        return Ok(None);
    };
    Ok(Some(way_to(alloc, graph, &search.far, from, to)?))
}

// The way from `start` to `end`, with its sum.
fn way_to<A: Allocator + Copy>(
    alloc: A,
    graph: &Graph<'_, A>,
    far: &[Ms],
    start: Event,
    end: Event,
) -> Result<Way<A>, Memory>
    requires far { AreDistances graph.now.bounds start far.now }
    requires few { length far.now ≤ most_events + 1 }
    requires long { length far.now ≡ graph.now.events + 1 }
    requires whole { length graph.now.bounds ≤ graph.now.whole }
    requires end { end < length far.now }
    ensures { IfOk result (λ way. IsWayOf graph.now.bounds start end (length far.now) way.links.items way.sum) }
{
    let mut links = way_back(alloc, graph, far, start, end)?;
    links.reverse();
    Ok(Way {
        links,
        sum: far[usize::from(end.number())].get(),
    })
}

// The way from `start` to `end`, its last link first: each is the first step to the event to which the way has come.
pub(crate) fn way_back<A: Allocator + Copy>(
    alloc: A,
    graph: &Graph<'_, A>,
    far: &[Ms],
    start: Event,
    end: Event,
) -> Result<Vec<Link, A>, Memory>
    requires far { AreDistances graph.now.bounds start far.now }
    requires few { length far.now ≤ most_events + 1 }
    requires long { length far.now ≡ graph.now.events + 1 }
    requires whole { length graph.now.bounds ≤ graph.now.whole }
    requires end { end < length far.now }
    ensures way { IfOk result (λ links. IsWay graph.now.bounds start end (reverse links.items)) }
    ensures short { IfOk result (λ links. length links.items < length far.now) }
{
    let levels = levels_from(alloc, graph, far, start)?;
    let mut links = Vec::new(alloc);
    let mut here = end;
    while let Some(link) = first_step(graph, far, start, &levels, here) {
        links.push(link)?;
        here = graph.arc(link).from;
    }
    Ok(links)
}
