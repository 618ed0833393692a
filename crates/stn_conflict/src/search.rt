ghost use Rattle.std.specs.Prelude.{◌≡◌, ◌+◌, ◌<◌, ◌≤◌, ◌↔◌, ◌≤ℤ◌, neg_ℤ, pos, ◌*ℤ◌, ◌++◌, length, take, All, IsNone, IfOk, IfSome, MatchOption};
ghost use Rattle.stn_time.specs.Time.{horizon};
ghost use Rattle.stn_net.specs.{Event.most_events, Difference.NamesEvents, Schedule.HasSchedule, Horizon.horizon_bounds};
ghost use Rattle.stn_conflict.specs.{Arcs.{arc, bound_at, weight_of, IsNegativeCycle}, Culprit.IsRefusedSide, Relaxation.{AreDistances, AreEstimates, HasTables, IsNetwork}, Named.IsNamedCycle, Search.{IsCycleOf, IsFirstRefused}};

use crate::arcs::Direction;
use crate::graph::Graph;
use crate::links::{Cycle, Link, Side};
use crate::outgoing::Rows;
use crate::relaxation::Search;
use crate::ways::way_back;
use std::alloc::Allocator;
use stn_net::{Bound, Event};
use stn_time::{Memory, Ms};

/// The named cycle of the bounds of `base` followed by those of `extra`, with places counted from
/// 0 through both; none exactly where these bounds have a schedule. There are so many `events`
/// beside the origin, `base` begins with their horizon bounds, and all bounds are about them. It
/// fails only if memory runs out.
#[tactic(auto, using(crate::proofs::Known::known_first, crate::proofs::Found::told_of_cycle, crate::proofs::Found::found_none, crate::proofs::CycleSums::negative_no_schedule))]
pub fn cycle<A: Allocator + Copy>(
    alloc: A,
    events: u16,
    base: &[Bound],
    extra: &[Bound],
) -> Result<Option<Cycle<A>>, Memory>
    requires few { events ≤ most_events }
    requires begins { take events base.now ≡ horizon_bounds events }
    requires base_named { All (NamesEvents events) base.now }
    requires extra_named { All (NamesEvents events) extra.now }
    ensures none { IfOk result (λ found. IsNone found ↔ HasSchedule (base.now ++ extra.now)) }
    ensures named { IfOk result (λ found. IfSome found
        (λ cycle. IsNamedCycle (base.now ++ extra.now) cycle.links.items)) }
    ensures negative { IfOk result (λ found. IfSome found
        (λ cycle. IsNegativeCycle (base.now ++ extra.now) cycle.links.items)) }
    ensures sum { IfOk result (λ found. IfSome found
        (λ cycle. cycle.sum ≡ weight_of (base.now ++ extra.now) cycle.links.items)) }
    ensures least { IfOk result (λ found. IfSome found
        (λ cycle. neg_ℤ (pos 2 *ℤ horizon) ≤ℤ cycle.sum)) }
    ensures places { IfOk result (λ found. IfSome found
        (λ cycle. All (λ link. link.place < length (base.now ++ extra.now)) cycle.links.items)) }
    ensures short { IfOk result (λ found. IfSome found
        (λ cycle. length cycle.links.items ≤ events + 1)) }
{
    let whole = base.len() + extra.len();
    let rows = Rows::of(alloc, Direction::Forward, whole, events, base, extra)?;
    let graph = Graph::new(events, base, extra, &rows);
    cycle_of(alloc, &graph)
}

// The named cycle of the bounds, or none where they have a schedule.
fn cycle_of<A: Allocator + Copy>(alloc: A, graph: &Graph<'_, A>) -> Result<Option<Cycle<A>>, Memory>
    requires few { graph.now.events ≤ most_events }
    requires kept { graph.now.events ≤ graph.now.whole }
    requires whole { length graph.now.bounds ≤ graph.now.whole }
    requires begins { take graph.now.events graph.now.bounds ≡ horizon_bounds graph.now.events }
    requires named { All (NamesEvents graph.now.events) graph.now.bounds }
    ensures { IfOk result (λ found. MatchOption found (HasSchedule graph.now.bounds)
        (λ cycle. IsCycleOf graph.now.bounds graph.now.events cycle.links.items cycle.sum)) }
{
    let mut search = Search::new(alloc, graph.count())?;
    match first_refused(alloc, graph, &mut search)? {
        Some(place) => Ok(Some(named(alloc, graph, &mut search, place)?)),
        None => Ok(None),
    }
}

// The place of the first bound with which the bounds have no schedule, by bisection. The distances of
// bounds that have a schedule are estimates for more of them.
#[tactic(auto, using(crate::proofs::Searches::tables_of))]
fn first_refused<A: Allocator + Copy>(
    alloc: A,
    graph: &Graph<'_, A>,
    search: &mut Search<A>,
) -> Result<Option<usize>, Memory>
    requires kept { graph.now.events ≤ graph.now.whole }
    requires begins { take graph.now.events graph.now.bounds ≡ horizon_bounds graph.now.events }
    requires named { All (NamesEvents graph.now.events) graph.now.bounds }
    requires tables { HasTables (graph.now.events + 1) search.old }
    ensures found { IfOk result (λ found. MatchOption found (HasSchedule graph.now.bounds)
        (IsFirstRefused graph.now.bounds graph.now.events)) }
    ensures tables { HasTables (graph.now.events + 1) search.new }
{
    search.begin(Event::origin());
    let mut known = Vec::from_slice(alloc, &search.far)?;
    if search.settle(graph) {
        return Ok(None);
    }
    Ok(Some(first_between(graph, search, &mut known)))
}

// The same place, where the bounds have no schedule, and `known` has estimates for the horizon bounds.
#[tactic(auto, using(crate::proofs::Known::more_than_known))]
fn first_between<A: Allocator + Copy>(
    graph: &Graph<'_, A>,
    search: &mut Search<A>,
    known: &mut [Ms],
) -> usize
    requires kept { graph.now.events ≤ graph.now.whole }
    requires begins { take graph.now.events graph.now.bounds ≡ horizon_bounds graph.now.events }
    requires named { All (NamesEvents graph.now.events) graph.now.bounds }
    requires tables { HasTables (graph.now.events + 1) search.old }
    requires known { AreEstimates (take graph.now.events graph.now.bounds) search.old.start known.old }
    requires long { length known.old ≡ graph.now.events + 1 }
    requires none { ¬ HasSchedule graph.now.bounds }
    ensures first { IsFirstRefused graph.now.bounds graph.now.events result }
    ensures tables { HasTables (graph.now.events + 1) search.new }
{
    let mut low = graph.count() - 1;
    let mut high = graph.len();
    while high - low > 1 {
        let middle = low + (high - low) / 2;
        search.far.copy_from_slice(known);
        if search.settle(&graph.before(middle)) {
            known.copy_from_slice(&search.far);
            low = middle;
        } else {
            high = middle;
        }
    }
    low
}

// The side of the bound at a place that the bounds before it refuse; the search then has the distances over these
// from the event at which the side's link ends.
fn refused_side<A: Allocator + Copy>(
    graph: &Graph<'_, A>,
    search: &mut Search<A>,
    place: usize,
) -> Side
    requires kept { graph.now.events ≤ graph.now.whole }
    requires network { IsNetwork graph.now.events (take place graph.now.bounds) }
    requires tables { HasTables (graph.now.events + 1) search.old }
    requires there { place < length graph.now.bounds }
    requires named { NamesEvents graph.now.events (bound_at graph.now.bounds place) }
    requires possible { HasSchedule (take place graph.now.bounds) }
    ensures side { IsRefusedSide (take place graph.now.bounds) (bound_at graph.now.bounds place) result }
    ensures tables { HasTables (graph.now.events + 1) search.new }
    ensures distances { AreDistances (take place graph.now.bounds) (arc (bound_at graph.now.bounds place) result).to search.new.far.items }
{
    let before = graph.before(place);
    let side = Side::Upper;
    let upper = graph.arc(Link { place, side });
    search.find(&before, upper.to);
    if search.far[usize::from(upper.from.number())].get() + upper.weight.get() < 0 {
        return side;
    }
    search.find(&before, upper.from);
    Side::Lower
}

// The named cycle, where the bound at the place is the first with which the bounds have no schedule.
#[tactic(auto, using(crate::proofs::Tightness::link_among, crate::proofs::Relaxing::among_events))]
fn named<A: Allocator + Copy>(
    alloc: A,
    graph: &Graph<'_, A>,
    search: &mut Search<A>,
    place: usize,
) -> Result<Cycle<A>, Memory>
    requires kept { graph.now.events ≤ graph.now.whole }
    requires whole { length graph.now.bounds ≤ graph.now.whole }
    requires begins { take graph.now.events graph.now.bounds ≡ horizon_bounds graph.now.events }
    requires named { All (NamesEvents graph.now.events) graph.now.bounds }
    requires tables { HasTables (graph.now.events + 1) search.old }
    requires first { IsFirstRefused graph.now.bounds graph.now.events place }
    ensures { IfOk result (λ cycle. IsCycleOf graph.now.bounds graph.now.events cycle.links.items cycle.sum) }
{
    let side = refused_side(graph, search, place);
    let link = Link { place, side };
    let arc = graph.arc(link);
    let before = graph.before(place);
    let mut links = way_back(alloc, &before, &search.far, arc.to, arc.from)?;
    links.push(link)?;
    links.reverse();
    Ok(Cycle {
        links,
        sum: arc.weight.get() + search.far[usize::from(arc.from.number())].get(),
    })
}
