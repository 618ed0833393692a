//! Bounds on starts that contradict each other.

ghost use Rattle.std.specs.Prelude.{◌≡◌, ◌<◌, ◌≤◌, ℕ, length, map, take, All, IfOk, MatchOption, slice_index};
ghost use Rattle.stn_net.specs.{Event.most_events, Horizon.horizon_bounds, Schedule.HasSchedule};
ghost use Rattle.stn_conflict.specs.Arcs.{IsNegativeCycle};
ghost use Rattle.stn_loosen.specs.{Starting.{IsStart, AreCrossed, link_moved}, Stepped.as_bound};

use crate::span::Span;
use std::alloc::Allocator;
use stn_conflict::{Link, Side, cycle};
use stn_net::Bound;
use stn_time::Memory;

/// A closed chain of bounds on starts with a negative sum; none exactly where they have a schedule. There are so many `events`
/// beside the origin, and the bounds begin with those of the horizon. It fails only if memory runs out.
pub fn crossed_starts<A: Allocator + Copy>(
    alloc: A,
    events: u16,
    horizon: &[Bound],
    starts: &[Span],
) -> Result<Option<Vec<Link, A>>, Memory>
    requires few { events ≤ most_events }
    requires horizon { horizon.now ≡ horizon_bounds events }
    requires begins { take events (map as_bound starts.now) ≡ horizon_bounds events }
    requires sound { All (IsStart events) (map as_bound starts.now) }
    ensures { IfOk result (λ found. MatchOption found (HasSchedule (map as_bound starts.now)) (λ links. IsNegativeCycle (map as_bound starts.now) links.items)) }
{
    let mut chosen = Vec::new(alloc);
    let mut places = places_before(alloc, events)?;
    for place in usize::from(events)..starts.len() {
        let span = &starts[place];
        let own = crossed_alone(alloc, place, span)?;
        if !own.is_empty() {
            return Ok(Some(own));
        }
        if let Some(bound) = span.bound(events) {
            chosen.push(bound)?;
            places.push(place)?;
        }
    }
    match cycle(alloc, events, horizon, &chosen)? {
        Some(found) => Ok(Some(placed(alloc, &places, &found.links)?)),
        None => Ok(None),
    }
}

// The places of so many bounds, the first ones.
fn places_before<A: Allocator + Copy>(alloc: A, count: u16) -> Result<Vec<usize, A>, Memory>
    ensures long { IfOk result (λ places. length places.items ≡ count) }
    ensures same { IfOk result (λ places. (k : ℕ) → k < count → slice_index places.items k ≡ k) }
{
    let mut places = Vec::new(alloc);
    for place in 0..count {
        places.push(usize::from(place))?;
    }
    Ok(places)
}

// The links of a bound at a place that contradict each other; none, if they don't.
fn crossed_alone<A: Allocator + Copy>(
    alloc: A,
    place: usize,
    span: &Span,
) -> Result<Vec<Link, A>, Memory>
    ensures { IfOk result (λ links. AreCrossed (as_bound span.now) place links.items) }
{
    let side = Side::Upper;
    let upper = Link { place, side };
    let side = Side::Lower;
    let lower = Link { place, side };
    if span.hi < span.lo {
        Vec::from_slice(alloc, &[upper, lower])
    } else if span.from == span.to && span.hi < 0 {
        Vec::from_slice(alloc, &[upper])
    } else if span.from == span.to && 0 < span.lo {
        Vec::from_slice(alloc, &[lower])
    } else {
        Ok(Vec::new(alloc))
    }
}

// The links, each at the place that its own place stands for.
fn placed<A: Allocator + Copy>(
    alloc: A,
    places: &[usize],
    links: &[Link],
) -> Result<Vec<Link, A>, Memory>
    requires { All (λ link. link.place < length places.now) links.now }
    ensures { IfOk result (λ all. all.items ≡ map (link_moved places.now) links.now) }
{
    let mut all = Vec::new(alloc);
    for link in links {
        all.push(Link {
            place: places[link.place],
            side: link.side,
        })?;
    }
    Ok(all)
}
