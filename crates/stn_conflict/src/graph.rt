ghost use Rattle.std.specs.Prelude.{◌≡◌, ◌+◌, ◌<◌, ◌≤◌, ◌≤ℤ◌, ◌++◌, length, take, All};
ghost use Rattle.stn_conflict.specs.{Arcs.{arc_of, bound_at}, Directions.facing, Relaxation.{AreRows, IsRow, NamesAmong}};

use crate::arcs::{Arc, Direction, bound_in, side_of};
use crate::links::Link;
use crate::outgoing::{Look, Rows, looks_before};
use std::alloc::Allocator;
use std::marker::Model;
use stn_net::Bound;

// Bounds that stand in two slices, one after the other, as far as a place, and the rows of their links: none of them is
// ever copied. All are turned round where the rows are; each link begins and ends at the same events in both directions.
#[derive(Drop)]
pub(crate) struct Graph<'a, A: Allocator> {
    events: u16,
    base: &'a [Bound],
    extra: &'a [Bound],
    end: usize,
    rows: &'a Rows<A>,
}

impl<'a, A: Allocator> Model for Graph<'a, A> {
    ghost use Rattle.std.specs.Prelude.{◌+◌, ◌≤◌, ◌++◌, length, take};
    ghost use Rattle.stn_conflict.specs.{Directions.facing, Relaxation.{Searched, HasRows}};

    ghost Value = { Searched };

    ghost view = { λ g. record { direction = g.rows.now.direction; whole = g.rows.now.whole; events = g.events; bounds = facing g.rows.now.direction (take g.end (g.base.now ++ g.extra.now)) } };

    ghost invariant = { λ g. HasRows g.events g.end (g.base.now ++ g.extra.now) g.rows.now };
}

impl<'a, A: Allocator> Graph<'a, A> {
    // The bounds of both slices, which are about so many events beside the origin.
    pub fn new(
        events: u16,
        base: &'a [Bound],
        extra: &'a [Bound],
        rows: &'a Rows<A>,
    ) -> Graph<'a, A>
        requires named { All (NamesAmong (events + 1)) (base.now ++ extra.now) }
        requires rows { AreRows rows.now.direction rows.now.whole (base.now ++ extra.now) (events + 1) rows.now }
        ensures { result ≡ record { direction = rows.now.direction; whole = rows.now.whole; events = events; bounds = facing rows.now.direction (base.now ++ extra.now) } }
    {
        Graph {
            events,
            base,
            extra,
            end: base.len() + extra.len(),
            rows,
        }
    }

    pub fn len(&self) -> usize
        ensures { result ≡ length self.now.bounds }
    {
        self.end
    }

    // The number of events, with the origin.
    pub fn count(&self) -> usize
        ensures { result ≡ self.now.events + 1 }
    {
        self.rows.outgoing.len()
    }

    // The bounds before a place.
    pub fn before(&self, place: usize) -> Graph<'a, A>
        requires { place ≤ length self.now.bounds }
        ensures { result ≡ record self.now { bounds = take place self.now.bounds } }
    {
        Graph {
            events: self.events,
            base: self.base,
            extra: self.extra,
            end: place,
            rows: self.rows,
        }
    }

    // Whether a search is soonest done from the first event to the last: a plan's events mostly come in their order, so how
    // early each can be follows from those before it, and how late from those after it.
    pub fn first_onward(&self) -> bool {
        match self.rows.direction {
            Direction::Forward => false,
            Direction::Backward => true,
        }
    }

    // The looks from an event at links of the bounds, in the order of these.
    pub fn row(&self, event: usize) -> &'a [Look]
        requires { event < self.now.events + 1 }
        ensures { IsRow self.now event result.now }
    {
        let rows = self.rows;
        let row = &rows.outgoing[event];
        &row[..looks_before(row, self.end)]
    }

    pub fn arc(&self, link: Link) -> Arc
        requires { link.place < length self.now.bounds }
        ensures from { result.from ≡ (arc_of self.now.bounds link).from }
        ensures to { result.to ≡ (arc_of self.now.bounds link).to }
        ensures weight { result.weight ≡ (arc_of self.now.bounds link).weight }
        ensures ordered { (bound_at self.now.bounds link.place).lo ≤ℤ (bound_at self.now.bounds link.place).hi }
    {
        let bound = bound_in(self.base, self.extra, link.place);
        side_of(self.rows.direction, &bound, link.side)
    }
}
