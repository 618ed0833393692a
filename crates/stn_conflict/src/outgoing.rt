ghost use Rattle.std.specs.{Prelude.{◌≡◌, ◌+◌, ◌*◌, ◌^◌, ◌<◌, ◌++◌, ◌||◌, length, All, IfOk, OnOk, OnErr, List}, List.Sorted.IsNonDecreasingBy};
ghost use Rattle.stn_net.specs.Difference.{Difference};
ghost use Rattle.stn_conflict.specs.{Arcs.{bound_at, rank}, Search.across, Relaxation.{AreFirstRows, AreRows, IsCutAt, NamesAmong}};

use crate::arcs::{Direction, bound_in, side_of};
use crate::links::{Link, Side};
use std::alloc::Allocator;
use stn_net::{Bound, Event};
use stn_time::{HORIZON, Memory, Ms};

// A link as it is looked at from the event at which it begins: where it ends, and how long after the one event the other
// can come by it.
#[derive(Clone, Copy)]
pub(crate) struct Look {
    pub link: Link,
    pub to: Event,
    pub weight: Ms,
}

// The first so many links of bounds, or of these turned round, by the event at which they begin, in their order. Of all
// but the first bounds, as many as are whole, links that say no more than the horizon are left out.
#[derive(Drop)]
pub(crate) struct Rows<A: Allocator> {
    pub direction: Direction,
    pub whole: usize,
    pub outgoing: Vec<Vec<Look, A>, A>,
    added: usize,
}

impl<A: Allocator + Copy> Rows<A> {
    // The links of the bounds of both slices, which are about so many events beside the origin.
    pub fn of(
        alloc: A,
        direction: Direction,
        whole: usize,
        events: u16,
        base: &[Bound],
        extra: &[Bound],
    ) -> Result<Rows<A>, Memory>
        requires { All (NamesAmong (events + 1)) (base.now ++ extra.now) }
        ensures { IfOk result (AreRows direction whole (base.now ++ extra.now) (events + 1)) }
    {
        let links = 2 * (base.len() + extra.len());
        let each = links / (usize::from(events) + 1);
        let mut rows = Rows::new(alloc, direction, whole, events, each)?;
        rows.add(base, extra)?;
        Ok(rows)
    }

    // No links, among so many events beside the origin, with place for so many from each.
    #[tactic(auto, using(std::proofs::lemmas::List::length_push, crate::proofs::Rows::rows_empty, crate::proofs::Rows::rows_of_none))]
    pub fn new(
        alloc: A,
        direction: Direction,
        whole: usize,
        events: u16,
        each: usize,
    ) -> Result<Rows<A>, Memory>
        ensures { IfOk result (λ rows. (bounds : List Difference) → AreFirstRows direction whole bounds (events + 1) rows) }
    {
        let mut outgoing = Vec::new(alloc);
        for _ in 0..usize::from(events) + 1 {
            outgoing.push(Vec::with_capacity(alloc, each)?)?;
        }
        Ok(Rows {
            direction,
            whole,
            outgoing,
            added: 0,
        })
    }

    // Adds the links of the bounds of both slices that are not there yet.
    pub fn add(&mut self, base: &[Bound], extra: &[Bound]) -> Result<(), Memory>
        requires named { All (NamesAmong (length self.old.outgoing.items)) (base.now ++ extra.now) }
        requires rows { AreFirstRows self.old.direction self.old.whole (base.now ++ extra.now) (length self.old.outgoing.items) self.old }
        ensures rows { AreFirstRows self.old.direction self.old.whole (base.now ++ extra.now) (length self.old.outgoing.items) self.new }
        ensures all { OnOk result (AreRows self.old.direction self.old.whole (base.now ++ extra.now) (length self.old.outgoing.items) self.new) }
    {
        for place in self.added / 2..base.len() + extra.len() {
            let bound = bound_in(base, extra, place);
            if self.added == 2 * place {
                let side = Side::Upper;
                self.add_next(&bound, Link { place, side })?;
            }
            let side = Side::Lower;
            self.add_next(&bound, Link { place, side })?;
        }
        Ok(())
    }

    // Adds the next link, which is one of the bound's.
    fn add_next(&mut self, bound: &Bound, link: Link) -> Result<(), Memory>
        requires named { NamesAmong (length self.old.outgoing.items) bound.now }
        requires next { rank link ≡ self.old.added }
        requires few { self.old.added + 1 < 2 ^ 64 }
        ensures rows { (bounds : List Difference) → link.place < length bounds → bound_at bounds link.place ≡ bound.now
            → AreFirstRows self.old.direction self.old.whole bounds (length self.old.outgoing.items) self.old
            → AreFirstRows self.old.direction self.old.whole bounds (length self.old.outgoing.items) self.new }
        ensures count { length self.new.outgoing.items ≡ length self.old.outgoing.items }
        ensures added { OnOk result (self.new.added ≡ self.old.added + 1) }
        ensures kept { OnErr result (self.new.added ≡ self.old.added) }
    {
        let arc = side_of(self.direction, bound, link.side);
        let weight = arc.weight.get();
        if link.place < self.whole || weight < HORIZON {
            let look = Look {
                link,
                to: arc.to,
                weight: arc.weight,
            };
            self.outgoing[usize::from(arc.from.number())].push(look)?;
        }
        self.added += 1;
        Ok(())
    }

    // Drops the looks at links of bounds from a place on.
    pub fn cut(&mut self, place: usize)
        requires { (all : List Difference) × AreFirstRows self.old.direction self.old.whole all (length self.old.outgoing.items) self.old }
        ensures rows { (bounds more : List Difference) → place ≡ length bounds
            → AreFirstRows self.old.direction self.old.whole (bounds ++ more) (length self.old.outgoing.items) self.old
            → AreFirstRows self.old.direction self.old.whole bounds (length self.old.outgoing.items) self.new }
    {
        for event in 0..self.outgoing.len() {
            let kept = looks_before(&self.outgoing[event], place);
            self.outgoing[event].truncate(kept);
        }
        if place <= self.added / 2 {
            self.added = 2 * place;
        }
    }
}

// How many looks of a row are at links of bounds before a place.
pub(crate) fn looks_before(row: &[Look], place: usize) -> usize
    requires { IsNonDecreasingBy (λ look. look.link.place) row.now }
    ensures { IsCutAt row.now place result }
{
    row.partition_point(|look| look.link.place < place)
}

// The link of the other side of the bound: it begins where the link ends, and ends where it begins.
pub(crate) fn across(link: Link) -> Link
    ensures { result ≡ across link }
{
    let side = match link.side {
        Side::Upper => Side::Lower,
        Side::Lower => Side::Upper,
    };
    Link {
        place: link.place,
        side,
    }
}
