//! The records of a loosened plan, one after the other, with the matrix of all bounds; and those of the robust plan after them, with a
//! network of all bounds, since each bound on starts would move most entries of the matrix.

ghost use Rattle.std.specs.Prelude.{◌≡◌, ◌+◌, ◌<◌, ◌≤◌, ◌↔◌, ◌∷◌, [], pos, ◌≤ℤ◌, length, map, All, IsTrue, IfOk, IfErr, OnOk};
ghost use Rattle.stn_net.specs.{Event.most_events, Difference.NamesEvents, Horizon.horizon_bounds, Schedule.HasSchedule};
ghost use Rattle.stn_conflict.specs.Distances.{TellsWithin};
ghost use Rattle.stn_records.specs.Content.{most_known};
ghost use Rattle.stn_loosen.specs.{Slack.loose, Loosened.Imply, Moved.moved_bounds, Stepped.{AreSteps, as_bound, IsWithinReach, IsHalfOpen, IsCauseBehind, IsCauseIn}, Making.{made_bounds, with_more, AreMadeBehind, IsShown, IsCauseOf, IsCauseWith}};

use crate::span::{Span, moved_sides};
use crate::tolerance::Tolerance;
use std::alloc::Allocator;
use std::marker::Model;
use stn_conflict::Network;
use stn_matrix::Matrix;
use stn_net::{Bound, Event};
use stn_records::MOST_KNOWN;
use stn_refusal::{Code, Failure};
use stn_time::{HORIZON, Memory};

/// The records that were made so far over a bare plan, no more than a site may know, and the matrix of all bounds.
#[derive(Drop)]
pub struct Making<A: Allocator> {
    records: Vec<Bound, A>,
    matrix: Matrix<A>,
}

impl<A: Allocator> Model for Making<A> {
    ghost use Rattle.stn_loosen.specs.Making.{Loosening, loosening_of, AreTaken};

    ghost Value = { Loosening };

    ghost view = { λ m. loosening_of m.matrix m.records.items };

    ghost invariant = { λ m. AreTaken m.records.items m.matrix };
}

/// The records of the loosened plan and those made after them, a network of all bounds, and the matrix of those of the loosened plan.
#[derive(Drop)]
pub struct Moving<A: Allocator> {
    records: Vec<Bound, A>,
    matrix: Matrix<A>,
    network: Network<A>,
}

impl<A: Allocator> Model for Moving<A> {
    ghost use Rattle.stn_loosen.specs.Making.{Loosening, loosening_of, IsSearched};

    ghost Value = { Loosening };

    ghost view = { λ m. loosening_of m.matrix m.records.items };

    ghost invariant = { λ m. IsSearched m.records.items m.matrix m.network };
}

impl<A: Allocator + Copy> Making<A> {
    /// No records, over a bare plan with so many events.
    pub fn new(alloc: A, events: u16) -> Result<Making<A>, Memory>
        requires { events ≤ most_events }
        ensures { IfOk result (λ making. making ≡ record { events = events; records = [] }) }
    {
        Ok(Making {
            records: Vec::new(alloc),
            matrix: Matrix::bare(alloc, events)?,
        })
    }

    /// The records.
    pub fn records(&self) -> &[Bound]
        ensures value { result.now ≡ self.now.records }
        ensures named { All (NamesEvents self.now.events) result.now }
        ensures few { length result.now ≤ most_known }
    {
        &self.records
    }

    /// The same, and nothing else.
    pub fn into_records(self) -> Vec<Bound, A>
        ensures value { result.items ≡ self.records }
        ensures named { All (NamesEvents self.events) result.items }
        ensures few { length result.items ≤ most_known }
    {
        self.records
    }

    /// Makes the bounds of durations, with a tolerance.
    pub fn make_durations(
        &mut self,
        durations: &[Bound],
        tolerance: Tolerance,
    ) -> Result<(), Memory>
        requires named { All (NamesEvents self.old.events) durations.now }
        requires lasting { All (λ duration. pos 0 ≤ℤ duration.lo) durations.now }
        requires possible { HasSchedule (made_bounds (with_more self.old (map (loose tolerance) durations.now))) }
        requires few { length self.old.records + length durations.now ≤ most_known }
        ensures { OnOk result (self.new ≡ with_more self.old (map (loose tolerance) durations.now)) }
    {
        for duration in durations {
            self.make(tolerance.loose(duration))?;
        }
        Ok(())
    }

    /// Makes each of the orders that is not implied by then.
    pub fn make_orders(&mut self, orders: &[Bound]) -> Result<(), Failure>
        requires named { All (NamesEvents self.old.events) orders.now }
        requires possible { HasSchedule (made_bounds (with_more self.old orders.now)) }
        ensures made { OnOk result (AreMadeBehind self.old orders.now self.new) }
        ensures fault { IfErr result (IsCauseWith self.old orders.now) }
    {
        for order in orders {
            self.make_order(*order)?;
        }
        Ok(())
    }

    // Makes an order, where it is not implied.
    fn make_order(&mut self, order: Bound) -> Result<(), Failure>
        requires named { NamesEvents self.old.events order }
        requires possible { HasSchedule (made_bounds (with_more self.old (order ∷ []))) }
        ensures made { OnOk result (AreMadeBehind self.old (order ∷ []) self.new) }
        ensures fault { IfErr result (IsCauseOf self.old order) }
    {
        if self.implies(&Span::of(&order)) {
            return Ok(());
        }
        if self.records().len() == MOST_KNOWN {
            return Err(Failure::refused(Code::Full));
        }
        self.make(order)?;
        Ok(())
    }

    // Whether all bounds imply another.
    fn implies(&self, span: &Span) -> bool
        requires named { NamesEvents self.now.events (as_bound span.now) }
        requires reach { IsWithinReach (as_bound span.now) }
        ensures { IsTrue result ↔ Imply (made_bounds self.now) (as_bound span.now) }
    {
        shows(&self.matrix, span)
    }

    // Makes one more record.
    fn make(&mut self, bound: Bound) -> Result<(), Memory>
        requires named { NamesEvents self.old.events bound }
        requires possible { HasSchedule (made_bounds (with_more self.old (bound ∷ []))) }
        requires room { length self.old.records < most_known }
        ensures { OnOk result (self.new ≡ with_more self.old (bound ∷ [])) }
    {
        self.records.push(bound)?;
        let _fits = self.matrix.tighten(bound);
        Ok(())
    }
}

impl<A: Allocator + Copy> Moving<A> {
    /// The records of the loosened plan, whose horizon is given.
    pub fn after(alloc: A, making: Making<A>, horizon: &[Bound]) -> Result<Moving<A>, Memory>
        requires { horizon.now ≡ horizon_bounds making.events }
        ensures { IfOk result (λ moving. moving ≡ making) }
    {
        let Making { records, matrix } = making;
        let network = Network::new(alloc, matrix.events(), horizon, &records)?;
        Ok(Moving {
            records,
            matrix,
            network,
        })
    }

    /// Makes each side of the bounds, moved from the ends of these durations to their starts, that is not implied by then, however many
    /// there are, and returns all records. Refused as `NotRobust` where there is no schedule with all of them.
    pub fn with_moved(self, durations: &[Bound], bounds: &[Bound]) -> Result<Vec<Bound, A>, Failure>
        requires steps { AreSteps durations.now }
        requires named { All (NamesEvents self.events) bounds.now }
        ensures made { IfOk result (λ records. AreMadeBehind self (moved_bounds durations.now bounds.now) (record self { records = records.items })) }
        ensures possible { IfOk result (λ records. HasSchedule (made_bounds (record self { records = records.items }))) }
        ensures fault { IfErr result (IsCauseBehind self (moved_bounds durations.now bounds.now)) }
    {
        let mut moving = self;
        for bound in bounds {
            moving = moving.with_sides(durations, bound)?;
        }
        moving.possible_records()
    }

    // The records, where all bounds have a schedule: there may be none with the bounds that were made last.
    fn possible_records(self) -> Result<Vec<Bound, A>, Failure>
        ensures value { IfOk result (λ records. records.items ≡ self.records) }
        ensures possible { IfOk result (λ records. HasSchedule (made_bounds (record self { records = records.items }))) }
        ensures fault { IfErr result (IsCauseIn (made_bounds self)) }
    {
        let mut network = self.network;
        is_within(&mut network, Event::origin(), Event::origin(), 0)?;
        Ok(self.records)
    }

    fn events(&self) -> u16
        ensures { result ≡ self.now.events }
    {
        self.matrix.events()
    }

    // The same with each side of one bound, moved to starts.
    fn with_sides(self, durations: &[Bound], bound: &Bound) -> Result<Moving<A>, Failure>
        requires steps { AreSteps durations.now }
        requires named { NamesEvents self.events bound.now }
        ensures made { IfOk result (AreMadeBehind self (moved_bounds durations.now (bound.now ∷ []))) }
        ensures fault { IfErr result (IsCauseBehind self (moved_bounds durations.now (bound.now ∷ []))) }
    {
        let (upper, lower) = moved_sides(durations, bound);
        self.with_side(&upper)?.with_side(&lower)
    }

    // The same with the side of a bound, where it is not implied.
    fn with_side(self, side: &Span) -> Result<Moving<A>, Failure>
        requires named { NamesEvents self.events (as_bound side.now) }
        requires open { IsHalfOpen (as_bound side.now) }
        requires reach { IsWithinReach (as_bound side.now) }
        ensures made { IfOk result (AreMadeBehind self (as_bound side.now ∷ [])) }
        ensures fault { IfErr result (IsCauseBehind self (as_bound side.now ∷ [])) }
    {
        let mut moving = self;
        if moving.implies(side)? {
            return Ok(moving);
        }
        let Some(bound) = side.bound(moving.events()) else {
            return Err(Failure::refused(Code::NotRobust));
        };
        Ok(moving.with(bound)?)
    }

    // The same with one record more.
    fn with(self, bound: Bound) -> Result<Moving<A>, Memory>
        requires { NamesEvents self.events bound }
        ensures { IfOk result (λ moving. moving ≡ with_more self (bound ∷ [])) }
    {
        let Moving {
            mut records,
            matrix,
            mut network,
        } = self;
        records.push(bound)?;
        network.push(bound)?;
        Ok(Moving {
            records,
            matrix,
            network,
        })
    }

    // Whether all bounds imply another with an open side, which the horizon implies: where those of the matrix imply it, all do; else the
    // network tells of the other side.
    fn implies(&mut self, side: &Span) -> Result<bool, Failure>
        requires named { NamesEvents self.old.events (as_bound side.now) }
        requires open { IsHalfOpen (as_bound side.now) }
        requires reach { IsWithinReach (as_bound side.now) }
        ensures value { IfOk result (λ implied. IsTrue implied ↔ Imply (made_bounds self.old) (as_bound side.now)) }
        ensures same { self.new ≡ self.old }
        ensures fault { IfErr result (IsCauseIn (made_bounds self.old)) }
    {
        if shows(&self.matrix, side) {
            return Ok(true);
        }
        if side.lo == -HORIZON {
            is_within(&mut self.network, side.from, side.to, side.hi)
        } else {
            is_within(&mut self.network, side.to, side.from, -side.lo)
        }
    }
}

// Whether the matrix shows that its bounds imply another.
fn shows<A: Allocator + Copy>(matrix: &Matrix<A>, span: &Span) -> bool
    requires named { NamesEvents matrix.now.events (as_bound span.now) }
    requires reach { IsWithinReach (as_bound span.now) }
    ensures { IsTrue result ↔ IsShown matrix.now (as_bound span.now) }
{
    matrix.far(span.from, span.to).get() <= span.hi
        && span.lo <= -matrix.far(span.to, span.from).get()
}

// Whether one event comes at most so long after another in each schedule of the network's bounds. Refused as `NotRobust` where they have
// none.
fn is_within<A: Allocator + Copy>(
    network: &mut Network<A>,
    from: Event,
    to: Event,
    most: i64,
) -> Result<bool, Failure>
    requires from { from ≤ network.old.events }
    requires to { to ≤ network.old.events }
    ensures told { IfOk result (TellsWithin network.old.bounds from to most) }
    ensures same { network.new ≡ network.old }
    ensures fault { IfErr result (IsCauseIn network.old.bounds) }
{
    match network.is_within(from, to, most)? {
        Some(within) => Ok(within),
        None => Err(Failure::refused(Code::NotRobust)),
    }
}
