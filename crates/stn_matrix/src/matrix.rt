//! The matrix of the tightest differences of a plan's events, closed by each bound that it takes.
ghost use Rattle.std.specs.Prelude.{◌≡◌, ◌+◌, ◌≤◌, ◌++◌, ◌∷◌, [], ◌↔◌, min, false, List, IsTrue, IfOk};
ghost use Rattle.stn_net.specs.{Difference.{Difference, NamesEvents}, Horizon.horizon_bounds, Schedule.HasSchedule, Event.most_events, Matrix.{Table.far_of, Tightest.{IsTightest, IsExact}}};

mod runs;
mod square;

use crate::matrix::square::Square;
use std::alloc::Allocator;
use std::marker::Model;
use stn_net::{Bound, Event};
use stn_time::{Memory, Ms};

/// The tightest differences of the events of a plan, in milliseconds: how much later than each
/// event each other can be in the schedules of a list of bounds (Dechter, Meiri and Pearl, 1991).
#[derive(Drop)]
pub struct Matrix<A: Allocator> {
    square: Square<A>,
    tightenings: u64,
}

impl<A: Allocator> Model for Matrix<A> {
    ghost use Rattle.stn_net.specs.Matrix.{Table.{Table, entry}, Closed.IsClosed};

    ghost Value = { Table };

    ghost view = { λ m. record { events = m.square.events; entries = m.square.entries; steps = m.tightenings } };

    ghost invariant = { λ m. IsClosed m.square.events (entry m.square) };
}

impl<A: Allocator> Matrix<A> {
    /// The matrix of so many events beside the origin and their horizon bounds alone; for lack of
    /// memory none. It asks for memory once, and no other call does.
    pub fn bare(alloc: A, events: u16) -> Result<Matrix<A>, Memory>
        requires { events ≤ most_events }
        ensures exact { IfOk result (λ matrix. IsExact (horizon_bounds events) matrix) }
        ensures events { IfOk result (λ matrix. matrix.events ≡ events) }
        ensures steps { IfOk result (λ matrix. matrix.steps ≡ 0) }
    {
        let square = Square::widest(alloc, events)?;
        Ok(Matrix {
            square,
            tightenings: 0,
        })
    }

    /// The number of events beside the origin.
    pub fn events(&self) -> u16
        ensures value { result ≡ self.now.events }
        ensures few { result ≤ most_events }
    {
        self.square.events()
    }

    /// How many bounds were taken; each copy added one and the count of the matrix that was copied.
    /// It stays at the greatest u64.
    pub fn steps(&self) -> u64
        ensures { result ≡ self.now.steps }
    {
        self.tightenings
    }

    /// How much later than `from` the event `to` can come at most.
    pub fn far(&self, from: Event, to: Event) -> Ms
        requires from { from ≤ self.now.events }
        requires to { to ≤ self.now.events }
        ensures entry { result ≡ far_of self.now from to }
        ensures far { (bounds : List Difference) → IsExact bounds self.now → IsTightest bounds from to result }
    {
        let row = usize::from(from.number());
        let column = usize::from(to.number());
        Ms::new(self.square.entry(row, column)).unwrap()
    }

    /// Takes one more bound, and answers true; false, and nothing changes, where the bounds taken
    /// so far have no schedule together with it.
    pub fn tighten(&mut self, bound: Bound) -> bool
        requires { NamesEvents self.old.events bound }
        ensures possible { (bounds : List Difference) → IsExact bounds self.old
            → (IsTrue result ↔ HasSchedule (bounds ++ bound ∷ [])) }
        ensures exact { (bounds : List Difference) → IsExact bounds self.old
            → IsTrue result → IsExact (bounds ++ bound ∷ []) self.new }
        ensures unchanged { result ≡ false → self.new ≡ self.old }
        ensures events { self.new.events ≡ self.old.events }
        ensures counted { IsTrue result → self.new.steps ≡ min (self.old.steps + 1) u64.MAX }
    {
        if !self.square.is_implied(bound) {
            if !self.square.has_room(bound) {
                return false;
            }
            self.square.narrow(bound);
        }
        self.tightenings = self.tightenings.saturating_add(1);
        true
    }

    /// Takes the entries of another matrix of as many events in place of its own, and adds one and
    /// the other's count to its own.
    pub fn copy_from(&mut self, other: &Matrix<A>)
        requires { self.old.events ≡ other.now.events }
        ensures exact { (bounds : List Difference) → IsExact bounds other.now → IsExact bounds self.new }
        ensures events { self.new.events ≡ other.now.events }
        ensures entries { self.new.entries ≡ other.now.entries }
        ensures steps { self.new.steps ≡ min (self.old.steps + other.now.steps + 1) u64.MAX }
    {
        self.square.copy_from(&other.square);
        self.tightenings = self
            .tightenings
            .saturating_add(other.tightenings)
            .saturating_add(1);
    }
}
