ghost use Rattle.std.specs.Prelude.{◌≡◌, ◌≢◌, ◌⊎◌, ℕ, ◌+◌, ◌*◌, ◌<◌, ◌≤◌, ◌↔◌, pos, ◌+ℤ◌, ◌≤ℤ◌, IsTrue, IfOk, length, take, Contains};
ghost use Rattle.stn_net.specs.{Difference.NamesEvents, Event.most_events, Matrix.{Closed.{IsClosed, IsWidest}, Table.{entry, entry_in}, Way.{shorter, narrower, IsImplied, HasRoom, IsWithinTwoHorizons, AreNearer, AreRunsOf, IsRowShortened, IsWrittenEntry}}};
ghost use Rattle.stn_time.specs.Time.{horizon};

use crate::matrix::runs::{Runs, arrange};
use std::alloc::Allocator;
use std::marker::Model;
use stn_net::{Bound, Event, MOST_EVENTS};
use stn_time::{HORIZON, Memory, Ms};

// The most columns: the origin's, and one for each event.
const MOST_COLUMNS: usize = MOST_EVENTS as usize + 1;

// One event comes at most so long after another.
#[derive(Clone, Copy)]
pub(crate) struct Arc {
    pub from: Event,
    pub to: Event,
    pub weight: Ms,
}

// A square of differences: a row and a column for the origin and for each event, row after row.
#[derive(Drop)]
pub(crate) struct Square<A: Allocator> {
    events: u16,
    entries: Vec<i64, A>,
}

impl<A: Allocator> Model for Square<A> {
    ghost use Rattle.stn_net.specs.Matrix.{Table.Square, Way.IsWholeSquare};

    ghost Value = { Square };

    ghost view = { λ s. record { events = s.events; entries = s.entries.items } };

    ghost invariant = { λ s. IsWholeSquare (record { events = s.events; entries = s.entries.items }) };
}

impl<A: Allocator> Square<A> {
    // The differences of events that lie anywhere from the origin to the horizon.
    pub fn widest(alloc: A, events: u16) -> Result<Square<A>, Memory>
        requires { events ≤ most_events }
        ensures events { IfOk result (λ square. square.events ≡ events) }
        ensures widest { IfOk result (λ square. IsWidest square.events (entry square)) }
    {
        let size = usize::from(events) + 1;
        let entries = vec![in alloc; HORIZON; size * size]?;
        let mut square = Square { events, entries };
        square.widen();
        Ok(square)
    }

    // Writes the differences that are no horizon.
    fn widen(&mut self)
        requires { (x y : ℕ) → x ≤ self.old.events → y ≤ self.old.events → entry self.old x y ≡ horizon }
        ensures events { self.new.events ≡ self.old.events }
        ensures widest { IsWidest self.old.events (entry self.new) }
    {
        for event in 0..self.size() {
            self.set(event, 0, 0);
            self.set(event, event, 0);
        }
    }

    // The number of events beside the origin.
    pub fn events(&self) -> u16
        ensures value { result ≡ self.now.events }
        ensures few { result ≤ most_events }
    {
        self.events
    }

    // The number of rows, and of columns.
    #[inline]
    pub fn size(&self) -> usize
        ensures value { result ≡ self.now.events + 1 }
        ensures few { result ≤ most_events + 1 }
    {
        usize::from(self.events) + 1
    }

    // Takes the entries of a square of as many events in place of its own.
    pub fn copy_from(&mut self, other: &Square<A>)
        requires { self.old.events ≡ other.now.events }
        ensures { self.new ≡ other.now }
    {
        self.entries.copy_from_slice(&other.entries);
    }

    // Whether the entries are no looser than the bound already.
    pub fn is_implied(&self, bound: Bound) -> bool
        requires { NamesEvents self.now.events bound }
        ensures { IsTrue result ↔ IsImplied (entry self.now) bound }
    {
        let (from, to) = ends(bound);
        self.entry(from, to) <= bound.hi().get() && self.entry(to, from) <= -bound.lo().get()
    }

    // Whether some time between the entries of its events meets the bound.
    pub fn has_room(&self, bound: Bound) -> bool
        requires { NamesEvents self.now.events bound }
        ensures { IsTrue result ↔ HasRoom (entry self.now) bound }
    {
        let (from, to) = ends(bound);
        -bound.hi().get() <= self.entry(to, from) && bound.lo().get() <= self.entry(from, to)
    }

    // Shortens each entry by way of both sides of the bound.
    pub fn narrow(&mut self, bound: Bound)
        requires closed { IsClosed self.old.events (entry self.old) }
        requires named { NamesEvents self.old.events bound }
        requires room { HasRoom (entry self.old) bound }
        ensures events { self.new.events ≡ self.old.events }
        ensures closed { IsClosed self.old.events (entry self.new) }
        ensures narrower { (x y : ℕ) → x ≤ self.old.events → y ≤ self.old.events
            → entry self.new x y ≡ narrower (entry self.old) bound x y }
    {
        let upper = Arc {
            from: bound.from(),
            to: bound.to(),
            weight: bound.hi(),
        };
        let lower = Arc {
            from: bound.to(),
            to: bound.from(),
            weight: -bound.lo(),
        };
        self.shorten(upper);
        self.shorten(lower);
    }

    // Shortens each entry by way of the arc; only a row from which the arc's end comes nearer can
    // change, and only in a column that comes nearer to the arc's beginning.
    fn shorten(&mut self, arc: Arc)
        requires closed { IsClosed self.old.events (entry self.old) }
        requires from { arc.from ≤ self.old.events }
        requires to { arc.to ≤ self.old.events }
        requires round { pos 0 ≤ℤ (entry self.old arc.to arc.from +ℤ arc.weight) }
        ensures events { self.new.events ≡ self.old.events }
        ensures shorter { (x y : ℕ) → x ≤ self.old.events → y ≤ self.old.events
            → entry self.new x y ≡ shorter (entry self.old) arc.from arc.to arc.weight x y }
    {
        let from = usize::from(arc.from.number());
        let to = usize::from(arc.to.number());
        let weight = arc.weight.get();
        let size = self.size();
        if self.entry(from, to) <= weight {
            return;
        }
        let mut columns = [0; MOST_COLUMNS];
        let mut ends = [0; MOST_COLUMNS];
        let count = self.nearer_columns(arc, &mut columns);
        let columns = &mut columns[..count];
        let ends = &mut ends[..count];
        arrange(self, &arc, columns, ends);
        let runs = Runs {
            columns: &*columns,
            ends: &*ends,
        };
        for row in 0..size {
            let own = self.row(row);
            let through = own[from] + weight;
            if through < own[to] {
                self.shorten_row(row, to, through, runs);
            }
        }
    }

    // Lists the columns that come nearer to the arc's beginning by way of it, and answers their number.
    fn nearer_columns(&self, arc: Arc, columns: &mut [u16]) -> usize
        requires closed { IsClosed self.now.events (entry self.now) }
        requires from { arc.from ≤ self.now.events }
        requires to { arc.to ≤ self.now.events }
        requires long { self.now.events < length columns.old }
        ensures few { result ≤ length columns.new }
        ensures listed { AreNearer self.now.events (entry self.now) arc.from arc.to arc.weight
            (take result columns.new) (self.now.events + 1) }
    {
        let own = self.row(usize::from(arc.from.number()));
        let onward = self.row(usize::from(arc.to.number()));
        let weight = arc.weight.get();
        let mut count = 0;
        for column in 0..self.size() {
            let through = weight + onward[column];
            if through < own[column] {
                columns[count] = column as u16;
                count += 1;
            }
        }
        count
    }

    // Shortens each entry of a row by way of an event that lies at most so long after the row's own; only
    // the columns of the runs can change.
    fn shorten_row(&mut self, row: usize, by: usize, through: i64, runs: Runs<'_>)
        requires row { row ≤ self.old.events }
        requires by { by ≤ self.old.events }
        requires apart { row ≢ by }
        requires ways { (y : ℕ) → y ≤ self.old.events → IsWithinTwoHorizons (through +ℤ entry self.old by y) }
        requires runs { AreRunsOf (self.old.events + 1) (entry self.old row) (entry self.old by) through runs.columns.now runs.ends.now }
        requires left_out { (y : ℕ) → y ≤ self.old.events → Contains runs.columns.now y
            ⊎ (entry self.old row y ≤ℤ (through +ℤ entry self.old by y)) }
        ensures events { self.new.events ≡ self.old.events }
        ensures shortened { IsRowShortened self.old.events (entry self.old) (entry self.new) row by through }
    {
        let own = row * self.size();
        let onward = by * self.size();
        let entries = self.entries.as_mut_slice();
        let mut place = 0;
        while place < runs.columns.len() {
            let column = usize::from(runs.columns[place]);
            let way = through + entries[onward + column];
            if way <= entries[own + column] {
                entries[own + column] = way;
                place += 1;
            } else {
                place = usize::from(runs.ends[place]);
            }
        }
    }

    // The entry in a row and a column.
    #[inline]
    pub fn entry(&self, row: usize, column: usize) -> i64
        requires row { row ≤ self.now.events }
        requires column { column ≤ self.now.events }
        ensures { result ≡ entry self.now row column }
    {
        self.row(row)[column]
    }

    // The entries of a row.
    #[inline]
    pub fn row(&self, row: usize) -> &[i64]
        requires { row ≤ self.now.events }
        ensures long { length result.now ≡ self.now.events + 1 }
        ensures entries { (y : ℕ) → y ≤ self.now.events → entry_in result.now y ≡ entry self.now row y }
    {
        let begin = row * self.size();
        &self.entries[begin..begin + self.size()]
    }

    // Writes the entry in a row and a column.
    #[inline]
    fn set(&mut self, row: usize, column: usize, value: i64)
        requires row { row ≤ self.old.events }
        requires column { column ≤ self.old.events }
        ensures events { self.new.events ≡ self.old.events }
        ensures written { IsWrittenEntry self.old.events (entry self.old) (entry self.new) row column value }
    {
        let place = row * self.size() + column;
        self.entries[place] = value;
    }
}

// The numbers of the bound's events.
fn ends(bound: Bound) -> (usize, usize)
    ensures from { result.0 ≡ bound.from }
    ensures to { result.1 ≡ bound.to }
{
    (
        usize::from(bound.from().number()),
        usize::from(bound.to().number()),
    )
}
