//! What is true of the rows of a conflict.
ghost use Rattle.std.specs.Prelude.{◌≡◌, ◌+◌, ◌<◌, ◌^◌, length, pos, slice_index_or, unsigned_abs, All};
ghost use Rattle.stn_conflict.specs.Arcs.{arc_of};
ghost use Rattle.stn_walk.specs.Walk as is;
ghost use Rattle.stn_walk.specs.Seen.{seen_walk};

use crate::walk::Walk;
use std::alloc::Allocator;
use stn_conflict::{Link, Side};
use stn_net::Bound;
use stn_site::{BoundName, bound_at, bound_name};

/// Where the axis begins, and how wide it is.
pub const AXIS_LEFT: u64 = 500;

pub const AXIS_WIDTH: u64 = 440;

impl<'a, 'b, A: Allocator> Walk<'a, 'b, A> {
    /// The sum of the links above a row, in milliseconds: the time at which the row begins.
    pub fn sum_at(&self, row: usize) -> i64
        ensures value { result ≡ is.sum_at (seen_walk self.now) row }
        ensures small { unsigned_abs result < 2 ^ 45 }
    {
        sum_in(self.sums, row)
    }

    // How far after the beginning of the axis a time stands.
    fn along(&self, time: i64) -> u64
        requires { unsigned_abs time < 2 ^ 52 }
        ensures value { result ≡ is.along (seen_walk self.now) time }
        ensures small { result < 2 ^ 53 }
    {
        let shift = (self.axis.gap * self.axis.before) as i64;
        (time + shift).unsigned_abs()
    }

    /// Where a time stands.
    pub fn place_of(&self, time: i64) -> u64
        requires { unsigned_abs time < 2 ^ 52 }
        ensures value { result ≡ is.walk_place (seen_walk self.now) time }
        ensures small { result < 2 ^ 63 + 2 ^ 10 }
    {
        self.axis.place_of(self.along(time))
    }

    /// The link of a row.
    pub fn row_link(&self, row: usize) -> Link
        ensures { result ≡ is.row_link (seen_walk self.now) row }
    {
        self.links.get(row).copied().unwrap_or(Link {
            place: 0,
            side: Side::Upper,
        })
    }

    /// The bound of a row.
    pub fn bound_of(&self, row: usize) -> Bound
        requires { row < length self.now.links.now }
        ensures { result ≡ is.walk_bound (seen_walk self.now) row }
    {
        bound_at(self.base, self.others, self.links[row].place)
    }

    /// The name of the bound of a row.
    pub fn name_of(&self, row: usize) -> BoundName
        requires { row < length self.now.links.now }
        ensures { result ≡ is.linked_name (seen_walk self.now) row }
    {
        bound_name(self.base, self.ids, self.links[row].place)
    }

    /// The event at which the link of a row begins.
    pub fn begins_at(&self, row: usize) -> u16
        requires { row < length self.now.links.now }
        ensures { result ≡ (arc_of (is.bounds_in (seen_walk self.now)) (is.row_link (seen_walk self.now) row)).from }
    {
        let bound = self.bound_of(row);
        match self.links[row].side {
            Side::Upper => bound.from().number(),
            Side::Lower => bound.to().number(),
        }
    }
}

/// The sum at a place.
pub fn sum_in(sums: &[i64], place: usize) -> i64
    requires { All (λ sum. unsigned_abs sum < 2 ^ 45) sums.now }
    ensures value { result ≡ slice_index_or sums.now place (pos 0) }
    ensures small { unsigned_abs result < 2 ^ 45 }
{
    sums.get(place).copied().unwrap_or(0)
}

/// The top of a row, in units.
pub fn top_of(row: usize) -> u64
    requires { row < 2 ^ 40 }
    ensures value { result ≡ is.walk_top row }
    ensures small { result < 2 ^ 50 }
{
    54 + 34 * row as u64
}

/// Whether the bound says how long a step lasts.
pub fn is_duration(bound: Bound) -> bool
    ensures { result ≡ is.is_duration bound }
{
    let to = bound.to().number();
    to == bound.from().number() + 1 && to % 2 == 0
}
