ghost use Rattle.std.specs.Prelude.{◌≡◌, ◌+◌, ◌<◌, ◌^◌, length, unsigned_abs, All};

use std::alloc::Allocator;
use stn_conflict::Link;
use stn_drawing::Axis;
use stn_net::Bound;
use stn_records::Id;
use stn_repairs::Repair;

/// What is drawn of a conflict.
#[derive(Drop)]
pub struct Walk<'a, 'b, A: Allocator> {
    pub title: &'a [u8],
    /// The names of the steps, if they have any.
    pub names: &'a [Vec<u8, A>],
    /// The plan's bounds, and those of the live records, with their ids.
    pub base: &'b [Bound],
    pub ids: &'b [Id],
    pub others: &'b [Bound],
    pub links: &'b [Link],
    /// The sums of the links above each row, and that of all.
    pub sums: &'b [i64],
    pub repairs: &'b [Repair],
    pub axis: Axis,
    ghost few_links: { length links.now < 2 ^ 16 },
    ghost places: { All (λ link. link.place < length base.now + length others.now) links.now },
    ghost named: { length ids.now ≡ length others.now },
    ghost few_bounds: { length base.now < 2 ^ 32 },
    ghost small_sums: { All (λ sum. unsigned_abs sum < 2 ^ 45) sums.now },
}
