ghost use Rattle.std.specs.Prelude.{◌≡◌, ℕ, List};
ghost use Rattle.stn_net.specs.{Difference.Difference, Schedule.HasSchedule};
ghost use Rattle.stn_conflict.specs.{Arcs.IsNegativeCycle, Named.{IsNamedCycle, IsWay}};

use std::alloc::Allocator;
use stn_time::Ms;

/// One of the two sides of a bound.
#[derive(Clone, Copy, Debug, PartialEq, Eq)]
pub enum Side {
    /// `to` comes at most `hi` after `from`.
    Upper,
    /// `to` comes at least `lo` after `from`.
    Lower,
}

/// A side of the bound at a place of a list, counted from 0.
#[derive(Clone, Copy, Debug, PartialEq, Eq)]
pub struct Link {
    /// The place of the bound.
    pub place: usize,
    /// The side of it.
    pub side: Side,
}

/// Sides of bounds that contradict each other: each ends at the event at which the next begins, the
/// last at that at which the first begins, and together they ask for less than no time.
#[derive(Drop)]
pub struct Cycle<A: Allocator> {
    /// The links, the culprit's first.
    pub links: Vec<Link, A>,
    /// The sum of what they allow, in milliseconds: `hi` of an upper side, `-lo` of a lower.
    pub sum: i64,
}

/// Sides of bounds that let one event come at most so long after another: the first begins at that other event, each
/// begins where the one before it ends, and the last ends at the one.
#[derive(Drop)]
pub struct Way<A: Allocator> {
    /// The links, that from the other event first.
    pub links: Vec<Link, A>,
    /// The sum of what they allow, in milliseconds: `hi` of an upper side, `-lo` of a lower.
    pub sum: i64,
}

/// The ways between two events.
#[derive(Drop)]
pub struct BothWays<A: Allocator> {
    /// The way from the one to the other.
    pub onward: Way<A>,
    /// The way from the other to the one.
    pub back: Way<A>,
}

/// The tightest differences between one event and each of a plan's events, the origin first.
#[derive(Drop)]
pub struct Distances<A: Allocator> {
    /// How long after the one event each event can come at the most.
    pub from: Vec<Ms, A>,
    /// How long after each event the one event can come at the most.
    pub to: Vec<Ms, A>,
}

/// The law that bounds have one way at most from an event to another, so that all who hold the same bounds are told the
/// same.
#[tactic(auto, using(crate::proofs::OneCycle::way_unique))]
pub fn one_way()
    ensures { (bounds : List Difference) → (from to : ℕ) → (one other : List Link)
        → IsWay bounds from to one → IsWay bounds from to other → one ≡ other }
{}

/// The law that bounds have one named cycle at most, so that all who hold the same bounds name the
/// same.
#[tactic(auto, using(crate::proofs::OneCycle::named_cycle_unique))]
pub fn one_named_cycle()
    ensures { (bounds : List Difference) → (one other : List Link)
        → IsNamedCycle bounds one → IsNamedCycle bounds other → one ≡ other }
{}

/// The law that bounds with a negative cycle have no schedule, so that a cycle is reason enough
/// (Dechter, Meiri and Pearl, 1991).
#[tactic(auto, using(crate::proofs::CycleSums::negative_no_schedule))]
pub fn negative_cycle_is_conflict()
    ensures { (bounds : List Difference) → (links : List Link)
        → IsNegativeCycle bounds links → ¬ HasSchedule bounds }
{}
