ghost use Rattle.std.specs.Prelude.{◌≡◌, ◌<◌, ◌≤ℤ◌, ◌++◌, length};
ghost use Rattle.stn_conflict.specs.{Arcs.{arc, bound_at}, Directions.faced};

use crate::links::Side;
use stn_net::{Bound, Event};
use stn_time::Ms;

// Whether bounds speak of times, or of times with their signs changed.
#[derive(Clone, Copy)]
pub(crate) enum Direction {
    Forward,
    Backward,
}

// What a side of a bound says: `to` comes at most `weight` after `from`.
#[derive(Clone, Copy)]
pub(crate) struct Arc {
    pub from: Event,
    pub to: Event,
    pub weight: Ms,
}

// What the side says of the bound, or of the bound turned round.
#[tactic(auto, using(crate::proofs::Turned::faced_ends))]
pub(crate) fn side_of(direction: Direction, bound: &Bound, side: Side) -> Arc
    ensures from { result.from ≡ (arc (faced direction bound.now) side).from }
    ensures to { result.to ≡ (arc (faced direction bound.now) side).to }
    ensures weight { result.weight ≡ (arc (faced direction bound.now) side).weight }
    ensures ordered { (faced direction bound.now).lo ≤ℤ (faced direction bound.now).hi }
{
    let weight = match (direction, side) {
        (Direction::Forward, Side::Upper) | (Direction::Backward, Side::Lower) => bound.hi(),
        (Direction::Forward, Side::Lower) | (Direction::Backward, Side::Upper) => -bound.lo(),
    };
    let (from, to) = match side {
        Side::Upper => (bound.from(), bound.to()),
        Side::Lower => (bound.to(), bound.from()),
    };
    Arc { from, to, weight }
}

// The bound at a place of two slices, one after the other.
pub(crate) fn bound_in(base: &[Bound], extra: &[Bound], place: usize) -> Bound
    requires { place < length (base.now ++ extra.now) }
    ensures { result ≡ bound_at (base.now ++ extra.now) place }
{
    if place < base.len() {
        base[place]
    } else {
        extra[place - base.len()]
    }
}
