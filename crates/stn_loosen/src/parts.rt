//! The parts of a plan's own bounds.

ghost use Rattle.std.specs.Prelude.{◌≡◌, ◌++◌};
ghost use Rattle.stn_net.specs.Horizon.{horizon_bounds};
ghost use Rattle.stn_lift.specs.PlanSource.{events_of, IsSoundSource};
ghost use Rattle.stn_loosen.specs.Loosened.{durations_of, orders_of};

use std::alloc::Allocator;
use stn_lift::Base;
use stn_net::Bound;

/// The bounds of the durations of the plan's steps; none of a bare plan.
pub fn durations_of<A: Allocator + Copy>(base: &Base<A>) -> &[Bound]
    ensures value { result.now ≡ durations_of base.now }
    ensures sound { IsSoundSource base.now }
{
    let behind = behind_horizon(base);
    let count = behind.len().min(usize::from(base.steps()));
    &behind[..count]
}

/// The orders of the plan; none of a bare plan.
pub fn orders_of<A: Allocator + Copy>(base: &Base<A>) -> &[Bound]
    ensures { result.now ≡ orders_of base.now }
{
    let behind = behind_horizon(base);
    let count = behind.len().min(usize::from(base.steps()));
    &behind[count..]
}

// The bounds that follow those of the horizon.
fn behind_horizon<A: Allocator + Copy>(base: &Base<A>) -> &[Bound]
    ensures value { result.now ≡ durations_of base.now ++ orders_of base.now }
    ensures sound { IsSoundSource base.now }
{
    let bounds = base.bounds();
    &bounds[usize::from(base.events())..]
}

/// The horizon bounds of the plan's events.
pub fn horizon_of<A: Allocator + Copy>(base: &Base<A>) -> &[Bound]
    ensures { result.now ≡ horizon_bounds (events_of base.now) }
{
    let bounds = base.bounds();
    let count = usize::from(base.events());
    &bounds[..count]
}
