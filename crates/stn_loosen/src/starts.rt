//! The bounds on the starts of a plan's steps.

ghost use Rattle.std.specs.Prelude.{◌≡◌, ◌++◌, map, All, IfOk};
ghost use Rattle.stn_net.specs.Horizon.{horizon_bounds};
ghost use Rattle.stn_lift.specs.PlanSource.{events_of, IsSoundSource};
ghost use Rattle.stn_loosen.specs.{Loosened.{loose_durations, orders_of}, Moved.moved_bounds, Stepped.{as_bound, AreSteps, IsWithinReach}};

use crate::parts::{durations_of, horizon_of, orders_of};
use crate::span::{Span, moved_sides};
use crate::tolerance::Tolerance;
use std::alloc::Allocator;
use stn_lift::Base;
use stn_net::Bound;
use stn_time::Memory;

/// The durations of the loosened plan.
pub fn loose_durations<A: Allocator + Copy>(
    alloc: A,
    base: &Base<A>,
    tolerance: Tolerance,
) -> Result<Vec<Bound, A>, Memory>
    ensures value { IfOk result (λ durations. durations.items ≡ loose_durations tolerance base.now) }
    ensures sound { IsSoundSource base.now }
{
    let mut loose = Vec::new(alloc);
    for duration in durations_of(base) {
        loose.push(tolerance.loose(duration))?;
    }
    Ok(loose)
}

/// All bounds of the loosened plan with these durations.
pub fn loose_bounds<A: Allocator + Copy>(
    alloc: A,
    base: &Base<A>,
    durations: &[Bound],
) -> Result<Vec<Bound, A>, Memory>
    ensures { IfOk result (λ bounds. bounds.items ≡ horizon_bounds (events_of base.now) ++ (durations.now ++ orders_of base.now)) }
{
    let mut bounds = Vec::from_slice(alloc, horizon_of(base))?;
    bounds.extend_from_slice(durations)?;
    bounds.extend_from_slice(orders_of(base))?;
    Ok(bounds)
}

/// The bounds of the horizon, and then both sides of all bounds, moved from the ends of these durations to their starts.
pub fn starts_of<A: Allocator + Copy>(
    alloc: A,
    horizon: &[Bound],
    durations: &[Bound],
    bounds: &[Bound],
) -> Result<Vec<Span, A>, Memory>
    requires { AreSteps durations.now }
    ensures value { IfOk result (λ starts. map as_bound starts.items ≡ horizon.now ++ moved_bounds durations.now bounds.now) }
    ensures reach { IfOk result (λ starts. All IsWithinReach (map as_bound starts.items)) }
{
    let mut starts = spans_of(alloc, horizon)?;
    for bound in bounds {
        let (upper, lower) = moved_sides(durations, bound);
        starts.push(upper)?;
        starts.push(lower)?;
    }
    Ok(starts)
}

// The bounds as spans.
fn spans_of<A: Allocator + Copy>(alloc: A, bounds: &[Bound]) -> Result<Vec<Span, A>, Memory>
    ensures value { IfOk result (λ spans. map as_bound spans.items ≡ bounds.now) }
    ensures reach { IfOk result (λ spans. All IsWithinReach (map as_bound spans.items)) }
{
    let mut spans = Vec::new(alloc);
    for bound in bounds {
        spans.push(Span::of(bound))?;
    }
    Ok(spans)
}
