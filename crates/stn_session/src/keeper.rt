//! Where a session keeps what it takes in, before the other site is told of it.

use std::alloc::Allocator;
use stn_refusal::Failure;
use stn_site::SitePlan;

/// Keeps states of a plan in a place, as in a store of logs.
pub trait Keeper<P, A: Allocator + Copy> {
    ghost use Rattle.stn_effects.specs.Effects.{Effect};
    ghost use Rattle.stn_lift.specs.PlanSource.{PlanSource};
    ghost use Rattle.stn_records.specs.Content.{Content};

    /// What it is to keep a state of a plan in the place.
    ghost keeps: { Self → PlanSource → Content → Effect P (Unit {0}) };

    /// Keeps the state of a site's copy of a plan.
    fn keep(&self, place: &mut P, plan: &SitePlan<A>) -> Result<(), Failure>
        ensures { keeps self.now plan.now.source plan.now.state place.old place.new result };
}

/// Keeps nothing.
pub struct Nowhere;

impl<A: Allocator + Copy> Keeper<(), A> for Nowhere {
    ghost use Rattle.stn_session.specs.Serving.{KeepsNothing};

    ghost keeps = { λ _ _. KeepsNothing };

    fn keep(&self, _place: &mut (), _plan: &SitePlan<A>) -> Result<(), Failure> {
        Ok(())
    }
}
