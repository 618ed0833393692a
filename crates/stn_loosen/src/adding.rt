ghost use Rattle.std.specs.Prelude.{◌≡◌, ◌≤◌, ◌⊎◌, Some, None, length, All, IfOk, IfErr, OnOk};
ghost use Rattle.stn_refusal.specs.Refusals.{out_of_memory};
ghost use Rattle.stn_net.specs.{Difference.NamesEvents, Event.most_steps};
ghost use Rattle.stn_lift.specs.PlanSource.{bare, plan_source, steps_of, events_of};
ghost use Rattle.stn_records.specs.Content.{most_known, no_content, with_record};
ghost use Rattle.stn_site.specs.{Held.{next_id, plain}, Bounds.all_bounds, Refusals.next_refusal};
ghost use Rattle.stn_loosen.specs.{Loosened.bounds_with, Asked.{IsLoosened, IsLooseningRefusal}, Numbered.HoldsNumbered};

use crate::plan::loosened;
use crate::tolerance::Tolerance;
use std::alloc::Allocator;
use std::rc::Rc;
use stn_lift::{Base, BaseFault, Source};
use stn_net::Bound;
use stn_records::Site;
use stn_refusal::Failure;
use stn_site::{ReplicaFault, SitePlan};
use stn_time::Memory;

/// A site's copy of a bare plan with as many steps as a source has, which holds the records of the loosened plan, or of the robust plan
/// where it is to be robust, and nothing else: they are plain, with the site's ids from counter 1 on.
///
/// Refused in this order: as the source has no base; as `loosened` refuses it. `Memory` may come in place of any answer.
pub fn loosen<A: Allocator + Copy>(
    alloc: A,
    site: Site,
    source: &Source<A>,
    tolerance: Tolerance,
    robust: bool,
) -> Result<SitePlan<A>, Failure>
    ensures site { IfOk result (λ plan. plan.site ≡ site) }
    ensures source { IfOk result (λ plan. plan.source ≡ bare (steps_of (plan_source source.now))) }
    ensures loosened { IfOk result (λ plan. IsLoosened robust (plan_source source.now) tolerance site plan.state) }
    ensures accepted { OnOk result (IsLooseningRefusal robust (plan_source source.now) tolerance None) }
    ensures refused { IfErr result (λ failure. (failure ≡ out_of_memory)
        ⊎ IsLooseningRefusal robust (plan_source source.now) tolerance (Some failure)) }
{
    let base = Base::from_source(alloc, source)?;
    let records = loosened(alloc, &base, tolerance, robust)?;
    Ok(plan_with(alloc, site, &base, &records)?)
}

// A site's copy of a bare plan with as many steps, which holds plain records of these bounds and nothing else.
fn plan_with<A: Allocator + Copy>(
    alloc: A,
    site: Site,
    base: &Base<A>,
    bounds: &[Bound],
) -> Result<SitePlan<A>, Memory>
    requires named { All (NamesEvents (events_of base.now)) bounds.now }
    requires few { length bounds.now ≤ most_known }
    ensures site { IfOk result (λ plan. plan.site ≡ site) }
    ensures source { IfOk result (λ plan. plan.source ≡ bare (steps_of base.now)) }
    ensures holds { IfOk result (λ plan. HoldsNumbered site bounds.now plan.state) }
    ensures bounds { IfOk result (λ plan. all_bounds plan.source plan.state ≡ bounds_with base.now bounds.now) }
{
    let mut plan = bare_site_plan(alloc, site, base.steps())?;
    for bound in bounds {
        add_bound(&mut plan, *bound)?;
    }
    Ok(plan)
}

// A site's copy of a bare plan, which holds nothing yet. Nothing but memory can be lacking.
fn bare_site_plan<A: Allocator + Copy>(
    alloc: A,
    site: Site,
    steps: u16,
) -> Result<SitePlan<A>, Memory>
    requires { steps ≤ most_steps }
    ensures site { IfOk result (λ plan. plan.site ≡ site) }
    ensures source { IfOk result (λ plan. plan.source ≡ bare steps) }
    ensures empty { IfOk result (λ plan. plan.state ≡ no_content) }
{
    match Base::bare(alloc, steps) {
        Ok(base) => Ok(SitePlan::new(alloc, site, Rc::new(alloc, base)?)),
        Err(fault) => {
            prove!(fault == BaseFault::Memory);
            Err(Memory)
        }
    }
}

// Adds a bound on the plan's events, where the site can make one more record. Nothing but memory can be lacking.
fn add_bound<A: Allocator + Copy>(plan: &mut SitePlan<A>, bound: Bound) -> Result<(), Memory>
    requires named { NamesEvents (events_of plan.old.source) bound }
    requires room { next_refusal plan.old ≡ None }
    ensures site { OnOk result (plan.new.site ≡ plan.old.site) }
    ensures source { OnOk result (plan.new.source ≡ plan.old.source) }
    ensures added { OnOk result (plan.new.state ≡ with_record plan.old.state (next_id plan.old) (plain bound)) }
{
    match plan.add(bound.from(), bound.to(), bound.lo(), bound.hi()) {
        Ok(_) => Ok(()),
        Err(fault) => {
            prove!(fault == ReplicaFault::Memory);
            Err(Memory)
        }
    }
}
