ghost use Rattle.std.specs.Prelude.{◌≡◌, ◌*◌, ◌<◌, ◌≤◌, ◌↔◌, Ok, IsTrue, IfOk, IfErr, IsErrOf};
ghost use Rattle.stn_text.specs.Faults.{Returns};
ghost use Rattle.stn_net.specs.{Event.{most_events, most_steps}, Schedule.IsSchedule};
ghost use Rattle.stn_pddl.specs.Domains.{domain_of};
ghost use Rattle.stn_lift.specs.{Activities.{activities, IsLiftCause}, BaseBounds.KeepsOrder, PlanSource.{bare, files, plan_source, steps_of, events_of, base_bounds, planned_of, interfere_in_plan, activities_of, base_of, source_with, is_base_memory, HasShortTexts, IsSoundSource}};
ghost use Rattle.stn_lift.specs.Activities as lifting;

use crate::bounds::horizon_bounds;
use crate::fault::{BaseFault, LiftFault};
use crate::plan::Plan;
use crate::source::Source;
use crate::timeline::Timeline;
use std::alloc::Allocator;
use std::marker::Model;
use stn_net::{Bound, Event, MOST_STEPS};
use stn_pddl::Domain;
use stn_time::Ms;

/// What all sites share of one plan: its events, the bounds that the plan itself sets, and the
/// time at which it has each event.
#[derive(Drop)]
pub struct Base<A: Allocator> {
    source: Source<A>,
    steps: u16,
    bounds: Vec<Bound, A>,
    // The times of the events by number, where they are not all 0.
    planned: Vec<Ms, A>,
}

impl<A: Allocator> Model for Base<A> {
    ghost use Rattle.stn_lift.specs.PlanSource.{PlanSource, coded_source, plan_source, IsBase};

    ghost Value = { PlanSource };

    ghost coded = { coded_source };

    ghost view = { λ b. plan_source b.source };

    ghost invariant = { λ b. IsBase (plan_source b.source) b.steps b.bounds.items b.planned.items };
}

/// The base of a plan in a domain. The first step with a cause decides, by the first of its causes in the order of `LiftFault`.
/// `Memory` may come in place of any answer.
pub fn lift<'a, A: Allocator + Copy>(
    alloc: A,
    domain: &Domain<'a, A>,
    plan: &Plan<'a, A>,
) -> Result<Base<A>, LiftFault>
    ensures made { IfOk result (λ base. base ≡ files domain.now.text plan.now.text) }

    // The base, or the first fault of the steps.
    ensures given { Returns lifting.is_lift_memory (λ base. base) result
        (source_with (files domain.now.text plan.now.text) (activities domain.now.actions 0 plan.now.steps)) }

    // The first step that is refused has the fault, by the first cause against it.
    ensures cause { IfErr result (IsLiftCause domain.now.actions plan.now.steps) }
    ensures steps { IfOk result (λ base. activities domain.now.actions 0 plan.now.steps ≡ Ok (activities_of domain.now.text plan.now.text)) }

    // The planned times are a schedule of the base bounds.
    ensures possible { IfOk result (λ base. IsSchedule (base_bounds base) (planned_of base)) }

    // In every schedule events that interfere keep the plan's order.
    ensures ordered { IfOk result (λ base. KeepsOrder (events_of base) (interfere_in_plan base) (planned_of base) (base_bounds base)) }
    ensures sound { IfOk result IsSoundSource }
{
    let timeline = Timeline::read(alloc, domain, plan.steps())?;
    let bounds = timeline.bounds(alloc)?;
    let source = Source::Files(
        Vec::from_slice(alloc, domain.text())?,
        Vec::from_slice(alloc, plan.text())?,
    );
    Ok(Base {
        source,
        steps: timeline.durations.len() as u16,
        bounds,
        planned: timeline.times,
    })
}

impl<A: Allocator + Copy> Base<A> {
    /// The base of so many steps with no bounds but the horizon of each event, and all planned
    /// times 0. Faults: `TooManySteps` above 256 steps, then `Memory`.
    pub fn bare(alloc: A, steps: u16) -> Result<Base<A>, BaseFault>
        ensures made { IfOk result (λ base. base ≡ bare steps) }
        ensures limit { IsErrOf result BaseFault.TooManySteps ↔ (most_steps < steps) }
        ensures given { Returns is_base_memory (λ base. base) result (base_of (bare steps)) }
        ensures sound { IfOk result IsSoundSource }
    {
        if steps > MOST_STEPS {
            return Err(BaseFault::TooManySteps);
        }
        let Ok(bounds) = horizon_bounds(alloc, 2 * steps) else {
            return Err(BaseFault::Memory);
        };
        Ok(Base {
            source: Source::Bare(steps),
            steps,
            bounds,
            planned: Vec::new(alloc),
        })
    }

    /// The base of a source. Of two texts, the faults of the domain come first, then those of the plan, then those of `lift`; of a
    /// number of steps, those of `bare`. `Memory` may come in place of any answer of two texts.
    pub fn from_source(alloc: A, source: &Source<A>) -> Result<Base<A>, BaseFault>
        ensures made { IfOk result (λ base. base ≡ plan_source source.now) }
        ensures limit { IsErrOf result BaseFault.TooManySteps ↔ (most_steps < steps_of (plan_source source.now)) }

        // The base, or the first fault of the source.
        ensures given { Returns is_base_memory (λ base. base) result (base_of (plan_source source.now)) }

        // The planned times are a schedule of the base bounds.
        ensures possible { IfOk result (λ base. IsSchedule (base_bounds base) (planned_of base)) }

        // In every schedule events that interfere keep the plan's order.
        ensures ordered { IfOk result (λ base. KeepsOrder (events_of base) (interfere_in_plan base) (planned_of base) (base_bounds base)) }
        ensures sound { IfOk result IsSoundSource }
    {
        match source {
            Source::Bare(steps) => Base::bare(alloc, *steps),
            Source::Files(domain, plan) => base_of_texts(alloc, domain, plan),
        }
    }
}

// The base of the text of a domain and the text of a plan.
fn base_of_texts<A: Allocator + Copy>(
    alloc: A,
    domain: &[u8],
    plan: &[u8],
) -> Result<Base<A>, BaseFault>
    ensures made { IfOk result (λ base. base ≡ files domain.now plan.now) }
    ensures limit { ¬ IsErrOf result BaseFault.TooManySteps }
    ensures given { Returns is_base_memory (λ base. base) result (base_of (files domain.now plan.now)) }
    ensures sound { IfOk result IsSoundSource }
{
    let domain = Domain::read(alloc, domain)?;
    base_of_plan(alloc, &domain, plan)
}

// The base of a domain that was read and the text of a plan.
fn base_of_plan<'a, A: Allocator + Copy>(
    alloc: A,
    domain: &Domain<'a, A>,
    plan: &'a [u8],
) -> Result<Base<A>, BaseFault>
    requires { domain_of domain.now.text ≡ Ok domain.now.actions }
    ensures made { IfOk result (λ base. base ≡ files domain.now.text plan.now) }
    ensures limit { ¬ IsErrOf result BaseFault.TooManySteps }
    ensures given { Returns is_base_memory (λ base. base) result (base_of (files domain.now.text plan.now)) }
    ensures sound { IfOk result IsSoundSource }
{
    let plan = Plan::read(alloc, plan)?;
    let base = lift(alloc, domain, &plan)?;
    Ok(base)
}

impl<A: Allocator> Base<A> {
    /// How many steps the plan has.
    pub fn steps(&self) -> u16
        ensures value { result ≡ steps_of self.now }
        ensures small { result ≤ most_steps }
    {
        self.steps
    }

    /// How many events the plan has beside the origin.
    pub fn events(&self) -> u16
        ensures value { result ≡ events_of self.now }
        ensures small { result ≤ most_events }
    {
        2 * self.steps()
    }

    /// The bounds that the plan itself sets, in their order.
    pub fn bounds(&self) -> &[Bound]
        ensures value { result.now ≡ base_bounds self.now }
        ensures sound { IsSoundSource self.now }
    {
        &self.bounds
    }

    /// The time at which the plan has the event, one of the base's or the origin.
    pub fn planned(&self, event: Event) -> Ms
        requires { event ≤ events_of self.now }
        ensures { result ≡ planned_of self.now event }
    {
        match self.planned.get(usize::from(event.number())) {
            Some(time) => *time,
            None => Ms::new(0).unwrap(),
        }
    }

    /// What the base is made from.
    pub fn source(&self) -> &Source<A>
        ensures source { plan_source result.now ≡ self.now }
        ensures short { HasShortTexts self.now }
        ensures sound { IsSoundSource self.now }
    {
        &self.source
    }

    /// Whether both are made from the same source, byte for byte.
    pub fn same(&self, other: &Base<A>) -> bool
        ensures { IsTrue result ↔ (self.now ≡ other.now) }
    {
        self.source.same(&other.source)
    }
}
