//! The steps of a plan in its domain.

ghost use Rattle.std.specs.{Prelude.{◌≡◌, ◌+◌, ◌≤◌, ◌++◌, ◌∷◌, [], All, List, length, map, pos, ◌+ℤ◌, ◌≤ℤ◌, Ok, IfOk, IfErr, OnOk}, List.AllByRecursion};
ghost use Rattle.stn_text.specs.Faults.{Fails, Returns};
ghost use Rattle.stn_time.specs.Time.{horizon};
ghost use Rattle.stn_net.specs.Event.{most_steps};
ghost use Rattle.stn_pddl.specs.{Sound.{IsSound, IsSoundAtom}, Views.{action_schema, atoms_schema}};
ghost use Rattle.stn_lift.specs.{Plan.{Steps.IsTimely, Views.{planned_step, word_of}}, Footprints.ground, Numbering.{KeepsNumbers, IsNumbered, IsUnambiguous}, Views.numbers_of, Activities.{Activity, is_lift_memory, differs, activity, activity_of, activities}, Timelines.{IsTimeline, IsLifted}};

use crate::atoms::Atoms;
use crate::fault::LiftFault;
use crate::footprint::Footprint;
use crate::plan::Step;
use std::alloc::{AllocError, Allocator};
use stn_pddl::{Action, Atom, Domain};
use stn_time::{HORIZON, Ms};

/// How long each step lasts, and of each event by number, the origin's first, its planned time and what it needs, adds and
/// deletes.
#[derive(Drop)]
pub struct Timeline<A: Allocator> {
    pub durations: Vec<Ms, A>,
    pub times: Vec<Ms, A>,
    pub footprints: Vec<Footprint<A>, A>,
}

// Whether the line of a step says another duration than that of its action.
fn differs(said: Option<Ms>, duration: Ms) -> bool
    ensures { result ≡ differs said duration }
{
    match said {
        None => false,
        Some(said) => said != duration,
    }
}

// The action of the step of a number, or the first cause against the step.
#[tactic(auto, unfolding(crate::specs::Activities::activity_of, crate::specs::Activities::with_action, stn_pddl::specs::Views::action_schema))]
fn action_of<'d, 'a, A: Allocator + Copy>(
    domain: &'d Domain<'a, A>,
    number: u16,
    step: &Step<'a, A>,
) -> Result<&'d Action<'a, A>, LiftFault>
    ensures given { Returns is_lift_memory (λ action. activity (planned_step step.now) (action_schema action.now)) result
        (activity_of domain.now.actions number (planned_step step.now)) }
    ensures arity { IfOk result (λ action. length step.now.args.items ≡ length (action_schema action.now).parameters) }
    ensures sound { IfOk result (λ action. IsSound (action_schema action.now)) }
    ensures last { IfOk result (λ action. (step.now.time +ℤ (action_schema action.now).duration) ≤ℤ horizon) }
{
    let Some(action) = domain.action(step.action) else {
        return Err(LiftFault::UnknownAction(number));
    };
    if step.args.len() != action.parameters.len() {
        return Err(LiftFault::Arity(number));
    }
    if differs(step.duration, action.duration) {
        return Err(LiftFault::DurationDiffers(number));
    }
    if HORIZON < step.time.get() + action.duration.get() {
        return Err(LiftFault::PastHorizon(number));
    }
    Ok(action)
}

// The sum of two times.
fn sum(time: Ms, duration: Ms) -> Ms
    requires time { pos 0 ≤ℤ time }
    requires duration { pos 0 ≤ℤ duration }
    requires last { (time +ℤ duration) ≤ℤ horizon }
    ensures { result ≡ time +ℤ duration }
{
    Ms::new(time.get() + duration.get()).unwrap()
}

// The footprint of an event that has these needs at its own moment and over all of its step.
fn footprint<'a, A: Allocator + Copy>(
    atoms: &mut Atoms<'a, A>,
    args: &[&'a [u8]],
    needs: (&[Atom<'a, A>], &[Atom<'a, A>]),
    adds: &[Atom<'a, A>],
    deletes: &[Atom<'a, A>],
) -> Result<Footprint<A>, AllocError>
    requires needs { AllByRecursion (IsSoundAtom (length args.now)) (atoms_schema needs.0.now) }
    requires all_needs { AllByRecursion (IsSoundAtom (length args.now)) (atoms_schema needs.1.now) }
    requires adds { AllByRecursion (IsSoundAtom (length args.now)) (atoms_schema adds.now) }
    requires deletes { AllByRecursion (IsSoundAtom (length args.now)) (atoms_schema deletes.now) }
    ensures numbered { IfOk result (λ footprint. IsNumbered atoms.new (numbers_of footprint) (record {
      needs = map (ground (map word_of args.now)) (atoms_schema needs.entry.0.now ++ atoms_schema needs.entry.1.now);
      adds = map (ground (map word_of args.now)) (atoms_schema adds.now);
      deletes = map (ground (map word_of args.now)) (atoms_schema deletes.now);
    })) }
    ensures kept { OnOk result (KeepsNumbers atoms.old atoms.new) }
    ensures unambiguous { OnOk result (IsUnambiguous atoms.new) }
{
    let needs = atoms.numbers(args, needs.0, needs.1)?;
    let adds = atoms.numbers(args, adds, &[])?;
    let deletes = atoms.numbers(args, deletes, &[])?;
    Ok(Footprint {
        needs,
        adds,
        deletes,
    })
}

impl<A: Allocator + Copy> Timeline<A> {
    // No steps: the origin alone, at 0.
    fn new(alloc: A) -> Result<Timeline<A>, AllocError>
        ensures { IfOk result (λ made. (made.durations.items ≡ []) × (made.times.items ≡ pos 0 ∷ [])
            × (map numbers_of made.footprints.items ≡ record { needs = []; adds = []; deletes = [] } ∷ [])) }
    {
        let mut times = Vec::new(alloc);
        times.push(Ms::new(0).unwrap())?;
        let mut footprints = Vec::new(alloc);
        footprints.push(Footprint::none(alloc))?;
        Ok(Timeline {
            durations: Vec::new(alloc),
            times,
            footprints,
        })
    }

    // Takes up the times of a step.
    fn append_times(&mut self, time: Ms, duration: Ms) -> Result<(), AllocError>
        requires time { pos 0 ≤ℤ time }
        requires duration { pos 0 ≤ℤ duration }
        requires last { (time +ℤ duration) ≤ℤ horizon }
        ensures durations { OnOk result (self.new.durations.items ≡ self.old.durations.items ++ duration ∷ []) }
        ensures times { OnOk result (self.new.times.items ≡ (self.old.times.items ++ time ∷ []) ++ (time +ℤ duration) ∷ []) }
        ensures footprints { OnOk result (self.new.footprints.items ≡ self.old.footprints.items) }
    {
        self.durations.push(duration)?;
        self.times.push(time)?;
        self.times.push(sum(time, duration))?;
        Ok(())
    }

    // Takes up the footprint of one more event.
    fn append_footprint(&mut self, footprint: Footprint<A>) -> Result<(), AllocError>
        ensures durations { OnOk result (self.new.durations.items ≡ self.old.durations.items) }
        ensures times { OnOk result (self.new.times.items ≡ self.old.times.items) }
        ensures footprints { OnOk result (map numbers_of self.new.footprints.items
            ≡ map numbers_of self.old.footprints.items ++ numbers_of footprint ∷ []) }
    {
        self.footprints.push(footprint)?;
        Ok(())
    }

    // Takes a step with its action up.
    #[tactic(auto, unfolding(stn_pddl::specs::Views::action_schema))]
    fn push<'a>(
        &mut self,
        atoms: &mut Atoms<'a, A>,
        step: &Step<'a, A>,
        action: &Action<'a, A>,
    ) -> Result<(), AllocError>
        requires arity { length step.now.args.items ≡ length (action_schema action.now).parameters }
        requires sound { IsSound (action_schema action.now) }
        requires timely { IsTimely (planned_step step.now) }
        requires last { (step.now.time +ℤ (action_schema action.now).duration) ≤ℤ horizon }
        ensures { IfOk result (λ _. (steps : List Activity)
            → IsTimeline atoms.old steps self.old.durations.items self.old.times.items (map numbers_of self.old.footprints.items)
            → IsTimeline atoms.new (steps ++ activity (planned_step step.now) (action_schema action.now) ∷ [])
            self.new.durations.items self.new.times.items (map numbers_of self.new.footprints.items)) }
    {
        self.append_times(step.time, action.duration)?;
        let start = footprint(
            atoms,
            &step.args,
            (&action.start_needs, &action.all_needs),
            &action.start_adds,
            &action.start_deletes,
        )?;
        self.append_footprint(start)?;
        let end = footprint(
            atoms,
            &step.args,
            (&action.end_needs, &action.all_needs),
            &action.end_adds,
            &action.end_deletes,
        )?;
        self.append_footprint(end)?;
        Ok(())
    }

    // Takes up the steps of a plan in a domain, where there are none yet.
    fn append_steps<'a>(
        &mut self,
        atoms: &mut Atoms<'a, A>,
        domain: &Domain<'a, A>,
        steps: &[Step<'a, A>],
    ) -> Result<(), LiftFault>
        requires empty { IsTimeline atoms.old [] self.old.durations.items self.old.times.items (map numbers_of self.old.footprints.items) }
        requires few { length steps.now ≤ most_steps }
        requires timely { All (λ step. IsTimely (planned_step step)) steps.now }
        ensures made { OnOk result ((found : List Activity)
            × (activities domain.now.actions 0 (map planned_step steps.now) ≡ Ok found)
            × IsLifted found self.new.durations.items self.new.times.items (map numbers_of self.new.footprints.items)) }
        ensures fault { IfErr result (λ fault. Fails is_lift_memory fault (activities domain.now.actions 0 (map planned_step steps.now))) }
    {
        let mut number = 0;
        for step in steps {
            number += 1;
            let action = action_of(domain, number, step)?;
            self.push(atoms, step, action)?;
        }
        Ok(())
    }

    /// The steps of a plan in a domain, or the first fault: of the first step with a cause against it, the first.
    pub fn read<'a>(
        alloc: A,
        domain: &Domain<'a, A>,
        steps: &[Step<'a, A>],
    ) -> Result<Timeline<A>, LiftFault>
        requires few { length steps.now ≤ most_steps }
        requires timely { All (λ step. IsTimely (planned_step step)) steps.now }
        ensures made { IfOk result (λ made. (found : List Activity)
            × (activities domain.now.actions 0 (map planned_step steps.now) ≡ Ok found)
            × IsLifted found made.durations.items made.times.items (map numbers_of made.footprints.items)) }
        ensures fault { IfErr result (λ fault. Fails is_lift_memory fault (activities domain.now.actions 0 (map planned_step steps.now))) }
    {
        let mut timeline = Timeline::new(alloc)?;
        let mut atoms = Atoms::new(alloc);
        let appended = timeline.append_steps(&mut atoms, domain, steps);
        drop(atoms);
        appended?;
        Ok(timeline)
    }
}
