ghost use Rattle.std.specs.Prelude.{◌≡◌, ◌↔◌, ℕ, false, List, Ok, Err, IsTrue};
ghost use Rattle.stn_pddl.specs.Schemas.{ActionSchema};
ghost use Rattle.stn_lift.specs.{declared.{plan.fault.PlanFault.PlanFault, fault.LiftFault.LiftFault}, Plan.Steps.PlannedStep, Footprints.{Footprint, GroundAtom, is_same_atom, interfere, EitherTouches}, PlanSource.{files, base_of, planned_of}};
ghost use Rattle.stn_plan_laws.specs.PlannedTimes.{IsStepOf, IsPlannedAt};
ghost use Rattle.stn_lift.specs.Plan.Steps as plan;
ghost use Rattle.stn_lift.specs.Plan.Faults as plan_faults;
ghost use Rattle.stn_lift.specs.Activities as lifting;

/// The law that two events interfere, by the test that orders them, exactly where some atom is one that either needs and the
/// other adds or deletes, or one that either adds and the other deletes.
pub fn interference_by_atoms()
    ensures { (one other : Footprint GroundAtom) → IsTrue (interfere is_same_atom one other) ↔ EitherTouches one other }
{}

/// The law that a plan made from texts has each step as the texts say: it starts at the time on its line, and ends when the
/// duration of its action is over.
pub fn planned_times()
    ensures { (domain plan : List ℕ) → base_of (files domain plan) ≡ Ok (files domain plan)
        → (number : ℕ) (step : PlannedStep) (action : ActionSchema) → IsStepOf domain plan number step action
        → IsPlannedAt (planned_of (files domain plan)) number step.time action.duration }
{}

/// The law that the text of a plan has a fault exactly where it has the cause of that fault.
#[tactic(auto, using(stn_lift::proofs::PlanFacts::plan_cause_for, crate::proofs::plans::FromCauses::plan_fault_of))]
pub fn plan_faults_by_cause()
    ensures { (text : List ℕ) (fault : PlanFault) → plan.is_plan_memory fault ≡ false → (plan.plan_of text ≡ Err fault) ↔ plan_faults.IsPlanCause text fault }
{}

/// The law that the steps of a plan have a fault in a domain of these actions exactly where they have the cause of that fault.
#[tactic(auto, using(crate::proofs::plans::FromCauses::lift_cause_for, crate::proofs::plans::FromCauses::lift_fault_of))]
pub fn lift_faults_by_cause()
    ensures { (actions : List ActionSchema) (steps : List PlannedStep) (fault : LiftFault) → lifting.is_lift_memory fault ≡ false
        → (lifting.activities actions 0 steps ≡ Err fault) ↔ lifting.IsLiftCause actions steps fault }
{}
