ghost use Rattle.std.specs.Prelude.{◌≡◌, ◌≢◌, ◌↔◌, ◌-ℤ◌, ◌≤ℤ◌, ◌++◌, ℕ, ℤ, List, All, Contains};
ghost use Rattle.stn_net.specs.{Difference.Difference, Horizon.horizon_bounds, Schedule.{IsSchedule, HasSchedule}, Windows.Window.IsInWindow};
ghost use Rattle.stn_lift.specs.PlanSource.{PlanSource, events_of, IsSoundSource};
ghost use Rattle.stn_conflict.specs.{declared.links.Link.Link, Arcs.IsNegativeCycle};
ghost use Rattle.stn_loosen.specs.{Slack.{Slack, IsSlack}, Loosened.{orders_of, bounds_with, loose_durations, AreLoosened, AreFewLoosened, AreTooMany}, Promise.Promises, Moved.moved_bounds, Fragile.start_bounds, Robust.{loose_bounds, HasPromise, AreRobust}};
ghost use Rattle.stn_laws.specs.Executions.{Execution, executed_bounds, IsExecution};

/// The law that a plan and a tolerance have one loosened plan.
pub fn one_loosened_plan()
    ensures { (source : PlanSource) → (slack : Slack) → (one other : List Difference)
        → AreLoosened source slack one → AreLoosened source slack other → one ≡ other }
{}

/// The law that where the records of the loosened plan are too many, no list of them is short enough.
pub fn too_many_are_not_few()
    ensures { (source : PlanSource) → (slack : Slack) → AreTooMany source slack → (records : List Difference) → ¬ AreFewLoosened source slack records }
{}

/// The law that a plan and a tolerance have one robust plan.
pub fn one_robust_plan()
    ensures { (source : PlanSource) → (slack : Slack) → (one other : List Difference)
        → AreRobust source slack one → AreRobust source slack other → one ≡ other }
{}

/// The law that times are a promise of a loosened plan if and only if they are a schedule of its bounds on starts: of its orders and its
/// horizon, moved to the starts of its steps.
pub fn promises_are_schedules_of_starts()
    ensures { (source : PlanSource) → (slack : Slack) → IsSoundSource source → IsSlack slack → (promised : ℕ → ℤ)
        → (Promises (loose_durations slack source) (loose_bounds source slack) promised
        ↔ IsSchedule (moved_bounds (loose_durations slack source) (orders_of source ++ horizon_bounds (events_of source))) promised) }
{}

/// The law of what is told of a plan that is not robust: where links of the bounds on starts are a closed chain with a negative sum, there
/// is no promise.
pub fn fragile_plans_have_no_promise()
    ensures { (source : PlanSource) → (slack : Slack) → (links : List Link) → IsSoundSource source → IsSlack slack
        → IsNegativeCycle (start_bounds source slack) links → ¬ HasPromise source slack }
{}

/// The law of the robust plan: it has a schedule if and only if the loosened plan has a promise; each of its schedules is a promise of
/// the robust plan itself, and a schedule of the loosened plan.
pub fn robust_plans_promise()
    ensures possible { (source : PlanSource) → (slack : Slack) → (records : List Difference) → IsSoundSource source → IsSlack slack
        → AreRobust source slack records → (HasPromise source slack ↔ HasSchedule (bounds_with source records)) }
    ensures promised { (source : PlanSource) → (slack : Slack) → (records : List Difference) → IsSoundSource source → IsSlack slack
        → AreRobust source slack records → (time : ℕ → ℤ) → IsSchedule (bounds_with source records) time
        → Promises (loose_durations slack source) (bounds_with source records) time }
    ensures loosened { (source : PlanSource) → (slack : Slack) → (records : List Difference) → IsSoundSource source → IsSlack slack
        → AreRobust source slack records → (time : ℕ → ℤ) → IsSchedule (bounds_with source records) time
        → IsSchedule (loose_bounds source slack) time }
{}

/// The law that a run of a robust plan always has a schedule, whatever the durations: no such run ends in a conflict.
pub fn robust_runs_complete()
    ensures { (source : PlanSource) → (slack : Slack) → (records : List Difference) → (run : List Execution) → IsSoundSource source → IsSlack slack
        → AreRobust source slack records → HasPromise source slack → IsExecution (loose_durations slack source) (bounds_with source records) run
        → HasSchedule (bounds_with source records ++ executed_bounds run) }
{}

/// The law that in a run of a robust plan the window of the end of a step that was started is its duration: the end comes no earlier than
/// its shortest and no later than its longest duration after the start, and may come at each time between.
pub fn ends_have_their_durations()
    ensures { (source : PlanSource) → (slack : Slack) → (records : List Difference) → (run : List Execution) → IsSoundSource source → IsSlack slack
        → AreRobust source slack records → HasPromise source slack → IsExecution (loose_durations slack source) (bounds_with source records) run
        → (duration : Difference) → Contains (loose_durations slack source) duration
        → (start : ℤ) → Contains run (record { event = duration.from; time = start })
        → All (λ execution. execution.event ≢ duration.to) run
        → (time : ℤ) → (IsInWindow (bounds_with source records ++ executed_bounds run) duration.to time
        ↔ ((duration.lo ≤ℤ (time -ℤ start)) × ((time -ℤ start) ≤ℤ duration.hi))) }
{}
