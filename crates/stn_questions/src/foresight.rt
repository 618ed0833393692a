//! What comes next of the events that are left, and how the rest of them runs: by searches, without a
//! matrix.

ghost use Rattle.std.specs.Prelude.{◌≡◌, ◌⊎◌, ℕ, ◌+◌, length, IfOk, IfErr, MatchOption};
ghost use Rattle.stn_net.specs.{Schedule.HasSchedule, Windows.{Dispatch.{IsNext, CanWaitUntil}, Rehearsal.IsRehearseFault}, declared.windows.answers.RehearseFault.TheVariants.{Overdue, Memory as want_of_memory}};
ghost use Rattle.stn_lift.specs.PlanSource.{events_of};
ghost use Rattle.stn_records.specs.Content.{AllProper};
ghost use Rattle.stn_site.specs.{Bounds.all_bounds, Dispatch.IsRestWith};
ghost use Rattle.stn_questions.specs.Foresight.{IsForecast, AreSoonestOf};

use std::alloc::Allocator;
use stn_conflict::{latest, soonest};
use stn_matrix::{overdue, soonest_next, soonest_runs};
use stn_net::{Event, Next, RehearseFault};
use stn_site::SitePlan;
use stn_time::{Memory, Ms};

// What a search from some time on finds.
#[derive(Drop)]
enum Forecast<A: Allocator> {
    // All bounds have no schedule.
    Conflict,
    // This event is overdue.
    Overdue(Event),
    // The soonest times of all events.
    Soonest(Vec<Ms, A>),
}

/// What comes next from now on, by all bounds, where these events count as done, the origin's test
/// first. None where all bounds have no schedule. It fails only if memory runs out.
pub fn next_with<A: Allocator + Copy>(
    plan: &SitePlan<A>,
    done: &[bool],
    now: Ms,
) -> Result<Option<Next>, Memory>
    requires { length done.now ≡ events_of plan.now.source + 1 }
    ensures { IfOk result (λ found. MatchOption found (¬ HasSchedule (all_bounds plan.now.source plan.now.state))
        (λ answer. HasSchedule (all_bounds plan.now.source plan.now.state)
        × IsNext (all_bounds plan.now.source plan.now.state) done.now now answer)) }
{
    match look_ahead(plan, done, now)? {
        Forecast::Conflict => Ok(None),
        Forecast::Overdue(event) => Ok(Some(Next::Overdue(event))),
        Forecast::Soonest(times) => Ok(Some(soonest_next(&times, done))),
    }
}

/// The rest of the plan from now on, by all bounds, where these events count as done: each other event
/// and the time at which it runs. None where all bounds have no schedule.
///
/// Refused as `Overdue` where every schedule has an event that is left before now. `Memory` may come in
/// place of any answer.
pub fn rehearse_with<A: Allocator + Copy>(
    plan: &SitePlan<A>,
    done: &[bool],
    now: Ms,
) -> Result<Option<Vec<(Ms, Event), A>>, RehearseFault>
    requires one_each { length done.now ≡ events_of plan.now.source + 1 }
    requires fixed { AllProper plan.now.state.additions }
    ensures rest { IfOk result (λ found. MatchOption found (¬ HasSchedule (all_bounds plan.now.source plan.now.state))
        (λ runs. IsRestWith plan.now.source plan.now.state done.now now runs.items)) }
    ensures fault { IfErr result (λ fault. (fault ≡ want_of_memory) ⊎ ((event : ℕ) × (fault ≡ Overdue event)
        × HasSchedule (all_bounds plan.now.source plan.now.state)
        × IsRehearseFault (all_bounds plan.now.source plan.now.state) done.now now (Overdue event))) }
{
    match look_ahead(plan, done, now)? {
        Forecast::Conflict => Ok(None),
        Forecast::Overdue(event) => Err(RehearseFault::Overdue(event)),
        Forecast::Soonest(times) => Ok(Some(soonest_runs(plan.alloc(), &times, done)?)),
    }
}

// What a search for the soonest times from now on finds.
fn look_ahead<A: Allocator + Copy>(
    plan: &SitePlan<A>,
    done: &[bool],
    now: Ms,
) -> Result<Forecast<A>, Memory>
    requires { length done.now ≡ events_of plan.now.source + 1 }
    ensures { IfOk result (IsForecast (all_bounds plan.now.source plan.now.state) (events_of plan.now.source) done.now now) }
{
    match soonest_of(plan, done, now)? {
        Some(times) => Ok(Forecast::Soonest(times)),
        None => why_none(plan, done, now),
    }
}

// The soonest times of all events from now on, by all bounds, where these events count as done; none
// exactly where no schedule has every other event from now on.
fn soonest_of<A: Allocator + Copy>(
    plan: &SitePlan<A>,
    done: &[bool],
    now: Ms,
) -> Result<Option<Vec<Ms, A>>, Memory>
    requires { length done.now ≡ events_of plan.now.source + 1 }
    ensures { IfOk result (λ found. MatchOption found (¬ CanWaitUntil (all_bounds plan.now.source plan.now.state) done.now now)
        (λ times. AreSoonestOf (all_bounds plan.now.source plan.now.state) (events_of plan.now.source) done.now now times.items)) }
{
    let live = plan.live_bounds()?;
    let base = plan.base();
    soonest(plan.alloc(), base.events(), base.bounds(), &live, done, now)
}

// Why there are no soonest times from now on.
fn why_none<A: Allocator + Copy>(
    plan: &SitePlan<A>,
    done: &[bool],
    now: Ms,
) -> Result<Forecast<A>, Memory>
    requires one_each { length done.now ≡ events_of plan.now.source + 1 }
    requires none { ¬ CanWaitUntil (all_bounds plan.now.source plan.now.state) done.now now }
    ensures { IfOk result (IsForecast (all_bounds plan.now.source plan.now.state) (events_of plan.now.source) done.now now) }
{
    let live = plan.live_bounds()?;
    let base = plan.base();
    match latest(plan.alloc(), base.events(), base.bounds(), &live)? {
        Some(times) => {
            let event = overdue(&times, done, now).unwrap();
            Ok(Forecast::Overdue(event))
        }
        None => Ok(Forecast::Conflict),
    }
}
