ghost use Rattle.std.specs.Prelude.{◌≡◌, ◌≢◌, ◌+◌, ◌∷◌, [], ◌++◌, true, ℕ, List, length, slice_set, IfOk, OnOk, IfErr};
ghost use Rattle.stn_net.specs.{Difference.Difference, Schedule.HasSchedule, Matrix.Tightest.IsExact, Windows.{Dispatch.{IsLeft, IsNext, NamesLeft, CanWaitUntil}, Rehearsal.{fixed_at, IsRehearsal, NeverFalls, RunsEachOnce, HasScheduleThrough, IsRehearseFault}}, declared.windows.answers.Next.TheVariants.Overdue};

use crate::Matrix;
use crate::windows::dispatch::next;
use std::alloc::Allocator;
use stn_net::{Bound, Event, Next, RehearseFault};
use stn_time::{Memory, Ms};

/// The whole rest of the plan from now on: what comes next, again and again, each event fixed at its
/// time once it has run. Each event that is not done runs once, at times that never fall.
///
/// Refused in this order: `Overdue`, where every schedule has an event that is not done before now;
/// `Memory`. It copies the matrix once.
pub fn rehearse<A: Allocator + Copy>(
    alloc: A,
    matrix: &Matrix<A>,
    done: &[bool],
    now: Ms,
) -> Result<Vec<(Ms, Event), A>, RehearseFault>
    requires { length done.now ≡ matrix.now.events + 1 }
    ensures next { IfOk result (λ runs. (bounds : List Difference) → IsExact bounds matrix.now
        → IsRehearsal bounds done.now now runs.items) }
    ensures possible { IfOk result (λ runs. (bounds : List Difference) → IsExact bounds matrix.now
        → HasScheduleThrough bounds runs.items) }
    ensures once { IfOk result (λ runs. (bounds : List Difference) → IsExact bounds matrix.now
        → RunsEachOnce done.now runs.items) }
    ensures rising { IfOk result (λ runs. (bounds : List Difference) → IsExact bounds matrix.now
        → NeverFalls now runs.items) }
    ensures in_time { OnOk result ((bounds : List Difference) → IsExact bounds matrix.now
        → CanWaitUntil bounds done.now now) }
    ensures fault { IfErr result (λ fault. (bounds : List Difference) → IsExact bounds matrix.now
        → IsRehearseFault bounds done.now now fault) }
{
    let first = next(matrix, done, now);
    if let Next::Overdue(event) = first {
        return Err(RehearseFault::Overdue(event));
    }
    let runs = rehearse_from(alloc, matrix, done, now, first)?;
    Ok(runs)
}

// The rest of the plan from what comes next, which is no overdue event.
fn rehearse_from<A: Allocator + Copy>(
    alloc: A,
    matrix: &Matrix<A>,
    done: &[bool],
    now: Ms,
    first: Next,
) -> Result<Vec<(Ms, Event), A>, Memory>
    requires one_each { length done.now ≡ matrix.now.events + 1 }
    requires next { (bounds : List Difference) → IsExact bounds matrix.now → IsNext bounds done.now now first }
    requires left { NamesLeft done.now first }
    requires in_time { (event : ℕ) → first ≢ Overdue event }
    ensures { IfOk result (λ runs. (bounds : List Difference) → IsExact bounds matrix.now
        → IsRehearsal bounds done.now now runs.items) }
{
    let mut tightened = Matrix::bare(alloc, matrix.events())?;
    tightened.copy_from(matrix);
    let mut finished = Vec::from_slice(alloc, done)?;
    let mut runs = Vec::new(alloc);
    let mut answer = first;
    // Once an event has run, none is overdue: the schedule that has it first shows it.
    while let Next::Run(time, event) = answer {
        runs.push((time, event))?;
        fix(&mut tightened, &mut finished, time, event);
        answer = next(&tightened, &finished, time);
    }
    Ok(runs)
}

// Takes the bound that the event takes the time, and notes that the event is done.
fn fix<A: Allocator>(matrix: &mut Matrix<A>, done: &mut [bool], time: Ms, event: Event)
    requires one_each { length done.old ≡ matrix.old.events + 1 }
    requires left { IsLeft done.old event }
    ensures exact { (bounds : List Difference) → IsExact bounds matrix.old → HasSchedule (bounds ++ fixed_at time event ∷ [])
        → IsExact (bounds ++ fixed_at time event ∷ []) matrix.new }
    ensures events { matrix.new.events ≡ matrix.old.events }
    ensures done { done.new ≡ slice_set done.old event true }
{
    let bound = Bound::new(matrix.events(), Event::origin(), event, time, time).unwrap();
    let _fits = matrix.tighten(bound);
    done[usize::from(event.number())] = true;
}
