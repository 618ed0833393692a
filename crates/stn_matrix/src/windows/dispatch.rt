ghost use Rattle.std.specs.Prelude.{◌≡◌, ◌≢◌, ◌+◌, ◌<◌, ◌≤◌, ◌≤ℤ◌, ◌↔◌, List, length, IsTrue, IfSome, IfNone, Some};
ghost use Rattle.stn_net.specs.{Difference.Difference, Matrix.{Table.far_of, Tightest.IsExact}, Windows.{Dispatch.{IsLeft, IsReady, IsNext, NamesLeft}, Leading.{earliest, MayLead, NonePast, CanLead, IsFirstPast, IsFirstRun, earlier_of}}};

use crate::Matrix;
use std::alloc::Allocator;
use stn_net::{Event, Next, is_left};
use stn_time::Ms;

/// Whether an event is left and may run at a time: in some schedule of the bounds that the matrix
/// took, it takes that time, and no other event that is left comes before it.
pub fn ready<A: Allocator>(matrix: &Matrix<A>, done: &[bool], event: Event, time: Ms) -> bool
    requires one_each { length done.now ≡ matrix.now.events + 1 }
    requires within { event ≤ matrix.now.events }
    requires beside { event ≢ 0 }
    ensures { (bounds : List Difference) → IsExact bounds matrix.now → (IsTrue result ↔ IsReady bounds done.now event time) }
{
    first_before(matrix, done, Event::origin(), time).is_none()
        && can_lead(matrix, done, event, time)
}

/// What comes next from now on: of the events that may run at some time from now on the first, by
/// time and then by number; `AllDone`, where every event is done; else the event that is overdue.
///
/// It reads each entry of the matrix at most once, and where no event's earliest time has come yet,
/// those of the origin alone.
pub fn next<A: Allocator>(matrix: &Matrix<A>, done: &[bool], now: Ms) -> Next
    requires { length done.now ≡ matrix.now.events + 1 }
    ensures next { (bounds : List Difference) → IsExact bounds matrix.now → IsNext bounds done.now now result }
    ensures left { NamesLeft done.now result }
{
    if let Some(event) = first_before(matrix, done, Event::origin(), now) {
        return Next::Overdue(event);
    }
    match first_run(matrix, done, now) {
        Some((time, event)) => Next::Run(time, event),
        None => Next::AllDone,
    }
}

// The least event that is left and comes less than so long after an event in each schedule.
fn first_before<A: Allocator>(
    matrix: &Matrix<A>,
    done: &[bool],
    from: Event,
    limit: Ms,
) -> Option<Event>
    requires one_each { length done.now ≡ matrix.now.events + 1 }
    requires from { from ≤ matrix.now.events }
    ensures past { IfSome result (IsFirstPast (far_of matrix.now from) done.now limit) }
    ensures none { IfNone result (NonePast (far_of matrix.now from) done.now limit) }
{
    for number in 1..matrix.events() + 1 {
        let event = Event::new(number).unwrap();
        if is_left(done, event) && matrix.far(from, event) < limit {
            return Some(event);
        }
    }
    None
}

// The first run from now on, where no event's latest time has passed. The first event whose earliest
// time has come and that no other has to precede runs now; where there is none, the event of the
// least earliest time comes before all others in the schedule of all earliest times.
fn first_run<A: Allocator>(matrix: &Matrix<A>, done: &[bool], now: Ms) -> Option<(Ms, Event)>
    requires { length done.now ≡ matrix.now.events + 1 }
    ensures { IsFirstRun (far_of matrix.now) done.now now result }
{
    let mut first = None;
    for number in 1..matrix.events() + 1 {
        let event = Event::new(number).unwrap();
        if is_left(done, event) {
            let earliest = -matrix.far(event, Event::origin());
            if earliest <= now && leads(matrix, done, event) {
                return Some((now, event));
            }
            first = Some(earlier_of(first, (earliest, event)));
        }
    }
    first
}

// Whether the event is left, its earliest time has come, and no other has to come before it.
fn can_lead<A: Allocator>(matrix: &Matrix<A>, done: &[bool], event: Event, now: Ms) -> bool
    requires one_each { length done.now ≡ matrix.now.events + 1 }
    requires within { event ≤ matrix.now.events }
    ensures { IsTrue result ↔ CanLead (far_of matrix.now) done.now now event }
{
    is_left(done, event) && has_come(matrix, event, now) && leads(matrix, done, event)
}

// Whether the event's earliest time has come.
fn has_come<A: Allocator>(matrix: &Matrix<A>, event: Event, now: Ms) -> bool
    requires { event ≤ matrix.now.events }
    ensures { IsTrue result ↔ (earliest (far_of matrix.now) event ≤ℤ now) }
{
    -matrix.far(event, Event::origin()) <= now
}

// Whether no event that is left has to come before the event.
fn leads<A: Allocator>(matrix: &Matrix<A>, done: &[bool], event: Event) -> bool
    requires one_each { length done.now ≡ matrix.now.events + 1 }
    requires within { event ≤ matrix.now.events }
    ensures { IsTrue result ↔ MayLead (far_of matrix.now) done.now event }
{
    let zero = Ms::new(0).unwrap();
    first_before(matrix, done, event, zero).is_none()
}

// The run of the lesser time; the first, where both have one time.
pub(crate) fn earlier_of(first: Option<(Ms, Event)>, run: (Ms, Event)) -> (Ms, Event)
    ensures { result ≡ earlier_of first run }
{
    match first {
        Some(first) => { if first.0 <= run.0 { first } else { run } }
        None => run,
    }
}
