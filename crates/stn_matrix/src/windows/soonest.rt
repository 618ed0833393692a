//! Answers by times of all events that were found by a search.

ghost use Rattle.std.specs.Prelude.{◌≡◌, ◌+◌, ◌≤◌, ℕ, ℤ, List, length, All, IfOk, MatchOption};
ghost use Rattle.stn_net.specs.{Difference.{Difference, NamesEvents}, Event.most_events, Schedule.times_of, Windows.{Dispatch.{IsLeft, IsNext, IsOverdue, CanWaitUntil}, Leading.IsEarliestBelow, Rehearsal.IsRehearsal, Soonest.{AreLatest, AreSoonest}}};

use crate::windows::dispatch::earlier_of;
use std::alloc::Allocator;
use stn_net::{Event, Next, is_left};
use stn_time::{Memory, Ms};

/// What comes next, by the soonest times of all events from some time on: of the events that are left
/// the first, by time and then by number; `AllDone`, where none is.
pub fn soonest_next(times: &[Ms], done: &[bool]) -> Next
    requires one_each { length done.now ≡ length times.now }
    requires few { length times.now ≤ most_events + 1 }
    ensures { (bounds : List Difference) (now : ℤ) → AreSoonest bounds done.now now (times_of times.now) → IsNext bounds done.now now result }
{
    match first_left(times, done) {
        Some(first) => Next::Run(first.0, first.1),
        None => Next::AllDone,
    }
}

// The first of the events that are left, by these times and then by number.
fn first_left(times: &[Ms], done: &[bool]) -> Option<(Ms, Event)>
    requires one_each { length done.now ≡ length times.now }
    requires few { length times.now ≤ most_events + 1 }
    ensures { MatchOption result ((event : ℕ) → ¬ IsLeft done.now event) (IsEarliestBelow (times_of times.now) done.now (length done.now)) }
{
    let mut first = None;
    for number in 1..times.len() {
        let event = Event::new(number as u16).unwrap();
        if is_left(done, event) {
            first = Some(earlier_of(first, (times[number], event)));
        }
    }
    first
}

/// The whole rest of the plan, by the soonest times of all events from some time on: each event that is
/// left, at its time, by time and then by number. It fails only if memory runs out.
pub fn soonest_runs<A: Allocator>(
    alloc: A,
    times: &[Ms],
    done: &[bool],
) -> Result<Vec<(Ms, Event), A>, Memory>
    requires one_each { length done.now ≡ length times.now }
    requires few { length times.now ≤ most_events + 1 }
    ensures { IfOk result (λ runs. (bounds : List Difference) (now : ℤ) → AreSoonest bounds done.now now (times_of times.now)
        → IsRehearsal bounds done.now now runs.items) }
{
    let mut runs = Vec::new(alloc);
    for number in 1..times.len() {
        let event = Event::new(number as u16).unwrap();
        if is_left(done, event) {
            runs.push((times[number], event))?;
        }
    }
    runs.sort_unstable();
    Ok(runs)
}

/// The event that is overdue, by the latest times of all events: the least of those that are left and
/// whose latest time comes before now. None exactly where no event that is left has to come before now.
pub fn overdue(latest: &[Ms], done: &[bool], now: Ms) -> Option<Event>
    requires one_each { length done.now ≡ length latest.now }
    requires few { length latest.now ≤ most_events + 1 }
    ensures { (bounds : List Difference) (events : ℕ) → length latest.now ≡ events + 1 → All (NamesEvents events) bounds
        → AreLatest bounds events (times_of latest.now) → MatchOption result (CanWaitUntil bounds done.now now) (IsOverdue bounds done.now now) }
{
    for number in 1..latest.len() {
        let event = Event::new(number as u16).unwrap();
        if is_left(done, event) && latest[number] < now {
            return Some(event);
        }
    }
    None
}
