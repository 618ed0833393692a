ghost use Rattle.std.specs.{Prelude.{◌≡◌, ℕ, ℤ, ◌+◌, ◌≤◌, ◌≤ℤ◌, ◌++◌, List, length, IfOk, OnOk, OnErr, MatchOption}, List.flat_map};
ghost use Rattle.stn_net.specs.{Difference.Difference, Event.{event_text, most_events}, Schedule.{HasSchedule, times_of}, Windows.{Dispatch.IsLeft, Leading.{AreReadyAt, IsLeastLatest}}};
ghost use Rattle.stn_lift.specs.PlanSource.{events_of};
ghost use Rattle.stn_site.specs.{Bounds.all_bounds, Lines.line};
ghost use Rattle.stn_questions.specs.{Foresight.earlier_time, Ready.{AreReadyEvents, IsReadyWith, ready_line}};

use crate::foresight::next_with;
use crate::ready_event::ReadyEvent;
use std::alloc::Allocator;
use stn_conflict::{earliest_and_latest, soonest};
use stn_net::{Event, Next, is_left};
use stn_site::{Piece, SitePlan, append_pieces, append_window_line};
use stn_time::{Memory, Ms};

/// Appends which events may run from now on, where these count as done, the origin's test first: a line
/// for each that may run at some time from now on, with the first and the last such time, by first time
/// and then by number. Where all bounds have no schedule, that is `conflict`; where every event is done,
/// `all done`; and where no other event may run any more, `overdue` and the event that `next_with`
/// names. If memory runs out, it appends nothing.
pub fn print_ready_with<A: Allocator + Copy, B: Allocator>(
    plan: &SitePlan<A>,
    done: &[bool],
    now: Ms,
    out: &mut Vec<u8, B>,
) -> Result<(), Memory>
    requires { length done.now ≡ events_of plan.now.source + 1 }
    ensures printed { OnOk result ((text : List ℕ)
        × IsReadyWith (all_bounds plan.now.source plan.now.state) done.now now text
        × (out.new.items ≡ out.old.items ++ text)) }
    ensures kept { OnErr result (out.new.items ≡ out.old.items) }
{
    let mut text = Vec::new(plan.alloc());
    append_ready(&mut text, plan, done, now)?;
    out.extend_from_slice(&text)
}

// The same; if memory runs out, a part of it may stand there.
fn append_ready<A: Allocator + Copy>(
    out: &mut Vec<u8, A>,
    plan: &SitePlan<A>,
    done: &[bool],
    now: Ms,
) -> Result<(), Memory>
    requires { length done.now ≡ events_of plan.now.source + 1 }
    ensures { OnOk result ((text : List ℕ)
        × IsReadyWith (all_bounds plan.now.source plan.now.state) done.now now text
        × (out.new.items ≡ out.old.items ++ text)) }
{
    match next_with(plan, done, now)? {
        Some(answer) => match answer {
            Next::Run(_, _) => append_lines(&ready_events(plan, done, now)?, out),
            Next::AllDone => out.extend_from_slice(b"all done\n"),
            Next::Overdue(event) => append_event_line(out, b"overdue ", event),
        },
        None => out.extend_from_slice(b"conflict\n"),
    }
}

/// Appends a line of these words and an event. If memory runs out, a part of it may stand there.
pub fn append_event_line<B: Allocator>(
    out: &mut Vec<u8, B>,
    words: &[u8],
    event: Event,
) -> Result<(), Memory>
    ensures { OnOk result (out.new.items ≡ out.old.items ++ line (words.now ++ event_text event)) }
{
    append_pieces(
        out,
        &[Piece::Text(words), Piece::Event(event), Piece::Text(b"\n")],
    )
}

// The events that are ready from now on, in the order in which they are printed. None is ready after the
// least of the latest times of the events that are left: the event of that time would then be too late.
fn ready_events<A: Allocator + Copy>(
    plan: &SitePlan<A>,
    done: &[bool],
    now: Ms,
) -> Result<Vec<ReadyEvent, A>, Memory>
    requires one_each { length done.now ≡ events_of plan.now.source + 1 }
    requires possible { HasSchedule (all_bounds plan.now.source plan.now.state) }
    ensures { IfOk result (λ ready. AreReadyEvents (all_bounds plan.now.source plan.now.state) done.now now ready.items) }
{
    let live = plan.live_bounds()?;
    let events = plan.base().events();
    let bounds = plan.base().bounds();
    let found = earliest_and_latest(plan.alloc(), events, bounds, &live)?;
    let (first_times, last_times) = found.unwrap();
    let Some(last) = least_left(&last_times, done) else {
        return Ok(Vec::new(plan.alloc()));
    };
    if last < now {
        return Ok(Vec::new(plan.alloc()));
    }
    let times = soonest(plan.alloc(), events, bounds, &live, done, last)?.unwrap();
    ready_until(plan.alloc(), &first_times, &times, done, now, last)
}

// The least of the times of the events that are left.
fn least_left(times: &[Ms], done: &[bool]) -> Option<Ms>
    requires one_each { length done.now ≡ length times.now }
    requires few { length times.now ≤ most_events + 1 }
    ensures { MatchOption result ((event : ℕ) → ¬ IsLeft done.now event) (IsLeastLatest (times_of times.now) done.now) }
{
    let mut least = None;
    for number in 1..times.len() {
        let event = Event::new(number as u16).unwrap();
        if is_left(done, event) {
            least = Some(lesser(least, times[number]));
        }
    }
    least
}

// The lesser of the times.
fn lesser(least: Option<Ms>, time: Ms) -> Ms
    ensures { result ≡ earlier_time least time }
{
    match least {
        Some(other) => { if other <= time { other } else { time } }
        None => time,
    }
}

// The events that are left and may run at some time from now on: those that can wait until the last such
// time.
fn ready_until<A: Allocator + Copy>(
    alloc: A,
    earliest: &[Ms],
    times: &[Ms],
    done: &[bool],
    now: Ms,
    last: Ms,
) -> Result<Vec<ReadyEvent, A>, Memory>
    requires one_each { length done.now ≡ length times.now }
    requires whole { length earliest.now ≡ length times.now }
    requires few { length times.now ≤ most_events + 1 }
    ensures { IfOk result (λ ready. (bounds : List Difference) (events : ℕ) (latest : ℕ → ℤ)
        → AreReadyAt bounds events done.now (times_of earliest.now) latest (times_of times.now) last → now ≤ℤ last
        → AreReadyEvents bounds done.now now ready.items) }
{
    let mut ready = Vec::new(alloc);
    for number in 1..times.len() {
        let event = Event::new(number as u16).unwrap();
        if is_left(done, event) && times[number] == last {
            ready.push(ReadyEvent {
                first: earliest[number].max(now),
                event,
                last,
            })?;
        }
    }
    ready.sort_unstable();
    Ok(ready)
}

fn append_lines<B: Allocator>(ready: &[ReadyEvent], out: &mut Vec<u8, B>) -> Result<(), Memory>
    ensures { OnOk result (out.new.items ≡ out.old.items ++ flat_map ready_line ready.now) }
{
    for one in ready {
        append_window_line(out, one.event, one.first, one.last, false)?;
    }
    Ok(())
}
