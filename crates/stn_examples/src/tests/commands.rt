// What commands on logs ask, and the loosened and the robust plan, while a request for memory is refused.
use crate::tests::sweep::{Call, judged, requests};
use std::alloc::Global;
use std::process::Abort;
use std::rc::Rc;
use stn_chart::Look;
use stn_command::{Choice, Query, say};
use stn_lift::{Base, Source};
use stn_loosen::{Tolerance, loosen};
use stn_net::Event;
use stn_questions::{Outlook, Question};
use stn_records::Site;
use stn_refusal::{Failure, Fault};
use stn_refusing::{Outcome, Refusing};
use stn_replica::Replica;
use stn_site::SitePlan;
use stn_time::Ms;

// Adds that the end comes five seconds after the start and, for a conflict, within four seconds.
fn add_bounds(plan: &mut SitePlan<&Refusing<Global>>, conflict: bool) -> bool {
    let start = Event::new(1).unwrap();
    let end = Event::new(2).unwrap();
    let none = Ms::new(0).unwrap();
    let four = Ms::new(4_000).unwrap();
    let five = Ms::new(5_000).unwrap();
    let added = plan.add(start, end, five, five).is_ok();
    let tight = !conflict || plan.add(Event::origin(), end, none, four).is_ok();
    added && tight
}

fn new_plan(heap: &Refusing<Global>) -> Option<SitePlan<&Refusing<Global>>> {
    let base = Base::bare(heap, 1).ok()?;
    let base = Rc::new(heap, base).ok()?;
    Some(SitePlan::new(heap, Site::new(1).unwrap(), base))
}

/// What is asked of a plan.
#[derive(Clone, Copy)]
pub enum Asked {
    Report,
    Repairs,
    Draw,
    Next,
    Ready,
    Rehearse,
    Records,
    Steps,
    Bounds,
    Why,
    Apart,
    Starts,
}

// All events that are left, or the starts of all steps.
fn chosen<'a>(starts: bool) -> Choice<'a> {
    Choice {
        steps: None,
        starts,
    }
}

// A picture with the present.
fn look<'a>() -> Look<'a> {
    Look {
        title: b"a.log",
        present: Some(Ms::new(1_000).unwrap()),
        arrows: true,
        owned: &[],
    }
}

fn say_asked<'a>(
    plan: &SitePlan<&'a Refusing<Global>>,
    asked: Asked,
) -> Result<Vec<u8, &'a Refusing<Global>>, Failure> {
    let now = Ms::new(0).unwrap();
    match asked {
        Asked::Report => say(plan, &Query::Report),
        Asked::Repairs => say(plan, &Query::Repairs),
        Asked::Draw => say(plan, &Query::Draw(look())),
        Asked::Next => say(plan, &Query::Foresee(Outlook::Next, now, chosen(false))),
        Asked::Ready => say(plan, &Query::Foresee(Outlook::Ready, now, chosen(false))),
        Asked::Rehearse => say(plan, &Query::Foresee(Outlook::Rehearse, now, chosen(false))),
        Asked::Records => say(plan, &Query::Ask(Question::Records)),
        Asked::Steps => say(plan, &Query::Ask(Question::Steps)),
        Asked::Bounds => say(plan, &Query::Ask(Question::Bounds)),
        Asked::Why => say(plan, &Query::Ask(Question::Why(Event::new(2).unwrap()))),
        Asked::Starts => say(plan, &Query::Foresee(Outlook::Ready, now, chosen(true))),
        Asked::Apart => {
            let start = Event::new(1).unwrap();
            let end = Event::new(2).unwrap();
            say(plan, &Query::Ask(Question::WhyApart(start, end)))
        }
    }
}

// What is said of a plan with these bounds, while the request of this number is refused.
fn said<'a>(
    heap: &'a Refusing<Global>,
    number: u64,
    asked: Asked,
    conflict: bool,
) -> Option<Result<Vec<u8, &'a Refusing<Global>>, Failure>> {
    let mut plan = new_plan(heap)?;
    if !add_bounds(&mut plan, conflict) {
        drop(plan);
        return None;
    }
    heap.refuse(number);
    let said = say_asked(&plan, asked);
    drop(plan);
    Some(said)
}

// Whether this is said, or memory was lacking.
fn is_said(
    said: Option<Result<Vec<u8, &Refusing<Global>>, Failure>>,
    wanted: &[u8],
) -> (bool, bool) {
    match said {
        Some(Ok(text)) => {
            let right = text.as_slice() == wanted;
            drop(text);
            (right, false)
        }
        Some(Err(failure)) => (false, failure == Failure::Failed(Fault::Memory)),
        None => (false, false),
    }
}

/// What is said to a query of a plan while a request is refused: the same as with memory, where the request only asked in advance
/// for more room.
pub fn say_refused(heap: &Refusing<Global>, number: u64, asked: Asked, conflict: bool) -> Outcome {
    match said(heap, 0, asked, conflict) {
        Some(Ok(wanted)) => {
            let (right, memory) = is_said(said(heap, number, asked, conflict), &wanted);
            drop(wanted);
            judged(heap, right, memory || right)
        }
        _ => Outcome::Wrong,
    }
}

// Has each request for memory of a query refused in turn, of a plan that has a schedule and of one that has none.
fn sweep(rt: &impl Abort, alloc: Global, asked: Asked) {
    for conflict in [false, true] {
        assert!(rt; requests(rt, alloc, Call::Say(asked, conflict)) > 1);
    }
}

#[test]
fn queries(rt: HostRuntime) {
    for asked in [
        Asked::Report,
        Asked::Repairs,
        Asked::Draw,
        Asked::Next,
        Asked::Ready,
        Asked::Rehearse,
        Asked::Starts,
    ] {
        sweep(&rt, rt.alloc(), asked);
    }
}

#[test]
fn questions(rt: HostRuntime) {
    for asked in [
        Asked::Records,
        Asked::Steps,
        Asked::Bounds,
        Asked::Why,
        Asked::Apart,
    ] {
        sweep(&rt, rt.alloc(), asked);
    }
}

/// The domain of a plan whose steps are loosened.
pub const DOMAIN: &[u8] =
    b"(define (domain d) (:durative-action a :parameters () :duration (= ?duration 5) :effect (at end (p))))";

/// That plan.
pub const PLAN: &[u8] = b"0: (a)\n6: (a)\n";

// The plan whose steps are loosened.
fn loose_source(heap: &Refusing<Global>) -> Option<Source<&Refusing<Global>>> {
    let domain = DOMAIN.to_vec(heap).ok()?;
    let plan = PLAN.to_vec(heap).ok()?;
    Some(Source::Files(domain, plan))
}

// The loosened plan, or the robust one.
fn made<'a>(
    heap: &'a Refusing<Global>,
    source: &Source<&'a Refusing<Global>>,
    robust: bool,
) -> Result<SitePlan<&'a Refusing<Global>>, Failure> {
    let site = Site::new(1).unwrap();
    let second = Ms::new(1_000).unwrap();
    let tolerance = Tolerance::new(second, second).unwrap();
    loosen(heap, site, source, tolerance, robust)
}

// Whether a site's copy holds so many records, or memory was lacking.
fn is_made(made: Result<SitePlan<&Refusing<Global>>, Failure>, known: usize) -> (bool, bool) {
    match made {
        Ok(copy) => {
            let right = copy.records().known() == known;
            drop(copy);
            (right, false)
        }
        Err(failure) => (false, failure == Failure::Failed(Fault::Memory)),
    }
}

/// What a plan is loosened to while a request is refused: the durations of both steps; in the robust plan also when each may start at
/// the latest.
pub fn loosen_refused(heap: &Refusing<Global>, number: u64, robust: bool) -> Outcome {
    let Some(source) = loose_source(heap) else {
        return Outcome::Wrong;
    };
    heap.refuse(number);
    let made = made(heap, &source, robust);
    drop(source);
    let (right, memory) = is_made(made, if robust { 4 } else { 2 });
    judged(heap, right, memory)
}

#[test]
fn loosened_plans(rt: HostRuntime) {
    assert!(rt; requests(&rt, rt.alloc(), Call::Loosen(false)) > 3);
}

#[test]
fn robust_plans(rt: HostRuntime) {
    assert!(rt; requests(&rt, rt.alloc(), Call::Loosen(true)) > 3);
}
