//! What a site is asked about its plan and what it holds.

ghost use Rattle.std.specs.Prelude.{◌≡◌, ◌⊎◌, ◌++◌, ◌∷◌, ◌+◌, ◌≤◌, ℕ, pos, length, take, List, None, Some, OnOk, OnErr, IfOk, IfErr, IsErrOf};
ghost use Rattle.stn_net.specs.Event.{most_events};
ghost use Rattle.stn_lift.specs.PlanSource.{events_of, steps_of};
ghost use Rattle.stn_records.specs.Content.{AllProper};
ghost use Rattle.stn_refusal.specs.Refusals.{out_of_memory};
ghost use Rattle.stn_site.specs.Own.{done_or_others};
ghost use Rattle.stn_chart.specs.Chart.{seen_look};
ghost use Rattle.stn_command.specs.Query.{report, check, ask, repairs, seen_lone, seen_query, seen_choice, IsSaid, IsQueryRefusal, LacksMemory, Says, Foresees};
ghost use Rattle.stn_command.specs.Query as asked;

use crate::dispatch::{append_check, append_next, append_rest};
use crate::words::no_such_word;
use std::alloc::Allocator;
use stn_chart::Look;
use stn_net::BoundFault;
use stn_picture::print_picture;
use stn_questions::{LoneQuery, Outlook, Question, print_answer, print_ready_with, source_names};
use stn_refusal::Failure;
use stn_repairs::print_repairs;
use stn_site::{EVENT_FLAGS, Own, SitePlan, StepRange, are_within, flags_among};
use stn_time::{Memory, Ms};

/// Events of a plan: those of the steps of some ranges, or of all steps where none are given; or the starts of these steps
/// alone.
#[derive(Clone, Copy)]
pub struct Choice<'a> {
    pub steps: Option<&'a [StepRange]>,
    pub starts: bool,
}

/// What is asked of a site.
#[derive(Clone, Copy)]
pub enum Query<'a> {
    /// The report.
    Report,
    /// Whether these times of the events, from the first after the origin on, are a schedule.
    Check(&'a [Ms]),
    /// What is asked of the chosen events, from this time on: only they count as left.
    Foresee(Outlook, Ms, Choice<'a>),
    /// The answer to another question.
    Ask(Question),
    /// What mends a conflict.
    Repairs,
    /// The picture of the plan, drawn so.
    Draw(Look<'a>),
}

impl<'a> From<LoneQuery> for Query<'a> {
    ghost from_gives = { λ lone query. seen_query query ≡ seen_lone lone };

    fn from(lone: LoneQuery) -> Query<'a> {
        match lone {
            LoneQuery::Report => Query::Report,
            LoneQuery::Ask(question) => Query::Ask(question),
            LoneQuery::Repairs => Query::Repairs,
        }
    }
}

/// Appends what is said to a query about a site's copy of the plan. After an error nothing is appended.
///
/// Refused as 70 where a check has another number of times than the plan has events, as 4 where the plan lacks the event of a
/// question or a step that is chosen or owned, then as 5 where a question is about an event and itself, and as 7 where an event of
/// a rehearsal is overdue. Lack of memory comes last, but may come in place of 7.
#[tactic(auto, using(crate::proofs::Alike::memory_of))]
pub fn append_said<A: Allocator + Copy, B: Allocator>(
    plan: &SitePlan<A>,
    query: &Query<'_>,
    out: &mut Vec<u8, B>,
) -> Result<(), Failure>
    ensures text { OnOk result ((text : List ℕ) × IsSaid (seen_query query.now) plan.now text × (out.new.items ≡ out.old.items ++ text)) }
    ensures accepted { OnOk result (IsQueryRefusal (seen_query query.now) plan.now None) }
    ensures refused { IfErr result (λ failure. (failure ≡ out_of_memory) ⊎ IsQueryRefusal (seen_query query.now) plan.now (Some failure)) }
    ensures memory { IsErrOf result out_of_memory → LacksMemory (seen_query query.now) plan.now }
    ensures kept { OnErr result (out.new.items ≡ out.old.items) }
{
    let text = say(plan, query)?;
    out.extend_from_slice(&text)?;
    Ok(())
}

/// What is said to a query about a site's copy of the plan.
///
/// Refused as `append_said` refuses it.
pub fn say<A: Allocator + Copy>(
    plan: &SitePlan<A>,
    query: &Query<'_>,
) -> Result<Vec<u8, A>, Failure>
    ensures { Says (seen_query query.now) plan.now result }
{
    match query {
        Query::Report => report(plan),
        Query::Check(times) => check(plan, *times),
        Query::Foresee(outlook, now, choice) => foresee(plan, *outlook, *now, choice),
        Query::Ask(question) => tell(plan, *question),
        Query::Repairs => repairs(plan),
        Query::Draw(look) => draw(plan, look),
    }
}

// The report.
fn report<A: Allocator + Copy>(plan: &SitePlan<A>) -> Result<Vec<u8, A>, Failure>
    ensures { Says report plan.now result }
{
    let mut text = Vec::new(plan.alloc());
    plan.report(&mut text)?;
    Ok(text)
}

// Whether times for the events from 1 on are a schedule.
fn check<A: Allocator + Copy>(plan: &SitePlan<A>, times: &[Ms]) -> Result<Vec<u8, A>, Failure>
    ensures { Says (check times.now) plan.now result }
{
    if times.len() != usize::from(plan.base().events()) {
        return Err(no_such_word());
    }
    let all = behind_origin(plan.alloc(), times)?;
    let mut text = Vec::new(plan.alloc());
    append_check(plan.check(&all), &mut text)?;
    Ok(text)
}

// The times of all events: the origin's, 0, and those of the others.
fn behind_origin<A: Allocator>(alloc: A, times: &[Ms]) -> Result<Vec<Ms, A>, Memory>
    ensures { IfOk result (λ all. all.items ≡ pos 0 ∷ times.now) }
{
    let mut all = Vec::new(alloc);
    all.push(Ms::new(0).unwrap())?;
    all.extend_from_slice(times)?;
    Ok(all)
}

// What is said of the chosen events.
fn foresee<A: Allocator + Copy>(
    plan: &SitePlan<A>,
    outlook: Outlook,
    now: Ms,
    choice: &Choice<'_>,
) -> Result<Vec<u8, A>, Failure>
    ensures { Says (asked.foresee outlook now (seen_choice choice.now)) plan.now result }
{
    if has_steps(choice, plan.base().steps()) {
        let all = [all_steps(plan)];
        let starts = choice.starts;
        let steps = choice.steps.unwrap_or(&all);
        of_own(plan, outlook, now, &Own { steps, starts })
    } else {
        Err(Failure::from(BoundFault::NoEvent))
    }
}

// Whether a plan of so many steps has all chosen steps.
fn has_steps(choice: &Choice<'_>, steps: u16) -> bool
    ensures { result ≡ asked.has_steps (seen_choice choice.now) steps }
{
    match choice.steps {
        Some(ranges) => ranges.iter().all(|range| range.is_within(steps)),
        None => true,
    }
}

// All steps of the plan; the origin counts as step 0.
fn all_steps<A: Allocator + Copy>(plan: &SitePlan<A>) -> StepRange
    ensures first { result.first ≡ 0 }
    ensures last { result.last ≡ steps_of plan.now.source }
{
    StepRange {
        first: 0,
        last: u32::from(plan.base().steps()),
    }
}

// What is said of a site's own events.
fn of_own<A: Allocator + Copy>(
    plan: &SitePlan<A>,
    outlook: Outlook,
    now: Ms,
    own: &Own<'_>,
) -> Result<Vec<u8, A>, Failure>
    ensures { Foresees outlook now (done_or_others own.now plan.now.source plan.now.state) plan.now result }
{
    let flags = flags_among(plan, own);
    let done = flags_within(&flags, plan.base().events());
    foresee_with(plan, outlook, now, done)
}

// Those of the flags that are about so many events.
fn flags_within(flags: &[bool; EVENT_FLAGS], events: u16) -> &[bool]
    requires { events ≤ most_events }
    ensures value { result.now ≡ take (events + 1) flags.now }
    ensures one_each { length result.now ≡ events + 1 }
{
    &flags[..usize::from(events) + 1]
}

// What is said of the events that are left, where these count as done.
fn foresee_with<A: Allocator + Copy>(
    plan: &SitePlan<A>,
    outlook: Outlook,
    now: Ms,
    done: &[bool],
) -> Result<Vec<u8, A>, Failure>
    requires one_each { length done.now ≡ events_of plan.now.source + 1 }
    requires fixed { AllProper plan.now.state.additions }
    ensures { Foresees outlook now done.now plan.now result }
{
    let mut text = Vec::new(plan.alloc());
    match outlook {
        Outlook::Next => append_next(plan, done, now, &mut text)?,
        Outlook::Ready => print_ready_with(plan, done, now, &mut text)?,
        Outlook::Rehearse => append_rest(plan, done, now, &mut text)?,
    }
    Ok(text)
}

// The answer to a question.
fn tell<A: Allocator + Copy>(plan: &SitePlan<A>, question: Question) -> Result<Vec<u8, A>, Failure>
    ensures { Says (ask question) plan.now result }
{
    let mut text = Vec::new(plan.alloc());
    print_answer(plan, question, &mut text)?;
    Ok(text)
}

// What mends a conflict.
fn repairs<A: Allocator + Copy>(plan: &SitePlan<A>) -> Result<Vec<u8, A>, Failure>
    ensures { Says repairs plan.now result }
{
    let mut text = Vec::new(plan.alloc());
    print_repairs(plan, &mut text)?;
    Ok(text)
}

// The picture of the plan.
fn draw<'x, A: Allocator + Copy>(
    plan: &SitePlan<A>,
    look: &'x Look<'x>,
) -> Result<Vec<u8, A>, Failure>
    ensures { Says (asked.draw (seen_look look.now)) plan.now result }
{
    if !are_within(look.owned, plan.base().steps()) {
        return Err(Failure::from(BoundFault::NoEvent));
    }
    let names = source_names(plan)?;
    let mut text = Vec::new(plan.alloc());
    print_picture(plan, look, &names, &mut text)?;
    Ok(text)
}
