ghost use Rattle.std.specs.{Prelude.{◌≡◌, ◌≤◌, ◌++◌, ℕ, List, Ok, length, map, decimal, IfOk, OnOk, OnErr}, List.{flat_map, range_with_len}};
ghost use Rattle.stn_net.specs.Event.{most_steps};
ghost use Rattle.stn_lift.specs.{Plan.{Steps.plan_of, Views.{planned_step, word_of}}, PlanSource.files};
ghost use Rattle.stn_site.specs.Lines.{line};
ghost use Rattle.stn_questions.specs.{Durations.{least_of, AreDurations}, Steps.{action_text, step_name_text, name_lines, step_line, step_lines, planned_steps, steps_text}};

use std::alloc::{AllocError, Allocator};
use stn_lift::{Base, Plan, PlanFault, Source, Step};
use stn_net::Bound;
use stn_site::{Piece, SitePlan, append_pieces};
use stn_time::{Memory, Ms};

/// Appends a line for each step, from 1 on: its number; of a plan of files also its action and the
/// arguments as the plan's text spells them, its planned start and its duration in the domain. If memory
/// runs out, it appends nothing.
pub fn print_steps<A: Allocator + Copy, B: Allocator>(
    plan: &SitePlan<A>,
    out: &mut Vec<u8, B>,
) -> Result<(), Memory>
    ensures printed { OnOk result (out.new.items ≡ out.old.items ++ steps_text plan.now.source) }
    ensures kept { OnErr result (out.new.items ≡ out.old.items) }
{
    let mut text = Vec::new(plan.alloc());
    append_steps(plan.alloc(), plan.base(), &mut text)?;
    out.extend_from_slice(&text)
}

// Appends the lines of the steps of a base.
fn append_steps<A: Allocator + Copy>(
    alloc: A,
    base: &Base<A>,
    out: &mut Vec<u8, A>,
) -> Result<(), Memory>
    ensures { OnOk result (out.new.items ≡ out.old.items ++ steps_text base.now) }
{
    match base.source() {
        Source::Bare(steps) => append_numbers(out, *steps),
        Source::Files(_, plan) => append_planned(alloc, plan, durations_of(base), out),
    }
}

// The bounds that say how long each step of a plan of files lasts.
fn durations_of<A: Allocator>(base: &Base<A>) -> &[Bound]
    ensures { (domain plan : List ℕ) → base.now ≡ files domain plan → AreDurations domain plan result.now }
{
    let first = usize::from(base.events());
    &base.bounds()[first..]
}

// Appends a line for each number from 1 to that of the steps.
fn append_numbers<B: Allocator>(out: &mut Vec<u8, B>, steps: u16) -> Result<(), Memory>
    requires { steps ≤ most_steps }
    ensures { OnOk result (out.new.items ≡ out.old.items ++ flat_map (λ number. line (decimal number)) (range_with_len 1 steps)) }
{
    for before in 0..steps {
        append_pieces(out, &[Piece::Number(before + 1), Piece::Text(b"\n")])?;
    }
    Ok(())
}

// Appends the lines of the steps of a plan's text, of which these bounds say how long each lasts.
fn append_planned<A: Allocator + Copy>(
    alloc: A,
    plan: &[u8],
    durations: &[Bound],
    out: &mut Vec<u8, A>,
) -> Result<(), Memory>
    requires read { plan_of plan.now ≡ Ok (planned_steps plan.now) }
    requires one_each { length (planned_steps plan.now) ≤ length durations.now }
    ensures { OnOk result (out.new.items ≡ out.old.items ++ step_lines (least_of durations.now) 0 (planned_steps plan.now)) }
{
    let plan = read_again(alloc, plan)?;
    append_step_lines(plan.steps(), durations, out)
}

// The plan of the text of one that was read before, so that nothing but memory can be lacking.
pub fn read_again<'a, A: Allocator + Copy>(alloc: A, text: &'a [u8]) -> Result<Plan<'a, A>, Memory>
    requires { plan_of text.now ≡ Ok (planned_steps text.now) }
    ensures { IfOk result (λ plan. plan.steps ≡ planned_steps text.now) }
{
    match Plan::read(alloc, text) {
        Ok(plan) => Ok(plan),
        Err(fault) => {
            prove!(fault == PlanFault::Memory);
            Err(AllocError)
        }
    }
}

fn append_step_lines<'a, A: Allocator, B: Allocator>(
    steps: &[Step<'a, A>],
    durations: &[Bound],
    out: &mut Vec<u8, B>,
) -> Result<(), Memory>
    requires one_each { length steps.now ≤ length durations.now }
    requires few { length steps.now ≤ most_steps }
    ensures { OnOk result (out.new.items ≡ out.old.items ++ step_lines (least_of durations.now) 0 (map planned_step steps.now)) }
{
    for (before, step) in steps.iter().enumerate() {
        let duration = durations[before].lo();
        append_step_line(before as u16 + 1, step, duration, out)?;
    }
    Ok(())
}

fn append_step_line<'a, A: Allocator, B: Allocator>(
    number: u16,
    step: &Step<'a, A>,
    duration: Ms,
    out: &mut Vec<u8, B>,
) -> Result<(), Memory>
    ensures { OnOk result (out.new.items ≡ out.old.items ++ step_line number (planned_step step.now) duration) }
{
    append_name(number, step, out)?;
    append_pieces(
        out,
        &[
            Piece::Text(b" "),
            Piece::Time(step.time),
            Piece::Text(b" "),
            Piece::Time(duration),
            Piece::Text(b"\n"),
        ],
    )
}

/// The names of the steps of a plan: for each, from 1 on, a line with its number, its action and the arguments as the
/// plan's text spells them.
pub fn names_of<'a, A: Allocator + Copy>(alloc: A, plan: &Plan<'a, A>) -> Result<Vec<u8, A>, Memory>
    ensures { IfOk result (λ names. names.items ≡ name_lines 0 plan.now.steps) }
{
    let mut names = Vec::new(alloc);
    append_name_lines(plan.steps(), &mut names)?;
    Ok(names)
}

fn append_name_lines<'a, A: Allocator, B: Allocator>(
    steps: &[Step<'a, A>],
    out: &mut Vec<u8, B>,
) -> Result<(), Memory>
    requires { length steps.now ≤ most_steps }
    ensures { OnOk result (out.new.items ≡ out.old.items ++ name_lines 0 (map planned_step steps.now)) }
{
    for (before, step) in steps.iter().enumerate() {
        append_name(before as u16 + 1, step, out)?;
        out.extend_from_slice(b"\n")?;
    }
    Ok(())
}

// Appends the number of a step, its action and its arguments.
fn append_name<'a, A: Allocator, B: Allocator>(
    number: u16,
    step: &Step<'a, A>,
    out: &mut Vec<u8, B>,
) -> Result<(), Memory>
    ensures { OnOk result (out.new.items ≡ out.old.items ++ step_name_text number (planned_step step.now)) }
{
    append_pieces(out, &[Piece::Number(number), Piece::Text(b" ")])?;
    append_words(step.action, &step.args, out)
}

// Appends an action and its arguments, with a space before each of these.
pub fn append_words<B: Allocator>(
    action: &[u8],
    arguments: &[&[u8]],
    out: &mut Vec<u8, B>,
) -> Result<(), Memory>
    ensures { OnOk result (out.new.items ≡ out.old.items ++ action_text action.now (map word_of arguments.now)) }
{
    out.extend_from_slice(action)?;
    for argument in arguments {
        append_pieces(out, &[Piece::Text(b" "), Piece::Text(argument)])?;
    }
    Ok(())
}
