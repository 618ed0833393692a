//! What is said of times, of what comes next, and of the rest of the plan.

ghost use Rattle.std.specs.Prelude.{◌≡◌, ◌⊎◌, ◌++◌, ◌+◌, List, ℕ, length, OnOk, IfErr};
ghost use Rattle.stn_net.specs.declared.windows.answers.RehearseFault.TheVariants.{Overdue, Memory as want_of_memory};
ghost use Rattle.stn_lift.specs.PlanSource.{events_of};
ghost use Rattle.stn_records.specs.Content.{AllProper};
ghost use Rattle.stn_command.specs.Dispatch.{check_text, run_line, runs_text, next_text, IsNextText, IsRestText, IsOverdueAt, IsRefusedRehearsal};

use std::alloc::Allocator;
use stn_net::{Event, Next, RehearseFault};
use stn_questions::{append_event_line, next_with, rehearse_with};
use stn_site::{BoundName, Piece, SitePlan, append_pieces};
use stn_time::{Memory, Ms};

/// Appends the name of the first bound that times break, or that they are a schedule. After an error a part of it may stand
/// there.
pub fn append_check<B: Allocator>(
    broken: Option<BoundName>,
    out: &mut Vec<u8, B>,
) -> Result<(), Memory>
    ensures { OnOk result (out.new.items ≡ out.old.items ++ check_text broken) }
{
    match broken {
        Some(name) => append_pieces(
            out,
            &[
                Piece::Text(b"broken "),
                Piece::Bound(name),
                Piece::Text(b"\n"),
            ],
        ),
        None => out.extend_from_slice(b"schedule\n"),
    }
}

/// Appends what comes next from now on, where these events count as done, or `conflict`. After an error
/// a part of it may stand there.
pub fn append_next<A: Allocator + Copy, B: Allocator>(
    plan: &SitePlan<A>,
    done: &[bool],
    now: Ms,
    out: &mut Vec<u8, B>,
) -> Result<(), Memory>
    requires { length done.now ≡ events_of plan.now.source + 1 }
    ensures { OnOk result ((text : List ℕ)
        × IsNextText plan.now.source plan.now.state done.now now text
        × (out.new.items ≡ out.old.items ++ text)) }
{
    match next_with(plan, done, now)? {
        Some(answer) => append_answer(out, answer),
        None => out.extend_from_slice(b"conflict\n"),
    }
}

fn append_answer<B: Allocator>(out: &mut Vec<u8, B>, answer: Next) -> Result<(), Memory>
    ensures { OnOk result (out.new.items ≡ out.old.items ++ next_text answer) }
{
    match answer {
        Next::Run(time, event) => append_run_line(out, time, event),
        Next::AllDone => out.extend_from_slice(b"all done\n"),
        Next::Overdue(event) => append_event_line(out, b"overdue ", event),
    }
}

/// Appends the rest of the plan from now on, where these events count as done, or `conflict`. After an
/// error a part of it may stand there.
///
/// Refused as `Overdue` where every schedule has an event that is left before now. `Memory` may come in
/// place of any answer.
pub fn append_rest<A: Allocator + Copy, B: Allocator>(
    plan: &SitePlan<A>,
    done: &[bool],
    now: Ms,
    out: &mut Vec<u8, B>,
) -> Result<(), RehearseFault>
    requires one_each { length done.now ≡ events_of plan.now.source + 1 }
    requires fixed { AllProper plan.now.state.additions }
    ensures text { OnOk result ((text : List ℕ)
        × IsRestText plan.now.source plan.now.state done.now now text
        × (out.new.items ≡ out.old.items ++ text)) }
    ensures accepted { OnOk result
        (¬ IsRefusedRehearsal plan.now.source plan.now.state done.now now) }
    ensures refused { IfErr result (λ fault. (fault ≡ want_of_memory) ⊎ ((event : ℕ) × (fault ≡ Overdue event)
        × IsOverdueAt plan.now.source plan.now.state done.now now event)) }
{
    match rehearse_with(plan, done, now)? {
        Some(runs) => append_runs(out, &runs)?,
        None => out.extend_from_slice(b"conflict\n")?,
    }
    Ok(())
}

// Appends a line for each run, and `all done`.
fn append_runs<B: Allocator>(out: &mut Vec<u8, B>, runs: &[(Ms, Event)]) -> Result<(), Memory>
    ensures { OnOk result (out.new.items ≡ out.old.items ++ runs_text runs.now) }
{
    for run in runs {
        append_run_line(out, run.0, run.1)?;
    }
    out.extend_from_slice(b"all done\n")
}

// Appends the line `run <time> <event>`.
fn append_run_line<B: Allocator>(out: &mut Vec<u8, B>, time: Ms, event: Event) -> Result<(), Memory>
    ensures { OnOk result (out.new.items ≡ out.old.items ++ run_line time event) }
{
    append_pieces(
        out,
        &[
            Piece::Text(b"run "),
            Piece::Time(time),
            Piece::Text(b" "),
            Piece::Event(event),
            Piece::Text(b"\n"),
        ],
    )
}
