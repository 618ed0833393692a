ghost use Rattle.std.specs.Prelude.{◌≡◌, ◌≤◌, ◌++◌, ℕ, List, None, IfOk, IfErr, OnOk, OnErr};
ghost use Rattle.stn_lift.specs.PlanSource.{events_of};
ghost use Rattle.stn_questions.specs.{Answer.{IsQuestionRefusal, IsQuestionFailure}, Why.{HoldEnds, IsWhyPart, IsWhyText}, declared.asked.Question.TheVariants.Why};

use crate::ends::{append_ends, ends_of, times_of};
use std::alloc::Allocator;
use stn_conflict::BothWays;
use stn_net::{BoundFault, Event};
use stn_refusal::Failure;
use stn_site::{SitePlan, append_window_line};
use stn_time::Memory;

/// Appends why an event's window ends where it does: the line of its window, and for each end of it the
/// end's time and the way of bounds that holds it. Where all bounds have no schedule, it appends the
/// conflict of the report.
///
/// Refused in this order: `NoEvent`, where the event is neither one of the plan nor the origin; `Memory`.
/// After a fault nothing is appended.
pub fn print_why<A: Allocator + Copy, B: Allocator>(
    plan: &SitePlan<A>,
    event: Event,
    out: &mut Vec<u8, B>,
) -> Result<(), Failure>
    ensures printed { OnOk result ((text : List ℕ) × IsWhyText plan.now.source plan.now.state event text × (out.new.items ≡ out.old.items ++ text)) }
    ensures accepted { OnOk result (IsQuestionRefusal plan.now.source (Why event) None) }
    ensures refused { IfErr result (IsQuestionFailure plan.now.source (Why event)) }
    ensures kept { OnErr result (out.new.items ≡ out.old.items) }
{
    if event.number() > plan.base().events() {
        return Err(Failure::from(BoundFault::NoEvent));
    }
    append_why(plan, event, out)?;
    Ok(())
}

// The same of an event of the plan.
fn append_why<A: Allocator + Copy, B: Allocator>(
    plan: &SitePlan<A>,
    event: Event,
    out: &mut Vec<u8, B>,
) -> Result<(), Memory>
    requires { event ≤ events_of plan.now.source }
    ensures printed { OnOk result ((text : List ℕ) × IsWhyText plan.now.source plan.now.state event text × (out.new.items ≡ out.old.items ++ text)) }
    ensures kept { OnErr result (out.new.items ≡ out.old.items) }
{
    match ends_of(plan, Event::origin(), event)? {
        Some(ends) => {
            let text = text_of(plan, event, &ends)?;
            out.extend_from_slice(&text)
        }
        None => plan.report_conflict(out),
    }
}

// The line of an event's window, and the ways that hold its ends.
fn text_of<A: Allocator + Copy>(
    plan: &SitePlan<A>,
    event: Event,
    ends: &BothWays<A>,
) -> Result<Vec<u8, A>, Memory>
    requires within { event ≤ events_of plan.now.source }
    requires ends { HoldEnds plan.now.source plan.now.state 0 event ends.now }
    ensures { IfOk result (λ text. IsWhyPart plan.now.source plan.now.state event text.items) }
{
    let flags = plan.done_flags();
    let done = flags[usize::from(event.number())];
    let (earliest, latest) = times_of(ends);
    let mut text = Vec::new(plan.alloc());
    append_window_line(&mut text, event, earliest, latest, done)?;
    append_ends(plan, b"earliest", b"latest", ends, &mut text)?;
    Ok(text)
}
