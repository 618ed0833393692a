ghost use Rattle.std.specs.Prelude.{◌≡◌, ◌≤◌, ◌++◌, ℕ, List, None, IfOk, IfErr, OnOk, OnErr};
ghost use Rattle.stn_lift.specs.PlanSource.{events_of};
ghost use Rattle.stn_questions.specs.{Answer.{IsQuestionRefusal, IsQuestionFailure}, Why.{HoldEnds, IsApartPart, IsApartText}, declared.asked.Question.TheVariants.WhyApart};

use crate::ends::{append_ends, ends_of, times_of};
use std::alloc::Allocator;
use stn_conflict::BothWays;
use stn_net::{BoundFault, Event};
use stn_refusal::Failure;
use stn_site::{SitePlan, append_range_line};
use stn_time::Memory;

/// Appends why one event comes no sooner and no later after another: the least and the greatest time from
/// `from` to `to` over all schedules, and for each of the two the way of bounds that holds it. Where all
/// bounds have no schedule, it appends the conflict of the report.
///
/// Refused in this order: `NoEvent`, where one of them is neither an event of the plan nor the origin;
/// `SameEvent`, where both are the same; `Memory`. After a fault nothing is appended.
pub fn print_apart<A: Allocator + Copy, B: Allocator>(
    plan: &SitePlan<A>,
    from: Event,
    to: Event,
    out: &mut Vec<u8, B>,
) -> Result<(), Failure>
    ensures printed { OnOk result ((text : List ℕ) × IsApartText plan.now.source plan.now.state from to text × (out.new.items ≡ out.old.items ++ text)) }
    ensures accepted { OnOk result (IsQuestionRefusal plan.now.source (WhyApart from to) None) }
    ensures refused { IfErr result (IsQuestionFailure plan.now.source (WhyApart from to)) }
    ensures kept { OnErr result (out.new.items ≡ out.old.items) }
{
    let events = plan.base().events();
    if from.number() > events || to.number() > events {
        return Err(Failure::from(BoundFault::NoEvent));
    }
    if from == to {
        return Err(Failure::from(BoundFault::SameEvent));
    }
    append_apart(plan, from, to, out)?;
    Ok(())
}

// The same of two events of the plan.
fn append_apart<A: Allocator + Copy, B: Allocator>(
    plan: &SitePlan<A>,
    from: Event,
    to: Event,
    out: &mut Vec<u8, B>,
) -> Result<(), Memory>
    requires from { from ≤ events_of plan.now.source }
    requires to { to ≤ events_of plan.now.source }
    ensures printed { OnOk result ((text : List ℕ) × IsApartText plan.now.source plan.now.state from to text × (out.new.items ≡ out.old.items ++ text)) }
    ensures kept { OnErr result (out.new.items ≡ out.old.items) }
{
    match ends_of(plan, from, to)? {
        Some(ends) => {
            let text = text_of(plan, from, to, &ends)?;
            out.extend_from_slice(&text)
        }
        None => plan.report_conflict(out),
    }
}

// The line of the least and the greatest time, and the ways that hold them.
fn text_of<A: Allocator + Copy>(
    plan: &SitePlan<A>,
    from: Event,
    to: Event,
    ends: &BothWays<A>,
) -> Result<Vec<u8, A>, Memory>
    requires { HoldEnds plan.now.source plan.now.state from to ends.now }
    ensures { IfOk result (λ text. IsApartPart plan.now.source plan.now.state from to text.items) }
{
    let (least, greatest) = times_of(ends);
    let mut text = Vec::new(plan.alloc());
    append_range_line(&mut text, from, to, least, greatest)?;
    append_ends(plan, b"least", b"greatest", ends, &mut text)?;
    Ok(text)
}
