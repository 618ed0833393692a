ghost use Rattle.std.specs.Prelude.{◌≡◌, ◌++◌, ℕ, List, None, IfErr, OnOk, OnErr};
ghost use Rattle.stn_questions.specs.Answer.{IsAnswer, IsQuestionRefusal, IsQuestionFailure};

use crate::apart::print_apart;
use crate::asked::Question;
use crate::bounds::print_bounds;
use crate::records::print_records;
use crate::steps::print_steps;
use crate::why::print_why;
use std::alloc::Allocator;
use stn_refusal::Failure;
use stn_site::SitePlan;

/// Appends the answer to a question about a plan and what a site holds of it.
///
/// Refused in this order: `NoEvent`, where the question is about an event that is neither one of the
/// plan nor the origin; `SameEvent`, where it is about an event and itself; `Memory`. After a fault
/// nothing is appended.
pub fn print_answer<A: Allocator + Copy, B: Allocator>(
    plan: &SitePlan<A>,
    question: Question,
    out: &mut Vec<u8, B>,
) -> Result<(), Failure>
    ensures answer { OnOk result ((text : List ℕ) × IsAnswer plan.now.source plan.now.state question text × (out.new.items ≡ out.old.items ++ text)) }
    ensures accepted { OnOk result (IsQuestionRefusal plan.now.source question None) }
    ensures refused { IfErr result (IsQuestionFailure plan.now.source question) }
    ensures kept { OnErr result (out.new.items ≡ out.old.items) }
{
    match question {
        Question::Records => Ok(print_records(plan, out)?),
        Question::Steps => Ok(print_steps(plan, out)?),
        Question::Bounds => Ok(print_bounds(plan, out)?),
        Question::Why(event) => print_why(plan, event, out),
        Question::WhyApart(from, to) => print_apart(plan, from, to, out),
    }
}
