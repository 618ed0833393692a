//! Why a text is no plan.

ghost use Rattle.std.specs.Prelude.{◌≡◌};
ghost use Rattle.stn_lift.specs.Plan.Failures.{plan_failure};

use stn_refusal::{Code, Failure, Fault};
use thiserror::Error;

/// Why a text is no plan. The first line with a fault decides, and on one line `Syntax`, then `Number`, then
/// `Negative`.
#[derive(Clone, Copy, Debug, PartialEq, Eq, Error)]
pub enum PlanFault {
    /// The text has more than 65,536 bytes.
    #[error("the plan is too long")]
    TooLong,
    /// This line has not the form of a step.
    #[error("syntax on line {0} of the plan")]
    Syntax(u32),
    /// On this line a word that should be a time is none.
    #[error("no time on line {0} of the plan")]
    Number(u32),
    /// On this line a time is below 0.
    #[error("a negative time on line {0} of the plan")]
    Negative(u32),
    /// No line has a fault, and there are more than 256 steps.
    #[error("the plan has too many steps")]
    TooManySteps,
    /// Memory ran out.
    #[error("out of memory")]
    Memory,
}

impl From<PlanFault> for Failure {
    ghost from_gives = { λ fault given. given ≡ plan_failure fault };

    fn from(fault: PlanFault) -> Failure {
        match fault {
            PlanFault::TooLong => Failure::refused(Code::PlanTooLong),
            PlanFault::Syntax(line) => Failure::refused_at(Code::PlanSyntax, line),
            PlanFault::Number(line) => Failure::refused_at(Code::PlanNumber, line),
            PlanFault::Negative(line) => Failure::refused_at(Code::PlanNegative, line),
            PlanFault::TooManySteps => Failure::refused(Code::PlanTooManySteps),
            PlanFault::Memory => Failure::Failed(Fault::Memory),
        }
    }
}
