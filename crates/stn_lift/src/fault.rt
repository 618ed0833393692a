//! Why there is no base.

ghost use Rattle.std.specs.Prelude.{◌≡◌};
ghost use Rattle.stn_lift.specs.{Faults.{of_domain, of_plan, of_lifting}, Failures.{lift_failure, base_failure}};
ghost use Rattle.stn_lift.specs.declared.fault.LiftFault.TheVariants as lifting;

use crate::plan::PlanFault;
use std::alloc::AllocError;
use stn_pddl::DomainFault;
use stn_refusal::{Code, Failure, Fault};
use thiserror::Error;

/// Why a plan has no base in a domain. The first step with a cause decides, by the first of its causes in this order.
/// Steps are counted from 1.
#[derive(Clone, Copy, Debug, PartialEq, Eq, Error)]
pub enum LiftFault {
    /// The domain has no action of this step's name.
    #[error("unknown action of step {0}")]
    UnknownAction(u16),
    /// This step has more or fewer arguments than its action has parameters.
    #[error("another number of arguments at step {0}")]
    Arity(u16),
    /// This step says another duration than its action has.
    #[error("another duration at step {0}")]
    DurationDiffers(u16),
    /// This step ends after the horizon.
    #[error("step {0} ends after the horizon")]
    PastHorizon(u16),
    /// Memory ran out.
    #[error("out of memory")]
    Memory,
}

impl From<AllocError> for LiftFault {
    ghost from_gives = { λ _ fault. fault ≡ lifting.Memory };

    fn from(_refused: AllocError) -> LiftFault {
        LiftFault::Memory
    }
}

impl From<LiftFault> for Failure {
    ghost from_gives = { λ fault given. given ≡ lift_failure fault };

    fn from(fault: LiftFault) -> Failure {
        match fault {
            LiftFault::UnknownAction(step) => Failure::refused_at(
                Code::UnknownAction,
                u32::from(step),
            ),
            LiftFault::Arity(step) => Failure::refused_at(Code::Arity, u32::from(step)),
            LiftFault::DurationDiffers(step) => Failure::refused_at(
                Code::DurationDiffers,
                u32::from(step),
            ),
            LiftFault::PastHorizon(step) => Failure::refused_at(Code::PastHorizon, u32::from(step)),
            LiftFault::Memory => Failure::Failed(Fault::Memory),
        }
    }
}

/// Why a source has no base: of two texts the domain's faults come first, then the plan's, then those of the plan's steps in the
/// domain. Lack of memory is always `Memory`, wherever it came.
#[derive(Clone, Copy, Debug, PartialEq, Eq, Error)]
pub enum BaseFault {
    /// The text of the domain has a fault.
    #[error("the domain has a fault")]
    Domain(DomainFault),
    /// The text of the plan has a fault.
    #[error("the plan has a fault")]
    Plan(PlanFault),
    /// A step of the plan does not fit the domain.
    #[error("the plan does not fit the domain")]
    Lift(LiftFault),
    /// A bare plan has more than 256 steps.
    #[error("too many steps")]
    TooManySteps,
    /// Memory ran out.
    #[error("out of memory")]
    Memory,
}

impl From<DomainFault> for BaseFault {
    ghost from_gives = { λ fault given. given ≡ of_domain fault };

    fn from(fault: DomainFault) -> BaseFault {
        match fault {
            DomainFault::Memory => BaseFault::Memory,
            _ => BaseFault::Domain(fault),
        }
    }
}

impl From<PlanFault> for BaseFault {
    ghost from_gives = { λ fault given. given ≡ of_plan fault };

    fn from(fault: PlanFault) -> BaseFault {
        match fault {
            PlanFault::Memory => BaseFault::Memory,
            _ => BaseFault::Plan(fault),
        }
    }
}

impl From<LiftFault> for BaseFault {
    ghost from_gives = { λ fault given. given ≡ of_lifting fault };

    fn from(fault: LiftFault) -> BaseFault {
        match fault {
            LiftFault::Memory => BaseFault::Memory,
            _ => BaseFault::Lift(fault),
        }
    }
}

impl From<BaseFault> for Failure {
    ghost from_gives = { λ fault given. given ≡ base_failure fault };

    fn from(fault: BaseFault) -> Failure {
        match fault {
            BaseFault::Domain(fault) => Failure::from(fault),
            BaseFault::Plan(fault) => Failure::from(fault),
            BaseFault::Lift(fault) => Failure::from(fault),
            BaseFault::TooManySteps => Failure::refused(Code::BareTooManySteps),
            BaseFault::Memory => Failure::Failed(Fault::Memory),
        }
    }
}
