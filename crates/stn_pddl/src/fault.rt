//! Why a text is no domain.

ghost use Rattle.std.specs.Prelude.{◌≡◌};
ghost use Rattle.stn_pddl.specs.{declared.fault.DomainFault.TheVariants.Memory, Faults.of_tree, Failures.domain_failure};

use crate::tree::TreeFault;
use std::alloc::AllocError;
use stn_refusal::{Code, Failure, Fault};
use thiserror::Error;

/// The first fault of a text, with its line, counted from 1.
#[derive(Clone, Copy, Debug, PartialEq, Eq, Error)]
pub enum DomainFault {
    /// The text has more than 65,536 bytes.
    #[error("the domain is too long")]
    TooLong,
    /// The text has another form on this line.
    #[error("syntax on line {0}")]
    Syntax(u32),
    /// A bracket opens on this line inside 32 open ones.
    #[error("too many open brackets on line {0}")]
    TooDeep(u32),
    /// This line has a form of PDDL that is not supported.
    #[error("not supported on line {0}")]
    Unsupported(u32),
    /// A duration on this line is no time of at least 0.
    #[error("not a duration on line {0}")]
    Number(u32),
    /// A name of an action, a key or a parameter stands a second time on this line.
    #[error("said twice on line {0}")]
    Twice(u32),
    /// A term on this line begins with `?`, and is no parameter of its action.
    #[error("not a parameter on line {0}")]
    Variable(u32),
    /// Memory ran out.
    #[error("out of memory")]
    Memory,
}

impl From<TreeFault> for DomainFault {
    ghost from_gives = { λ fault e. e ≡ of_tree fault };

    fn from(fault: TreeFault) -> DomainFault {
        match fault {
            TreeFault::TooLong => DomainFault::TooLong,
            TreeFault::Syntax(line) => DomainFault::Syntax(line),
            TreeFault::TooDeep(line) => DomainFault::TooDeep(line),
        }
    }
}

impl From<AllocError> for DomainFault {
    ghost from_gives = { λ _ e. e ≡ Memory };

    fn from(_e: AllocError) -> DomainFault {
        DomainFault::Memory
    }
}

impl From<DomainFault> for Failure {
    ghost from_gives = { λ fault given. given ≡ domain_failure fault };

    fn from(fault: DomainFault) -> Failure {
        match fault {
            DomainFault::TooLong => Failure::refused(Code::DomainTooLong),
            DomainFault::Syntax(line) => Failure::refused_at(Code::DomainSyntax, line),
            DomainFault::TooDeep(line) => Failure::refused_at(Code::DomainTooDeep, line),
            DomainFault::Unsupported(line) => Failure::refused_at(Code::DomainUnsupported, line),
            DomainFault::Number(line) => Failure::refused_at(Code::DomainNumber, line),
            DomainFault::Twice(line) => Failure::refused_at(Code::DomainTwice, line),
            DomainFault::Variable(line) => Failure::refused_at(Code::DomainVariable, line),
            DomainFault::Memory => Failure::Failed(Fault::Memory),
        }
    }
}
