ghost use Rattle.std.specs.Prelude.{◌≡◌};
ghost use Rattle.stn_net.specs.{declared.windows.answers.RehearseFault.TheVariants.Memory as want_of_memory, Windows.Failures.rehearse_failure};

use crate::Event;
use std::alloc::AllocError;
use stn_refusal::{Code, Failure, Fault};
use stn_time::Ms;
use thiserror::Error;

/// What comes next in a plan.
#[derive(Clone, Copy, Debug, PartialEq, Eq)]
pub enum Next {
    /// The event runs at the time.
    Run(Ms, Event),
    /// No event is left.
    AllDone,
    /// In every schedule some event that is left comes before now. This is the first, by number, that
    /// is left and whose window has no time from now on.
    Overdue(Event),
}

/// Why a plan can't be rehearsed.
#[derive(Clone, Copy, Debug, PartialEq, Eq, Error)]
pub enum RehearseFault {
    /// The event of `Next::Overdue`.
    #[error("an event is overdue")]
    Overdue(Event),
    /// Memory ran out.
    #[error("out of memory")]
    Memory,
}

impl From<AllocError> for RehearseFault {
    ghost from_gives = { λ _ made. made ≡ want_of_memory };

    fn from(_refused: AllocError) -> RehearseFault {
        RehearseFault::Memory
    }
}

impl From<RehearseFault> for Failure {
    ghost from_gives = { λ fault given. given ≡ rehearse_failure fault };

    fn from(fault: RehearseFault) -> Failure {
        match fault {
            RehearseFault::Overdue(event) => Failure::refused_of(Code::Overdue, event.number()),
            RehearseFault::Memory => Failure::Failed(Fault::Memory),
        }
    }
}
