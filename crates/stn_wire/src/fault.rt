ghost use Rattle.std.specs.Prelude.{◌≡◌};
ghost use Rattle.stn_wire.specs.{declared.fault.WireFault.TheVariants.Memory, Failures.wire_failure};

use std::alloc::AllocError;
use stn_refusal::{Code, Failure, Fault};
use thiserror::Error;

/// Why some bytes begin no frame, or a frame was not spelled.
#[derive(Clone, Copy, Debug, PartialEq, Eq, Error)]
pub enum WireFault {
    /// The length of a body lies outside 1 to 262,144.
    #[error("a frame of a wrong length")]
    Length,
    /// There is no frame of this kind.
    #[error("a frame of no kind")]
    Kind,
    /// The body breaks a rule of its kind.
    #[error("a frame whose body breaks a rule")]
    Body,
    /// A frame of the old version can't be written.
    #[error("a frame of an old version")]
    OldFrame,
    /// Memory ran out.
    #[error("out of memory")]
    Memory,
}

impl From<AllocError> for WireFault {
    ghost from_gives = { λ _ fault. fault ≡ Memory };

    fn from(_refused: AllocError) -> WireFault {
        WireFault::Memory
    }
}

impl From<WireFault> for Failure {
    ghost from_gives = { λ fault given. given ≡ wire_failure fault };

    fn from(fault: WireFault) -> Failure {
        match fault {
            WireFault::Length => Failure::refused(Code::FrameLength),
            WireFault::Kind => Failure::refused(Code::FrameKind),
            WireFault::Body => Failure::refused(Code::FrameBody),
            WireFault::OldFrame => Failure::refused(Code::OldFrame),
            WireFault::Memory => Failure::Failed(Fault::Memory),
        }
    }
}
