ghost use Rattle.std.specs.Prelude.{◌≡◌};
ghost use Rattle.stn_wire.specs.Stream.{frame_code, wire_fault, Failures.frame_failure};

use crate::WireFault;
use stn_refusal::{Code, Failure};
use thiserror::Error;

/// Why bytes begin no frame.
#[derive(Clone, Copy, Debug, PartialEq, Eq, Error)]
pub enum FrameFault {
    /// The length of a body lies outside 1 to 262,144.
    #[error("a frame of a wrong length")]
    Length,
    /// There is no frame of this kind.
    #[error("a frame of no kind")]
    Kind,
    /// The body breaks a rule of its kind.
    #[error("a frame whose body breaks a rule")]
    Body,
}

impl From<FrameFault> for Failure {
    ghost from_gives = { λ fault given. given ≡ frame_failure fault };

    fn from(fault: FrameFault) -> Failure {
        Failure::from(WireFault::from(fault))
    }
}

impl FrameFault {
    /// The code of the fault: 50, 51 or 52.
    pub fn code(self) -> u8
        ensures { result ≡ frame_code self }
    {
        match self {
            FrameFault::Length => Code::FrameLength.number(),
            FrameFault::Kind => Code::FrameKind.number(),
            FrameFault::Body => Code::FrameBody.number(),
        }
    }
}

impl From<FrameFault> for WireFault {
    ghost from_gives = { λ fault made. made ≡ wire_fault fault };

    fn from(fault: FrameFault) -> WireFault {
        match fault {
            FrameFault::Length => WireFault::Length,
            FrameFault::Kind => WireFault::Kind,
            FrameFault::Body => WireFault::Body,
        }
    }
}
