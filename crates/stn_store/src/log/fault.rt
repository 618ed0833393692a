ghost use Rattle.std.specs.Prelude.{◌≡◌};
ghost use Rattle.stn_store.specs.Log.{Faults.{of_frame, of_stream, of_base, of_replica}, Failures.load_failure};
ghost use Rattle.stn_store.specs.declared.log.fault.LoadFault.TheVariants as load;

use std::alloc::{AllocError, AllocFailed};
use stn_device::ReadFault;
use stn_lift::BaseFault;
use stn_refusal::{Code, Failure, Fault};
use stn_site::ReplicaFault;
use stn_wire::{FrameFault, WireFault};
use thiserror::Error;

/// Why a log was not loaded. The first frame with a fault decides. Lack of memory is always `Memory`, wherever it came.
#[derive(Clone, Copy, Debug, Error)]
pub enum LoadFault {
    /// A call of the reader failed.
    #[error("a read failed")]
    Read,
    /// The log goes on after 16,777,216 bytes.
    #[error("the log is too long")]
    Bound,
    /// The bytes of a frame have a fault.
    #[error(transparent)]
    Frame(WireFault),
    /// The first frame is no HELLO, a later one no RECORDS of the same version, or the log ends before the first or within one.
    #[error("no log")]
    LogForm,
    /// The source has no base.
    #[error(transparent)]
    Base(BaseFault),
    /// The records of a frame are not taken.
    #[error(transparent)]
    Take(ReplicaFault),
    /// Memory ran out.
    #[error("out of memory")]
    Memory,
}

impl From<AllocError> for LoadFault {
    ghost from_gives = { λ _ fault. fault ≡ load.Memory };

    fn from(_refused: AllocError) -> LoadFault {
        LoadFault::Memory
    }
}

impl<T: Drop> From<AllocFailed<T>> for LoadFault {
    ghost from_gives = { λ _ fault. fault ≡ load.Memory };

    fn from(_refused: AllocFailed<T>) -> LoadFault {
        LoadFault::Memory
    }
}

impl From<ReadFault> for LoadFault {
    ghost from_gives = { λ fault given. given ≡ of_stream fault };

    fn from(fault: ReadFault) -> LoadFault {
        match fault {
            ReadFault::Read => LoadFault::Read,
            ReadFault::Bound => LoadFault::Bound,
            ReadFault::Memory => LoadFault::Memory,
        }
    }
}

impl From<FrameFault> for LoadFault {
    ghost from_gives = { λ fault given. given ≡ of_frame fault };

    fn from(fault: FrameFault) -> LoadFault {
        LoadFault::Frame(WireFault::from(fault))
    }
}

impl From<BaseFault> for LoadFault {
    ghost from_gives = { λ fault given. given ≡ of_base fault };

    fn from(fault: BaseFault) -> LoadFault {
        match fault {
            BaseFault::Memory => LoadFault::Memory,
            _ => LoadFault::Base(fault),
        }
    }
}

impl From<ReplicaFault> for LoadFault {
    ghost from_gives = { λ fault given. given ≡ of_replica fault };

    fn from(fault: ReplicaFault) -> LoadFault {
        match fault {
            ReplicaFault::Memory => LoadFault::Memory,
            _ => LoadFault::Take(fault),
        }
    }
}

impl From<LoadFault> for Failure {
    ghost from_gives = { λ fault given. given ≡ load_failure fault };

    fn from(fault: LoadFault) -> Failure {
        match fault {
            LoadFault::Read => Failure::Failed(Fault::Read),
            LoadFault::Bound => Failure::Failed(Fault::Bound),
            LoadFault::Frame(fault) => Failure::from(fault),
            LoadFault::LogForm => Failure::refused(Code::LogForm),
            LoadFault::Base(fault) => Failure::from(fault),
            LoadFault::Take(fault) => Failure::from(fault),
            LoadFault::Memory => Failure::Failed(Fault::Memory),
        }
    }
}
