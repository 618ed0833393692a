// What some bytes are.
use std::fmt;
use stn_lift::BaseFault;
use stn_net::BoundFault;
use stn_pddl::DomainFault;
use stn_site::ReplicaFault;
use stn_store::LoadFault;
use stn_wire::WireFault;

/// What becomes of some bytes as a frame, as a log or as a session.
#[derive(Clone, Copy, PartialEq, Eq, Drop)]
pub enum Case {
    /// A frame is read, and written back; a log is loaded, and saved and loaded again; a session is closed.
    Read,
    /// They are a frame of the old version, which is read and never written.
    Old,
    /// They are refused with this code.
    Refused(u8),
    /// They end within a frame.
    Unfinished,
    /// What was read is not written back or not loaded again as the same, or two ways to read differ.
    Broken,
}

impl Case {
    // The word of what they are, beside which a refusal has its code.
    fn word(self) -> &'static str {
        match self {
            Case::Read => "read",
            Case::Old => "old",
            Case::Refused(_) => "refused",
            Case::Unfinished => "unfinished",
            Case::Broken => "broken",
        }
    }
}

impl fmt::Display for Case {
    fn fmt<W: fmt::Write>(&self, f: &mut fmt::Formatter<W>) -> fmt::Result {
        match *self {
            Case::Refused(code) => write!(f, "{code}"),
            other => f.write_str(other.word()),
        }
    }
}

// The code of a fault that no bytes of the tests have.
const NO_CODE: u8 = 99;

/// The code of a frame's fault.
pub fn wire_code(fault: WireFault) -> u8 {
    match fault {
        WireFault::Length => 50,
        WireFault::Kind => 51,
        WireFault::Body => 52,
        WireFault::OldFrame | WireFault::Memory => NO_CODE,
    }
}

/// The code of the fault of records that a replica does not take.
pub fn replica_code(fault: ReplicaFault) -> u8 {
    match fault {
        ReplicaFault::Bound(BoundFault::NoEvent) => 4,
        ReplicaFault::Clash(_) => 40,
        ReplicaFault::Full => 41,
        _ => NO_CODE,
    }
}

/// The code of a log's fault.
pub fn load_code(fault: LoadFault) -> u8 {
    match fault {
        LoadFault::Frame(fault) => wire_code(fault),
        LoadFault::LogForm => 62,
        LoadFault::Base(BaseFault::Domain(DomainFault::Syntax(_))) => 11,
        LoadFault::Base(BaseFault::TooManySteps) => 34,
        LoadFault::Take(fault) => replica_code(fault),
        _ => NO_CODE,
    }
}
