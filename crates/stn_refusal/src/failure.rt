ghost use Rattle.std.specs.Prelude.{◌≡◌};
ghost use Rattle.stn_refusal.specs.Refusals as spec;
ghost use Rattle.stn_refusal.specs.Printed.{fault_text};

use crate::code::Code;
use crate::refusal::{Place, Refusal};
use std::alloc::{AllocError, AllocFailed};

/// A device that failed, or lack of memory.
#[derive(Clone, Copy, Debug, PartialEq, Eq)]
pub enum Fault {
    /// A read failed.
    Read,
    /// A write failed.
    Write,
    /// An input is longer than its limit.
    Bound,
    /// Memory ran out.
    Memory,
    /// A file or a folder can't be opened, made, locked, linked, renamed or forced to the disk.
    File,
    /// An address can't be bound or reached in time, a connection can't be accepted, or the clock can't be read.
    Net,
}

/// Why a call or a command ends without its answer. Each type of faults says its failure by `From`.
#[derive(Clone, Copy, Debug, PartialEq, Eq)]
pub enum Failure {
    /// What was asked is refused.
    Refused(Refusal),
    /// A device failed, or memory ran out.
    Failed(Fault),
}

impl Fault {
    /// The printed line.
    pub fn text(self) -> &'static [u8]
        ensures { result.now ≡ fault_text self }
    {
        match self {
            Fault::Read => b"fault read\n",
            Fault::Write => b"fault write\n",
            Fault::Bound => b"fault bound\n",
            Fault::Memory => b"fault memory\n",
            Fault::File => b"fault file\n",
            Fault::Net => b"fault net\n",
        }
    }
}

impl Failure {
    /// A refusal that names nothing.
    pub fn refused(code: Code) -> Failure
        ensures { result ≡ spec.refused code }
    {
        Failure::Refused(Refusal::new(code))
    }

    /// A refusal that names a line or a step.
    pub fn refused_at(code: Code, number: u32) -> Failure
        ensures { result ≡ spec.refused_at code number }
    {
        Failure::Refused(Refusal::at(code, number))
    }

    /// A refusal that names an event, by its number.
    pub fn refused_of(code: Code, event: u16) -> Failure
        ensures { result ≡ spec.refused_of code event }
    {
        Failure::Refused(Refusal::of(code, event))
    }

    /// A refusal that names an id, by its site and its counter.
    pub fn refused_for(code: Code, site: u8, counter: u16) -> Failure
        ensures { result ≡ spec.refused_for code (record { site = site; counter = counter }) }
    {
        Failure::Refused(Refusal::for_id(code, site, counter))
    }

    /// A refusal by its number alone, as another site sends it.
    pub fn refused_with(number: u8) -> Failure
        ensures { result ≡ spec.refused_with number }
    {
        Failure::Refused(Refusal {
            code: number,
            place: Place::Nowhere,
        })
    }

    /// The number of a refusal; a fault has none.
    pub fn code(self) -> Option<u8>
        ensures { result ≡ spec.code_of self }
    {
        match self {
            Failure::Refused(refusal) => Some(refusal.code),
            Failure::Failed(_) => None,
        }
    }
}

impl From<AllocError> for Failure {
    ghost from_gives = { λ _ given. given ≡ spec.out_of_memory };

    fn from(_refused: AllocError) -> Failure {
        Failure::Failed(Fault::Memory)
    }
}

impl<T: Drop> From<AllocFailed<T>> for Failure {
    ghost from_gives = { λ _ given. given ≡ spec.out_of_memory };

    fn from(_refused: AllocFailed<T>) -> Failure {
        Failure::Failed(Fault::Memory)
    }
}
