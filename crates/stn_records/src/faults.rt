ghost use Rattle.std.specs.Prelude.{◌≡◌};
ghost use Rattle.stn_records.specs.declared.faults.RecordsFault.TheVariants as records;

use crate::id::Id;
use std::alloc::AllocError;
use thiserror::Error;

/// Why a change of records, or what another site holds, was refused. Each call gives those that it
/// lists; they come in this order.
#[derive(Clone, Copy, Debug, PartialEq, Eq, Error)]
pub enum RecordsFault {
    /// The record would replace itself.
    #[error("a record cannot replace itself")]
    SelfReplace,
    /// The id has another record, or replaces another id; the least such id, where there are several.
    #[error("an id has two different records")]
    Clash(Id),
    /// The id, or the id to be replaced, is not known.
    #[error("no such record")]
    Unknown,
    /// More than 4,096 ids would be known.
    #[error("too many ids")]
    Full,
    /// Memory ran out.
    #[error("out of memory")]
    Memory,
}

impl From<AllocError> for RecordsFault {
    ghost from_gives = { λ _ fault. fault ≡ records.Memory };

    fn from(_refused: AllocError) -> RecordsFault {
        RecordsFault::Memory
    }
}

/// Why a part could not be made. The faults come in this order.
#[derive(Clone, Copy, Debug, PartialEq, Eq, Error)]
pub enum PartFault {
    /// A record or a withdrawn id of the part is not held.
    #[error("no such record")]
    Unknown,
    /// Memory ran out.
    #[error("out of memory")]
    Memory,
}

/// The counter of a site would pass 65,535.
#[derive(Clone, Copy, Debug, Error)]
#[error("the counter is spent")]
pub struct CounterSpent;
