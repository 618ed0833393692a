ghost use Rattle.std.specs.Prelude.{◌≡◌};
ghost use Rattle.stn_site.specs.{FaultsOf.of_records_fault, Failures.replica_failure};
ghost use Rattle.stn_site.specs.declared.faults.ReplicaFault.TheVariants as replica;

use stn_net::BoundFault;
use stn_records::{CounterSpent, Id, RecordsFault};
use stn_refusal::{Code, Failure, Fault};
use thiserror::Error;

/// Why a replica refused a change. Each call gives those that it lists.
#[derive(Clone, Copy, Debug, PartialEq, Eq, Error)]
pub enum ReplicaFault {
    /// The events and sides are no bound of the plan.
    #[error("{0}")]
    Bound(BoundFault),
    /// The site's counter would pass 65,535.
    #[error("the counter is spent")]
    CounterSpent,
    /// More than 4,096 ids would be known.
    #[error("too many ids")]
    Full,
    /// The id is not known.
    #[error("no such record")]
    Unknown,
    /// This id has two different records, or replaces two different ids; the least such id.
    #[error("an id has two different records")]
    Clash(Id),
    /// Memory ran out.
    #[error("out of memory")]
    Memory,
}

impl From<BoundFault> for ReplicaFault {
    ghost from_gives = { λ fault made. made ≡ replica.Bound fault };

    fn from(fault: BoundFault) -> ReplicaFault {
        ReplicaFault::Bound(fault)
    }
}

impl From<CounterSpent> for ReplicaFault {
    ghost from_gives = { λ _ made. made ≡ replica.CounterSpent };

    fn from(_spent: CounterSpent) -> ReplicaFault {
        ReplicaFault::CounterSpent
    }
}

impl From<RecordsFault> for ReplicaFault {
    ghost from_gives = { λ fault made. made ≡ of_records_fault fault };

    fn from(fault: RecordsFault) -> ReplicaFault {
        match fault {
            RecordsFault::SelfReplace | RecordsFault::Unknown => ReplicaFault::Unknown,
            RecordsFault::Clash(id) => ReplicaFault::Clash(id),
            RecordsFault::Full => ReplicaFault::Full,
            RecordsFault::Memory => ReplicaFault::Memory,
        }
    }
}

impl From<ReplicaFault> for Failure {
    ghost from_gives = { λ fault given. given ≡ replica_failure fault };

    fn from(fault: ReplicaFault) -> Failure {
        match fault {
            ReplicaFault::Bound(fault) => Failure::from(fault),
            ReplicaFault::CounterSpent => Failure::refused(Code::CounterSpent),
            ReplicaFault::Full => Failure::refused(Code::Full),
            ReplicaFault::Unknown => Failure::refused(Code::Unknown),
            ReplicaFault::Clash(id) => Failure::refused_for(
                Code::Clash,
                id.site().number(),
                id.counter(),
            ),
            ReplicaFault::Memory => Failure::Failed(Fault::Memory),
        }
    }
}
