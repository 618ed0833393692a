ghost use Rattle.std.specs.Prelude.{◌≡◌, true, Option, Some, Err, not, is_some, option_and_then, IfOk, OnOk, OnErr};
ghost use Rattle.stn_records.specs.Id.{SiteCounter};

use crate::id::Id;
use thiserror::Error;

/// Why there is no join.
#[derive(Clone, Copy, Debug, Error)]
pub enum JoinFault {
    /// This id has two different records, or replaces two different ids, and on each id before it the
    /// two agree.
    #[error("an id has two different records")]
    Clash(Id),
    /// Memory ran out.
    #[error("out of memory")]
    Memory,
}

/// What two sites hold can be joined, in any order and grouping, and again, with one outcome.
pub trait Join: Drop {
    /// The join of two contents, where they agree.
    ghost join: { Self → Self → Option Self };

    /// The least id on which two contents disagree.
    ghost dispute: { Self → Self → Option SiteCounter };

    /// The join of both, as a new value.
    fn joined(&self, other: &Self) -> Result<Self, JoinFault>
        ensures joined { IfOk result (λ all. join self.now other.now ≡ Some all) }
        ensures clash { (id : SiteCounter) → result ≡ Err (JoinFault.Clash id) → dispute self.now other.now ≡ Some id }
        ensures refused { is_some (dispute self.now other.now) ≡ true → (id : SiteCounter) × (result ≡ Err (JoinFault.Clash id)) };

    /// Takes in what the other holds; after a fault the content is as before.
    fn take(&mut self, other: &Self) -> Result<(), JoinFault>
        ensures joined { OnOk result (join self.old other.now ≡ Some self.new) }
        ensures clash { (id : SiteCounter) → result ≡ Err (JoinFault.Clash id) → dispute self.old other.now ≡ Some id }
        ensures refused { is_some (dispute self.old other.now) ≡ true → (id : SiteCounter) × (result ≡ Err (JoinFault.Clash id)) }
        ensures kept { OnErr result (self.new ≡ self.old) }
    {
        *self = self.joined(other)?;
        Ok(())
    }

    /// Either may take the other.
    ghost commutes: { (a b : Self) → join a b ≡ join b a };

    /// Either grouping has the same join, and where one has none the other has none.
    ghost regroups: { (a b c : Self) → option_and_then (λ ab. join ab c) (join a b) ≡ option_and_then (λ bc. join a bc) (join b c) };

    /// What is taken again changes nothing.
    ghost repeats: { (a : Self) → join a a ≡ Some a };

    /// There is a join exactly where no id is in dispute.
    ghost disputes: { (a b : Self) → is_some (join a b) ≡ not (is_some (dispute a b)) };
}
