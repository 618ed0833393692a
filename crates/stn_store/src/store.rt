//! Where commands find logs and texts, and leave logs.

ghost use Rattle.std.specs.Prelude.{◌≡◌, ◌⊎◌, ℕ, true, false, List, Option, Some, Ok, OnOk, OnErr, IfOk, IfErr, IfSome};
ghost use Rattle.stn_store.specs.{Log.{log_held, IsLog}, Look.Saw, Store.{Entry, Holds, IsThere, Has, Opens, IsUnopened, Spells, IsMissing, IsTaken, IsLack, saved_too}};
ghost use Rattle.stn_refusal.specs.declared.failure.Fault.{Fault};

use crate::look::Look;
use crate::trouble::Trouble;
use std::alloc::Allocator;
use stn_records::Site;
use stn_refusal::Failure;
use stn_site::SitePlan;

/// A store of logs and texts, each under a name. Several programs may use it at once.
pub trait Store<A: Allocator + Copy> {
    /// What was put under names, one after the other, where that is known.
    ghost entries: { Self → Option (List Entry) };

    /// A device of such a store may fail so.
    ghost fails: { Fault → Type 0 };

    /// What keeps every other program from holding a log, until it is dropped.
    type Held: Drop;

    /// The name of the log that is held.
    ghost held_name: { Self.Held → List ℕ };

    /// Waits until no other program holds the log of a name, and holds it. Whoever changes a log holds it from its load to its
    /// save. A log is held once at a time: who holds it and asks again waits without end.
    fn hold(&self, name: &str) -> Result<Self::Held, Failure>
        ensures named { IfOk result (λ held. held_name held ≡ name.now) }
        ensures failed { IfErr result (IsLack fails) };

    /// Whether another program holds the log of a name, as far as that shows. Nobody is waited for, and no lock is made.
    fn is_held(&self, name: &str) -> bool;

    /// Finds out whether a log can be held and saved under a name. No log is changed, and nobody is waited for. Of files, the
    /// lock may be made, and a file beside the log is made and removed.
    fn can_save(&self, name: &str) -> Result<(), Failure>
        ensures failed { IfErr result (IsLack fails) };

    /// Whether something of the name is there.
    fn is_there(&self, name: &str) -> Result<bool, Failure>
        ensures found { IfOk result (λ there. IsThere (entries self.now) name.now there) }
        ensures failed { IfErr result (IsLack fails) };

    /// Whether the bytes under a name are these. Once they differ, no more is read. Fault: `File`, where nothing of the name is there.
    fn has(&self, name: &str, bytes: &[u8]) -> Result<bool, Failure>
        ensures told { IfOk result (λ has. Has (entries self.now) name.now bytes.now has) }
        ensures failed { IfErr result (λ failure. IsMissing (entries self.now) name.now failure ⊎ IsLack fails failure) };

    /// Whether the bytes of the log that is held are these. Fault: `File`, where nothing of the name is there.
    fn has_held(&self, held: &Self::Held, bytes: &[u8]) -> Result<bool, Failure>
        ensures told { IfOk result (λ has. Has (entries self.now) (held_name held.now) bytes.now has) }
        ensures failed { IfErr result (λ failure. IsMissing (entries self.now) (held_name held.now) failure ⊎ IsLack fails failure) };

    /// What is seen of the bytes under a name, if they can be known again by it. They are read after that.
    fn look(&self, name: &str) -> Option<Look<A>>
        ensures { IfSome result (λ look. (bytes : List ℕ) → Holds (entries self.now) name.now (Some bytes) → Saw look bytes) };

    /// Whether the bytes under a name are those that were seen, as far as that shows. Of files, none is read.
    fn is_seen(&self, name: &str, look: &Look<A>) -> bool
        ensures { (bytes : List ℕ) → result ≡ true → Saw look.now bytes → Holds (entries self.now) name.now (Some bytes) };

    /// Whether the bytes of the log that is held are those that were seen, as far as that shows.
    fn is_seen_held(&self, held: &Self::Held, look: &Look<A>) -> bool
        ensures { (bytes : List ℕ) → result ≡ true → Saw look.now bytes → Holds (entries self.now) (held_name held.now) (Some bytes) };

    /// A site's copy of a plan by its log. Faults: `File`, where nothing of the name is there; then those of `load_plan`.
    fn load(&self, name: &str, site: Site) -> Result<SitePlan<A>, Failure>
        ensures opened { IfOk result (λ plan. Opens (entries self.now) name.now site plan) }
        ensures failed { IfErr result (λ failure. IsUnopened (entries self.now) name.now failure ⊎ IsLack fails failure) };

    /// A site's copy of a plan by the log that is held. Faults: `File`, where nothing of the name is there; then those of `load_plan`.
    fn load_held(&self, held: &Self::Held, site: Site) -> Result<SitePlan<A>, Failure>
        ensures opened { IfOk result (λ plan. Opens (entries self.now) (held_name held.now) site plan) }
        ensures failed { IfErr result (λ failure. IsUnopened (entries self.now) (held_name held.now) failure ⊎ IsLack fails failure) };

    /// The text of a domain or a plan; of a longer one so much that it shows. Fault: `File`, where nothing of the name is there.
    fn text(&self, name: &str) -> Result<Vec<u8, A>, Failure>
        ensures spelled { IfOk result (λ text. Spells (entries self.now) name.now text.items) }
        ensures failed { IfErr result (λ failure. IsMissing (entries self.now) name.now failure ⊎ IsLack fails failure) };

    /// Saves a site's copy of a plan as the log that is held, under a name that is free at that moment. Refused as 64 where
    /// something stands there, which stays. Of files, the log may stand there after a fault, if only the last force of its folder failed.
    fn save_new(&mut self, held: &Self::Held, plan: &SitePlan<A>) -> Result<(), Failure>
        ensures free { OnOk result (IsThere (entries self.old) (held_name held.now) false) }
        ensures saved { OnOk result (entries self.new ≡ saved_too (entries self.old) (held_name held.now) (log_held plan.now)) }
        ensures kept { OnErr result (entries self.new ≡ entries self.old) }
        ensures failed { IfErr result (λ failure. IsTaken (entries self.old) (held_name held.now) failure ⊎ IsLack fails failure) };

    /// Saves a site's copy of a plan as the log that is held: the bytes that were saved. Where it can't be, the old one stays;
    /// of files, the new one may stand there after a fault, if only the last force of its folder failed.
    fn save(&mut self, held: &Self::Held, plan: &SitePlan<A>) -> Result<Vec<u8, A>, Failure>
        ensures spelled { IfOk result (λ text. IsLog text.items (Ok (log_held plan.now))) }
        ensures saved { OnOk result (entries self.new ≡ saved_too (entries self.old) (held_name held.now) (log_held plan.now)) }
        ensures kept { OnErr result (entries self.new ≡ entries self.old) }
        ensures failed { IfErr result (IsLack fails) };

    /// What can't be used, where the last call that failed knows it. It is given out once.
    fn trouble(&self) -> Option<Trouble>;

    /// Keeps for `trouble` what can't be used beside the store, as an address.
    fn note(&self, trouble: Trouble);
}
