//! Logs and texts in memory.

ghost use Rattle.std.specs.Prelude.{◌≡◌, ◌++◌, [], ◌∷◌, option_map, OnOk, OnErr};
ghost use Rattle.stn_store.specs.{Store.bytes_under, Memory.entries_of};

use crate::log::spell_log;
use crate::look::Look;
use crate::reading::{read_log, read_text};
use crate::store::Store;
use crate::trouble::Trouble;
use std::alloc::Allocator;
use stn_records::Site;
use stn_refusal::{Code, Failure, Fault};
use stn_site::SitePlan;
use stn_time::Memory;

// Bytes that were put under a name.
#[derive(Drop)]
struct NamedBytes<A: Allocator> {
    name: String<A>,
    bytes: Vec<u8, A>,
}

/// The log of a name, which no other program sees.
#[derive(Drop)]
pub struct HeldName<A: Allocator> {
    name: String<A>,
}

/// A store in memory: what was put under a name last stands there.
#[derive(Drop)]
pub struct MemoryStore<A: Allocator> {
    alloc: A,
    entries: Vec<NamedBytes<A>, A>,
}

impl<A: Allocator + Copy> MemoryStore<A> {
    /// A store in which nothing stands yet.
    pub fn new(alloc: A) -> MemoryStore<A>
        ensures { entries_of result ≡ [] }
    {
        MemoryStore {
            alloc,
            entries: Vec::new(alloc),
        }
    }

    /// Puts bytes under a name, in place of what stood there. Without memory nothing changes.
    pub fn put(&mut self, name: &str, bytes: Vec<u8, A>) -> Result<(), Memory>
        ensures put { OnOk result (entries_of self.new ≡ entries_of self.old ++ record { name = name.now; bytes = bytes.items } ∷ []) }
        ensures kept { OnErr result (entries_of self.new ≡ entries_of self.old) }
    {
        let name = String::from_str(self.alloc, name)?;
        self.entries.push(NamedBytes { name, bytes })?;
        Ok(())
    }

    /// The bytes under a name.
    pub fn get(&self, name: &str) -> Option<&[u8]>
        ensures { option_map (λ bytes. bytes.now) result ≡ bytes_under (entries_of self.now) name.now }
    {
        let mut found = None;
        for entry in &self.entries {
            if entry.name.as_str() == name {
                found = Some(entry.bytes.as_slice());
            }
        }
        found
    }
}

impl<A: Allocator + Copy> Store<A> for MemoryStore<A> {
    ghost use Rattle.std.specs.{Prelude.Some, String.string_bytes};
    ghost use Rattle.stn_refusal.specs.declared.failure.Fault.TheVariants.{Read};

    ghost entries = { λ store. Some (entries_of store) };

    // Memory can always be read, but of a slice no clause says so.
    ghost fails = { λ fault. fault ≡ Read };

    // No other program sees the memory of this one.
    type Held = HeldName<A>;

    ghost held_name = { λ held. string_bytes held.name };

    fn hold(&self, name: &str) -> Result<HeldName<A>, Failure> {
        let name = String::from_str(self.alloc, name)?;
        Ok(HeldName { name })
    }

    // Nobody else has what is in memory.
    fn is_held(&self, _name: &str) -> bool {
        false
    }

    fn can_save(&self, _name: &str) -> Result<(), Failure> {
        Ok(())
    }

    fn is_there(&self, name: &str) -> Result<bool, Failure> {
        Ok(self.get(name).is_some())
    }

    fn has(&self, name: &str, bytes: &[u8]) -> Result<bool, Failure> {
        match self.get(name) {
            Some(found) => Ok(found == bytes),
            None => Err(Failure::Failed(Fault::File)),
        }
    }

    fn has_held(&self, held: &HeldName<A>, bytes: &[u8]) -> Result<bool, Failure> {
        self.has(held.name.as_str(), bytes)
    }

    fn look(&self, name: &str) -> Option<Look<A>> {
        match self.get(name) {
            Some(bytes) => Some(Look::Bytes(Vec::from_slice(self.alloc, bytes).ok()?)),
            None => None,
        }
    }

    fn is_seen(&self, name: &str, look: &Look<A>) -> bool {
        match (look, self.get(name)) {
            (Look::Bytes(bytes), Some(found)) => found == bytes.as_slice(),
            _ => false,
        }
    }

    fn is_seen_held(&self, held: &HeldName<A>, look: &Look<A>) -> bool {
        self.is_seen(held.name.as_str(), look)
    }

    fn load(&self, name: &str, site: Site) -> Result<SitePlan<A>, Failure> {
        match self.get(name) {
            Some(bytes) => read_log(self.alloc, bytes, site),
            None => Err(Failure::Failed(Fault::File)),
        }
    }

    fn load_held(&self, held: &HeldName<A>, site: Site) -> Result<SitePlan<A>, Failure> {
        self.load(held.name.as_str(), site)
    }

    fn text(&self, name: &str) -> Result<Vec<u8, A>, Failure> {
        match self.get(name) {
            Some(bytes) => read_text(self.alloc, bytes),
            None => Err(Failure::Failed(Fault::File)),
        }
    }

    fn save_new(&mut self, held: &HeldName<A>, plan: &SitePlan<A>) -> Result<(), Failure> {
        if self.get(held.name.as_str()).is_some() {
            return Err(Failure::refused(Code::LogThere));
        }
        self.save(held, plan)?;
        Ok(())
    }

    fn save(&mut self, held: &HeldName<A>, plan: &SitePlan<A>) -> Result<Vec<u8, A>, Failure> {
        let text = spell_log(self.alloc, plan)?;
        self.put(held.name.as_str(), text.clone()?)?;
        Ok(text)
    }

    // It keeps nothing of what fails.
    fn trouble(&self) -> Option<Trouble> {
        None
    }

    fn note(&self, _trouble: Trouble) {}
}
