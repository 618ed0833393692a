ghost use Rattle.std.specs.{Prelude.{◌≡◌, Some, IsTrue, IfOk, IfSome, OnOk, OnErr, ◌↔◌}, Set.is_member, FinMap.is_sorted};
ghost use Rattle.std.specs.FinMap as map;
ghost use Rattle.stn_records.specs.{Id.id_cmp, Maps.{union as union_of, dispute as dispute_of, AgreesAt, AllFit, HasEntries}, Content.{same_ids, AllHeld}};

use crate::id::Id;
use crate::join::{Join, JoinFault};
use crate::map_value::MapValue;
use crate::record::Record;
use crate::sorted::{are_fit, first_dispute, has_entries, is_rising, kept, merged, place_of};
use std::alloc::Allocator;
use std::marker::Model;
use stn_time::Memory;

/// The records that were added, by their ids.
pub type Additions<A> = IdMap<Record, A>;

/// The ids that were withdrawn.
pub type Tombstones<A> = IdMap<(), A>;

/// The ids that records replace, by the ids of these records.
pub type Amendments<A> = IdMap<Id, A>;

/// A map from ids, in their order, to values that are fit.
#[derive(Drop)]
pub struct IdMap<X: MapValue, A: Allocator> {
    entries: Vec<(Id, X), A>,
}

impl<X: MapValue, A: Allocator> Model for IdMap<X, A> {
    ghost use Rattle.std.specs.Prelude.{IsTrue};
    ghost use Rattle.std.specs.FinMap as map;
    ghost use Rattle.stn_records.specs.{Id.{id_cmp, coded_id}, Maps.AllFit};

    ghost Value = { map.FinMap id_cmp X };

    ghost coded = { map.code coded_id X.code };

    ghost view = { λ m. map.from_sorted m.entries.items };

    ghost invariant = { λ m. IsTrue (map.is_sorted id_cmp m.entries.items) × AllFit X.Fits (map.from_sorted {R = id_cmp} m.entries.items) };
}

impl<X: MapValue, A: Allocator + Copy> IdMap<X, A> {
    /// No entry.
    pub fn new(alloc: A) -> Self
        ensures { result ≡ map.empty }
    {
        IdMap {
            entries: Vec::new(alloc),
        }
    }

    // The map with these entries; none where their ids don't rise, or a value is not fit.
    pub(crate) fn from_entries(entries: Vec<(Id, X), A>) -> Option<Self>
        ensures made { IfSome result (λ m. map.entries m ≡ entries.items) }
        ensures fit { IfSome result (AllFit X.Fits) }
        ensures all { (m : map.FinMap id_cmp X) → AllFit X.Fits m → map.entries m ≡ entries.items → result ≡ Some m }
    {
        if is_rising(&entries) && are_fit(&entries) {
            Some(IdMap { entries })
        } else {
            None
        }
    }

    pub(crate) fn allocator(&self) -> A {
        *self.entries.allocator()
    }

    /// The entries, in order of id.
    pub fn entries(&self) -> &[(Id, X)]
        ensures value { result.now ≡ map.entries self.now }
        ensures sorted { IsTrue (is_sorted id_cmp (map.entries self.now)) }
        ensures fit { AllFit X.Fits self.now }
    {
        &self.entries
    }

    /// The value of the id.
    pub fn get(&self, id: Id) -> Option<X>
        ensures { result ≡ map.get self.now id }
    {
        let entries = self.entries();
        match place_of(entries, id) {
            Ok(place) => Some(entries[place].1),
            Err(_) => None,
        }
    }

    /// Whether the id has a value.
    pub fn contains(&self, id: Id) -> bool
        ensures { result ≡ map.contains_key self.now id }
    {
        self.get(id).is_some()
    }

    pub(crate) fn has_all(&self, ids: &[Id]) -> bool
        ensures { IsTrue result ↔ AllHeld self.now ids.now }
    {
        for id in ids {
            if self.get(*id).is_none() {
                return false;
            }
        }
        true
    }

    /// Puts in an entry, unless it is there; if memory runs out, nothing is changed.
    pub fn insert(&mut self, id: Id, value: X) -> Result<(), Memory>
        requires fit { X.Fits value }
        requires agrees { AgreesAt self.old id value }
        ensures inserted { OnOk result (self.new ≡ map.insert self.old id value) }
        ensures kept { OnErr result (self.new ≡ self.old) }
    {
        if let Err(place) = place_of(&self.entries, id) {
            self.entries.insert(place, (id, value))?;
        }
        Ok(())
    }

    pub(crate) fn with(&self, id: Id, value: X) -> Result<Self, Memory>
        requires fit { X.Fits value }
        requires agrees { AgreesAt self.now id value }
        ensures { IfOk result (λ all. all ≡ map.insert self.now id value) }
    {
        let mut all = self.copy()?;
        all.insert(id, value)?;
        Ok(all)
    }

    /// The least id at which the two have different values.
    pub fn dispute(&self, other: &Self) -> Option<Id>
        ensures { result ≡ dispute_of X.same self.now other.now }
    {
        first_dispute(self.entries(), other.entries())
    }

    // Whether each entry of the other is here too.
    pub(crate) fn holds(&self, other: &Self) -> bool
        ensures { IsTrue result ↔ HasEntries self.now other.now }
    {
        has_entries(self.entries(), other.entries())
    }

    // The entries of both; of an id of both, that of self.
    pub(crate) fn union(&self, other: &Self) -> Result<Self, Memory>
        ensures { IfOk result (λ all. all ≡ union_of self.now other.now) }
    {
        Ok(IdMap {
            entries: merged(self.allocator(), self.entries(), other.entries())?,
        })
    }

    pub(crate) fn part(&self, wanted: &[Id]) -> Result<Self, Memory>
        ensures { IfOk result (λ part. part ≡ map.retain_keys self.now (λ id. is_member same_ids wanted.now id)) }
    {
        Ok(IdMap {
            entries: kept(self.allocator(), self.entries(), wanted)?,
        })
    }

    pub(crate) fn copy(&self) -> Result<Self, Memory>
        ensures { IfOk result (λ copy. copy ≡ self.now) }
    {
        Ok(IdMap {
            entries: Vec::from_slice(self.allocator(), self.entries())?,
        })
    }
}

impl<X: MapValue, A: Allocator + Copy> Join for IdMap<X, A> {
    ghost use Rattle.stn_records.specs.{Maps.{join as join_of, dispute as dispute_of}, JoinLaws.{commutes as joins_commute, regroups as joins_regroup, repeats as join_repeats}, ContentLaws.{maps_join, maps_dispute}};

    ghost join = { join_of X.same };

    ghost dispute = { dispute_of X.same };

    fn joined(&self, other: &Self) -> Result<Self, JoinFault> {
        match self.dispute(other) {
            Some(id) => Err(JoinFault::Clash(id)),
            None => self.union(other).map_err(|_| JoinFault::Memory),
        }
    }

    ghost commutes = { joins_commute (maps_join X.same X.decides) };

    ghost regroups = { joins_regroup (maps_join X.same X.decides) };

    ghost repeats = { join_repeats (maps_join X.same X.decides) };

    ghost disputes = { maps_dispute X.same X.decides };
}
