ghost use Rattle.std.specs.Prelude.{◌≡◌, ◌≢◌, ◌+◌, ◌<◌, ◌≤◌, ◌↔◌, IsTrue, Some, None, true, false, map, slice_get, option_map, unwrap_or, is_some, IfOk, IfErr, IfSome, IsOk, Err, IsErr, IsErrOf, OnOk, OnErr};
ghost use Rattle.std.specs.FinMap as fin;
ghost use Rattle.stn_records.specs.{Id.{most_counter, id_cmp}, Record.IsProper, Content.{most_known, Content, IsSound, IsPart, AllHeld, no_content, one_record, one_tombstone, one_amendment, with_record, with_tombstone, with_amendment, plain, is_known as is_known_in, is_live as is_live_in, is_replaced as is_replaced_in, AllProper, known_count, known_in_either, live_of, listed, next_counter as next_counter_of, part_of, replaced_set, join_contents, content_taken as taken_of}, Refusals.{addition_refusal, withdrawal_refusal, bury_refusal, join_refusal, amendment_refusal as amend_refusal_of, replace_refusal as replace_refusal_of, clashes as clashes_in, is_too_much}};

use crate::MOST_KNOWN;
use crate::faults::{CounterSpent, PartFault, RecordsFault};
use crate::id::{Id, Site};
use crate::id_map::{Additions, Amendments, Tombstones};
use crate::live_records::LiveRecords;
use crate::map_value::MapValue;
use crate::record::{Mark, Record};
use crate::sorted::{count_ids, greatest_counter};
use crate::state::State;
use std::alloc::Allocator;
use std::marker::Model;
use stn_net::Bound;
use stn_time::Memory;

/// What a site holds, within the limit of 4,096 known ids. An id is replaced where it was withdrawn
/// or where a record replaces it, for good: also where that record is withdrawn later. An id is
/// known where its record was added or where it is replaced. A record is live where it was added and
/// is not replaced.
#[derive(Drop)]
pub struct Records<A: Allocator> {
    state: State<A>,
}

impl<A: Allocator> Model for Records<A> {
    ghost use Rattle.stn_records.specs.Content.{most_known, Content, coded_content, IsSound};

    ghost Value = { Content };

    ghost coded = { coded_content };

    ghost view = { λ r. r.state };

    ghost invariant = { λ r. IsSound r.state };
}

impl<A: Allocator + Copy> Records<A> {
    /// No record, and nothing withdrawn or replaced.
    pub fn new(alloc: A) -> Self
        ensures { result ≡ no_content }
    {
        Records {
            state: State::new(alloc),
        }
    }

    /// The records, the withdrawn ids and the entries of three lists, each of them in order of id: an
    /// entry has the new id, and then the id that it replaces. None exactly where no site holds these
    /// lists: where ids don't rise, the bound of a Done record is not from the origin or its sides differ, the
    /// new id of an entry is not that of a Plain record of the first list or is the id that it
    /// replaces, or more than 4,096 ids are known. `Memory` may come in place of any answer.
    pub fn from_lists(
        additions: Vec<(Id, Record), A>,
        tombstones: Vec<(Id, ()), A>,
        replacements: Vec<(Id, Id), A>,
    ) -> Result<Option<Records<A>>, Memory>
        ensures additions { IfOk result (λ made. IfSome made (λ records. fin.entries records.additions ≡ additions.items)) }
        ensures tombstones { IfOk result (λ made. IfSome made (λ records. fin.entries records.tombstones ≡ tombstones.items)) }
        ensures replacements { IfOk result (λ made. IfSome made (λ records. fin.entries records.replacements ≡ replacements.items)) }
        ensures sound { IfOk result (λ made. IfSome made IsSound) }
        ensures all { (s : Content) → IsSound s → fin.entries s.additions ≡ additions.items → fin.entries s.tombstones ≡ tombstones.items → fin.entries s.replacements ≡ replacements.items → IfOk result (λ made. made ≡ Some s) }
    {
        let Some(additions) = Additions::from_entries(additions) else {
            return Ok(None);
        };
        let Some(tombstones) = Tombstones::from_entries(tombstones) else {
            return Ok(None);
        };
        let Some(replacements) = Amendments::from_entries(replacements) else {
            return Ok(None);
        };
        let state = State::of(additions, tombstones, replacements)?;
        if !state.all_amend() || state.known() > MOST_KNOWN {
            return Ok(None);
        }
        Ok(Some(Records { state }))
    }

    /// The state that is held.
    pub fn state(&self) -> &State<A>
        ensures value { result.now ≡ self.now }
        ensures sound { IsSound self.now }
    {
        &self.state
    }

    /// Adds a record; one that is there already, and is equal, is no fault and changes nothing.
    ///
    /// Refused in this order: `Clash`, where the id has another record; `Full`, where the id is new
    /// and 4,096 are known; `Memory`. After a fault all is as before.
    pub fn add(&mut self, id: Id, mark: Mark, bound: Bound) -> Result<(), RecordsFault>
        requires { IsProper mark bound }

        ensures added { OnOk result (self.new ≡ with_record self.old id (record { mark = mark; bound = bound })) }
        ensures joined { OnOk result (join_contents self.old (one_record id (record { mark = mark; bound = bound })) ≡ Some self.new) }
        ensures again { fin.get self.old.additions id ≡ Some (record { mark = mark; bound = bound }) → IsOk result × (self.new ≡ self.old) }

        ensures accepted { OnOk result (addition_refusal self.old id (record { mark = mark; bound = bound }) ≡ None) }
        ensures fault { IfErr result (λ fault. fault ≡ unwrap_or (addition_refusal self.old id (record { mark = mark; bound = bound })) RecordsFault.Memory) }
        ensures kept { OnErr result (self.new ≡ self.old) }
    {
        let added = Record { mark, bound };
        match self.state.additions().get(id) {
            Some(there) => {
                if there.is_same(&added) {
                    Ok(())
                } else {
                    Err(RecordsFault::Clash(id))
                }
            }
            None => {
                if !self.is_replaced(id) && self.is_full() {
                    return Err(RecordsFault::Full);
                }
                self.state.add(id, added)?;
                Ok(())
            }
        }
    }

    /// Withdraws a known id for good; one that is withdrawn already is no fault and changes nothing.
    ///
    /// Refused in this order: `Unknown`, where the id is not known; `Memory`. After a fault all is as
    /// before.
    #[tactic(auto, using(crate::proofs::Outcomes::known_by_tombstone, crate::proofs::Outcomes::no_room_needed, crate::proofs::OneItem::tombstone_joins, crate::proofs::OneItem::tombstone_again))]
    pub fn withdraw(&mut self, id: Id) -> Result<(), RecordsFault>
        ensures withdrawn { OnOk result (self.new ≡ with_tombstone self.old id) }
        ensures joined { OnOk result (join_contents self.old (one_tombstone id) ≡ Some self.new) }
        ensures again { fin.contains_key self.old.tombstones id ≡ true → IsOk result × (self.new ≡ self.old) }

        ensures accepted { OnOk result (withdrawal_refusal self.old id ≡ None) }
        ensures fault { IfErr result (λ fault. fault ≡ unwrap_or (withdrawal_refusal self.old id) RecordsFault.Memory) }
        ensures kept { OnErr result (self.new ≡ self.old) }
    {
        if !self.is_known(id) {
            return Err(RecordsFault::Unknown);
        }
        self.put_tombstone(id)?;
        Ok(())
    }

    /// Withdraws an id, known or not; one that is withdrawn already is no fault and changes nothing.
    ///
    /// Refused in this order: `Full`, where the id is new and 4,096 are known; `Memory`. After a
    /// fault all is as before.
    #[tactic(auto, using(crate::proofs::Outcomes::known_by_tombstone, crate::proofs::Outcomes::room_left, crate::proofs::Outcomes::no_room_needed, crate::proofs::OneItem::tombstone_joins, crate::proofs::OneItem::tombstone_again))]
    pub fn bury(&mut self, id: Id) -> Result<(), RecordsFault>
        ensures withdrawn { OnOk result (self.new ≡ with_tombstone self.old id) }
        ensures joined { OnOk result (join_contents self.old (one_tombstone id) ≡ Some self.new) }
        ensures again { fin.contains_key self.old.tombstones id ≡ true → IsOk result × (self.new ≡ self.old) }

        ensures accepted { OnOk result (bury_refusal self.old id ≡ None) }
        ensures fault { IfErr result (λ fault. fault ≡ unwrap_or (bury_refusal self.old id) RecordsFault.Memory) }
        ensures kept { OnErr result (self.new ≡ self.old) }
    {
        if !self.is_known(id) && self.is_full() {
            return Err(RecordsFault::Full);
        }
        self.put_tombstone(id)?;
        Ok(())
    }

    fn put_tombstone(&mut self, id: Id) -> Result<(), Memory>
        requires room { is_known_in self.old id ≡ false → known_count self.old < most_known }
        ensures withdrawn { OnOk result (self.new ≡ with_tombstone self.old id) }
        ensures again { fin.contains_key self.old.tombstones id ≡ true → IsOk result }
        ensures kept { OnErr result (self.new ≡ self.old) }
    {
        if self.state.tombstones().contains(id) {
            return Ok(());
        }
        self.state.withdraw(id)
    }

    /// Adds a Plain record that replaces a known id for good, in one step. An equal record that is
    /// there already gains its entry; where that is there too, it is no fault and changes nothing.
    ///
    /// Refused in this order: `SelfReplace`, where the id would replace itself; `Clash`, where the id
    /// has another record or replaces another id; `Unknown`, where the old id is not known; `Full`,
    /// where more than 4,096 ids would be known; `Memory`. After a fault all is as before.
    #[tactic(auto, using(crate::proofs::Amending::amend_again, crate::proofs::Amending::amend_unrefused, crate::proofs::Amending::no_clash, crate::proofs::OneItem::amendment_joins, crate::proofs::OneItem::amendment_again))]
    pub fn amend(&mut self, id: Id, old: Id, bound: Bound) -> Result<(), RecordsFault>
        ensures amended { OnOk result (self.new ≡ with_amendment self.old id old bound) }
        ensures joined { OnOk result (join_contents self.old (one_amendment id old bound) ≡ Some self.new) }
        ensures again { fin.get self.old.additions id ≡ Some (plain bound) → fin.get self.old.replacements id ≡ Some old → IsOk result × (self.new ≡ self.old) }

        ensures accepted { OnOk result (amend_refusal_of self.old id old bound ≡ None) }
        ensures fault { IfErr result (λ fault. fault ≡ unwrap_or (amend_refusal_of self.old id old bound) RecordsFault.Memory) }
        ensures kept { OnErr result (self.new ≡ self.old) }
    {
        if let Some(fault) = self.state.amend_refusal(true, id, old, bound) {
            return Err(fault);
        }
        self.put_amendment(id, old, bound)?;
        Ok(())
    }

    /// Adds a Plain record that replaces an id, known or not, for good, in one step. An equal record
    /// that is there already gains its entry; where that is there too, it is no fault and changes
    /// nothing.
    ///
    /// Refused in this order: `SelfReplace`, where the id would replace itself; `Clash`, where the id
    /// has another record or replaces another id; `Full`, where more than 4,096 ids would be known;
    /// `Memory`. After a fault all is as before.
    #[tactic(auto, using(crate::proofs::Amending::replace_again, crate::proofs::Amending::replace_unrefused, crate::proofs::Amending::no_clash, crate::proofs::OneItem::amendment_joins, crate::proofs::OneItem::amendment_again))]
    pub fn replace(&mut self, id: Id, old: Id, bound: Bound) -> Result<(), RecordsFault>
        ensures amended { OnOk result (self.new ≡ with_amendment self.old id old bound) }
        ensures joined { OnOk result (join_contents self.old (one_amendment id old bound) ≡ Some self.new) }
        ensures again { fin.get self.old.additions id ≡ Some (plain bound) → fin.get self.old.replacements id ≡ Some old → IsOk result × (self.new ≡ self.old) }

        ensures accepted { OnOk result (replace_refusal_of self.old id old bound ≡ None) }
        ensures fault { IfErr result (λ fault. fault ≡ unwrap_or (replace_refusal_of self.old id old bound) RecordsFault.Memory) }
        ensures kept { OnErr result (self.new ≡ self.old) }
    {
        if let Some(fault) = self.state.amend_refusal(false, id, old, bound) {
            return Err(fault);
        }
        self.put_amendment(id, old, bound)?;
        Ok(())
    }

    fn put_amendment(&mut self, id: Id, old: Id, bound: Bound) -> Result<(), Memory>
        requires other { id ≢ old }
        requires agrees { clashes_in self.old id old bound ≡ false }
        requires room { is_too_much self.old id old bound ≡ false }
        ensures amended { OnOk result (self.new ≡ with_amendment self.old id old bound) }
        ensures again { fin.get self.old.replacements id ≡ Some old → IsOk result }
        ensures kept { OnErr result (self.new ≡ self.old) }
    {
        if self.state.replacements().get(id).is_some() {
            return Ok(());
        }
        self.state.amend(id, old, bound)
    }

    /// What both hold, as a new value. Refused as `take` is, in the same order.
    pub fn joined(&self, other: &Records<A>) -> Result<Records<A>, RecordsFault>
        ensures joined { IfOk result (λ all. join_contents self.now other.now ≡ Some all) }
        ensures taken { IfOk result (λ all. taken_of self.now other.now ≡ Some all) }

        ensures accepted { OnOk result (join_refusal self.now other.now ≡ None) }
        ensures fault { IfErr result (λ fault. fault ≡ unwrap_or (join_refusal self.now other.now) RecordsFault.Memory) }
        ensures refused { IfErr result (λ fault. fault ≢ RecordsFault.Memory → taken_of self.now other.now ≡ None) }
    {
        if let Some(id) = self.state.dispute(&other.state) {
            return Err(RecordsFault::Clash(id));
        }
        if self.is_too_much_with(other) {
            return Err(RecordsFault::Full);
        }
        let state = self.state.union(&other.state)?;
        Ok(Records { state })
    }

    /// Takes in all that the other holds.
    ///
    /// Refused in this order: `Clash`, with the least id that has two different records or replaces
    /// two different ids; `Full`, where both know more than 4,096 ids together; `Memory`. After a fault all is as before.
    pub fn take(&mut self, other: &Records<A>) -> Result<(), RecordsFault>
        ensures joined { OnOk result (join_contents self.old other.now ≡ Some self.new) }
        ensures taken { OnOk result (taken_of self.old other.now ≡ Some self.new) }

        ensures accepted { OnOk result (join_refusal self.old other.now ≡ None) }
        ensures fault { IfErr result (λ fault. fault ≡ unwrap_or (join_refusal self.old other.now) RecordsFault.Memory) }
        ensures refused { IfErr result (λ fault. fault ≢ RecordsFault.Memory → taken_of self.old other.now ≡ None) }
        ensures kept { OnErr result (self.new ≡ self.old) }
    {
        match self.joined(other) {
            Ok(all) => {
                *self = all;
                Ok(())
            }
            Err(fault) => Err(fault),
        }
    }

    /// Whether all that the other holds is held already, so that to take it in changes nothing.
    pub fn holds(&self, other: &Records<A>) -> bool
        ensures part { IsTrue result ↔ IsPart other.now self.now }
        ensures taken { IsTrue result ↔ (taken_of self.now other.now ≡ Some self.now) }
    {
        self.state.holds(&other.state)
    }

    /// The records of the first list, with the ids that they replace, and the withdrawn ids of the
    /// second, alone. An id may stand in a list twice.
    ///
    /// Refused in this order: `Unknown`, where a record or a withdrawn id is not held; `Memory`.
    pub fn part(&self, records: &[Id], tombstones: &[Id]) -> Result<Records<A>, PartFault>
        ensures part { IfOk result (λ part. part ≡ part_of self.now records.now tombstones.now) }
        ensures unknown { IsErrOf result PartFault.Unknown ↔ ¬ (AllHeld self.now.additions records.now × AllHeld self.now.tombstones tombstones.now) }
        ensures held { result ≢ Err PartFault.Unknown → AllHeld self.now.additions records.now × AllHeld self.now.tombstones tombstones.now }
    {
        if !self.state.additions().has_all(records)
            || !self.state.tombstones().has_all(tombstones)
        {
            return Err(PartFault::Unknown);
        }
        let Ok(state) = self.state.part(records, tombstones) else {
            return Err(PartFault::Memory);
        };
        Ok(Records { state })
    }

    /// The same records, withdrawn ids and replaced ids again.
    pub fn copy(&self) -> Result<Records<A>, Memory>
        ensures { IfOk result (λ copy. copy ≡ self.now) }
    {
        let state = self.state.copy()?;
        Ok(Records { state })
    }

    /// The live records, in order of id, one after another.
    pub fn live_records(&self) -> LiveRecords<'_>
        ensures live { result ≡ live_of self.now }
        ensures sound { IsSound self.now }
    {
        LiveRecords::among(self.added(), self.replaced())
    }

    /// The live records, in order of id.
    pub fn live(&self) -> Result<Vec<(Id, Mark, Bound), A>, Memory>
        ensures live { IfOk result (λ all. all.items ≡ map listed (live_of self.now)) }
        ensures sound { IsSound self.now }
    {
        let mut all = Vec::new(self.state.additions().allocator());
        for (id, held) in self.live_records() {
            all.push((id, held.mark, held.bound))?;
        }
        Ok(all)
    }

    /// The next counter of a site: one more than the greatest counter among all its known ids, the
    /// replaced ones too, or 1. Refused where it would pass 65,535.
    pub fn next_counter(&self, site: Site) -> Result<u16, CounterSpent>
        ensures next { IfOk result (λ counter. counter ≡ next_counter_of self.now site) }
        ensures spent { IsErr result ↔ (most_counter < next_counter_of self.now site) }
        ensures new { IfOk result (λ counter. is_known_in self.now (record { site = site; counter = counter }) ≡ false) }
    {
        let added = greatest_counter(self.added(), site);
        let replaced = greatest_counter(self.replaced(), site);
        added.max(replaced).checked_add(1).ok_or(CounterSpent)
    }

    /// How many ids are known.
    pub fn known(&self) -> usize
        ensures count { result ≡ known_count self.now }
        ensures most { result ≤ most_known }
        ensures sound { IsSound self.now }
    {
        self.state.known()
    }

    fn is_full(&self) -> bool
        ensures full { IsTrue result ↔ (known_count self.now ≡ most_known) }
        ensures sound { IsSound self.now }
    {
        self.state.knows_more_than(MOST_KNOWN - 1)
    }

    // The ids are counted only where the four lists are long enough.
    fn is_too_much_with(&self, other: &Records<A>) -> bool
        ensures { IsTrue result ↔ (most_known < known_in_either self.now other.now) }
    {
        let ours = self.added().len() + self.replaced().len();
        let theirs = other.added().len() + other.replaced().len();
        ours + theirs > MOST_KNOWN && self.known_with(other) > MOST_KNOWN
    }

    fn known_with(&self, other: &Records<A>) -> usize
        ensures { result ≡ known_in_either self.now other.now }
    {
        count_ids(
            self.added(),
            self.replaced(),
            other.added(),
            other.replaced(),
        )
    }

    /// Whether the record of the id is live.
    pub fn is_live(&self, id: Id) -> bool
        ensures { result ≡ is_live_in self.now id }
    {
        self.state.additions().contains(id) && !self.is_replaced(id)
    }

    /// Whether the id is known.
    pub fn is_known(&self, id: Id) -> bool
        ensures { result ≡ is_known_in self.now id }
    {
        self.state.is_known(id)
    }

    fn added(&self) -> &[(Id, Record)]
        ensures value { result.now ≡ fin.entries self.now.additions }
        ensures sorted { IsTrue (fin.is_sorted id_cmp (fin.entries self.now.additions)) }
        ensures proper { AllProper self.now.additions }
        ensures sound { IsSound self.now }
    {
        self.state.additions().entries()
    }

    fn is_replaced(&self, id: Id) -> bool
        ensures { result ≡ is_replaced_in self.now id }
    {
        self.state.is_replaced(id)
    }

    /// The replaced ids, those that were withdrawn and those that records replace, in order, each
    /// once.
    pub fn replaced(&self) -> &[(Id, ())]
        ensures value { result.now ≡ fin.entries (replaced_set self.now) }
        ensures sorted { IsTrue (fin.is_sorted id_cmp (fin.entries (replaced_set self.now))) }
        ensures sound { IsSound self.now }
    {
        self.state.replaced()
    }

    /// The record at a place, counted from 0 in order of id, replaced or not.
    pub fn record_at(&self, place: usize) -> Option<(Id, Mark, Bound)>
        ensures value { result ≡ option_map listed (slice_get (fin.entries self.now.additions) place) }
        ensures proper { IfSome result (λ entry. IsProper entry.1 entry.2) }
    {
        let (id, held) = *self.added().get(place)?;
        Some((id, held.mark, held.bound))
    }

    /// The withdrawn id at a place, counted from 0 in order of id.
    pub fn tombstone_at(&self, place: usize) -> Option<Id>
        ensures { result ≡ slice_get (fin.keys self.now.tombstones) place }
    {
        let (id, _) = *self.state.tombstones().entries().get(place)?;
        Some(id)
    }
    /// The entry at a place, counted from 0 in order of the new id: the new id, and the id that it
    /// replaces.
    pub fn entry_at(&self, place: usize) -> Option<(Id, Id)>
        ensures { result ≡ slice_get (fin.entries self.now.replacements) place }
    {
        let entry = *self.state.replacements().entries().get(place)?;
        Some(entry)
    }
}
