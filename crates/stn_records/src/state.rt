ghost use Rattle.std.specs.Prelude.{◌≡◌, ◌≤◌, ◌≢◌, ◌↔◌, nat_lt, cond, false, Some, None, All, IfOk, IsTrue, OnOk, OnErr};
ghost use Rattle.std.specs.FinMap as map;
ghost use Rattle.stn_records.specs.{Id.id_cmp, Record.IsProper, Maps.{AgreesAt, differ}, Refusals.{first_refusal, clashes as clashes_in, is_too_much}, Content.{Content, no_content, dispute_contents, join_contents, joined_contents, is_known as is_known_in, is_replaced as is_replaced_in, known_count, part_of, replaced_set, with_amendment, with_record, with_tombstone, with_ids, plain, AllAmend, IsAmendment, IsPart}};

use crate::MOST_KNOWN;
use crate::faults::RecordsFault;
use crate::id::Id;
use crate::id_map::{Additions, Amendments, Tombstones};
use crate::join::{Join, JoinFault};
use crate::map_value::MapValue;
use crate::record::{Mark, Record};
use crate::sorted::{count_ids, lesser};
use std::alloc::Allocator;
use std::marker::Model;
use stn_net::Bound;
use stn_time::Memory;

/// What a site holds: the records that were added, the ids that were withdrawn, and the ids that
/// records replace. An id may be withdrawn or replaced before its record comes.
#[derive(Drop)]
pub struct State<A: Allocator> {
    pub(crate) additions: Additions<A>,
    pub(crate) tombstones: Tombstones<A>,
    pub(crate) replacements: Amendments<A>,
    // The withdrawn ids and those that records replace, so that a search among them is short.
    pub(crate) replaced: Tombstones<A>,
}

impl<A: Allocator> Model for State<A> {
    ghost use Rattle.std.specs.Prelude.{◌≡◌};
    ghost use Rattle.stn_records.specs.Content.{Content, coded_content, replaced_set};

    ghost Value = { Content };

    ghost coded = { coded_content };

    ghost view = { λ s. record { additions = s.additions; tombstones = s.tombstones; replacements = s.replacements } };

    ghost invariant = { λ s. s.replaced ≡ replaced_set (record { additions = s.additions; tombstones = s.tombstones; replacements = s.replacements }) };
}

impl<A: Allocator + Copy> State<A> {
    /// Nothing.
    pub fn new(alloc: A) -> Self
        ensures { result ≡ no_content }
    {
        State {
            additions: Additions::new(alloc),
            tombstones: Tombstones::new(alloc),
            replacements: Amendments::new(alloc),
            replaced: Tombstones::new(alloc),
        }
    }

    pub(crate) fn of(
        additions: Additions<A>,
        tombstones: Tombstones<A>,
        replacements: Amendments<A>,
    ) -> Result<Self, Memory>
        ensures { IfOk result (λ state. state ≡ record { additions = additions; tombstones = tombstones; replacements = replacements }) }
    {
        let replaced = replaced_of(&tombstones, &replacements)?;
        Ok(State {
            additions,
            tombstones,
            replacements,
            replaced,
        })
    }

    /// The records that were added.
    pub fn additions(&self) -> &Additions<A>
        ensures { result.now ≡ self.now.additions }
    {
        &self.additions
    }

    /// The ids that were withdrawn.
    pub fn tombstones(&self) -> &Tombstones<A>
        ensures { result.now ≡ self.now.tombstones }
    {
        &self.tombstones
    }

    /// The ids that records replace.
    pub fn replacements(&self) -> &Amendments<A>
        ensures { result.now ≡ self.now.replacements }
    {
        &self.replacements
    }

    pub(crate) fn replaced(&self) -> &[(Id, ())]
        ensures value { result.now ≡ map.entries (replaced_set self.now) }
        ensures sorted { IsTrue (map.is_sorted id_cmp (map.entries (replaced_set self.now))) }
    {
        self.replaced.entries()
    }

    pub(crate) fn is_replaced(&self, id: Id) -> bool
        ensures { result ≡ is_replaced_in self.now id }
    {
        self.replaced.contains(id)
    }

    pub(crate) fn is_known(&self, id: Id) -> bool
        ensures { result ≡ is_known_in self.now id }
    {
        self.additions.contains(id) || self.is_replaced(id)
    }

    pub(crate) fn known(&self) -> usize
        ensures { result ≡ known_count self.now }
    {
        count_ids(self.additions.entries(), self.replaced(), &[], &[])
    }

    pub(crate) fn add(&mut self, id: Id, added: Record) -> Result<(), Memory>
        requires proper { IsProper added.mark added.bound }
        requires new { map.get self.old.additions id ≡ None }
        ensures added { OnOk result (self.new ≡ with_record self.old id added) }
        ensures kept { OnErr result (self.new ≡ self.old) }
    {
        self.additions.insert(id, added)
    }

    pub(crate) fn withdraw(&mut self, id: Id) -> Result<(), Memory>
        requires { map.get self.old.tombstones id ≡ None }
        ensures withdrawn { OnOk result (self.new ≡ with_tombstone self.old id) }
        ensures kept { OnErr result (self.new ≡ self.old) }
    {
        let replaced = self.replaced.with(id, ())?;
        self.tombstones.insert(id, ())?;
        self.replaced = replaced;
        Ok(())
    }

    // Adds a Plain record, unless it is there, with the id that it replaces.
    pub(crate) fn amend(&mut self, id: Id, old: Id, bound: Bound) -> Result<(), Memory>
        requires new { map.get self.old.replacements id ≡ None }
        requires agrees { AgreesAt self.old.additions id (plain bound) }
        ensures amended { OnOk result (self.new ≡ with_amendment self.old id old bound) }
        ensures kept { OnErr result (self.new ≡ self.old) }
    {
        let replacements = self.replacements.with(id, old)?;
        let replaced = self.replaced.with(old, ())?;
        let mark = Mark::Plain;
        self.additions.insert(id, Record { mark, bound })?;
        self.replacements = replacements;
        self.replaced = replaced;
        Ok(())
    }

    pub(crate) fn all_amend(&self) -> bool
        ensures { IsTrue result ↔ AllAmend self.now }
    {
        are_amendments(&self.additions, self.replacements.entries())
    }

    pub(crate) fn holds(&self, other: &Self) -> bool
        ensures { IsTrue result ↔ IsPart other.now self.now }
    {
        self.tombstones.holds(&other.tombstones)
            && self.additions.holds(&other.additions)
            && self.replacements.holds(&other.replacements)
    }

    pub(crate) fn dispute(&self, other: &Self) -> Option<Id>
        ensures { result ≡ dispute_contents self.now other.now }
    {
        lesser(
            self.additions.dispute(&other.additions),
            self.replacements.dispute(&other.replacements),
        )
    }

    pub(crate) fn union(&self, other: &Self) -> Result<Self, Memory>
        requires { dispute_contents self.now other.now ≡ None }
        ensures { IfOk result (λ all. all ≡ joined_contents self.now other.now) }
    {
        Ok(State {
            additions: self.additions.union(&other.additions)?,
            tombstones: self.tombstones.union(&other.tombstones)?,
            replacements: self.replacements.union(&other.replacements)?,
            replaced: self.replaced.union(&other.replaced)?,
        })
    }

    // The records of the first list with what they replace, and the withdrawn ids of the second.
    pub(crate) fn part(&self, records: &[Id], tombstones: &[Id]) -> Result<Self, Memory>
        ensures { IfOk result (λ part. part ≡ part_of self.now records.now tombstones.now) }
    {
        State::of(
            self.additions.part(records)?,
            self.tombstones.part(tombstones)?,
            self.replacements.part(records)?,
        )
    }

    pub(crate) fn copy(&self) -> Result<Self, Memory>
        ensures { IfOk result (λ copy. copy ≡ self.now) }
    {
        Ok(State {
            additions: self.additions.copy()?,
            tombstones: self.tombstones.copy()?,
            replacements: self.replacements.copy()?,
            replaced: self.replaced.copy()?,
        })
    }

    // Why an amendment is refused, whose old id must be known, or need not be.
    pub(crate) fn amend_refusal(
        &self,
        must_know: bool,
        id: Id,
        old: Id,
        bound: Bound,
    ) -> Option<RecordsFault>
        ensures { result ≡ first_refusal must_know self.now id old bound }
    {
        if id == old {
            return Some(RecordsFault::SelfReplace);
        }
        if self.clashes(id, old, bound) {
            return Some(RecordsFault::Clash(id));
        }
        if must_know && !self.is_known(old) {
            return Some(RecordsFault::Unknown);
        }
        if self.is_too_much_amended(id, old, bound) {
            return Some(RecordsFault::Full);
        }
        None
    }

    fn clashes(&self, id: Id, old: Id, bound: Bound) -> bool
        ensures { result ≡ clashes_in self.now id old bound }
    {
        let mark = Mark::Plain;
        is_another(self.additions.get(id), Record { mark, bound })
            || is_another(self.replacements.get(id), old)
    }

    fn is_too_much_amended(&self, id: Id, old: Id, bound: Bound) -> bool
        requires apart { id ≢ old }
        requires agrees { clashes_in self.now id old bound ≡ false }
        ensures { result ≡ is_too_much self.now id old bound }
    {
        self.knows_more_than(MOST_KNOWN - self.newly_known(old) - self.newly_known(id))
    }

    // The ids are counted only where the lists are long enough.
    pub(crate) fn knows_more_than(&self, most: usize) -> bool
        ensures { result ≡ nat_lt most (known_count self.now) }
    {
        let added = self.additions.entries().len();
        let replaced = self.replaced().len();
        added + replaced > most && self.known() > most
    }

    // How many ids more are known with this one.
    fn newly_known(&self, id: Id) -> usize
        ensures count { result ≡ cond (is_known_in self.now id) 0 1 }
        ensures most { result ≤ 1 }
    {
        if self.is_known(id) { 0 } else { 1 }
    }
}

impl<A: Allocator + Copy> Join for State<A> {
    ghost use Rattle.stn_records.specs.{Content.{dispute_contents, join_contents}, JoinLaws.{commutes as joins_commute, regroups as joins_regroup}, ContentLaws.{contents_join, contents_repeat, contents_dispute}};

    ghost join = { join_contents };

    ghost dispute = { dispute_contents };

    fn joined(&self, other: &Self) -> Result<Self, JoinFault> {
        match self.dispute(other) {
            Some(id) => Err(JoinFault::Clash(id)),
            None => self.union(other).map_err(|_| JoinFault::Memory),
        }
    }

    ghost commutes = { joins_commute contents_join };

    ghost regroups = { joins_regroup contents_join };

    ghost repeats = { contents_repeat };

    ghost disputes = { contents_dispute };
}

// The ids are sorted first, so that each goes to the end of its set.
fn replaced_of<A: Allocator + Copy>(
    tombstones: &Tombstones<A>,
    replacements: &Amendments<A>,
) -> Result<Tombstones<A>, Memory>
    ensures { IfOk result (λ all. all ≡ with_ids tombstones.now (map.values replacements.now)) }
{
    let mut ids = old_ids(replacements)?;
    ids.sort_unstable();
    let amended = set_of(replacements.allocator(), &ids)?;
    tombstones.union(&amended)
}

fn old_ids<A: Allocator + Copy>(replacements: &Amendments<A>) -> Result<Vec<Id, A>, Memory>
    ensures { IfOk result (λ ids. ids.items ≡ map.values replacements.now) }
{
    let entries = replacements.entries();
    entries
        .iter()
        .map(|entry| entry.1)
        .collect(replacements.allocator())
}

#[tactic(auto, using(crate::proofs::Replaced::put_next))]
fn set_of<A: Allocator + Copy>(alloc: A, ids: &[Id]) -> Result<Tombstones<A>, Memory>
    ensures { IfOk result (λ set. set ≡ with_ids map.empty ids.now) }
{
    let mut set = Tombstones::new(alloc);
    for id in ids {
        set.insert(*id, ())?;
    }
    Ok(set)
}

fn are_amendments<A: Allocator + Copy>(additions: &Additions<A>, entries: &[(Id, Id)]) -> bool
    ensures { IsTrue result ↔ All (λ entry. IsAmendment additions.now entry.0 entry.1) entries.now }
{
    entries
        .iter()
        .all(|entry| is_amendment(additions, entry.0, entry.1))
}

fn is_amendment<A: Allocator + Copy>(additions: &Additions<A>, id: Id, old: Id) -> bool
    ensures { IsTrue result ↔ IsAmendment additions.now id old }
{
    match additions.get(id) {
        Some(held) => match held.mark {
            Mark::Plain => id != old,
            Mark::Done => false,
        },
        None => false,
    }
}

// Whether a value is there, and is another.
fn is_another<X: MapValue>(there: Option<X>, one: X) -> bool
    ensures { result ≡ differ X.same there (Some one) }
{
    match there {
        Some(held) => !held.is_same(&one),
        None => false,
    }
}
