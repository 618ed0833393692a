ghost use Rattle.std.specs.{Prelude.{◌≡◌, ◌+◌, ◌≤◌, ◌↔◌, pos, true, false, not, length, option_map, Some, None, unwrap_or, IsOk, IsNone, IsTrue, IfOk, IfErr, OnOk, OnErr, MatchOption}, FinMap.contains_key, Rc.rc_value};
ghost use Rattle.stn_net.specs.{Schedule.{IsSchedule, NamesTimes, times_of}, Difference.{NamesEvents, IsBoundWithin, IsFaultOf}};
ghost use Rattle.stn_lift.specs.PlanSource.{events_of};
ghost use Rattle.stn_records.specs.{Record.IsProper, Content.{no_content, is_known, next_counter, IsPart}, Id.most_counter};
ghost use Rattle.stn_site.specs.{Bounds.{all_bounds, RecordsName, RecordsTimed}, Names.{is_met as is_met_by, broken_bound, broken_record}, Held.{next_id, difference, plain, executed}, Calls.{added, amended, withdrew, took, Leaves}, Refusals.{next_refusal, add_refusal, amend_refusal, done_refusal, withdraw_refusal, take_refusal}};

use crate::faults::ReplicaFault;
use crate::names::BoundName;
use std::alloc::Allocator;
use std::marker::Model;
use std::mem;
use std::rc::Rc;
use stn_lift::Base;
use stn_net::{Bound, BoundFault, Event, first_broken};
use stn_records::{CounterSpent, Id, Mark, Records, Site};
use stn_time::{Memory, Ms};

/// One site's copy of a plan: the plan, and what the site holds.
#[derive(Drop)]
pub struct SitePlan<A: Allocator> {
    alloc: A,
    site: Site,
    base: Rc<Base<A>, A>,
    records: Records<A>,
}

impl<A: Allocator> Model for SitePlan<A> {
    ghost use Rattle.std.specs.Rc.{rc_value};
    ghost use Rattle.stn_lift.specs.PlanSource.{events_of};
    ghost use Rattle.stn_site.specs.{Bounds.RecordsName, Held.{Held, coded_held}};

    ghost Value = { Held };

    ghost coded = { coded_held };

    ghost view = { λ p. record { site = p.site; source = rc_value p.base; state = p.records; steps = 0 } };

    ghost invariant = { λ p. RecordsName (events_of (rc_value p.base)) p.records };
}

impl<A: Allocator + Copy> SitePlan<A> {
    /// The copy of a site that holds nothing yet. It asks for no memory.
    pub fn new(alloc: A, site: Site, base: Rc<Base<A>, A>) -> SitePlan<A>
        ensures site { result.site ≡ site }
        ensures source { result.source ≡ rc_value base }
        ensures empty { result.state ≡ no_content }
    {
        SitePlan {
            alloc,
            site,
            base,
            records: Records::new(alloc),
        }
    }

    /// The copy of another site of the same plan that holds nothing yet.
    pub fn beside(&self, site: Site) -> Result<SitePlan<A>, Memory>
        ensures site { IfOk result (λ plan. plan.site ≡ site) }
        ensures source { IfOk result (λ plan. plan.source ≡ self.now.source) }
        ensures empty { IfOk result (λ plan. plan.state ≡ no_content) }
    {
        let base = self.base.clone()?;
        Ok(SitePlan::new(self.alloc, site, base))
    }

    /// The same copy of the plan again. The plan's base is shared.
    pub fn copy(&self) -> Result<SitePlan<A>, Memory>
        ensures { IfOk result (λ copy. copy ≡ self.now) }
    {
        Ok(SitePlan {
            alloc: self.alloc,
            site: self.site,
            base: self.base.clone()?,
            records: self.records.copy()?,
        })
    }

    /// Adds a bound, under the site's next id, which is returned. A bound that contradicts others is
    /// added like any other.
    ///
    /// Refused in this order: `NoEvent`, `SameEvent` and `Crossed` of a bound, `CounterSpent`, `Full`,
    /// `Memory`. After a fault all is as before.
    pub fn add(&mut self, from: Event, to: Event, lo: Ms, hi: Ms) -> Result<Id, ReplicaFault>
        ensures leaves { IfOk result (λ id. Leaves self.old (added id (plain (difference from to lo hi))) self.new) }
        ensures accepted { OnOk result (add_refusal self.old (difference from to lo hi) ≡ None) }
        ensures fault { IfErr result (λ fault. fault ≡ unwrap_or (add_refusal self.old (difference from to lo hi)) ReplicaFault.Memory) }
        ensures kept { OnErr result (self.new ≡ self.old) }
    {
        let bound = self.bound(from, to, lo, hi)?;
        self.hold(Mark::Plain, bound)
    }

    /// Replaces a known id for good by a new record of a bound, under the site's next id, which is
    /// returned. Where the record of the old id was live, it no longer is; it doesn't come back where
    /// the new record is withdrawn. An id that is withdrawn or replaced already may be replaced again.
    ///
    /// Refused in this order: `NoEvent`, `SameEvent` and `Crossed` of a bound, `Unknown`, where the old
    /// id is not known, `CounterSpent`, `Full`, `Memory`. After a fault all is as before.
    pub fn amend(
        &mut self,
        old: Id,
        from: Event,
        to: Event,
        lo: Ms,
        hi: Ms,
    ) -> Result<Id, ReplicaFault>
        ensures leaves { IfOk result (λ id. Leaves self.old (amended id old (difference from to lo hi)) self.new) }
        ensures accepted { OnOk result (amend_refusal self.old old (difference from to lo hi) ≡ None) }
        ensures fault { IfErr result (λ fault. fault ≡ unwrap_or (amend_refusal self.old old (difference from to lo hi)) ReplicaFault.Memory) }
        ensures kept { OnErr result (self.new ≡ self.old) }
    {
        let bound = self.bound(from, to, lo, hi)?;
        if !self.records.is_known(old) {
            return Err(ReplicaFault::Unknown);
        }
        self.replace(old, bound)
    }

    // Replaces a known id by a new record under the site's next id, which is returned.
    fn replace(&mut self, old: Id, bound: Bound) -> Result<Id, ReplicaFault>
        requires named { NamesEvents (events_of self.old.source) bound }
        requires known { is_known self.old.state old ≡ true }
        ensures leaves { IfOk result (λ id. Leaves self.old (amended id old bound) self.new) }
        ensures accepted { OnOk result (next_refusal self.old ≡ None) }
        ensures fault { IfErr result (λ fault. fault ≡ unwrap_or (next_refusal self.old) ReplicaFault.Memory) }
        ensures kept { OnErr result (self.new ≡ self.old) }
    {
        let id = self.next_id()?;
        prove!(self.records.state().replacements().get(id).is_none());
        self.records.amend(id, old, bound)?;
        Ok(id)
    }

    /// Records at which time an event took place, under the site's next id, which is returned. A
    /// record that contradicts others, as one of the same event at another time, is added like any
    /// other.
    ///
    /// Refused in this order: `NoEvent` of a bound, where the event is the origin or not one of the
    /// plan's; `CounterSpent`, `Full`, `Memory`. After a fault all is as before.
    pub fn done(&mut self, event: Event, time: Ms) -> Result<Id, ReplicaFault>
        ensures leaves { IfOk result (λ id. Leaves self.old (added id (executed time event)) self.new) }
        ensures accepted { OnOk result (done_refusal self.old event ≡ None) }
        ensures fault { IfErr result (λ fault. fault ≡ unwrap_or (done_refusal self.old event) ReplicaFault.Memory) }
        ensures kept { OnErr result (self.new ≡ self.old) }
    {
        if event == Event::origin() {
            return Err(ReplicaFault::Bound(BoundFault::NoEvent));
        }
        let bound = self.bound(Event::origin(), event, time, time)?;
        self.hold(Mark::Done, bound)
    }

    // Adds a record under the site's next id, which is returned.
    fn hold(&mut self, mark: Mark, bound: Bound) -> Result<Id, ReplicaFault>
        requires named { NamesEvents (events_of self.old.source) bound }
        requires proper { IsProper mark bound }
        ensures leaves { IfOk result (λ id. Leaves self.old (added id (record { mark = mark; bound = bound })) self.new) }
        ensures accepted { OnOk result (next_refusal self.old ≡ None) }
        ensures fault { IfErr result (λ fault. fault ≡ unwrap_or (next_refusal self.old) ReplicaFault.Memory) }
        ensures kept { OnErr result (self.new ≡ self.old) }
    {
        let id = self.next_id()?;
        self.records.add(id, mark, bound)?;
        Ok(id)
    }

    // A bound of the plan's events.
    fn bound(&self, from: Event, to: Event, lo: Ms, hi: Ms) -> Result<Bound, BoundFault>
        ensures made { IfOk result (λ bound. bound ≡ difference from to lo hi) }
        ensures within { IfOk result (λ bound. IsBoundWithin (events_of self.now.source) bound) }
        ensures fault { IfErr result (IsFaultOf (events_of self.now.source) (difference from to lo hi)) }
    {
        Bound::new(self.base.events(), from, to, lo, hi)
    }

    // The site's next id.
    fn next_id(&self) -> Result<Id, CounterSpent>
        ensures next { IfOk result (λ id. id ≡ next_id self.now) }
        ensures unknown { IfOk result (λ id. is_known self.now.state id ≡ false) }
        ensures left { OnOk result (next_counter self.now.state self.now.site ≤ most_counter) }
        ensures spent { OnErr result (next_refusal self.now ≡ Some ReplicaFault.CounterSpent) }
    {
        let counter = self.records.next_counter(self.site)?;
        Ok(Id::new(self.site, counter).unwrap())
    }

    /// Withdraws a known id for good; one that is withdrawn already changes nothing.
    ///
    /// Refused in this order: `Unknown`, where the id is not known; `Memory`. After a fault all is as
    /// before.
    pub fn withdraw(&mut self, id: Id) -> Result<(), ReplicaFault>
        ensures leaves { OnOk result (Leaves self.old (withdrew id) self.new) }
        ensures again { contains_key self.old.state.tombstones id ≡ true → IsOk result × (self.new ≡ self.old) }
        ensures accepted { OnOk result (withdraw_refusal self.old id ≡ None) }
        ensures fault { IfErr result (λ fault. fault ≡ unwrap_or (withdraw_refusal self.old id) ReplicaFault.Memory) }
        ensures kept { OnErr result (self.new ≡ self.old) }
    {
        self.records.withdraw(id)?;
        Ok(())
    }

    /// Takes in all that another site holds. If all of it is held already, that changes nothing and asks
    /// for no memory.
    ///
    /// Refused in this order: `NoEvent` of a bound, where a record names an event that the plan
    /// lacks; `Clash`, with the least id that has two different records or replaces two different ids;
    /// `Full`, where both know more than 4,096 ids together; `Memory`. After a fault all is as before.
    pub fn take(&mut self, other: &Records<A>) -> Result<(), ReplicaFault>
        ensures leaves { OnOk result (Leaves self.old (took other.now) self.new) }
        ensures again { IsPart other.now self.old.state → IsOk result × (self.new ≡ self.old) }
        ensures accepted { OnOk result (take_refusal self.old other.now ≡ None) }
        ensures fault { IfErr result (λ fault. fault ≡ unwrap_or (take_refusal self.old other.now) ReplicaFault.Memory) }
        ensures kept { OnErr result (self.new ≡ self.old) }
    {
        self.take_in(other)?;
        Ok(())
    }

    /// Takes in what another site holds as `take` does, and returns the records that were held before;
    /// none exactly where all of the other's are held already.
    pub fn take_in(&mut self, other: &Records<A>) -> Result<Option<Records<A>>, ReplicaFault>
        ensures leaves { OnOk result (Leaves self.old (took other.now) self.new) }
        ensures none { IfOk result (λ before. IsNone before ↔ IsPart other.now self.old.state) }
        ensures before { IfOk result (λ before. MatchOption before (self.new ≡ self.old) (λ records. records ≡ self.old.state)) }
        ensures again { IsPart other.now self.old.state → IsOk result × (self.new ≡ self.old) }
        ensures accepted { OnOk result (take_refusal self.old other.now ≡ None) }
        ensures fault { IfErr result (λ fault. fault ≡ unwrap_or (take_refusal self.old other.now) ReplicaFault.Memory) }
        ensures kept { OnErr result (self.new ≡ self.old) }
    {
        if self.records.holds(other) {
            return Ok(None);
        }
        if !all_name_events(other, self.base.events()) {
            return Err(ReplicaFault::Bound(BoundFault::NoEvent));
        }
        let records = self.records.joined(other)?;
        Ok(Some(mem::replace(&mut self.records, records)))
    }

    /// The name of the first of all bounds that the times break; none where they are a schedule.
    /// There is one time for each event, the origin's, 0, first.
    pub fn check(&self, times: &[Ms]) -> Option<BoundName>
        requires origin { times_of times.now 0 ≡ pos 0 }
        requires one_each { length times.now ≡ events_of self.now.source + 1 }
        ensures first { result ≡ broken_bound self.now.source self.now.state (times_of times.now) }
        ensures schedule { MatchOption result (IsSchedule (all_bounds self.now.source self.now.state) (times_of times.now))
            (λ _. ¬ IsSchedule (all_bounds self.now.source self.now.state) (times_of times.now)) }
    {
        if let Some(place) = first_broken(self.base.bounds(), times) {
            return Some(BoundName::Plan(place as u32 + 1));
        }
        match first_broken_record(&self.records, times) {
            Some(id) => Some(BoundName::Record(id)),
            None => None,
        }
    }

    /// What the site holds.
    pub fn records(&self) -> &Records<A>
        ensures value { result.now ≡ self.now.state }
        ensures named { RecordsName (events_of self.now.source) self.now.state }
    {
        &self.records
    }

    /// The site.
    pub fn site(&self) -> Site
        ensures { result ≡ self.now.site }
    {
        self.site
    }

    /// The plan's base.
    pub fn base(&self) -> &Base<A>
        ensures { result.now ≡ self.now.source }
    {
        &self.base
    }

    /// The allocator that the copy was made with.
    pub fn alloc(&self) -> A {
        self.alloc
    }
}

// The id of the first live record whose bound the times break.
fn first_broken_record<A: Allocator + Copy>(records: &Records<A>, times: &[Ms]) -> Option<Id>
    requires origin { times_of times.now 0 ≡ pos 0 }
    requires named { RecordsTimed times.now records.now }
    ensures { result ≡ option_map (λ entry. entry.0) (broken_record records.now (times_of times.now)) }
{
    for (id, record) in records.live_records() {
        if is_broken(record.bound, times) {
            return Some(id);
        }
    }
    None
}

// Whether the times break the bound.
fn is_broken(bound: Bound, times: &[Ms]) -> bool
    requires origin { times_of times.now 0 ≡ pos 0 }
    requires named { NamesTimes times.now bound }
    ensures { result ≡ not (is_met_by (times_of times.now) bound) }
{
    first_broken(&[bound], times).is_some()
}

// Whether each record names the origin or one of so many events.
fn all_name_events<A: Allocator + Copy>(records: &Records<A>, events: u16) -> bool
    ensures { IsTrue result ↔ RecordsName events records.now }
{
    for (_, record) in records.state().additions().entries() {
        if !names_events(&record.bound, events) {
            return false;
        }
    }
    true
}

// Whether both events of the bound are the origin or one of so many others.
fn names_events(bound: &Bound, events: u16) -> bool
    ensures { IsTrue result ↔ NamesEvents events bound.now }
{
    bound.from().number() <= events && bound.to().number() <= events
}
