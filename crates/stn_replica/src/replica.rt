ghost use Rattle.std.specs.{Prelude.{◌≡◌, ◌+◌, ◌≤◌, pos, true, length, None, unwrap_or, IsOk, IfOk, IfErr, IfSome, OnOk, OnErr, MatchOption}, FinMap.contains_key, Rc.rc_value};
ghost use Rattle.stn_net.specs.{Schedule.{HasSchedule, IsSchedule, times_of}, Matrix.Tightest.IsExact, Windows.Window.IsWindow};
ghost use Rattle.stn_lift.specs.PlanSource.{base_bounds, events_of};
ghost use Rattle.stn_records.specs.Content.{no_content, IsPart};
ghost use Rattle.stn_site.specs.{Bounds.{all_bounds, RecordsName}, Names.broken_bound, Held.{difference, plain, executed, next_id}, Calls.{added, amended, withdrew, took, Leaves}, Change.{change_call, change_id, change_refusal, IsAgain}, Refusals.{add_refusal, amend_refusal, done_refusal, withdraw_refusal, take_refusal}};
ghost use Rattle.stn_replica.specs.{Work.SparesWork, Invariant.stops_live};

use crate::matrices::{catch_up, rebuild, tighten_by};
use crate::plan_matrix::PlanMatrix;
use std::alloc::Allocator;
use std::marker::Model;
use std::rc::Rc;
use stn_lift::Base;
use stn_matrix::{Matrix, window};
use stn_net::Event;
use stn_records::{Id, Records, Site};
use stn_site::{AskedBound, BoundName, Change, ReplicaFault, SitePlan};
use stn_time::{Memory, Ms};

/// One site's copy of a plan, with how far apart the events can be.
#[derive(Drop)]
pub struct Replica<A: Allocator> {
    plan: SitePlan<A>,
    // The matrix of the plan's own bounds.
    opening: PlanMatrix<A>,
    // The matrix of all bounds, where they have a schedule.
    current: Matrix<A>,
    possible: bool,
}

impl<A: Allocator> Model for Replica<A> {
    ghost use Rattle.stn_site.specs.Held.{Held, coded_held};
    ghost use Rattle.stn_replica.specs.Invariant.{IsSoundReplica};

    ghost Value = { Held };

    ghost coded = { coded_held };

    ghost view = { λ r. record { site = r.plan.site; source = r.plan.source; state = r.plan.state; steps = r.current.steps } };

    ghost invariant = { λ r. IsSoundReplica r.plan.source r.plan.state r.opening r.current r.possible };
}

impl<A: Allocator + Copy> Replica<A> {
    /// The replica of a site that holds nothing yet.
    pub fn new(alloc: A, site: Site, base: Rc<Base<A>, A>) -> Result<Replica<A>, Memory>
        ensures site { IfOk result (λ replica. replica.site ≡ site) }
        ensures source { IfOk result (λ replica. replica.source ≡ rc_value base) }
        ensures empty { IfOk result (λ replica. replica.state ≡ no_content) }
    {
        Replica::of(SitePlan::new(alloc, site, base))
    }

    /// The replica of a site that has this copy of the plan.
    pub fn of(plan: SitePlan<A>) -> Result<Replica<A>, Memory>
        ensures site { IfOk result (λ replica. replica.site ≡ plan.site) }
        ensures source { IfOk result (λ replica. replica.source ≡ plan.source) }
        ensures state { IfOk result (λ replica. replica.state ≡ plan.state) }
    {
        let opening = PlanMatrix::new(plan.alloc(), plan.base())?;
        Replica::opened(plan, opening)
    }

    /// The replica of another site of the same plan that holds nothing yet. What both know of the plan's own bounds is shared, so
    /// that no bound is taken again.
    pub fn beside(&self, site: Site) -> Result<Replica<A>, Memory>
        ensures site { IfOk result (λ replica. replica.site ≡ site) }
        ensures source { IfOk result (λ replica. replica.source ≡ self.now.source) }
        ensures empty { IfOk result (λ replica. replica.state ≡ no_content) }
    {
        let plan = self.plan.beside(site)?;
        let opening = self.opening.shared()?;
        Replica::opened(plan, opening)
    }

    // The replica of a site, with the matrix of the plan's own bounds.
    fn opened(plan: SitePlan<A>, opening: PlanMatrix<A>) -> Result<Replica<A>, Memory>
        requires exact { IsExact (base_bounds plan.source) opening }
        requires events { opening.events ≡ events_of plan.source }
        ensures site { IfOk result (λ replica. replica.site ≡ plan.site) }
        ensures source { IfOk result (λ replica. replica.source ≡ plan.source) }
        ensures state { IfOk result (λ replica. replica.state ≡ plan.state) }
    {
        let mut current = Matrix::bare(plan.alloc(), plan.base().events())?;
        let possible = rebuild(&opening, &mut current, plan.records());
        Ok(Replica {
            plan,
            opening,
            current,
            possible,
        })
    }

    /// Makes a change, and returns the id of the record that it adds, or the id that it withdraws.
    ///
    /// Refused as `add`, `amend`, `withdraw` and `done` refuse it. After a fault all is as before.
    pub fn change(&mut self, asked: &Change) -> Result<Id, ReplicaFault>
        ensures leaves { IfOk result (λ id. Leaves self.old (change_call asked.now id) self.new) }
        ensures work { OnOk result (SparesWork self.old self.new) }
        ensures id { IfOk result (λ id. id ≡ change_id asked.now (next_id self.old)) }
        ensures again { IsAgain asked.now self.old.state → IsOk result × (self.new ≡ self.old) }
        ensures accepted { OnOk result (change_refusal self.old asked.now ≡ None) }
        ensures fault { IfErr result (λ fault. fault ≡ unwrap_or (change_refusal self.old asked.now) ReplicaFault.Memory) }
        ensures kept { OnErr result (self.new ≡ self.old) }
    {
        let stops = stops_live(self.plan.records(), asked);
        let id = self.plan.change(asked)?;
        let records = self.plan.records();
        if stops {
            self.possible = rebuild(&self.opening, &mut self.current, records);
        } else if records.is_live(id) {
            self.possible = tighten_by(&mut self.current, self.possible, records, id);
        }
        Ok(id)
    }

    /// Adds a bound, under the site's next id, which is returned. A bound that contradicts others is
    /// added like any other.
    ///
    /// Refused in this order: `NoEvent`, `SameEvent` and `Crossed` of a bound, `CounterSpent`, `Full`,
    /// `Memory`. After a fault all is as before.
    pub fn add(&mut self, from: Event, to: Event, lo: Ms, hi: Ms) -> Result<Id, ReplicaFault>
        ensures leaves { IfOk result (λ id. Leaves self.old (added id (plain (difference from to lo hi))) self.new) }
        ensures work { OnOk result (SparesWork self.old self.new) }
        ensures accepted { OnOk result (add_refusal self.old (difference from to lo hi) ≡ None) }
        ensures fault { IfErr result (λ fault. fault ≡ unwrap_or (add_refusal self.old (difference from to lo hi)) ReplicaFault.Memory) }
        ensures kept { OnErr result (self.new ≡ self.old) }
    {
        self.change(&Change::Add(AskedBound::new(from, to, lo, hi)))
    }

    /// Replaces a known id for good by a new record of a bound, under the site's next id, which is
    /// returned. Where the record of the old id was live, it no longer is; it doesn't come back where
    /// the new record is withdrawn. An id that is withdrawn or replaced already may be replaced again.
    ///
    /// Refused in this order: `NoEvent`, `SameEvent` and `Crossed` of a bound, `Unknown`, where the old
    /// id is not known, `CounterSpent`, `Full`, `Memory`. After a fault all is as before.
    pub fn amend(
        &mut self,
        old: Id,
        from: Event,
        to: Event,
        lo: Ms,
        hi: Ms,
    ) -> Result<Id, ReplicaFault>
        ensures leaves { IfOk result (λ id. Leaves self.old (amended id old (difference from to lo hi)) self.new) }
        ensures work { OnOk result (SparesWork self.old self.new) }
        ensures accepted { OnOk result (amend_refusal self.old old (difference from to lo hi) ≡ None) }
        ensures fault { IfErr result (λ fault. fault ≡ unwrap_or (amend_refusal self.old old (difference from to lo hi)) ReplicaFault.Memory) }
        ensures kept { OnErr result (self.new ≡ self.old) }
    {
        self.change(&Change::Amend(old, AskedBound::new(from, to, lo, hi)))
    }

    /// Records at which time an event was executed, under the site's next id, which is returned. A
    /// record that contradicts others, as one of the same event at another time, is added like any
    /// other.
    ///
    /// Refused in this order: `NoEvent` of a bound, where the event is the origin or not one of the
    /// plan's; `CounterSpent`, `Full`, `Memory`. After a fault all is as before.
    pub fn done(&mut self, event: Event, time: Ms) -> Result<Id, ReplicaFault>
        ensures leaves { IfOk result (λ id. Leaves self.old (added id (executed time event)) self.new) }
        ensures work { OnOk result (SparesWork self.old self.new) }
        ensures accepted { OnOk result (done_refusal self.old event ≡ None) }
        ensures fault { IfErr result (λ fault. fault ≡ unwrap_or (done_refusal self.old event) ReplicaFault.Memory) }
        ensures kept { OnErr result (self.new ≡ self.old) }
    {
        self.change(&Change::Done(event, time))
    }

    /// Withdraws a known id for good; one that is withdrawn already changes nothing.
    ///
    /// Refused in this order: `Unknown`, where the id is not known; `Memory`. After a fault all is as
    /// before.
    pub fn withdraw(&mut self, id: Id) -> Result<(), ReplicaFault>
        ensures leaves { OnOk result (Leaves self.old (withdrew id) self.new) }
        ensures work { OnOk result (SparesWork self.old self.new) }
        ensures again { contains_key self.old.state.tombstones id ≡ true → IsOk result × (self.new ≡ self.old) }
        ensures accepted { OnOk result (withdraw_refusal self.old id ≡ None) }
        ensures fault { IfErr result (λ fault. fault ≡ unwrap_or (withdraw_refusal self.old id) ReplicaFault.Memory) }
        ensures kept { OnErr result (self.new ≡ self.old) }
    {
        self.change(&Change::Withdraw(id))?;
        Ok(())
    }

    /// Takes in all that another site holds. If all of it is held already, that changes nothing and asks
    /// for no memory.
    ///
    /// Refused in this order: `NoEvent` of a bound, where a record names an event that the plan
    /// lacks; `Clash`, with the least id that has two different records or replaces two different ids;
    /// `Full`, where both know more than 4,096 ids together; `Memory`. After a fault all is as before.
    pub fn take(&mut self, other: &Records<A>) -> Result<(), ReplicaFault>
        ensures leaves { OnOk result (Leaves self.old (took other.now) self.new) }
        ensures work { OnOk result (SparesWork self.old self.new) }
        ensures again { IsPart other.now self.old.state → IsOk result × (self.new ≡ self.old) }
        ensures accepted { OnOk result (take_refusal self.old other.now ≡ None) }
        ensures fault { IfErr result (λ fault. fault ≡ unwrap_or (take_refusal self.old other.now) ReplicaFault.Memory) }
        ensures kept { OnErr result (self.new ≡ self.old) }
    {
        let held = self.plan.take_in(other)?;
        if let Some(before) = &held {
            self.possible = catch_up(
                &self.opening,
                &mut self.current,
                self.possible,
                before,
                self.plan.records(),
            );
        }
        Ok(())
    }

    /// The earliest and the latest time of an event; none where all bounds have no schedule.
    pub fn window(&self, event: Event) -> Option<(Ms, Ms)>
        requires { event ≤ events_of self.now.source }
        ensures { MatchOption result (¬ HasSchedule (all_bounds self.now.source self.now.state))
            (λ window. HasSchedule (all_bounds self.now.source self.now.state)
            × IsWindow (all_bounds self.now.source self.now.state) event window.0 window.1) }
    {
        if self.possible {
            Some(window(&self.current, event))
        } else {
            None
        }
    }

    /// The name of the first of all bounds that the times break; none where they are a schedule.
    /// There is one time for each event, the origin's, 0, first.
    pub fn check(&self, times: &[Ms]) -> Option<BoundName>
        requires origin { times_of times.now 0 ≡ pos 0 }
        requires one_each { length times.now ≡ events_of self.now.source + 1 }
        ensures first { result ≡ broken_bound self.now.source self.now.state (times_of times.now) }
        ensures schedule { MatchOption result (IsSchedule (all_bounds self.now.source self.now.state) (times_of times.now))
            (λ _. ¬ IsSchedule (all_bounds self.now.source self.now.state) (times_of times.now)) }
    {
        self.plan.check(times)
    }

    /// The site's copy of the plan, without a matrix.
    pub fn plan(&self) -> &SitePlan<A>
        ensures site { result.now.site ≡ self.now.site }
        ensures source { result.now.source ≡ self.now.source }
        ensures state { result.now.state ≡ self.now.state }
    {
        &self.plan
    }

    /// What the site holds.
    pub fn records(&self) -> &Records<A>
        ensures value { result.now ≡ self.now.state }
        ensures named { RecordsName (events_of self.now.source) self.now.state }
    {
        self.plan.records()
    }

    /// The site.
    pub fn site(&self) -> Site
        ensures { result ≡ self.now.site }
    {
        self.plan.site()
    }

    /// The plan's base.
    pub fn base(&self) -> &Base<A>
        ensures { result.now ≡ self.now.source }
    {
        self.plan.base()
    }

    /// The matrix of all bounds; none where they have no schedule.
    pub fn current(&self) -> Option<&Matrix<A>>
        ensures exact { MatchOption result (¬ HasSchedule (all_bounds self.now.source self.now.state))
            (λ matrix. IsExact (all_bounds self.now.source self.now.state) matrix.now) }
        ensures events { IfSome result (λ matrix. matrix.now.events ≡ events_of self.now.source) }
        ensures steps { IfSome result (λ matrix. matrix.now.steps ≡ self.now.steps) }
    {
        if self.possible {
            Some(&self.current)
        } else {
            None
        }
    }

    /// The allocator that the replica was made with.
    pub fn alloc(&self) -> A {
        self.plan.alloc()
    }
}

// Whether a change takes the place of a live record, or withdraws one.
fn stops_live<A: Allocator + Copy>(records: &Records<A>, asked: &Change) -> bool
    ensures { result ≡ stops_live asked.now records.now }
{
    match asked.stopped() {
        Some(id) => records.is_live(id),
        None => false,
    }
}
