//! Changes of what a site holds.

ghost use Rattle.std.specs.Prelude.{◌≡◌, None, unwrap_or, IsOk, IfOk, IfErr, OnOk, OnErr};
ghost use Rattle.stn_site.specs.{Held.{difference, next_id}, Calls.Leaves, Change.{change_call, change_id, change_refusal, stopped, IsAgain}};

use crate::faults::ReplicaFault;
use crate::site_plan::SitePlan;
use std::alloc::Allocator;
use std::marker::Model;
use stn_net::Event;
use stn_records::Id;
use stn_time::Ms;

/// A bound between two events, as it is asked for: it may not be one.
#[derive(Clone, Copy)]
pub struct AskedBound {
    from: Event,
    to: Event,
    lo: Ms,
    hi: Ms,
}

impl Model for AskedBound {
    ghost use Rattle.stn_net.specs.Difference.{Difference};

    ghost Value = { Difference };

    ghost view = { λ b. record { from = b.from; to = b.to; lo = b.lo; hi = b.hi } };

    ghost inverse = { λ d. record { from = d.from; to = d.to; lo = d.lo; hi = d.hi } };
}

impl AskedBound {
    /// The bound of these events, with the least and the greatest difference of their times.
    pub fn new(from: Event, to: Event, lo: Ms, hi: Ms) -> AskedBound
        ensures { result ≡ difference from to lo hi }
    {
        AskedBound { from, to, lo, hi }
    }
}

/// A change of what a site holds, as it is asked for.
#[derive(Clone, Copy)]
pub enum Change {
    /// Adds a bound.
    Add(AskedBound),
    /// Adds a bound in place of the record of this id.
    Amend(Id, AskedBound),
    /// Withdraws the record of this id.
    Withdraw(Id),
    /// Records that an event took place at a time.
    Done(Event, Ms),
}

impl Change {
    /// The id of the record whose place it takes, or that it withdraws.
    pub fn stopped(&self) -> Option<Id>
        ensures { result ≡ stopped self.now }
    {
        match *self {
            Change::Amend(old, _) => Some(old),
            Change::Withdraw(id) => Some(id),
            Change::Add(_) | Change::Done(..) => None,
        }
    }
}

impl<A: Allocator + Copy> SitePlan<A> {
    /// Makes a change, and returns the id of the record that it adds, or the id that it withdraws.
    ///
    /// Refused as `add`, `amend`, `withdraw` and `done` refuse it. After a fault all is as before.
    pub fn change(&mut self, asked: &Change) -> Result<Id, ReplicaFault>
        ensures leaves { IfOk result (λ id. Leaves self.old (change_call asked.now id) self.new) }
        ensures id { IfOk result (λ id. id ≡ change_id asked.now (next_id self.old)) }
        ensures again { IsAgain asked.now self.old.state → IsOk result × (self.new ≡ self.old) }
        ensures accepted { OnOk result (change_refusal self.old asked.now ≡ None) }
        ensures fault { IfErr result (λ fault. fault ≡ unwrap_or (change_refusal self.old asked.now) ReplicaFault.Memory) }
        ensures kept { OnErr result (self.new ≡ self.old) }
    {
        match *asked {
            Change::Add(bound) => self.add(bound.from, bound.to, bound.lo, bound.hi),
            Change::Amend(old, bound) => {
                self.amend(old, bound.from, bound.to, bound.lo, bound.hi)
            }
            Change::Withdraw(id) => {
                self.withdraw(id)?;
                Ok(id)
            }
            Change::Done(event, time) => self.done(event, time),
        }
    }
}
