ghost use Rattle.std.specs.Prelude.{◌≡◌, ◌≢◌, ◌<◌, ◌≤◌, ◌≤ℤ◌, IfOk, IfErr};
ghost use Rattle.stn_net.specs.{Difference.{Difference, IsFaultOf, IsBoundWithin}, Horizon.horizon_bound, Failures.bound_failure};

use crate::event::Event;
use std::marker::Model;
use stn_refusal::{Code, Failure};
use stn_time::{HORIZON, Ms};
use thiserror::Error;

/// Why two events and two times are no bound.
#[derive(Clone, Copy, Debug, PartialEq, Eq, Error)]
pub enum BoundFault {
    /// An event is not one of the plan's.
    #[error("no such event")]
    NoEvent,
    /// Both events are the same.
    #[error("a bound on an event and itself")]
    SameEvent,
    /// The lower side lies above the upper.
    #[error("the lower side lies above the upper")]
    Crossed,
}

impl From<BoundFault> for Failure {
    ghost from_gives = { λ fault given. given ≡ bound_failure fault };

    fn from(fault: BoundFault) -> Failure {
        match fault {
            BoundFault::NoEvent => Failure::refused(Code::NoEvent),
            BoundFault::SameEvent => Failure::refused(Code::SameEvent),
            BoundFault::Crossed => Failure::refused(Code::Crossed),
        }
    }
}

/// A bound on the difference of two events' times: `lo <= time of to - time of from <= hi`
/// (Dechter, Meiri and Pearl, 1991).
#[derive(Clone, Copy, Debug, PartialEq, Eq)]
pub struct Bound {
    from: Event,
    to: Event,
    lo: Ms,
    hi: Ms,
}

impl Model for Bound {
    ghost use Rattle.std.specs.Prelude.{◌≢◌, ◌≤ℤ◌};
    ghost use Rattle.stn_net.specs.Difference.{Difference};

    ghost Value = { Difference };

    ghost view = { λ b. record { from = b.from; to = b.to; lo = b.lo; hi = b.hi } };

    ghost invariant = { λ b. (b.from ≢ b.to) × (b.lo ≤ℤ b.hi) };

    ghost inverse = { λ d. record { from = d.from; to = d.to; lo = d.lo; hi = d.hi } };
}

impl Bound {
    /// The bound of these events and times in a plan with so many events beside the origin; else
    /// the first of the faults that stands, in the order of `BoundFault`.
    pub fn new(events: u16, from: Event, to: Event, lo: Ms, hi: Ms) -> Result<Bound, BoundFault>
        ensures made { IfOk result (λ bound. bound ≡ record { from = from; to = to; lo = lo; hi = hi }) }
        ensures sound { IfOk result (λ bound. IsBoundWithin events bound) }
        ensures fault { IfErr result (λ fault. IsFaultOf events (record { from = from; to = to; lo = lo; hi = hi }) fault) }
    {
        if from.number() > events || to.number() > events {
            Err(BoundFault::NoEvent)
        } else if from == to {
            Err(BoundFault::SameEvent)
        } else if lo > hi {
            Err(BoundFault::Crossed)
        } else {
            Ok(Bound { from, to, lo, hi })
        }
    }

    /// The horizon bound of an event: it comes no earlier than the origin, and no later than
    /// `HORIZON`.
    pub fn horizon(event: Event) -> Bound
        requires { event ≢ 0 }
        ensures { result ≡ horizon_bound event }
    {
        Bound {
            from: Event::origin(),
            to: event,
            lo: Ms::new(0).unwrap(),
            hi: Ms::new(HORIZON).unwrap(),
        }
    }

    /// The event from which the difference is taken.
    pub fn from(&self) -> Event
        ensures value { result ≡ self.now.from }
        ensures differs { result ≢ self.now.to }
    {
        self.from
    }

    /// The event to which the difference is taken.
    pub fn to(&self) -> Event
        ensures value { result ≡ self.now.to }
        ensures differs { result ≢ self.now.from }
    {
        self.to
    }

    /// The least difference.
    pub fn lo(&self) -> Ms
        ensures value { result ≡ self.now.lo }
        ensures ordered { result ≤ℤ self.now.hi }
    {
        self.lo
    }

    /// The greatest difference.
    pub fn hi(&self) -> Ms
        ensures value { result ≡ self.now.hi }
        ensures ordered { self.now.lo ≤ℤ result }
    {
        self.hi
    }
}
