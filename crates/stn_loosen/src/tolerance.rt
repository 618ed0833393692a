ghost use Rattle.std.specs.Prelude.{◌≡◌, ◌↔◌, ◌≤ℤ◌, pos, IsSome, IfSome};
ghost use Rattle.stn_loosen.specs.Slack.{IsSlack, least, most, loose};

use std::marker::Model;
use stn_net::{Bound, MOST_EVENTS};
use stn_time::{HORIZON, Ms};

/// How much less, and how much more, than its planned duration a step may take.
#[derive(Clone, Copy, Debug, PartialEq, Eq)]
pub struct Tolerance {
    early: Ms,
    late: Ms,
}

impl Model for Tolerance {
    ghost use Rattle.stn_loosen.specs.Slack.{Slack, IsSlack};

    ghost Value = { Slack };

    ghost view = { λ t. record { early = t.early; late = t.late } };

    ghost invariant = { λ t. IsSlack (record { early = t.early; late = t.late }) };

    ghost inverse = { λ s. record { early = s.early; late = s.late } };
}

impl Tolerance {
    /// So much less and so much more; none where one of them is negative.
    pub fn new(early: Ms, late: Ms) -> Option<Tolerance>
        ensures found { IsSome result ↔ IsSlack (record { early = early; late = late }) }
        ensures value { IfSome result (λ tolerance. tolerance ≡ record { early = early; late = late }) }
    {
        if early.get() < 0 || late.get() < 0 {
            return None;
        }
        Some(Tolerance { early, late })
    }

    /// The bound of a planned duration with this tolerance. The duration stays between 0 and the horizon.
    pub(crate) fn loose(self, duration: &Bound) -> Bound
        requires { pos 0 ≤ℤ duration.now.lo }
        ensures { result ≡ loose self duration.now }
    {
        let lo = self.least(duration.lo());
        let hi = self.most(duration.hi());
        Bound::new(MOST_EVENTS, duration.from(), duration.to(), lo, hi).unwrap()
    }

    // The least duration.
    fn least(self, duration: Ms) -> Ms
        requires { pos 0 ≤ℤ duration }
        ensures { result ≡ least self duration }
    {
        let millis = (duration.get() - self.early.get()).max(0);
        Ms::new(millis).unwrap()
    }

    // The greatest duration.
    fn most(self, duration: Ms) -> Ms
        requires { pos 0 ≤ℤ duration }
        ensures { result ≡ most self duration }
    {
        let millis = (duration.get() + self.late.get()).min(HORIZON);
        Ms::new(millis).unwrap()
    }
}
