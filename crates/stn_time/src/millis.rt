ghost use Rattle.std.specs.Prelude.{◌≡◌, ℤ, neg_ℤ, ◌↔◌, IsSome, IfSome};
ghost use Rattle.stn_time.specs.Time.{IsWithinHorizon};

use std::marker::Model;
use std::ops::Neg;

/// The greatest time and the greatest difference of two times, in milliseconds.
pub const HORIZON: i64 = 31_536_000_000;

/// A time, or a difference of two times, in whole milliseconds from `-HORIZON` to `HORIZON`.
#[derive(Clone, Copy, Debug, PartialEq, Eq, PartialOrd, Ord)]
pub struct Ms {
    millis: i64,
}

impl Model for Ms {
    ghost Value = { ℤ };

    ghost view = { λ t. t.millis };

    ghost invariant = { λ t. IsWithinHorizon t.millis };

    ghost inverse = { λ n. record { millis = n } };
}

impl Ms {
    /// The time of so many milliseconds; none unless they lie from `-HORIZON` to `HORIZON`.
    pub fn new(millis: i64) -> Option<Ms>
        ensures within { IsSome result ↔ IsWithinHorizon millis }
        ensures value { IfSome result (λ time. time ≡ millis) }
    {
        if -HORIZON <= millis && millis <= HORIZON {
            Some(Ms { millis })
        } else {
            None
        }
    }

    /// The number of milliseconds.
    pub fn get(self) -> i64
        ensures value { result ≡ self }
        ensures within { IsWithinHorizon result }
    {
        self.millis
    }
}

/// The time as far from 0 on the other side.
impl Neg for Ms {
    type Output = Ms;

    ghost neg_gives = { λ time opposite. opposite ≡ neg_ℤ time };

    fn neg(self) -> Ms {
        Ms {
            millis: -self.millis,
        }
    }
}
