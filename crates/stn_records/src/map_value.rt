ghost use Rattle.std.specs.{Prelude.{◌≡◌, ◌↔◌, Bool, IsTrue}, Bool.Decides};

use crate::id::Id;
use crate::record::{Mark, Record};
use stn_net::Event;

/// What a map from ids has of an id: a record, the id that is replaced, or nothing more.
pub trait MapValue: Copy {
    /// Whether two values are equal.
    ghost same: { Self → Self → Bool };

    /// What is true of each value of a map.
    ghost Fits: { Self → Type 0 };

    /// Whether the values are equal.
    fn is_same(&self, other: &Self) -> bool
        ensures { result ≡ same self.now other.now };

    /// Whether a map may have the value.
    fn is_fit(&self) -> bool
        ensures { IsTrue result ↔ Fits self.now };

    /// Values are one where the test says so, and only there.
    ghost decides: { (x y : Self) → Decides (same x y) (x ≡ y) };
}

// A record is fit where it is Plain, or fixes the time of an event.
impl MapValue for Record {
    ghost use Rattle.stn_records.specs.{Record.{IsProperRecord, same_records}, ContentLaws.records_decide};

    ghost same = { same_records };

    ghost Fits = { IsProperRecord };

    fn is_same(&self, other: &Self) -> bool {
        self == other
    }

    fn is_fit(&self) -> bool {
        match self.mark {
            Mark::Plain => true,
            Mark::Done => {
                self.bound.from() == Event::origin() && self.bound.lo() == self.bound.hi()
            }
        }
    }

    ghost decides = { records_decide };
}

impl MapValue for Id {
    ghost use Rattle.stn_records.specs.{Id.same_ids, ContentLaws.ids_decide};

    ghost same = { same_ids };

    ghost Fits = { λ _. Unit {0} };

    fn is_same(&self, other: &Self) -> bool {
        self == other
    }

    fn is_fit(&self) -> bool {
        true
    }

    ghost decides = { ids_decide };
}

impl MapValue for () {
    ghost use Rattle.stn_records.specs.{Maps.same_units, ContentLaws.units_decide};

    ghost same = { same_units };

    ghost Fits = { λ _. Unit {0} };

    fn is_same(&self, _other: &Self) -> bool {
        true
    }

    fn is_fit(&self) -> bool {
        true
    }

    ghost decides = { units_decide };
}
