//! What an event needs, adds and deletes.

ghost use Rattle.std.specs.Prelude.{◌≡◌, nat_eq};
ghost use Rattle.stn_lift.specs.{Footprints.{no_footprint, touches, interfere}, Views.numbers_of};

use crate::numbers::Numbers;
use std::alloc::Allocator;

/// The atoms that an event needs, adds and deletes, by their numbers.
#[derive(Drop)]
pub struct Footprint<A: Allocator> {
    pub needs: Numbers<A>,
    pub adds: Numbers<A>,
    pub deletes: Numbers<A>,
}

impl<A: Allocator> Footprint<A> {
    /// That of an event that needs, adds and deletes nothing.
    pub fn none(alloc: A) -> Footprint<A>
    where
        A: Copy,
        ensures { numbers_of result ≡ no_footprint }
    {
        Footprint {
            needs: Numbers::none(alloc),
            adds: Numbers::none(alloc),
            deletes: Numbers::none(alloc),
        }
    }

    /// Whether the event interferes with the other.
    pub fn interferes(&self, other: &Footprint<A>) -> bool
        ensures { result ≡ interfere nat_eq (numbers_of self.now) (numbers_of other.now) }
    {
        self.touches(other) || other.touches(self)
    }

    // Whether the event needs what the other adds or deletes, or adds what the other deletes.
    fn touches(&self, other: &Footprint<A>) -> bool
        ensures { result ≡ touches nat_eq (numbers_of self.now) (numbers_of other.now) }
    {
        self.needs.share(&other.adds)
            || self.needs.share(&other.deletes)
            || self.adds.share(&other.deletes)
    }
}
