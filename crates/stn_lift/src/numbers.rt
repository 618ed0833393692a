//! Numbers in order.

ghost use Rattle.std.specs.{Prelude.{◌≡◌, [], nat_eq, IsPermutation}, List.Sorted.IsNonDecreasing};
ghost use Rattle.stn_lift.specs.Footprints.{share};

use std::alloc::Allocator;
use std::cmp::Ordering;
use std::marker::Model;

/// Numbers, none of which is less than one before it.
#[derive(Drop)]
pub struct Numbers<A: Allocator> {
    items: Vec<usize, A>,
}

impl<A: Allocator> Model for Numbers<A> {
    ghost use Rattle.std.specs.{Prelude.{List, ℕ}, List.Sorted.IsNonDecreasing};

    ghost Value = { List ℕ };

    ghost view = { λ n. n.items.items };

    ghost invariant = { λ n. IsNonDecreasing n.items.items };
}

impl<A: Allocator> Numbers<A> {
    /// No numbers.
    pub fn none(alloc: A) -> Numbers<A>
        ensures { result ≡ [] }
    {
        Numbers {
            items: Vec::new(alloc),
        }
    }

    /// The numbers in order.
    pub fn sorted(mut items: Vec<usize, A>) -> Numbers<A>
        ensures { IsPermutation items.items result }
    {
        items.sort_unstable();
        Numbers { items }
    }

    /// Whether some number is among both.
    pub fn share(&self, other: &Numbers<A>) -> bool
        ensures { result ≡ share nat_eq self.now other.now }
    {
        shares(&self.items, &other.items)
    }
}

// Whether two lists in order have a number in common.
fn shares(ours: &[usize], theirs: &[usize]) -> bool
    requires ours { IsNonDecreasing ours.now }
    requires theirs { IsNonDecreasing theirs.now }
    ensures { result ≡ share nat_eq ours.now theirs.now }
{
    let mut i = 0;
    let mut j = 0;
    while i < ours.len() && j < theirs.len() {
        match ours[i].cmp(&theirs[j]) {
            Ordering::Less => i += 1,
            Ordering::Equal => return true,
            Ordering::Greater => j += 1,
        }
    }
    false
}
