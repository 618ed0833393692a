ghost use Rattle.std.specs.Prelude.{◌≡◌, take, OnOk, OnErr};

use crate::Memory;
use std::alloc::Allocator;

/// The outcome of appending to a text that had so many bytes before. If memory ran out, what was appended is taken
/// back.
pub fn all_or_nothing<A: Allocator>(
    out: &mut Vec<u8, A>,
    before: usize,
    outcome: Result<(), Memory>,
) -> Result<(), Memory>
    ensures same { result ≡ outcome }
    ensures all { OnOk result (out.new.items ≡ out.old.items) }
    ensures nothing { OnErr result (out.new.items ≡ take before out.old.items) }
{
    if outcome.is_err() {
        out.truncate(before);
    }
    outcome
}
