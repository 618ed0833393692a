ghost use Rattle.std.specs.{Prelude.MatchResult, Result.{IsOk, IsErr}};

use std::alloc::AllocError;
use std::io;
use stn_time::Memory;

/// What a write to memory gives: it fails only where memory runs out.
pub fn in_memory(written: io::Result<()>) -> Result<(), Memory>
    ensures { MatchResult result (λ _. IsOk written) (λ _. IsErr written) }
{
    written.map_err(|_| AllocError)
}
