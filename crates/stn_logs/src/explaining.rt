//! What a refusal or a fault means.

ghost use Rattle.std.specs.Prelude.{◌⊎◌, ◌≡◌, None, Some, option_map, MatchResult};
ghost use Rattle.stn_line.specs.Explanations.Explained.{IsExplained};
ghost use Rattle.stn_logs.specs.Commands.{IsExplainRefusal};
ghost use Rattle.stn_refusal.specs.declared.failure.Failure.TheVariants.{Failed};
ghost use Rattle.stn_refusal.specs.declared.failure.Fault.TheVariants as lack;

use std::alloc::Allocator;
use stn_line::print_explained;
use stn_refusal::Failure;

/// Explains the refusal or the fault of a word; without one, says a few words on each. No log is opened.
pub fn explain<A: Allocator + Copy>(alloc: A, code: Option<&str>) -> Result<Vec<u8, A>, Failure>
    ensures { MatchResult result
        (λ text. IsExplained (option_map (λ word. word.now) code.entry) text.items × IsExplainRefusal (option_map (λ word. word.now) code.entry) None)
        (λ failure. (failure ≡ Failed lack.Memory) ⊎ IsExplainRefusal (option_map (λ word. word.now) code.entry) (Some failure)) }
{
    let mut text = Vec::new(alloc);
    print_explained(alloc, code, &mut text)?;
    Ok(text)
}
