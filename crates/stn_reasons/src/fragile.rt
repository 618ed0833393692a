//! What is not robust of the plan of two texts.

ghost use Rattle.std.specs.Prelude.{IfOk};
ghost use Rattle.stn_asked.specs.Words.{slack_read};
ghost use Rattle.stn_reasons.specs.Loosening.{SaysFragile};

use std::alloc::Allocator;
use stn_asked::read_tolerance;
use stn_lift::{Base, Source};
use stn_loosen::fragile_lines;
use stn_refusal::Failure;
use stn_store::Store;

/// What is not robust of the plan of a domain and a plan text, with the tolerances that two words spell, as `fragile_lines` says it. It
/// fails where a word is no tolerance, a text can't be read or says no plan, or memory runs out.
pub fn fragile_text<S: Store<A>, A: Allocator + Copy>(
    alloc: A,
    store: &S,
    domain: &str,
    plan: &str,
    early: Option<&str>,
    late: Option<&str>,
) -> Result<Vec<u8, A>, Failure>
    ensures { IfOk result (λ text. SaysFragile (S.entries store.now) domain.now plan.now (slack_read early.entry late.entry) text.items) }
{
    let tolerance = read_tolerance(early, late)?;
    let domain = store.text(domain)?;
    let plan = store.text(plan)?;
    let base = Base::from_source(alloc, &Source::Files(domain, plan))?;
    Ok(fragile_lines(alloc, &base, tolerance)?)
}
