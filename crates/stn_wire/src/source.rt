// The body of a HELLO frame after its kind: the form of a source, and the source.
ghost use Rattle.std.specs.Prelude.{◌≡◌, ◌-◌, ◌^◌, ◌<◌, ◌≤◌, List, ℕ, ◌∷◌, ◌++◌, length, min, IfOk, OnOk, option_map};
ghost use Rattle.stn_lift.specs.PlanSource.{plan_source};
ghost use Rattle.stn_wire.specs.{Spelling.measured, Frame.{most_body, source_bytes, IsSaidSource}, Reading.{IsReadFrom, measured_then}};

use crate::fields::{append_four, append_two, four_of, two_of};
use std::alloc::Allocator;
use stn_lift::Source;
use stn_time::Memory;

pub(crate) fn read_source<A: Allocator + Copy>(
    alloc: A,
    bytes: &[u8],
) -> Result<Option<Source<A>>, Memory>
    ensures { IfOk result (λ r. IsReadFrom IsSaidSource source_bytes bytes.now (option_map plan_source r)) }
{
    match bytes.split_first() {
        Some((0, steps)) => Ok(read_bare(steps)),
        Some((1, texts)) => read_files(alloc, texts),
        _ => Ok(None),
    }
}

fn read_bare<A: Allocator>(steps: &[u8]) -> Option<Source<A>>
    ensures { IsReadFrom IsSaidSource source_bytes (0 ∷ steps.now) (option_map plan_source result) }
{
    if steps.len() == 2 {
        Some(Source::Bare(two_of(steps)))
    } else {
        None
    }
}

fn read_files<A: Allocator + Copy>(alloc: A, texts: &[u8]) -> Result<Option<Source<A>>, Memory>
    ensures { IfOk result (λ r. IsReadFrom IsSaidSource source_bytes (1 ∷ texts.now) (option_map plan_source r)) }
{
    let Some((domain, rest)) = read_measured(texts) else {
        return Ok(None);
    };
    let Some((plan, rest)) = read_measured(rest) else {
        return Ok(None);
    };
    if !rest.is_empty() {
        return Ok(None);
    }
    let domain = Vec::from_slice(alloc, domain)?;
    let plan = Vec::from_slice(alloc, plan)?;
    Ok(Some(Source::Files(domain, plan)))
}

// A text after its length, and what stands after it.
fn read_measured(bytes: &[u8]) -> Option<(&[u8], &[u8])>
    ensures { IsReadFrom (λ (found : List ℕ × List ℕ). length found.0 < 2 ^ 32) measured_then bytes.now
        (option_map (λ found. (found.0.now, found.1.now)) result) }
{
    if bytes.len() < 4 {
        return None;
    }
    let (head, behind) = bytes.split_at(4);
    let length = four_of(head) as usize;
    if behind.len() < length {
        return None;
    }
    Some(behind.split_at(length))
}

// How many bytes `append_source` appends, up to the greatest number.
pub(crate) fn source_length<A: Allocator>(source: &Source<A>) -> usize
    ensures { result ≡ min (length (source_bytes (plan_source source.now))) (2 ^ 64 - 1) }
{
    match source {
        Source::Bare(_) => 3,
        Source::Files(domain, plan) => 9usize
            .saturating_add(domain.len())
            .saturating_add(plan.len()),
    }
}

pub(crate) fn append_source<A: Allocator, B: Allocator>(
    out: &mut Vec<u8, B>,
    source: &Source<A>,
) -> Result<(), Memory>
    requires { length (source_bytes (plan_source source.now)) ≤ most_body }
    ensures appended { OnOk result (out.new.items ≡ out.old.items ++ source_bytes (plan_source source.now)) }
    ensures said { OnOk result (IsSaidSource (plan_source source.now)) }
{
    match source {
        Source::Bare(steps) => {
            out.push(0)?;
            append_two(out, *steps)
        }
        Source::Files(domain, plan) => {
            out.push(1)?;
            append_measured(out, domain)?;
            append_measured(out, plan)
        }
    }
}

fn append_measured<A: Allocator>(out: &mut Vec<u8, A>, text: &[u8]) -> Result<(), Memory>
    requires { length text.now < 2 ^ 32 }
    ensures { OnOk result (out.new.items ≡ out.old.items ++ measured text.now) }
{
    append_four(out, text.len() as u32)?;
    out.extend_from_slice(text)
}
