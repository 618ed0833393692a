ghost use Rattle.std.specs.{Prelude.{◌≡◌, ◌<◌, ◌++◌, ◌∷◌, [], All, IfOk, OnOk, length}, List.Sorted.IsPermutation};
ghost use Rattle.stn_net.specs.Difference.{NamesEvents};
ghost use Rattle.stn_lift.specs.PlanSource.{events_of};
ghost use Rattle.stn_replica.specs.Rows.{in_turn};

use std::alloc::Allocator;
use stn_lift::Base;
use stn_net::Bound;
use stn_time::Memory;

// The numbers of events have ten binary digits at most: so many rows.
const TURNED: usize = 1024;

// Milliseconds have from none to 64 binary digits: so many rows.
const DIGITS: usize = u64::BITS as usize + 1;

// The bounds, those whose events the plan has closest together first, by how many binary digits the milliseconds between them have:
// two passes over the list, where a sort of 131,328 bounds takes seven times as many instructions. Of many that are as close, as in
// a row of equal steps, those of every other event come first: so chains of events of about the same length are joined, and each
// bound changes few entries of a matrix. Joined one event after another, a row of 256 steps takes three times as many instructions.
pub fn closest_first<A: Allocator + Copy>(
    alloc: A,
    base: &Base<A>,
    bounds: &[Bound],
) -> Result<Vec<Bound, A>, Memory>
    requires { All (NamesEvents (events_of base.now)) bounds.now }
    ensures { IfOk result (λ found. IsPermutation bounds.now found.items) }
{
    let spread = every_other_first(alloc, bounds)?;
    let mut rows = empty_rows(alloc, DIGITS)?;
    for bound in &spread {
        let from = base.planned(bound.from()).get();
        let to = base.planned(bound.to()).get();
        let digits = u64::BITS - from.abs_diff(to).leading_zeros();
        append_to(&mut rows, digits as usize, *bound)?;
    }
    joined(alloc, &rows)
}

// The bounds by the numbers of the events from which they count, with the binary digits of these in turned order: so of any events in
// a row, every other one comes first.
fn every_other_first<A: Allocator + Copy>(
    alloc: A,
    bounds: &[Bound],
) -> Result<Vec<Bound, A>, Memory>
    ensures { IfOk result (λ found. IsPermutation bounds.now found.items) }
{
    let mut rows = empty_rows(alloc, TURNED)?;
    for bound in bounds {
        let turned = bound.from().number().reverse_bits() >> 6;
        append_to(&mut rows, usize::from(turned), *bound)?;
    }
    joined(alloc, &rows)
}

// So many empty rows.
fn empty_rows<A: Allocator + Copy>(alloc: A, count: usize) -> Result<Vec<Vec<Bound, A>, A>, Memory>
    ensures long { IfOk result (λ rows. length rows.items ≡ count) }
    ensures empty { IfOk result (λ rows. in_turn rows.items ≡ []) }
{
    let mut rows = Vec::with_capacity(alloc, count)?;
    for _ in 0..count {
        rows.push(Vec::new(alloc))?;
    }
    Ok(rows)
}

// Puts a bound at the end of a row.
fn append_to<A: Allocator + Copy>(
    rows: &mut Vec<Vec<Bound, A>, A>,
    row: usize,
    bound: Bound,
) -> Result<(), Memory>
    requires { row < length rows.old.items }
    ensures long { length rows.new.items ≡ length rows.old.items }
    ensures more { OnOk result (IsPermutation (in_turn rows.old.items ++ bound ∷ []) (in_turn rows.new.items)) }
{
    rows[row].push(bound)?;
    Ok(())
}

// The bounds of all rows, row after row.
fn joined<A: Allocator + Copy>(alloc: A, rows: &[Vec<Bound, A>]) -> Result<Vec<Bound, A>, Memory>
    ensures { IfOk result (λ found. found.items ≡ in_turn rows.now) }
{
    let mut found = Vec::new(alloc);
    for row in rows {
        found.extend_from_slice(row)?;
    }
    Ok(found)
}
