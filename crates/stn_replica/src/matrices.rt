ghost use Rattle.std.specs.{Prelude.{◌≡◌, ◌+◌, ◌≤◌, ◌++◌, ◌↔◌, List, [], ◌∷◌, length, All, Some, IsTrue, IfOk}, FinMap.{get, contains_key}};
ghost use Rattle.stn_net.specs.{Difference.{Difference, NamesEvents}, Matrix.Tightest.IsExact};
ghost use Rattle.stn_lift.specs.PlanSource.{PlanSource, base_bounds, events_of};
ghost use Rattle.stn_records.specs.declared.record.Record.{Record};
ghost use Rattle.stn_site.specs.{Bounds.{bounds_of, live_bounds, RecordsName}, Growth.{risen, Extends, KeepsLive}};
ghost use Rattle.stn_replica.specs.{Invariant.{IsSettled, IsSoundReplica}, Work.GainsLive};

use crate::closest::closest_first;
use crate::plan_matrix::PlanMatrix;
use crate::risen::Risen;
use std::alloc::Allocator;
use stn_lift::Base;
use stn_matrix::Matrix;
use stn_records::{Id, Records};
use stn_time::Memory;

// The matrix of the plan's own bounds. Those of events that the plan has close together are taken first: where many events
// interfere, nearly all others are then implied when they come.
pub fn opening_matrix<A: Allocator + Copy>(alloc: A, base: &Base<A>) -> Result<Matrix<A>, Memory>
    ensures exact { IfOk result (λ matrix. IsExact (base_bounds base.now) matrix) }
    ensures events { IfOk result (λ matrix. matrix.events ≡ events_of base.now) }
{
    let events = base.events();
    let mut matrix = Matrix::bare(alloc, events)?;
    let others = &base.bounds()[usize::from(events)..];
    for bound in &closest_first(alloc, base, others)? {
        let _fits = matrix.tighten(*bound);
    }
    Ok(matrix)
}

// Takes the opening matrix in place of the current one, and then the bounds of the live records.
// Whether all these have a schedule.
pub fn rebuild<A: Allocator + Copy>(
    opening: &PlanMatrix<A>,
    current: &mut Matrix<A>,
    records: &Records<A>,
) -> bool
    requires events { current.old.events ≡ opening.now.events }
    requires named { RecordsName current.old.events records.now }
    requires counted { current.old.steps ≤ u64.MAX }
    ensures settled { (bounds : List Difference) → IsExact bounds opening.now → IsSettled (bounds ++ live_bounds records.now) current.new result }
    ensures events { current.new.events ≡ current.old.events }
    ensures counted { current.new.steps ≤ u64.MAX }
{
    current.copy_from(opening.matrix());
    tighten_each(current, Risen::of_all(records))
}

// Takes the bounds of records that have become live, up to one with which the bounds have no schedule. Whether there is no such bound.
fn tighten_each<A: Allocator + Copy>(matrix: &mut Matrix<A>, records: Risen<'_>) -> bool
    requires named { All (λ entry. NamesEvents matrix.old.events entry.1.bound) records }
    requires counted { matrix.old.steps ≤ u64.MAX }
    ensures settled { (bounds : List Difference) → IsExact bounds matrix.old → IsSettled (bounds ++ bounds_of records.entry) matrix.new result }
    ensures events { matrix.new.events ≡ matrix.old.events }
    ensures counted { matrix.new.steps ≤ u64.MAX }
    ensures least { matrix.old.steps ≤ matrix.new.steps }
    ensures most { matrix.new.steps ≤ matrix.old.steps + length records.entry }
{
    for (_, record) in records {
        if !matrix.tighten(record.bound) {
            return false;
        }
    }
    true
}

// Takes the bound of one more record, where the bounds so far have a schedule. Whether they have one with it.
pub fn tighten_by<A: Allocator + Copy>(
    current: &mut Matrix<A>,
    possible: bool,
    records: &Records<A>,
    id: Id,
) -> bool
    requires named { RecordsName current.old.events records.now }
    requires there { IsTrue (contains_key records.now.additions id) }
    requires counted { current.old.steps ≤ u64.MAX }
    ensures settled { (one : Record) → get records.now.additions id ≡ Some one → (bounds : List Difference)
        → IsSettled bounds current.old possible → IsSettled (bounds ++ one.bound ∷ []) current.new result }
    ensures events { current.new.events ≡ current.old.events }
    ensures counted { current.new.steps ≤ u64.MAX }
    ensures least { current.old.steps ≤ current.new.steps }
    ensures most { current.new.steps ≤ current.old.steps + 1 }
{
    let one = records.state().additions().get(id).unwrap();
    possible && current.tighten(one.bound)
}

// Brings the current matrix up to records that hold all that was held before. Whether all bounds have a schedule then.
pub fn catch_up<A: Allocator + Copy>(
    opening: &PlanMatrix<A>,
    current: &mut Matrix<A>,
    possible: bool,
    before: &Records<A>,
    after: &Records<A>,
) -> bool
    requires extends { Extends before.now after.now }
    requires events { current.old.events ≡ opening.now.events }
    requires named { RecordsName current.old.events after.now }
    requires counted { current.old.steps ≤ u64.MAX }
    ensures sound { (source : PlanSource) → IsSoundReplica source before.now opening.now current.old possible
        → IsSoundReplica source after.now opening.now current.new result }
    ensures least { KeepsLive before.now after.now → current.old.steps ≤ current.new.steps }
    ensures most { KeepsLive before.now after.now → current.new.steps ≤ current.old.steps + length (risen before.now after.now) }
{
    if !keeps_live(before, after) {
        rebuild(opening, current, after)
    } else if possible {
        tighten_each(current, Risen::between(before, after))
    } else {
        false
    }
}

// Whether some record has become live.
#[tactic(auto, using(crate::proofs::Rising::gains_first))]
fn gains_live<A: Allocator + Copy>(before: &Records<A>, after: &Records<A>) -> bool
    ensures { IsTrue result ↔ GainsLive before.now after.now }
{
    Risen::between(before, after).next().is_some()
}

// Whether each record that was live still is.
#[tactic(auto, using(crate::proofs::Rising::keeps_where_none_back))]
fn keeps_live<A: Allocator + Copy>(before: &Records<A>, after: &Records<A>) -> bool
    ensures { IsTrue result ↔ KeepsLive before.now after.now }
{
    !gains_live(after, before)
}
