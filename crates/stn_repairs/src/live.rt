ghost use Rattle.std.specs.{Prelude.{◌≡◌, All, IsTrue, IfOk}, FinMap.is_sorted};
ghost use Rattle.stn_net.specs.Difference.{NamesEvents};
ghost use Rattle.stn_lift.specs.PlanSource.{events_of};
ghost use Rattle.stn_records.specs.{Id.id_cmp, Content.live_of};
ghost use Rattle.stn_site.specs.Bounds.{bounds_of};
ghost use Rattle.stn_repairs.specs.Repairs.{without};

use std::alloc::Allocator;
use stn_net::Bound;
use stn_records::{Id, Record};
use stn_site::SitePlan;
use stn_time::Memory;

// The live records of a site, in order of id.
pub fn live_records<A: Allocator + Copy>(plan: &SitePlan<A>) -> Result<Vec<(Id, Record), A>, Memory>
    ensures live { IfOk result (λ live. live.items ≡ live_of plan.now.state) }
    ensures named { All (NamesEvents (events_of plan.now.source)) (bounds_of (live_of plan.now.state)) }
    ensures in_order { IsTrue (is_sorted id_cmp (live_of plan.now.state)) }
{
    plan.records().live_records().collect(plan.alloc())
}

// The bounds of records.
pub fn bounds_of<A: Allocator>(alloc: A, records: &[(Id, Record)]) -> Result<Vec<Bound, A>, Memory>
    ensures { IfOk result (λ bounds. bounds.items ≡ bounds_of records.now) }
{
    records.iter().map(|entry| entry.1.bound).collect(alloc)
}

// The records but that of an id.
pub fn without<A: Allocator>(
    alloc: A,
    records: &[(Id, Record)],
    id: Id,
) -> Result<Vec<(Id, Record), A>, Memory>
    ensures { IfOk result (λ rest. rest.items ≡ without records.now id) }
{
    let mut rest = Vec::new(alloc);
    for entry in records {
        if entry.0 != id {
            rest.push(*entry)?;
        }
    }
    Ok(rest)
}
