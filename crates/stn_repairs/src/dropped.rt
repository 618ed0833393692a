ghost use Rattle.std.specs.{Prelude.{◌≡◌, ◌++◌, All, IsTrue, IfOk, OnOk}, FinMap.is_sorted};
ghost use Rattle.stn_net.specs.Difference.{NamesEvents};
ghost use Rattle.stn_lift.specs.PlanSource.{base_bounds, events_of};
ghost use Rattle.stn_records.specs.Id.{id_cmp};
ghost use Rattle.stn_site.specs.Bounds.{bounds_of};
ghost use Rattle.stn_repairs.specs.Dropped.{marked, facts_first, AreRefused, AreDropped};

use std::alloc::Allocator;
use stn_conflict::Network;
use stn_records::{Id, Mark, Record};
use stn_site::SitePlan;
use stn_time::Memory;

// The ids of the live records that are dropped, in order.
pub fn dropped_ids<A: Allocator + Copy>(
    plan: &SitePlan<A>,
    live: &[(Id, Record)],
) -> Result<Vec<Id, A>, Memory>
    requires named { All (NamesEvents (events_of plan.now.source)) (bounds_of live.now) }
    requires in_order { IsTrue (is_sorted id_cmp live.now) }
    ensures { IfOk result (λ ids. AreDropped (base_bounds plan.now.source) live.now ids.items) }
{
    let order = facts_first(plan.alloc(), live)?;
    let mut ids = refused_ids(plan, &order)?;
    ids.sort_unstable();
    Ok(ids)
}

// The Done records, and then the others.
fn facts_first<A: Allocator + Copy>(
    alloc: A,
    live: &[(Id, Record)],
) -> Result<Vec<(Id, Record), A>, Memory>
    ensures { IfOk result (λ order. order.items ≡ facts_first live.now) }
{
    let mut order = Vec::new(alloc);
    append_marked(live, Mark::Done, &mut order)?;
    append_marked(live, Mark::Plain, &mut order)?;
    Ok(order)
}

// Appends the records with the mark.
fn append_marked<A: Allocator>(
    live: &[(Id, Record)],
    mark: Mark,
    order: &mut Vec<(Id, Record), A>,
) -> Result<(), Memory>
    ensures { OnOk result (order.new.items ≡ order.old.items ++ marked mark live.now) }
{
    for entry in live {
        if entry.1.mark == mark {
            order.push(*entry)?;
        }
    }
    Ok(())
}

// The ids of the records with which the plan's bounds and those of the records kept before have no schedule.
fn refused_ids<A: Allocator + Copy>(
    plan: &SitePlan<A>,
    order: &[(Id, Record)],
) -> Result<Vec<Id, A>, Memory>
    requires { All (NamesEvents (events_of plan.now.source)) (bounds_of order.now) }
    ensures { IfOk result (λ refused. AreRefused (base_bounds plan.now.source) order.now refused.items) }
{
    let base = plan.base();
    let mut kept = Network::new(plan.alloc(), base.events(), base.bounds(), &[])?;
    let mut refused = Vec::new(plan.alloc());
    for &(id, record) in order {
        if !kept.take(record.bound)? {
            refused.push(id)?;
        }
    }
    Ok(refused)
}
