ghost use Rattle.std.specs.Prelude.{◌≡◌, ◌⊎◌, true, None, Some, [], All, length, unwrap_or, IfOk, IfErr, IfSome, OnOk, OnErr, IsErrOf, MatchOption};
ghost use Rattle.stn_net.specs.{Difference.NamesEvents, Schedule.HasSchedule};
ghost use Rattle.stn_lift.specs.PlanSource.{events_of, steps_of};
ghost use Rattle.stn_site.specs.{Bounds.all_bounds, Own.are_within};
ghost use Rattle.stn_guard.specs.{Guard.Guards, Adding.{owner_by, IsGuardRefusal, AddsEach, AddsGuard, records_refusal}, Putting.{MakesGuard, PutsEach}};
ghost use Rattle.stn_records.specs.Content.{next_counter, with_record, plain};

use crate::guarding::guard;
use crate::owners::owners_of;
use std::alloc::Allocator;
use stn_net::{Bound, BoundFault};
use stn_records::{Id, MOST_KNOWN, Mark, Records, Site};
use stn_site::{OwnedSteps, ReplicaFault, SitePlan, are_within};
use stn_time::Memory;

/// Adds the guard of all bounds that a site holds, as plain records under its next ids, which are returned in the order of the
/// guard's events. The steps that are owned belong to their sites, each to the first that names it, and all other steps to
/// this site. None, and nothing is added, where all bounds have no schedule.
///
/// Refused in this order, before anything is added: `NoEvent` of a bound, where the plan lacks a step that is owned;
/// `CounterSpent` and `Full`, where the site can't make all records of the guard. Only `NoEvent` is found without memory:
/// `Memory` may come in place of any later answer. After a fault all is as before.
pub fn add_guard<A: Allocator + Copy>(
    plan: &mut SitePlan<A>,
    owned: &[OwnedSteps],
) -> Result<Option<Vec<Id, A>>, ReplicaFault>
    ensures adds { IfOk result (λ found. MatchOption found
        ((¬ HasSchedule (all_bounds plan.old.source plan.old.state)) × (plan.new ≡ plan.old))
        (λ ids. AddsGuard owned.now plan.old ids.items plan.new)) }

    // What the site holds then needs no further guard.
    ensures guarded { IfOk result (λ found. IfSome found (λ _.
        Guards (owner_by plan.old.site owned.now) (all_bounds plan.new.source plan.new.state) [])) }
    ensures accepted { OnOk result (IsGuardRefusal owned.now plan.old None) }
    ensures fault { IfErr result (λ fault. (fault ≡ ReplicaFault.Memory) ⊎ IsGuardRefusal owned.now plan.old (Some fault)) }
    ensures memory { IsErrOf result ReplicaFault.Memory → are_within (steps_of plan.old.source) owned.now ≡ true }
    ensures kept { OnErr result (plan.new ≡ plan.old) }
{
    if !are_within(owned, plan.base().steps()) {
        return Err(ReplicaFault::Bound(BoundFault::NoEvent));
    }
    let Ok(found) = guard_of(plan, owned) else {
        return Err(ReplicaFault::Memory);
    };
    match found {
        Some(bounds) => Ok(Some(add_each(plan, &bounds)?)),
        None => Ok(None),
    }
}

// The guard of all bounds of a site; none where they have no schedule.
fn guard_of<A: Allocator + Copy>(
    plan: &SitePlan<A>,
    owned: &[OwnedSteps],
) -> Result<Option<Vec<Bound, A>>, Memory>
    ensures { IfOk result (λ found. MatchOption found (¬ HasSchedule (all_bounds plan.now.source plan.now.state))
        (λ guard. MakesGuard owned.now plan.now guard.items)) }
{
    let alloc = plan.alloc();
    let base = plan.base();
    let live = plan.live_bounds()?;
    let owners = owners_of(alloc, plan.site(), owned, base.events())?;
    guard(alloc, base.events(), base.bounds(), &live, &owners)
}

// Adds a plain record of each bound, under the site's next ids, which are returned: all of them or none.
fn add_each<A: Allocator + Copy>(
    plan: &mut SitePlan<A>,
    bounds: &[Bound],
) -> Result<Vec<Id, A>, ReplicaFault>
    requires { All (NamesEvents (events_of plan.old.source)) bounds.now }
    ensures adds { IfOk result (λ ids. AddsEach plan.old bounds.now ids.items plan.new) }
    ensures accepted { OnOk result (records_refusal plan.old (length bounds.now) ≡ None) }
    ensures fault { IfErr result (λ fault. fault ≡ unwrap_or (records_refusal plan.old (length bounds.now)) ReplicaFault.Memory) }
    ensures kept { OnErr result (plan.new ≡ plan.old) }
{
    if let Some(fault) = records_refusal(plan, bounds.len()) {
        return Err(fault);
    }
    let Ok((records, ids)) = with_each(plan, bounds) else {
        return Err(ReplicaFault::Memory);
    };
    match plan.take(&records) {
        Ok(()) => Ok(ids),
        Err(_) => Err(ReplicaFault::Memory),
    }
}

// What the site holds with a plain record of each bound, under its next ids, and these ids.
fn with_each<A: Allocator + Copy>(
    plan: &SitePlan<A>,
    bounds: &[Bound],
) -> Result<(Records<A>, Vec<Id, A>), Memory>
    ensures { IfOk result (λ made. PutsEach plan.now.site plan.now.state bounds.now made.1.items made.0) }
{
    let mut records = plan.records().copy()?;
    let ids = put_each(plan.alloc(), &mut records, plan.site(), bounds)?;
    Ok((records, ids))
}

// Why the site can't make so many records more.
fn records_refusal<A: Allocator + Copy>(plan: &SitePlan<A>, count: usize) -> Option<ReplicaFault>
    ensures { result ≡ records_refusal plan.now count }
{
    if count == 0 {
        return None;
    }
    let records = plan.records();
    match records.next_counter(plan.site()) {
        Ok(counter) if count - 1 <= usize::from(u16::MAX - counter) => {
            if count <= MOST_KNOWN - records.known() {
                None
            } else {
                Some(ReplicaFault::Full)
            }
        }
        _ => Some(ReplicaFault::CounterSpent),
    }
}

// Puts a plain record of each bound to the records, under the site's next ids, which are returned.
fn put_each<A: Allocator + Copy>(
    alloc: A,
    records: &mut Records<A>,
    site: Site,
    bounds: &[Bound],
) -> Result<Vec<Id, A>, Memory>
    ensures { IfOk result (λ ids. PutsEach site records.old bounds.now ids.items records.new) }
{
    let mut ids = Vec::new(alloc);
    for bound in bounds {
        let id = put(records, site, *bound)?;
        ids.push(id)?;
    }
    Ok(ids)
}

// Puts a plain record of the bound to the records, under the site's next id, which is returned.
fn put<A: Allocator + Copy>(
    records: &mut Records<A>,
    site: Site,
    bound: Bound,
) -> Result<Id, Memory>
    ensures id { IfOk result (λ id. id ≡ record { site = site; counter = next_counter records.old site }) }
    ensures put { IfOk result (λ id. records.new ≡ with_record records.old id (plain bound)) }
{
    let Ok(counter) = records.next_counter(site) else {
        return Err(Memory);
    };
    let id = Id::new(site, counter).unwrap();
    match records.add(id, Mark::Plain, bound) {
        Ok(()) => Ok(id),
        Err(_) => Err(Memory),
    }
}
