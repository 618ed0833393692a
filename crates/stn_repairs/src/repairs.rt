ghost use Rattle.std.specs.{Prelude.{◌<◌, ◌+◌, ◌++◌, ◌↔◌, length, All, IsTrue, IfOk, MatchOption}, List.Any};
ghost use Rattle.stn_net.specs.{Difference.NamesEvents, Schedule.HasSchedule};
ghost use Rattle.stn_lift.specs.PlanSource.{base_bounds, events_of};
ghost use Rattle.stn_conflict.specs.Arcs.{IsNegativeCycle};
ghost use Rattle.stn_site.specs.Bounds.{bounds_of};
ghost use Rattle.stn_repairs.specs.{Repairs.{others, IsRepair, AreRepairs}, Links.IsLinkOf};

use crate::live::{bounds_of, without};
use crate::repair::Repair;
use std::alloc::Allocator;
use stn_conflict::{Link, distances};
use stn_net::Bound;
use stn_records::{Id, Record};
use stn_site::SitePlan;
use stn_time::Memory;

// The repairs by the live records, in order of id, where the links are a negative cycle of all bounds.
pub fn repairs_on<A: Allocator + Copy>(
    plan: &SitePlan<A>,
    live: &[(Id, Record)],
    cycle: &[Link],
) -> Result<Vec<Repair, A>, Memory>
    requires named { All (NamesEvents (events_of plan.now.source)) (bounds_of live.now) }
    requires negative { IsNegativeCycle (base_bounds plan.now.source ++ bounds_of live.now) cycle.now }
    ensures { IfOk result (λ repairs. AreRepairs (base_bounds plan.now.source) live.now live.now repairs.items) }
{
    let mut repairs = Vec::new(plan.alloc());
    for &(id, record) in live {
        if let Some(repair) = repair_by(plan, live, cycle, id, record.bound)? {
            repairs.push(repair)?;
        }
    }
    Ok(repairs)
}

// The repair by a record; none where the others have no schedule, as where the cycle has no link of the record.
fn repair_by<A: Allocator + Copy>(
    plan: &SitePlan<A>,
    live: &[(Id, Record)],
    cycle: &[Link],
    id: Id,
    bound: Bound,
) -> Result<Option<Repair>, Memory>
    requires named { All (NamesEvents (events_of plan.now.source)) (bounds_of live.now) }
    requires negative { IsNegativeCycle (base_bounds plan.now.source ++ bounds_of live.now) cycle.now }
    requires bound_named { NamesEvents (events_of plan.now.source) bound }
    ensures { IfOk result (λ found. MatchOption found (¬ HasSchedule (others (base_bounds plan.now.source) live.now id))
        (λ repair. IsRepair (others (base_bounds plan.now.source) live.now id) id bound repair)) }
{
    if !has_link_of(plan.base().bounds().len(), live, cycle, id) {
        return Ok(None);
    }
    let rest = without(plan.alloc(), live, id)?;
    let others = bounds_of(plan.alloc(), &rest)?;
    repair_over(plan, &others, id, bound)
}

// The same, by the bounds of the other records.
fn repair_over<A: Allocator + Copy>(
    plan: &SitePlan<A>,
    others: &[Bound],
    id: Id,
    bound: Bound,
) -> Result<Option<Repair>, Memory>
    requires named { All (NamesEvents (events_of plan.now.source)) others.now }
    requires bound_named { NamesEvents (events_of plan.now.source) bound }
    ensures { IfOk result (λ found. MatchOption found (¬ HasSchedule (base_bounds plan.now.source ++ others.now))
        (λ repair. IsRepair (base_bounds plan.now.source ++ others.now) id bound repair)) }
{
    let from = bound.from();
    let to = bound.to();
    let base = plan.base();
    match distances(plan.alloc(), base.events(), base.bounds(), others, from)? {
        Some(found) => {
            let place = usize::from(to.number());
            Ok(Some(Repair {
                id,
                from,
                to,
                least: -found.to[place],
                greatest: found.from[place],
            }))
        }
        None => Ok(None),
    }
}

// Whether one of the links, whose places are those of so many bounds of a plan and then of the records, is of the record
// with this id.
fn has_link_of(count: usize, live: &[(Id, Record)], links: &[Link], id: Id) -> bool
    requires { All (λ link. link.place < count + length live.now) links.now }
    ensures { IsTrue result ↔ Any (IsLinkOf count live.now id) links.now }
{
    for link in links {
        if is_link_of(count, live, *link, id) {
            return true;
        }
    }
    false
}

fn is_link_of(count: usize, live: &[(Id, Record)], link: Link, id: Id) -> bool
    requires { link.place < count + length live.now }
    ensures { IsTrue result ↔ IsLinkOf count live.now id link }
{
    link.place >= count && live[link.place - count].0 == id
}
