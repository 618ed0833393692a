//! The orders of a plan, nearest planned times first.

ghost use Rattle.std.specs.Prelude.{◌≡◌, IfOk, OnOk};
ghost use Rattle.stn_time.specs.Time.{IsWithinHorizon};
ghost use Rattle.stn_net.specs.Schedule.{times_of};
ghost use Rattle.stn_lift.specs.PlanSource.{planned_of};
ghost use Rattle.stn_loosen.specs.Loosened.{orders_of, gap, AreNearestFirst};

use crate::parts::orders_of;
use std::alloc::Allocator;
use stn_lift::Base;
use stn_net::{Bound, Event};
use stn_time::{Memory, Ms};

/// The orders of the plan, nearest planned times first; those that are as near stay in their order.
pub fn nearest_first<A: Allocator + Copy>(alloc: A, base: &Base<A>) -> Result<Vec<Bound, A>, Memory>
    ensures { IfOk result (λ sorted. AreNearestFirst (planned_of base.now) (orders_of base.now) sorted.items) }
{
    let planned = planned_times(alloc, base)?;
    let mut orders = Vec::from_slice(alloc, orders_of(base))?;
    sort_by_gap(&planned, &mut orders)?;
    Ok(orders)
}

// The planned times of all events by number, the origin's first.
fn planned_times<A: Allocator + Copy>(alloc: A, base: &Base<A>) -> Result<Vec<Ms, A>, Memory>
    ensures { IfOk result (λ times. times_of times.items ≡ planned_of base.now) }
{
    let mut times = Vec::new(alloc);
    for number in 0..base.events() + 1 {
        let event = Event::new(number).unwrap();
        times.push(base.planned(event))?;
    }
    Ok(times)
}

// Sorts orders by how far apart their events are planned.
fn sort_by_gap<A: Allocator + Copy>(
    planned: &[Ms],
    orders: &mut Vec<Bound, A>,
) -> Result<(), Memory>
    ensures { OnOk result (AreNearestFirst (times_of planned.now) orders.old.items orders.new.items) }
{
    orders.sort_by_key(|order| gap(planned, order))?;
    Ok(())
}

// How long after the first event of an order its second one is planned.
fn gap(planned: &[Ms], order: &Bound) -> i64
    ensures { result ≡ gap (times_of planned.now) order.now }
{
    time_of(planned, order.to()) - time_of(planned, order.from())
}

// The planned time of an event; 0 where there is none.
fn time_of(planned: &[Ms], event: Event) -> i64
    ensures value { result ≡ times_of planned.now event }
    ensures within { IsWithinHorizon result }
{
    match planned.get(usize::from(event.number())) {
        Some(time) => time.get(),
        None => 0,
    }
}
