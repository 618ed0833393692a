//! The bounds that a plan sets itself.

ghost use Rattle.std.specs.{Prelude.{◌≡◌, ◌≢◌, ◌+◌, ◌*◌, ◌<◌, ◌≤◌, ◌≤ℤ◌, ◌++◌, ◌&&◌, ◌==◌, not, nat_lt, length, map, pos, slice_index_or, IfOk, OnOk}, Ordering.int_cmp};
ghost use Rattle.stn_time.specs.Time.{IsWithinHorizon};
ghost use Rattle.stn_net.specs.{Event.{most_events, most_steps}, Horizon.horizon_bounds, Schedule.times_of};
ghost use Rattle.stn_lift.specs.{BaseBounds.{step_of, duration_bound, order_bound, pair_order, event_orders, orders, duration_bounds}, Timelines.{interfere_by_number, numbered_bounds, IsWholeTimeline}, Views.numbers_of};

use crate::timeline::Timeline;
use std::alloc::{AllocError, Allocator};
use std::cmp::Ordering;
use stn_net::{Bound, Event, MOST_EVENTS};
use stn_time::{HORIZON, Ms};

/// The horizon bound of each event but the origin, in order of number.
#[tactic(auto, unfolding(stn_net::specs::Horizon::horizon_bounds))]
pub fn horizon_bounds<A: Allocator>(alloc: A, events: u16) -> Result<Vec<Bound, A>, AllocError>
    requires { events ≤ most_events }
    ensures { IfOk result (λ bounds. bounds.items ≡ horizon_bounds events) }
{
    let mut bounds = Vec::with_capacity(alloc, usize::from(events))?;
    for before in 0..events {
        let event = Event::new(before + 1).unwrap();
        bounds.push(Bound::horizon(event))?;
    }
    Ok(bounds)
}

/// The step that an event starts or ends, counted from 1; 0 for the origin.
pub fn step_of(event: Event) -> u16
    ensures { result ≡ step_of event }
{
    (event.number() + 1) / 2
}

// The bound by which one event comes so long after another.
fn between(one: u16, other: u16, least: i64, most: i64) -> Bound
    requires one { one ≤ most_events }
    requires other { other ≤ most_events }
    requires apart { one ≢ other }
    requires least { IsWithinHorizon least }
    requires most { IsWithinHorizon most }
    requires order { least ≤ℤ most }
    ensures { result ≡ record { from = one; to = other; lo = least; hi = most } }
{
    let from = Event::new(one).unwrap();
    let to = Event::new(other).unwrap();
    let lo = Ms::new(least).unwrap();
    let hi = Ms::new(most).unwrap();
    Bound::new(MOST_EVENTS, from, to, lo, hi).unwrap()
}

// The bound of the duration of the step after so many others.
fn duration_bound(before: u16, duration: Ms) -> Bound
    requires { before < most_steps }
    ensures { result ≡ duration_bound before duration }
{
    let duration = duration.get();
    between(2 * before + 1, 2 * before + 2, duration, duration)
}

// By which two events that are planned at these times keep their order: one comes before the other, by 1 ms or more, or both
// come at one time.
fn order_bound(one: u16, other: u16, first: Ms, second: Ms) -> Bound
    requires one { one ≤ most_events }
    requires other { other ≤ most_events }
    requires apart { one ≢ other }
    ensures { result ≡ order_bound one other (int_cmp first second) }
{
    match first.cmp(&second) {
        Ordering::Less => between(one, other, 1, HORIZON),
        Ordering::Equal => between(one, other, 0, 0),
        Ordering::Greater => between(other, one, 1, HORIZON),
    }
}

// Appends the bounds of the durations of steps.
#[tactic(auto, unfolding(crate::specs::BaseBounds::duration_bounds))]
fn append_durations<A: Allocator>(
    durations: &[Ms],
    bounds: &mut Vec<Bound, A>,
) -> Result<(), AllocError>
    requires { length durations.now ≤ most_steps }
    ensures { OnOk result (bounds.new.items
        ≡ bounds.old.items ++ duration_bounds (λ before. slice_index_or durations.now before (pos 0)) (length durations.now)) }
{
    for (before, duration) in durations.iter().enumerate() {
        bounds.push(duration_bound(before as u16, *duration))?;
    }
    Ok(())
}

impl<A: Allocator + Copy> Timeline<A> {
    // Whether the first event has the smaller number, and the two are of different steps and interfere.
    fn are_ordered(&self, one: u16, other: u16) -> bool
        requires whole { IsWholeTimeline self.now.durations.items self.now.times.items (map numbers_of self.now.footprints.items) }
        requires one { one ≤ 2 * length self.now.durations.items }
        requires other { other ≤ 2 * length self.now.durations.items }
        ensures { result ≡ (nat_lt one other
            && (not (step_of one == step_of other) && interfere_by_number (map numbers_of self.now.footprints.items) one other)) }
    {
        one < other
            && one.div_ceil(2) != other.div_ceil(2)
            && self.footprints[usize::from(one)].interferes(&self.footprints[usize::from(other)])
    }

    // Appends the order of two events, where they have one.
    fn append_pair_order(
        &self,
        one: u16,
        other: u16,
        bounds: &mut Vec<Bound, A>,
    ) -> Result<(), AllocError>
        requires whole { IsWholeTimeline self.now.durations.items self.now.times.items (map numbers_of self.now.footprints.items) }
        requires one { one ≤ 2 * length self.now.durations.items }
        requires other { other ≤ 2 * length self.now.durations.items }
        ensures { OnOk result (bounds.new.items ≡ bounds.old.items
            ++ pair_order (interfere_by_number (map numbers_of self.now.footprints.items)) (times_of self.now.times.items) one other) }
    {
        if !self.are_ordered(one, other) {
            return Ok(());
        }
        let first = self.times[usize::from(one)];
        let second = self.times[usize::from(other)];
        bounds.push(order_bound(one, other, first, second))?;
        Ok(())
    }

    // Appends the orders of one event with all others.
    #[tactic(auto, unfolding(crate::specs::BaseBounds::event_orders))]
    fn append_event_orders(&self, one: u16, bounds: &mut Vec<Bound, A>) -> Result<(), AllocError>
        requires whole { IsWholeTimeline self.now.durations.items self.now.times.items (map numbers_of self.now.footprints.items) }
        requires one { one ≤ 2 * length self.now.durations.items }
        ensures { OnOk result (bounds.new.items ≡ bounds.old.items
            ++ event_orders (interfere_by_number (map numbers_of self.now.footprints.items)) (times_of self.now.times.items) one (2 * length self.now.durations.items)) }
    {
        for before in 0..2 * self.durations.len() as u16 {
            self.append_pair_order(one, before + 1, bounds)?;
        }
        Ok(())
    }

    // Appends the orders of all events.
    #[tactic(auto, unfolding(crate::specs::BaseBounds::orders))]
    fn append_orders(&self, bounds: &mut Vec<Bound, A>) -> Result<(), AllocError>
        requires { IsWholeTimeline self.now.durations.items self.now.times.items (map numbers_of self.now.footprints.items) }
        ensures { OnOk result (bounds.new.items ≡ bounds.old.items
            ++ orders (interfere_by_number (map numbers_of self.now.footprints.items)) (times_of self.now.times.items)
            (2 * length self.now.durations.items) (2 * length self.now.durations.items)) }
    {
        for before in 0..2 * self.durations.len() as u16 {
            self.append_event_orders(before + 1, bounds)?;
        }
        Ok(())
    }

    /// The bounds of the plan, in their order: the horizon of each event, the duration of each step, and the order of each pair of
    /// events of different steps that interfere.
    pub fn bounds(&self, alloc: A) -> Result<Vec<Bound, A>, AllocError>
        requires { IsWholeTimeline self.now.durations.items self.now.times.items (map numbers_of self.now.footprints.items) }
        ensures { IfOk result (λ bounds. bounds.items
            ≡ numbered_bounds self.now.durations.items self.now.times.items (map numbers_of self.now.footprints.items)) }
    {
        let mut bounds = horizon_bounds(alloc, 2 * self.durations.len() as u16)?;
        append_durations(&self.durations, &mut bounds)?;
        self.append_orders(&mut bounds)?;
        Ok(bounds)
    }
}
