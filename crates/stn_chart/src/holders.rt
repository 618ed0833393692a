//! The events that hold the starts of steps.
ghost use Rattle.std.specs.{Prelude.{◌≡◌, ℕ, ◌+◌, ◌<◌, ◌^◌, ◌++◌, ◌==◌, if◌then◌else◌, length, map, slice_index_or, None, IfOk}, List.range_with_len, Option.option_or};
ghost use Rattle.stn_chart.specs.Chart as table;
ghost use Rattle.stn_chart.specs.Chart.{start_of, is_of_another, held_by, holder_in};

use crate::parts::step_of;
use crate::tables::{start_of, window_at};
use std::alloc::Allocator;
use stn_net::Bound;
use stn_time::{Memory, Ms};

/// The event that holds the start of each step, from that of number 0 on, which there is not.
pub fn holders_in<A: Allocator>(
    alloc: A,
    windows: &[(Ms, Ms)],
    steps: u16,
    base: &[Bound],
    others: &[Bound],
) -> Result<Vec<Option<u16>, A>, Memory>
    requires { steps < 2 ^ 15 }
    ensures { IfOk result (λ holders. holders.items
        ≡ map (λ step. holder_in windows.now step (base.now ++ others.now)) (range_with_len 0 (steps + 1))) }
{
    let mut holders = vec![in alloc; None; usize::from(steps) + 1]?;
    note_holders(&mut holders, windows, base);
    note_holders(&mut holders, windows, others);
    Ok(holders)
}

// Notes for each step without a holder that of the first of the bounds that has one.
fn note_holders(holders: &mut [Option<u16>], windows: &[(Ms, Ms)], bounds: &[Bound])
    ensures one_each { length holders.new ≡ length holders.old }
    ensures first { (step : ℕ) → step < length holders.old → slice_index_or holders.new step None
        ≡ option_or (slice_index_or holders.old step None) (holder_in windows.now step bounds.now) }
{
    for bound in bounds {
        note_holder(holders, windows, bound.from().number(), *bound);
        note_holder(holders, windows, bound.to().number(), *bound);
    }
}

// Notes the holder that a bound has, where the event starts a step that has none.
fn note_holder(holders: &mut [Option<u16>], windows: &[(Ms, Ms)], event: u16, bound: Bound)
    ensures one_each { length holders.new ≡ length holders.old }
    ensures noted { (step : ℕ) → step < length holders.old → slice_index_or holders.new step None
        ≡ (if event == start_of step then option_or (slice_index_or holders.old step None) (held_by windows.now step bound) else slice_index_or holders.old step None) }
{
    let step = step_of(event);
    let place = usize::from(step);
    if start_of(step) == usize::from(event) && place < holders.len() && holders[place].is_none() {
        holders[place] = held_by(windows, step, bound);
    }
}

// The event of another step by whose time the bound holds the soonest start of a step.
fn held_by(windows: &[(Ms, Ms)], step: u16, bound: Bound) -> Option<u16>
    ensures { result ≡ held_by windows.now step bound }
{
    let (from, to) = (bound.from().number(), bound.to().number());
    let start = start_of(step);
    if usize::from(from) == start && is_of_another(step, to) && holds_upper(windows, start, bound) {
        Some(to)
    } else if usize::from(to) == start
        && is_of_another(step, from)
        && holds_lower(windows, start, bound)
    {
        Some(from)
    } else {
        None
    }
}

// Whether the event is one of another step, and not the origin.
fn is_of_another(step: u16, event: u16) -> bool
    ensures { result ≡ is_of_another step event }
{
    event != 0 && step_of(event) != step
}

// Whether the event comes as long before the end of the bound as its upper side allows.
fn holds_upper(windows: &[(Ms, Ms)], event: usize, bound: Bound) -> bool
    ensures { result ≡ table.holds_upper windows.now event bound }
{
    let other = window_at(windows, usize::from(bound.to().number())).0;
    other.get() - bound.hi().get() == window_at(windows, event).0.get()
}

// Whether it comes as soon after its beginning as its lower side asks.
fn holds_lower(windows: &[(Ms, Ms)], event: usize, bound: Bound) -> bool
    ensures { result ≡ table.holds_lower windows.now event bound }
{
    let other = window_at(windows, usize::from(bound.from().number())).0;
    other.get() + bound.lo().get() == window_at(windows, event).0.get()
}
