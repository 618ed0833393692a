//! What the windows of a plan's events say.
ghost use Rattle.std.specs.{Prelude.{◌≡◌, ◌+◌, ◌<◌, ◌≤◌, ◌^◌, map, IfOk}, List.range_with_len};
ghost use Rattle.stn_site.specs.Windows.{window_at};
ghost use Rattle.stn_chart.specs.Chart.{start_of, end_of, soonest_in, latest_in, is_open_in, is_above, row_in, moment_of, reach, furthest, axis_reach};

use std::alloc::Allocator;
use stn_time::{Memory, Ms};

// The milliseconds of half a year.
const HALF_YEAR: u64 = 182 * 86_400_000 + 43_200_000;

/// The event at which a step starts.
pub fn start_of(step: u16) -> usize
    ensures { result ≡ start_of step }
{
    (2 * usize::from(step)).saturating_sub(1)
}

/// The event at which it ends.
pub fn end_of(step: u16) -> usize
    ensures { result ≡ end_of step }
{
    2 * usize::from(step)
}

/// The window of an event.
pub fn window_at(windows: &[(Ms, Ms)], event: usize) -> (Ms, Ms)
    ensures { result ≡ window_at windows.now event }
{
    let none = Ms::new(0).unwrap();
    windows.get(event).copied().unwrap_or((none, none))
}

/// The soonest time of an event, in milliseconds.
pub fn soonest_in(windows: &[(Ms, Ms)], event: usize) -> u64
    ensures value { result ≡ soonest_in windows.now event }
    ensures small { result < 2 ^ 40 }
{
    window_at(windows, event).0.get().unsigned_abs()
}

/// The latest time of an event.
pub fn latest_in(windows: &[(Ms, Ms)], event: usize) -> u64
    ensures value { result ≡ latest_in windows.now event }
    ensures small { result < 2 ^ 40 }
{
    window_at(windows, event).1.get().unsigned_abs()
}

/// Whether an event has no latest time: it may come later than at the soonest, and later than half a year.
pub fn is_open_in(windows: &[(Ms, Ms)], event: usize) -> bool
    ensures { result ≡ is_open_in windows.now event }
{
    HALF_YEAR.max(soonest_in(windows, event)) < latest_in(windows, event)
}

// Whether another step stands above a step: it starts sooner, or as soon and has the lesser number.
fn is_above(windows: &[(Ms, Ms)], step: u16, other: u16) -> bool
    ensures { result ≡ is_above windows.now step other }
{
    let first = soonest_in(windows, start_of(other));
    let second = soonest_in(windows, start_of(step));
    first < second || (first == second && other < step)
}

// The row of a step, of so many.
fn row_in(windows: &[(Ms, Ms)], steps: u16, step: u16) -> u16
    requires { steps < 2 ^ 15 }
    ensures { result ≡ row_in windows.now steps step }
{
    let mut row = 0;
    for before in 0..steps {
        row += u16::from(is_above(windows, step, before + 1));
    }
    row
}

/// The row of each step.
pub fn rows_in<A: Allocator>(
    alloc: A,
    windows: &[(Ms, Ms)],
    steps: u16,
) -> Result<Vec<u16, A>, Memory>
    requires { steps < 2 ^ 15 }
    ensures { IfOk result (λ rows. rows.items ≡ map (row_in windows.now steps) (range_with_len 0 (steps + 1))) }
{
    let mut rows = Vec::new(alloc);
    for step in 0..steps + 1 {
        rows.push(row_in(windows, steps, step))?;
    }
    Ok(rows)
}

/// The present in milliseconds.
pub fn moment_of(now: Option<Ms>) -> u64
    ensures value { result ≡ moment_of now }
    ensures small { result < 2 ^ 40 }
{
    match now {
        Some(now) => now.get().max(0).unsigned_abs(),
        None => 0,
    }
}

// How far the axis has to reach for an event.
fn reach(windows: &[(Ms, Ms)], event: usize) -> u64
    ensures value { result ≡ reach windows.now event }
    ensures small { result < 2 ^ 40 }
{
    if is_open_in(windows, event) {
        soonest_in(windows, event)
    } else {
        latest_in(windows, event)
    }
}

fn furthest(windows: &[(Ms, Ms)], events: u16) -> u64
    ensures value { result ≡ furthest windows.now events }
    ensures small { result < 2 ^ 40 }
{
    let mut last = 0;
    for before in 0..events {
        last = last.max(reach(windows, usize::from(before) + 1));
    }
    last
}

/// How far the axis reaches: past the times of so many events, and past the present.
pub fn axis_reach(windows: &[(Ms, Ms)], events: u16, now: Option<Ms>) -> u64
    ensures value { result ≡ axis_reach windows.now events now }
    ensures some { 1 ≤ result }
    ensures small { result < 2 ^ 41 }
{
    furthest(windows, events).max(moment_of(now)) + 1
}
