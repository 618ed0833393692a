ghost use Rattle.std.specs.Prelude.{◌≡◌, ◌≢◌, ◌≤◌, ◌-ℤ◌, ◌≤ℤ◌, [], ◌∷◌, All, OnOk};
ghost use Rattle.stn_net.specs.Difference.{NamesEvents};
ghost use Rattle.stn_time.specs.Time.{IsWithinHorizon};
ghost use Rattle.stn_guard.specs.{Owners.{owner_of, is_shared}, Making.{arcs_of, shared_arcs, split_time, window_bound}, Splitting.{CanSplit, HasOwners, LeavesTime, Splits}};

use std::alloc::Allocator;
use stn_conflict::Windows;
use stn_net::{Bound, Event};
use stn_records::Site;
use stn_time::{Memory, Ms};

// What a side of a bound says: `to` comes at most `weight` after `from`.
#[derive(Clone, Copy)]
pub(crate) struct Arc {
    pub from: Event,
    pub to: Event,
    pub weight: Ms,
}

// Splits each side of the shared bounds, one after the other.
pub(crate) fn split_shared<A: Allocator + Copy>(
    windows: &mut Windows<A>,
    bounds: &[Bound],
    owners: &[Site],
) -> Result<(), Memory>
    requires owned { All (HasOwners owners.now) bounds.now }
    requires can { CanSplit (shared_arcs (owner_of owners.now) bounds.now) windows.old }
    ensures { OnOk result (Splits (shared_arcs (owner_of owners.now) bounds.now) windows.old windows.new) }
{
    for bound in bounds {
        split_bound(windows, bound, owners)?;
    }
    Ok(())
}

// Splits each side of the bound, where it is shared.
fn split_bound<A: Allocator + Copy>(
    windows: &mut Windows<A>,
    bound: &Bound,
    owners: &[Site],
) -> Result<(), Memory>
    requires owned { HasOwners owners.now bound.now }
    requires can { CanSplit (shared_arcs (owner_of owners.now) (bound.now ∷ [])) windows.old }
    ensures { OnOk result (Splits (shared_arcs (owner_of owners.now) (bound.now ∷ [])) windows.old windows.new) }
{
    if !is_shared(bound, owners) {
        return Ok(());
    }
    split_sides(windows, bound)
}

// Whether the bound is no site's own.
pub(crate) fn is_shared(bound: &Bound, owners: &[Site]) -> bool
    requires { HasOwners owners.now bound.now }
    ensures { result ≡ is_shared (owner_of owners.now) bound.now }
{
    bound.from() != Event::origin()
        && bound.to() != Event::origin()
        && owners[usize::from(bound.from().number())] != owners[usize::from(bound.to().number())]
}

// Splits both sides of the bound, the upper first.
fn split_sides<A: Allocator + Copy>(windows: &mut Windows<A>, bound: &Bound) -> Result<(), Memory>
    requires { CanSplit (arcs_of bound.now) windows.old }
    ensures { OnOk result (Splits (arcs_of bound.now) windows.old windows.new) }
{
    let upper = Arc {
        from: bound.from(),
        to: bound.to(),
        weight: bound.hi(),
    };
    let lower = Arc {
        from: bound.to(),
        to: bound.from(),
        weight: -bound.lo(),
    };
    split(windows, upper)?;
    split(windows, lower)
}

// Takes what splits the arc: nothing where the windows of its events imply it; else that `to` comes by a time in the
// middle, and `from` no earlier than `weight` before that.
fn split<A: Allocator + Copy>(windows: &mut Windows<A>, arc: Arc) -> Result<(), Memory>
    requires { CanSplit (arc ∷ []) windows.old }
    ensures { OnOk result (Splits (arc ∷ []) windows.old windows.new) }
{
    let from = windows.window(arc.from);
    let to = windows.window(arc.to);
    if to.1.get() - from.0.get() <= arc.weight.get() {
        return Ok(());
    }
    let (latest, earliest) = middle(&arc, &from, &to);
    let events = windows.events();
    windows.narrow(window_bound(events, arc.to, to.0, latest))?;
    windows.narrow(window_bound(events, arc.from, earliest, from.1))
}

// The time in the middle of those by which `to` may come, rounded down, and the time `weight` before it.
fn middle(arc: &Arc, from: &(Ms, Ms), to: &(Ms, Ms)) -> (Ms, Ms)
    requires { LeavesTime arc.now from.now to.now (split_time arc.now from.now to.now) }
    ensures latest { result.0 ≡ split_time arc.now from.now to.now }
    ensures earliest { result.1 ≡ split_time arc.now from.now to.now -ℤ arc.now.weight }
{
    let time = split_time(arc, from, to);
    (
        Ms::new(time).unwrap(),
        Ms::new(time - arc.weight.get()).unwrap(),
    )
}

// The first of these times.
fn split_time(arc: &Arc, from: &(Ms, Ms), to: &(Ms, Ms)) -> i64
    ensures time { result ≡ split_time arc.now from.now to.now }
    ensures from { IsWithinHorizon from.now.0 × IsWithinHorizon from.now.1 }
    ensures to { IsWithinHorizon to.now.0 × IsWithinHorizon to.now.1 }
{
    let weight = arc.weight.get();
    let least = to.0.get().max(from.0.get() + weight);
    let greatest = to.1.get().min(from.1.get() + weight);
    (least + greatest).div_euclid(2)
}

// The bound that the event comes from the one time to the other.
pub(crate) fn window_bound(events: u16, event: Event, earliest: Ms, latest: Ms) -> Bound
    requires beside { event ≢ 0 }
    requires within { event ≤ events }
    requires ordered { earliest ≤ℤ latest }
    ensures made { result ≡ window_bound event (earliest, latest) }
    ensures named { NamesEvents events result }
{
    Bound::new(events, Event::origin(), event, earliest, latest).unwrap()
}
