ghost use Rattle.std.specs.Prelude.{◌≡◌, ◌≤◌, true, length, All, IfOk, IfErr};
ghost use Rattle.stn_net.specs.Difference.{NamesEvents};
ghost use Rattle.stn_lift.specs.PlanSource.{events_of, IsSoundSource};
ghost use Rattle.stn_records.specs.Content.{most_known};
ghost use Rattle.stn_loosen.specs.{Loosened.{bounds_with, AreLoosened}, Robust.AreRobust, Asked.{KeepPromise, IsAskedFailure}};

use crate::making::{Making, Moving};
use crate::parts::{durations_of, horizon_of};
use crate::tolerance::Tolerance;
use std::alloc::Allocator;
use stn_lift::Base;
use stn_net::Bound;
use stn_records::MOST_KNOWN;
use stn_refusal::{Code, Failure};

/// The records of the robust plan: those of the loosened plan, and then the bounds on starts.
///
/// Refused in this order: `NotRobust`, where no times of the starts are a promise; `Full`, where there would be more than 4,096.
/// `Memory` may come in place of any answer.
pub fn make_robust<A: Allocator + Copy>(
    alloc: A,
    base: &Base<A>,
    tolerance: Tolerance,
    making: Making<A>,
) -> Result<Vec<Bound, A>, Failure>
    requires sound { IsSoundSource base.now }
    requires loosened { AreLoosened base.now tolerance making.records }
    requires events { making.events ≡ events_of base.now }
    ensures records { IfOk result (λ records. AreRobust base.now tolerance records.items) }
    ensures few { IfOk result (λ records. length records.items ≤ most_known) }
    ensures named { IfOk result (λ records. All (NamesEvents (events_of base.now)) records.items) }
    ensures keep { IfOk result (λ records. KeepPromise base.now tolerance (bounds_with base.now records.items)) }
    ensures refused { IfErr result (IsAskedFailure true base.now tolerance) }
{
    let steps = durations_of(base).len();
    let loosened = making.records();
    let durations = Vec::from_slice(alloc, &loosened[..steps])?;
    let mut bounds = Vec::from_slice(alloc, &loosened[steps..])?;
    bounds.extend_from_slice(horizon_of(base))?;
    let moving = Moving::after(alloc, making, horizon_of(base))?;
    let records = moving.with_moved(&durations, &bounds)?;
    if records.len() > MOST_KNOWN {
        return Err(Failure::refused(Code::Full));
    }
    Ok(records)
}
