ghost use Rattle.std.specs.Prelude.{◌≡◌, ◌≤◌, length, All, IfOk, IfErr};
ghost use Rattle.stn_net.specs.Difference.{NamesEvents};
ghost use Rattle.stn_refusal.specs.declared.code.Code.TheVariants.{Full};
ghost use Rattle.stn_lift.specs.PlanSource.{events_of, IsSoundSource};
ghost use Rattle.stn_records.specs.Content.{most_known};
ghost use Rattle.stn_loosen.specs.{Loosened.{bounds_with, AreLoosened, AreTooMany}, Asked.{AreRecords, Keep, IsAskedFailure}, Faults.IsRefusedFor};

use crate::making::Making;
use crate::nearest::nearest_first;
use crate::parts::durations_of;
use crate::promise::make_robust;
use crate::tolerance::Tolerance;
use std::alloc::Allocator;
use stn_lift::Base;
use stn_net::Bound;
use stn_refusal::Failure;

/// The records of the loosened plan, in the order in which they are made: the durations of all steps, with the tolerance, and then
/// those of the plan's orders, nearest planned times first, that the bare plan and the records before them don't imply.
///
/// Where it is to be robust, those of the robust plan: after these come bounds on the starts of its steps, under which it completes
/// however long the steps take. They are the sides of its orders and of its horizon, moved from ends to starts, that the records before
/// them don't imply.
///
/// Refused in this order: `Full`, where the loosened plan would have more than 4,096 records; where it is to be robust, `NotRobust`, where
/// no times of the starts are a promise, and then `Full`, where the robust plan would have more than 4,096 records. `Memory` may come in
/// place of any answer.
pub fn loosened<A: Allocator + Copy>(
    alloc: A,
    base: &Base<A>,
    tolerance: Tolerance,
    robust: bool,
) -> Result<Vec<Bound, A>, Failure>
    ensures records { IfOk result (λ records. AreRecords robust base.now tolerance records.items) }
    ensures few { IfOk result (λ records. length records.items ≤ most_known) }
    ensures named { IfOk result (λ records. All (NamesEvents (events_of base.now)) records.items) }
    ensures keep { IfOk result (λ records. Keep robust base.now tolerance (bounds_with base.now records.items)) }
    ensures refused { IfErr result (IsAskedFailure robust base.now tolerance) }
{
    let making = make_loosened(alloc, base, tolerance)?;
    if robust {
        make_robust(alloc, base, tolerance, making)
    } else {
        Ok(making.into_records())
    }
}

// The records of the loosened plan, with the matrix of their bounds.
fn make_loosened<A: Allocator + Copy>(
    alloc: A,
    base: &Base<A>,
    tolerance: Tolerance,
) -> Result<Making<A>, Failure>
    ensures sound { IfOk result (λ making. IsSoundSource base.now) }
    ensures records { IfOk result (λ making. AreLoosened base.now tolerance making.records) }
    ensures events { IfOk result (λ making. making.events ≡ events_of base.now) }
    ensures fault { IfErr result (IsRefusedFor Full (AreTooMany base.now tolerance)) }
{
    let mut making = Making::new(alloc, base.events())?;
    making.make_durations(durations_of(base), tolerance)?;
    let orders = nearest_first(alloc, base)?;
    making.make_orders(&orders)?;
    Ok(making)
}
