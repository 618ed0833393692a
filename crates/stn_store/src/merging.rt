//! What one site's copy of a plan takes in of another.

ghost use Rattle.std.specs.Prelude.{◌≡◌, ◌≢◌, None, OnOk, OnErr, IfErr, MatchResult};
ghost use Rattle.stn_site.specs.{Calls.{took, Leaves}, Refusals.take_refusal};
ghost use Rattle.stn_store.specs.Merging.{other_plan, IsMergeFailure};

use std::alloc::Allocator;
use stn_lift::Base;
use stn_refusal::{Code, Failure};
use stn_site::{SiteCopy, SitePlan};

/// Takes all that another copy of the same plan holds.
///
/// Refused as 60 where the plans differ, then as `SitePlan::take` refuses it. After a refusal or a fault all is as before.
pub fn take_in<A: Allocator + Copy, C: SiteCopy<A>>(
    copy: &mut C,
    other: &SitePlan<A>,
) -> Result<(), Failure>
    ensures same { OnOk result ((C.held copy.old).source ≡ other.now.source) }
    ensures left { OnOk result (Leaves (C.held copy.old) (took other.now.state) (C.held copy.new)) }
    ensures accepted { OnOk result (take_refusal (C.held copy.old) other.now.state ≡ None) }
    ensures refused { IfErr result (IsMergeFailure (C.held copy.old) other.now) }
    ensures kept { OnErr result (copy.new ≡ copy.old) }
{
    find_same(copy.plan().base(), other.base())?;
    copy.take(other.records())?;
    Ok(())
}

/// Finds that two plans are the same, byte for byte of what they are made from; refused as 60 where they are not.
pub fn find_same<A: Allocator>(ours: &Base<A>, theirs: &Base<A>) -> Result<(), Failure>
    ensures { MatchResult result (λ _. ours.now ≡ theirs.now) (λ failure. (ours.now ≢ theirs.now) × (failure ≡ other_plan)) }
{
    if ours.same(theirs) {
        Ok(())
    } else {
        Err(Failure::refused(Code::OtherPlan))
    }
}
