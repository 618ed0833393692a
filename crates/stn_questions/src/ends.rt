ghost use Rattle.std.specs.Prelude.{◌≡◌, ◌<◌, ◌≤◌, ◌++◌, neg_ℤ, length, codes, All, IfOk, OnOk, MatchOption};
ghost use Rattle.stn_time.specs.{Text.printed, Time.IsWithinHorizon};
ghost use Rattle.stn_net.specs.Schedule.{HasSchedule};
ghost use Rattle.stn_lift.specs.PlanSource.{events_of};
ghost use Rattle.stn_site.specs.{Bounds.all_bounds, Lines.line};
ghost use Rattle.stn_questions.specs.Why.{HoldEnds, ends_text};

use std::alloc::Allocator;
use stn_conflict::{BothWays, both_ways};
use stn_net::Event;
use stn_site::{SitePlan, append_link_lines};
use stn_time::{Memory, Ms};

// The ways that hold the least and the greatest time from one event to another: from `to` to `from`, and back; none where all
// bounds have no schedule.
pub fn ends_of<A: Allocator + Copy>(
    plan: &SitePlan<A>,
    from: Event,
    to: Event,
) -> Result<Option<BothWays<A>>, Memory>
    requires from { from ≤ events_of plan.now.source }
    requires to { to ≤ events_of plan.now.source }
    ensures { IfOk result (λ found. MatchOption found (¬ HasSchedule (all_bounds plan.now.source plan.now.state))
        (HoldEnds plan.now.source plan.now.state from to)) }
{
    let live = plan.live_bounds()?;
    let base = plan.base();
    both_ways(plan.alloc(), base.events(), base.bounds(), &live, to, from)
}

// The least and the greatest time that the ways hold.
pub fn times_of<A: Allocator>(ends: &BothWays<A>) -> (Ms, Ms)
    requires onward { IsWithinHorizon ends.now.onward.sum }
    requires back { IsWithinHorizon ends.now.back.sum }
    ensures { (result.0 ≡ neg_ℤ ends.now.onward.sum) × (result.1 ≡ ends.now.back.sum) }
{
    let least = Ms::new(-ends.onward.sum).unwrap();
    let greatest = Ms::new(ends.back.sum).unwrap();
    (least, greatest)
}

// Appends both ends: of each its time after its word, and then the lines of the links of the way that holds it.
pub fn append_ends<A: Allocator + Copy>(
    plan: &SitePlan<A>,
    least_word: &[u8],
    greatest_word: &[u8],
    ends: &BothWays<A>,
    out: &mut Vec<u8, A>,
) -> Result<(), Memory>
    requires least { IsWithinHorizon ends.now.onward.sum }
    requires greatest { IsWithinHorizon ends.now.back.sum }
    requires onward { All (λ link. link.place < length (all_bounds plan.now.source plan.now.state)) ends.now.onward.links.items }
    requires back { All (λ link. link.place < length (all_bounds plan.now.source plan.now.state)) ends.now.back.links.items }
    ensures { OnOk result (out.new.items ≡ out.old.items
        ++ ends_text plan.now.source plan.now.state least_word.now greatest_word.now ends.now) }
{
    let (least, greatest) = times_of(ends);
    let base = plan.base().bounds();
    let ids = plan.live_ids()?;
    let others = plan.live_bounds()?;
    append_time(out, least_word, least)?;
    append_link_lines(base, &ids, &others, &ends.onward.links, out)?;
    append_time(out, greatest_word, greatest)?;
    append_link_lines(base, &ids, &others, &ends.back.links, out)
}

// Appends the line of a time after a word.
fn append_time<B: Allocator>(out: &mut Vec<u8, B>, word: &[u8], time: Ms) -> Result<(), Memory>
    ensures { OnOk result (out.new.items ≡ out.old.items ++ line (word.now ++ codes " " ++ printed time)) }
{
    out.extend_from_slice(word)?;
    out.extend_from_slice(b" ")?;
    time.print(out)?;
    out.extend_from_slice(b"\n")
}
