//! What is drawn of a plan that has a schedule.
ghost use Rattle.std.specs.Prelude.{◌≡◌, ◌+◌, map, IfOk, MatchOption};
ghost use Rattle.stn_net.specs.Schedule.{HasSchedule};
ghost use Rattle.stn_site.specs.{Bounds.{all_bounds, live_bounds}, Report.done_events};
ghost use Rattle.stn_chart.specs.{Chart.{chart_of, seen_look}, Drawn.IsPlanPicture, Frame.plan_text};

use crate::floors::{Drawn, drawn_at};
use crate::holders::holders_in;
use crate::look::{Chart, Look};
use crate::places::{LINE_LEFT, LINE_WIDTH, row_top};
use crate::tables::{axis_reach, rows_in};
use std::alloc::Allocator;
use stn_drawing::Axis;
use stn_site::SitePlan;
use stn_time::Memory;

/// The chart of a plan: a row for each step, with its soonest and its latest times on one axis; none exactly where all
/// bounds have no schedule. It depends on how it is drawn, on the names, on the plan and on the state alone.
pub fn chart_text<'x, A: Allocator + Copy>(
    plan: &SitePlan<A>,
    look: &'x Look<'x>,
    names: &'x [Vec<u8, A>],
) -> Result<Option<Vec<u8, A>>, Memory>
    ensures { IfOk result (λ found. MatchOption found (¬ HasSchedule (all_bounds plan.now.source plan.now.state))
        (λ text. IsPlanPicture (seen_look look.now) (map (λ name. name.items) names.now) plan.now.source plan.now.state text.items)) }
{
    match drawn_at(plan, look)? {
        Some(drawn) => {
            let text = text_of(plan, look, names, &drawn)?;
            Ok(Some(text))
        }
        None => Ok(None),
    }
}

// The chart of a plan with these windows.
fn text_of<'x, A: Allocator + Copy>(
    plan: &SitePlan<A>,
    look: &'x Look<'x>,
    names: &'x [Vec<u8, A>],
    drawn: &'x Drawn<A>,
) -> Result<Vec<u8, A>, Memory>
    ensures { IfOk result (λ text. text.items
        ≡ plan_text (chart_of (seen_look look.now) (map (λ name. name.items) names.now) plan.now.source plan.now.state drawn.now.windows.items drawn.now.overdue)) }
{
    let base = plan.base();
    let steps = base.steps();
    let live = plan.live_bounds()?;
    let done = done_events(plan)?;
    let rows = rows_in(plan.alloc(), &drawn.windows, steps)?;
    let holders = holders_in(plan.alloc(), &drawn.windows, steps, base.bounds(), &live)?;
    let far = axis_reach(&drawn.windows, base.events(), look.present);
    let bottom = row_top(u64::from(steps));
    let chart = Chart {
        look,
        names,
        steps,
        windows: &drawn.windows,
        done: &done,
        rows: &rows,
        holders: &holders,
        overdue: drawn.overdue,
        axis: Axis::reaching(LINE_LEFT, LINE_WIDTH, 0, far, bottom),
    };
    let mut text = Vec::new(plan.alloc());
    chart.append(&mut text)?;
    Ok(text)
}

// For the origin and each event, whether a live record says that it is done.
fn done_events<A: Allocator + Copy>(plan: &SitePlan<A>) -> Result<Vec<bool, A>, Memory>
    ensures { IfOk result (λ done. done.items ≡ done_events plan.now.source plan.now.state) }
{
    let flags = plan.done_flags();
    let mut done = Vec::new(plan.alloc());
    for event in 0..plan.base().events() + 1 {
        done.push(flags[usize::from(event)])?;
    }
    Ok(done)
}
