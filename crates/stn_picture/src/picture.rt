//! The picture of a plan as SVG.
ghost use Rattle.std.specs.Prelude.{◌≡◌, ◌++◌, ℕ, List, map, IfOk, OnOk, OnErr};
ghost use Rattle.stn_chart.specs.Chart.{seen_look};
ghost use Rattle.stn_picture.specs.Picture.{IsPicture};

use std::alloc::Allocator;
use stn_chart::{Look, chart_text};
use stn_site::SitePlan;
use stn_time::Memory;
use stn_walk::conflict_text;

/// Appends the picture of a plan as SVG: a row for each step, with its soonest and its latest times on one axis; where all
/// bounds have no schedule, a walk along the links of the conflict, with what mends it. It depends on how it is drawn, on the
/// names, on the plan and on the state alone. If memory runs out, it appends nothing.
pub fn print_picture<'x, A: Allocator + Copy, B: Allocator>(
    plan: &SitePlan<A>,
    look: &'x Look<'x>,
    names: &'x [Vec<u8, A>],
    out: &mut Vec<u8, B>,
) -> Result<(), Memory>
    ensures drawn { OnOk result ((text : List ℕ) × IsPicture (seen_look look.now) (map (λ name. name.items) names.now) plan.now.source plan.now.state text × (out.new.items ≡ out.old.items ++ text)) }
    ensures kept { OnErr result (out.new.items ≡ out.old.items) }
{
    let text = text_of(plan, look, names)?;
    out.extend_from_slice(&text)
}

fn text_of<'x, A: Allocator + Copy>(
    plan: &SitePlan<A>,
    look: &'x Look<'x>,
    names: &'x [Vec<u8, A>],
) -> Result<Vec<u8, A>, Memory>
    ensures { IfOk result (λ text. IsPicture (seen_look look.now) (map (λ name. name.items) names.now) plan.now.source plan.now.state text.items) }
{
    match chart_text(plan, look, names)? {
        Some(text) => Ok(text),
        None => conflict_text(plan, look.title, names),
    }
}
