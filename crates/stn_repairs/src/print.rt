ghost use Rattle.std.specs.{Prelude.{◌≡◌, ◌++◌, ℕ, List, IfOk, OnOk, OnErr}, List.flat_map};
ghost use Rattle.stn_lift.specs.PlanSource.{base_bounds};
ghost use Rattle.stn_conflict.specs.Arcs.{IsNegativeCycle};
ghost use Rattle.stn_records.specs.Content.{live_of};
ghost use Rattle.stn_site.specs.Bounds.{all_bounds};
ghost use Rattle.stn_repairs.specs.{Repairs.AreRepairs, Text.{repair_line, drop_line, IsRepairsText}};

use crate::dropped::dropped_ids;
use crate::live::{bounds_of, live_records};
use crate::repair::Repair;
use crate::repairs::repairs_on;
use std::alloc::Allocator;
use stn_conflict::{Link, cycle};
use stn_records::Id;
use stn_site::{BoundName, Piece, SitePlan, append_pieces, append_range_line};
use stn_time::Memory;

/// Appends what mends a conflict: `ok` where all bounds have a schedule. Else a line for each live record
/// without which the others have one, in order of id, with the least and the greatest difference that the
/// others leave its two events; and then the ids of the records to drop. For these, the records that say
/// when an event was executed and then the other live records, each in order of id, are kept where the
/// plan's bounds and those kept so far have a schedule with them. It depends on the plan and the state
/// alone. If memory runs out, it appends nothing.
pub fn print_repairs<A: Allocator + Copy, B: Allocator>(
    plan: &SitePlan<A>,
    out: &mut Vec<u8, B>,
) -> Result<(), Memory>
    ensures printed { OnOk result ((text : List ℕ) × IsRepairsText plan.now.source plan.now.state text × (out.new.items ≡ out.old.items ++ text)) }
    ensures kept { OnErr result (out.new.items ≡ out.old.items) }
{
    let text = text_of(plan)?;
    out.extend_from_slice(&text)
}

/// The repairs by the live records, in order of id, where the links are a negative cycle of all bounds. It fails only if
/// memory runs out.
pub fn repairs_of<A: Allocator + Copy>(
    plan: &SitePlan<A>,
    cycle: &[Link],
) -> Result<Vec<Repair, A>, Memory>
    requires { IsNegativeCycle (all_bounds plan.now.source plan.now.state) cycle.now }
    ensures { IfOk result (λ repairs. AreRepairs (base_bounds plan.now.source) (live_of plan.now.state) (live_of plan.now.state) repairs.items) }
{
    let live = live_records(plan)?;
    repairs_on(plan, &live, cycle)
}

// What mends a conflict of the plan's bounds and those of the live records.
fn text_of<A: Allocator + Copy>(plan: &SitePlan<A>) -> Result<Vec<u8, A>, Memory>
    ensures { IfOk result (λ text. IsRepairsText plan.now.source plan.now.state text.items) }
{
    let live = live_records(plan)?;
    let others = bounds_of(plan.alloc(), &live)?;
    let base = plan.base();
    let Some(found) = cycle(plan.alloc(), base.events(), base.bounds(), &others)? else {
        return Vec::from_slice(plan.alloc(), b"ok\n");
    };
    let repairs = repairs_on(plan, &live, &found.links)?;
    let ids = dropped_ids(plan, &live)?;
    let mut text = Vec::new(plan.alloc());
    append_repairs(&repairs, &mut text)?;
    append_dropped(&ids, &mut text)?;
    Ok(text)
}

// Appends the line of each repair.
fn append_repairs<B: Allocator>(repairs: &[Repair], out: &mut Vec<u8, B>) -> Result<(), Memory>
    ensures { OnOk result (out.new.items ≡ out.old.items ++ flat_map repair_line repairs.now) }
{
    for repair in repairs {
        append_repair(*repair, out)?;
    }
    Ok(())
}

fn append_repair<B: Allocator>(repair: Repair, out: &mut Vec<u8, B>) -> Result<(), Memory>
    ensures { OnOk result (out.new.items ≡ out.old.items ++ repair_line repair) }
{
    append_pieces(
        out,
        &[
            Piece::Bound(BoundName::Record(repair.id)),
            Piece::Text(b" "),
        ],
    )?;
    append_range_line(out, repair.from, repair.to, repair.least, repair.greatest)
}

// Appends the line of the dropped records.
fn append_dropped<B: Allocator>(ids: &[Id], out: &mut Vec<u8, B>) -> Result<(), Memory>
    ensures { OnOk result (out.new.items ≡ out.old.items ++ drop_line ids.now) }
{
    out.extend_from_slice(b"drop")?;
    for id in ids {
        append_pieces(
            out,
            &[Piece::Text(b" "), Piece::Bound(BoundName::Record(*id))],
        )?;
    }
    out.extend_from_slice(b"\n")
}
