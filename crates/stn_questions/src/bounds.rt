ghost use Rattle.std.specs.{Prelude.{◌≡◌, ◌+◌, ◌^◌, ◌<◌, ◌++◌, length, codes, IfOk, OnOk, OnErr}, List.{flat_map, range_with_len}};
ghost use Rattle.stn_site.specs.{Names.name_text, Pieces.piece_text};
ghost use Rattle.stn_questions.specs.Bounds.{lower_text, upper_text, bound_text, listed_line, bounds_text};

use std::alloc::Allocator;
use stn_net::Bound;
use stn_records::Id;
use stn_site::{BoundName, Piece, SitePlan, append_pieces, bound_at, bound_name};
use stn_time::{HORIZON, Memory, Ms};

/// Appends a line for each of all bounds, the plan's own first and then those of the live records: its
/// name in reports, its events, and its sides, each a time or `*` where it is open. The bounds need no
/// schedule. If memory runs out, it appends nothing.
pub fn print_bounds<A: Allocator + Copy, B: Allocator>(
    plan: &SitePlan<A>,
    out: &mut Vec<u8, B>,
) -> Result<(), Memory>
    ensures printed { OnOk result (out.new.items ≡ out.old.items ++ bounds_text plan.now.source plan.now.state) }
    ensures kept { OnErr result (out.new.items ≡ out.old.items) }
{
    let text = text_of(plan)?;
    out.extend_from_slice(&text)
}

fn text_of<A: Allocator + Copy>(plan: &SitePlan<A>) -> Result<Vec<u8, A>, Memory>
    ensures { IfOk result (λ text. text.items ≡ bounds_text plan.now.source plan.now.state) }
{
    let ids = plan.live_ids()?;
    let others = plan.live_bounds()?;
    let mut text = Vec::new(plan.alloc());
    append_lines(plan.base().bounds(), &ids, &others, &mut text)?;
    Ok(text)
}

// Appends the lines of the plan's bounds followed by the others.
fn append_lines<B: Allocator>(
    base: &[Bound],
    ids: &[Id],
    others: &[Bound],
    out: &mut Vec<u8, B>,
) -> Result<(), Memory>
    requires few { length base.now < 2 ^ 32 }
    requires one_each { length ids.now ≡ length others.now }
    ensures { OnOk result (out.new.items ≡ out.old.items
        ++ flat_map (listed_line base.now ids.now others.now) (range_with_len 0 (length base.now + length others.now))) }
{
    for place in 0..base.len() + others.len() {
        let name = bound_name(base, ids, place);
        let bound = bound_at(base, others, place);
        append_named(out, name, bound, b"\n")?;
    }
    Ok(())
}

/// Appends a bound's name, its events and sides, as an addition reads them, and then the text. If memory
/// runs out, it appends nothing.
pub fn append_named<B: Allocator>(
    out: &mut Vec<u8, B>,
    name: BoundName,
    bound: Bound,
    rest: &[u8],
) -> Result<(), Memory>
    ensures { OnOk result (out.new.items ≡ out.old.items ++ (name_text name ++ codes " " ++ bound_text bound ++ rest.now)) }
{
    append_pieces(
        out,
        &[
            Piece::Bound(name),
            Piece::Text(b" "),
            Piece::Event(bound.from()),
            Piece::Text(b" "),
            Piece::Event(bound.to()),
            Piece::Text(b" "),
            lower(bound.lo()),
            Piece::Text(b" "),
            upper(bound.hi()),
            Piece::Text(rest),
        ],
    )
}

// The lower side.
fn lower(lo: Ms) -> Piece<'static>
    ensures { piece_text result ≡ lower_text lo }
{
    if lo == Ms::new(-HORIZON).unwrap() {
        Piece::Text(b"*")
    } else {
        Piece::Time(lo)
    }
}

// The upper side.
fn upper(hi: Ms) -> Piece<'static>
    ensures { piece_text result ≡ upper_text hi }
{
    if hi == Ms::new(HORIZON).unwrap() {
        Piece::Text(b"*")
    } else {
        Piece::Time(hi)
    }
}
