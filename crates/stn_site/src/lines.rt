ghost use Rattle.std.specs.Prelude.{◌≡◌, ◌+◌, ◌^◌, ◌<◌, ◌≤◌, ◌++◌, codes, length, OnOk, OnErr};
ghost use Rattle.stn_site.specs.{Lines.{done_text, window_line, range_line, conflict_line, side_text, side_limit, link_line}, Names.name_in};
ghost use Rattle.stn_conflict.specs.Arcs.{bound_at};

use crate::names::BoundName;
use crate::pieces::{Piece, append_pieces};
use std::alloc::Allocator;
use stn_conflict::{Link, Side};
use stn_net::{Bound, Event};
use stn_records::Id;
use stn_time::{Memory, Ms};

/// The most bytes of a line.
pub const MOST_LINE: usize = 64;

/// Appends the line of an event's window. If memory runs out, it appends nothing.
pub fn append_window_line<B: Allocator>(
    out: &mut Vec<u8, B>,
    event: Event,
    earliest: Ms,
    latest: Ms,
    done: bool,
) -> Result<(), Memory>
    ensures line { OnOk result (out.new.items ≡ out.old.items ++ window_line event earliest latest done) }
    ensures short { OnOk result (length out.new.items ≤ length out.old.items + MOST_LINE) }
    ensures kept { OnErr result (out.new.items ≡ out.old.items) }
{
    append_pieces(
        out,
        &[
            Piece::Event(event),
            Piece::Text(b" "),
            Piece::Time(earliest),
            Piece::Text(b" "),
            Piece::Time(latest),
            Piece::Text(done_text(done)),
            Piece::Text(b"\n"),
        ],
    )
}

/// Appends the line of two events and the least and the greatest time from the one to the other. If memory runs out, it
/// appends nothing.
pub fn append_range_line<B: Allocator>(
    out: &mut Vec<u8, B>,
    from: Event,
    to: Event,
    least: Ms,
    greatest: Ms,
) -> Result<(), Memory>
    ensures line { OnOk result (out.new.items ≡ out.old.items ++ range_line from to least greatest) }
    ensures kept { OnErr result (out.new.items ≡ out.old.items) }
{
    append_pieces(
        out,
        &[
            Piece::Event(from),
            Piece::Text(b" "),
            Piece::Event(to),
            Piece::Text(b" "),
            Piece::Time(least),
            Piece::Text(b" "),
            Piece::Time(greatest),
            Piece::Text(b"\n"),
        ],
    )
}

fn done_text(done: bool) -> &'static [u8]
    ensures { result.now ≡ done_text done }
{
    if done { b" done" } else { b"" }
}

pub fn append_conflict_line<B: Allocator>(out: &mut Vec<u8, B>, sum: i64) -> Result<(), Memory>
    ensures line { OnOk result (out.new.items ≡ out.old.items ++ conflict_line sum) }
    ensures short { OnOk result (length out.new.items ≤ length out.old.items + MOST_LINE) }
{
    append_pieces(
        out,
        &[
            Piece::Text(b"conflict "),
            Piece::Sum(sum),
            Piece::Text(b"\n"),
        ],
    )
}

// The line of a link, whose place is one of the plan's bounds followed by the others.
pub fn append_link_line<B: Allocator>(
    out: &mut Vec<u8, B>,
    base: &[Bound],
    ids: &[Id],
    others: &[Bound],
    link: Link,
) -> Result<(), Memory>
    requires there { link.place < length base.now + length others.now }
    requires few { length base.now < 2 ^ 32 }
    requires one_each { length ids.now ≡ length others.now }
    ensures line { OnOk result (out.new.items ≡ out.old.items ++ link_line base.now ids.now others.now link) }
    ensures short { OnOk result (length out.new.items ≤ length out.old.items + MOST_LINE) }
    ensures kept { OnErr result (out.new.items ≡ out.old.items) }
{
    let bound = bound_at(base, others, link.place);
    append_pieces(
        out,
        &[
            Piece::Bound(bound_name(base, ids, link.place)),
            Piece::Text(side_text(link.side)),
            Piece::Event(bound.from()),
            Piece::Text(b" "),
            Piece::Event(bound.to()),
            Piece::Text(b" "),
            Piece::Time(limit_of(bound, link.side)),
            Piece::Text(b"\n"),
        ],
    )
}

/// The name of the bound at a place of the plan's bounds followed by the others, whose ids these are.
pub fn bound_name(base: &[Bound], ids: &[Id], place: usize) -> BoundName
    requires there { place < length base.now + length ids.now }
    requires few { length base.now < 2 ^ 32 }
    ensures { result ≡ name_in base.now ids.now place }
{
    if place < base.len() {
        BoundName::Plan(place as u32 + 1)
    } else {
        BoundName::Record(ids[place - base.len()])
    }
}

/// The bound at a place of the plan's bounds followed by the others.
pub fn bound_at(base: &[Bound], others: &[Bound], place: usize) -> Bound
    requires { place < length base.now + length others.now }
    ensures { result ≡ bound_at (base.now ++ others.now) place }
{
    if place < base.len() {
        base[place]
    } else {
        others[place - base.len()]
    }
}

fn side_text(side: Side) -> &'static [u8]
    ensures { result.now ≡ codes " " ++ side_text side ++ codes " " }
{
    match side {
        Side::Upper => b" upper ",
        Side::Lower => b" lower ",
    }
}

fn limit_of(bound: Bound, side: Side) -> Ms
    ensures { result ≡ side_limit bound side }
{
    match side {
        Side::Upper => bound.hi(),
        Side::Lower => bound.lo(),
    }
}
