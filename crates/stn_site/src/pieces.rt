//! Texts made of pieces.

ghost use Rattle.std.specs.Prelude.{◌≡◌, ◌+◌, ◌≤◌, ◌++◌, length, sum_by, OnOk, OnErr};
ghost use Rattle.stn_site.specs.Pieces.{piece_text, pieces_text, most_of};

use crate::names::BoundName;
use std::alloc::Allocator;
use stn_net::{Event, MOST_EVENTS};
use stn_text::append_decimal;
use stn_time::{Memory, Ms, print_millis};

/// A piece of a text.
#[derive(Clone, Copy)]
pub enum Piece<'a> {
    /// These bytes.
    Text(&'a [u8]),
    /// A number, without leading zeros.
    Number(u16),
    /// The name of an event.
    Event(Event),
    /// The name of a bound.
    Bound(BoundName),
    /// A time, in seconds.
    Time(Ms),
    /// A sum of times: so many milliseconds, in seconds.
    Sum(i64),
}

/// Appends the pieces, one after the other. If memory runs out, it appends nothing.
pub fn append_pieces<A: Allocator>(out: &mut Vec<u8, A>, pieces: &[Piece<'_>]) -> Result<(), Memory>
    ensures text { OnOk result (out.new.items ≡ out.old.items ++ pieces_text pieces.now) }
    ensures short { OnOk result (length out.new.items ≤ length out.old.items + sum_by most_of pieces.now) }
    ensures kept { OnErr result (out.new.items ≡ out.old.items) }
{
    let before = out.len();
    for piece in pieces {
        if let Err(fault) = append_piece(out, piece) {
            out.truncate(before);
            return Err(fault);
        }
    }
    Ok(())
}

fn append_piece<A: Allocator>(out: &mut Vec<u8, A>, piece: &Piece<'_>) -> Result<(), Memory>
    ensures text { OnOk result (out.new.items ≡ out.old.items ++ piece_text piece.now) }
    ensures short { OnOk result (length out.new.items ≤ length out.old.items + most_of piece.now) }
    ensures kept { OnErr result (out.new.items ≡ out.old.items) }
{
    match piece {
        Piece::Text(bytes) => out.extend_from_slice(bytes),
        Piece::Number(number) => append_decimal(out, b"", *number),
        Piece::Event(event) => {
            prove!(event.number() <= MOST_EVENTS);
            event.print(out)
        }
        Piece::Bound(name) => name.print(out),
        Piece::Time(time) => time.print(out),
        Piece::Sum(sum) => print_millis(*sum, out),
    }
}
