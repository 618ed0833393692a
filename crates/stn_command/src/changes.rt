//! What is told of changes of what a site holds.

ghost use Rattle.std.specs.Prelude.{◌≡◌, ◌++◌, OnOk, OnErr};
ghost use Rattle.stn_site.specs.Lines.{line};
ghost use Rattle.stn_records.specs.Id.{id_text};
ghost use Rattle.stn_command.specs.Change.{made_by, made_text};

use std::alloc::Allocator;
use stn_records::Id;
use stn_site::{BoundName, Change, Piece, append_pieces};
use stn_time::Memory;

/// What a change made.
#[derive(Clone, Copy)]
pub enum Made {
    /// The record of this id.
    Added(Id),
    /// The record of this id, in place of another.
    Amended(Id),
    /// The withdrawal of this id.
    Withdrawn(Id),
}

impl Made {
    /// What a change made, where this is the id of the record that it added.
    pub fn of(asked: &Change, id: Id) -> Made
        ensures { result ≡ made_by asked.now id }
    {
        match *asked {
            Change::Add(_) | Change::Done(..) => Made::Added(id),
            Change::Amend(..) => Made::Amended(id),
            Change::Withdraw(gone) => Made::Withdrawn(gone),
        }
    }

    /// Appends the printed line. If memory runs out, it appends nothing.
    pub fn print<A: Allocator>(&self, out: &mut Vec<u8, A>) -> Result<(), Memory>
        ensures printed { OnOk result (out.new.items ≡ out.old.items ++ made_text self.now) }
        ensures kept { OnErr result (out.new.items ≡ out.old.items) }
    {
        match self {
            Made::Added(id) => append_id_line(out, b"added ", *id),
            Made::Amended(id) => append_id_line(out, b"amended ", *id),
            Made::Withdrawn(id) => append_id_line(out, b"withdrawn ", *id),
        }
    }
}

// Appends a line of these words and the id's printed form; nothing if memory runs out.
fn append_id_line<A: Allocator>(out: &mut Vec<u8, A>, words: &[u8], id: Id) -> Result<(), Memory>
    ensures printed { OnOk result (out.new.items ≡ out.old.items ++ line (words.now ++ id_text id)) }
    ensures kept { OnErr result (out.new.items ≡ out.old.items) }
{
    append_pieces(
        out,
        &[
            Piece::Text(words),
            Piece::Bound(BoundName::Record(id)),
            Piece::Text(b"\n"),
        ],
    )
}
