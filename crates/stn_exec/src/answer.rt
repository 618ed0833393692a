ghost use Rattle.std.specs.Prelude.{◌≡◌, ◌++◌, OnOk, OnErr};
ghost use Rattle.stn_exec.specs.Answer.{answer_text};

use std::alloc::Allocator;
use stn_command::Made;
use stn_site::{Piece, append_pieces};
use stn_time::Memory;

/// What a command that is no query answers.
#[derive(Clone, Copy)]
pub enum Answer {
    /// What a change made.
    Changed(Made),
    /// The site took in what the other holds.
    Merged,
    /// The packet of this number was sent.
    Sent(u16),
    /// The site took in what the packet holds.
    Delivered,
}

impl Answer {
    /// Appends the printed line. If memory runs out, it appends nothing.
    pub fn print<A: Allocator>(&self, out: &mut Vec<u8, A>) -> Result<(), Memory>
        ensures printed { OnOk result (out.new.items ≡ out.old.items ++ answer_text self.now) }
        ensures kept { OnErr result (out.new.items ≡ out.old.items) }
    {
        match self {
            Answer::Changed(made) => made.print(out),
            Answer::Merged => out.extend_from_slice(b"merged\n"),
            Answer::Sent(number) => append_pieces(
                out,
                &[
                    Piece::Text(b"packet "),
                    Piece::Number(*number),
                    Piece::Text(b"\n"),
                ],
            ),
            Answer::Delivered => out.extend_from_slice(b"delivered\n"),
        }
    }
}
