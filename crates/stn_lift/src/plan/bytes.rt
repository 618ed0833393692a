//! What the bytes of a plan text are.

ghost use Rattle.std.specs.Prelude.{◌≡◌};
ghost use Rattle.stn_lift.specs.Plan.Bytes as spec;

use stn_text::{begins_comment, is_space, is_visible};

/// A token of one byte.
#[derive(Clone, Copy)]
pub enum Mark {
    /// `:`, after the time of a step.
    Colon,
    /// `(`, before the action.
    Open,
    /// `)`, after the arguments.
    Close,
    /// `[`, before a duration.
    OpenSquare,
    /// `]`, after a duration.
    CloseSquare,
}

/// What a byte of a line is, outside comments.
#[derive(Clone, Copy)]
pub enum Kind {
    /// A space, a tab, or another blank.
    Space,
    /// The `;` that begins a comment.
    Comment,
    /// A token of one byte.
    Mark(Mark),
    /// A byte of a word.
    Letter,
    /// A byte that may stand in comments alone.
    Stray,
}

/// What a byte is, outside comments.
#[tactic(auto, unfolding(crate::specs::Plan::Bytes::kind_of))]
pub fn kind_of(byte: u8) -> Kind
    ensures { result ≡ spec.kind_of byte }
{
    match byte {
        b':' => Kind::Mark(Mark::Colon),
        b'(' => Kind::Mark(Mark::Open),
        b')' => Kind::Mark(Mark::Close),
        b'[' => Kind::Mark(Mark::OpenSquare),
        b']' => Kind::Mark(Mark::CloseSquare),
        _ if begins_comment(byte) => Kind::Comment,
        _ if is_space(byte) => Kind::Space,
        _ if is_visible(byte) => Kind::Letter,
        _ => Kind::Stray,
    }
}
