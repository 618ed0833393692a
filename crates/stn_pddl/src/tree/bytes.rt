//! What the bytes of a text are.

ghost use Rattle.std.specs.Prelude.{◌≡◌, ◌^◌, ◌-◌, ◌<◌};
ghost use Rattle.stn_pddl.specs.Tree.Bytes as spec;

use stn_text::{LINE_FEED, begins_comment, is_space, is_visible};

/// What a byte of a domain text stands for.
#[derive(Clone, Copy, PartialEq, Eq)]
pub enum Kind {
    /// A space, a semicolon, or any byte of a comment.
    Blank,
    /// The bracket that opens a list.
    Open,
    /// The bracket that closes a list.
    Close,
    /// A byte of a word: a printing one that is no bracket and no semicolon.
    Letter,
    /// A byte that may stand in comments alone.
    Stray,
}

/// The kind of a byte outside comments.
#[tactic(auto, unfolding(crate::specs::Tree::Bytes::kind_of))]
pub fn kind_of(byte: u8) -> Kind
    ensures { result ≡ spec.kind_of byte }
{
    if is_space(byte) || begins_comment(byte) {
        Kind::Blank
    } else if byte == b'(' {
        Kind::Open
    } else if byte == b')' {
        Kind::Close
    } else if is_visible(byte) {
        Kind::Letter
    } else {
        Kind::Stray
    }
}

/// The kind of a byte in a comment or outside.
pub fn kind_in(comment: bool, byte: u8) -> Kind
    ensures { result ≡ spec.kind_in comment byte }
{
    if comment { Kind::Blank } else { kind_of(byte) }
}

/// Whether a comment goes on after a byte.
#[tactic(auto, unfolding(crate::specs::Tree::Bytes::comment_after))]
pub fn comment_after(comment: bool, byte: u8) -> bool
    ensures { result ≡ spec.comment_after comment byte }
{
    byte != LINE_FEED && (comment || begins_comment(byte))
}

/// The line after a byte that stands on a line.
#[tactic(auto, unfolding(crate::specs::Tree::Bytes::line_after))]
pub fn line_after(line: u32, byte: u8) -> u32
    requires { line < 2 ^ 32 - 1 }
    ensures { result ≡ spec.line_after line byte }
{
    if byte == LINE_FEED { line + 1 } else { line }
}
