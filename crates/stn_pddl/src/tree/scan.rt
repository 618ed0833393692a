//! The first fault of the bytes of a text.

ghost use Rattle.std.specs.Prelude.{◌≡◌, ◌^◌, ◌-◌, ◌<◌, length, false, Ok, Err, MatchResult, IfOk};
ghost use Rattle.stn_pddl.specs.Tree.Scan as spec;
ghost use Rattle.stn_pddl.specs.Tree.{Scan.{tree_of, IsOneList}, Cursors.row_at};

use crate::tree::bytes::{Kind, comment_after, kind_in, line_after};
use crate::tree::cursor::Cursor;
use stn_text::is_too_long;
use thiserror::Error;

// How many brackets are open at once at most.
const MOST_DEPTH: u8 = 32;

/// Why the bytes of a text are not one tree: the first fault from left to right.
#[derive(Clone, Copy, Debug, PartialEq, Eq, Error)]
pub enum TreeFault {
    /// The text has more than 65,536 bytes.
    #[error("the text is too long")]
    TooLong,
    /// On this line a byte may not stand, or the text ends too early.
    #[error("syntax on line {0}")]
    Syntax(u32),
    /// On this line a bracket opens inside 32 open ones.
    #[error("too many open brackets on line {0}")]
    TooDeep(u32),
}

/// Where a place of a text lies: before its tree, inside as many open brackets, or after the tree.
#[derive(Clone, Copy)]
pub enum Place {
    Before,
    Inside(u8),
    After,
}

fn place_after_open(line: u32, place: Place) -> Result<Place, TreeFault>
    ensures { result ≡ spec.place_after_open line place }
{
    match place {
        Place::Before => Ok(Place::Inside(1)),
        Place::Inside(depth) if depth < MOST_DEPTH => Ok(Place::Inside(depth + 1)),
        Place::Inside(_) => Err(TreeFault::TooDeep(line)),
        Place::After => Err(TreeFault::Syntax(line)),
    }
}

fn place_after_close(line: u32, place: Place) -> Result<Place, TreeFault>
    ensures { result ≡ spec.place_after_close line place }
{
    match place {
        Place::Inside(depth) if 1 < depth => Ok(Place::Inside(depth - 1)),
        Place::Inside(_) => Ok(Place::After),
        Place::Before | Place::After => Err(TreeFault::Syntax(line)),
    }
}

/// The place after a byte of a kind, or the fault that the byte is there.
#[tactic(auto, unfolding(crate::specs::Tree::Scan::place_after))]
fn place_after(kind: Kind, line: u32, place: Place) -> Result<Place, TreeFault>
    ensures { result ≡ spec.place_after kind line place }
{
    match kind {
        Kind::Blank => Ok(place),
        Kind::Open => place_after_open(line, place),
        Kind::Close => place_after_close(line, place),
        Kind::Letter => match place {
            Place::Inside(_) => Ok(place),
            Place::Before | Place::After => Err(TreeFault::Syntax(line)),
        },
        Kind::Stray => Err(TreeFault::Syntax(line)),
    }
}

#[tactic(auto, unfolding(crate::specs::Tree::Scan::scanned))]
fn scan(text: &[u8]) -> Result<Place, TreeFault>
    requires { length text.now < 2 ^ 32 - 1 }
    ensures { result ≡ spec.scanned false 1 Place.Before text.now }
{
    let mut comment = false;
    let mut line = 1;
    let mut place = Place::Before;
    for &byte in text {
        place = place_after(kind_in(comment, byte), line, place)?;
        comment = comment_after(comment, byte);
        line = line_after(line, byte);
    }
    match place {
        Place::After => Ok(place),
        Place::Before | Place::Inside(_) => Err(TreeFault::Syntax(line)),
    }
}

/// The place before the one tree of a text, or the first fault of its bytes: `TooLong` if it has more than 65,536 bytes, else the first
/// `Syntax` or `TooDeep` from left to right.
#[tactic(auto, unfolding(crate::specs::Tree::Scan::tree_of))]
pub fn start(text: &[u8]) -> Result<Cursor<'_>, TreeFault>
    ensures tree { MatchResult result (λ cursor. tree_of text.now ≡ Ok (row_at cursor)) (λ fault. tree_of text.now ≡ Err fault) }
    ensures one { IfOk result (λ cursor. IsOneList (row_at cursor)) }
{
    if is_too_long(text) {
        return Err(TreeFault::TooLong);
    }
    scan(text)?;
    Ok(Cursor::new(text))
}
