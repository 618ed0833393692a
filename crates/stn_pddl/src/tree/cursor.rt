//! A cursor over the trees of a text.

ghost use Rattle.std.specs.Prelude.{◌+◌, ◌-◌, ◌^◌, ◌<◌, length};

use crate::tree::bytes::{Kind, comment_after, kind_in, line_after};
use crate::tree::word::word_len;

/// A place of a text that lies outside words and comments: the bytes from there on, and the line that it is on.
#[derive(Clone, Copy, Debug)]
pub struct Cursor<'a> {
    rest: &'a [u8],
    line: u32,
    ghost in_range: { line + length rest.now < 2 ^ 32 },
}

/// The first tree of a row, or the row's end.
#[derive(Clone, Copy, Debug)]
pub enum Child<'a> {
    /// The row has ended, and the cursor stands after it.
    End(Cursor<'a>),
    /// A word on a line, and the cursor after it.
    Word(u32, &'a [u8], Cursor<'a>),
    /// A list on a line, and the cursor before its first child.
    Group(u32, Cursor<'a>),
}

impl<'a> Cursor<'a> {
    ghost use Rattle.std.specs.Prelude.{◌≡◌, ◌≤◌, ◌+◌, ◌-◌, ◌^◌, ◌<◌, false, length};
    ghost use Rattle.stn_pddl.specs.Tree.{Trees.{rows_from, how_many}, Cursors.{IsFirst, IsShorter, rows_at, row_at, behind_at, left_at}};

    /// The start of a text.
    #[tactic(auto, unfolding(crate::specs::Tree::Cursors::rows_at))]
    pub fn new(text: &'a [u8]) -> Cursor<'a>
        requires { length text.now < 2 ^ 32 - 1 }
        ensures { rows_at result ≡ rows_from false 1 text.now }
    {
        Cursor {
            rest: text,
            line: 1,
        }
    }

    /// The first tree of the row that goes on here, with the place after it or inside it; at the end of the row the place after
    /// the row.
    #[tactic(auto, unfolding(crate::specs::Tree::Cursors::rows_at, crate::specs::Tree::Cursors::left_at))]
    pub fn next_child(self) -> Child<'a>
        ensures first { IsFirst result (rows_at self.entry) }
        ensures shorter { IsShorter result (left_at self.entry) }
    {
        let mut comment = false;
        let mut line = self.line;
        for (index, &byte) in self.rest.iter().enumerate() {
            match kind_in(comment, byte) {
                Kind::Open => {
                    return Child::Group(
                        line,
                        Cursor {
                            rest: &self.rest[index + 1..],
                            line,
                        },
                    );
                }
                Kind::Close => {
                    return Child::End(Cursor {
                        rest: &self.rest[index + 1..],
                        line,
                    });
                }
                Kind::Letter => return Child::word_at(&self.rest[index..], line),
                Kind::Blank | Kind::Stray => {}
            }
            comment = comment_after(comment, byte);
            line = line_after(line, byte);
        }
        Child::End(Cursor { rest: &[], line })
    }

    /// The place after the row that goes on here.
    #[tactic(auto, unfolding(crate::proofs::tree::Cursors::further, crate::specs::Tree::Cursors::left_at))]
    pub fn skip(self) -> Cursor<'a>
        ensures behind { rows_at result ≡ behind_at self.entry }
        ensures shorter { left_at result ≤ left_at self.entry }
    {
        let mut cursor = self;
        let mut depth = 0usize;
        'rows: loop {
            match cursor.next_child() {
                Child::End(behind) if depth == 0 => return behind,
                Child::End(behind) => {
                    cursor = behind;
                    depth -= 1;
                }
                Child::Word(_, _, rest) => cursor = rest,
                Child::Group(_, inside) => {
                    cursor = inside;
                    depth += 1;
                }
            }
        }
    }

    /// How many trees the row that goes on here has.
    #[tactic(auto, unfolding(crate::specs::Tree::Cursors::left_at, crate::specs::Tree::Trees::how_many))]
    pub fn count_children(self) -> usize
        ensures { result ≡ how_many (row_at self.entry) }
    {
        let mut cursor = self;
        let mut count = 0;
        'children: loop {
            match cursor.next_child() {
                Child::End(_) => return count,
                Child::Word(_, _, rest) => {
                    cursor = rest;
                    count += 1;
                }
                Child::Group(_, inside) => {
                    cursor = inside.skip();
                    count += 1;
                }
            }
        }
    }
}

impl<'a> Child<'a> {
    ghost use Rattle.std.specs.Prelude.{◌≡◌, ◌+◌, ◌^◌, ◌<◌, true, false, length};
    ghost use Rattle.stn_pddl.specs.Tree.{Trees.{rows_from, begins_word}, Cursors.{IsFirst, IsShorter}};

    // The word at the front of these bytes.
    fn word_at(bytes: &'a [u8], line: u32) -> Child<'a>
        requires letter { begins_word bytes.now ≡ true }
        requires in_range { line + length bytes.now < 2 ^ 32 }
        ensures first { IsFirst result (rows_from false line bytes.now) }
        ensures shorter { IsShorter result (length bytes.now) }
    {
        let (word, rest) = bytes.split_at(word_len(bytes));
        Child::Word(line, word, Cursor { rest, line })
    }
}
