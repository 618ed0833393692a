//! The lines of a text, with their numbers.

ghost use Rattle.std.specs.Prelude.{◌≡◌, ◌-◌, ◌^◌, ◌<◌, ◌∷◌, [], length, MatchOption};
ghost use Rattle.stn_lift.specs.Plan.Lines.{lines_of};

use std::marker::Model;
use stn_text::first_line;

/// The lines of a text that are still to come, with their numbers.
#[derive(Drop)]
pub struct Lines<'a> {
    rest: &'a [u8],
    number: u32,
}

impl<'a> Model for Lines<'a> {
    ghost use Rattle.std.specs.Prelude.{ℕ, List, ◌+◌, ◌^◌, ◌<◌, length};
    ghost use Rattle.stn_lift.specs.Plan.Lines.{lines_from};

    ghost Value = { List (ℕ × List ℕ) };

    ghost view = { λ l. lines_from l.number l.rest.now };

    ghost invariant = { λ l. l.number + length l.rest.now + 1 < 2 ^ 32 };
}

impl<'a> Lines<'a> {
    /// The lines of the text.
    pub fn new(text: &'a [u8]) -> Lines<'a>
        requires { length text.now < 2 ^ 32 - 2 }
        ensures { result ≡ lines_of text.now }
    {
        Lines {
            rest: text,
            number: 1,
        }
    }

    /// Takes the next line off the text, with its number.
    pub fn next_line(&mut self) -> Option<(u32, &'a [u8])>
        ensures { MatchOption result (self.old ≡ []) (λ line. self.old ≡ (line.0, line.1.now) ∷ self.new) }
    {
        if self.rest.is_empty() {
            return None;
        }
        let (line, behind) = first_line(self.rest);
        let number = self.number;
        self.rest = behind;
        self.number += 1;
        Some((number, line))
    }
}
