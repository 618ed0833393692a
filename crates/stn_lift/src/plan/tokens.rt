//! The tokens of a line.

ghost use Rattle.std.specs.{Prelude.{◌≡◌, ◌∷◌, ◌≤◌, ◌↔◌, [], length, IsTrue, MatchOption, IfNone}, List.prefix_len};
ghost use Rattle.stn_lift.specs.Plan.Tokens.{lexeme_of, tokens_of, is_word_byte};

use crate::plan::bytes::{Kind, Mark, kind_of};
use std::marker::Model;

/// A token of a line.
#[derive(Clone, Copy)]
pub enum Token<'a> {
    /// A longest run of letters.
    Word(&'a [u8]),
    /// A token of one byte.
    Mark(Mark),
    /// A byte that may stand in comments alone.
    Stray,
}

/// The tokens of a line that are still to come.
#[derive(Drop)]
pub struct Tokens<'a> {
    rest: &'a [u8],
}

impl<'a> Model for Tokens<'a> {
    ghost use Rattle.std.specs.Prelude.{List};
    ghost use Rattle.stn_lift.specs.Plan.Tokens.{Lexeme};

    ghost Value = { List Lexeme };

    ghost use Rattle.stn_lift.specs.Plan.Tokens.{tokens_of};

    ghost view = { λ t. tokens_of t.rest.now };
}

/// How many letters of a word the bytes begin with.
fn word_len(bytes: &[u8]) -> usize
    ensures letters { result ≡ prefix_len is_word_byte bytes.now }
    ensures within { result ≤ length bytes.now }
{
    bytes
        .iter()
        .take_while(|byte| matches!(kind_of(**byte), Kind::Letter))
        .count()
}

/// The first token of a line, and the bytes after it.
#[tactic(auto, using(crate::proofs::plan::TokenFacts::tokens_before), unfolding(crate::specs::Plan::Tokens::tokens_of))]
fn first_token(line: &[u8]) -> Option<(Token<'_>, &[u8])>
    ensures { MatchOption result (tokens_of line.now ≡ []) (λ found. tokens_of line.now ≡ lexeme_of found.0 ∷ tokens_of found.1.now) }
{
    let mut rest = line;
    while let Some((byte, behind)) = rest.split_first() {
        match kind_of(*byte) {
            Kind::Space => rest = behind,
            Kind::Comment => return None,
            Kind::Mark(mark) => return Some((Token::Mark(mark), behind)),
            Kind::Letter => {
                let (word, behind) = rest.split_at(word_len(rest));
                return Some((Token::Word(word), behind));
            }
            Kind::Stray => return Some((Token::Stray, behind)),
        }
    }
    None
}

impl<'a> Tokens<'a> {
    /// The tokens of the line.
    pub fn new(line: &'a [u8]) -> Tokens<'a>
        ensures { result ≡ tokens_of line.now }
    {
        Tokens { rest: line }
    }

    /// Whether no token is left.
    pub fn is_empty(&self) -> bool
        ensures { IsTrue result ↔ (self.now ≡ []) }
    {
        first_token(self.rest).is_none()
    }

    /// Takes the next token off the line.
    pub fn next_token(&mut self) -> Option<Token<'a>>
        ensures none { IfNone result (self.new ≡ []) }
        ensures taken { MatchOption result (self.old ≡ []) (λ token. self.old ≡ lexeme_of token ∷ self.new) }
    {
        let (token, behind) = first_token(self.rest)?;
        self.rest = behind;
        Some(token)
    }
}
