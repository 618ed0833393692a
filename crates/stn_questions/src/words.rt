//! What the words of queries ask.
ghost use Rattle.std.specs.Prelude.{◌≡◌, bytes_eq};
ghost use Rattle.stn_questions.specs.Words.{outlook_of};
ghost use Rattle.stn_questions.specs.Words as asked;

use crate::asked::Question;

/// What is asked of the events that are left.
#[derive(Clone, Copy, PartialEq, Eq)]
pub enum Outlook {
    /// What comes next.
    Next,
    /// Which of them may run.
    Ready,
    /// How the rest runs.
    Rehearse,
}

/// What a word asks alone, of a site's plan and what it holds.
#[derive(Clone, Copy)]
pub enum LoneQuery {
    /// The report.
    Report,
    /// The answer to a question.
    Ask(Question),
    /// What mends a conflict.
    Repairs,
}

/// What a word asks of all events that are left, or of chosen ones.
pub fn read_outlook(word: &[u8]) -> Option<Outlook>
    ensures { result ≡ outlook_of word.now }
{
    if is_named(word, b"next") {
        Some(Outlook::Next)
    } else if is_named(word, b"ready") {
        Some(Outlook::Ready)
    } else if is_named(word, b"rehearse") {
        Some(Outlook::Rehearse)
    } else {
        None
    }
}

/// The query that a word asks alone.
pub fn lone_query(word: &[u8]) -> Option<LoneQuery>
    ensures { result ≡ asked.lone_query word.now }
{
    if is_named(word, b"report") {
        Some(LoneQuery::Report)
    } else if is_named(word, b"repairs") {
        Some(LoneQuery::Repairs)
    } else if is_named(word, b"records") {
        Some(LoneQuery::Ask(Question::Records))
    } else if is_named(word, b"steps") {
        Some(LoneQuery::Ask(Question::Steps))
    } else if is_named(word, b"bounds") {
        Some(LoneQuery::Ask(Question::Bounds))
    } else {
        None
    }
}

fn is_named(word: &[u8], name: &[u8]) -> bool
    ensures { result ≡ bytes_eq word.now name.now }
{
    word == name
}
