ghost use Rattle.std.specs.Prelude.{◌≡◌, ◌≢◌, ◌↔◌, ◌++◌, ◌⊎◌, ℕ, List, All, map, option_map, MatchOption, OnOk, IfOk, OnErr, IfErr, IsErrOf};
ghost use Rattle.stn_line.specs.Explanations.{Explained.{IsMeaning, IsMeant, AreMeanings, IsExplanation, IsExplained, NamesNothing}, Subjects.{subject_name, subject_word}, Table.IsInLines};
ghost use Rattle.stn_refusal.specs.{declared.code.Code.TheVariants.Line, Refusals.{refused_at, out_of_memory}};

use crate::explanations::subject::{Subject, fault_word};
use crate::explanations::table::{Entry, table};
use std::alloc::Allocator;
use stn_refusal::{Code, Failure};
use stn_text::{Memory, append_decimal};

/// Appends what a refusal (by its number) or a fault (by its word) means, and what to do about it; without a word, a line for each
/// of them.
///
/// Refused as a wrong command line (70, with 0) where the word names neither; else only memory can be lacking. Then nothing is appended.
pub fn print_explained<A: Allocator + Copy>(
    alloc: A,
    word: Option<&str>,
    out: &mut Vec<u8, A>,
) -> Result<(), Failure>
    ensures explained { OnOk result ((text : List ℕ) × IsExplained (option_map (λ word. word.now) word.entry) text × (out.new.items ≡ out.old.items ++ text)) }
    ensures unknown { IsErrOf result (refused_at Line 0) ↔ NamesNothing (option_map (λ word. word.now) word.entry) }
    ensures either { IfErr result (λ failure. (failure ≡ refused_at Line 0) ⊎ (failure ≡ out_of_memory)) }
    ensures kept { OnErr result (out.new.items ≡ out.old.items) }
{
    let entries = table();
    let mut text = Vec::new(alloc);
    match word {
        None => append_meanings(entries, &mut text)?,
        Some(word) => match entry_of(entries, word) {
            Some(entry) => append_explanation(entry, &mut text)?,
            None => return Err(Failure::refused_at(Code::Line, 0)),
        },
    }
    out.extend_from_slice(&text)?;
    Ok(())
}

/// The line that says what a refusal (by its number) or a fault (by its word) means; for a word that names neither, nothing.
pub fn meaning_of<A: Allocator>(alloc: A, word: &str) -> Result<Vec<u8, A>, Memory>
    ensures { IfOk result (λ text. IsMeant word.now text.items) }
{
    let entries = table();
    match entry_of(entries, word) {
        Some(entry) => line_of(alloc, entry),
        None => Ok(Vec::new(alloc)),
    }
}

// The line of a subject.
fn line_of<A: Allocator>(alloc: A, entry: &Entry) -> Result<Vec<u8, A>, Memory>
    requires { IsInLines entry.now }
    ensures { IfOk result (λ text. IsMeaning entry.now.subject text.items) }
{
    let mut text = Vec::new(alloc);
    append_meaning(entry, &mut text)?;
    Ok(text)
}

// The entry of the subject that a word names.
fn entry_of<'a>(entries: &'a [Entry], word: &str) -> Option<&'a Entry>
    requires { All IsInLines entries.now }
    ensures { MatchOption result (All (λ entry. word.now ≢ subject_word entry.subject) entries.now)
        (λ entry. IsInLines entry.now × (word.now ≡ subject_word entry.now.subject)) }
{
    for entry in entries {
        if entry.subject.has_name(word) {
            return Some(entry);
        }
    }
    None
}

// Appends a line for the subject of each entry.
fn append_meanings<A: Allocator>(entries: &[Entry], out: &mut Vec<u8, A>) -> Result<(), Memory>
    requires { All IsInLines entries.now }
    ensures { OnOk result ((text : List ℕ) × AreMeanings (map (λ entry. entry.subject) entries.now) text × (out.new.items ≡ out.old.items ++ text)) }
{
    for entry in entries {
        append_meaning(entry, out)?;
    }
    Ok(())
}

// Appends the line of a subject, and what more is said of it.
fn append_explanation<A: Allocator>(entry: &Entry, out: &mut Vec<u8, A>) -> Result<(), Memory>
    requires { IsInLines entry.now }
    ensures { OnOk result ((text : List ℕ) × IsExplanation entry.now.subject text × (out.new.items ≡ out.old.items ++ text)) }
{
    append_meaning(entry, out)?;
    out.extend_from_slice(entry.more.as_bytes())
}

// Appends the line of a subject.
fn append_meaning<A: Allocator>(entry: &Entry, out: &mut Vec<u8, A>) -> Result<(), Memory>
    requires { IsInLines entry.now }
    ensures { OnOk result ((text : List ℕ) × IsMeaning entry.now.subject text × (out.new.items ≡ out.old.items ++ text)) }
{
    append_name(entry.subject, out)?;
    out.extend_from_slice(b": ")?;
    out.extend_from_slice(entry.meaning.as_bytes())?;
    out.extend_from_slice(b"\n")
}

// Appends how the line of a subject begins.
fn append_name<A: Allocator>(subject: Subject, out: &mut Vec<u8, A>) -> Result<(), Memory>
    ensures { OnOk result (out.new.items ≡ out.old.items ++ subject_name subject) }
{
    match subject {
        Subject::Refusal(code) => append_decimal(out, b"refused ", u16::from(code.number())),
        Subject::Fault(fault) => {
            out.extend_from_slice(b"fault ")?;
            out.extend_from_slice(fault_word(fault))
        }
    }
}
