//! What an accepted change leaves that people may not expect.

ghost use Rattle.std.specs.Prelude.{◌≡◌, ◌↔◌, ◌++◌, true, nat_le, IfOk, OnOk};
ghost use Rattle.stn_command.specs.Words.{event_of, id_of};
ghost use Rattle.stn_logs.specs.Hints as spec;
ghost use Rattle.stn_logs.specs.Hints.{AreHints, IsHinted, LeavesNone};

use crate::keeping::Kept;
use std::alloc::Allocator;
use stn_command::{read_event, read_id};
use stn_line::{Line, LogChange};
use stn_records::{Mark, Record, Records};
use stn_refusal::Failure;
use stn_site::{Piece, SitePlan, append_pieces};
use stn_store::Store;
use stn_time::Memory;

/// What people may not expect of a change that was accepted. A word is given as it was written.
#[derive(Clone, Copy, Debug, PartialEq, Eq)]
pub enum Hint<'a> {
    /// The bound has no side, so it demands nothing.
    NoSide,
    /// The record of this id, which was replaced, said that an event was done. It no longer counts.
    NotDone(&'a str),
    /// More than one record that counts says that this event is done.
    DoneTwice(&'a str),
    /// The bounds have no schedule.
    NoSchedule,
}

/// The line of the hints of a command that was done, by what its log says now; nothing, if there is none. What the log says is kept. It
/// fails where the log can't be opened, or for memory.
pub fn hints_of<S: Store<A>, A: Allocator + Copy>(
    alloc: A,
    store: &S,
    kept: &mut Kept<A>,
    line: &Line<'_>,
) -> Result<Vec<u8, A>, Failure>
    ensures { IfOk result (λ text. IsHinted (S.entries store.now) line.now text.items) }
{
    match line {
        Line::Change(log, change) => {
            let known = kept.caught_up(store, log)?;
            let text = text_of_change(alloc, known.plan(), change);
            kept.keep(known);
            Ok(text?)
        }
        Line::Run
        | Line::Make(..)
        | Line::Ask(..)
        | Line::Explain { .. }
        | Line::Shell { .. }
        | Line::Serve { .. }
        | Line::Send { .. } => Ok(Vec::new(alloc)),
    }
}

// The line of the hints of a change that left this copy of the plan.
fn text_of_change<A: Allocator + Copy>(
    alloc: A,
    plan: &SitePlan<A>,
    change: &LogChange<'_>,
) -> Result<Vec<u8, A>, Memory>
    ensures { IfOk result (λ text. spec.IsHintText change.now plan.now text.items) }
{
    let hints = hints_of_change(alloc, plan, change)?;
    let mut text = Vec::new(alloc);
    append_hints(&hints, &mut text)?;
    Ok(text)
}

// The hints of a change that left this copy of the plan, in their order.
fn hints_of_change<'a, A: Allocator + Copy>(
    alloc: A,
    plan: &SitePlan<A>,
    change: &LogChange<'a>,
) -> Result<Vec<Hint<'a>, A>, Memory>
    ensures { IfOk result (λ hints. AreHints change.now plan.now hints.items) }
{
    let mut hints = Vec::new(alloc);
    push_of_words(plan.records(), change, &mut hints)?;
    push_where(leaves_none(plan, change)?, Hint::NoSchedule, &mut hints)?;
    Ok(hints)
}

// Appends the hints of a change that left these records.
fn push_of_words<'a, A: Allocator + Copy>(
    records: &Records<A>,
    change: &LogChange<'a>,
    hints: &mut Vec<Hint<'a>, A>,
) -> Result<(), Memory>
    ensures { OnOk result (hints.new.items ≡ hints.old.items ++ spec.hints_of_words change.now records.now) }
{
    match change {
        LogChange::Add { lo, hi, .. } => push_where(is_sideless(*lo, *hi), Hint::NoSide, hints),
        LogChange::Amend { id, lo, hi, .. } => {
            push_where(is_sideless(*lo, *hi), Hint::NoSide, hints)?;
            push_where(was_done(records, *id), Hint::NotDone(*id), hints)
        }
        LogChange::Done { event, .. } => {
            push_where(
                is_done_twice(records, *event),
                Hint::DoneTwice(*event),
                hints,
            )
        }
        LogChange::Withdraw { .. } | LogChange::Merge { .. } | LogChange::Guard { .. } => Ok(()),
    }
}

// Appends a hint, where it is so.
fn push_where<'a, A: Allocator>(
    so: bool,
    hint: Hint<'a>,
    hints: &mut Vec<Hint<'a>, A>,
) -> Result<(), Memory>
    ensures { OnOk result (hints.new.items ≡ hints.old.items ++ spec.hint_where so hint.entry) }
{
    if so {
        hints.push(hint)?;
    }
    Ok(())
}

// Whether a bound of these words has no side.
fn is_sideless(lo: Option<&str>, hi: Option<&str>) -> bool
    ensures { result ≡ spec.is_sideless lo.entry hi.entry }
{
    lo.is_none() && hi.is_none()
}

// Whether the record of a word's id says that an event was done.
fn was_done<A: Allocator + Copy>(records: &Records<A>, word: &str) -> bool
    ensures { result ≡ spec.was_done records.now (id_of word.now) }
{
    match read_id(word.as_bytes()) {
        Some(id) => is_of_done(records.state().additions().get(id)),
        None => false,
    }
}

// Whether a record that is there says that an event was done.
fn is_of_done(found: Option<Record>) -> bool
    ensures { result ≡ spec.is_of_done found }
{
    match found {
        Some(one) => one.mark == Mark::Done,
        None => false,
    }
}

// Whether more than one live record says that the event of a word is done.
fn is_done_twice<A: Allocator + Copy>(records: &Records<A>, word: &str) -> bool
    ensures { result ≡ spec.is_done_twice records.now (event_of word.now) }
{
    match read_event(word.as_bytes()) {
        Some(event) => has_two(records, event.number()),
        None => false,
    }
}

// Whether more than one live record says that an event is done.
fn has_two<A: Allocator + Copy>(records: &Records<A>, event: u16) -> bool
    ensures { result ≡ nat_le 2 (spec.done_count records.now event) }
{
    let mut once = false;
    for (_, one) in records.live_records() {
        if is_of(one, event) {
            if once {
                return true;
            }
            once = true;
        }
    }
    false
}

// Whether a record says that an event is done.
fn is_of(one: Record, event: u16) -> bool
    ensures { result ≡ spec.is_done_of event one }
{
    one.mark == Mark::Done && one.bound.to().number() == event
}

// Whether no schedule is left after a change that may leave none.
fn leaves_none<A: Allocator + Copy>(
    plan: &SitePlan<A>,
    change: &LogChange<'_>,
) -> Result<bool, Memory>
    ensures { IfOk result (λ none. none ≡ true ↔ LeavesNone change.now plan.now) }
{
    match change {
        LogChange::Add { .. }
        | LogChange::Amend { .. }
        | LogChange::Done { .. }
        | LogChange::Merge { .. } => Ok(plan.windows()?.is_none()),
        LogChange::Withdraw { .. } | LogChange::Guard { .. } => Ok(false),
    }
}

// Appends the line of hints; nothing, where there is none.
fn append_hints<A: Allocator>(hints: &[Hint<'_>], out: &mut Vec<u8, A>) -> Result<(), Memory>
    ensures { OnOk result (out.new.items ≡ out.old.items ++ spec.hints_text hints.now) }
{
    match hints.split_first() {
        Some((first, more)) => {
            append_hint(b"hint: ", *first, out)?;
            append_more(more, out)?;
            out.extend_from_slice(b"\n")
        }
        None => Ok(()),
    }
}

// Appends hints, each after a semicolon.
fn append_more<A: Allocator>(hints: &[Hint<'_>], out: &mut Vec<u8, A>) -> Result<(), Memory>
    ensures { OnOk result (out.new.items ≡ out.old.items ++ spec.more_text hints.now) }
{
    for hint in hints {
        append_hint(b"; ", *hint, out)?;
    }
    Ok(())
}

// Appends a front and what a hint says.
fn append_hint<A: Allocator>(
    front: &[u8],
    hint: Hint<'_>,
    out: &mut Vec<u8, A>,
) -> Result<(), Memory>
    ensures { OnOk result (out.new.items ≡ out.old.items ++ (front.now ++ spec.hint_text hint.entry)) }
{
    let (word, rest) = hint_parts(hint);
    append_pieces(
        out,
        &[Piece::Text(front), Piece::Text(word), Piece::Text(rest)],
    )
}

// What a hint says: the word that it begins with, and the rest.
fn hint_parts(hint: Hint<'_>) -> (&[u8], &[u8])
    ensures { result.0.now ++ result.1.now ≡ spec.hint_text hint.entry }
{
    match hint {
        Hint::NoSide => (b"", b"the bound has no side, so it demands nothing"),
        Hint::NotDone(id) => (
            id.as_bytes(),
            b" said that an event was done, which no longer counts",
        ),
        Hint::DoneTwice(event) => (event.as_bytes(), b" is recorded as done twice"),
        Hint::NoSchedule => (b"", b"no schedule is left (see repairs)"),
    }
}
