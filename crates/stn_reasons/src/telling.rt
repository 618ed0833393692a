ghost use Rattle.std.specs.Prelude.{◌≡◌, ◌++◌, IfOk, OnOk, OnErr, decimal};
ghost use Rattle.stn_site.specs.Pieces.{pieces_text};
ghost use Rattle.stn_reasons.specs.Reasons.{absent_text, missing_text, no_event_of};
ghost use Rattle.stn_reasons.specs.Told as spec;

use itoa::Buffer;
use std::alloc::Allocator;
use stn_asked::{Form, RefusedWord};
use stn_refusal::{Code, Failure};
use stn_site::{Piece, append_pieces};
use stn_text::append_decimal;
use stn_time::Memory;

/// Appends the line for a word that refuses its command: the word, and what it is instead of what it should be. An event of the
/// plan is one of so many steps, where that is known. If memory runs out, it appends nothing.
pub fn append_refused_word<A: Allocator + Copy>(
    alloc: A,
    refused: &RefusedWord<'_>,
    steps: Option<u16>,
    out: &mut Vec<u8, A>,
) -> Result<(), Memory>
    ensures told { OnOk result (out.new.items ≡ out.old.items ++ spec.word_text steps refused.now) }
    ensures kept { OnErr result (out.new.items ≡ out.old.items) }
{
    let mut line = Vec::new(alloc);
    line.extend_from_slice(refused.word.as_bytes())?;
    line.extend_from_slice(b": ")?;
    append_form(refused, steps, &mut line)?;
    line.extend_from_slice(b"\n")?;
    out.extend_from_slice(&line)
}

/// Appends the line for an event that a plan of so many steps lacks, or that never takes place. If memory runs out, a part of it may
/// stand there.
pub fn append_absent<A: Allocator>(
    word: &str,
    steps: u16,
    out: &mut Vec<u8, A>,
) -> Result<(), Memory>
    ensures { OnOk result (out.new.items ≡ out.old.items ++ absent_text steps word.now) }
{
    if word == "z" {
        out.extend_from_slice(b"z: the origin, which is never done\n")
    } else {
        append_missing(word, Some(steps), out)
    }
}

// Appends the line for an event that a plan of so many steps lacks.
fn append_missing<A: Allocator>(
    word: &str,
    steps: Option<u16>,
    out: &mut Vec<u8, A>,
) -> Result<(), Memory>
    ensures { OnOk result (out.new.items ≡ out.old.items ++ missing_text steps word.now) }
{
    out.extend_from_slice(word.as_bytes())?;
    append_no_event_of(steps, out)
}

// Appends that a word is no event of a plan of so many steps.
fn append_no_event_of<A: Allocator>(steps: Option<u16>, out: &mut Vec<u8, A>) -> Result<(), Memory>
    ensures { OnOk result (out.new.items ≡ out.old.items ++ no_event_of steps) }
{
    out.extend_from_slice(b": not an event of the plan (")?;
    append_events(steps, out)?;
    out.extend_from_slice(b")\n")
}

/// Appends the line for times of which there are too many or too few, one for each event. If memory runs out, it appends
/// nothing.
pub fn append_counts<A: Allocator + Copy>(
    alloc: A,
    times: usize,
    events: usize,
    out: &mut Vec<u8, A>,
) -> Result<(), Memory>
    ensures told { OnOk result (out.new.items ≡ out.old.items ++ spec.times_count_text times events) }
    ensures kept { OnErr result (out.new.items ≡ out.old.items) }
{
    let mut of_times = Buffer::new();
    let mut of_events = Buffer::new();
    let line = text_of(
        alloc,
        &[
            Piece::Text(of_times.format(times).as_bytes()),
            Piece::Text(b" times for "),
            Piece::Text(of_events.format(events).as_bytes()),
            Piece::Text(b" events\n"),
        ],
    )?;
    out.extend_from_slice(&line)
}

// Appends what a word is instead of what it should be.
fn append_form<A: Allocator>(
    refused: &RefusedWord<'_>,
    steps: Option<u16>,
    out: &mut Vec<u8, A>,
) -> Result<(), Memory>
    ensures { OnOk result (out.new.items ≡ out.old.items ++ spec.form_text steps refused.now.word.now refused.now.form refused.now.failure) }
{
    match refused.form {
        Form::Event => {
            out.extend_from_slice(b"not an event (")?;
            append_events(steps, out)?;
            out.extend_from_slice(b")")
        }
        Form::Id => out.extend_from_slice(id_text(refused.word)),
        Form::Time => out.extend_from_slice(time_text(refused.word, refused.failure)),
        Form::Tolerance => out.extend_from_slice(b"a tolerance below 0"),
        Form::Steps => out.extend_from_slice(b"not steps (as 2,4-6)"),
        Form::Owned => out.extend_from_slice(
            b"not a site and its steps (as 2:4-6), or a step that is given already",
        ),
        Form::YesNo => out.extend_from_slice(b"neither yes nor no"),
    }
}

// What a word that should be an id is instead.
fn id_text(word: &str) -> &'static [u8]
    ensures { result.now ≡ spec.id_reason word.now }
{
    if word.as_bytes().starts_with(b"plan.") {
        b"a bound of the plan, which stays (records have ids, as 1.2)"
    } else {
        b"not an id (as 1.2)"
    }
}

// What a word that should be a time is instead.
fn time_text(word: &str, failure: Failure) -> &'static [u8]
    ensures { result.now ≡ spec.time_reason word.now failure }
{
    match failure.code() {
        Some(code) if code == Code::TooFine.number() => b"finer than a millisecond (0.001)",
        Some(code) if code == Code::OutOfRange.number() => {
            b"more than a year from the origin (31536000 seconds)"
        }
        _ => untimely(word),
    }
}

// What a word that spells no time is instead.
fn untimely(word: &str) -> &'static [u8]
    ensures { result.now ≡ spec.untimely word.now }
{
    if word == "*" {
        b"not a time (for an open side, leave out --lo or --hi)"
    } else {
        b"not a time (seconds, as 5, 2.5 or 0.001)"
    }
}

// Appends the events of a plan of so many steps.
fn append_events<A: Allocator>(steps: Option<u16>, out: &mut Vec<u8, A>) -> Result<(), Memory>
    ensures { OnOk result (out.new.items ≡ out.old.items ++ spec.events_text steps) }
{
    match steps {
        None => out.extend_from_slice(b"as z, s1, e1"),
        Some(0) => out.extend_from_slice(b"z"),
        Some(1) => out.extend_from_slice(b"z, s1, e1"),
        Some(steps) => {
            append_decimal(out, b"z, s1 to s", steps)?;
            append_decimal(out, b", e1 to e", steps)
        }
    }
}

/// Appends the decimal digits of a number.
pub fn append_number<A: Allocator>(number: usize, out: &mut Vec<u8, A>) -> Result<(), Memory>
    ensures { OnOk result (out.new.items ≡ out.old.items ++ decimal number) }
{
    let mut buffer = Buffer::new();
    out.extend_from_slice(buffer.format(number).as_bytes())
}

/// A text of these pieces.
pub fn text_of<A: Allocator>(alloc: A, pieces: &[Piece<'_>]) -> Result<Vec<u8, A>, Memory>
    ensures { IfOk result (λ text. text.items ≡ pieces_text pieces.now) }
{
    let mut text = Vec::new(alloc);
    append_pieces(&mut text, pieces)?;
    Ok(text)
}
