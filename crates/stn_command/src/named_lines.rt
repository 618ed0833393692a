//! The names of steps at the ends of lines.

ghost use Rattle.std.specs.{Prelude.{◌≡◌, ◌==◌, ◌++◌, map, IfOk, OnOk}, List.{filter_map, flat_map}};
ghost use Rattle.stn_text.specs.Lines.{words_of};
ghost use Rattle.stn_command.specs.{Words.{event_of, id_of}, NamedLines.{ends_of_record, name_unless, named_events, names_of_events, line_with_names, with_names}};
ghost use Rattle.stn_command.specs.NamedLines as named;

use crate::words::{read_event, read_id};
use std::alloc::Allocator;
use stn_lift::step_of;
use stn_net::{Event, MOST_EVENTS, MOST_STEPS};
use stn_records::{Record, Records};
use stn_site::SitePlan;
use stn_text::{first_line, first_word};
use stn_time::Memory;

// A flag for each step, and for the step 0 of the origin.
const STEP_FLAGS: usize = MOST_STEPS as usize + 1;

/// An answer about a site's copy of a plan, and at the end of each line, after two spaces each, the names of the steps whose events it
/// names, in their order and each once. The ids after `drop` stand for the events of their records.
pub fn with_names<A: Allocator + Copy>(
    plan: &SitePlan<A>,
    names: &[Vec<u8, A>],
    answer: &[u8],
) -> Result<Vec<u8, A>, Memory>
    ensures { IfOk result (λ text. text.items ≡ with_names (map (λ name. name.items) names.now) plan.now.state answer.now) }
{
    let mut text = Vec::new(plan.alloc());
    let mut rest = answer;
    while !rest.is_empty() {
        let (line, behind) = first_line(rest);
        append_line(plan, names, line, &mut text)?;
        rest = behind;
    }
    Ok(text)
}

// Appends a line with its names.
fn append_line<A: Allocator + Copy>(
    plan: &SitePlan<A>,
    names: &[Vec<u8, A>],
    line: &[u8],
    out: &mut Vec<u8, A>,
) -> Result<(), Memory>
    ensures { OnOk result (out.new.items ≡ out.old.items ++ line_with_names (map (λ name. name.items) names.now) plan.now.state line.now) }
{
    let events = named_events(plan, line)?;
    out.extend_from_slice(line)?;
    append_names(names, &events, out)?;
    out.extend_from_slice(b"\n")
}

// The events that a line names.
fn named_events<A: Allocator + Copy>(
    plan: &SitePlan<A>,
    line: &[u8],
) -> Result<Vec<Event, A>, Memory>
    ensures { IfOk result (λ events. events.items ≡ named_events plan.now.state (words_of line.now)) }
{
    match first_word(line) {
        Some((word, behind)) => {
            if word == b"drop".as_slice() {
                events_of_ids(plan.alloc(), plan.records(), behind)
            } else {
                events_of_words(plan.alloc(), line)
            }
        }
        None => Ok(Vec::new(plan.alloc())),
    }
}

// The events that words name.
fn events_of_words<A: Allocator>(alloc: A, line: &[u8]) -> Result<Vec<Event, A>, Memory>
    ensures { IfOk result (λ events. events.items ≡ filter_map event_of (words_of line.now)) }
{
    let mut events = Vec::new(alloc);
    let mut rest = line;
    while let Some((word, behind)) = first_word(rest) {
        if let Some(event) = read_event(word) {
            events.push(event)?;
        }
        rest = behind;
    }
    Ok(events)
}

// The events of the records that words name.
fn events_of_ids<A: Allocator + Copy>(
    alloc: A,
    records: &Records<A>,
    line: &[u8],
) -> Result<Vec<Event, A>, Memory>
    ensures { IfOk result (λ events. events.items ≡ flat_map (λ one. ends_of_record (named.record_at records.now (id_of one))) (words_of line.now)) }
{
    let mut events = Vec::new(alloc);
    let mut rest = line;
    while let Some((word, behind)) = first_word(rest) {
        push_ends(record_at(records, word), &mut events)?;
        rest = behind;
    }
    Ok(events)
}

// The record that a word names by its id, if it is there.
fn record_at<A: Allocator + Copy>(records: &Records<A>, word: &[u8]) -> Option<Record>
    ensures { result ≡ named.record_at records.now (id_of word.now) }
{
    match read_id(word) {
        Some(id) => records.state().additions().get(id),
        None => None,
    }
}

// Appends both events of a record.
fn push_ends<A: Allocator>(found: Option<Record>, events: &mut Vec<Event, A>) -> Result<(), Memory>
    ensures { OnOk result (events.new.items ≡ events.old.items ++ ends_of_record found) }
{
    if let Some(one) = found {
        events.push(one.bound.from())?;
        events.push(one.bound.to())?;
    }
    Ok(())
}

// Appends the name of the step of each event that is not the origin, and is the first of its step.
fn append_names<A: Allocator, B: Allocator>(
    names: &[Vec<u8, A>],
    events: &[Event],
    out: &mut Vec<u8, B>,
) -> Result<(), Memory>
    ensures { OnOk result (out.new.items ≡ out.old.items ++ names_of_events (map (λ name. name.items) names.now) events.now) }
{
    let mut named_steps = [false; STEP_FLAGS];
    for event in events {
        prove!(event.number() <= MOST_EVENTS);
        let step = usize::from(step_of(*event));
        append_name(names, *event, named_steps[step], out)?;
        named_steps[step] = true;
    }
    Ok(())
}

// Appends the name of the step of an event, unless it is the origin, or the step is named already.
fn append_name<A: Allocator, B: Allocator>(
    names: &[Vec<u8, A>],
    event: Event,
    is_named: bool,
    out: &mut Vec<u8, B>,
) -> Result<(), Memory>
    ensures { OnOk result (out.new.items ≡ out.old.items ++ name_unless (map (λ name. name.items) names.now) is_named event) }
{
    if event == Event::origin() || is_named {
        return Ok(());
    }
    out.extend_from_slice(b"  ")?;
    match names.get(usize::from(step_of(event) - 1)) {
        Some(name) => out.extend_from_slice(name),
        None => Ok(()),
    }
}
