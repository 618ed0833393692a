ghost use Rattle.std.specs.{Prelude.{◌≡◌, ◌∷◌, length, IfOk}, List.{list_all, filter_map}, Option.option_map, Str.bytes_eq};
ghost use Rattle.stn_text.specs.Lines.{words_of};
ghost use Rattle.stn_command.specs.Words.{id_of};
ghost use Rattle.stn_exec.specs.{Command.{lone_word, lone_number, side_word, bound_asked, command_of, action_of, add_of, done_of, amend_of, withdraw_of, send_of, check_of, why_of, outlook_from, alone_of, tombstone_of, is_item}, Running.{seen_command, seen_action}};

use std::alloc::Allocator;
use stn_command::{Choice, Query, read_between, read_event, read_id, read_time};
use stn_questions::{Outlook, Question, lone_query, read_outlook};
use stn_records::Id;
use stn_refusal::Failure;
use stn_site::{AskedBound, Change};
use stn_text::{first_word, read_number};
use stn_time::Memory;

/// A command of one site. What it sends and the times that it checks stand in its line.
#[derive(Clone, Copy)]
pub struct Command<'a> {
    pub site: u32,
    pub action: Action<'a>,
}

/// What a command does.
#[derive(Clone, Copy)]
pub enum Action<'a> {
    /// Changes what the site holds, if its times can be read.
    Change(Result<Change, Failure>),
    /// Takes in all that the site of this number holds.
    Merge(u32),
    /// Sends all that the site holds.
    SendAll,
    /// Sends the records that the words of this part of the line name, with the ids that they replace, and
    /// the withdrawn ids that they name.
    Send(&'a [u8]),
    /// Takes in all that the packet of this number holds.
    Deliver(u32),
    /// Asks whether the times of all events, which are the words of this part of the line, are a schedule.
    Check(&'a [u8]),
    /// Asks the site, if its time can be read.
    Query(Result<Query<'a>, Failure>),
}

/// The command that a line is, in a plan of so many events beside the origin, by its first word and
/// what stands after it.
pub fn read_command<'a>(events: u16, word: &[u8], rest: &'a [u8]) -> Option<Command<'a>>
    ensures { option_map seen_command result ≡ command_of events (word.now ∷ words_of rest.now) }
{
    let (name, words) = first_word(rest)?;
    let site = read_number(word)?;
    match read_action(events, name, words) {
        Some(action) => Some(Command { site, action }),
        None => None,
    }
}

fn read_action<'a>(events: u16, name: &[u8], rest: &'a [u8]) -> Option<Action<'a>>
    ensures { option_map seen_action result ≡ action_of events name.now (words_of rest.now) }
{
    if is_named(name, b"add") {
        read_add(rest)
    } else if is_named(name, b"amend") {
        read_amend(rest)
    } else if is_named(name, b"withdraw") {
        read_withdraw(rest)
    } else if is_named(name, b"done") {
        read_done(rest)
    } else if is_named(name, b"merge") {
        Some(Action::Merge(lone_number(rest)?))
    } else if is_named(name, b"send") {
        read_send(rest)
    } else if is_named(name, b"deliver") {
        Some(Action::Deliver(lone_number(rest)?))
    } else if is_named(name, b"check") {
        read_check(events, rest)
    } else if is_named(name, b"why") {
        read_why(rest)
    } else {
        match read_outlook(name) {
            Some(outlook) => read_foresee(outlook, rest),
            None => read_alone(name, rest),
        }
    }
}

fn is_named(name: &[u8], word: &[u8]) -> bool
    ensures { result ≡ bytes_eq name.now word.now }
{
    name == word
}

// The word that stands alone.
fn lone_word(rest: &[u8]) -> Option<&[u8]>
    ensures { option_map (λ word. word.now) result ≡ lone_word (words_of rest.now) }
{
    let (word, behind) = first_word(rest)?;
    match first_word(behind) {
        Some(_) => None,
        None => Some(word),
    }
}

// The number that stands alone.
fn lone_number(rest: &[u8]) -> Option<u32>
    ensures { result ≡ lone_number (words_of rest.now) }
{
    let word = lone_word(rest)?;
    read_number(word)
}

// The word of a side of a bound; `*` stands for none.
fn side_word(word: &[u8]) -> Option<&[u8]>
    ensures { option_map (λ one. one.now) result ≡ side_word word.now }
{
    if is_named(word, b"*") {
        None
    } else {
        Some(word)
    }
}

// The bound that the words of its events and sides ask for.
fn read_bound(rest: &[u8]) -> Option<Result<AskedBound, Failure>>
    ensures { result ≡ bound_asked (words_of rest.now) }
{
    let (first, behind_first) = first_word(rest)?;
    let (second, behind_second) = first_word(behind_first)?;
    let (lo, behind_lo) = first_word(behind_second)?;
    let (hi, behind_hi) = first_word(behind_lo)?;
    if first_word(behind_hi).is_some() {
        return None;
    }
    let from = read_event(first)?;
    let to = read_event(second)?;
    Some(read_between(from, to, side_word(lo), side_word(hi)))
}

fn read_add(rest: &[u8]) -> Option<Action<'_>>
    ensures { option_map seen_action result ≡ add_of (words_of rest.now) }
{
    match read_bound(rest) {
        Some(Ok(bound)) => Some(Action::Change(Ok(Change::Add(bound)))),
        Some(Err(failure)) => Some(Action::Change(Err(failure))),
        None => None,
    }
}

fn read_amend(rest: &[u8]) -> Option<Action<'_>>
    ensures { option_map seen_action result ≡ amend_of (words_of rest.now) }
{
    let (word, behind) = first_word(rest)?;
    let old = read_id(word)?;
    match read_bound(behind) {
        Some(Ok(bound)) => Some(Action::Change(Ok(Change::Amend(old, bound)))),
        Some(Err(failure)) => Some(Action::Change(Err(failure))),
        None => None,
    }
}

fn read_withdraw(rest: &[u8]) -> Option<Action<'_>>
    ensures { option_map seen_action result ≡ withdraw_of (words_of rest.now) }
{
    let word = lone_word(rest)?;
    let id = read_id(word)?;
    Some(Action::Change(Ok(Change::Withdraw(id))))
}

fn read_done(rest: &[u8]) -> Option<Action<'_>>
    ensures { option_map seen_action result ≡ done_of (words_of rest.now) }
{
    let (word, behind) = first_word(rest)?;
    let time = lone_word(behind)?;
    let event = read_event(word)?;
    match read_time(time) {
        Ok(time) => Some(Action::Change(Ok(Change::Done(event, time)))),
        Err(failure) => Some(Action::Change(Err(failure))),
    }
}

fn read_send(rest: &[u8]) -> Option<Action<'_>>
    ensures { option_map seen_action result ≡ send_of (words_of rest.now) }
{
    match first_word(rest) {
        Some(_) => {
            if are_items(rest) {
                Some(Action::Send(rest))
            } else {
                None
            }
        }
        None => Some(Action::SendAll),
    }
}

// Whether each word names a record or a withdrawn id.
fn are_items(line: &[u8]) -> bool
    ensures { result ≡ list_all is_item (words_of line.now) }
{
    let mut rest = line;
    while let Some((word, behind)) = first_word(rest) {
        if !is_item(word) {
            return false;
        }
        rest = behind;
    }
    true
}

fn is_item(word: &[u8]) -> bool
    ensures { result ≡ is_item word.now }
{
    read_id(word).is_some() || read_tombstone(word).is_some()
}

/// The ids of the records, and the withdrawn ids, that the words of a line name.
pub fn read_items<A: Allocator + Copy>(
    alloc: A,
    line: &[u8],
) -> Result<(Vec<Id, A>, Vec<Id, A>), Memory>
    ensures records { IfOk result (λ items. items.0.items ≡ filter_map id_of (words_of line.now)) }
    ensures tombstones { IfOk result (λ items. items.1.items ≡ filter_map tombstone_of (words_of line.now)) }
{
    let mut records = Vec::new(alloc);
    let mut tombstones = Vec::new(alloc);
    let mut rest = line;
    while let Some((word, behind)) = first_word(rest) {
        if let Some(id) = read_id(word) {
            records.push(id)?;
        }
        if let Some(id) = read_tombstone(word) {
            tombstones.push(id)?;
        }
        rest = behind;
    }
    Ok((records, tombstones))
}

fn read_check(events: u16, rest: &[u8]) -> Option<Action<'_>>
    ensures { option_map seen_action result ≡ check_of events (words_of rest.now) }
{
    if count_words(rest) == usize::from(events) {
        Some(Action::Check(rest))
    } else {
        None
    }
}

fn read_why(rest: &[u8]) -> Option<Action<'_>>
    ensures { option_map seen_action result ≡ why_of (words_of rest.now) }
{
    let (word, behind) = first_word(rest)?;
    match first_word(behind) {
        None => {
            let event = read_event(word)?;
            Some(Action::Query(Ok(Query::Ask(Question::Why(event)))))
        }
        Some((other, after)) => {
            if first_word(after).is_some() {
                return None;
            }
            let from = read_event(word)?;
            let to = read_event(other)?;
            Some(Action::Query(Ok(Query::Ask(Question::WhyApart(from, to)))))
        }
    }
}

// What is asked of all events that are left from a time on.
fn read_foresee(outlook: Outlook, rest: &[u8]) -> Option<Action<'_>>
    ensures { option_map seen_action result ≡ outlook_from outlook (words_of rest.now) }
{
    let every = Choice {
        steps: None,
        starts: false,
    };
    let word = lone_word(rest)?;
    match read_time(word) {
        Ok(now) => Some(Action::Query(Ok(Query::Foresee(outlook, now, every)))),
        Err(failure) => Some(Action::Query(Err(failure))),
    }
}

// A query of one word.
fn read_alone<'a>(name: &[u8], rest: &'a [u8]) -> Option<Action<'a>>
    ensures { option_map seen_action result ≡ alone_of name.now (words_of rest.now) }
{
    if first_word(rest).is_some() {
        return None;
    }
    match lone_query(name) {
        Some(asked) => Some(Action::Query(Ok(Query::from(asked)))),
        None => None,
    }
}

fn count_words(line: &[u8]) -> usize
    ensures { result ≡ length (words_of line.now) }
{
    let mut count = 0;
    let mut rest = line;
    while let Some((_, behind)) = first_word(rest) {
        count += 1;
        rest = behind;
    }
    count
}

// A withdrawn id stands after `-`.
fn read_tombstone(word: &[u8]) -> Option<Id>
    ensures { result ≡ tombstone_of word.now }
{
    match word.split_first() {
        Some((first, behind)) => {
            if *first == b'-' {
                read_id(behind)
            } else {
                None
            }
        }
        None => None,
    }
}
