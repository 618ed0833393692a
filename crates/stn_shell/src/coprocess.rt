//! A shell on a log.

ghost use Rattle.std.specs.{Prelude.{◌≡◌, ◌≢◌, ◌≤◌, ◌++◌, [], ◌∷◌, ℕ, List, true, false, None, Some, Ok, map, IsUtf8, IfOk, IfErr, OnOk, OnErr, IfSome, IsNone}, List.AllByRecursion};
ghost use Rattle.stn_effects.specs.{Effects.{seen, Then}, Printing.{Device, device_of, Prints, IsUnprinted, TellsText}};
ghost use Rattle.stn_text.specs.{Bytes.line_feed, Lines.words_of};
ghost use Rattle.stn_logs.specs.Commands.{DoesLine};
ghost use Rattle.stn_refusal.specs.Printed.{refusal_text};
ghost use Rattle.stn_shell.specs.{Coprocess.{line_words, of_shell, DoesText, DoesWords, ReadsTexts, RunsShell, SaysWhy}, Outside.{outside, InStore, Mentions, OnError}};
ghost use Rattle.stn_reasons.specs.Waiting.{TellsWaiting};

use crate::lines::read_line;
use crate::process::NO_TEXT;
use crate::reasons::{tell_hints, tell_made};
use std::alloc::Global;
use std::io::{Read, Write};
use stn_device::{Counted, MOST_BYTES};
use stn_effects::{print_now, tell};
use stn_exec::opening_word;
use stn_line::{Line, LineFault, SiteLog, line, said};
use stn_logs::{Kept, answer_with, find_log};
use stn_reasons::{reason_in_line, waiting_of};
use stn_refusal::{Code, Failure, Fault, Refusal};
use stn_store::Store;
use stn_text::first_word;
use stn_time::Memory;

// What is said of a command line that a shell doesn't do.
const NOT_OF_SHELL: &[u8] = b"error: not a command of a shell\n";

/// Finds that a log can be opened, and then does each line of an input as a command on it, and answers it before it reads more.
/// Its status is 0 where no line was refused, else 1. It ends with a refusal or a fault where the log can't be opened, and
/// reads nothing then; and with a fault where a device or memory failed, and does not read on.
pub fn run_shell<S: Store<Global>, R: Read, W: Write, E: Write>(
    alloc: Global,
    store: &mut S,
    log: &SiteLog<'_>,
    reader: &mut Counted<R>,
    out: &mut Counted<W>,
    err: &mut Counted<E>,
) -> Result<u8, Failure>
    ensures status { IfOk result (λ status. status ≤ 1) }
    ensures ran { RunsShell S.fails log.now
        (outside (S.entries store.old) (device_of R.remaining reader.old) (device_of W.contents out.old) (device_of E.contents err.old))
        (outside (S.entries store.new) (device_of R.remaining reader.new) (device_of W.contents out.new) (device_of E.contents err.new)) result }
{
    let mut kept = Kept::nothing();
    find_log(store, &mut kept, log)?;
    let mut lines = 0;
    let mut room = MOST_BYTES;
    let mut refused = false;
    'turns: while let Some(text) = read_line(alloc, reader, &mut room)? {
        lines += 1;
        refused |= do_line(alloc, store, &mut kept, log, lines, &text, out, err)?;
    }
    Ok(u8::from(refused))
}

// Does a line of this number, and answers it; but not a comment, nor a line without words. Whether it is refused.
fn do_line<S: Store<Global>, W: Write, E: Write>(
    alloc: Global,
    store: &mut S,
    kept: &mut Kept<Global>,
    log: &SiteLog<'_>,
    number: u32,
    text: &[u8],
    out: &mut Counted<W>,
    err: &mut Counted<E>,
) -> Result<bool, Failure>
    ensures { (unread : Device) → DoesText S.fails log.now number text.now
        (outside (S.entries store.old) unread (device_of W.contents out.old) (device_of E.contents err.old))
        (outside (S.entries store.new) unread (device_of W.contents out.new) (device_of E.contents err.new)) result }
{
    if opening_word(text).is_none() {
        return Ok(false);
    }
    match reply(alloc, store, kept, log, number, text, err) {
        Ok(answered) => {
            print_answer(answered, out)?;
            Ok(false)
        }
        Err(Failure::Refused(refusal)) => {
            print_answer(text_of(alloc, refusal)?, out)?;
            Ok(true)
        }
        Err(Failure::Failed(fault)) => Err(Failure::Failed(fault)),
    }
}

// Prints an answer, and the empty line that ends it, which is seen before more is read.
fn print_answer<W: Write>(answered: Vec<u8>, out: &mut Counted<W>) -> Result<(), Failure>
    ensures printed { OnOk result (Prints (device_of W.contents out.old) (device_of W.contents out.new) (answered.items ++ line_feed ∷ [])) }
    ensures failed { IfErr result (IsUnprinted (device_of W.contents out.old) (device_of W.contents out.new) (answered.items ++ line_feed ∷ [])) }
{
    let mut text = answered;
    text.push(b'\n')?;
    print_now(&text, out)
}

// The line of a refusal.
fn text_of(alloc: Global, refusal: Refusal) -> Result<Vec<u8>, Memory>
    ensures { IfOk result (λ text. text.items ≡ refusal_text refusal) }
{
    let mut text = Vec::new(alloc);
    refusal.print(&mut text)?;
    Ok(text)
}

// Does the command that a line asks for: its answer. Where it asks for none, why is told.
fn reply<S: Store<Global>, E: Write>(
    alloc: Global,
    store: &mut S,
    kept: &mut Kept<Global>,
    log: &SiteLog<'_>,
    number: u32,
    text: &[u8],
    err: &mut Counted<E>,
) -> Result<Vec<u8>, Failure>
    ensures { (unread out : Device) → Then (OnError (ReadsTexts number (words_of text.now))) (DoesWords S.fails log.now number)
        (outside (S.entries store.old) unread out (device_of E.contents err.old))
        (outside (S.entries store.new) unread out (device_of E.contents err.new)) (seen (λ answered. answered.items) result) }
{
    match read_words(alloc, text)? {
        Some(words) => reply_to(alloc, store, kept, log, number, &words, err),
        None => {
            tell(NO_TEXT, err);
            Err(Failure::refused_at(Code::Line, number))
        }
    }
}

// The words of the command line that a line asks for; none where one is no text. After the command, but for `explain`, stand words
// in place of LOG and SITE.
fn read_words<'a>(alloc: Global, text: &'a [u8]) -> Result<Option<Vec<&'a str>>, Memory>
    ensures words { IfOk result (λ read. IfSome read (λ words. map (λ word. word.now) words.items ≡ line_words (words_of text.entry.now))) }
    ensures texts { IfOk result (λ read. IfSome read (λ _. AllByRecursion IsUtf8 (words_of text.entry.now))) }
    ensures none { IfOk result (λ read. IsNone read → ¬ (AllByRecursion IsUtf8 (words_of text.entry.now))) }
{
    let mut words = Vec::new(alloc);
    words.push("stn")?;
    match first_word(text) {
        Some((word, rest)) => match str::from_utf8(word) {
            Ok(command) => {
                words.push(command)?;
                if command != "explain" {
                    words.push("LOG")?;
                    words.push("1")?;
                }
                read_further(words, rest)
            }
            Err(_) => Ok(None),
        },
        None => Ok(Some(words)),
    }
}

// Words, and those of a text after them; none where one of the text is no text.
fn read_further<'a>(before: Vec<&'a str>, text: &'a [u8]) -> Result<Option<Vec<&'a str>>, Memory>
    ensures words { IfOk result (λ read. IfSome read (λ words. map (λ word. word.now) words.items
        ≡ map (λ word. word.now) before.entry.items ++ words_of text.entry.now)) }
    ensures texts { IfOk result (λ read. IfSome read (λ _. AllByRecursion IsUtf8 (words_of text.entry.now))) }
    ensures none { IfOk result (λ read. IsNone read → ¬ (AllByRecursion IsUtf8 (words_of text.entry.now))) }
{
    let mut words = before;
    let mut rest = text;
    'words: while let Some((word, behind)) = first_word(rest) {
        match str::from_utf8(word) {
            Ok(word) => words.push(word)?,
            Err(_) => return Ok(None),
        }
        rest = behind;
    }
    Ok(Some(words))
}

// Does the command on the log that the words of a command line ask for.
fn reply_to<S: Store<Global>, E: Write>(
    alloc: Global,
    store: &mut S,
    kept: &mut Kept<Global>,
    log: &SiteLog<'_>,
    number: u32,
    words: &[&str],
    err: &mut Counted<E>,
) -> Result<Vec<u8>, Failure>
    ensures { (unread out : Device) → DoesWords S.fails log.now number (map (λ word. word.now) words.now)
        (outside (S.entries store.old) unread out (device_of E.contents err.old))
        (outside (S.entries store.new) unread out (device_of E.contents err.new)) (seen (λ answered. answered.items) result) }
{
    match line(alloc, words) {
        Ok(read) => {
            let mut asked = read;
            if set_log(&mut asked, log) {
                answer_line(alloc, store, kept, &asked, err)
            } else {
                tell(NOT_OF_SHELL, err);
                Err(Failure::refused_at(Code::Line, number))
            }
        }
        Err(LineFault::Words(error)) => {
            tell_mistake(alloc, &error, err)?;
            Err(Failure::refused_at(Code::Line, number))
        }
        Err(LineFault::Memory) => Err(Failure::Failed(Fault::Memory)),
    }
}

// Does a command of a shell. Tells before it what it waits for, and after it its hints, or why it is refused.
fn answer_line<S: Store<Global>, E: Write>(
    alloc: Global,
    store: &mut S,
    kept: &mut Kept<Global>,
    line: &Line<'_>,
    err: &mut Counted<E>,
) -> Result<Vec<u8>, Failure>
    ensures { (unread out : Device) → Then (Mentions (λ _. TellsWaiting line.now)) (λ _. SaysWhy line.now (InStore (DoesLine S.fails line.now)))
        (outside (S.entries store.old) unread out (device_of E.contents err.old))
        (outside (S.entries store.new) unread out (device_of E.contents err.new)) (seen (λ answered. answered.items) result) }
{
    tell_made(waiting_of(alloc, store, line), err);
    match answer_with(alloc, store, kept, line) {
        Ok(answered) => {
            tell_hints(alloc, store, kept, line, err);
            Ok(answered)
        }
        Err(Failure::Refused(refusal)) => {
            tell_made(reason_in_line(alloc, store, line, refusal), err);
            // What the search for the reason could not read is no fault of the command.
            drop(store.trouble());
            Err(Failure::Refused(refusal))
        }
        Err(Failure::Failed(fault)) => Err(Failure::Failed(fault)),
    }
}

// Sets the log of a command line; whether it is a command on a log that is there, or an explanation.
fn set_log<'a>(line: &mut Line<'a>, log: &SiteLog<'a>) -> bool
    ensures own { result ≡ true → of_shell log.now line.old ≡ Some line.new }
    ensures none { result ≡ false → of_shell log.now line.old ≡ None }
{
    match line {
        Line::Change(other, _) => {
            other.name = log.name;
            other.site = log.site;
            true
        }
        Line::Ask(other, _, _) => {
            other.name = log.name;
            other.site = log.site;
            true
        }
        Line::Explain { .. } => true,
        Line::Run | Line::Make(..) | Line::Shell { .. } | Line::Serve { .. } | Line::Send { .. } =>
            false,
    }
}

// Prints what clap says of words, as far as the standard error takes it.
fn tell_mistake<E: Write>(
    alloc: Global,
    error: &clap::Error,
    err: &mut Counted<E>,
) -> Result<(), Memory>
    ensures told { OnOk result ((text : List ℕ) × (text ≢ []) × TellsText text (device_of E.contents err.old) (device_of E.contents err.new)) }
    ensures kept { OnErr result (device_of E.contents err.new ≡ device_of E.contents err.old) }
{
    let text = said(alloc, error)?;
    tell(text.as_bytes(), err);
    Ok(())
}
