//! Why a command ends without an answer, as it is told after the line that says so.

ghost use Rattle.std.specs.Prelude.{◌≡◌, ◌⊎◌, ◌*◌, ◌-◌, ◌++◌, ◌∷◌, [], Some, IfOk, IfSome, OnOk, codes, decimal, length, option_map, take};
ghost use Rattle.stn_line.specs.Explanations.Explained.{IsMeant};
ghost use Rattle.stn_text.specs.Bytes.{line_feed};
ghost use Rattle.stn_reasons.specs.Reasons as spec;
ghost use Rattle.stn_reasons.specs.Reasons.{HasSteps, IsReason, IsReasonInLine, IsRefusalReason, TellsAbout, TellsFile, TellsLog, TellsPromise, TellsWord};
ghost use Rattle.stn_asked.specs.Words.{word_refused};
ghost use Rattle.stn_refusal.specs.declared.failure.Failure.TheVariants.{Refused};
ghost use Rattle.stn_refusal.specs.declared.code.Code.TheVariants as code;
ghost use Rattle.stn_lift.specs.PlanSource.{steps_of as plan_steps};
ghost use Rattle.stn_site.specs.Held.{Held};
ghost use Rattle.stn_store.specs.Store.{IsUnopened, Opens};

use crate::absent::absent_event;
use crate::file::{append_file, is_of_plan, log_of, refused_file};
use crate::flags::{append_flag, append_names_count, names_file, refused_names, steps_flag};
use crate::fragile::fragile_text;
use crate::telling::{append_absent, append_counts, append_refused_word, text_of};
use itoa::Buffer;
use std::alloc::Allocator;
use stn_asked::{RefusedWord, refused_word};
use stn_cause::{Cause, append_trouble};
use stn_lift::Base;
use stn_line::{Line, LogChange, LogQuestion, NewLog, SiteLog, meaning_of};
use stn_records::Site;
use stn_refusal::{Code, Failure, Fault, Refusal};
use stn_site::{Piece, append_pieces};
use stn_store::{Store, Trouble};
use stn_time::Memory;

/// What is told of a command that ends without an answer, after the line of its failure. Of a refusal: what it means, if its number
/// has a meaning, and the word, the file, the event or the times that it is about. Of a fault: what can't be used, and why.
pub fn reason_of<S: Store<A>, A: Allocator + Copy>(
    alloc: A,
    store: &S,
    line: &Line<'_>,
    failure: Failure,
) -> Result<Vec<u8, A>, Memory>
    ensures { IfOk result (λ reason. IsReason (S.entries store.now) line.now failure reason.items) }
{
    match failure {
        Failure::Refused(refusal) => {
            let command = RefusedCommand {
                alloc,
                store,
                line,
                refusal,
            };
            command.reason()
        }
        Failure::Failed(fault) => reason_of_fault(alloc, store.trouble(), line, fault),
    }
}

/// What a refusal means and what it is about, on one line.
pub fn reason_in_line<S: Store<A>, A: Allocator + Copy>(
    alloc: A,
    store: &S,
    line: &Line<'_>,
    refusal: Refusal,
) -> Result<Vec<u8, A>, Memory>
    ensures { IfOk result (λ reason. IsReasonInLine (S.entries store.now) line.now refusal reason.items) }
{
    let command = RefusedCommand {
        alloc,
        store,
        line,
        refusal,
    };
    command.reason_in_line()
}

// A command that was refused, and the store of its log, where more can be found out.
#[derive(Drop)]
struct RefusedCommand<'c, 'l, S, A> {
    alloc: A,
    store: &'c S,
    line: &'c Line<'l>,
    refusal: Refusal,
}

impl<'c, 'l, S: Store<A>, A: Allocator + Copy> RefusedCommand<'c, 'l, S, A> {
    // What the refusal means, and what it is about.
    fn reason(&self) -> Result<Vec<u8, A>, Memory>
        ensures { IfOk result (λ reason. IsRefusalReason (S.entries self.now.store.now) self.now.line.now self.now.refusal reason.items) }
    {
        let meaning = self.meaning()?;
        let about = self.about()?;
        joined(meaning, &about)
    }

    // The same, on one line.
    fn reason_in_line(&self) -> Result<Vec<u8, A>, Memory>
        ensures { IfOk result (λ reason. IsReasonInLine (S.entries self.now.store.now) self.now.line.now self.now.refusal reason.items) }
    {
        let meaning = self.meaning()?;
        let about = self.about()?;
        joined_in_line(meaning, &about)
    }

    // What the refusal means; nothing, where its number has no meaning.
    fn meaning(&self) -> Result<Vec<u8, A>, Memory>
        ensures { IfOk result (λ text. IsMeant (decimal self.now.refusal.code) text.items) }
    {
        let mut digits = Buffer::new();
        let word = digits.format(self.refusal.code);
        meaning_of(self.alloc, word)
    }

    // What the refusal is about.
    fn about(&self) -> Result<Vec<u8, A>, Memory>
        ensures { IfOk result (λ text. TellsAbout (word_refused self.now.line.now) (S.entries self.now.store.now)
            self.now.line.now self.now.refusal text.items) }
    {
        match refused_word(self.alloc, self.line)? {
            Some(refused) => self.about_word(&refused),
            None => self.about_file(),
        }
    }

    // The line for a word that refuses the command.
    fn about_word(&self, refused: &RefusedWord<'_>) -> Result<Vec<u8, A>, Memory>
        ensures { IfOk result (λ text. TellsWord (S.entries self.now.store.now) self.now.line.now refused.now text.items) }
    {
        let steps = self.steps();
        let mut text = Vec::new(self.alloc);
        append_refused_word(self.alloc, refused, steps, &mut text)?;
        Ok(text)
    }

    // How many steps the plan of the command's log has, where that can be found out.
    fn steps(&self) -> Option<u16>
        ensures { HasSteps (S.entries self.now.store.now) self.now.line.now result }
    {
        match log_of(self.line) {
            Some(log) => self.steps_in(log),
            None => None,
        }
    }

    // How many steps the plan of a log has, where it can be opened.
    fn steps_in(&self, log: &SiteLog<'_>) -> Option<u16>
        ensures { IfSome result (λ steps. (held : Held) × Opens (S.entries self.now.store.now) log.now.name.now log.now.site held
            × (plan_steps held.source ≡ steps)) }
    {
        match self.store.load(log.name, log.site) {
            Ok(plan) => Some(plan.base().steps()),
            Err(_) => None,
        }
    }

    // The file that the refusal is about, or what else it is about where all words can be read.
    fn about_file(&self) -> Result<Vec<u8, A>, Memory>
        ensures { IfOk result (λ text. TellsFile (spec.file_refused self.now.line.now self.now.refusal.code) (S.entries self.now.store.now)
            self.now.line.now self.now.refusal text.items) }
    {
        match refused_file(self.line, self.refusal.code) {
            Some(name) => self.file_text(name),
            None => self.about_log(),
        }
    }

    // The line that names a file and the place in it.
    fn file_text(&self, name: &str) -> Result<Vec<u8, A>, Memory>
        ensures { IfOk result (λ text. text.items ≡ spec.file_text name.now self.now.refusal) }
    {
        let mut text = Vec::new(self.alloc);
        append_file(name, self.refusal, &mut text)?;
        Ok(text)
    }

    // What is not robust, or the log that is refused, or what a refusal by the log's plan is about.
    fn about_log(&self) -> Result<Vec<u8, A>, Memory>
        ensures { IfOk result (λ text. TellsLog (S.entries self.now.store.now) self.now.line.now self.now.refusal text.items
            ⊎ (text.items ≡ [])) }
    {
        if self.refusal.code == Code::NotRobust.number() {
            return self.about_promise();
        }
        match log_of(self.line) {
            Some(log) => self.about_opened(log),
            None => self.about_code(),
        }
    }

    // The line for a word that `explain` doesn't know.
    fn about_code(&self) -> Result<Vec<u8, A>, Memory>
        ensures { IfOk result (λ text. text.items ≡ spec.code_told self.now.line.now) }
    {
        match self.line {
            Line::Explain { code: Some(word) } => text_of(
                self.alloc,
                &[
                    Piece::Text(word.as_bytes()),
                    Piece::Text(
                        b": no number of a refusal, and no word of a fault (explain lists them)\n",
                    ),
                ],
            ),
            _ => Ok(Vec::new(self.alloc)),
        }
    }

    // What is not robust of the plan that the command loosens, where that can be found out.
    fn about_promise(&self) -> Result<Vec<u8, A>, Memory>
        ensures { IfOk result (λ text. TellsPromise (S.entries self.now.store.now) self.now.line.now text.items ⊎ (text.items ≡ [])) }
    {
        if let Line::Make(
            _,
            NewLog::Loosen {
                domain,
                plan,
                early,
                late,
                ..
            },
        ) = self.line
            && let Ok(text) = fragile_text(self.alloc, self.store, *domain, *plan, *early, *late)
        {
            Ok(text)
        } else {
            Ok(Vec::new(self.alloc))
        }
    }

    // The log of the command, where this refuses to open it, or what a refusal by its plan is about.
    fn about_opened(&self, log: &SiteLog<'_>) -> Result<Vec<u8, A>, Memory>
        requires { spec.log_of self.now.line.now ≡ Some log.now }
        ensures { IfOk result (λ text. TellsLog (S.entries self.now.store.now) self.now.line.now self.now.refusal text.items
            ⊎ (text.items ≡ [])) }
    {
        match self.store.load(log.name, log.site) {
            Ok(plan) => match other_of(self.line) {
                Some(other) => {
                    drop(plan);
                    self.about_other(other, log.site)
                }
                None => self.about_plan(plan.base()),
            },
            Err(failure) => self.unopened_text(log.name, failure),
        }
    }

    // The line that names a log, where the refusal is to open it; else nothing.
    fn unopened_text(&self, name: &str, failure: Failure) -> Result<Vec<u8, A>, Memory>
        ensures { IfOk result (λ text. ((failure ≡ Refused self.now.refusal) × (text.items ≡ spec.file_text name.now self.now.refusal))
            ⊎ (text.items ≡ [])) }
    {
        if failure == Failure::Refused(self.refusal) {
            self.file_text(name)
        } else {
            Ok(Vec::new(self.alloc))
        }
    }

    // The other log of `merge`, where the refusal is to open it; else nothing.
    fn about_other(&self, other: &str, site: Site) -> Result<Vec<u8, A>, Memory>
        ensures { IfOk result (λ text. (IsUnopened (S.entries self.now.store.now) other.now (Refused self.now.refusal)
            × (text.items ≡ spec.file_text other.now self.now.refusal)) ⊎ (text.items ≡ [])) }
    {
        match self.store.load(other, site) {
            Ok(plan) => {
                drop(plan);
                Ok(Vec::new(self.alloc))
            }
            Err(failure) => self.unopened_text(other, failure),
        }
    }

    // What a refusal by the plan of the log is about, or one of the text of a file of names.
    fn about_plan(&self, base: &Base<A>) -> Result<Vec<u8, A>, Memory>
        ensures { IfOk result (λ text. text.items ≡ spec.plan_told base.now self.now.line.now self.now.refusal) }
    {
        if self.refusal.code == Code::NoEvent.number() {
            self.absent_text(base.steps())
        } else if self.refusal.code == Code::Line.number() {
            self.about_form(base)
        } else if is_of_plan(self.refusal.code) {
            self.about_names()
        } else {
            Ok(Vec::new(self.alloc))
        }
    }

    // The line that names the file of names, and the place in it; nothing, where there is no such file.
    fn about_names(&self) -> Result<Vec<u8, A>, Memory>
        ensures { IfOk result (λ text. text.items ≡ spec.names_told self.now.line.now self.now.refusal) }
    {
        match names_file(self.line) {
            Some(name) => self.file_text(name),
            None => Ok(Vec::new(self.alloc)),
        }
    }

    // The line for an event or a step that a plan of so many steps lacks, or for an event that never takes place.
    fn absent_text(&self, steps: u16) -> Result<Vec<u8, A>, Memory>
        ensures { IfOk result (λ text. text.items ≡ spec.absent_told steps self.now.line.now) }
    {
        let mut text = Vec::new(self.alloc);
        if let Some(word) = absent_event(self.line, steps) {
            append_absent(word, steps, &mut text)?;
        } else if let Some(flag) = steps_flag(self.line) {
            append_flag(flag, steps, &mut text)?;
        }
        Ok(text)
    }

    // The line for flags of names that the plan can't have, for times, or for a file of names.
    fn about_form(&self, base: &Base<A>) -> Result<Vec<u8, A>, Memory>
        ensures { IfOk result (λ text. text.items ≡ spec.form_told base.now self.now.line.now) }
    {
        match refused_names(self.line, base) {
            Some(told) => text_of(
                self.alloc,
                &[Piece::Text(told.as_bytes()), Piece::Text(b"\n")],
            ),
            None => self.about_counts(base.steps()),
        }
    }

    // The line for times of which there are too many or too few, or for a file with names of other steps.
    fn about_counts(&self, steps: u16) -> Result<Vec<u8, A>, Memory>
        ensures { IfOk result (λ text. text.items ≡ spec.counts_told steps self.now.line.now) }
    {
        let mut text = Vec::new(self.alloc);
        if let Some(times) = times_given(self.line) {
            append_counts(self.alloc, times, 2 * usize::from(steps), &mut text)?;
        } else if let Some(name) = names_file(self.line) {
            append_names_count(name, steps, &mut text)?;
        }
        Ok(text)
    }
}

// A line, and another one after a semicolon, if there is one.
fn joined_in_line<A: Allocator>(line: Vec<u8, A>, other: &[u8]) -> Result<Vec<u8, A>, Memory>
    ensures { IfOk result (λ text. text.items ≡ spec.on_one_line line.items other.now) }
{
    if other.is_empty() {
        Ok(line)
    } else {
        continued(line, other)
    }
}

// A line without its end, and another one after a semicolon.
fn continued<A: Allocator>(line: Vec<u8, A>, other: &[u8]) -> Result<Vec<u8, A>, Memory>
    ensures { IfOk result (λ text. text.items ≡ take (length line.items - 1) line.items ++ (codes "; " ++ other.now)) }
{
    let mut text = line;
    let end = text.len().saturating_sub(1);
    text.truncate(end);
    append_pieces(&mut text, &[Piece::Text(b"; "), Piece::Text(other)])?;
    Ok(text)
}

// A text, and another one after it.
fn joined<A: Allocator>(one: Vec<u8, A>, other: &[u8]) -> Result<Vec<u8, A>, Memory>
    ensures { IfOk result (λ text. text.items ≡ one.items ++ other.now) }
{
    let mut text = one;
    text.extend_from_slice(other)?;
    Ok(text)
}

// The other log of `merge`.
fn other_of<'a>(line: &Line<'a>) -> Option<&'a str>
    ensures { option_map (λ name. name.now) result ≡ spec.other_of line.now }
{
    match line {
        Line::Change(_, LogChange::Merge { other }) => Some(*other),
        _ => None,
    }
}

// How many times `check` is given.
fn times_given(line: &Line<'_>) -> Option<usize>
    ensures { result ≡ spec.times_given line.now }
{
    match line {
        Line::Ask(_, LogQuestion::Check { times }, _) => Some(times.len()),
        _ => None,
    }
}

// What can't be used, and why. Of memory nothing is told.
fn reason_of_fault<A: Allocator>(
    alloc: A,
    trouble: Option<Trouble>,
    line: &Line<'_>,
    fault: Fault,
) -> Result<Vec<u8, A>, Memory>
    ensures { IfOk result (λ reason. reason.items ≡ spec.fault_reason trouble line.now fault) }
{
    match fault {
        Fault::Memory => Ok(Vec::new(alloc)),
        Fault::File | Fault::Net | Fault::Read | Fault::Write | Fault::Bound => {
            text_of_trouble(alloc, trouble, line, fault)
        }
    }
}

// What a store knows of a fault, or which stream of the program it is of.
fn text_of_trouble<A: Allocator>(
    alloc: A,
    trouble: Option<Trouble>,
    line: &Line<'_>,
    fault: Fault,
) -> Result<Vec<u8, A>, Memory>
    ensures { IfOk result (λ text. text.items ≡ spec.known_trouble trouble line.now fault) }
{
    let mut text = Vec::new(alloc);
    match trouble {
        Some(trouble) => append_trouble(trouble.name.as_str(), trouble.cause, &mut text)?,
        None => append_stream(line, fault, &mut text)?,
    }
    Ok(text)
}

// Appends which stream a fault is of: the connection of `send`, the standard input, which only `run` and `shell` read, or the
// standard output.
fn append_stream<A: Allocator>(
    line: &Line<'_>,
    fault: Fault,
    out: &mut Vec<u8, A>,
) -> Result<(), Memory>
    ensures { OnOk result (out.new.items ≡ out.old.items ++ spec.stream_text line.now fault) }
{
    match line {
        Line::Send { address, .. } => append_connection(*address, fault, out),
        Line::Run | Line::Shell { .. } => append_own(fault, out),
        Line::Make(..)
        | Line::Change(..)
        | Line::Ask(..)
        | Line::Explain { .. }
        | Line::Serve { .. } => append_output(fault, out),
    }
}

fn append_connection<A: Allocator>(
    address: &str,
    fault: Fault,
    out: &mut Vec<u8, A>,
) -> Result<(), Memory>
    ensures { OnOk result (out.new.items ≡ out.old.items ++ spec.connection_text address.now fault) }
{
    match fault {
        Fault::Read => append_trouble(address, Cause::Unread, out),
        Fault::Bound => append_trouble(address, Cause::TooLong, out),
        Fault::Write | Fault::Memory | Fault::File | Fault::Net => Ok(()),
    }
}

fn append_own<A: Allocator>(fault: Fault, out: &mut Vec<u8, A>) -> Result<(), Memory>
    ensures { OnOk result (out.new.items ≡ out.old.items ++ spec.own_text fault) }
{
    match fault {
        Fault::Read => append_trouble("standard input", Cause::Unread, out),
        Fault::Bound => append_trouble("standard input", Cause::TooLong, out),
        Fault::Write | Fault::Memory | Fault::File | Fault::Net => append_output(fault, out),
    }
}

fn append_output<A: Allocator>(fault: Fault, out: &mut Vec<u8, A>) -> Result<(), Memory>
    ensures { OnOk result (out.new.items ≡ out.old.items ++ spec.output_text fault) }
{
    match fault {
        Fault::Write => append_trouble("standard output", Cause::Unwritten, out),
        Fault::Read | Fault::Bound | Fault::Memory | Fault::File | Fault::Net => Ok(()),
    }
}
