//! The commands on a log.

ghost use Rattle.std.specs.Prelude.{◌≡◌, ◌⊎◌, Some, Ok, Err, false, IfOk, IfErr, MatchResult, option_map};
ghost use Rattle.stn_refusal.specs.Refusals.{out_of_memory};
ghost use Rattle.stn_logs.specs.Commands as named;
ghost use Rattle.stn_effects.specs.Effects.{seen};
ghost use Rattle.stn_lift.specs.PlanSource.{plan_source};
ghost use Rattle.stn_command.specs.Query.{seen_query};
ghost use Rattle.stn_line.specs.declared.words.Line.TheVariants.{Make};
ghost use Rattle.stn_asked.specs.Words.{seen_update};
ghost use Rattle.stn_logs.specs.Commands.{FindsSource, FindsNames, MakesLog, SavesMade, AnswersAsked, UpdatesLog, DoesLine};
ghost use Rattle.stn_store.specs.{Log.log_held, Store.{IsMissing, IsLack}, Steps.{FindsFree, LoadsLog, SavesNew}};

use crate::changes::{Outcome, make_update, opened};
use crate::explaining::explain;
use crate::keeping::Kept;
use std::alloc::Allocator;
use stn_asked::{Update, read_question, read_tolerance, read_update};
use stn_command::{Query, no_such_word, say_named};
use stn_lift::Source;
use stn_line::{Line, NameWords, NewLog, SiteLog};
use stn_loosen::loosen;
use stn_refusal::{Code, Failure};
use stn_site::SitePlan;
use stn_store::Store;

// A log that is held, and what it says.
#[derive(Drop)]
struct OpenLog<H: Drop, A: Allocator> {
    held: H,
    plan: SitePlan<A>,
}

/// Does a command on a log: the answer. A refused command changes nothing; nor does one for which memory runs out or a device of
/// the store fails, but for a log that was saved as a file and whose folder then could not be forced to the disk. `run`, `shell`,
/// `serve` and `send` are no commands on a log, and are refused as words of a wrong form.
pub fn answer<S: Store<A>, A: Allocator + Copy>(
    alloc: A,
    store: &mut S,
    line: &Line<'_>,
) -> Result<Vec<u8, A>, Failure>
    ensures { DoesLine S.fails line.now (S.entries store.old) (S.entries store.new) (seen (λ text. text.items) result) }
{
    let mut kept = Kept::nothing();
    let answer = answer_with(alloc, store, &mut kept, line);
    drop(kept);
    answer
}

/// Does a command on a log as `answer` does, and keeps what is worth keeping for the next one.
pub fn answer_with<S: Store<A>, A: Allocator + Copy>(
    alloc: A,
    store: &mut S,
    kept: &mut Kept<A>,
    line: &Line<'_>,
) -> Result<Vec<u8, A>, Failure>
    ensures { DoesLine S.fails line.now (S.entries store.old) (S.entries store.new) (seen (λ text. text.items) result) }
{
    match line {
        Line::Make(log, new) => make_log(alloc, store, log, new),
        Line::Change(log, change) => {
            let asked = read_update(alloc, change)?;
            update_log(alloc, store, kept, log, &asked)
        }
        Line::Ask(log, question, names) => {
            let asked = read_question(alloc, log, question)?;
            say_of(store, kept, log, names, &asked.query())
        }
        Line::Explain { code } => explain(alloc, *code),
        Line::Run | Line::Shell { .. } | Line::Serve { .. } | Line::Send { .. } => {
            Err(no_such_word())
        }
    }
}

// Makes a log.
fn make_log<S: Store<A>, A: Allocator + Copy>(
    alloc: A,
    store: &mut S,
    log: &SiteLog<'_>,
    new: &NewLog<'_>,
) -> Result<Vec<u8, A>, Failure>
    ensures { DoesLine S.fails (Make log.now new.now) (S.entries store.old) (S.entries store.new) (seen (λ text. text.items) result) }
{
    match new {
        NewLog::Bare { steps } => {
            find_free(store, log.name)?;
            make(alloc, store, log, &Source::Bare(*steps))
        }
        NewLog::Init { domain, plan } => {
            find_free(store, log.name)?;
            let source = source_of_texts(store, *domain, *plan)?;
            make(alloc, store, log, &source)
        }
        NewLog::Loosen {
            domain,
            plan,
            early,
            late,
            robust,
        } => {
            let tolerance = read_tolerance(*early, *late)?;
            find_free(store, log.name)?;
            let source = source_of_texts(store, *domain, *plan)?;
            let plan = loosen(alloc, log.site, &source, tolerance, *robust)?;
            save_made(alloc, store, log.name, &plan)
        }
    }
}

// Finds that nothing stands under a name.
fn find_free<S: Store<A>, A: Allocator + Copy>(store: &S, name: &str) -> Result<(), Failure>
    ensures { FindsFree S.fails name.now (S.entries store.now) (S.entries store.now) result }
{
    if store.is_there(name)? {
        Err(Failure::refused(Code::LogThere))
    } else {
        Ok(())
    }
}

// Makes the log of a source, under a name that is free.
fn make<S: Store<A>, A: Allocator + Copy>(
    alloc: A,
    store: &mut S,
    log: &SiteLog<'_>,
    source: &Source<A>,
) -> Result<Vec<u8, A>, Failure>
    ensures { MakesLog S.fails log.now.name.now (plan_source source.now) (S.entries store.old) (S.entries store.new) (seen (λ text. text.items) result) }
{
    let plan = opened(alloc, log.site, source)?;
    let text = save_made(alloc, store, log.name, &plan);
    drop(plan);
    text
}

// Saves a new log, under a name that is free: what is printed for it.
fn save_made<S: Store<A>, A: Allocator + Copy>(
    alloc: A,
    store: &mut S,
    name: &str,
    plan: &SitePlan<A>,
) -> Result<Vec<u8, A>, Failure>
    ensures { SavesMade S.fails name.now plan.now.source plan.now.state (S.entries store.old) (S.entries store.new) (seen (λ text. text.items) result) }
{
    let text = Vec::from_slice(alloc, b"made\n")?;
    save_new(store, name, plan)?;
    Ok(text)
}

// Saves a new log, under a name that is free. No other program changes it meanwhile.
fn save_new<S: Store<A>, A: Allocator + Copy>(
    store: &mut S,
    name: &str,
    plan: &SitePlan<A>,
) -> Result<(), Failure>
    ensures { SavesNew S.fails name.now (log_held plan.now) (S.entries store.old) (S.entries store.new) result }
{
    let held = store.hold(name)?;
    store.save_new(&held, plan)
}

// The source of the texts of a domain and of a plan.
fn source_of_texts<S: Store<A>, A: Allocator + Copy>(
    store: &S,
    domain: &str,
    plan: &str,
) -> Result<Source<A>, Failure>
    ensures { FindsSource S.fails domain.now plan.now (S.entries store.now) (S.entries store.now) (seen (λ source. plan_source source) result) }
{
    let domain = store.text(domain)?;
    let plan = store.text(plan)?;
    Ok(Source::Files(domain, plan))
}

// Holds a log that is there. No other program changes it until what is held is dropped.
fn hold_log<S: Store<A>, A: Allocator + Copy>(store: &S, name: &str) -> Result<S::Held, Failure>
    ensures named { IfOk result (λ held. S.held_name held ≡ name.now) }
    ensures failed { IfErr result (λ failure. IsMissing (S.entries store.now) name.now failure ⊎ IsLack S.fails failure) }
{
    if !store.is_there(name)? {
        // What is missing can't be read, and the store keeps why; no lock is made for it. What came meanwhile is held.
        store.has(name, b"")?;
    }
    store.hold(name)
}

// Holds a log that is there: it, and what it says. No other program changes it until what is held is dropped.
fn open_log<S: Store<A>, A: Allocator + Copy>(
    store: &S,
    kept: &mut Kept<A>,
    log: &SiteLog<'_>,
) -> Result<OpenLog<S::Held, A>, Failure>
    ensures named { IfOk result (λ found. S.held_name found.held ≡ log.now.name.now) }
    ensures loaded { LoadsLog S.fails log.now.name.now log.now.site (S.entries store.now) (S.entries store.now) (seen (λ found. found.plan) result) }
{
    let held = hold_log(store, log.name)?;
    let plan = kept.load_held(store, &held, log.site)?;
    Ok(OpenLog { held, plan })
}

// Updates a log that is there, and saves it, if the update says so.
fn update_log<S: Store<A>, A: Allocator + Copy>(
    alloc: A,
    store: &mut S,
    kept: &mut Kept<A>,
    log: &SiteLog<'_>,
    asked: &Update<'_, A>,
) -> Result<Vec<u8, A>, Failure>
    ensures { UpdatesLog S.fails log.now (seen_update asked.now) (S.entries store.old) (S.entries store.new) (seen (λ text. text.items) result) }
{
    let mut ours = open_log(store, kept, log)?;
    match make_update(alloc, store, &mut ours.plan, asked)? {
        Outcome::Updated(text) => {
            let saved = store.save(&ours.held, &ours.plan)?;
            kept.learn(ours.plan, saved);
            Ok(text)
        }
        Outcome::Unchanged(text) => Ok(text),
    }
}

// What is said of a log, by such names of steps. Only an answer without names is kept.
fn say_of<S: Store<A>, A: Allocator + Copy>(
    store: &mut S,
    kept: &mut Kept<A>,
    log: &SiteLog<'_>,
    names: &NameWords<'_>,
    asked: &Query<'_>,
) -> Result<Vec<u8, A>, Failure>
    ensures { AnswersAsked S.fails log.now (seen_query asked.now) names.now (S.entries store.old) (S.entries store.new) (seen (λ text. text.items) result) }
{
    let known = kept.caught_up(store, log)?;
    match find_names(store, names, known.plan()) {
        Ok(Some(plan)) => {
            let text = say_named(known.plan(), asked, &plan);
            kept.keep(known);
            text
        }
        Ok(None) => kept.say(known, asked),
        Err(failure) => {
            kept.keep(known);
            Err(failure)
        }
    }
}

// The text of a plan whose steps name those of a site's plan, where they are to have names.
fn find_names<S: Store<A>, A: Allocator + Copy>(
    store: &S,
    names: &NameWords<'_>,
    ours: &SitePlan<A>,
) -> Result<Option<Vec<u8, A>>, Failure>
    ensures { FindsNames S.fails (option_map (λ plan. plan.now) names.now.plan) names.now.own ours.now.source (S.entries store.now) (S.entries store.now)
        (seen (λ found. option_map (λ text. text.items) found) result) }
{
    match (names.plan, names.own) {
        (None, false) => Ok(None),
        (None, true) => own_plan_text(ours),
        (Some(plan), false) => text_of_file(store, plan, ours),
        (Some(_), true) => Err(no_such_word()),
    }
}

// The plan text that a plan of files has itself.
fn own_plan_text<A: Allocator + Copy>(ours: &SitePlan<A>) -> Result<Option<Vec<u8, A>>, Failure>
    ensures { MatchResult result (λ found. named.own_plan_text ours.now.source ≡ Ok (option_map (λ text. text.items) found))
        (λ failure. (failure ≡ out_of_memory) ⊎ (named.own_plan_text ours.now.source ≡ Err failure)) }
{
    match ours.base().source() {
        Source::Bare(_) => Err(no_such_word()),
        Source::Files(_, plan) => {
            let text = Vec::from_slice(ours.alloc(), plan)?;
            Ok(Some(text))
        }
    }
}

// The text of a plan's file, for a bare plan.
fn text_of_file<S: Store<A>, A: Allocator + Copy>(
    store: &S,
    plan: &str,
    ours: &SitePlan<A>,
) -> Result<Option<Vec<u8, A>>, Failure>
    ensures { FindsNames S.fails (Some plan.now) false ours.now.source (S.entries store.now) (S.entries store.now)
        (seen (λ found. option_map (λ text. text.items) found) result) }
{
    match ours.base().source() {
        Source::Files(_, _) => Err(no_such_word()),
        Source::Bare(_) => {
            let text = store.text(plan)?;
            Ok(Some(text))
        }
    }
}
