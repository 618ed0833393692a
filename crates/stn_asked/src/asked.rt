//! What the words of a command ask for.

ghost use Rattle.std.specs.Prelude.{◌≡◌, ◌⊎◌, option_map, Ok, Err, IfOk, IfErr, MatchResult};
ghost use Rattle.stn_refusal.specs.Refusals.{out_of_memory};
ghost use Rattle.stn_command.specs.Query.{seen_query, seen_choice};
ghost use Rattle.stn_asked.specs.Words as said;
ghost use Rattle.stn_asked.specs.Words.{question_read, seen_asked, seen_update, update_read};

use crate::words::{
    RefusedWord, read_all_owned, read_arrows, read_bound, read_chosen, read_event, read_id,
    read_present, read_time, read_times, read_tolerance, read_why,
};
use std::alloc::{AllocError, Allocator};
use stn_chart::Look;
use stn_command::{Choice, Query};
use stn_line::{DrawingWords, EventChoice, Line, LogChange, LogQuestion, NewLog, SiteLog};
use stn_questions::{LoneQuery, Outlook};
use stn_refusal::Failure;
use stn_site::{Change, OwnedSteps, StepRange};
use stn_time::{Memory, Ms};

/// What updates a log.
#[derive(Drop)]
pub enum Update<'a, A: Allocator> {
    /// Makes a change.
    Change(Change),
    /// Takes in all that another log says.
    Merge(&'a str),
    /// Adds the guard of what the log says, where these steps belong to their sites.
    Guard(Vec<OwnedSteps, A>),
}

/// Reads the words of a change. Refused for the first word that can't be read, in the order in which they are read: ids,
/// events, then times, the lower side before the upper. Lack of memory may come in place of any answer.
pub fn read_update<'a, A: Allocator + Copy>(
    alloc: A,
    change: &LogChange<'a>,
) -> Result<Update<'a, A>, RefusedWord<'a>>
    ensures { MatchResult result (λ asked. update_read change.now ≡ Ok (seen_update asked))
        (λ refused. (refused.failure ≡ out_of_memory) ⊎ (update_read change.now ≡ Err refused)) }
{
    match change {
        LogChange::Add { from, to, lo, hi } => {
            let bound = read_bound(*from, *to, *lo, *hi)?;
            Ok(Update::Change(Change::Add(bound)))
        }
        LogChange::Amend {
            id,
            from,
            to,
            lo,
            hi,
        } => {
            let old = read_id(*id)?;
            let bound = read_bound(*from, *to, *lo, *hi)?;
            Ok(Update::Change(Change::Amend(old, bound)))
        }
        LogChange::Withdraw { id } => {
            let id = read_id(*id)?;
            Ok(Update::Change(Change::Withdraw(id)))
        }
        LogChange::Done { event, time } => {
            let event = read_event(*event)?;
            let time = read_time(*time)?;
            Ok(Update::Change(Change::Done(event, time)))
        }
        LogChange::Merge { other } => Ok(Update::Merge(*other)),
        LogChange::Guard { owned } => Ok(Update::Guard(read_all_owned(alloc, owned)?)),
    }
}

/// A query whose words were read.
#[derive(Drop)]
pub enum Asked<'a, A: Allocator> {
    /// One without lists.
    Alone(LoneQuery),
    /// What is asked of the events of these steps, or of all, or of their starts alone, from a time on.
    Foresee {
        outlook: Outlook,
        now: Ms,
        steps: Option<Vec<StepRange, A>>,
        starts: bool,
    },
    /// Whether times are a schedule.
    Check(Vec<Ms, A>),
    /// The picture with this title, this present, or none, with arrows or without, and with steps of sites.
    Draw {
        title: &'a [u8],
        present: Option<Ms>,
        arrows: bool,
        owned: Vec<OwnedSteps, A>,
    },
}

impl<'a, A: Allocator> Asked<'a, A> {
    /// The query.
    pub fn query(&self) -> Query<'_>
        ensures { seen_query result ≡ seen_asked self.now }
    {
        match self {
            Asked::Alone(query) => Query::from(*query),
            Asked::Foresee {
                outlook,
                now,
                steps,
                starts,
            } => Query::Foresee(*outlook, *now, choice_of(steps, *starts)),
            Asked::Check(times) => Query::Check(times),
            Asked::Draw {
                title,
                present,
                arrows,
                owned,
            } => Query::Draw(Look {
                title: *title,
                present: *present,
                arrows: *arrows,
                owned,
            }),
        }
    }
}

// The choice of events that was asked for.
fn choice_of<A: Allocator>(steps: &Option<Vec<StepRange, A>>, starts: bool) -> Choice<'_>
    ensures { seen_choice result ≡ record { steps = option_map (λ all. all.items) steps.now; starts = starts } }
{
    match steps {
        Some(steps) => Choice {
            steps: Some(steps),
            starts,
        },
        None => Choice {
            steps: None,
            starts,
        },
    }
}

/// Reads the words of a question of a log. Refused for the first word that can't be read, in the order in which they are read:
/// steps before the time; of a picture the steps of sites, the arrows, the present. Lack of memory may come in place of any
/// answer.
pub fn read_question<'a, A: Allocator + Copy>(
    alloc: A,
    log: &SiteLog<'a>,
    question: &LogQuestion<'a>,
) -> Result<Asked<'a, A>, RefusedWord<'a>>
    ensures { MatchResult result (λ asked. question_read log.now question.now ≡ Ok (seen_asked asked))
        (λ refused. (refused.failure ≡ out_of_memory) ⊎ (question_read log.now question.now ≡ Err refused)) }
{
    match question {
        LogQuestion::Alone(query) => Ok(Asked::Alone(*query)),
        LogQuestion::Foresee {
            outlook,
            now,
            choice,
        } => read_foresee(alloc, *outlook, *now, choice),
        LogQuestion::Why { event, to } => Ok(Asked::Alone(LoneQuery::Ask(read_why(*event, *to)?))),
        LogQuestion::Check { times } => Ok(Asked::Check(read_times(alloc, times)?)),
        LogQuestion::Draw(drawing) => read_drawing(alloc, log, drawing),
    }
}

// What is asked of chosen events from a time on.
#[tactic(auto, unfolding(crate::specs::Words::among_read))]
fn read_foresee<'a, A: Allocator + Copy>(
    alloc: A,
    outlook: Outlook,
    now: &'a str,
    choice: &EventChoice<'a>,
) -> Result<Asked<'a, A>, RefusedWord<'a>>
    ensures { MatchResult result (λ asked. said.among_read outlook now.entry choice.now ≡ Ok (seen_asked asked))
        (λ refused. (refused.failure ≡ out_of_memory) ⊎ (said.among_read outlook now.entry choice.now ≡ Err refused)) }
{
    let steps = read_chosen(alloc, choice.steps)?;
    let now = read_time(now)?;
    Ok(Asked::Foresee {
        outlook,
        now,
        steps,
        starts: choice.starts,
    })
}

// How the plan of a log is drawn, with its name as the title.
#[tactic(auto, unfolding(crate::specs::Words::drawing_read))]
fn read_drawing<'a, A: Allocator + Copy>(
    alloc: A,
    log: &SiteLog<'a>,
    drawing: &DrawingWords<'a>,
) -> Result<Asked<'a, A>, RefusedWord<'a>>
    ensures { MatchResult result (λ asked. said.drawing_read log.now drawing.entry.now ≡ Ok (seen_asked asked))
        (λ refused. (refused.failure ≡ out_of_memory) ⊎ (said.drawing_read log.now drawing.entry.now ≡ Err refused)) }
{
    let owned = read_all_owned(alloc, &drawing.owned)?;
    let arrows = read_arrows(drawing.arrows)?;
    let present = read_present(drawing.now)?;
    Ok(Asked::Draw {
        title: log.name.as_bytes(),
        present,
        arrows,
        owned,
    })
}

/// The word that refuses a command, where one does: the first that says nothing, in the order in which they are read. What a log
/// or the command itself refuses is no word's fault.
pub fn refused_word<'a, A: Allocator + Copy>(
    alloc: A,
    line: &Line<'a>,
) -> Result<Option<RefusedWord<'a>>, Memory>
    ensures { IfOk result (λ refused. refused ≡ said.word_refused line.now) }
{
    match line {
        Line::Make(_, NewLog::Loosen { early, late, .. }) => {
            refused_by(read_tolerance(*early, *late))
        }
        Line::Change(_, change) => refused_by(read_update(alloc, change)),
        Line::Ask(log, question, _) => refused_by(read_question(alloc, log, question)),
        Line::Make(_, NewLog::Bare { .. } | NewLog::Init { .. })
        | Line::Run
        | Line::Explain { .. }
        | Line::Shell { .. }
        | Line::Serve { .. }
        | Line::Send { .. } => Ok(None),
    }
}

// The word at which reading ended, where it says nothing.
fn refused_by<'a, T: Drop>(
    read: Result<T, RefusedWord<'a>>,
) -> Result<Option<RefusedWord<'a>>, Memory>
    ensures { IfOk result (λ found. (found ≡ said.refused_by read.entry) × IfErr read.entry (λ refused. ¬ (refused.failure ≡ out_of_memory))) }
{
    match read {
        Ok(_) => Ok(None),
        Err(refused) => match refused.failure {
            Failure::Refused(_) => Ok(Some(refused)),
            Failure::Failed(_) => Err(AllocError),
        },
    }
}
