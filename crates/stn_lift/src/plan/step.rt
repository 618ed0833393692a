//! The steps of a plan, and how one is read from a line.

ghost use Rattle.std.specs.{Prelude.◌≡◌, Option.option_map};
ghost use Rattle.std.specs.Int as int;
ghost use Rattle.stn_text.specs.Faults.{Returns};
ghost use Rattle.stn_lift.specs.Plan.{Tokens.tokens_of, Steps.{is_plan_memory, args_of, duration_form, form_of, time_at, duration_of, timed_step, step_of}, Views.{names_of, word_of, form_in, planned_step}};

use crate::plan::bytes::Mark;
use crate::plan::fault::PlanFault;
use crate::plan::tokens::{Token, Tokens};
use std::alloc::Allocator;
use stn_time::Ms;

/// One step of a plan: an action that starts at a time.
#[derive(Drop)]
pub struct Step<'a, A: Allocator> {
    /// The line of the text that it stands on, counted from 1.
    pub line: u32,
    /// When it starts; in a plan never below 0.
    pub time: Ms,
    /// The action's name.
    pub action: &'a [u8],
    /// The arguments of the action, in order.
    pub args: Vec<&'a [u8], A>,
    /// How long it lasts, where the line says so; in a plan never below 0.
    pub duration: Option<Ms>,
}

/// The words of a line that has the form of a step.
#[derive(Drop)]
struct Words<'a, A: Allocator> {
    time: &'a [u8],
    action: &'a [u8],
    args: Vec<&'a [u8], A>,
    duration: Option<&'a [u8]>,
}

/// Takes words up to a `)`, and takes that too.
#[tactic(auto, unfolding(crate::specs::Plan::Steps::args_of))]
fn read_args<'a, A: Allocator + Copy>(
    alloc: A,
    line: u32,
    tokens: &mut Tokens<'a>,
) -> Result<Vec<&'a [u8], A>, PlanFault>
    ensures { Returns is_plan_memory (λ args. (names_of args, tokens.new)) result (args_of line tokens.old) }
{
    let mut args = Vec::new(alloc);
    loop {
        match tokens.next_token() {
            Some(Token::Word(word)) => args.push(word).map_err(|_| PlanFault::Memory)?,
            Some(Token::Mark(Mark::Close)) => return Ok(args),
            _ => return Err(PlanFault::Syntax(line)),
        }
    }
}

/// Takes all tokens that are left: none, or a word in square brackets.
#[tactic(auto, unfolding(crate::specs::Plan::Steps::duration_form))]
fn read_duration<'a>(line: u32, tokens: &mut Tokens<'a>) -> Result<Option<&'a [u8]>, PlanFault>
    ensures { Returns is_plan_memory (option_map word_of) result (duration_form line tokens.old) }
{
    let syntax = PlanFault::Syntax(line);
    match tokens.next_token() {
        None => return Ok(None),
        Some(Token::Mark(Mark::OpenSquare)) => {}
        _ => return Err(syntax),
    }
    let Some(Token::Word(word)) = tokens.next_token() else {
        return Err(syntax);
    };
    let Some(Token::Mark(Mark::CloseSquare)) = tokens.next_token() else {
        return Err(syntax);
    };
    match tokens.next_token() {
        None => Ok(Some(word)),
        Some(_) => Err(syntax),
    }
}

/// The words of a line that has tokens.
#[tactic(auto, unfolding(crate::specs::Plan::Steps::form_of))]
fn read_words<'a, A: Allocator + Copy>(
    alloc: A,
    line: u32,
    tokens: &mut Tokens<'a>,
) -> Result<Words<'a, A>, PlanFault>
    ensures { Returns is_plan_memory form_in result (form_of line tokens.old) }
{
    let syntax = PlanFault::Syntax(line);
    let Some(Token::Word(time)) = tokens.next_token() else {
        return Err(syntax);
    };
    let Some(Token::Mark(Mark::Colon)) = tokens.next_token() else {
        return Err(syntax);
    };
    let Some(Token::Mark(Mark::Open)) = tokens.next_token() else {
        return Err(syntax);
    };
    let Some(Token::Word(action)) = tokens.next_token() else {
        return Err(syntax);
    };
    let args = read_args(alloc, line, tokens)?;
    let duration = read_duration(line, tokens)?;
    Ok(Words {
        time,
        action,
        args,
        duration,
    })
}

/// Whether the time is below 0.
fn is_negative(time: Ms) -> bool
    ensures { result ≡ int.is_negative time }
{
    time.get() < 0
}

/// The time that a word spells.
#[tactic(auto, unfolding(crate::specs::Plan::Steps::time_at))]
fn read_time(line: u32, word: &[u8]) -> Result<Ms, PlanFault>
    ensures { Returns is_plan_memory (λ time. time) result (time_at line word.now) }
{
    Ms::read(word).map_err(|_| PlanFault::Number(line))
}

/// The time that the word of a duration spells, where there is one.
#[tactic(auto, unfolding(crate::specs::Plan::Steps::duration_of))]
fn read_duration_time(line: u32, word: Option<&[u8]>) -> Result<Option<Ms>, PlanFault>
    ensures { Returns is_plan_memory (λ duration. duration) result (duration_of line (option_map word_of word.entry)) }
{
    match word {
        Some(word) => Ok(Some(read_time(line, word)?)),
        None => Ok(None),
    }
}

/// The step of the words of a line.
#[tactic(auto, unfolding(crate::specs::Plan::Steps::timed_step, crate::specs::Plan::Steps::step_at))]
fn timed<'a, A: Allocator>(line: u32, words: Words<'a, A>) -> Result<Step<'a, A>, PlanFault>
    ensures { Returns is_plan_memory planned_step result (timed_step line (form_in words.entry)) }
{
    let Words {
        time,
        action,
        args,
        duration,
    } = words;
    let time = read_time(line, time)?;
    let duration = read_duration_time(line, duration)?;
    if is_negative(time) || matches!(duration, Some(duration) if is_negative(duration)) {
        return Err(PlanFault::Negative(line));
    }
    Ok(Step {
        line,
        time,
        action,
        args,
        duration,
    })
}

/// The step of a line, none where the line has no tokens.
#[tactic(auto, unfolding(crate::specs::Plan::Steps::step_of))]
pub fn read_step<'a, A: Allocator + Copy>(
    alloc: A,
    line: u32,
    bytes: &'a [u8],
) -> Result<Option<Step<'a, A>>, PlanFault>
    ensures { Returns is_plan_memory (option_map planned_step) result (step_of line (tokens_of bytes.now)) }
{
    let mut tokens = Tokens::new(bytes);
    if tokens.is_empty() {
        return Ok(None);
    }
    let words = read_words(alloc, line, &mut tokens)?;
    Ok(Some(timed(line, words)?))
}
