ghost use Rattle.std.specs.Prelude.{◌≡◌};
ghost use Rattle.stn_effects.specs.Effects.{seen};
ghost use Rattle.stn_text.specs.Lines.{words_of};
ghost use Rattle.stn_command.specs.Query.{seen_query};
ghost use Rattle.stn_exec.specs.{Command.{send_items, check_read}, Effect.{changing, action_effect}, Saying.{IsEffect, TellsAsked, call_answer, sent_answer}};

use crate::answer::Answer;
use crate::command::read_items;
use crate::reading::read_times;
use std::alloc::Allocator;
use stn_command::{Made, Query, append_said};
use stn_refusal::Failure;
use stn_site::{Change, SitePlan};
use stn_world::World;

/// Changes what a site holds, if the words of the change could be read.
pub fn change<A: Allocator + Copy>(
    world: &mut World<A, SitePlan<A>>,
    site: u32,
    asked: Result<Change, Failure>,
) -> Result<Answer, Failure>
    ensures { IsEffect result world.new (changing world.old site asked) }
{
    let asked = asked?;
    let id = world.change(site, &asked)?;
    Ok(Answer::Changed(Made::of(&asked, id)))
}

/// Sends the records of a site that the words of a line name, with the ids that they replace, and the
/// withdrawn ids that they name.
pub fn send<A: Allocator + Copy>(
    alloc: A,
    world: &mut World<A, SitePlan<A>>,
    site: u32,
    items: &[u8],
) -> Result<Answer, Failure>
    ensures { IsEffect result world.new (action_effect world.old site (send_items (words_of items.now))) }
{
    let (records, tombstones) = read_items(alloc, items)?;
    sent(world.send(site, &records, &tombstones))
}

/// What a call that sends answers.
pub fn sent(call: Result<u16, Failure>) -> Result<Answer, Failure>
    ensures { result ≡ sent_answer call }
{
    match call {
        Ok(number) => Ok(Answer::Sent(number)),
        Err(failure) => Err(failure),
    }
}

/// What a call that makes nothing answers.
pub fn answered(call: Result<(), Failure>, answer: Answer) -> Result<Answer, Failure>
    ensures { result ≡ call_answer call answer }
{
    match call {
        Ok(()) => Ok(answer),
        Err(failure) => Err(failure),
    }
}

/// Appends what a site's copy of the plan says to a query, if the words of the query could be read.
pub fn tell<A: Allocator + Copy>(
    plan: &SitePlan<A>,
    asked: &Result<Query<'_>, Failure>,
    out: &mut Vec<u8, A>,
) -> Result<(), Failure>
    ensures { TellsAsked plan.now (seen seen_query asked.now) out.old.items out.new.items result }
{
    match asked {
        Ok(asked) => append_said(plan, asked, out),
        Err(failure) => Err(*failure),
    }
}

/// Appends whether the times that the words of a line spell are a schedule.
pub fn tell_check<A: Allocator + Copy>(
    alloc: A,
    plan: &SitePlan<A>,
    line: &[u8],
    out: &mut Vec<u8, A>,
) -> Result<(), Failure>
    ensures { TellsAsked plan.now (check_read (words_of line.now)) out.old.items out.new.items result }
{
    let times = read_times(alloc, line)?;
    append_said(plan, &Query::Check(&times), out)
}
