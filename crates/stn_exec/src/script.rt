ghost use Rattle.std.specs.Prelude.{◌≡◌, ◌+◌, ◌^◌, ◌<◌, ◌≤◌, ◌∷◌, length, Err, OnOk, IfOk};
ghost use Rattle.stn_device.specs.Bytes.{most_bytes};
ghost use Rattle.stn_effects.specs.{Effects.failing, Printing.device_of};
ghost use Rattle.stn_text.specs.Lines.{lines_of, words_of};
ghost use Rattle.stn_refusal.specs.declared.failure.Failure.TheVariants.{Refused};
ghost use Rattle.stn_exec.specs.{Effect.command_effect, Failures.run_failure, Running.{seen_command, IsReplied}, Runs.{streams, PrintsReplies, RunsScript}, Saying.{IsDone, DoesCall}, Script.{line_effect, line_outcome, lines_outcome, started, script_outcome, last_line}, declared.script.RunFault.TheVariants.{Write, Memory}};

use crate::actions::{answered, change, send, sent, tell, tell_check};
use crate::answer::Answer;
use crate::command::{Action, Command, read_command};
use crate::heading::{open, opening_word};
use std::alloc::{AllocError, Allocator};
use std::io::{Read, Write};
use stn_device::{Counted, MOST_BYTES, ReadFault, WriteFault, read_whole, write_whole};
use stn_refusal::{Code, Failure, Fault, Refusal};
use stn_site::SitePlan;
use stn_text::first_line;
use stn_time::Memory;
use stn_world::World;
use thiserror::Error;

/// What a run did: how many lines after the heading are not skipped, and how many refused lines were printed, a
/// refused heading too.
#[derive(Clone, Copy, PartialEq, Eq)]
pub struct Ran {
    pub commands: u32,
    pub refused: u32,
}

/// Why a run ended before the end of its script.
#[derive(Clone, Copy, Debug, PartialEq, Eq, Error)]
pub enum RunFault {
    /// A call of the reader failed.
    #[error("a read failed")]
    Read,
    /// A call of the writer failed, or took nothing.
    #[error("a write failed")]
    Write,
    /// The script has more than `MOST_BYTES` bytes.
    #[error("the script is too long")]
    Bound,
    /// Memory was refused.
    #[error("out of memory")]
    Memory,
}

impl From<AllocError> for RunFault {
    ghost from_gives = { λ _ fault. fault ≡ Memory };

    fn from(_error: AllocError) -> RunFault {
        RunFault::Memory
    }
}

impl From<WriteFault> for RunFault {
    ghost from_gives = { λ _ fault. fault ≡ Write };

    fn from(_fault: WriteFault) -> RunFault {
        RunFault::Write
    }
}

impl From<RunFault> for Failure {
    ghost from_gives = { λ fault given. given ≡ run_failure fault };

    fn from(fault: RunFault) -> Failure {
        match fault {
            RunFault::Read => Failure::Failed(Fault::Read),
            RunFault::Write => Failure::Failed(Fault::Write),
            RunFault::Bound => Failure::Failed(Fault::Bound),
            RunFault::Memory => Failure::Failed(Fault::Memory),
        }
    }
}

// Runs the lines of a text, of which the first has this number.
fn run_lines<W: Write, A: Allocator + Copy>(
    alloc: A,
    world: &mut World<A, SitePlan<A>>,
    number: u32,
    text: &[u8],
    writer: &mut Counted<W>,
) -> Result<Ran, RunFault>
    requires { number + length text.now < 2 ^ 32 }
    ensures run { PrintsReplies (lines_outcome number world.old (lines_of text.now))
        (device_of W.contents writer.old) (device_of W.contents writer.new) (failing run_failure result) }
{
    let mut ran = Ran {
        commands: 0,
        refused: 0,
    };
    let mut at = number;
    let mut rest = text;
    while !rest.is_empty() {
        let (line, behind) = first_line(rest);
        let more = run_line(alloc, world, at, line, writer)?;
        ran.commands += more.commands;
        ran.refused += more.refused;
        at += 1;
        rest = behind;
    }
    Ok(ran)
}

// Runs one line.
fn run_line<W: Write, A: Allocator + Copy>(
    alloc: A,
    world: &mut World<A, SitePlan<A>>,
    number: u32,
    line: &[u8],
    writer: &mut Counted<W>,
) -> Result<Ran, RunFault>
    ensures run { PrintsReplies (line_outcome number world.old (words_of line.now))
        (device_of W.contents writer.old) (device_of W.contents writer.new) (failing run_failure result) }
    ensures world { OnOk result (world.new ≡ (line_outcome number world.old (words_of line.now)).world) }
{
    match opening_word(line) {
        Some((word, rest)) => {
            let mut out = Vec::new(alloc);
            let refused = reply_line(alloc, world, number, word, rest, &mut out)?;
            write_whole(writer, &out)?;
            Ok(Ran {
                commands: 1,
                refused: u32::from(refused),
            })
        }
        None => Ok(Ran {
            commands: 0,
            refused: 0,
        }),
    }
}

// Appends what a line that is not skipped prints, by its first word and what stands after it.
// Whether it is refused.
fn reply_line<A: Allocator + Copy>(
    alloc: A,
    world: &mut World<A, SitePlan<A>>,
    number: u32,
    word: &[u8],
    rest: &[u8],
    out: &mut Vec<u8, A>,
) -> Result<bool, Memory>
    ensures { IfOk result (IsReplied world.new out.old.items out.new.items (line_effect number world.old (word.now ∷ words_of rest.now))) }
{
    match do_line(alloc, world, number, word, rest, out) {
        Ok(()) => Ok(false),
        Err(Failure::Refused(refusal)) => {
            refusal.print(out)?;
            Ok(true)
        }
        Err(Failure::Failed(_)) => Err(AllocError),
    }
}

// Does what a line that is not skipped asks for, and appends what is answered.
fn do_line<A: Allocator + Copy>(
    alloc: A,
    world: &mut World<A, SitePlan<A>>,
    number: u32,
    word: &[u8],
    rest: &[u8],
    out: &mut Vec<u8, A>,
) -> Result<(), Failure>
    ensures { IsDone world.new out.old.items out.new.items (line_effect number world.old (word.now ∷ words_of rest.now)) result }
{
    match read_command(world.base().events(), word, rest) {
        Some(command) => do_command(alloc, world, &command, out),
        None => Err(Failure::refused_at(Code::Line, number)),
    }
}

// Does a command, where its site is there.
fn do_command<A: Allocator + Copy>(
    alloc: A,
    world: &mut World<A, SitePlan<A>>,
    command: &Command<'_>,
    out: &mut Vec<u8, A>,
) -> Result<(), Failure>
    ensures { IsDone world.new out.old.items out.new.items (command_effect world.old (seen_command command.now)) result }
{
    let site = command.site;
    match world.replica(site) {
        Some(plan) => match &command.action {
            Action::Change(asked) => print_answer(change(world, site, *asked), out),
            Action::Merge(other) => {
                print_answer(answered(world.merge(site, *other), Answer::Merged), out)
            }
            Action::SendAll => print_answer(sent(world.send_all(site)), out),
            Action::Send(items) => print_answer(send(alloc, world, site, items), out),
            Action::Deliver(packet) => {
                let call = world.deliver(site, *packet);
                print_answer(answered(call, Answer::Delivered), out)
            }
            Action::Check(times) => tell_check(alloc, plan, times, out),
            Action::Query(asked) => tell(plan, asked, out),
        },
        None => Err(Failure::refused(Code::NoSite)),
    }
}

// Appends what a call answered, if it did.
fn print_answer<A: Allocator>(
    outcome: Result<Answer, Failure>,
    out: &mut Vec<u8, A>,
) -> Result<(), Failure>
    ensures { DoesCall outcome out.old.items out.new.items result }
{
    let answer = outcome?;
    answer.print(out)?;
    Ok(())
}

// Runs a script that was read whole.
fn run_script<W: Write, A: Allocator + Copy>(
    alloc: A,
    script: &[u8],
    writer: &mut Counted<W>,
) -> Result<Ran, RunFault>
    requires { length script.now ≤ most_bytes }
    ensures run { PrintsReplies (script_outcome script.now)
        (device_of W.contents writer.old) (device_of W.contents writer.new) (failing run_failure result) }
{
    match open(alloc, number_behind(script), script) {
        Ok((mut world, commands)) => {
            run_lines(alloc, &mut world, commands.number, commands.text, writer)
        }
        Err(Failure::Refused(refusal)) => refuse(alloc, refusal, writer),
        Err(Failure::Failed(_)) => Err(RunFault::Memory),
    }
}

// Writes the refusal of a heading.
fn refuse<W: Write, A: Allocator + Copy>(
    alloc: A,
    refusal: Refusal,
    writer: &mut Counted<W>,
) -> Result<Ran, RunFault>
    ensures run { PrintsReplies (started (Err (Refused refusal)))
        (device_of W.contents writer.old) (device_of W.contents writer.new) (failing run_failure result) }
{
    let mut out = Vec::new(alloc);
    refusal.print(&mut out)?;
    write_whole(writer, &out)?;
    Ok(Ran {
        commands: 0,
        refused: 1,
    })
}

// The number of the line after the last LF.
fn number_behind(script: &[u8]) -> u32
    requires { length script.now ≤ most_bytes }
    ensures { result ≡ last_line script.now }
{
    script.iter().filter(|byte| **byte == b'\n').count() as u32 + 1
}

/// Reads a script to its end, then runs it, and writes what its lines print.
///
/// Faults: `Read`, `Bound` and `Memory` of the read, after which nothing is written; then `Write` and `Memory`, after which a
/// front part of the output is.
pub fn run<R: Read, W: Write, A: Allocator + Copy>(
    alloc: A,
    reader: &mut Counted<R>,
    writer: &mut Counted<W>,
) -> Result<Ran, RunFault>
    ensures runs { RunsScript (streams (device_of R.remaining reader.old) (device_of W.contents writer.old))
        (streams (device_of R.remaining reader.new) (device_of W.contents writer.new)) (failing run_failure result) }
{
    match read_whole(alloc, reader, MOST_BYTES) {
        Ok(script) => run_script(alloc, &script, writer),
        Err(ReadFault::Read) => Err(RunFault::Read),
        Err(ReadFault::Bound) => Err(RunFault::Bound),
        Err(ReadFault::Memory) => Err(RunFault::Memory),
    }
}
