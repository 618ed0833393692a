//! For tests: what calls that work on times, texts, records, frames, sessions and logs answer, and what scripts print. The input
//! consists of parts. A line `== NAME` begins a part, and is printed; the lines after it are answered as the module of this
//! name says. The parts are `logs`, `changed`, `random COUNT`, `sessions`, `calls`, `texts`, `records`, `scripts`.
//!
//! At its end it does the command of its own words as the process that it is. It is refused, so it ends with 1.
#![tactic(auto)]

mod calls;
mod case;
mod changed;
mod held;
mod logs;
mod random;
mod records;
mod scripts;
mod sessions;
mod tally;
mod texts;
mod words;

use crate::records::Sites;
use crate::scripts::Headed;
use crate::words::cut_word;
use std::alloc::Global;
use std::io;
use std::io::Error;
use std::process::ExitCode;
use stn_shell::program;

/// A part of the input.
#[derive(Clone, Copy)]
enum Part {
    Logs,
    Changed,
    /// So many of each kind.
    Random(u32),
    Sessions,
    Calls,
    Texts,
    Records,
    Scripts,
    /// None of these, whose lines have no answer.
    Other,
}

fn part_of(heading: &str) -> Part {
    match cut_word(heading) {
        ("logs", _) => Part::Logs,
        ("changed", _) => Part::Changed,
        ("random", count) => Part::Random(count.parse::<u32>().unwrap_or(0)),
        ("sessions", _) => Part::Sessions,
        ("calls", _) => Part::Calls,
        ("texts", _) => Part::Texts,
        ("records", _) => Part::Records,
        ("scripts", _) => Part::Scripts,
        _ => Part::Other,
    }
}

/// What the lines of a part leave for what comes after them.
#[derive(Drop)]
struct State {
    frames: Vec<Vec<u8>>,
    domain: String,
    sites: Sites,
    headed: Headed,
}

impl State {
    fn new(alloc: Global) -> State {
        State {
            frames: Vec::new(alloc),
            domain: String::new(alloc),
            sites: Sites::new(alloc),
            headed: Headed::new(alloc),
        }
    }
}

fn answer_line(rt: &HostRuntime, part: Part, state: &mut State, line: &str) -> io::Result<()> {
    match part {
        Part::Logs => logs::answer(rt, line),
        Part::Changed => changed::answer(rt, line),
        Part::Random(_) => random::take_frame(line, &mut state.frames),
        Part::Sessions => sessions::answer(rt, line),
        Part::Calls => calls::answer(rt, line),
        Part::Texts => texts::answer(rt, &mut state.domain, line),
        Part::Records => records::answer(rt, &mut state.sites, line),
        Part::Scripts => state.headed.take_row(rt, line),
        Part::Other => Err(Error::other("no such part")),
    }
}

// Prints what is printed once a part is over, and lets go of its frames.
fn end_part(rt: &HostRuntime, part: Part, state: &mut State) -> io::Result<()> {
    match part {
        Part::Random(count) => random::print_all(rt, count, &state.frames)?,
        Part::Scripts => state.headed.end(rt)?,
        _ => {}
    }
    state.frames.clear();
    Ok(())
}

fn take_line(rt: &HostRuntime, part: &mut Part, state: &mut State, line: &str) -> io::Result<()> {
    match line.strip_prefix("== ") {
        Some(heading) => {
            end_part(rt, *part, state)?;
            *part = part_of(heading);
            println!(rt; "{line}")
        }
        None => answer_line(rt, *part, state, line),
    }
}

fn answer_lines(rt: &HostRuntime, state: &mut State) -> io::Result<()> {
    let mut part = Part::Other;
    for line in rt.lines(rt.alloc()) {
        take_line(rt, &mut part, state, &line?)?;
    }
    end_part(rt, part, state)
}

fn main(rt: HostRuntime) -> io::Result<ExitCode> {
    let mut state = State::new(rt.alloc());
    let answer = answer_lines(&rt, &mut state);
    drop(state);
    answer?;
    Ok(program(&rt))
}
