//! Commands of logs over a store in memory.

use crate::{append_words, cut_word, text_of};
use std::alloc::Global;
use std::io;
use std::io::{Error, Write};
use stn_line::{Line, line};
use stn_logs::answer;
use stn_refusal::{Failure, Refusal};
use stn_store::MemoryStore;

/// Puts a text whose lines `|` parts under a name.
pub fn put(alloc: Global, store: &mut MemoryStore<Global>, words: &str) -> io::Result<()> {
    let (name, lines) = cut_word(words);
    match store.put(name, text_of(alloc, lines)?) {
        Ok(()) => Ok(()),
        Err(_) => Err(Error::other("no memory")),
    }
}

fn print_refusal(rt: &HostRuntime, refusal: Refusal) -> io::Result<()> {
    let mut text = Vec::new(rt.alloc());
    refusal.print(&mut text)?;
    io::writer(rt).write_all(&text)
}

// Prints an answer, or the failure that there is in its place.
fn print_answer(rt: &HostRuntime, answer: Result<Vec<u8>, Failure>) -> io::Result<()> {
    match answer {
        Ok(text) => io::writer(rt).write_all(&text),
        Err(Failure::Refused(refusal)) => print_refusal(rt, refusal),
        Err(Failure::Failed(fault)) => io::writer(rt).write_all(fault.text()),
    }
}

// Does a command on a log, and prints what it answers.
fn run_line(rt: &HostRuntime, store: &mut MemoryStore<Global>, line: &Line<'_>) -> io::Result<()> {
    match line {
        Line::Run | Line::Serve { .. } | Line::Send { .. } => {
            Err(Error::other("no command of a log"))
        }
        Line::Make(..)
        | Line::Change(..)
        | Line::Ask(..)
        | Line::Explain { .. }
        | Line::Shell { .. } => print_answer(rt, answer(rt.alloc(), store, line)),
    }
}

// Does the command of these words, and prints what it answers.
fn run_words(rt: &HostRuntime, store: &mut MemoryStore<Global>, words: &[&str]) -> io::Result<()> {
    match line(rt.alloc(), words) {
        Ok(line) => {
            let answer = run_line(rt, store, &line);
            drop(line);
            answer
        }
        Err(_) => Err(Error::other("no command of a log")),
    }
}

/// Does the command of a line, and prints what it answers, or why it is refused.
pub fn run_in_memory(
    rt: &HostRuntime,
    store: &mut MemoryStore<Global>,
    line: &str,
) -> io::Result<()> {
    let mut words = Vec::new(rt.alloc());
    append_words(line, &mut words)?;
    run_words(rt, store, &words)
}
