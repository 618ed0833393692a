//! Two sites, `a` and `b`, hold no records at first. Each line names one of them, a call, and the ids, events and times that the call
//! takes; the answer is a line. A line `= <name>` is printed, and after it both sites begin again.

mod changes;
mod joins;
mod print;
mod questions;
mod words;

use std::alloc::Global;
use std::io;
use std::io::Write;
use std::str::SplitWhitespace;
use stn_records::Records;
use stn_time::Memory;

// Asks a site what the words say, and appends the answer.
fn ask(
    ours: &mut Records<Global>,
    theirs: &Records<Global>,
    words: &mut SplitWhitespace<'_>,
    out: &mut Vec<u8>,
) -> Result<(), Memory> {
    let call = words::next_word(words);
    match changes::change(call, ours, theirs, words) {
        Some(said) => print::append_said(&said, out),
        None => questions::append_answer(call, ours, theirs, words, out),
    }
}

/// The records of two sites.
#[derive(Drop)]
pub struct Sites {
    a: Records<Global>,
    b: Records<Global>,
}

impl Sites {
    /// Two sites that hold no records.
    pub fn new(alloc: Global) -> Sites {
        Sites {
            a: Records::new(alloc),
            b: Records::new(alloc),
        }
    }

    // Appends a line, after which both sites begin again.
    fn append_heading(&mut self, line: &str, out: &mut Vec<u8>) -> Result<(), Memory> {
        *self = Sites::new(*out.allocator());
        out.extend_from_slice(line.as_bytes())
    }

    // Appends the answer to a line; a line that names no site is its own answer.
    fn append_answer(&mut self, line: &str, out: &mut Vec<u8>) -> Result<(), Memory> {
        let mut words = line.split_whitespace();
        match words::next_word(&mut words) {
            "a" => ask(&mut self.a, &self.b, &mut words, out),
            "b" => ask(&mut self.b, &self.a, &mut words, out),
            _ => self.append_heading(line, out),
        }
    }

    fn append_line(&mut self, line: &str, out: &mut Vec<u8>) -> Result<(), Memory> {
        self.append_answer(line, out)?;
        out.push(b'\n')?;
        Ok(())
    }
}

/// Prints the answer to a line.
pub fn answer(rt: &HostRuntime, sites: &mut Sites, line: &str) -> io::Result<()> {
    let mut out = Vec::new(rt.alloc());
    sites.append_line(line, &mut out)?;
    io::writer(rt).write_all(&out)
}
