//! Logs that are loaded for site 1. A line has a name, how many bytes a call of the reader hands on at most, which of its calls fails
//! (0: none), and the log in hex, in words, of which `N*HEX` stands for so many times these bytes.
//!
//! For each it prints the name, how many bytes the reader handed on, and the log that the replica saves, in hex, or why there is none.

use crate::held::saved;
use crate::words::{Row, bytes_of, next_row};
use std::alloc::Global;
use std::io;
use std::io::{Error, ErrorKind, Read};
use std::str::SplitWhitespace;
use stn_device::Counted;
use stn_records::Site;
use stn_replica::Replica;
use stn_store::{LoadFault, load};

/// Some bytes of a log, so many times.
#[derive(Drop)]
struct Part {
    times: u64,
    bytes: Vec<u8>,
}

// A reader that hands on at most `piece` bytes a call, never of two parts, and fails at the call of a number, counted from 1.
#[derive(Drop)]
struct PartReader<'a> {
    // What is left of the bytes that are handed on, and how often they come again.
    rest: &'a [u8],
    bytes: &'a [u8],
    again: u64,
    later: &'a [Part],
    piece: usize,
    calls: u64,
    fails_at: u64,
    handed: u64,
}

impl PartReader<'_> {
    // Goes on to the bytes that come next.
    fn go_on(&mut self) {
        if self.again > 0 {
            self.again -= 1;
            self.rest = self.bytes;
        } else if let Some((part, later)) = self.later.split_first() {
            self.bytes = &part.bytes;
            self.again = part.times.saturating_sub(1);
            self.rest = self.bytes;
            self.later = later;
        }
    }
}

impl Read for PartReader<'_> {
    fn read(&mut self, buf: &mut [u8]) -> io::Result<usize> {
        self.calls = self.calls.saturating_add(1);
        if self.calls == self.fails_at {
            return Err(Error::from(ErrorKind::Interrupted));
        }
        if self.rest.is_empty() {
            self.go_on();
        }
        let count = self.piece.min(self.rest.len()).min(buf.len());
        let (front, rest) = self.rest.split_at(count);
        buf[..count].copy_from_slice(front);
        self.rest = rest;
        self.handed = self.handed.saturating_add(count as u64);
        Ok(count)
    }
}

// The part that a word names.
fn part_of(alloc: Global, word: &str) -> io::Result<Part> {
    let (times, digits) = word.split_once('*').unwrap_or(("1", word));
    Ok(Part {
        times: times.parse::<u64>().unwrap_or(0),
        bytes: bytes_of(alloc, digits)?,
    })
}

fn push_part(word: &str, parts: &mut Vec<Part>) -> io::Result<()> {
    let part = part_of(*parts.allocator(), word)?;
    Ok(parts.push(part)?)
}

fn append_parts(words: SplitWhitespace<'_>, parts: &mut Vec<Part>) -> io::Result<()> {
    for word in words {
        push_part(word, parts)?;
    }
    Ok(())
}

fn print_log(rt: &HostRuntime, name: &str, handed: u64, log: &[u8]) -> io::Result<()> {
    let digits = hex::encode(rt.alloc(), log)?;
    println!(rt; "{name} {handed} {digits}")
}

fn print_saved(
    rt: &HostRuntime,
    name: &str,
    handed: u64,
    replica: &Replica<Global>,
) -> io::Result<()> {
    match saved(rt.alloc(), replica) {
        Some(log) => print_log(rt, name, handed, &log),
        None => println!(rt; "{name} {handed} not saved"),
    }
}

fn print_answer(
    rt: &HostRuntime,
    name: &str,
    handed: u64,
    answer: Result<Replica<Global>, LoadFault>,
) -> io::Result<()> {
    match answer {
        Ok(replica) => {
            let printed = print_saved(rt, name, handed, &replica);
            drop(replica);
            printed
        }
        Err(fault) => println!(rt; "{name} {handed} {fault}"),
    }
}

fn answer_row(rt: &HostRuntime, row: &Row<'_>, parts: &[Part]) -> io::Result<()> {
    let mut reader = Counted::new(PartReader {
        rest: &[],
        bytes: &[],
        again: 0,
        later: parts,
        piece: row.piece,
        calls: 0,
        fails_at: row.fails_at,
        handed: 0,
    });
    let answer = load(rt.alloc(), &mut reader, Site::new(1).unwrap());
    print_answer(rt, row.word, reader.into_inner().handed, answer)
}

/// Prints the name that a line gives a log, how many bytes the reader handed on, and the log that the replica saves or why there
/// is none.
pub fn answer(rt: &HostRuntime, line: &str) -> io::Result<()> {
    let mut words = line.split_whitespace();
    let row = next_row(&mut words);
    let mut parts = Vec::new(rt.alloc());
    append_parts(words, &mut parts)?;
    answer_row(rt, &row, &parts)
}
