//! Sessions and exchanges over a plan of one step. A line has a name, which is printed, a word, how many bytes a call of the reader
//! hands on at most, which of its calls fails (0: none), and the bytes that it gives in hex, in words.
//!
//! - `serve`: a session of a new replica of site 1. It prints the replies in hex, how many frames were answered, and how it ended.
//! - `receive`: an exchange of a new replica of site 2. It prints what is asked in hex, the answer, the text that came in hex, and what
//!   the replica then reports, in hex.
//!
//! A line `limits` has no more words: sessions and frames as long as may be, and longer, are tried, and what each came to is printed.

ghost use Rattle.std.specs.Prelude.{◌-◌, ◌^◌, ◌<◌};
ghost use Rattle.stn_device.specs.Counted.{failure_count};

mod limits;

use crate::case::replica_code;
use crate::held::new_replica;
use crate::sessions::limits::print_limits;
use crate::words::{Row, bytes_of, cut_word, next_row, print_hex};
use std::alloc::Global;
use std::io;
use std::io::{Read, Write};
use std::str::SplitWhitespace;
use stn_device::Counted;
use stn_records::Site;
use stn_refusing::PieceReader;
use stn_replica::Replica;
use stn_session::{End, ReplyFault, ServeFault, Served, receive_replies, send_requests, serve};

// A session of a new replica of site 1.
fn serve_anew<R: Read, W: Write>(
    alloc: Global,
    reader: &mut Counted<R>,
    writer: &mut Counted<W>,
) -> Result<Served, ServeFault>
    requires reader_counts { failure_count reader.old < 2 ^ 64 - 1 }
    requires writer_counts { failure_count writer.old < 2 ^ 64 - 1 }
{
    match new_replica(alloc, Site::new(1).unwrap()) {
        Ok(mut replica) => serve(alloc, reader, writer, &mut replica),
        Err(_) => Err(ServeFault::Memory),
    }
}

fn word_of_end(end: End) -> (&'static str, u8) {
    match end {
        End::Closed => ("closed", 0),
        End::Cut => ("cut", 0),
        End::Refused(code) => ("refused", code),
    }
}

fn word_of_fault(fault: ServeFault) -> &'static str {
    match fault {
        ServeFault::Read => "read",
        ServeFault::Write => "write",
        ServeFault::Bound => "bound",
        ServeFault::Memory => "memory",
    }
}

// How many frames were answered, and how the session ended.
fn end_of(served: Result<Served, ServeFault>) -> (u32, (&'static str, u8)) {
    match served {
        Ok(served) => (served.frames, word_of_end(served.end)),
        Err(fault) => (0, (word_of_fault(fault), 0)),
    }
}

fn print_session(
    rt: &HostRuntime,
    replies: &[u8],
    served: Result<Served, ServeFault>,
) -> io::Result<()> {
    print_hex(rt, replies)?;
    let (frames, (end, code)) = end_of(served);
    println!(rt; " {frames} {end} {code}")
}

fn serve_row(rt: &HostRuntime, reader: PieceReader<'_>) -> io::Result<()> {
    let mut reader = Counted::new(reader);
    let mut writer = Counted::new(Vec::new(rt.alloc()));
    let served = serve_anew(rt.alloc(), &mut reader, &mut writer);
    print_session(rt, &writer.into_inner(), served)
}

// What a replica asks.
fn print_requests(rt: &HostRuntime, replica: &Replica<Global>) -> io::Result<()> {
    let mut writer = Counted::new(Vec::new(rt.alloc()));
    match send_requests(rt.alloc(), replica, &mut writer) {
        Ok(()) => print_hex(rt, &writer.into_inner()),
        Err(failure) => print!(rt; "{failure:?}"),
    }
}

fn fault_of(fault: ReplyFault) -> (&'static str, u8) {
    match fault {
        ReplyFault::Refused(code) => ("refused", code),
        ReplyFault::Frame(fault) => ("fault", fault.code()),
        ReplyFault::Reply => ("reply", 63),
        ReplyFault::Replica(fault) => ("replica", replica_code(fault)),
        ReplyFault::Read => ("read", 0),
        ReplyFault::Bound => ("bound", 0),
        ReplyFault::Memory => ("memory", 0),
    }
}

fn print_text(rt: &HostRuntime, text: &[u8]) -> io::Result<()> {
    print!(rt; " ok 0 ")?;
    print_hex(rt, text)
}

fn print_fault(rt: &HostRuntime, fault: ReplyFault) -> io::Result<()> {
    let (word, code) = fault_of(fault);
    print!(rt; " {word} {code} ")
}

// What a replica makes of replies: the answer, its code, and the text.
fn print_answer(
    rt: &HostRuntime,
    reader: PieceReader<'_>,
    replica: &mut Replica<Global>,
) -> io::Result<()> {
    let mut reader = Counted::new(reader);
    match receive_replies(rt.alloc(), &mut reader, replica) {
        Ok(text) => print_text(rt, &text),
        Err(fault) => print_fault(rt, fault),
    }
}

fn print_report(rt: &HostRuntime, replica: &Replica<Global>) -> io::Result<()> {
    let mut report = Vec::new(rt.alloc());
    replica.report(&mut report)?;
    print_hex(rt, &report)
}

fn print_exchange(
    rt: &HostRuntime,
    reader: PieceReader<'_>,
    replica: &mut Replica<Global>,
) -> io::Result<()> {
    print_requests(rt, replica)?;
    print_answer(rt, reader, replica)?;
    print!(rt; " ")?;
    print_report(rt, replica)?;
    println!(rt;)
}

fn receive_row(rt: &HostRuntime, reader: PieceReader<'_>) -> io::Result<()> {
    let mut replica = new_replica(rt.alloc(), Site::new(2).unwrap())?;
    let answer = print_exchange(rt, reader, &mut replica);
    drop(replica);
    answer
}

// Prints the name of a row, and what comes of it.
fn answer_row(rt: &HostRuntime, name: &str, row: &Row<'_>, bytes: &[u8]) -> io::Result<()> {
    let reader = PieceReader {
        rest: bytes,
        piece: row.piece,
        calls: 0,
        fails_at: row.fails_at,
    };
    print!(rt; "{name}: ")?;
    match row.word {
        "serve" => serve_row(rt, reader),
        _ => receive_row(rt, reader),
    }
}

fn append_word(word: &str, bytes: &mut Vec<u8>) -> io::Result<()> {
    let more = bytes_of(*bytes.allocator(), word)?;
    Ok(bytes.extend_from_slice(&more)?)
}

fn append_bytes(words: SplitWhitespace<'_>, bytes: &mut Vec<u8>) -> io::Result<()> {
    for word in words {
        append_word(word, bytes)?;
    }
    Ok(())
}

// The session or the exchange of the words of a line.
fn answer_words(rt: &HostRuntime, name: &str, rest: &str) -> io::Result<()> {
    let mut words = rest.split_whitespace();
    let row = next_row(&mut words);
    let mut bytes = Vec::new(rt.alloc());
    append_bytes(words, &mut bytes)?;
    answer_row(rt, name, &row, &bytes)
}

/// Prints the name that a line gives its session or exchange, and what comes of it.
pub fn answer(rt: &HostRuntime, line: &str) -> io::Result<()> {
    match cut_word(line) {
        ("limits", _) => print_limits(rt),
        (name, rest) => answer_words(rt, name, rest),
    }
}
