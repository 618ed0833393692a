//! Has each request for memory, each read and each write of a call refused in turn, and the call then made again. A line has the name
//! of a test, the call, and what it works on, as bytes in hex, in words:
//!
//! - `encode`, `decode`: a frame; `feed`: frames.
//! - `serve`: the log of a replica of site 1, and the frames of a session.
//! - `ask`: a log, and the frames that `send_requests` writes. `receive`: the replies that `receive_replies` reads; the first two
//!   words are the logs of before and after.
//! - `save`, `load`: a log.
//!
//! What `decode`, `feed` and `load` read is written again as these bytes, or as those after a word `=`, as of old frames.
//!
//! It prints the name, of a session how many frames it answered and how it ended, and how many requests, reads and writes were
//! refused in turn, if each was answered as it must be.

mod exchanges;
mod frames;
mod logs;
mod sessions;
mod sweep;
mod trials;
mod words;

use crate::calls::exchanges::Replies;
use crate::calls::logs::{Output, Task};
use crate::calls::sessions::{Talk, add_stages, end_of};
use crate::calls::trials::{Call, asks, encodes, reads, serves, writes};
use crate::calls::words::{frames_of, joined};
use crate::words::cut_word;
use std::alloc::Global;
use std::io;
use stn_refusing::Refused;

// What a session came to, and the refused calls that it answers.
fn print_session(rt: &HostRuntime, talk: Talk) -> io::Result<Option<Refused>> {
    let Some(served) = end_of(talk) else {
        return Ok(None);
    };
    print!(rt; "{} frames, {:?}: ", served.frames, served.end)?;
    Ok(serves(rt.alloc(), talk))
}

fn sweep_session(
    rt: &HostRuntime,
    log: &[u8],
    frames: &[Vec<u8>],
    bytes: &[u8],
) -> io::Result<Option<Refused>> {
    let mut stages = Vec::new(rt.alloc());
    if add_stages(rt.alloc(), log, frames, bytes, &mut stages) {
        print_session(
            rt,
            Talk {
                log,
                frames,
                bytes,
                stages: &stages,
            },
        )
    } else {
        Ok(None)
    }
}

fn sweep_replies(alloc: Global, log: &[u8], rest: &[Vec<u8>]) -> io::Result<Option<Refused>> {
    let Some((after, frames)) = rest.split_first() else {
        return Ok(None);
    };
    let bytes = joined(alloc, frames)?;
    let replies = Replies {
        log,
        frames,
        bytes: &bytes,
        after,
    };
    Ok(reads(alloc, Call::Receive(replies)))
}

// A call that writes of the replica that the log opens.
fn sweep_output(alloc: Global, output: Output, log: &[u8], wanted: &[u8]) -> Option<Refused> {
    let task = Task {
        output,
        log,
        wanted,
    };
    writes(alloc, Call::Write(task))
}

// A call that works on a log and frames.
fn sweep_exchange(
    rt: &HostRuntime,
    call: &str,
    log: &[u8],
    frames: &[Vec<u8>],
) -> io::Result<Option<Refused>> {
    let bytes = joined(rt.alloc(), frames)?;
    match call {
        "serve" => sweep_session(rt, log, frames, &bytes),
        "ask" => Ok(sweep_output(rt.alloc(), Output::Requests, log, &bytes)),
        "receive" => sweep_replies(rt.alloc(), log, frames),
        _ => Ok(None),
    }
}

// A call that works on these bytes, and comes to the wanted ones; or another call.
fn sweep_bytes(
    rt: &HostRuntime,
    call: &str,
    words: &[Vec<u8>],
    bytes: &[u8],
    wanted: &[u8],
) -> io::Result<Option<Refused>> {
    let alloc = rt.alloc();
    match call {
        "encode" => Ok(encodes(alloc, bytes)),
        "decode" => Ok(asks(alloc, Call::Decode(bytes, wanted))),
        "feed" => Ok(asks(alloc, Call::Feed(bytes, wanted))),
        "save" => Ok(sweep_output(alloc, Output::Log, bytes, bytes)),
        "load" => Ok(reads(alloc, Call::Load(bytes, wanted))),
        _ => match words.split_first() {
            Some((log, frames)) => sweep_exchange(rt, call, log, frames),
            None => Ok(None),
        },
    }
}

fn sweep_words(
    rt: &HostRuntime,
    call: &str,
    words: &[Vec<u8>],
    wanted: &[Vec<u8>],
) -> io::Result<Option<Refused>> {
    let bytes = joined(rt.alloc(), words)?;
    let wanted = joined(rt.alloc(), wanted)?;
    sweep_bytes(rt, call, words, &bytes, &wanted)
}

// The refused calls that a call answers; none where it does not answer each.
fn sweep_line(rt: &HostRuntime, call: &str, words: &str) -> io::Result<Option<Refused>> {
    let (words, wanted) = words.split_once(" = ").unwrap_or((words, words));
    let words = frames_of(rt.alloc(), words)?;
    let wanted = frames_of(rt.alloc(), wanted)?;
    sweep_words(rt, call, &words, &wanted)
}

/// Prints the name that a line gives its call, and how many requests, reads and writes of it were refused in turn, and answered as they
/// must be.
pub fn answer(rt: &HostRuntime, line: &str) -> io::Result<()> {
    let (name, rest) = cut_word(line);
    let (call, words) = cut_word(rest);
    print!(rt; "{name}: ")?;
    match sweep_line(rt, call, words)? {
        Some(refused) => println!(rt; "{refused}"),
        None => println!(rt; "a refused call is not answered"),
    }
}
