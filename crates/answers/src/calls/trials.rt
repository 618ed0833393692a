// Calls, of which each request for memory, each read and each write is refused in turn.
use crate::calls::exchanges::{Replies, receive_refused};
use crate::calls::frames::{decode_refused, encode_refused, feed_refused};
use crate::calls::logs::{Task, load_refused, write_refused};
use crate::calls::sessions::{Talk, serve_refused};
use crate::calls::sweep::{EACH_BYTE, Failing, Kind, Trial};
use std::alloc::Global;
use stn_refusing::{Outcome, Refused, Refusing, count_refused};
use stn_wire::{Frame, decode};

/// A call, with what it works on and what it must come to.
#[derive(Clone, Copy)]
pub enum Call<'a> {
    /// `encode` of a frame, as these bytes.
    Encode(&'a Frame<Global>, &'a [u8]),
    /// `decode` of a frame, written again as the other bytes.
    Decode(&'a [u8], &'a [u8]),
    /// `Feeder::feed` of frames, written again as the other bytes.
    Feed(&'a [u8], &'a [u8]),
    /// `serve`.
    Serve(Talk<'a>),
    /// `save` or `send_requests`.
    Write(Task<'a>),
    /// `receive_replies`.
    Receive(Replies<'a>),
    /// `load` of a log, saved again as the other log.
    Load(&'a [u8], &'a [u8]),
}

// What comes of a call. The allocator refuses nothing yet.
fn outcome_with(trial: &Trial<'_>, call: Call) -> Outcome {
    match call {
        Call::Encode(frame, bytes) => encode_refused(trial, frame, bytes),
        Call::Decode(bytes, wanted) => decode_refused(trial, bytes, wanted),
        Call::Feed(bytes, wanted) => feed_refused(trial, bytes, wanted),
        Call::Serve(talk) => serve_refused(trial, talk),
        Call::Write(task) => write_refused(trial, task),
        Call::Receive(replies) => receive_refused(trial, replies),
        Call::Load(log, wanted) => load_refused(trial, log, wanted),
    }
}

fn outcome_of_call(alloc: Global, call: Call, failing: Failing) -> Outcome {
    let heap = Refusing::new(alloc, 0);
    let trial = Trial {
        alloc,
        heap: &heap,
        failing,
    };
    outcome_with(&trial, call)
}

// How many of one kind were refused: the first, the second, and so on until none is left; none where something is not as it must be.
fn refused_of(alloc: Global, call: Call, kind: Kind) -> Option<u64> {
    count_refused(|number| outcome_of_call(alloc, call, Failing { kind, number }))
}

/// The refused requests for memory of a call that neither reads nor writes.
pub fn asks(alloc: Global, call: Call) -> Option<Refused> {
    Some(Refused {
        requests: refused_of(alloc, call, Kind::Memory)?,
        reads: 0,
        writes: 0,
    })
}

/// The refused requests for memory and the failed reads of a call that reads.
pub fn reads(alloc: Global, call: Call) -> Option<Refused> {
    Some(Refused {
        requests: refused_of(alloc, call, Kind::Memory)?,
        reads: refused_of(alloc, call, Kind::Read)?,
        writes: 0,
    })
}

/// The refused requests for memory and the failed writes of a call that writes, which also answers a writer that takes no byte.
pub fn writes(alloc: Global, call: Call) -> Option<Refused> {
    if outcome_of_call(alloc, call, EACH_BYTE) != Outcome::Answered {
        return None;
    }
    Some(Refused {
        requests: refused_of(alloc, call, Kind::Memory)?,
        reads: 0,
        writes: refused_of(alloc, call, Kind::Write)?,
    })
}

/// Those of a session. It may have nothing to write.
pub fn serves(alloc: Global, talk: Talk) -> Option<Refused> {
    let call = Call::Serve(talk);
    if outcome_of_call(alloc, call, EACH_BYTE) == Outcome::Wrong {
        return None;
    }
    Some(Refused {
        requests: refused_of(alloc, call, Kind::Memory)?,
        reads: refused_of(alloc, call, Kind::Read)?,
        writes: refused_of(alloc, call, Kind::Write)?,
    })
}

/// Those of `encode` of the frame with these bytes.
pub fn encodes(alloc: Global, bytes: &[u8]) -> Option<Refused> {
    match decode(alloc, bytes) {
        Ok(Some((frame, _))) => {
            let refused = asks(alloc, Call::Encode(&frame, bytes));
            drop(frame);
            refused
        }
        _ => None,
    }
}
