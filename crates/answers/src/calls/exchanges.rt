// What a site makes of the replies, of which each request for memory and each read is refused in turn.
use crate::calls::logs::{is_log, opened};
use crate::calls::sweep::{Failing, Kind, Trial};
use crate::calls::words::whole_frames;
use std::alloc::Global;
use stn_device::Counted;
use stn_refusing::{Outcome, Refusing};
use stn_replica::Replica;
use stn_session::{ReplyFault, receive_replies};

/// The replies to a replica that a log opens: SAME, RECORDS and TEXT; and the log of what it then holds.
#[derive(Clone, Copy)]
pub struct Replies<'a> {
    pub log: &'a [u8],
    pub frames: &'a [Vec<u8>],
    pub bytes: &'a [u8],
    pub after: &'a [u8],
}

// The text of the last reply, after its length and its kind.
fn text_of(frames: &[Vec<u8>]) -> &[u8] {
    match frames.last() {
        Some(frame) => frame.get(5..).unwrap_or(b""),
        None => b"",
    }
}

// What came of a call of `receive_replies`: whether it gave the text, and whether a read failed.
#[derive(Clone, Copy)]
struct Receiving {
    answer: Result<bool, ReplyFault>,
    failed: bool,
}

fn received<'a>(
    trial: &Trial<'a>,
    replica: &mut Replica<&'a Refusing<Global>>,
    replies: Replies,
) -> Receiving {
    let mut input = Counted::new(trial.reader(replies.bytes));
    let answer = match receive_replies(trial.heap, &mut input, replica) {
        Ok(text) => Ok(text.as_slice() == text_of(replies.frames)),
        Err(fault) => Err(fault),
    };
    Receiving {
        answer,
        failed: input.failures() > 0,
    }
}

// Records that came whole before a read failed stay taken, and others are not.
fn log_before<'a>(replies: Replies<'a>, failing: Failing) -> &'a [u8] {
    if whole_frames(replies.frames, failing.number.saturating_sub(1)) >= 2 {
        replies.after
    } else {
        replies.log
    }
}

// Whether the answer is right, and the replica holds what it must.
fn is_received<'a>(
    trial: &Trial<'a>,
    replica: &Replica<&'a Refusing<Global>>,
    replies: Replies,
    answer: Result<bool, ReplyFault>,
) -> bool {
    let failing = trial.failing;
    match answer {
        Ok(told) => told && is_log(trial, replica, replies.after),
        Err(ReplyFault::Read) => {
            failing.kind == Kind::Read && is_log(trial, replica, log_before(replies, failing))
        }
        Err(ReplyFault::Memory) => {
            failing.kind == Kind::Memory
                && (is_log(trial, replica, replies.log) || is_log(trial, replica, replies.after))
        }
        Err(_) => false,
    }
}

// The same call then takes all.
fn receives_then<'a>(
    trial: &Trial<'a>,
    replica: &mut Replica<&'a Refusing<Global>>,
    replies: Replies,
) -> bool {
    let receiving = received(&trial.working(), replica, replies);
    receiving.answer == Ok(true) && is_log(trial, replica, replies.after)
}

fn receive_failing<'a>(
    trial: &Trial<'a>,
    replica: &mut Replica<&'a Refusing<Global>>,
    replies: Replies,
) -> Outcome {
    trial.begin();
    let Receiving { answer, failed } = received(trial, replica, replies);
    let refused = trial.end() || failed;
    let right = (refused || answer.is_ok())
        && is_received(trial, replica, replies, answer)
        && receives_then(trial, replica, replies);
    Outcome::of(refused, right)
}

/// Whether `receive_replies` takes these replies, and answers the refused call.
pub fn receive_refused(trial: &Trial<'_>, replies: Replies) -> Outcome {
    match opened(trial.heap, replies.log) {
        Ok(mut replica) => {
            let outcome = receive_failing(trial, &mut replica, replies);
            drop(replica);
            outcome
        }
        Err(_) => Outcome::Wrong,
    }
}
