// Sessions, of which each request for memory, each read and each write is refused in turn.
use crate::calls::logs::{Writing, opened, saved};
use crate::calls::sweep::{Failing, Kind, NOTHING, Trial};
use crate::calls::words::whole_frames;
use std::alloc::Global;
use stn_device::Counted;
use stn_refusing::{Outcome, Refusing};
use stn_replica::Replica;
use stn_session::{ServeFault, Served, serve};

// What came of a call of `serve`: whether a request for memory was refused, and whether a read or a write failed.
#[derive(Drop)]
struct Serving {
    answer: Result<Served, ServeFault>,
    refused: bool,
    failed: bool,
    replies: Vec<u8>,
}

/// Where a session stands: what came of the call, and the log of what the replica then holds.
#[derive(Drop)]
pub struct Stage {
    serving: Serving,
    log: Writing,
}

/// A session of a replica that a log opens, and where it stands after each of its frames, before the first too.
#[derive(Clone, Copy)]
pub struct Talk<'a> {
    pub log: &'a [u8],
    pub frames: &'a [Vec<u8>],
    pub bytes: &'a [u8],
    pub stages: &'a [Stage],
}

fn served<'a>(
    trial: &Trial<'a>,
    replica: &mut Replica<&'a Refusing<Global>>,
    bytes: &[u8],
) -> Serving {
    let mut input = Counted::new(trial.reader(bytes));
    let mut output = Counted::new(trial.writer());
    trial.begin();
    let answer = serve(trial.heap, &mut input, &mut output, replica);
    Serving {
        answer,
        refused: trial.end(),
        failed: input.failures() > 0 || output.failures() > 0,
        replies: output.into_inner().held,
    }
}

fn stage_of<'a>(
    trial: &Trial<'a>,
    replica: &mut Replica<&'a Refusing<Global>>,
    bytes: &[u8],
) -> Stage {
    let serving = served(trial, replica, bytes);
    Stage {
        serving,
        log: saved(trial, replica),
    }
}

// Where the session of the replica that the log opens stands after these bytes.
fn stage_after(trial: &Trial<'_>, log: &[u8], bytes: &[u8]) -> Option<Stage> {
    match opened(trial.heap, log) {
        Ok(mut replica) => {
            let stage = stage_of(trial, &mut replica, bytes);
            drop(replica);
            Some(stage)
        }
        Err(_) => None,
    }
}

fn add_stage(alloc: Global, log: &[u8], bytes: &[u8], stages: &mut Vec<Stage>) -> bool {
    let heap = Refusing::new(alloc, 0);
    let trial = Trial {
        alloc,
        heap: &heap,
        failing: NOTHING,
    };
    match stage_after(&trial, log, bytes) {
        Some(stage) => stages.push(stage).is_ok(),
        None => false,
    }
}

/// Adds where a session stands before its first frame and after each; false where the log opens no replica.
pub fn add_stages(
    alloc: Global,
    log: &[u8],
    frames: &[Vec<u8>],
    bytes: &[u8],
    stages: &mut Vec<Stage>,
) -> bool {
    let mut length = 0usize;
    let mut added = add_stage(alloc, log, b"", stages);
    for frame in frames {
        length = length.saturating_add(frame.len());
        added = added && add_stage(alloc, log, bytes.get(..length).unwrap_or(bytes), stages);
    }
    added
}

/// How the session ends.
pub fn end_of(talk: Talk) -> Option<Served> {
    match talk.stages.last() {
        Some(last) => last.serving.answer.ok(),
        None => None,
    }
}

fn is_held(known: Option<&Stage>, log: &[u8]) -> bool {
    match known {
        Some(known) => known.log.written.as_slice() == log,
        None => false,
    }
}

fn is_stage(known: Option<&Stage>, replies: &[u8], log: &[u8]) -> bool {
    match known {
        Some(known) => {
            known.serving.replies.as_slice() == replies && known.log.written.as_slice() == log
        }
        None => false,
    }
}

// How many stages there are whose replies are no more than so many bytes.
fn written_stages(stages: &[Stage], written: usize) -> usize {
    for (at, stage) in stages.iter().enumerate() {
        if stage.serving.replies.len() > written {
            return at;
        }
    }
    stages.len()
}

// Whether the state is that after the frames whose replies were written whole, or after one more, and what was written is the
// beginning of the replies.
fn is_between(stages: &[Stage], replies: &[u8], log: &[u8]) -> bool {
    let count = written_stages(stages, replies.len());
    let answered = stages.get(count.saturating_sub(1));
    match stages.get(count) {
        Some(next) => {
            next.serving.replies.starts_with(replies)
                && (next.log.written.as_slice() == log || is_held(answered, log))
        }
        None => is_stage(answered, replies, log),
    }
}

// Whether a session is as it must be of which a request, a read or a write was refused, or none.
fn is_right(talk: Talk, serving: &Serving, log: &[u8], failing: Failing) -> bool {
    let replies = serving.replies.as_slice();
    match serving.answer {
        Ok(_) => !serving.failed && is_stage(talk.stages.last(), replies, log),
        Err(ServeFault::Memory) => {
            failing.kind == Kind::Memory && is_between(talk.stages, replies, log)
        }
        Err(ServeFault::Read) => {
            let before = whole_frames(talk.frames, failing.number.saturating_sub(1));
            failing.kind == Kind::Read && is_stage(talk.stages.get(before), replies, log)
        }
        Err(ServeFault::Write) => serving.failed && is_between(talk.stages, replies, log),
        Err(ServeFault::Bound) => false,
    }
}

fn outcome_at(talk: Talk, stage: &Stage, failing: Failing) -> Outcome {
    let Stage { serving, log } = stage;
    let refused = serving.refused || serving.failed;
    let right = (refused || serving.answer.is_ok())
        && log.answer == Ok(())
        && is_right(talk, serving, &log.written, failing);
    Outcome::of(refused, right)
}

/// Whether the session answers the refused call: the fault is that of the call, and the replica holds what it held after the
/// frames that were answered, or after one more; where a read failed, just the former.
pub fn serve_refused(trial: &Trial<'_>, talk: Talk) -> Outcome {
    match stage_after(trial, talk.log, talk.bytes) {
        Some(stage) => outcome_at(talk, &stage, trial.failing),
        None => Outcome::Wrong,
    }
}
