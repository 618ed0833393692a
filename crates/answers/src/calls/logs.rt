// Logs and requests, of which each request for memory, each read and each write is refused in turn.
use crate::calls::sweep::{Kind, Trial};
use std::alloc::Global;
use stn_device::Counted;
use stn_records::Site;
use stn_refusal::{Failure, Fault};
use stn_refusing::{Outcome, Refusing};
use stn_replica::Replica;
use stn_session::send_requests;
use stn_store::{LoadFault, load, save};

/// The replica of site 1 by its log.
pub fn opened<'a>(
    heap: &'a Refusing<Global>,
    log: &[u8],
) -> Result<Replica<&'a Refusing<Global>>, LoadFault> {
    let mut reader = Counted::new(log);
    load(heap, &mut reader, Site::new(1).unwrap())
}

/// What a call writes of a replica: `save` its log, `send_requests` what it asks.
#[derive(Clone, Copy)]
pub enum Output {
    Log,
    Requests,
}

/// What a call writes of the replica that a log opens, and the bytes that are wanted of it.
#[derive(Clone, Copy)]
pub struct Task<'a> {
    pub output: Output,
    pub log: &'a [u8],
    pub wanted: &'a [u8],
}

/// What came of a call that writes.
#[derive(Drop)]
pub struct Writing {
    pub answer: Result<(), Failure>,
    pub failed: bool,
    pub written: Vec<u8>,
}

fn written<'a>(
    trial: &Trial<'a>,
    replica: &Replica<&'a Refusing<Global>>,
    output: Output,
) -> Writing {
    let mut device = Counted::new(trial.writer());
    let answer = match output {
        Output::Log => save(trial.heap, replica, &mut device),
        Output::Requests => send_requests(trial.heap, replica, &mut device),
    };
    Writing {
        answer,
        failed: device.failures() > 0,
        written: device.into_inner().held,
    }
}

/// The log of a replica: all that it holds.
pub fn saved<'a>(trial: &Trial<'a>, replica: &Replica<&'a Refusing<Global>>) -> Writing {
    written(&trial.working(), replica, Output::Log)
}

// Whether all of this is written.
fn is_all(writing: &Writing, wanted: &[u8]) -> bool {
    writing.answer == Ok(()) && writing.written.as_slice() == wanted
}

/// Whether this is the log of a replica.
pub fn is_log<'a>(trial: &Trial<'a>, replica: &Replica<&'a Refusing<Global>>, log: &[u8]) -> bool {
    is_all(&saved(trial, replica), log)
}

// Whether all that is wanted is written, and the replica is then that of the log.
fn writes_then<'a>(
    trial: &Trial<'a>,
    replica: &Replica<&'a Refusing<Global>>,
    task: Task<'_>,
) -> bool {
    let writing = written(&trial.working(), replica, task.output);
    is_all(&writing, task.wanted) && is_log(trial, replica, task.log)
}

// Of a refused request for memory nothing was written; of a failed write a part was.
fn is_written(writing: &Writing, wanted: &[u8], refused: bool) -> bool {
    match writing.answer {
        Ok(()) => !writing.failed && writing.written.as_slice() == wanted,
        Err(Failure::Failed(Fault::Memory)) => refused && writing.written.is_empty(),
        Err(Failure::Failed(Fault::Write)) => {
            writing.failed && wanted.starts_with(&writing.written)
        }
        Err(_) => false,
    }
}

// The same call then writes all, and the replica is as before.
fn write_failing<'a>(
    trial: &Trial<'a>,
    replica: &Replica<&'a Refusing<Global>>,
    task: Task<'_>,
) -> Outcome {
    trial.begin();
    let writing = written(trial, replica, task.output);
    let refused = trial.end();
    let right = is_written(&writing, task.wanted, refused) && writes_then(trial, replica, task);
    Outcome::of(refused || writing.failed, right)
}

/// Whether of the replica that the log opens the wanted bytes are written, and the refused call is answered.
pub fn write_refused(trial: &Trial<'_>, task: Task<'_>) -> Outcome {
    match opened(trial.heap, task.log) {
        Ok(replica) => {
            let outcome = write_failing(trial, &replica, task);
            drop(replica);
            outcome
        }
        Err(_) => Outcome::Wrong,
    }
}

fn is_fault(fault: LoadFault, refused: Option<Kind>) -> bool {
    match fault {
        LoadFault::Read => refused == Some(Kind::Read),
        LoadFault::Memory => refused == Some(Kind::Memory),
        _ => false,
    }
}

// Whether the answer is right, and the log is that of the replica.
fn is_loaded<'a>(
    trial: &Trial<'a>,
    answer: Result<Replica<&'a Refusing<Global>>, LoadFault>,
    log: &[u8],
    refused: Option<Kind>,
) -> bool {
    match answer {
        Ok(replica) => {
            let right = is_log(trial, &replica, log);
            drop(replica);
            right
        }
        Err(fault) => is_fault(fault, refused),
    }
}

fn load_failing(trial: &Trial<'_>, log: &[u8], wanted: &[u8]) -> Outcome {
    let mut input = Counted::new(trial.reader(log));
    trial.begin();
    let answer = load(trial.heap, &mut input, Site::new(1).unwrap());
    let refused = trial.end() || input.failures() > 0;
    let kind = if refused {
        Some(trial.failing.kind)
    } else {
        None
    };
    Outcome::of(refused, is_loaded(trial, answer, wanted, kind))
}

/// Whether `load` of this log opens a replica that saves the wanted log, and answers the refused call. The same call, over the
/// same log, then opens the replica.
pub fn load_refused(trial: &Trial<'_>, log: &[u8], wanted: &[u8]) -> Outcome {
    let outcome = load_failing(trial, log, wanted);
    if load_failing(&trial.working(), log, wanted) == Outcome::Right {
        outcome
    } else {
        Outcome::Wrong
    }
}
