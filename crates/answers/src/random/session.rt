// What becomes of some bytes as a session.
use crate::case::Case;
use crate::held::{Held, is_kept, is_log, new_replica, none_held, piecewise, saved};
use std::alloc::Global;
use stn_device::Counted;
use stn_records::Site;
use stn_replica::Replica;
use stn_session::{End, ServeFault, Served, serve};

// What a session answered, and its replies.
#[derive(Drop)]
struct Serving {
    answer: Result<Served, ServeFault>,
    replies: Vec<u8>,
}

fn served(alloc: Global, replica: &mut Replica<Global>, bytes: &[u8], piece: usize) -> Serving {
    let mut reader = Counted::new(piecewise(bytes, piece));
    let mut writer = Counted::new(Vec::new(alloc));
    let answer = serve(alloc, &mut reader, &mut writer, replica);
    Serving {
        answer,
        replies: writer.into_inner(),
    }
}

fn is_same(one: &Serving, other: &Serving) -> bool {
    one.answer == other.answer && one.replies.as_slice() == other.replies.as_slice()
}

// Whether a session of this replica that comes byte by byte is the same, and leaves the same log.
fn is_cut_of(
    alloc: Global,
    replica: &mut Replica<Global>,
    bytes: &[u8],
    whole: &Serving,
    log: &[u8],
) -> bool {
    let cut = served(alloc, replica, bytes, 1);
    is_same(&cut, whole) && is_log(alloc, replica, log)
}

// The same of a new replica.
fn is_cut(alloc: Global, bytes: &[u8], whole: &Serving, log: &[u8]) -> bool {
    match new_replica(alloc, Site::new(1).unwrap()) {
        Ok(mut replica) => {
            let same = is_cut_of(alloc, &mut replica, bytes, whole, log);
            drop(replica);
            same
        }
        Err(_) => false,
    }
}

fn of_answer(answer: Result<Served, ServeFault>) -> Case {
    match answer {
        Ok(served) => match served.end {
            End::Closed => Case::Read,
            End::Cut => Case::Unfinished,
            End::Refused(code) => Case::Refused(code),
        },
        Err(_) => Case::Broken,
    }
}

fn frames_of(answer: Result<Served, ServeFault>) -> u32 {
    match answer {
        Ok(served) => served.frames,
        Err(_) => 0,
    }
}

// What a session came to, where it is the same byte by byte and the log that it left is kept.
fn case_after(
    alloc: Global,
    replica: &Replica<Global>,
    bytes: &[u8],
    whole: &Serving,
    log: &[u8],
) -> Case {
    if is_kept(alloc, replica, log) && is_cut(alloc, bytes, whole, log) {
        of_answer(whole.answer)
    } else {
        Case::Broken
    }
}

fn held_after(alloc: Global, replica: &Replica<Global>, bytes: &[u8], whole: &Serving) -> Held {
    match saved(alloc, replica) {
        Some(log) => Held {
            case: case_after(alloc, replica, bytes, whole, &log),
            frames: frames_of(whole.answer),
            log,
        },
        None => none_held(alloc, Case::Broken),
    }
}

// What a replica holds after a session, and what the session came to.
fn held_of(alloc: Global, replica: &mut Replica<Global>, bytes: &[u8]) -> Held {
    let whole = served(alloc, replica, bytes, 4096);
    held_after(alloc, replica, bytes, &whole)
}

/// What a session came to, whole and byte by byte.
pub fn of_session(alloc: Global, bytes: &[u8]) -> Held {
    match new_replica(alloc, Site::new(1).unwrap()) {
        Ok(mut replica) => {
            let held = held_of(alloc, &mut replica, bytes);
            drop(replica);
            held
        }
        Err(_) => none_held(alloc, Case::Broken),
    }
}
