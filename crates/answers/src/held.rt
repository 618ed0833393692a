// What a replica holds after some bytes.
use crate::case::{Case, load_code};
use std::alloc::{AllocError, Global};
use std::rc::Rc;
use stn_device::Counted;
use stn_lift::Base;
use stn_records::Site;
use stn_refusing::PieceReader;
use stn_replica::Replica;
use stn_store::{load, save};

// The base of a plan of one step, for which only memory can lack.
fn bare_base(alloc: Global) -> Result<Base<Global>, AllocError> {
    match Base::bare(alloc, 1) {
        Ok(base) => Ok(base),
        Err(_) => Err(AllocError),
    }
}

/// A new replica of a plan of one step.
pub fn new_replica(alloc: Global, site: Site) -> Result<Replica<Global>, AllocError> {
    let base = Rc::new(alloc, bare_base(alloc)?)?;
    Replica::new(alloc, site, base)
}

/// The log of a replica: all that it holds. None where there is no memory.
pub fn saved(alloc: Global, replica: &Replica<Global>) -> Option<Vec<u8>> {
    let mut writer = Counted::new(Vec::new(alloc));
    let answer = save(alloc, replica, &mut writer);
    let log = writer.into_inner();
    if answer.is_ok() { Some(log) } else { None }
}

/// Whether this is the log of a replica.
pub fn is_log(alloc: Global, replica: &Replica<Global>, log: &[u8]) -> bool {
    match saved(alloc, replica) {
        Some(again) => again.as_slice() == log,
        None => false,
    }
}

// Whether both report the same.
fn reports_the_same(alloc: Global, one: &Replica<Global>, other: &Replica<Global>) -> bool {
    let mut first = Vec::new(alloc);
    let mut second = Vec::new(alloc);
    let told = one.report(&mut first).is_ok() && other.report(&mut second).is_ok();
    told && first == second
}

// Whether a replica, which is then let go of, has this log, and the report of another.
fn is_again(alloc: Global, again: Replica<Global>, replica: &Replica<Global>, log: &[u8]) -> bool {
    let right = is_log(alloc, &again, log) && reports_the_same(alloc, &again, replica);
    drop(again);
    right
}

/// Whether this log of a replica is loaded again, with the same report, and saved as the same bytes.
pub fn is_kept(alloc: Global, replica: &Replica<Global>, log: &[u8]) -> bool {
    let mut reader = Counted::new(log);
    match load(alloc, &mut reader, replica.site()) {
        Ok(again) => is_again(alloc, again, replica, log),
        Err(_) => false,
    }
}

/// What became of some bytes, how many frames of a session were answered, and the log of what the replica then holds.
#[derive(Drop)]
pub struct Held {
    pub case: Case,
    pub frames: u32,
    pub log: Vec<u8>,
}

// What a log is that was loaded, where this is saved of it.
fn case_of(alloc: Global, replica: &Replica<Global>, log: &[u8]) -> Case {
    if is_kept(alloc, replica, log) {
        Case::Read
    } else {
        Case::Broken
    }
}

fn held_by(alloc: Global, replica: &Replica<Global>) -> Held {
    match saved(alloc, replica) {
        Some(log) => Held {
            case: case_of(alloc, replica, &log),
            frames: 0,
            log,
        },
        None => none_held(alloc, Case::Broken),
    }
}

/// What became of bytes of which no replica is left.
pub fn none_held(alloc: Global, case: Case) -> Held {
    Held {
        case,
        frames: 0,
        log: Vec::new(alloc),
    }
}

/// Hands on at most so many bytes a call.
pub fn piecewise(bytes: &[u8], piece: usize) -> PieceReader<'_> {
    PieceReader {
        rest: bytes,
        piece,
        calls: 0,
        fails_at: 0,
    }
}

/// A log that comes in pieces.
pub fn loaded(alloc: Global, bytes: &[u8], piece: usize) -> Held {
    let mut reader = Counted::new(piecewise(bytes, piece));
    match load(alloc, &mut reader, Site::new(1).unwrap()) {
        Ok(replica) => {
            let held = held_by(alloc, &replica);
            drop(replica);
            held
        }
        Err(fault) => none_held(alloc, Case::Refused(load_code(fault))),
    }
}
