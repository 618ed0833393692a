// Cases of random bytes.
use crate::case::Case;
use crate::held::Held;
use crate::random::hostile::append_hostile;
use crate::random::log::of_log;
use crate::random::session::of_session;
use crate::tally::{NONE, Tally, print_tally};
use md5::{Digest, Md5};
use rand_pcg::Pcg32;
use std::alloc::{AllocError, Global};
use std::io;

// How often each case came, and how many frames were answered.
#[derive(Clone, Copy)]
struct Trials {
    tally: Tally,
    frames: u64,
}

impl Trials {
    fn count(&mut self, case: Case, frames: u32) {
        self.tally.count(case);
        self.frames = self.frames.saturating_add(u64::from(frames));
    }
}

/// What random bytes are taken for.
#[derive(Clone, Copy)]
pub enum Kind {
    Session,
    Log,
}

fn random_for(kind: Kind) -> Pcg32 {
    match kind {
        Kind::Session => Pcg32::new(42, 54),
        Kind::Log => Pcg32::new(43, 54),
    }
}

fn held_of(alloc: Global, kind: Kind, bytes: &[u8]) -> Held {
    match kind {
        Kind::Session => of_session(alloc, bytes),
        Kind::Log => of_log(alloc, bytes),
    }
}

// Counts a case, and adds the log to those that were left.
fn count_case(alloc: Global, kind: Kind, bytes: &[u8], trials: &mut Trials, left: &mut Md5) {
    let held = held_of(alloc, kind, bytes);
    trials.count(held.case, held.frames);
    left.update(held.log.as_slice());
}

// One case more.
fn try_one(
    alloc: Global,
    kind: Kind,
    random: &mut Pcg32,
    frames: &[Vec<u8>],
    trials: &mut Trials,
    left: &mut Md5,
) -> Result<(), AllocError> {
    let mut bytes = Vec::new(alloc);
    append_hostile(random, frames, &mut bytes)?;
    count_case(alloc, kind, &bytes, trials, left);
    Ok(())
}

fn try_all(
    alloc: Global,
    kind: Kind,
    count: u32,
    frames: &[Vec<u8>],
    trials: &mut Trials,
    left: &mut Md5,
) -> Result<(), AllocError> {
    let mut random = random_for(kind);
    for _ in 0..count {
        try_one(alloc, kind, &mut random, frames, trials, left)?;
    }
    Ok(())
}

// What became of so many cases, and how many frames the sessions answered.
fn print_counted(
    rt: &HostRuntime,
    kind: Kind,
    count: u32,
    name: &str,
    trials: &Trials,
) -> io::Result<()> {
    print!(rt; "{count} random {name}: ")?;
    print_tally(rt, &trials.tally)?;
    match kind {
        Kind::Session => print!(rt; ", {} frames", trials.frames),
        Kind::Log => Ok(()),
    }
}

fn print_digest(rt: &HostRuntime, left: Md5) -> io::Result<()> {
    let digest = hex::encode(rt.alloc(), left.finalize())?;
    println!(rt; ", left {digest}")
}

/// What became of so many cases, how many frames the sessions answered, and the digest of what was left.
pub fn print_cases(
    rt: &HostRuntime,
    kind: Kind,
    count: u32,
    name: &str,
    frames: &[Vec<u8>],
) -> io::Result<()> {
    let mut trials = Trials {
        tally: NONE,
        frames: 0,
    };
    let mut left = Md5::new();
    try_all(rt.alloc(), kind, count, frames, &mut trials, &mut left)?;
    print_counted(rt, kind, count, name, &trials)?;
    print_digest(rt, left)
}
