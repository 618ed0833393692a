use std::fmt;
use std::fmt::{Formatter, Write};

// More requests, reads or writes than a call makes.
const MOST_CALLS: u64 = 10_000;

/// What comes of a call of which one request for memory, one read or one write may have been refused.
#[derive(Clone, Copy, PartialEq)]
pub enum Outcome {
    /// Nothing was refused, and all is as it must be.
    Right,
    /// Something was refused, and all is as it must be.
    Answered,
    /// Something is not as it must be.
    Wrong,
}

impl Outcome {
    /// The outcome of a call, where something was refused or not, and all is as it must be or not.
    pub fn of(refused: bool, right: bool) -> Outcome {
        match (refused, right) {
            (_, false) => Outcome::Wrong,
            (true, true) => Outcome::Answered,
            (false, true) => Outcome::Right,
        }
    }

    /// This outcome where what else was looked at is right too.
    pub fn only_if(self, right: bool) -> Outcome {
        if right { self } else { Outcome::Wrong }
    }
}

/// How many requests for memory, reads and writes of a call were refused in turn, each of which was answered as it must be.
#[derive(Clone, Copy)]
pub struct Refused {
    pub requests: u64,
    pub reads: u64,
    pub writes: u64,
}

impl fmt::Display for Refused {
    fn fmt<W: Write>(&self, f: &mut Formatter<W>) -> fmt::Result {
        let Refused {
            requests,
            reads,
            writes,
        } = self;
        write!(
            f,
            "answers each of {requests} requests, {reads} reads and {writes} writes that were refused"
        )
    }
}

/// Makes a call of which the first request for memory (or read, or write) is refused, then the second, and so on until none is left,
/// and gives how many were refused; none where something is not as it must be. `call` takes the number of the one to be refused.
pub fn count_refused<F: Fn(u64) -> Outcome>(call: F) -> Option<u64>
    requires { F.IsAlwaysCallable call }
{
    for refused in 0..MOST_CALLS {
        match call(refused + 1) {
            Outcome::Right => return Some(refused),
            Outcome::Answered => {}
            Outcome::Wrong => return None,
        }
    }
    None
}
