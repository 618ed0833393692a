//! Sessions and logs of random bytes, and of random changes to the frames of the part, as many of each as its heading says, and as
//! many logs again that have frames of the old version alone. Each comes whole and byte by byte, with the same answer, replies and
//! state, and what the replica then holds is saved and loaded again with the same report. At the end of the part it prints how often
//! each answer came, and the digest of what the replicas then saved. A line has a name and the bytes of a frame in hex; the first is
//! HELLO of a bare plan of one step.

mod hostile;
mod log;
mod session;
mod trials;

use crate::random::trials::{Kind, print_cases};
use crate::words::{cut_word, push_bytes};
use std::alloc::AllocError;
use std::io;

/// Adds the frame of a line. The first is HELLO of a plan of one step.
pub fn take_frame(line: &str, frames: &mut Vec<Vec<u8>>) -> io::Result<()> {
    let (_, digits) = cut_word(line);
    push_bytes(digits, frames)
}

// Whether a log may have the frame, HELLO or RECORDS: of the old version alone, or of either.
fn is_of_logs(frame: &[u8], old_alone: bool) -> bool {
    match frame.get(4) {
        Some(1 | 2) => true,
        Some(7 | 8 | 16) => !old_alone,
        _ => false,
    }
}

fn push_copy(frame: &[u8], some: &mut Vec<Vec<u8>>) -> Result<(), AllocError> {
    let copy = Vec::from_slice(*some.allocator(), frame)?;
    Ok(some.push(copy)?)
}

fn append_of_logs(
    frames: &[Vec<u8>],
    old_alone: bool,
    some: &mut Vec<Vec<u8>>,
) -> Result<(), AllocError> {
    for frame in frames {
        if is_of_logs(frame, old_alone) {
            push_copy(frame, some)?;
        }
    }
    Ok(())
}

fn print_logs(
    rt: &HostRuntime,
    count: u32,
    name: &str,
    frames: &[Vec<u8>],
    old_alone: bool,
) -> io::Result<()> {
    let mut some = Vec::new(rt.alloc());
    append_of_logs(frames, old_alone, &mut some)?;
    print_cases(rt, Kind::Log, count, name, &some)
}

/// Prints what became of so many sessions, logs, and logs of the old version, of the bytes of these frames.
pub fn print_all(rt: &HostRuntime, count: u32, frames: &[Vec<u8>]) -> io::Result<()> {
    print_cases(rt, Kind::Session, count, "sessions", frames)?;
    print_logs(rt, count, "logs", frames, false)?;
    print_logs(rt, count, "old logs", frames, true)
}
