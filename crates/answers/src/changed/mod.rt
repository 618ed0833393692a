//! What becomes of a frame and of a log that is cut or changed. A line has a name, the word `frame` or `log`, and bytes in hex. Each
//! case, the bytes cut to each length from 0 on, and then with each byte as each value from 0 to 255, has a line: `read`, where they are
//! read, and what was read is written back as these bytes or, of a log, is saved and loaded again with the same report; `old`, of a
//! frame of the old version, which is read and never written; `unfinished`; or the code of the refusal. A frame is read whole, and
//! byte by byte as well. It prints how often each case came, and the digest of these lines.

mod changes;
mod frames;

use crate::changed::changes::{Kind, print_cases};
use crate::words::{bytes_of, cut_word};
use std::io;
use std::io::Error;

fn print_all(rt: &HostRuntime, name: &str, kind: Kind, digits: &str) -> io::Result<()> {
    let bytes = bytes_of(rt.alloc(), digits)?;
    print_cases(rt, name, kind, &bytes)
}

/// Prints how often each case of the bytes of a line came, and the digest of the cases.
pub fn answer(rt: &HostRuntime, line: &str) -> io::Result<()> {
    let (name, rest) = cut_word(line);
    match cut_word(rest) {
        ("frame", digits) => print_all(rt, name, Kind::Frame, digits),
        ("log", digits) => print_all(rt, name, Kind::Log, digits),
        _ => Err(Error::other("neither a frame nor a log")),
    }
}
