// Bytes that are cut to each length, and of which each is changed to each other value.
use crate::case::Case;
use crate::changed::frames::of_frame;
use crate::held::loaded;
use crate::tally::{NONE, Tally, print_tally};
use md5::{Digest, Md5};
use std::alloc::{AllocError, Global};
use std::io;

/// What bytes are judged as.
#[derive(Clone, Copy)]
pub enum Kind {
    Frame,
    Log,
}

// What the bytes are.
fn case_of(alloc: Global, kind: Kind, bytes: &[u8]) -> Case {
    match kind {
        Kind::Frame => of_frame(alloc, bytes),
        Kind::Log => loaded(alloc, bytes, 4096).case,
    }
}

// How often each case came, and the digest of their lines.
#[derive(Drop)]
struct Count {
    kind: Kind,
    tally: Tally,
    lines: Md5,
}

impl Count {
    // Counts what the bytes are.
    fn add(&mut self, alloc: Global, bytes: &[u8]) -> Result<(), AllocError> {
        let case = case_of(alloc, self.kind, bytes);
        let line = format!(in alloc; "{case}\n")?;
        self.tally.count(case);
        self.lines.update(line.as_bytes());
        Ok(())
    }

    // The bytes cut to each length from 0 on.
    fn add_cut(&mut self, alloc: Global, bytes: &[u8]) -> Result<(), AllocError> {
        for length in 0..=bytes.len() {
            self.add(alloc, &bytes[..length])?;
        }
        Ok(())
    }

    // The bytes where the byte at a place is each value.
    fn add_values(&mut self, bytes: &mut Vec<u8>, place: usize) -> Result<(), AllocError> {
        let alloc = *bytes.allocator();
        for value in 0..=255u8 {
            if let Some(byte) = bytes.get_mut(place) {
                *byte = value;
            }
            self.add(alloc, bytes)?;
        }
        Ok(())
    }

    fn add_at(&mut self, alloc: Global, bytes: &[u8], place: usize) -> Result<(), AllocError> {
        let mut changed = Vec::from_slice(alloc, bytes)?;
        self.add_values(&mut changed, place)
    }

    // The bytes where each byte is each value.
    fn add_changed(&mut self, alloc: Global, bytes: &[u8]) -> Result<(), AllocError> {
        for place in 0..bytes.len() {
            self.add_at(alloc, bytes, place)?;
        }
        Ok(())
    }

    fn add_all(&mut self, alloc: Global, bytes: &[u8]) -> Result<(), AllocError> {
        self.add_cut(alloc, bytes)?;
        self.add_changed(alloc, bytes)
    }
}

// Prints what was counted.
fn print_count(rt: &HostRuntime, name: &str, count: Count) -> io::Result<()> {
    let Count {
        kind: _,
        tally,
        lines,
    } = count;
    print!(rt; "{name}: ")?;
    print_tally(rt, &tally)?;
    let digest = hex::encode(rt.alloc(), lines.finalize())?;
    println!(rt; ", digest {digest}")
}

/// Prints what becomes of the bytes cut to each length from 0 on, and where each byte is each value.
pub fn print_cases(rt: &HostRuntime, name: &str, kind: Kind, bytes: &[u8]) -> io::Result<()> {
    let mut count = Count {
        kind,
        tally: NONE,
        lines: Md5::new(),
    };
    count.add_all(rt.alloc(), bytes)?;
    print_count(rt, name, count)
}
