//! Another site: what it says is read, and what it is told is written.

ghost use Rattle.std.specs.{Prelude.{◌≡◌, [], false, OnOk, OnErr}, Io.KnownBytes.Keeps};
ghost use Rattle.stn_device.specs.Partner.{partner_state, IsEnded, PartsWays, heard_bytes, heard_end};

use crate::counted::Counted;
use crate::whole::{MOST_BYTES, drain};
use std::alloc::Global;
use std::io::{self, Read, Write};

/// A writer whose reader can be told that nothing more comes.
pub trait Finish: Write {
    ghost use Rattle.std.specs.Prelude.{Bool, Option};

    /// Whether the end was told, where that is known.
    ghost ended: { Self → Option Bool };

    /// Tells the end.
    fn finish(&mut self) -> io::Result<()>
        ensures told { OnOk result (IsEnded (ended self.new)) }
        ensures untold { OnErr result (ended self.new ≡ ended self.old) }
        ensures bytes { Keeps (Self.contents self.old) (Self.contents self.new) };
}

/// Another site: a reader of what it says, and a writer of what it is told.
#[derive(Drop)]
pub struct Partner<R, W> {
    pub reader: Counted<R>,
    pub writer: Counted<W>,
}

impl<R: Read, W: Finish> Partner<R, W> {
    /// Tells the other site the end, and drops what it still says, at most `MOST_BYTES` bytes. So it can read what it was told last: a
    /// connection that is dropped before its bytes are read is reset.
    pub fn part(&mut self)
        ensures { PartsWays (partner_state R.remaining W.contents W.ended self.old) (partner_state R.remaining W.contents W.ended self.new) }
    {
        if self.writer.finish().is_ok() {
            drain(&mut self.reader, MOST_BYTES);
        }
    }
}

/// What is heard in memory.
#[derive(Drop)]
pub struct Ear {
    bytes: Vec<u8>,
    ended: bool,
}

impl Ear {
    /// Nothing was heard yet.
    pub fn new(alloc: Global) -> Ear
        ensures bytes { heard_bytes result ≡ [] }
        ensures end { heard_end result ≡ false }
    {
        Ear {
            bytes: Vec::new(alloc),
            ended: false,
        }
    }

    /// What was heard.
    pub fn bytes(&self) -> &[u8]
        ensures { result.now ≡ heard_bytes self.now }
    {
        self.bytes.as_slice()
    }

    /// Whether the end was heard.
    pub fn ended(&self) -> bool
        ensures { result ≡ heard_end self.now }
    {
        self.ended
    }
}

impl Write for Ear {
    ghost use Rattle.std.specs.Prelude.{Some};

    ghost contents = { λ ear. Some (heard_bytes ear) };

    fn write(&mut self, buf: &[u8]) -> io::Result<usize> {
        self.bytes.extend_from_slice(buf)?;
        Ok(buf.len())
    }

    fn flush(&mut self) -> io::Result<()> {
        Ok(())
    }
}

impl Finish for Ear {
    ghost use Rattle.std.specs.Prelude.{Some};

    ghost ended = { λ ear. Some (heard_end ear) };

    fn finish(&mut self) -> io::Result<()> {
        self.ended = true;
        Ok(())
    }
}
