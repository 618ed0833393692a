ghost use Rattle.std.specs.{Prelude.{◌≡◌, ◌<◌, ◌-◌, length, Ok, OnOk, OnErr, IfOk}, Io.{ReadsAtMost, WritesAtMost, KnownBytes.{Keeps, ReadConsumes, WriteAppends}}};
ghost use Rattle.stn_device.specs.{Counted.{counted_device, failure_count, CountsFailure, KeepsCount}, Partner.IsEnded};

use crate::partner::Finish;
use std::io;
use std::io::{Read, Write};

/// A reader or a writer whose bytes pass through, and whose failed calls are counted, up to the greatest `u64`.
/// A write of at least one byte that takes none is one of them.
#[derive(Drop)]
pub struct Counted<D> {
    device: D,
    failures: u64,
}

impl<D> Counted<D> {
    /// The device, with no failed call counted.
    pub fn new(device: D) -> Counted<D>
        ensures device { counted_device result ≡ device }
        ensures failures { failure_count result ≡ 0 }
    {
        Counted {
            device,
            failures: 0,
        }
    }

    /// How many calls failed.
    pub fn failures(&self) -> u64
        ensures { result ≡ failure_count self.now }
    {
        self.failures
    }

    /// The device.
    pub fn into_inner(self) -> D
        ensures { result ≡ counted_device self }
    {
        let Counted {
            device,
            failures: _,
        } = self;
        device
    }

    fn count_failure(&mut self)
        ensures counts { CountsFailure self.old self.new }
        ensures device { counted_device self.new ≡ counted_device self.old }
    {
        self.failures = self.failures.saturating_add(1);
    }
}

impl<R: Read> Read for Counted<R> {
    ghost remaining = { λ c. R.remaining (counted_device c) };

    fn read(&mut self, buf: &mut [u8]) -> io::Result<usize>
        ensures bound { ReadsAtMost result buf.new }
        ensures bytes { ReadConsumes (R.remaining (counted_device self.old))
            (R.remaining (counted_device self.new)) result buf.new }
        ensures failed { OnErr result (CountsFailure self.old self.new) }
        ensures passed { OnOk result (KeepsCount self.old self.new) }
    {
        let read = self.device.read(buf);
        if read.is_err() {
            self.count_failure();
        }
        read
    }
}

impl<W: Write> Write for Counted<W> {
    ghost contents = { λ c. W.contents (counted_device c) };

    fn write(&mut self, buf: &[u8]) -> io::Result<usize>
        ensures bound { WritesAtMost result buf.now }
        ensures bytes { WriteAppends (W.contents (counted_device self.old))
            (W.contents (counted_device self.new)) result buf.now }
        ensures failed { OnErr result (CountsFailure self.old self.new) }
        ensures took_none { result ≡ Ok 0 → 0 < length buf.now → CountsFailure self.old self.new }
        ensures took_some { IfOk result (λ count. 0 < count → KeepsCount self.old self.new) }
        ensures nothing_to_take { length buf.now ≡ 0 → OnOk result (KeepsCount self.old self.new) }
    {
        let written = self.device.write(buf);
        match &written {
            Ok(0) if !buf.is_empty() => self.count_failure(),
            Err(_) => self.count_failure(),
            Ok(_) => {}
        }
        written
    }

    fn flush(&mut self) -> io::Result<()>
        ensures bytes { Keeps (W.contents (counted_device self.old)) (W.contents (counted_device self.new)) }
        ensures failed { OnErr result (CountsFailure self.old self.new) }
        ensures passed { OnOk result (KeepsCount self.old self.new) }
    {
        let flushed = self.device.flush();
        if flushed.is_err() {
            self.count_failure();
        }
        flushed
    }
}

impl<W: Finish> Finish for Counted<W> {
    ghost ended = { λ c. W.ended (counted_device c) };

    fn finish(&mut self) -> io::Result<()>
        ensures told { OnOk result (IsEnded (W.ended (counted_device self.new))) }
        ensures untold { OnErr result (W.ended (counted_device self.new) ≡ W.ended (counted_device self.old)) }
        ensures bytes { Keeps (W.contents (counted_device self.old)) (W.contents (counted_device self.new)) }
        ensures failed { OnErr result (CountsFailure self.old self.new) }
        ensures passed { OnOk result (KeepsCount self.old self.new) }
    {
        let finished = self.device.finish();
        if finished.is_err() {
            self.count_failure();
        }
        finished
    }
}
