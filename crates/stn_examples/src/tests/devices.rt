use std::alloc::Global;
use std::io;
use std::io::{Error, ErrorKind, Read, Write};
use std::time::Duration;
use stn_device::{
    Counted, Deadline, Ear, Partner, TimedStream, Timer, UntilDeadline, WriteFault, drain,
    write_whole,
};
use stn_refusing::{PieceReader, PieceWriter};

const TEXT: &[u8] = b"first\nsecond\n";

fn reader(piece: usize, fails_at: u64) -> Counted<PieceReader<'static>> {
    Counted::new(PieceReader {
        rest: TEXT,
        piece,
        calls: 0,
        fails_at,
    })
}

fn writer(alloc: Global, piece: usize, fails_at: u64) -> Counted<PieceWriter> {
    Counted::new(PieceWriter {
        held: Vec::new(alloc),
        piece,
        calls: 0,
        fails_at,
    })
}

// The kind of the error of a call.
fn kind_of<T>(answer: io::Result<T>) -> Option<ErrorKind>
where
    T: Drop,
{
    answer.err().map(|error| error.kind())
}

// What a write to a device that takes no byte answers, and how often a call failed and was made.
fn written_to_stuck(alloc: Global, bytes: &[u8]) -> (Result<(), WriteFault>, u64, u64) {
    let mut stuck = writer(alloc, 0, 0);
    let answer = write_whole(&mut stuck, bytes);
    let failures = stuck.failures();
    (answer, failures, stuck.into_inner().calls)
}

#[test]
fn a_write_that_takes_none_is_a_failed_one(rt: HostRuntime) {
    assert!(rt; written_to_stuck(rt.alloc(), b"") == (Ok(()), 0, 0));
    assert!(rt; written_to_stuck(rt.alloc(), TEXT) == (Err(WriteFault), 1, 1));
}

// The kind of the error of a read that fails, and how many calls have failed.
fn failed_read(buffer: &mut [u8]) -> (Option<ErrorKind>, u64) {
    let mut failing = reader(1, 1);
    let kind = kind_of(failing.read(buffer));
    (kind, failing.failures())
}

#[test]
fn a_failed_read_gives_the_error_of_the_device(rt: HostRuntime) {
    assert!(rt; failed_read(&mut []) == (Some(ErrorKind::Interrupted), 1));
    assert!(rt; failed_read(&mut [0u8; 3]) == (Some(ErrorKind::Interrupted), 1));
}

// The kind of the error of a write that fails, and how many calls have failed.
fn failed_write(alloc: Global, piece: &[u8]) -> (Option<ErrorKind>, u64) {
    let mut failing = writer(alloc, 3, 1);
    let kind = kind_of(failing.write(piece));
    (kind, failing.failures())
}

#[test]
fn a_failed_write_gives_the_error_of_the_device(rt: HostRuntime) {
    for piece in [b"".as_slice(), b"abc"] {
        assert!(rt; failed_write(rt.alloc(), piece) == (Some(ErrorKind::Interrupted), 1));
    }
}

// A writer whose first flush fails.
#[derive(Drop)]
struct Unflushed {
    flushes: u64,
}

impl Write for Unflushed {
    fn write(&mut self, buf: &[u8]) -> io::Result<usize> {
        Ok(buf.len())
    }

    fn flush(&mut self) -> io::Result<()> {
        self.flushes = self.flushes.saturating_add(1);
        if self.flushes == 1 {
            return Err(Error::from(ErrorKind::Interrupted));
        }
        Ok(())
    }
}

#[test]
fn a_failed_flush_gives_the_error_of_the_device(rt: HostRuntime) {
    let mut failing = Counted::new(Unflushed { flushes: 0 });
    assert!(rt; kind_of(failing.flush()) == Some(ErrorKind::Interrupted));
    assert!(rt; failing.failures() == 1);
    assert!(rt; failing.flush().is_ok());
}

// A peer that sends one byte every 20 seconds, and takes one. So many calls a signal interrupts after a second.
#[derive(Drop)]
struct SlowPeer {
    clock: Duration,
    signals: u8,
}

fn pace() -> Duration {
    Duration::from_secs(20)
}

impl SlowPeer {
    // Waits for the next byte, or as long as the call may take.
    fn wait(&mut self, limit: Duration) -> io::Result<usize> {
        if self.signals > 0 {
            self.signals -= 1;
            self.clock = self.clock.saturating_add(Duration::from_secs(1).min(limit));
            return Err(Error::from(ErrorKind::Interrupted));
        }
        self.clock = self.clock.saturating_add(pace().min(limit));
        if limit < pace() {
            return Err(Error::from(ErrorKind::WouldBlock));
        }
        Ok(1)
    }
}

impl Timer for SlowPeer {
    ghost use Rattle.std.specs.Prelude.{None};

    ghost time = { λ _. None };

    fn now(&self) -> io::Result<Duration> {
        Ok(self.clock)
    }
}

impl TimedStream for SlowPeer {
    ghost use Rattle.std.specs.Prelude.{None};

    ghost remaining = { λ _. None };

    ghost contents = { λ _. None };

    ghost ended = { λ _. None };

    fn read_within(&mut self, buf: &mut [u8], limit: Duration) -> io::Result<usize> {
        Ok(self.wait(limit)?.min(buf.len()))
    }

    fn write_within(&mut self, buf: &[u8], limit: Duration) -> io::Result<usize> {
        Ok(self.wait(limit)?.min(buf.len()))
    }

    fn finish(&mut self) -> io::Result<()> {
        Ok(())
    }
}

// The peer, met at 7 seconds, for 50 more.
fn interrupted_stream(signals: u8) -> Counted<UntilDeadline<SlowPeer>> {
    let clock = Duration::from_secs(7);
    let deadline = Deadline::after(clock, Duration::from_secs(50));
    Counted::new(UntilDeadline::new(SlowPeer { clock, signals }, deadline))
}

fn slow_stream() -> Counted<UntilDeadline<SlowPeer>> {
    interrupted_stream(0)
}

// How many bytes a read gives, or the kind of its error.
fn read_from(reader: &mut Counted<UntilDeadline<SlowPeer>>) -> Result<usize, ErrorKind> {
    let mut buffer = [0u8; 4];
    match reader.read(&mut buffer) {
        Ok(count) => Ok(count),
        Err(error) => Err(error.kind()),
    }
}

#[test]
fn reads_end_at_the_deadline(rt: HostRuntime) {
    let mut reader = slow_stream();
    assert!(rt; read_from(&mut reader) == Ok(1));
    assert!(rt; read_from(&mut reader) == Ok(1));
    assert!(rt; read_from(&mut reader) == Err(ErrorKind::WouldBlock));
    assert!(rt; read_from(&mut reader) == Err(ErrorKind::TimedOut));
    assert!(rt; reader.failures() == 2);
}

#[test]
fn writes_end_at_the_deadline(rt: HostRuntime) {
    let mut writer = slow_stream();
    assert!(rt; write_whole(&mut writer, b"abc") == Err(WriteFault));
    assert!(rt; kind_of(writer.write(b"c")) == Some(ErrorKind::TimedOut));
    assert!(rt; writer.flush().is_ok());
}

#[test]
fn interrupted_calls_are_made_again(rt: HostRuntime) {
    let mut reader = interrupted_stream(5);
    assert!(rt; read_from(&mut reader) == Ok(1));
    assert!(rt; read_from(&mut reader) == Ok(1));
    assert!(rt; read_from(&mut reader) == Err(ErrorKind::WouldBlock));
    assert!(rt; reader.failures() == 1);
    let mut writer = interrupted_stream(60);
    assert!(rt; kind_of(writer.write(b"c")) == Some(ErrorKind::TimedOut));
}

#[test]
fn a_deadline_counts_from_now(rt: HostRuntime) {
    let timer = SlowPeer {
        clock: Duration::from_secs(7),
        signals: 0,
    };
    match Deadline::start(&timer, Duration::from_secs(50)) {
        Ok(deadline) => {
            assert!(rt; deadline.left(Duration::from_secs(56)) == Some(Duration::from_secs(1)));
            assert!(rt; deadline.left(Duration::from_secs(57)) == None);
        }
        Err(_) => assert!(rt; false),
    }
}

#[test]
fn a_parted_partner_is_heard_to_the_end(rt: HostRuntime) {
    let mut partner = Partner {
        reader: reader(3, 0),
        writer: Counted::new(Ear::new(rt.alloc())),
    };
    assert!(rt; write_whole(&mut partner.writer, b"abc").is_ok());
    partner.part();
    let Partner { reader, writer } = partner;
    assert!(rt; reader.into_inner().rest.is_empty());
    let ear = writer.into_inner();
    assert!(rt; ear.bytes() == b"abc".as_slice());
    assert!(rt; ear.ended());
}

// How many bytes are left after a reader of them all is drained up to a limit.
fn left_after(limit: usize) -> usize {
    let mut whole = reader(3, 0);
    drain(&mut whole, limit);
    whole.into_inner().rest.len()
}

#[test]
fn drains_up_to_its_limit(rt: HostRuntime) {
    for (limit, left) in [(0, 13), (5, 8), (TEXT.len(), 0), (4096, 0)] {
        assert!(rt; left_after(limit) == left, "limit {limit}");
    }
}

#[test]
fn drains_no_more_after_a_fault(rt: HostRuntime) {
    let mut slow = slow_stream();
    drain(&mut slow, 4096);
    assert!(rt; slow.failures() == 1);
}
