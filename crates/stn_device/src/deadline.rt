//! Streams whose calls end by a deadline.

ghost use Rattle.std.specs.{Prelude.{◌≡◌, ◌≢◌, ◌↔◌, ◌+◌, ◌<◌, IsSome, IfSome, IfOk, IfErr, OnOk, OnErr}, Duration.as_nanos, Io.{ReadsAtMost, WritesAtMost, KnownBytes.{Keeps, ReadConsumes, WriteAppends}}, IoError.error_kind};
ghost use Rattle.stn_device.specs.{Deadline.{deadline_start, limit_of, deadline_end, timed_stream, deadline_of, ShowsTime, IsTimeLeft, PassesAtMost, KeepsDeadline}, Partner.IsEnded};

use crate::partner::Finish;
use std::io::{self, Error, ErrorKind, Read, Write};
use std::time::Duration;

/// How often a call that a signal interrupts is made at most.
const MOST_TRIES: u32 = u32::MAX;

/// What shows the time.
pub trait Timer {
    ghost use Rattle.std.specs.Prelude.{ℕ, Option};

    /// The time, in nanoseconds, where it is known.
    ghost time: { Self → Option ℕ };

    /// The time. It may fail.
    fn now(&self) -> io::Result<Duration>
        ensures { IfOk result (λ now. ShowsTime (time self.now) (as_nanos now)) };
}

/// A time that is over so long after a moment, or at the last moment there is.
#[derive(Clone, Copy, Debug, PartialEq, Eq)]
pub struct Deadline {
    from: Duration,
    limit: Duration,
}

impl Deadline {
    /// So long after a moment.
    pub fn after(from: Duration, limit: Duration) -> Deadline
        ensures from { deadline_start result ≡ as_nanos from }
        ensures limit { limit_of result ≡ as_nanos limit }
    {
        Deadline { from, limit }
    }

    /// So long after now. The timer may fail.
    pub fn start<T: Timer>(timer: &T, limit: Duration) -> io::Result<Deadline>
        ensures from { IfOk result (λ deadline. ShowsTime (T.time timer.now) (deadline_start deadline)) }
        ensures limit { IfOk result (λ deadline. limit_of deadline ≡ as_nanos limit) }
    {
        Ok(Deadline::after(timer.now()?, limit))
    }

    /// How much time is left at a moment; `None` where none is.
    pub fn left(self, now: Duration) -> Option<Duration>
        ensures in_time { IsSome result ↔ (as_nanos now < deadline_end self) }
        ensures rest { IfSome result (λ left. as_nanos now + as_nanos left ≡ deadline_end self) }
    {
        let left = self.from.saturating_add(self.limit).saturating_sub(now);
        if left.is_zero() { None } else { Some(left) }
    }
}

/// A stream with a timer, each of whose calls can be given a time that it may take; it may fail sooner. What is written is kept back
/// nowhere.
pub trait TimedStream: Timer {
    ghost use Rattle.std.specs.Prelude.{ℕ, Bool, List, Option};

    /// The bytes that reads will give from here on, where they are known.
    ghost remaining: { Self → Option (List ℕ) };

    /// The bytes that were written, where they are known.
    ghost contents: { Self → Option (List ℕ) };

    /// Whether its reader was told the end, where that is known.
    ghost ended: { Self → Option Bool };

    /// Reads as `Read::read` does, for at most this time. It fails where nothing comes within it.
    fn read_within(&mut self, buf: &mut [u8], limit: Duration) -> io::Result<usize>
        requires { 0 < as_nanos limit }
        ensures bound { ReadsAtMost result buf.new }
        ensures bytes { ReadConsumes (remaining self.old) (remaining self.new) result buf.new }
        ensures passes { PassesAtMost (Self.time self.old) (Self.time self.new) (as_nanos limit) };

    /// Writes as `Write::write` does, for at most this time. It fails where nothing is taken within it.
    fn write_within(&mut self, buf: &[u8], limit: Duration) -> io::Result<usize>
        requires { 0 < as_nanos limit }
        ensures bound { WritesAtMost result buf.now }
        ensures bytes { WriteAppends (contents self.old) (contents self.new) result buf.now }
        ensures passes { PassesAtMost (Self.time self.old) (Self.time self.new) (as_nanos limit) };

    /// Tells the reader of what is written that nothing more comes. This waits for nobody.
    fn finish(&mut self) -> io::Result<()>
        ensures told { OnOk result (IsEnded (ended self.new)) }
        ensures untold { OnErr result (ended self.new ≡ ended self.old) }
        ensures bytes { Keeps (contents self.old) (contents self.new) }
        ensures passes { PassesAtMost (Self.time self.old) (Self.time self.new) 0 };
}

/// A reader and a writer over a stream, whose calls are over by a deadline and fail after it. The stream may fail long before. A call
/// that a signal interrupts is made again in the time that is left. Bytes pass through unchanged.
#[derive(Drop)]
pub struct UntilDeadline<S> {
    stream: S,
    deadline: Deadline,
}

impl<S> UntilDeadline<S> {
    /// The stream, up to the deadline.
    pub fn new(stream: S, deadline: Deadline) -> UntilDeadline<S>
        ensures stream { timed_stream result ≡ stream }
        ensures deadline { deadline_of result ≡ deadline }
    {
        UntilDeadline { stream, deadline }
    }
}

impl<S: TimedStream> UntilDeadline<S> {
    // How much time is left. A fault where none is, or where the timer fails.
    fn left(&self) -> io::Result<Duration>
        ensures left { IfOk result (λ left. IsTimeLeft (deadline_end (deadline_of self.now)) (S.time (timed_stream self.now)) (as_nanos left)) }
        ensures over { IfErr result (λ error. error_kind error ≢ ErrorKind.Interrupted) }
    {
        match self.stream.now() {
            Ok(now) => match self.deadline.left(now) {
                Some(left) => Ok(left),
                None => Err(Error::from(ErrorKind::TimedOut)),
            },
            Err(_) => Err(Error::from(ErrorKind::TimedOut)),
        }
    }
}

impl<S: TimedStream> Read for UntilDeadline<S> {
    ghost remaining = { λ until. S.remaining (timed_stream until) };

    fn read(&mut self, buf: &mut [u8]) -> io::Result<usize>
        ensures bound { ReadsAtMost result buf.new }
        ensures bytes { ReadConsumes (S.remaining (timed_stream self.old)) (S.remaining (timed_stream self.new)) result buf.new }
        ensures deadline { KeepsDeadline (deadline_end (deadline_of self.old)) (S.time (timed_stream self.old)) (S.time (timed_stream self.new)) result }
        ensures again { IfErr result (λ error. error_kind error ≢ ErrorKind.Interrupted) }
        ensures stays { deadline_of self.new ≡ deadline_of self.old }
    {
        'tries: for _ in 0..MOST_TRIES {
            let left = self.left()?;
            match self.stream.read_within(buf, left) {
                Err(error) if error.kind() == ErrorKind::Interrupted => {}
                answer => return answer,
            }
        }
        Err(Error::from(ErrorKind::TimedOut))
    }
}

impl<S: TimedStream> Write for UntilDeadline<S> {
    ghost contents = { λ until. S.contents (timed_stream until) };

    fn write(&mut self, buf: &[u8]) -> io::Result<usize>
        ensures bound { WritesAtMost result buf.now }
        ensures bytes { WriteAppends (S.contents (timed_stream self.old)) (S.contents (timed_stream self.new)) result buf.now }
        ensures deadline { KeepsDeadline (deadline_end (deadline_of self.old)) (S.time (timed_stream self.old)) (S.time (timed_stream self.new)) result }
        ensures again { IfErr result (λ error. error_kind error ≢ ErrorKind.Interrupted) }
        ensures stays { deadline_of self.new ≡ deadline_of self.old }
    {
        'tries: for _ in 0..MOST_TRIES {
            let left = self.left()?;
            match self.stream.write_within(buf, left) {
                Err(error) if error.kind() == ErrorKind::Interrupted => {}
                answer => return answer,
            }
        }
        Err(Error::from(ErrorKind::TimedOut))
    }

    fn flush(&mut self) -> io::Result<()>
        ensures bytes { Keeps (S.contents (timed_stream self.old)) (S.contents (timed_stream self.new)) }
        ensures same { self.new ≡ self.old }
    {
        Ok(())
    }
}

impl<S: TimedStream> Finish for UntilDeadline<S> {
    ghost ended = { λ until. S.ended (timed_stream until) };

    fn finish(&mut self) -> io::Result<()>
        ensures told { OnOk result (IsEnded (S.ended (timed_stream self.new))) }
        ensures untold { OnErr result (S.ended (timed_stream self.new) ≡ S.ended (timed_stream self.old)) }
        ensures bytes { Keeps (S.contents (timed_stream self.old)) (S.contents (timed_stream self.new)) }
        ensures passes { PassesAtMost (S.time (timed_stream self.old)) (S.time (timed_stream self.new)) 0 }
        ensures stays { deadline_of self.new ≡ deadline_of self.old }
    {
        self.stream.finish()
    }
}
