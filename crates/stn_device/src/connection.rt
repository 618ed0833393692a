//! The time of a clock, and connections whose calls can be given a time.

use crate::deadline::{TimedStream, Timer};
use std::io::{self, Read, Write};
use std::net::{Shutdown, TcpStream};
use std::time::{Clock, Duration};

/// The time that a clock shows.
#[derive(Drop)]
pub struct Watch<'a, C> {
    clock: &'a C,
}

impl<'a, C> Watch<'a, C> {
    /// The time of the clock.
    pub fn new(clock: &'a C) -> Watch<'a, C> {
        Watch { clock }
    }
}

// No clause knows a clock's time.
impl<C: Clock> Timer for Watch<'_, C> {
    ghost use Rattle.std.specs.Prelude.{None};

    ghost time = { λ _. None };

    fn now(&self) -> io::Result<Duration> {
        self.clock.monotonic()
    }
}

/// A connection, and a clock.
#[derive(Drop)]
pub struct Connection<'a, C> {
    clock: &'a C,
    stream: TcpStream,
}

impl<'a, C> Connection<'a, C> {
    /// The connection, timed by the clock.
    pub fn new(clock: &'a C, stream: TcpStream) -> Connection<'a, C> {
        Connection { clock, stream }
    }
}

impl<C: Clock> Timer for Connection<'_, C> {
    ghost use Rattle.std.specs.Prelude.{None};

    ghost time = { λ _. None };

    fn now(&self) -> io::Result<Duration> {
        self.clock.monotonic()
    }
}

// What the other end sends and takes is known to no clause.
impl<C: Clock> TimedStream for Connection<'_, C> {
    ghost use Rattle.std.specs.Prelude.{None};

    ghost remaining = { λ _. None };

    ghost contents = { λ _. None };

    ghost ended = { λ _. None };

    fn read_within(&mut self, buf: &mut [u8], limit: Duration) -> io::Result<usize> {
        self.stream.set_read_timeout(Some(limit))?;
        self.stream.read(buf)
    }

    fn write_within(&mut self, buf: &[u8], limit: Duration) -> io::Result<usize> {
        self.stream.set_write_timeout(Some(limit))?;
        self.stream.write(buf)
    }

    fn finish(&mut self) -> io::Result<()> {
        self.stream.shutdown(Shutdown::Write)
    }
}
