//! Sites at the other end of a connection, each with the time that it may take.

ghost use Rattle.std.specs.{Prelude.{◌≡◌, IfOk, IfErr}, Duration.as_nanos};
ghost use Rattle.stn_device.specs.{Callers.gone_too, Counted.failure_count, Deadline.limit_of, Partner.stranger};
ghost use Rattle.stn_exchanges.specs.Peer.{MayTake, strangers};
ghost use Rattle.stn_refusal.specs.declared.failure.Failure.TheVariants.{Failed};
ghost use Rattle.stn_refusal.specs.declared.failure.Fault.TheVariants as fault;

use std::io::{self, Error, ErrorKind};
use std::net::{Net, TcpListener, TcpStream, ToSocketAddrs};
use std::time::{Clock, Duration};
use stn_device::{Callers, Connection, Counted, Deadline, Partner, UntilDeadline, Watch};
use stn_refusal::{Failure, Fault};

/// A connection that is read, or written to, up to a deadline.
pub type Talk<'a, C> = UntilDeadline<Connection<'a, C>>;

/// A site at the other end of a connection.
pub type Peer<'a, C> = Partner<Talk<'a, C>, Talk<'a, C>>;

/// The site at the other end of a connection, which may take this time from now on. Fault: `Net`, where the clock can't be
/// read, or the connection can't be used both ways.
pub fn meet<C: Clock>(clock: &C, stream: TcpStream, limit: Duration) -> Result<Peer<'_, C>, Failure>
    ensures limited { IfOk result (λ peer. MayTake peer (as_nanos limit)) }
    ensures reads { IfOk result (λ peer. failure_count peer.reader ≡ 0) }
    ensures writes { IfOk result (λ peer. failure_count peer.writer ≡ 0) }
    ensures failed { IfErr result (λ failure. failure ≡ Failed fault.Net) }
{
    match talk_for(clock, stream, limit) {
        Ok(peer) => Ok(peer),
        Err(_) => Err(Failure::Failed(Fault::Net)),
    }
}

fn talk_for<C: Clock>(clock: &C, stream: TcpStream, limit: Duration) -> io::Result<Peer<'_, C>>
    ensures limited { IfOk result (λ peer. MayTake peer (as_nanos limit)) }
    ensures reads { IfOk result (λ peer. failure_count peer.reader ≡ 0) }
    ensures writes { IfOk result (λ peer. failure_count peer.writer ≡ 0) }
{
    let deadline = Deadline::start(&Watch::new(clock), limit)?;
    talk_until(clock, stream, deadline)
}

/// The site at the first of the addresses of a name that answers. This and all that follows may take this time; an address may
/// take half of what is left of it, so that the next one is tried too. No limit can be set to how long looking up the name takes.
/// The error is that of the last address that was tried, or why none could be.
pub fn connect<'a, T: Clock + Net<Stream = TcpStream>>(
    rt: &'a T,
    address: &str,
    limit: Duration,
) -> io::Result<Peer<'a, T>>
    ensures limited { IfOk result (λ peer. MayTake peer (as_nanos limit)) }
    ensures reads { IfOk result (λ peer. failure_count peer.reader ≡ 0) }
    ensures writes { IfOk result (λ peer. failure_count peer.writer ≡ 0) }
{
    let deadline = Deadline::start(&Watch::new(rt), limit)?;
    let mut last = Error::from(ErrorKind::NotConnected);
    for address in address.to_socket_addrs(rt)? {
        let Some(left) = deadline.left(rt.monotonic()?) else {
            return Err(Error::from(ErrorKind::TimedOut));
        };
        match TcpStream::connect_timeout(rt, &address, left / 2) {
            Ok(stream) => return talk_until(rt, stream, deadline),
            Err(error) => last = error,
        }
    }
    Err(last)
}

// Both ways of a connection, up to one deadline.
fn talk_until<C: Clock>(clock: &C, stream: TcpStream, deadline: Deadline) -> io::Result<Peer<'_, C>>
    ensures limited { IfOk result (λ peer. MayTake peer (limit_of deadline)) }
    ensures reads { IfOk result (λ peer. failure_count peer.reader ≡ 0) }
    ensures writes { IfOk result (λ peer. failure_count peer.writer ≡ 0) }
{
    let heard = stream.try_clone()?;
    Ok(Partner {
        reader: Counted::new(UntilDeadline::new(Connection::new(clock, heard), deadline)),
        writer: Counted::new(UntilDeadline::new(Connection::new(clock, stream), deadline)),
    })
}

/// Where sites connect, and how long the session of each may take from the moment at which it is let in.
#[derive(Drop)]
pub struct Service<'a, C> {
    pub clock: &'a C,
    pub listener: &'a TcpListener,
    pub limit: Duration,
}

impl<'a, C: Clock> Service<'a, C> {
    /// Waits for the next site that connects.
    pub fn next(&self) -> Result<Peer<'a, C>, Failure>
        ensures limited { IfOk result (λ peer. MayTake peer (as_nanos self.now.limit)) }
        ensures reads { IfOk result (λ peer. failure_count peer.reader ≡ 0) }
        ensures writes { IfOk result (λ peer. failure_count peer.writer ≡ 0) }
        ensures failed { IfErr result (λ failure. failure ≡ Failed fault.Net) }
    {
        match self.listener.accept() {
            Ok((stream, _)) => meet(self.clock, stream, self.limit),
            Err(_) => Err(Failure::Failed(Fault::Net)),
        }
    }
}

// Who connects is known to no clause.
impl<'a, C: Clock> Callers for Service<'a, C> {
    ghost use Rattle.std.specs.Prelude.{⊤};

    type Reader = Talk<'a, C>;

    type Writer = Talk<'a, C>;

    ghost callers = { λ _. strangers };

    ghost is_in = { λ _. ⊤ };

    fn accept(&mut self) -> Result<Peer<'a, C>, Failure> {
        self.next()
    }

    // The connection is closed.
    fn leave(&mut self, partner: Peer<'a, C>)
        ensures { strangers ≡ gone_too strangers stranger }
    {
        drop(partner);
    }
}
