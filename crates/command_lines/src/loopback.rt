// Both ends of connections on this machine, one end after the other. What a session answers is printed, and what the other site
// makes of the replies, what `serve_on` and `send_on` print and their statuses, and what the saved log then reports. Some of the
// other ends keep silent, or read nothing.
ghost use Rattle.std.specs.Prelude.{◌≡◌};
ghost use Rattle.stn_device.specs.Counted.{failure_count};

mod changing;
mod untrusted;

use crate::{bytes_of, cut_word, print_digits, print_end};
use std::alloc::Global;
use std::io::{Error, Read, Write};
use std::net::{Shutdown, TcpListener, TcpStream};
use std::time::Duration;
use std::{fs, io};
use stn_device::Counted;
use stn_exchanges::{Peer, Service, meet, send_on, serve_on};
use stn_line::SiteLog;
use stn_records::Site;
use stn_replica::Replica;
use stn_session::{ReplyFault, receive_replies, send_requests, serve};
use stn_shell::execute;
use stn_store::{FileStore, load};

// How many milliseconds a session or an exchange may take.
const LIMIT: u64 = 2_000;

// How long the requests of an empty replica are: HELLO, RECORDS and ASK.
const REQUESTS_LENGTH: u64 = 22;

// What a site with the records 1.1 and 1.2 replies to them: SAME, RECORDS, and TEXT, of which the report follows.
const REPLIES: [u8; 69] = [
    0, 0, 0, 1, 6, // SAME
    0, 0, 0, 0x37, 8, // RECORDS
    0, 2, // two records
    0, 1, 0, 1, 0, 0, 1, 0, 2, // 1.1 from s1 to e1
    0, 0, 0, 7, 0x57, 0xb1, 0x3f, 0x88, // 5.000
    0, 0, 0, 7, 0x57, 0xb1, 0x3f, 0x88, // 5.000
    0, 1, 0, 2, 0, 0, 0, 0, 1, // 1.2 from z to s1
    0, 0, 0, 7, 0x57, 0xb1, 0x33, 0xd0, // 2.000
    0, 0, 0, 7, 0x57, 0xb1, 0x53, 0x10, // 10.000
    0, 0, // no tombstone
    0, 0, 0, 0x55, 4, // TEXT
];

const REPORT: &[u8] =
    b"plan 1 steps 2 events\nrecords 2 live 0 withdrawn\nok\ns1 2.000 10.000\ne1 7.000 15.000\n";

fn first_site() -> Site {
    Site::new(1).unwrap()
}

fn second_site() -> Site {
    Site::new(2).unwrap()
}

// The replica of a site by its log.
fn load_log(rt: &HostRuntime, log: &str, site: Site) -> io::Result<Replica<Global>> {
    let mut reader = Counted::new(fs::open(rt, log)?);
    match load(rt.alloc(), &mut reader, site) {
        Ok(replica) => Ok(replica),
        Err(_) => Err(Error::other("a log is not loaded")),
    }
}

fn near_replica(rt: &HostRuntime) -> io::Result<Replica<Global>> {
    load_log(rt, "near.log", first_site())
}

fn far_replica(rt: &HostRuntime) -> io::Result<Replica<Global>> {
    load_log(rt, "far.log", second_site())
}

// Does a command, and prints its status.
fn command(rt: &HostRuntime, words: &[&str]) -> io::Result<()> {
    let mut reader = Counted::new(b"".as_slice());
    let mut out = Counted::new(io::writer(rt));
    let mut err = Counted::new(Vec::new(rt.alloc()));
    let status = execute(rt, words, &mut reader, &mut out, &mut err);
    print_end(rt, &err.into_inner(), status)
}

fn print_status(rt: &HostRuntime, status: u8) -> io::Result<()> {
    println!(rt; "status {status}")
}

// Adds a bound to the log of site 1.
fn add(rt: &HostRuntime, from: &str, to: &str, lo: &str, hi: &str) -> io::Result<()> {
    command(rt, &["stn", "add", "near.log", "1", from, to, lo, hi])
}

// What a scenario works with: the runtime, and the listener to which its other ends connect.
#[derive(Clone, Copy)]
struct Scene<'a> {
    rt: &'a HostRuntime,
    listener: &'a TcpListener,
}

impl Scene<'_> {
    // A connection to the listener.
    fn connect(&self) -> io::Result<TcpStream> {
        TcpStream::connect(self.rt, self.listener.local_addr()?)
    }

    // A connection on which these bytes wait.
    fn begin(&self, bytes: &[u8]) -> io::Result<TcpStream> {
        let stream = self.connect()?;
        (&stream).write_all(bytes)?;
        Ok(stream)
    }

    // A connection on which the requests of a replica wait.
    fn ask(&self, replica: &Replica<Global>) -> io::Result<TcpStream> {
        let stream = self.connect()?;
        send_all(self.rt.alloc(), &stream, replica)?;
        Ok(stream)
    }

    // Serves the connections that wait by a log of site 1, and prints the status.
    fn serve_waiting(&self, count: u16, log: &str) -> io::Result<()> {
        let mut replica = load_log(self.rt, log, first_site())?;
        self.serve_log(count, log, &mut replica)
    }

    // The same for a replica that was loaded before.
    fn serve_log(&self, count: u16, log: &str, replica: &mut Replica<Global>) -> io::Result<()> {
        let mut service = Service {
            clock: self.rt,
            listener: self.listener,
            limit: Duration::from_millis(LIMIT),
        };
        let log = SiteLog {
            name: log,
            site: first_site(),
        };
        print_status(
            self.rt,
            status_of_serving(self.rt, &mut service, count, &log, replica),
        )
    }
}

fn send_all(alloc: Global, stream: &TcpStream, replica: &Replica<Global>) -> io::Result<()> {
    let mut writer = Counted::new(stream);
    match send_requests(alloc, replica, &mut writer) {
        Ok(()) => Ok(()),
        Err(_) => Err(Error::other("requests are not sent")),
    }
}

// What a replica makes of the replies.
fn take_replies(
    alloc: Global,
    stream: &TcpStream,
    replica: &mut Replica<Global>,
) -> Result<Vec<u8>, ReplyFault> {
    let mut reader = Counted::new(stream);
    receive_replies(alloc, &mut reader, replica)
}

// The text of the replies, which are taken in.
fn replied(
    alloc: Global,
    stream: &TcpStream,
    replica: &mut Replica<Global>,
) -> io::Result<Vec<u8>> {
    match take_replies(alloc, stream, replica) {
        Ok(text) => Ok(text),
        Err(_) => Err(Error::other("replies are not taken")),
    }
}

// Takes in the replies, and prints their text and what the replica then reports.
fn receive(rt: &HostRuntime, stream: &TcpStream, replica: &mut Replica<Global>) -> io::Result<()> {
    print_text(rt, &replied(rt.alloc(), stream, replica)?)?;
    print_report(rt, replica)
}

fn print_report(rt: &HostRuntime, replica: &Replica<Global>) -> io::Result<()> {
    let mut report = Vec::new(rt.alloc());
    replica.report(&mut report)?;
    print_text(rt, &report)
}

fn print_text(rt: &HostRuntime, text: &[u8]) -> io::Result<()> {
    io::writer(rt).write_all(text)
}

// A session over a connection whose other end stays.
fn session(scene: &Scene<'_>, replica: &mut Replica<Global>) -> io::Result<()> {
    let other = scene.ask(replica)?;
    serve_next(scene)?;
    receive(scene.rt, &other, replica)
}

// Serves the next connection as far as the requests go.
fn serve_next(scene: &Scene<'_>) -> io::Result<()> {
    let mut replica = near_replica(scene.rt)?;
    accept_requested(scene, &mut replica)
}

fn accept_requested(scene: &Scene<'_>, replica: &mut Replica<Global>) -> io::Result<()> {
    let (stream, _) = scene.listener.accept()?;
    serve_requested(scene.rt, &stream, replica)
}

fn serve_requested(
    rt: &HostRuntime,
    stream: &TcpStream,
    replica: &mut Replica<Global>,
) -> io::Result<()> {
    let mut reader = Counted::new(stream.take(REQUESTS_LENGTH));
    let mut writer = Counted::new(stream);
    match serve(rt.alloc(), &mut reader, &mut writer, replica) {
        Ok(served) => println!(rt; "{} frames, {:?}", served.frames, served.end),
        Err(_) => Err(Error::other("a session is broken")),
    }
}

fn status_of_serving(
    rt: &HostRuntime,
    service: &mut Service<'_, HostRuntime>,
    count: u16,
    log: &SiteLog<'_>,
    replica: &mut Replica<Global>,
) -> u8 {
    let mut out = Counted::new(io::writer(rt));
    let mut err = Counted::new(io::writer(rt));
    serve_on(
        rt,
        &mut FileStore::new(rt),
        service,
        count,
        log,
        replica,
        &mut out,
        &mut err,
    )
}

// A connection whose requests end in bytes that are no frame.
fn serve_refused(scene: &Scene<'_>, replica: &mut Replica<Global>) -> io::Result<()> {
    let other = scene.ask(replica)?;
    (&other).write_all(&[0, 4, 0, 1])?;
    scene.serve_waiting(1, "near.log")?;
    receive(scene.rt, &other, replica)
}

// A connection that ends within a frame, and one that says nothing.
fn serve_broken(scene: &Scene<'_>) -> io::Result<()> {
    drop(scene.begin(&[0, 0, 0, 4, 7])?);
    drop(scene.connect()?);
    scene.serve_waiting(2, "near.log")
}

// Sends over a connection on which the replies of a site with two records wait.
fn send(scene: &Scene<'_>, replica: &mut Replica<Global>) -> io::Result<()> {
    send_two(scene, replica)?;
    command(scene.rt, &["stn", "report", "far.log", "2"])
}

fn send_two(scene: &Scene<'_>, replica: &mut Replica<Global>) -> io::Result<()> {
    let replies = replies_of_two(scene.rt.alloc())?;
    send_waiting(scene, &replies, replica)
}

fn replies_of_two(alloc: Global) -> io::Result<Vec<u8>> {
    let mut replies = Vec::from_slice(alloc, &REPLIES)?;
    replies.extend_from_slice(REPORT)?;
    Ok(replies)
}

// Writes these bytes, and says that nothing more comes.
fn write_all_of(stream: &TcpStream, bytes: &[u8]) -> io::Result<()> {
    let mut writer = stream;
    writer.write_all(bytes)?;
    stream.shutdown(Shutdown::Write)
}

// Sends the requests that these digits spell, and says that nothing more comes.
fn send_bytes(scene: &Scene<'_>, digits: &str) -> io::Result<TcpStream> {
    let bytes = bytes_of(scene.rt.alloc(), digits)?;
    let stream = scene.begin(&bytes)?;
    stream.shutdown(Shutdown::Write)?;
    Ok(stream)
}

// Serves requests after which nothing more comes, and prints the replies.
fn serve_request(scene: &Scene<'_>, digits: &str) -> io::Result<()> {
    let other = send_bytes(scene, digits)?;
    scene.serve_waiting(1, "near.log")?;
    print_replies(scene.rt, &other)
}

fn print_replies(rt: &HostRuntime, other: &TcpStream) -> io::Result<()> {
    let mut reader = other;
    let mut replies = Vec::new(rt.alloc());
    reader.read_to_end(&mut replies)?;
    print_digits(rt, &replies)
}

// A HELLO, and the record 3.1 from z to s1 at 3.000.
const BEFORE_ASKING: [u8; 42] = [
    0, 0, 0, 4, 7, 0, 0, 1, // HELLO
    0, 0, 0, 0x1e, 8, 0, 1, // RECORDS, one record
    0, 3, 0, 1, 0, 0, 0, 0, 1, // 3.1 from z to s1
    0, 0, 0, 7, 0x57, 0xb1, 0x37, 0xb8, // 3.000
    0, 0, 0, 7, 0x57, 0xb1, 0x37, 0xb8, // 3.000
    0, 0, // no tombstone
];

// These, and 100 times ASK, from a site that goes away before it is answered.
fn serve_gone(scene: &Scene<'_>) -> io::Result<()> {
    ask_and_go(scene)?;
    scene.serve_waiting(1, "near.log")?;
    command(scene.rt, &["stn", "report", "near.log", "1"])
}

fn ask_and_go(scene: &Scene<'_>) -> io::Result<()> {
    let stream = scene.begin(&BEFORE_ASKING)?;
    ask_often(&stream)
}

fn ask_often(stream: &TcpStream) -> io::Result<()> {
    let mut writer = stream;
    for _ in 0..100 {
        writer.write_all(&[0, 0, 0, 1, 3])?;
    }
    Ok(())
}

// A session after which the log can't be saved.
fn serve_unsaved(scene: &Scene<'_>) -> io::Result<()> {
    drop(scene.connect()?);
    serve_unlockable(scene)
}

// Serves while nobody can lock the log, which may be locked again afterwards.
fn serve_unlockable(scene: &Scene<'_>) -> io::Result<()> {
    fs::remove_file(scene.rt, "near.log.lock")?;
    fs::create_dir(scene.rt, "near.log.lock")?;
    scene.serve_waiting(1, "near.log")?;
    fs::remove_dir(scene.rt, "near.log.lock")?;
    fs::write(scene.rt, "near.log.lock", b"")
}

// Requests whose records can't be saved: prints the replies, after which the log is as before.
fn serve_unsaved_records(scene: &Scene<'_>, digits: &str) -> io::Result<()> {
    let before = fs::read(scene.rt, "near.log")?;
    let other = send_bytes(scene, digits)?;
    serve_unlockable(scene)?;
    print_replies(scene.rt, &other)?;
    is_as_before(scene.rt, "near.log", &before)
}

// Sends over a connection on which these replies wait.
fn send_waiting(
    scene: &Scene<'_>,
    replies: &[u8],
    replica: &mut Replica<Global>,
) -> io::Result<()> {
    let stream = scene.connect()?;
    let (other, _) = scene.listener.accept()?;
    write_all_of(&other, replies)?;
    send_over(scene.rt, stream, replica)
}

// Sends over a connection, and prints the status.
fn send_over(rt: &HostRuntime, stream: TcpStream, replica: &mut Replica<Global>) -> io::Result<()> {
    match meet(rt, stream, Duration::from_millis(LIMIT)) {
        Ok(mut peer) => print_status(rt, status_of_sending(rt, &mut peer, replica)),
        Err(_) => Err(Error::other("no clock")),
    }
}

fn status_of_sending(
    rt: &HostRuntime,
    peer: &mut Peer<'_, HostRuntime>,
    replica: &mut Replica<Global>,
) -> u8
    requires reads { failure_count peer.old.reader ≡ 0 }
    requires writes { failure_count peer.old.writer ≡ 0 }
{
    let mut out = Counted::new(io::writer(rt));
    let mut err = Counted::new(io::writer(rt));
    send_on(
        rt,
        &mut FileStore::new(rt),
        peer,
        &SiteLog {
            name: "far.log",
            site: second_site(),
        },
        replica,
        &mut out,
        &mut err,
    )
}

// Sends where these replies wait, which are refused; then the log is as before.
fn send_refused(scene: &Scene<'_>, digits: &str, replica: &mut Replica<Global>) -> io::Result<()> {
    let before = fs::read(scene.rt, "far.log")?;
    send_digits(scene, digits, replica)?;
    is_as_before(scene.rt, "far.log", &before)
}

fn send_digits(scene: &Scene<'_>, digits: &str, replica: &mut Replica<Global>) -> io::Result<()> {
    let replies = bytes_of(scene.rt.alloc(), digits)?;
    send_waiting(scene, &replies, replica)
}

fn is_as_before(rt: &HostRuntime, log: &str, before: &[u8]) -> io::Result<()> {
    if fs::read(rt, log)?.as_slice() == before {
        Ok(())
    } else {
        Err(Error::other("the log was saved"))
    }
}

// An address at which another listens, and one at which nobody does; after either no log was saved.
fn reach_nothing(scene: &Scene<'_>) -> io::Result<()> {
    let before = fs::read(scene.rt, "near.log")?;
    serve_at_taken(scene)?;
    send_to_free(scene.rt)?;
    is_as_before(scene.rt, "near.log", &before)
}

fn address_of(alloc: Global, listener: &TcpListener) -> io::Result<String> {
    let address = listener.local_addr()?;
    Ok(format!(in alloc; "{address}")?)
}

fn serve_at_taken(scene: &Scene<'_>) -> io::Result<()> {
    let taken = address_of(scene.rt.alloc(), scene.listener)?;
    command(scene.rt, &["stn", "serve", "near.log", "1", &taken, "1"])
}

fn send_to_free(rt: &HostRuntime) -> io::Result<()> {
    let free = free_address(rt)?;
    command(rt, &["stn", "send", "near.log", "1", &free])
}

fn free_address(rt: &HostRuntime) -> io::Result<String> {
    let other = TcpListener::bind(rt, "127.0.0.1:0")?;
    address_of(rt.alloc(), &other)
}

fn make_logs(rt: &HostRuntime) -> io::Result<()> {
    command(rt, &["stn", "bare", "near.log", "1", "1"])?;
    add(rt, "s1", "e1", "--lo=5.000", "--hi=5.000")?;
    add(rt, "z", "s1", "--lo=2.000", "--hi=10.000")?;
    command(rt, &["stn", "bare", "far.log", "2", "1"])
}

// An address, and a log, that are not there.
fn find_nothing(rt: &HostRuntime) -> io::Result<()> {
    command(rt, &["stn", "send", "far.log", "2", "nowhere"])?;
    command(rt, &["stn", "serve", "near.log", "1", "nowhere", "1"])?;
    command(rt, &["stn", "serve", "none.log", "1", "127.0.0.1:0", "1"])
}

// What site 2 asks or sends.
fn ask_or_send(scene: &Scene<'_>, scenario: &str, digits: &str) -> io::Result<()> {
    let mut replica = far_replica(scene.rt)?;
    match scenario {
        "session" => session(scene, &mut replica),
        "refused" => serve_refused(scene, &mut replica),
        "send" => send(scene, &mut replica),
        _ => send_refused(scene, digits, &mut replica),
    }
}

// Over one connection after the other, each of which the other end has made.
fn serve_and_send(scene: &Scene<'_>, scenario: &str, digits: &str) -> io::Result<()> {
    match scenario {
        "session" | "refused" | "send" | "replies" => ask_or_send(scene, scenario, digits),
        "cut" => serve_broken(scene),
        "request" => serve_request(scene, digits),
        "gone" => serve_gone(scene),
        "unsaved" => serve_unsaved(scene),
        "unsaved-records" => serve_unsaved_records(scene, digits),
        "addresses" => reach_nothing(scene),
        _ => untrusted::serve_or_send(scene, scenario),
    }
}

/// Serves or sends as a line says: the name of a scenario, perhaps bytes in hex, and what is expected.
pub fn run_scenario(rt: &HostRuntime, scenario: &str, words: &str) -> io::Result<()> {
    let listener = TcpListener::bind(rt, "127.0.0.1:0")?;
    let (digits, _) = cut_word(words);
    let scene = Scene {
        rt,
        listener: &listener,
    };
    match scenario {
        "logs" => make_logs(rt),
        "nowhere" => find_nothing(rt),
        _ => serve_and_send(&scene, scenario, digits),
    }
}
