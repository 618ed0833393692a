// Peers that keep a site waiting, each with an honest one after it.
use super::{
    BEFORE_ASKING, Scene, changing, command, far_replica, load_log, replied, second_site,
    take_replies,
};
use std::alloc::{AllocError, Global};
use std::io;
use std::io::Error;
use std::net::{Shutdown, SocketAddr, TcpListener, TcpStream};
use std::time::Duration;
use stn_device::Counted;
use stn_net::Event;
use stn_replica::Replica;
use stn_session::{ReplyFault, send_requests};
use stn_time::Ms;

/// A peer that says nothing, one that stops within a frame, one that stops after its records and one that reads no reports; one that
/// is refused before it has said all; and an address that doesn't answer.
pub fn serve_or_send(scene: &Scene<'_>, scenario: &str) -> io::Result<()> {
    match scenario {
        "silent" => serve_after(scene, b""),
        "stopped" => serve_after(scene, &[0, 0, 0, 4, 7]),
        "silent-after-records" => serve_records(scene),
        "reads-nothing" => serve_unread(scene),
        "refused-early" => serve_other_plan(scene),
        "no-answer" => reach_no_answer(scene.rt),
        _ => changing::serve_or_send(scene, scenario),
    }
}

// A connection with the requests of a replica, and nothing after them.
fn ask_alone(scene: &Scene<'_>, replica: &Replica<Global>) -> io::Result<TcpStream> {
    let stream = scene.ask(replica)?;
    stream.shutdown(Shutdown::Write)?;
    Ok(stream)
}

fn print_first_line(rt: &HostRuntime, text: &[u8]) -> io::Result<()> {
    let text = String::from_utf8_lossy(rt.alloc(), text)?;
    println!(rt; "{}", text.lines().next().unwrap_or(""))
}

// A peer that says this and no more, and the honest one.
fn serve_after(scene: &Scene<'_>, said: &[u8]) -> io::Result<()> {
    let mut honest = far_replica(scene.rt)?;
    serve_both(scene, "near.log", said, &mut honest)
}

fn serve_both(
    scene: &Scene<'_>,
    log: &str,
    said: &[u8],
    honest: &mut Replica<Global>,
) -> io::Result<()> {
    let silent = scene.begin(said)?;
    let answer = serve_honest(scene, log, honest);
    drop(silent);
    answer
}

// Serves the peer that waits, and an honest one, of whose replies it prints the first line.
fn serve_honest(scene: &Scene<'_>, log: &str, honest: &mut Replica<Global>) -> io::Result<()> {
    let asking = ask_alone(scene, honest)?;
    scene.serve_waiting(2, log)?;
    let text = replied(scene.rt.alloc(), &asking, honest)?;
    print_first_line(scene.rt, &text)
}

// A peer that hands on its record and then says nothing: the record is kept.
fn serve_records(scene: &Scene<'_>) -> io::Result<()> {
    command(scene.rt, &["stn", "bare", "silent.log", "1", "1"])?;
    serve_silent(scene)?;
    command(scene.rt, &["stn", "report", "silent.log", "1"])
}

fn serve_silent(scene: &Scene<'_>) -> io::Result<()> {
    let silent = scene.begin(&BEFORE_ASKING)?;
    let answer = scene.serve_waiting(1, "silent.log");
    drop(silent);
    answer
}

// A peer that asks for 800 reports of 256 steps and reads none of them: more bytes than a connection holds.
fn serve_unread(scene: &Scene<'_>) -> io::Result<()> {
    command(scene.rt, &["stn", "bare", "large.log", "1", "256"])?;
    let mut honest = large_replica(scene.rt)?;
    serve_asking_on(scene, &mut honest)
}

fn large_replica(rt: &HostRuntime) -> io::Result<Replica<Global>> {
    load_log(rt, "large.log", second_site())
}

fn serve_asking_on(scene: &Scene<'_>, honest: &mut Replica<Global>) -> io::Result<()> {
    let requests = asking_on(scene.rt, honest)?;
    serve_both(scene, "large.log", &requests, honest)
}

// The requests of a replica, and ASK, which ends them, many times more.
fn asking_on(rt: &HostRuntime, replica: &Replica<Global>) -> io::Result<Vec<u8>> {
    let mut writer = Counted::new(Vec::new(rt.alloc()));
    let answer = send_requests(rt.alloc(), replica, &mut writer);
    let mut bytes = writer.into_inner();
    if answer.is_ok() && append_asks(&mut bytes).is_ok() {
        Ok(bytes)
    } else {
        Err(Error::other("no requests"))
    }
}

fn append_asks(bytes: &mut Vec<u8>) -> Result<(), AllocError> {
    for _ in 0..799 {
        bytes.extend_from_slice(&[0, 0, 0, 1, 3])?;
    }
    Ok(())
}

// A site of another plan with 400 records: it has more to say after it is refused, and is told why.
fn serve_other_plan(scene: &Scene<'_>) -> io::Result<()> {
    let mut other = large_replica(scene.rt)?;
    ask_of_other_plan(scene, &mut other)
}

fn ask_of_other_plan(scene: &Scene<'_>, other: &mut Replica<Global>) -> io::Result<()> {
    add_all(other)?;
    let stream = scene.ask(other)?;
    scene.serve_waiting(1, "near.log")?;
    print_refusal(scene.rt, &stream, other)
}

fn print_refusal(
    rt: &HostRuntime,
    stream: &TcpStream,
    replica: &mut Replica<Global>,
) -> io::Result<()> {
    match take_replies(rt.alloc(), stream, replica) {
        Err(ReplyFault::Refused(code)) => println!(rt; "Refused({code})"),
        _ => Err(Error::other("no refusal")),
    }
}

fn add_all(replica: &mut Replica<Global>) -> io::Result<()> {
    for event in 1..401 {
        if !add(replica, event) {
            return Err(Error::other("a bound is not added"));
        }
    }
    Ok(())
}

// Adds a bound of a day.
fn add(replica: &mut Replica<Global>, event: u16) -> bool {
    match (Event::new(event), Ms::new(86_400_000)) {
        (Some(event), Some(day)) => replica.add(Event::origin(), event, day, day).is_ok(),
        _ => false,
    }
}

// An address whose queue of connections is full.
fn reach_no_answer(rt: &HostRuntime) -> io::Result<()> {
    let listener = TcpListener::bind(rt, "127.0.0.1:0")?;
    let address = listener.local_addr()?;
    let mut waiting = Vec::new(rt.alloc());
    fill_and_send(rt, address, &mut waiting)
}

fn fill_and_send(
    rt: &HostRuntime,
    address: SocketAddr,
    waiting: &mut Vec<TcpStream>,
) -> io::Result<()> {
    fill(rt, address, waiting)?;
    let address = format!(in rt.alloc(); "{address}")?;
    command(
        rt,
        &["stn", "send", "far.log", "2", &address, "--seconds=1"],
    )
}

fn fill(rt: &HostRuntime, address: SocketAddr, waiting: &mut Vec<TcpStream>) -> io::Result<()> {
    for _ in 0..1_000 {
        match TcpStream::connect_timeout(rt, &address, Duration::from_millis(200)) {
            Ok(stream) => waiting.push(stream)?,
            Err(_) => break,
        }
    }
    Ok(())
}
