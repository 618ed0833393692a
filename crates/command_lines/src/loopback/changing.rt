// Logs that change while a site serves or sends.
use super::{Scene, add, command, far_replica, is_as_before, near_replica, print_report, send};
use std::alloc::Global;
use std::io::{Error, Write};
use std::{fs, io};
use stn_replica::Replica;

/// A log that gains a bound before a session or during an exchange; one that is gone; one that another plan's has replaced, and one
/// that is no log any more.
pub fn serve_or_send(scene: &Scene<'_>, scenario: &str) -> io::Result<()> {
    match scenario {
        "older-asks" => send_older(scene),
        _ => serve_changed(scene, scenario),
    }
}

// What site 1 serves whose log is another by then.
fn serve_changed(scene: &Scene<'_>, scenario: &str) -> io::Result<()> {
    let mut replica = near_replica(scene.rt)?;
    match scenario {
        "older" => serve_older(scene, &mut replica),
        "removed" => serve_gone(scene, &mut replica),
        "other-plan" => serve_other_plan(scene, &mut replica),
        "no-log" => serve_replaced(scene, b"no log", &mut replica),
        _ => Err(Error::other("no such scenario")),
    }
}

// Serves a connection that says nothing, and prints what the log then reports.
fn serve_closed(scene: &Scene<'_>, log: &str, replica: &mut Replica<Global>) -> io::Result<()> {
    drop(scene.connect()?);
    scene.serve_log(1, log, replica)
}

// The log has a bound more than the replica that is served.
fn serve_older(scene: &Scene<'_>, replica: &mut Replica<Global>) -> io::Result<()> {
    add(scene.rt, "z", "e1", "--lo=7.000", "--hi=9.000")?;
    serve_closed(scene, "near.log", replica)?;
    print_report(scene.rt, replica)?;
    command(scene.rt, &["stn", "report", "near.log", "1"])
}

// The log has a bound more than the replica that was sent.
fn send_older(scene: &Scene<'_>) -> io::Result<()> {
    let mut replica = far_replica(scene.rt)?;
    add_and_send(scene, &mut replica)
}

fn add_and_send(scene: &Scene<'_>, replica: &mut Replica<Global>) -> io::Result<()> {
    command(
        scene.rt,
        &["stn", "add", "far.log", "2", "z", "e1", "--hi=14.000"],
    )?;
    send(scene, replica)
}

// The log is gone, and made again.
fn serve_gone(scene: &Scene<'_>, replica: &mut Replica<Global>) -> io::Result<()> {
    fs::remove_file(scene.rt, "near.log")?;
    serve_closed(scene, "near.log", replica)?;
    command(scene.rt, &["stn", "report", "near.log", "1"])
}

// The log of another plan stands in the log's place.
fn serve_other_plan(scene: &Scene<'_>, replica: &mut Replica<Global>) -> io::Result<()> {
    let other = fs::read(scene.rt, "large.log")?;
    serve_replaced(scene, &other, replica)
}

// Other bytes stand in the log's place, and stay.
fn serve_replaced(
    scene: &Scene<'_>,
    bytes: &[u8],
    replica: &mut Replica<Global>,
) -> io::Result<()> {
    (&fs::create(scene.rt, "replaced.log")?).write_all(bytes)?;
    serve_closed(scene, "replaced.log", replica)?;
    is_as_before(scene.rt, "replaced.log", bytes)
}
