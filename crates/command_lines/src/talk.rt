//! Sessions and exchanges in memory: what the other site says is given, and what it is told is printed.

use crate::bytes_of;
use std::alloc::Global;
use std::io;
use std::io::Error;
use stn_device::{Counted, Ear, MemoryCallers, Partner};
use stn_exchanges::{send_on, serve_on};
use stn_line::SiteLog;
use stn_records::Site;
use stn_replica::Replica;
use stn_store::{MemoryStore, Store};

fn site_of(number: u8) -> io::Result<Site> {
    match Site::new(number) {
        Some(site) => Ok(site),
        None => Err(Error::other("no site")),
    }
}

fn load(store: &MemoryStore<Global>, log: &SiteLog<'_>) -> io::Result<Replica<Global>> {
    match store.load(log.name, log.site) {
        Ok(plan) => Ok(Replica::of(plan)?),
        Err(_) => Err(Error::other("a log is not loaded")),
    }
}

// Prints what a site was told, how much it has left to say, and whether it was told the end. Gives what it was told.
fn hear(rt: &HostRuntime, partner: Partner<&[u8], Ear>) -> io::Result<Vec<u8>> {
    let Partner { reader, writer } = partner;
    let left = reader.into_inner().len();
    let ear = writer.into_inner();
    let digits = hex::encode(rt.alloc(), ear.bytes())?;
    println!(rt; "told {digits}, {left} left")?;
    if ear.ended() {
        println!(rt; "parted")?;
    }
    Ok(Vec::from_slice(rt.alloc(), ear.bytes())?)
}

// Sends by a log of site 2 to a site that says these bytes, and gives what that one is told.
fn send(
    rt: &HostRuntime,
    store: &mut MemoryStore<Global>,
    name: &str,
    bytes: &[u8],
) -> io::Result<Vec<u8>> {
    let site = site_of(2)?;
    let log = SiteLog { name, site };
    let mut replica = load(store, &log)?;
    let mut partner = Partner {
        reader: Counted::new(bytes),
        writer: Counted::new(Ear::new(rt.alloc())),
    };
    let mut out = Counted::new(io::writer(rt));
    let mut err = Counted::new(io::writer(rt));
    let status = send_on(
        rt,
        store,
        &mut partner,
        &log,
        &mut replica,
        &mut out,
        &mut err,
    );
    drop(replica);
    println!(rt; "status {status}")?;
    hear(rt, partner)
}

// Serves so many of the sites that come, by a log of site 1.
fn serve(
    rt: &HostRuntime,
    store: &mut MemoryStore<Global>,
    name: &str,
    callers: &mut MemoryCallers<'_>,
    count: u16,
) -> io::Result<()> {
    let site = site_of(1)?;
    let log = SiteLog { name, site };
    let mut replica = load(store, &log)?;
    let mut out = Counted::new(io::writer(rt));
    let mut err = Counted::new(io::writer(rt));
    let status = serve_on(
        rt,
        store,
        callers,
        count,
        &log,
        &mut replica,
        &mut out,
        &mut err,
    );
    drop(replica);
    println!(rt; "status {status}")
}

// Serves two sites that say these bytes, and prints what each is told. Gives what the last one is told.
fn serve_both(
    rt: &HostRuntime,
    store: &mut MemoryStore<Global>,
    name: &str,
    first: &[u8],
    second: &[u8],
) -> io::Result<Vec<u8>> {
    let mut callers = MemoryCallers::new(rt.alloc());
    callers.expect(first)?;
    callers.expect(second)?;
    serve(rt, store, name, &mut callers, 2)?;
    let mut told = Vec::new(rt.alloc());
    for partner in callers.into_gone() {
        told = hear(rt, partner)?;
    }
    Ok(told)
}

/// Serves a site that says the bytes of these digits and then so many zeros, and after it one that says nothing; prints what each is
/// told.
pub fn serve_saying(
    rt: &HostRuntime,
    store: &mut MemoryStore<Global>,
    name: &str,
    digits: &str,
    zeros: usize,
) -> io::Result<()> {
    let mut bytes = bytes_of(rt.alloc(), digits)?;
    bytes.resize(bytes.len().saturating_add(zeros), 0)?;
    drop(serve_both(rt, store, name, &bytes, b"")?);
    Ok(())
}

/// Has the site 2 of one log ask the site 1 of another: prints what it says to one that says nothing, what it is replied after that,
/// and what it makes of the replies.
pub fn talk(
    rt: &HostRuntime,
    store: &mut MemoryStore<Global>,
    asking: &str,
    asked: &str,
) -> io::Result<()> {
    let requests = send(rt, store, asking, b"")?;
    let replies = serve_both(rt, store, asked, b"", &requests)?;
    drop(send(rt, store, asking, &replies)?);
    Ok(())
}
