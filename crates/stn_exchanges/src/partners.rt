//! Sessions and exchanges with other sites, over any reader and writer.

ghost use Rattle.std.specs.Prelude.{◌≡◌, ◌++◌, ◌-◌, ◌^◌, ◌<◌, OnOk};
ghost use Rattle.stn_device.specs.{Counted.failure_count, Partner.partner_state};
ghost use Rattle.stn_effects.specs.{Effects.{seen, Then}, Printing.{Device, device_of, Writes}};
ghost use Rattle.stn_exchanges.specs.{Connections.{ended_text, fault_word, session_text, meeting, OnPrinted, LetsGo, PartsAfter, ServesSite, Asks, Hears, SendsTo}, Joining.{KeepsIn, Shared, shared}};
ghost use Rattle.stn_session.specs.Serving.{Serves, talk, session_answer};
ghost use Rattle.stn_store.specs.Steps.{Entries};

use crate::joining::{InLog, save_join, take_log};
use itoa::Buffer;
use std::alloc::Allocator;
use std::io::{Read, Write};
use stn_device::{Counted, Finish, Partner};
use stn_effects::{print, print_now};
use stn_line::SiteLog;
use stn_refusal::Failure;
use stn_session::{
    End, KeepingFault, ServeFault, Served, receive_replies, send_requests, serve_keeping,
};
use stn_site::SiteCopy;
use stn_store::Store;
use stn_time::Memory;

/// Serves another site: takes in what the log says, serves a session, takes in what the log says by then, saves the log and prints how
/// the session ended. Where the other site was refused, it is parted from. In the session, a state that the other site's records made
/// another one is saved before that site is told of it.
pub fn serve_partner<
    S: Store<A>,
    R: Read,
    W: Finish,
    O: Write,
    A: Allocator + Copy,
    C: SiteCopy<A>,
>(
    alloc: A,
    store: &mut S,
    partner: &mut Partner<R, W>,
    log: &SiteLog<'_>,
    copy: &mut C,
    out: &mut Counted<O>,
) -> Result<Result<Served, ServeFault>, Failure>
    requires reader_counts { failure_count partner.old.reader < 2 ^ 64 - 1 }
    requires writer_counts { failure_count partner.old.writer < 2 ^ 64 - 1 }
    ensures served { ServesSite S.fails log.now (C.held copy.old).source
        (meeting (partner_state R.remaining W.contents W.ended partner.old) (shared (C.held copy.old).state (S.entries store.old)) (device_of O.contents out.old))
        (meeting (partner_state R.remaining W.contents W.ended partner.new) (shared (C.held copy.new).state (S.entries store.new)) (device_of O.contents out.new)) result }
    ensures source { (C.held copy.new).source ≡ (C.held copy.old).source }
    ensures site { (C.held copy.new).site ≡ (C.held copy.old).site }
{
    take_log(store, log, None, copy)?;
    let session = serve_session(alloc, store, partner, log, copy)?;
    save_join(store, log, copy)?;
    end_session(alloc, session, partner, out)
}

// Serves a session, and saves in the log each state before the other site is told of it. A fault that ends a session is told in its
// line; a state that could not be saved ends the serving.
fn serve_session<S: Store<A>, R: Read, W: Finish, A: Allocator + Copy, C: SiteCopy<A>>(
    alloc: A,
    store: &mut S,
    partner: &mut Partner<R, W>,
    log: &SiteLog<'_>,
    copy: &mut C,
) -> Result<Result<Served, ServeFault>, Failure>
    requires reader_counts { failure_count partner.old.reader < 2 ^ 64 - 1 }
    requires writer_counts { failure_count partner.old.writer < 2 ^ 64 - 1 }
    ensures session { Serves (KeepsIn S.fails log.now (C.held copy.old).source) (C.held copy.old).source
        (talk (device_of R.remaining partner.old.reader) (device_of W.contents partner.old.writer) (C.held copy.old).state (S.entries store.old))
        (talk (device_of R.remaining partner.new.reader) (device_of W.contents partner.new.writer) (C.held copy.new).state (S.entries store.new)) result }
    ensures source { (C.held copy.new).source ≡ (C.held copy.old).source }
    ensures site { (C.held copy.new).site ≡ (C.held copy.old).site }
{
    let keeper = InLog { log };
    let session = serve_keeping(
        alloc,
        &keeper,
        store,
        &mut partner.reader,
        &mut partner.writer,
        copy,
    );
    answer_of(session)
}

// What came of a session.
fn answer_of(session: Result<Served, KeepingFault>) -> Result<Result<Served, ServeFault>, Failure>
    ensures { result ≡ session_answer session }
{
    match session {
        Ok(served) => Ok(Ok(served)),
        Err(KeepingFault::Serve(fault)) => Ok(Err(fault)),
        Err(KeepingFault::Keep(failure)) => Err(failure),
    }
}

// Prints how a session ended, and parts from another site that was told why.
fn end_session<R: Read, W: Finish, O: Write, A: Allocator>(
    alloc: A,
    session: Result<Served, ServeFault>,
    partner: &mut Partner<R, W>,
    out: &mut Counted<O>,
) -> Result<Result<Served, ServeFault>, Failure>
    ensures { (state : Shared) → Then (OnPrinted (Writes (session_text session))) (λ _. LetsGo session)
        (meeting (partner_state R.remaining W.contents W.ended partner.old) state (device_of O.contents out.old))
        (meeting (partner_state R.remaining W.contents W.ended partner.new) state (device_of O.contents out.new)) result }
{
    print_session(alloc, session, out)?;
    part_after(session, partner);
    Ok(session)
}

// Parts from another site that was told why its session ended.
fn part_after<R: Read, W: Finish>(session: Result<Served, ServeFault>, partner: &mut Partner<R, W>)
    ensures { PartsAfter session (partner_state R.remaining W.contents W.ended partner.old) (partner_state R.remaining W.contents W.ended partner.new) }
{
    if let Ok(
        Served {
            frames: _,
            end: End::Refused(_),
        },
    ) = session
    {
        partner.part();
    }
}

// Prints how a session ended.
fn print_session<W: Write, A: Allocator>(
    alloc: A,
    session: Result<Served, ServeFault>,
    out: &mut Counted<W>,
) -> Result<(), Failure>
    ensures { Writes (session_text session) (device_of W.contents out.old) (device_of W.contents out.new) result }
{
    let mut text = Vec::new(alloc);
    append_session(&mut text, session)?;
    print_now(&text, out)
}

// Appends the line of a session.
fn append_session<A: Allocator>(
    out: &mut Vec<u8, A>,
    session: Result<Served, ServeFault>,
) -> Result<(), Memory>
    ensures { OnOk result (out.new.items ≡ out.old.items ++ session_text session) }
{
    out.extend_from_slice(b"session ")?;
    match session {
        Ok(served) => {
            let mut buffer = Buffer::new();
            let digits = buffer.format(served.frames).as_bytes();
            out.extend_from_slice(digits)?;
            out.extend_from_slice(b" ")?;
            append_end(out, served.end)?;
        }
        Err(fault) => out.extend_from_slice(word_of(fault))?,
    }
    out.extend_from_slice(b"\n")
}

// Appends how a session ended.
fn append_end<A: Allocator>(out: &mut Vec<u8, A>, end: End) -> Result<(), Memory>
    ensures { OnOk result (out.new.items ≡ out.old.items ++ ended_text end) }
{
    match end {
        End::Closed => out.extend_from_slice(b"closed"),
        End::Cut => out.extend_from_slice(b"cut"),
        End::Refused(code) => {
            let mut buffer = Buffer::new();
            let digits = buffer.format(code).as_bytes();
            out.extend_from_slice(b"refused ")?;
            out.extend_from_slice(digits)
        }
    }
}

// The word of a fault.
fn word_of(fault: ServeFault) -> &'static [u8]
    ensures { result.now ≡ fault_word fault }
{
    match fault {
        ServeFault::Read => b"read",
        ServeFault::Write => b"write",
        ServeFault::Bound => b"bound",
        ServeFault::Memory => b"memory",
    }
}

/// Sends another site what this site holds and takes in what it replies; then what the log says by then is taken in, the log is saved,
/// and the text that came is printed.
pub fn send_to_partner<
    S: Store<A>,
    R: Read,
    W: Finish,
    O: Write,
    A: Allocator + Copy,
    C: SiteCopy<A>,
>(
    alloc: A,
    store: &mut S,
    partner: &mut Partner<R, W>,
    log: &SiteLog<'_>,
    copy: &mut C,
    out: &mut Counted<O>,
) -> Result<(), Failure>
    requires reader_counts { failure_count partner.old.reader < 2 ^ 64 - 1 }
    requires writer_counts { failure_count partner.old.writer < 2 ^ 64 - 1 }
    ensures sent { SendsTo S.fails log.now (C.held copy.old).source
        (meeting (partner_state R.remaining W.contents W.ended partner.old) (shared (C.held copy.old).state (S.entries store.old)) (device_of O.contents out.old))
        (meeting (partner_state R.remaining W.contents W.ended partner.new) (shared (C.held copy.new).state (S.entries store.new)) (device_of O.contents out.new)) result }
    ensures source { (C.held copy.new).source ≡ (C.held copy.old).source }
    ensures site { (C.held copy.new).site ≡ (C.held copy.old).site }
{
    ask(alloc, partner, copy)?;
    let text = hear(alloc, partner, copy)?;
    save_join(store, log, copy)?;
    print(&text, out)
}

// Tells another site the requests.
fn ask<R: Read, W: Finish, A: Allocator + Copy, C: SiteCopy<A>>(
    alloc: A,
    partner: &mut Partner<R, W>,
    copy: &C,
) -> Result<(), Failure>
    ensures { (entries : Entries) (out : Device) → Asks (C.held copy.now).source
        (meeting (partner_state R.remaining W.contents W.ended partner.old) (shared (C.held copy.now).state entries) out)
        (meeting (partner_state R.remaining W.contents W.ended partner.new) (shared (C.held copy.now).state entries) out) result }
{
    send_requests(alloc, copy, &mut partner.writer)
}

// Receives the replies: the text that came.
fn hear<R: Read, W: Finish, A: Allocator + Copy, C: SiteCopy<A>>(
    alloc: A,
    partner: &mut Partner<R, W>,
    copy: &mut C,
) -> Result<Vec<u8, A>, Failure>
    ensures received { (entries : Entries) → Hears (C.held copy.old).source
        (talk (device_of R.remaining partner.old.reader) (device_of W.contents partner.old.writer) (C.held copy.old).state entries)
        (talk (device_of R.remaining partner.new.reader) (device_of W.contents partner.new.writer) (C.held copy.new).state entries) (seen (λ text. text.items) result) }
    ensures source { (C.held copy.new).source ≡ (C.held copy.old).source }
    ensures site { (C.held copy.new).site ≡ (C.held copy.old).site }
{
    Ok(receive_replies(alloc, &mut partner.reader, copy)?)
}
