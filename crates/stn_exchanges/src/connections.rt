//! Sessions with the sites that come, and exchanges.

ghost use Rattle.std.specs.Prelude.{◌≡◌, ◌⊎◌, ◌-◌, ◌^◌, ◌<◌, Ok, Err};
ghost use Rattle.stn_device.specs.{Counted.failure_count, Partner.partner_state};
ghost use Rattle.stn_effects.specs.Printing.{Device, device_of, Tells};
ghost use Rattle.stn_exchanges.specs.{Connections.{meeting, ServesSite, WithNext, ServesSites, SendsTo}, Joining.shared};
ghost use Rattle.stn_refusal.specs.declared.failure.Failure.{Failure as FailureView};

use crate::partners::{send_to_partner, serve_partner};
use std::alloc::{Allocator, Global};
use std::io::{Read, Write};
use stn_device::{Callers, Counted, Finish, Partner};
use stn_effects::tell_failure;
use stn_line::SiteLog;
use stn_refusal::Failure;
use stn_session::{ServeFault, Served};
use stn_site::SiteCopy;
use stn_store::Store;

/// Serves so many sites, as they come, one after another. Each session begins with what the log says by now, and however it
/// ends, the next site is served; a state that its records made another one is saved before the reply to them is written. Then
/// what the log says by then is taken in, the log is saved, and a line is printed. Status 0. When no site can be let in, the
/// log can't be taken in or saved, or the line can't be printed, that is told and the status is 1.
pub fn serve_on<
    T: AllocGlobal,
    S: Store<Global>,
    L: Callers,
    W: Write,
    E: Write,
    C: SiteCopy<Global>,
>(
    rt: &T,
    store: &mut S,
    callers: &mut L,
    count: u16,
    log: &SiteLog<'_>,
    copy: &mut C,
    out: &mut Counted<W>,
    err: &mut Counted<E>,
) -> u8
    ensures status { (result ≡ 0) ⊎ (result ≡ 1) }
    ensures served { result ≡ 0 → ServesSites S.fails log.now (C.held copy.old).source count
        (meeting (L.callers callers.old) (shared (C.held copy.old).state (S.entries store.old)) (device_of W.contents out.old))
        (meeting (L.callers callers.new) (shared (C.held copy.new).state (S.entries store.new)) (device_of W.contents out.new)) (Ok tt)
        × (device_of E.contents err.new ≡ device_of E.contents err.old) }

    // It stopped, and why is told.
    ensures stopped { result ≡ 1 → (failure : FailureView) × (between : Device) × ServesSites S.fails log.now (C.held copy.old).source count
        (meeting (L.callers callers.old) (shared (C.held copy.old).state (S.entries store.old)) (device_of W.contents out.old))
        (meeting (L.callers callers.new) (shared (C.held copy.new).state (S.entries store.new)) between) (Err failure)
        × Tells failure between (device_of W.contents out.new) (device_of E.contents err.old) (device_of E.contents err.new) }
    ensures source { (C.held copy.new).source ≡ (C.held copy.old).source }
    ensures site { (C.held copy.new).site ≡ (C.held copy.old).site }
{
    match serve_each(rt.alloc(), store, callers, count, log, copy, out) {
        Ok(()) => 0,
        Err(failure) => {
            tell_failure(rt.alloc(), failure, out, err);
            1
        }
    }
}

/// Serves so many sites, one after another.
pub fn serve_each<S: Store<A>, L: Callers, W: Write, A: Allocator + Copy, C: SiteCopy<A>>(
    alloc: A,
    store: &mut S,
    callers: &mut L,
    count: u16,
    log: &SiteLog<'_>,
    copy: &mut C,
    out: &mut Counted<W>,
) -> Result<(), Failure>
    ensures served { ServesSites S.fails log.now (C.held copy.old).source count
        (meeting (L.callers callers.old) (shared (C.held copy.old).state (S.entries store.old)) (device_of W.contents out.old))
        (meeting (L.callers callers.new) (shared (C.held copy.new).state (S.entries store.new)) (device_of W.contents out.new)) result }
    ensures source { (C.held copy.new).source ≡ (C.held copy.old).source }
    ensures site { (C.held copy.new).site ≡ (C.held copy.old).site }
{
    'sites: for _ in 0..count {
        let _session = serve_next(alloc, store, callers, log, copy, out)?;
    }
    Ok(())
}

// Serves the next site.
fn serve_next<S: Store<A>, L: Callers, W: Write, A: Allocator + Copy, C: SiteCopy<A>>(
    alloc: A,
    store: &mut S,
    callers: &mut L,
    log: &SiteLog<'_>,
    copy: &mut C,
    out: &mut Counted<W>,
) -> Result<Result<Served, ServeFault>, Failure>
    ensures served { WithNext (ServesSite S.fails log.now (C.held copy.old).source)
        (meeting (L.callers callers.old) (shared (C.held copy.old).state (S.entries store.old)) (device_of W.contents out.old))
        (meeting (L.callers callers.new) (shared (C.held copy.new).state (S.entries store.new)) (device_of W.contents out.new)) result }
    ensures source { (C.held copy.new).source ≡ (C.held copy.old).source }
    ensures site { (C.held copy.new).site ≡ (C.held copy.old).site }
{
    let mut partner = callers.accept()?;
    let served = serve_partner(alloc, store, &mut partner, log, copy, out);
    callers.leave(partner);
    served
}

/// Sends another site what this site holds and takes in what it replies; then what the log says by then is taken in, the log is
/// saved, and the text that came is printed. Status 0. What keeps it from doing so is told, and the status is 1.
pub fn send_on<
    T: AllocGlobal,
    S: Store<Global>,
    R: Read,
    V: Finish,
    W: Write,
    E: Write,
    C: SiteCopy<Global>,
>(
    rt: &T,
    store: &mut S,
    partner: &mut Partner<R, V>,
    log: &SiteLog<'_>,
    copy: &mut C,
    out: &mut Counted<W>,
    err: &mut Counted<E>,
) -> u8
    requires reader_counts { failure_count partner.old.reader < 2 ^ 64 - 1 }
    requires writer_counts { failure_count partner.old.writer < 2 ^ 64 - 1 }
    ensures status { (result ≡ 0) ⊎ (result ≡ 1) }
    ensures sent { result ≡ 0 → SendsTo S.fails log.now (C.held copy.old).source
        (meeting (partner_state R.remaining V.contents V.ended partner.old) (shared (C.held copy.old).state (S.entries store.old)) (device_of W.contents out.old))
        (meeting (partner_state R.remaining V.contents V.ended partner.new) (shared (C.held copy.new).state (S.entries store.new)) (device_of W.contents out.new)) (Ok tt)
        × (device_of E.contents err.new ≡ device_of E.contents err.old) }

    // It stopped, and why is told.
    ensures stopped { result ≡ 1 → (failure : FailureView) × (between : Device) × SendsTo S.fails log.now (C.held copy.old).source
        (meeting (partner_state R.remaining V.contents V.ended partner.old) (shared (C.held copy.old).state (S.entries store.old)) (device_of W.contents out.old))
        (meeting (partner_state R.remaining V.contents V.ended partner.new) (shared (C.held copy.new).state (S.entries store.new)) between) (Err failure)
        × Tells failure between (device_of W.contents out.new) (device_of E.contents err.old) (device_of E.contents err.new) }
    ensures source { (C.held copy.new).source ≡ (C.held copy.old).source }
    ensures site { (C.held copy.new).site ≡ (C.held copy.old).site }
{
    match send_to_partner(rt.alloc(), store, partner, log, copy, out) {
        Ok(()) => 0,
        Err(failure) => {
            tell_failure(rt.alloc(), failure, out, err);
            1
        }
    }
}
