//! A command line, from its words to its status.

ghost use Rattle.std.specs.{Prelude.{◌≡◌, ◌≢◌, ◌⊎◌, ℕ, List, [], ◌<◌, ◌≤◌, ◌-◌, ◌*◌, ◌^◌, map, None, Ok, IfOk, IfErr}, Duration.as_nanos};
ghost use Rattle.clap.specs.Words.{kind_of};
ghost use Rattle.stn_device.specs.Counted.{failure_count};
ghost use Rattle.stn_effects.specs.{Effects.seen, Printing.{Device, device_of}};
ghost use Rattle.stn_shell.specs.{Carried.{RunsInput, Listens, ServesLog, SendsLog, Answers, Does}, Executed.{IsExecuted, SaysText, TellsLackOfMemory}, Outside.{outside, Ends}};
ghost use Rattle.stn_refusal.specs.declared.failure.{Failure.TheVariants.Failed as FailedBy, Fault.TheVariants.Net as FaultOfNet};
ghost use Rattle.stn_store.specs.{Files.IsFileFault, Steps.{Entries, LoadsLog}};

use crate::coprocess::run_shell;
use crate::reasons::{tell_hints, tell_made, unusable};
use std::alloc::Global;
use std::fs::File;
use std::io::{Read, Write};
use std::net::{Net, TcpListener, TcpStream};
use std::rt::Files;
use std::time::{Clock, Duration};
use stn_device::{Counted, write_whole};
use stn_effects::{print, print_now, tell, tell_failure, tell_fault};
use stn_exchanges::{Peer, Service, connect, send_to_partner, serve_each};
use stn_exec::run;
use stn_line::{Line, LineFault, SiteLog, line, said};
use stn_logs::{Kept, answer_with};
use stn_reasons::{reason_of, waiting_of};
use stn_refusal::{Failure, Fault};
use stn_site::SitePlan;
use stn_store::{FileStore, Store};

/// Does the command of the words over files.
pub fn execute<
    T: Files<File = File> + AllocGlobal + Clock + Net<Listener = TcpListener, Stream = TcpStream>,
    R: Read,
    W: Write,
    E: Write,
>(rt: &T, words: &[&str], reader: &mut Counted<R>, out: &mut Counted<W>, err: &mut Counted<E>) -> u8
    requires reader_counts { failure_count reader.old < 2 ^ 64 - 1 }
    requires out_counts { failure_count out.old < 2 ^ 64 - 1 }
    ensures status { result ≤ 2 }

    // What files hold is not known.
    ensures executed { IsExecuted IsFileFault (map (λ word. word.now) words.entry.now)
        (outside None (device_of R.remaining reader.old) (device_of W.contents out.old) (device_of E.contents err.old))
        (outside None (device_of R.remaining reader.new) (device_of W.contents out.new) (device_of E.contents err.new)) result }
{
    execute_over(rt, &mut FileStore::new(rt), words, reader, out, err)
}

/// Does the command of the words over a store, and says its status. The first word is the program's name. The status is 0 where nothing
/// was refused and nothing failed, 1 where something was refused or failed, or memory ran out, 2 where the words are no command's. An answer or a refusal is printed to
/// `out`, a device's fault, the reason of a refusal or a fault, hints, and a mistake in the words to `err`.
pub fn execute_over<
    S: Store<Global>,
    T: AllocGlobal + Clock + Net<Listener = TcpListener, Stream = TcpStream>,
    R: Read,
    W: Write,
    E: Write,
>(
    rt: &T,
    store: &mut S,
    words: &[&str],
    reader: &mut Counted<R>,
    out: &mut Counted<W>,
    err: &mut Counted<E>,
) -> u8
    requires reader_counts { failure_count reader.old < 2 ^ 64 - 1 }
    requires out_counts { failure_count out.old < 2 ^ 64 - 1 }
    ensures status { result ≤ 2 }

    // A command line was done or stopped, or the words are refused or ask for help, or memory ran out.
    ensures executed { IsExecuted S.fails (map (λ word. word.now) words.entry.now)
        (outside (S.entries store.old) (device_of R.remaining reader.old) (device_of W.contents out.old) (device_of E.contents err.old))
        (outside (S.entries store.new) (device_of R.remaining reader.new) (device_of W.contents out.new) (device_of E.contents err.new)) result }
{
    let alloc = rt.alloc();
    match line(alloc, words) {
        Ok(line) => {
            let status = end(rt, store, &line, reader, out, err);
            drop(line);
            status
        }
        Err(LineFault::Words(error)) => tell_words(alloc, &error, out, err),
        Err(LineFault::Memory) => {
            tell_fault(Fault::Memory, err);
            1
        }
    }
}

// Does a command line to its end, and says the status. Why it stopped is told.
fn end<
    S: Store<Global>,
    T: AllocGlobal + Clock + Net<Listener = TcpListener, Stream = TcpStream>,
    R: Read,
    W: Write,
    E: Write,
>(
    rt: &T,
    store: &mut S,
    line: &Line<'_>,
    reader: &mut Counted<R>,
    out: &mut Counted<W>,
    err: &mut Counted<E>,
) -> u8
    requires reader_counts { failure_count reader.old < 2 ^ 64 - 1 }
    requires out_counts { failure_count out.old < 2 ^ 64 - 1 }
    ensures status { result ≤ 1 }
    ensures ended { Ends (Does S.fails) line.now
        (outside (S.entries store.old) (device_of R.remaining reader.old) (device_of W.contents out.old) (device_of E.contents err.old))
        (outside (S.entries store.new) (device_of R.remaining reader.new) (device_of W.contents out.new) (device_of E.contents err.new)) result }
{
    match do_line(rt, store, line, reader, out, err) {
        Ok(status) => status,
        Err(failure) => {
            tell_failure(rt.alloc(), failure, out, err);
            tell_made(reason_of(rt.alloc(), store, line, failure), err);
            1
        }
    }
}

// Prints what clap says of words that are no command's. Status 0 for help and the version, 2 for a mistake.
fn tell_words<W: Write, E: Write>(
    alloc: Global,
    error: &clap::Error,
    out: &mut Counted<W>,
    err: &mut Counted<E>,
) -> u8
    ensures status { result ≤ 2 }
    ensures said { ((text : List ℕ) × (text ≢ []) × SaysText text (kind_of error.now) (device_of W.contents out.old) (device_of W.contents out.new)
        (device_of E.contents err.old) (device_of E.contents err.new) result)
        ⊎ TellsLackOfMemory (device_of W.contents out.old) (device_of W.contents out.new) (device_of E.contents err.old) (device_of E.contents err.new) result }
{
    match said(alloc, error) {
        Ok(text) => tell_text(error, text.as_bytes(), out, err),
        Err(_) => {
            tell_fault(Fault::Memory, err);
            1
        }
    }
}

// Prints a text of clap: on the standard error where the words are a mistake, else on the output.
fn tell_text<W: Write, E: Write>(
    error: &clap::Error,
    text: &[u8],
    out: &mut Counted<W>,
    err: &mut Counted<E>,
) -> u8
    ensures status { result ≤ 2 }
    ensures said { SaysText text.now (kind_of error.now) (device_of W.contents out.old) (device_of W.contents out.new)
        (device_of E.contents err.old) (device_of E.contents err.new) result }
{
    if error.use_stderr() {
        tell(text, err);
        return 2;
    }
    match write_whole(out, text) {
        Ok(()) => 0,
        Err(_) => {
            tell_fault(Fault::Write, err);
            1
        }
    }
}

// Does a command line, and prints its answer: the status, or why there is none.
fn do_line<
    S: Store<Global>,
    T: AllocGlobal + Clock + Net<Listener = TcpListener, Stream = TcpStream>,
    R: Read,
    W: Write,
    E: Write,
>(
    rt: &T,
    store: &mut S,
    line: &Line<'_>,
    reader: &mut Counted<R>,
    out: &mut Counted<W>,
    err: &mut Counted<E>,
) -> Result<u8, Failure>
    requires reader_counts { failure_count reader.old < 2 ^ 64 - 1 }
    requires out_counts { failure_count out.old < 2 ^ 64 - 1 }
    ensures status { IfOk result (λ status. status ≤ 1) }
    ensures done { Does S.fails line.now
        (outside (S.entries store.old) (device_of R.remaining reader.old) (device_of W.contents out.old) (device_of E.contents err.old))
        (outside (S.entries store.new) (device_of R.remaining reader.new) (device_of W.contents out.new) (device_of E.contents err.new)) result }
{
    match line {
        Line::Run => run_input(rt.alloc(), reader, out),
        Line::Shell { log } => run_shell(rt.alloc(), store, log, reader, out, err),
        Line::Serve {
            log,
            address,
            count,
            seconds,
        } => status_of(serve_at(rt, store, log, *address, *count, limit(*seconds), out)),
        Line::Send {
            log,
            address,
            seconds,
        } => status_of(send_to(rt, store, log, *address, limit(*seconds), out)),
        Line::Make(..) | Line::Change(..) | Line::Ask(..) | Line::Explain { .. } => {
            status_of(tell_answer(rt.alloc(), store, line, out, err))
        }
    }
}

// The status of what was done: 0.
fn status_of(done: Result<(), Failure>) -> Result<u8, Failure>
    ensures { result ≡ seen (λ _. 0) done }
{
    match done {
        Ok(()) => Ok(0),
        Err(failure) => Err(failure),
    }
}

// Runs the script of the input. Status 0 where no line was refused, else 1.
fn run_input<R: Read, W: Write>(
    alloc: Global,
    reader: &mut Counted<R>,
    out: &mut Counted<W>,
) -> Result<u8, Failure>
    ensures status { IfOk result (λ status. status ≤ 1) }
    ensures ran { (entries : Entries) (err : Device) → RunsInput
        (outside entries (device_of R.remaining reader.old) (device_of W.contents out.old) err)
        (outside entries (device_of R.remaining reader.new) (device_of W.contents out.new) err) result }
{
    let ran = run(alloc, reader, out)?;
    Ok(if ran.refused == 0 { 0 } else { 1 })
}

// Does a command on a log, and prints its answer. Tells before it what it waits for, and after the answer its hints.
fn tell_answer<S: Store<Global>, W: Write, E: Write>(
    alloc: Global,
    store: &mut S,
    line: &Line<'_>,
    out: &mut Counted<W>,
    err: &mut Counted<E>,
) -> Result<(), Failure>
    ensures { (unread : Device) → Answers S.fails line.now
        (outside (S.entries store.old) unread (device_of W.contents out.old) (device_of E.contents err.old))
        (outside (S.entries store.new) unread (device_of W.contents out.new) (device_of E.contents err.new)) result }
{
    let mut kept = Kept::nothing();
    tell_made(waiting_of(alloc, store, line), err);
    let text = answer_with(alloc, store, &mut kept, line)?;
    print(&text, out)?;
    tell_hints(alloc, store, &mut kept, line, err);
    Ok(())
}

// How long a session or an exchange of so many seconds may take.
fn limit(seconds: u16) -> Duration
    ensures { as_nanos result ≡ seconds * 1_000_000_000 }
{
    Duration::from_secs(u64::from(seconds))
}

// What a log says.
fn load_plan<S: Store<Global>>(store: &S, log: &SiteLog<'_>) -> Result<SitePlan<Global>, Failure>
    ensures { LoadsLog S.fails log.now.name.now log.now.site (S.entries store.now) (S.entries store.now) result }
{
    store.load(log.name, log.site)
}

// Serves a log at an address, if the log can be saved.
fn serve_at<
    S: Store<Global>,
    T: AllocGlobal + Clock + Net<Listener = TcpListener, Stream = TcpStream>,
    W: Write,
>(
    rt: &T,
    store: &mut S,
    log: &SiteLog<'_>,
    address: &str,
    count: u16,
    limit: Duration,
    out: &mut Counted<W>,
) -> Result<(), Failure>
    ensures { (unread err : Device) → ServesLog S.fails log.now count
        (outside (S.entries store.old) unread (device_of W.contents out.old) err)
        (outside (S.entries store.new) unread (device_of W.contents out.new) err) result }
{
    let mut plan = load_plan(store, log)?;
    store.can_save(log.name)?;
    let listener = listen(rt, store, address, out)?;
    let mut service = Service {
        clock: rt,
        listener: &listener,
        limit,
    };
    serve_each(rt.alloc(), store, &mut service, count, log, &mut plan, out)
}

// Binds an address, and says so.
fn listen<
    S: Store<Global>,
    T: AllocGlobal + Net<Listener = TcpListener, Stream = TcpStream>,
    W: Write,
>(rt: &T, store: &S, address: &str, out: &mut Counted<W>) -> Result<TcpListener, Failure>
    ensures { (entries : Entries) (unread err : Device) → Listens
        (outside entries unread (device_of W.contents out.old) err)
        (outside entries unread (device_of W.contents out.new) err) (seen (λ _. tt) result) }
{
    match TcpListener::bind(rt, address) {
        Ok(listener) => {
            print_now(b"listening\n", out)?;
            Ok(listener)
        }
        Err(error) => Err(unusable(rt.alloc(), store, address, error)),
    }
}

// Exchanges with the site that serves at an address.
fn send_to<S: Store<Global>, T: AllocGlobal + Clock + Net<Stream = TcpStream>, W: Write>(
    rt: &T,
    store: &mut S,
    log: &SiteLog<'_>,
    address: &str,
    limit: Duration,
    out: &mut Counted<W>,
) -> Result<(), Failure>
    ensures { (unread err : Device) → SendsLog S.fails log.now
        (outside (S.entries store.old) unread (device_of W.contents out.old) err)
        (outside (S.entries store.new) unread (device_of W.contents out.new) err) result }
{
    let mut plan = load_plan(store, log)?;
    let mut peer = reach(rt, store, address, limit)?;
    send_to_partner(rt.alloc(), store, &mut peer, log, &mut plan, out)
}

// The site that serves at an address.
fn reach<'a, S: Store<Global>, T: AllocGlobal + Clock + Net<Stream = TcpStream>>(
    rt: &'a T,
    store: &S,
    address: &str,
    limit: Duration,
) -> Result<Peer<'a, T>, Failure>
    ensures reads { IfOk result (λ peer. failure_count peer.reader ≡ 0) }
    ensures writes { IfOk result (λ peer. failure_count peer.writer ≡ 0) }
    ensures failed { IfErr result (λ failure. failure ≡ FailedBy FaultOfNet) }
{
    match connect(rt, address, limit) {
        Ok(peer) => Ok(peer),
        Err(error) => Err(unusable(rt.alloc(), store, address, error)),
    }
}
