//! The program.

ghost use Rattle.std.specs.{Prelude.{◌<◌, ◌≤◌, ◌-◌, ◌^◌, map, None, MatchResult}, Process.exit_status};
ghost use Rattle.stn_device.specs.Counted.{failure_count};
ghost use Rattle.stn_shell.specs.{Executed.{IsExecuted, IsWordless}, Outside.outside};
ghost use Rattle.stn_effects.specs.Printing.{device_of};
ghost use Rattle.stn_store.specs.Files.{IsFileFault};

use crate::execution::execute;
use std::fs::File;
use std::io::{ErrorKind, Read, Write};
use std::net::{Net, TcpListener, TcpStream};
use std::process::ExitCode;
use std::rt::Files;
use std::time::Clock;
use std::{env, io};
use stn_device::Counted;
use stn_effects::{tell, tell_fault};
use stn_refusal::Fault;

/// What is said of a word that is no text.
pub const NO_TEXT: &[u8] = b"error: a word of the command line is not UTF-8\n";

/// Why a process has no words.
#[derive(Clone, Copy)]
pub enum Wordless {
    /// One of them is no text.
    NoText,
    /// Memory ran out.
    Memory,
}

/// Does the command of the program's words over its standard input, output and error.
pub fn program(rt: &HostRuntime) -> ExitCode
    ensures status { exit_status result ≤ 2 }
{
    match read_texts(rt) {
        Ok(texts) => {
            let code = do_texts(rt, &texts);
            drop(texts);
            code
        }
        Err(fault) => do_words(rt, Err(fault)),
    }
}

// The words of the program.
fn read_texts(rt: &HostRuntime) -> Result<Vec<String>, Wordless> {
    match read_all(rt) {
        Ok(texts) => Ok(texts),
        Err(error) if error.kind() == ErrorKind::InvalidData => Err(Wordless::NoText),
        Err(_) => Err(Wordless::Memory),
    }
}

fn read_all(rt: &HostRuntime) -> io::Result<Vec<String>> {
    Ok(env::args(rt)?.collect(rt.alloc())?)
}

// Does the command of these texts.
fn do_texts(rt: &HostRuntime, texts: &[String]) -> ExitCode
    ensures status { exit_status result ≤ 2 }
{
    let words: Result<Vec<&str>, _> = texts.iter().map(|text| text.as_str()).collect(rt.alloc());
    match words {
        Ok(words) => do_words(rt, Ok(&words)),
        Err(_) => do_words(rt, Err(Wordless::Memory)),
    }
}

// Does the command of these words over the program's streams.
fn do_words(rt: &HostRuntime, words: Result<&[&str], Wordless>) -> ExitCode
    ensures status { exit_status result ≤ 2 }
{
    let mut reader = Counted::new(rt.reader());
    let mut out = Counted::new(io::writer(rt));
    let mut err = Counted::new(rt.stderr());
    run_process(rt, words, &mut reader, &mut out, &mut err)
}

/// Does the command of a process's words over files and its streams, or says why it has none: how the process ends.
pub fn run_process<
    T: Files<File = File> + AllocGlobal + Clock + Net<Listener = TcpListener, Stream = TcpStream>,
    R: Read,
    W: Write,
    E: Write,
>(
    rt: &T,
    words: Result<&[&str], Wordless>,
    reader: &mut Counted<R>,
    out: &mut Counted<W>,
    err: &mut Counted<E>,
) -> ExitCode
    requires reader_counts { failure_count reader.old < 2 ^ 64 - 1 }
    requires out_counts { failure_count out.old < 2 ^ 64 - 1 }
    ensures status { exit_status result ≤ 2 }
    ensures ended { MatchResult words.entry
        (λ words. IsExecuted IsFileFault (map (λ word. word.now) words.now)
        (outside None (device_of R.remaining reader.old) (device_of W.contents out.old) (device_of E.contents err.old))
        (outside None (device_of R.remaining reader.new) (device_of W.contents out.new) (device_of E.contents err.new)) (exit_status result))
        (λ fault. IsWordless fault
        (outside None (device_of R.remaining reader.old) (device_of W.contents out.old) (device_of E.contents err.old))
        (outside None (device_of R.remaining reader.new) (device_of W.contents out.new) (device_of E.contents err.new)) (exit_status result)) }
{
    match words {
        Ok(words) => ExitCode::from(execute(rt, words, reader, out, err)),
        Err(Wordless::NoText) => {
            tell(NO_TEXT, err);
            ExitCode::from(2)
        }
        Err(Wordless::Memory) => {
            tell_fault(Fault::Memory, err);
            ExitCode::from(1)
        }
    }
}
