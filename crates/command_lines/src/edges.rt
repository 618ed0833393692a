//! What a command prints on its output and on the standard error, told apart; and the modes, names and locks of files.

use std::alloc::Global;
use std::fs::{self, Permissions, TryLockError};
use std::io::{self, Error};
use std::os::unix::fs::{MetadataExt, PermissionsExt, symlink};
use stn_device::Counted;
use stn_records::Site;
use stn_refusal::Failure;
use stn_shell::execute_over;
use stn_store::Store;

// Prints the lines of a text, each after a word.
fn print_lines(rt: &HostRuntime, word: &str, text: &[u8]) -> io::Result<()> {
    match str::from_utf8(text) {
        Ok(text) => {
            for line in text.lines() {
                println!(rt; "{word}|{line}")?;
            }
            Ok(())
        }
        Err(_) => println!(rt; "{word} no text"),
    }
}

/// Does the command of these words over a store, and prints what stands on its output, what on the standard error, and its status.
pub fn tell<S: Store<Global>>(
    rt: &HostRuntime,
    store: &mut S,
    words: &[&str],
    input: &[u8],
) -> io::Result<()> {
    let mut reader = Counted::new(input);
    let mut out = Counted::new(Vec::new(rt.alloc()));
    let mut err = Counted::new(Vec::new(rt.alloc()));
    let status = execute_over(rt, store, words, &mut reader, &mut out, &mut err);
    print_lines(rt, "out", &out.into_inner())?;
    print_lines(rt, "err", &err.into_inner())?;
    println!(rt; "status {status}")
}

/// Prints who may read, write and run a file.
pub fn print_mode(rt: &HostRuntime, name: &str) -> io::Result<()> {
    let mode = fs::symlink_metadata(rt, name)?.mode() & 0o777;
    println!(rt; "{mode:o}")
}

/// Sets it.
pub fn set_mode(rt: &HostRuntime, name: &str, digits: &str) -> io::Result<()> {
    match u32::from_str_radix(digits, 8) {
        Ok(mode) => fs::set_permissions(rt, name, Permissions::from_mode(mode)),
        Err(_) => Err(Error::other("no mode")),
    }
}

fn failed(_failure: Failure) -> Error {
    Error::other("the store failed")
}

// Prints whether a second open of the lock of a log gets it.
fn print_lock(rt: &HostRuntime, log: &str) -> io::Result<()> {
    let path = format!(in rt.alloc(); "{log}.lock")?;
    let lock = fs::open(rt, path.as_str())?;
    match lock.try_lock() {
        Ok(()) => println!(rt; "free"),
        Err(TryLockError::WouldBlock) => println!(rt; "held"),
        Err(TryLockError::Error(error)) => Err(error),
    }
}

/// Holds a log, and prints whether its lock is free before, meanwhile and afterwards.
pub fn hold<S: Store<Global>>(rt: &HostRuntime, store: &S, log: &str) -> io::Result<()> {
    print_lock(rt, log)?;
    let held = store.hold(log).map_err(failed)?;
    print_lock(rt, log)?;
    drop(held);
    print_lock(rt, log)
}

/// Holds the log that a link leads to, lets the link lead to another, and saves what a third log says as the one that is held.
pub fn save_by_link<S: Store<Global>>(
    rt: &HostRuntime,
    store: &mut S,
    link: &str,
    other: &str,
    said: &str,
) -> io::Result<()> {
    let plan = store.load(said, Site::new(1).unwrap()).map_err(failed)?;
    let held = store.hold(link).map_err(failed)?;
    fs::remove_file(rt, link)?;
    symlink(rt, other, link)?;
    store.save(&held, &plan).map_err(failed)?;
    Ok(())
}
