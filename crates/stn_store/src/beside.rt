//! Files that this program makes beside a log.

ghost use Rattle.std.specs.Prelude.{IfErr};
ghost use Rattle.stn_store.specs.{Store.IsLack, Files.IsFileFault};

use crate::place::NEW_MODE;
use crate::trouble::{Undone, blame, caused, named};
use std::alloc::Global;
use std::fs::{self, File, Metadata, OpenOptions};
use std::io::{self, ErrorKind, Write};
use std::os::unix::fs::{MetadataExt, OpenOptionsExt, fchown};
use std::rt::Files;
use stn_cause::Cause;
use stn_refusal::Fault;

// Who may read and write a file until it is given the mode of another one.
const OWN_MODE: u32 = 0o600;

/// Makes a file where nothing is, not even a link.
pub fn make_file<T: Files>(rt: &T, path: &str, mode: u32) -> io::Result<T::File> {
    let mut options = OpenOptions::new();
    options.read(true);
    options.write(true);
    options.create_new(true);
    options.mode(mode);
    options.open(rt, path)
}

/// Makes a file beside a log, under the first of its names that is free: its path, and the file.
pub fn make_beside<T: Files + AllocGlobal>(
    rt: &T,
    log: &str,
    mode: u32,
) -> Result<(String, T::File), Undone>
    ensures { IfErr result (λ undone. IsLack IsFileFault undone.failure) }
{
    for number in 0..u32::MAX {
        let path = format!(in rt.alloc(); "{log}.saving-{number}")?;
        match make_file(rt, path.as_str(), mode) {
            Ok(file) => return Ok((path, file)),
            Err(error) if error.kind() == ErrorKind::AlreadyExists => {}
            Err(error) => {
                let cause = Cause::from(error);
                return Err(blame(rt.alloc(), Fault::File, path.as_str(), cause));
            }
        }
    }
    Err(blame(rt.alloc(), Fault::File, log, Cause::There))
}

/// Writes a log beside the one that is there, with its mode and, where the system lets it, its owner, and
/// waits until the device has it: the path. Where that can't be, no file is left.
pub fn write_beside<T: Files<File = File> + AllocGlobal>(
    rt: &T,
    log: &str,
    old: Option<&Metadata>,
    text: &[u8],
) -> Result<String, Undone>
    ensures { IfErr result (λ undone. IsLack IsFileFault undone.failure) }
{
    let mode = if old.is_some() { OWN_MODE } else { NEW_MODE };
    let (path, file) = make_beside(rt, log, mode)?;
    match fill(rt.alloc(), path.as_str(), file, old, text) {
        Ok(()) => Ok(path),
        Err(undone) => {
            let _ = fs::remove_file(rt, path.as_str());
            Err(undone)
        }
    }
}

// Writes a log into the file of a path.
fn fill(
    alloc: Global,
    path: &str,
    file: File,
    old: Option<&Metadata>,
    text: &[u8],
) -> Result<(), Undone>
    ensures { IfErr result (λ undone. IsLack IsFileFault undone.failure) }
{
    if let Some(old) = old {
        named(alloc, path, caused(keep(&file, old)))?;
    }
    let mut writer = &file;
    match writer.write_all(text) {
        Ok(()) => force(alloc, path, &file),
        Err(error) => Err(blame(alloc, Fault::Write, path, Cause::from(error))),
    }
}

/// Waits until the device has what was written to the file of a path, or the names of a folder.
pub fn force(alloc: Global, path: &str, file: &File) -> Result<(), Undone>
    ensures { IfErr result (λ undone. IsLack IsFileFault undone.failure) }
{
    match file.sync_all() {
        Ok(()) => Ok(()),
        Err(error) => Err(blame(alloc, Fault::Write, path, Cause::from(error))),
    }
}

// Gives a file the owner and the mode of another one.
fn keep(file: &File, old: &Metadata) -> io::Result<()> {
    give_owner(file, &file.metadata()?, old);
    file.set_permissions(old.permissions())
}

/// Gives a file the owner and the group of another one, or the group alone. Both are the system's to refuse.
pub fn give_owner(file: &File, made: &Metadata, old: &Metadata) {
    if made.uid() != old.uid() || made.gid() != old.gid() {
        if fchown(file, Some(old.uid()), Some(old.gid())).is_err() {
            let _ = fchown(file, None, Some(old.gid()));
        }
    }
}
