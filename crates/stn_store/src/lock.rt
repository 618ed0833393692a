//! The lock of a log: an empty file beside it. It is never removed.

ghost use Rattle.std.specs.Prelude.{IfErr};
ghost use Rattle.stn_store.specs.{Store.IsLack, Files.IsFileFault};

use crate::beside::{give_owner, make_file};
use crate::place::NEW_MODE;
use crate::same::has_name;
use crate::trouble::{Undone, named};
use std::fs::{self, File, Metadata, OpenOptions, Permissions, TryLockError};
use std::io::{self, ErrorKind};
use std::os::unix::fs::{MetadataExt, PermissionsExt};
use std::rt::Files;
use stn_cause::Cause;
use stn_time::Memory;

// The bits of a mode that say who may read, write and run a file.
const ALL_BITS: u32 = 0o777;

// Who may write a file may read and write its lock, and nobody else may open it.
fn mode_of_writers(mode: u32) -> u32 {
    let owner = if mode & 0o200 == 0 { 0 } else { 0o600 };
    let group = if mode & 0o020 == 0 { 0 } else { 0o060 };
    let others = if mode & 0o002 == 0 { 0 } else { 0o006 };
    owner | group | others
}

// The mode of a lock that is made: for a log that is there, or for a new one.
fn mode_at<T: Files>(rt: &T, log: &str) -> u32 {
    match fs::symlink_metadata(rt, log) {
        Ok(found) => mode_of_writers(found.mode()),
        Err(_) => NEW_MODE,
    }
}

// Opens an empty file. What is no file, or isn't empty, is left alone.
fn open_empty<T: Files>(rt: &T, path: &str) -> Result<T::File, Cause> {
    let found = fs::symlink_metadata(rt, path)?;
    if found.is_dir() {
        return Err(Cause::Folder);
    }
    if !found.is_file() {
        return Err(Cause::NotFile);
    }
    if found.len() != 0 {
        return Err(Cause::NotEmpty);
    }
    let mut options = OpenOptions::new();
    options.read(true);
    options.write(true);
    match options.open(rt, path) {
        Err(error) if error.kind() == ErrorKind::PermissionDenied => Ok(fs::open(rt, path)?),
        opened => Ok(opened?),
    }
}

// Opens a lock, which is made where there is none; None where it was removed meanwhile.
fn open_lock<T: Files>(rt: &T, path: &str, mode: u32) -> Result<Option<T::File>, Cause> {
    match make_file(rt, path, mode) {
        Ok(made) => Ok(Some(made)),
        Err(error) if error.kind() == ErrorKind::AlreadyExists => match open_empty(rt, path) {
            Ok(lock) => Ok(Some(lock)),
            Err(Cause::Missing) => Ok(None),
            Err(cause) => Err(cause),
        },
        Err(error) => Err(Cause::from(error)),
    }
}

// Waits for the lock of a path. One whose name was removed while this waited keeps nobody out: the next is taken.
fn wait_for<T: Files<File = File>>(rt: &T, path: &str, mode: u32) -> Result<File, Cause> {
    for _ in 0..u32::MAX {
        if let Some(lock) = open_lock(rt, path, mode)? {
            lock.lock()?;
            if has_name(rt, &lock, path)? {
                return Ok(lock);
            }
        }
    }
    Err(Cause::Late)
}

/// Whether another program holds a log, by its lock. One that is not there, or is none, is held by nobody.
pub fn is_locked<T: Files<File = File> + AllocGlobal>(rt: &T, log: &str) -> Result<bool, Memory> {
    let path = format!(in rt.alloc(); "{log}.lock")?;
    Ok(match open_empty(rt, path.as_str()) {
        Ok(lock) => is_taken(&lock),
        Err(_) => false,
    })
}

// Whether an open lock is taken. A shared lock, let go at once, keeps nobody else from asking so.
fn is_taken(lock: &File) -> bool {
    match lock.try_lock_shared() {
        Err(TryLockError::WouldBlock) => true,
        Ok(()) | Err(TryLockError::Error(_)) => false,
    }
}

/// Finds out whether a log can be held, and waits for nobody.
pub fn can_lock<T: Files<File = File> + AllocGlobal>(rt: &T, log: &str) -> Result<(), Undone>
    ensures { IfErr result (λ undone. IsLack IsFileFault undone.failure) }
{
    let path = format!(in rt.alloc(); "{log}.lock")?;
    let lock = open_lock(rt, path.as_str(), mode_at(rt, log));
    let _lock = named(rt.alloc(), path.as_str(), lock)?;
    Ok(())
}

/// The lock of a log that is held. The system lets it go when the file is closed, also where the program is stopped.
#[derive(Drop)]
pub struct Lock {
    path: String,
    file: File,
}

impl Lock {
    /// Waits until no other program holds a log, and holds it.
    pub fn take<T: Files<File = File> + AllocGlobal>(rt: &T, log: &str) -> Result<Lock, Undone>
        ensures { IfErr result (λ undone. IsLack IsFileFault undone.failure) }
    {
        let path = format!(in rt.alloc(); "{log}.lock")?;
        let lock = wait_for(rt, path.as_str(), mode_at(rt, log));
        let file = named(rt.alloc(), path.as_str(), lock)?;
        Ok(Lock { path, file })
    }

    /// Whether it still keeps others out: its name was not removed.
    pub fn holds<T: Files>(&self, rt: &T) -> io::Result<bool> {
        has_name(rt, &self.file, self.path.as_str())
    }

    /// Gives it the owner and the group of its log, and the mode of who may write that, as far as the system lets it. A lock that has
    /// another name is left as it is.
    pub fn fit(&self, log: &Metadata) {
        match self.file.metadata() {
            Ok(made) if made.nlink() == 1 => {
                give_owner(&self.file, &made, log);
                fit_mode(&self.file, &made, mode_of_writers(log.mode()));
            }
            _ => {}
        }
    }
}

// Gives a file a mode, if it has another one.
fn fit_mode(file: &File, made: &Metadata, mode: u32) {
    if made.mode() & ALL_BITS != mode {
        let _ = file.set_permissions(Permissions::from_mode(mode));
    }
}
