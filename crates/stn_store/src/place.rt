//! The file of a log: where it is, and how it is replaced.

ghost use Rattle.std.specs.Prelude.{◌≡◌, ◌⊎◌, IfErr};
ghost use Rattle.stn_store.specs.{Store.{log_there, IsLack}, Files.IsFileFault};

use crate::beside::{force, make_beside, write_beside};
use crate::lock::Lock;
use crate::same::{has_name, is_free};
use crate::trouble::{Undone, blame, caused, named};
use std::fs::{self, File, Metadata, OpenOptions};
use std::io::{self, ErrorKind};
use std::os::unix::fs::MetadataExt;
use std::path::Path;
use std::rt::Files;
use stn_cause::Cause;
use stn_refusal::{Code, Failure, Fault};

/// Who may read and write a new log; the system takes away what the umask says.
pub const NEW_MODE: u32 = 0o666;

/// Where a log is, or is to be, by a path that is no link. The log that is there is kept open, so that no other file becomes it.
#[derive(Drop)]
pub struct Place {
    path: String,
    log: Option<File>,
}

/// The path that a name leads to by now. It is no link.
pub fn resolve<T: Files + AllocGlobal>(rt: &T, name: &str) -> Result<String, Undone>
    ensures { IfErr result (λ undone. IsLack IsFileFault undone.failure) }
{
    match fs::symlink_metadata(rt, name) {
        Ok(found) if found.is_symlink() => {
            let found = named(rt.alloc(), name, caused(fs::canonicalize(rt, name)))?;
            Ok(found.into_string())
        }
        Ok(_) => Ok(String::from_str(rt.alloc(), name)?),
        Err(error) if error.kind() == ErrorKind::NotFound && !name.is_empty() => {
            Ok(String::from_str(rt.alloc(), name)?)
        }
        Err(error) => Err(blame(rt.alloc(), Fault::File, name, Cause::from(error))),
    }
}

// What keeps a save from putting another file in place of what was found: it is no file, has another name, or may not be written.
fn unfit(found: &Metadata) -> Option<Cause> {
    if found.is_dir() {
        Some(Cause::Folder)
    } else if !found.is_file() {
        Some(Cause::NotFile)
    } else if found.nlink() != 1 {
        Some(Cause::OtherName)
    } else if found.permissions().readonly() {
        Some(Cause::Forbidden)
    } else {
        None
    }
}

// Opens a log to be written. What is no such file is left alone.
fn open_log<T: Files>(rt: &T, path: &str) -> Result<T::File, Cause> {
    if let Some(cause) = unfit(&fs::symlink_metadata(rt, path)?) {
        return Err(cause);
    }
    let mut options = OpenOptions::new();
    options.write(true);
    Ok(options.open(rt, path)?)
}

impl Place {
    /// The place of a path that is no link. A log that is there and may not be replaced is a fault: one that is no file, has another
    /// name, or may not be written.
    pub fn find<T: Files<File = File> + AllocGlobal>(rt: &T, path: String) -> Result<Place, Undone>
        ensures { IfErr result (λ undone. IsLack IsFileFault undone.failure) }
    {
        match open_log(rt, path.as_str()) {
            Ok(log) => Ok(Place {
                path,
                log: Some(log),
            }),
            Err(Cause::Missing) => Ok(Place { path, log: None }),
            Err(cause) => Err(blame(rt.alloc(), Fault::File, path.as_str(), cause)),
        }
    }

    // What the system says of the log that was found.
    fn found<T: AllocGlobal>(&self, rt: &T) -> Result<Option<Metadata>, Undone>
        ensures { IfErr result (λ undone. IsLack IsFileFault undone.failure) }
    {
        match &self.log {
            Some(log) => {
                let found = named(rt.alloc(), self.path.as_str(), caused(log.metadata()))?;
                Ok(Some(found))
            }
            None => Ok(None),
        }
    }

    /// Gives its lock the owner and the group of the log that is there by now, and the mode of who may write it.
    pub fn fit<T: Files>(&self, rt: &T, lock: &Lock) {
        if let Ok(log) = fs::symlink_metadata(rt, self.path.as_str()) {
            lock.fit(&log);
        }
    }

    /// Opens the log to be read.
    pub fn open<T: Files<File = File> + AllocGlobal>(&self, rt: &T) -> Result<File, Undone>
        ensures { IfErr result (λ undone. IsLack IsFileFault undone.failure) }
    {
        let path = self.path.as_str();
        if named(rt.alloc(), path, caused(self.stands(rt)))? {
            named(rt.alloc(), path, caused(fs::open(rt, path)))
        } else {
            Err(blame(rt.alloc(), Fault::File, path, Cause::Changed))
        }
    }

    /// What the system says of the log that was found, if the path is still its name.
    pub fn standing<T: Files<File = File>>(&self, rt: &T) -> Option<Metadata> {
        match (&self.log, self.stands(rt)) {
            (Some(log), Ok(true)) => log.metadata().ok(),
            _ => None,
        }
    }

    // Whether the path is still that of the log that was found, or still nobody's.
    fn stands<T: Files<File = File>>(&self, rt: &T) -> io::Result<bool> {
        match &self.log {
            Some(log) => has_name(rt, log, self.path.as_str()),
            None => is_free(rt, self.path.as_str()),
        }
    }

    /// Finds out whether the log can be written beside: a file is made there, and removed.
    pub fn can_save<T: Files<File = File> + AllocGlobal>(&self, rt: &T) -> Result<(), Undone>
        ensures { IfErr result (λ undone. IsLack IsFileFault undone.failure) }
    {
        let _folder = self.force_folder(rt)?;
        let (path, _file) = make_beside(rt, self.path.as_str(), NEW_MODE)?;
        named(
            rt.alloc(),
            path.as_str(),
            caused(fs::remove_file(rt, path.as_str())),
        )
    }

    /// Saves a log where nothing is. Where only the last force of its folder fails, that is the answer, though the log stands there.
    pub fn make<T: Files<File = File> + AllocGlobal>(
        &self,
        rt: &T,
        text: &[u8],
    ) -> Result<(), Undone>
        ensures { IfErr result (λ undone. (undone.failure ≡ log_there) ⊎ IsLack IsFileFault undone.failure) }
    {
        let folder = self.force_folder(rt)?;
        let beside = write_beside(rt, self.path.as_str(), None, text)?;
        let linked = fs::hard_link(rt, beside.as_str(), self.path.as_str());
        let _ = fs::remove_file(rt, beside.as_str());
        match linked {
            Ok(()) => force(rt.alloc(), self.folder(), &folder),
            Err(error) if error.kind() == ErrorKind::AlreadyExists => Err(Undone {
                failure: Failure::refused(Code::LogThere),
                trouble: None,
            }),
            Err(error) => {
                let cause = Cause::from(error);
                Err(blame(rt.alloc(), Fault::File, self.path.as_str(), cause))
            }
        }
    }

    /// Saves a log in place of the file that was found. Where only the last force of its folder fails, that is the answer, though the new
    /// log stands there.
    pub fn replace<T: Files<File = File> + AllocGlobal>(
        &self,
        rt: &T,
        lock: &Lock,
        text: &[u8],
    ) -> Result<(), Undone>
        ensures { IfErr result (λ undone. IsLack IsFileFault undone.failure) }
    {
        let folder = self.force_folder(rt)?;
        let found = self.found(rt)?;
        let beside = write_beside(rt, self.path.as_str(), found.as_ref(), text)?;
        match self.take_name(rt, lock, beside.as_str()) {
            Ok(()) => force(rt.alloc(), self.folder(), &folder),
            Err(cause) => {
                let _ = fs::remove_file(rt, beside.as_str());
                Err(blame(rt.alloc(), Fault::File, self.path.as_str(), cause))
            }
        }
    }

    // Gives the name of the log to the file beside, where the lock still holds and nobody else replaced the log.
    fn take_name<T: Files<File = File>>(
        &self,
        rt: &T,
        lock: &Lock,
        beside: &str,
    ) -> Result<(), Cause> {
        if !lock.holds(rt)? || !self.stands(rt)? {
            return Err(Cause::Changed);
        }
        Ok(fs::rename(rt, beside, self.path.as_str())?)
    }

    // The path of the log's folder.
    fn folder(&self) -> &str {
        match Path::new(self.path.as_str()).parent() {
            Some(folder) if !folder.as_str().is_empty() => folder.as_str(),
            _ => ".",
        }
    }

    // Opens the folder of the log and forces it to the disk, so that a system that can't is found out before a log is written.
    fn force_folder<T: Files<File = File> + AllocGlobal>(&self, rt: &T) -> Result<File, Undone>
        ensures { IfErr result (λ undone. IsLack IsFileFault undone.failure) }
    {
        let path = self.folder();
        let folder = named(rt.alloc(), path, caused(fs::open(rt, path)))?;
        named(rt.alloc(), path, caused(folder.sync_all()))?;
        Ok(folder)
    }
}
