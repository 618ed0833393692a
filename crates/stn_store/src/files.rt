//! Logs and texts as files.

ghost use Rattle.std.specs.{Prelude.{◌≡◌, Ok, Err, MatchResult, IfOk, IfErr}, String.string_bytes};
ghost use Rattle.stn_store.specs.{Files.IsFileFault, Store.IsLack};

use crate::lock::{Lock, can_lock, is_locked};
use crate::log::spell_log;
use crate::look::{Look, SeenFile};
use crate::place::{Place, resolve};
use crate::reading::{are_these, read_log, read_text};
use crate::store::Store;
use crate::trouble::{Trouble, Undone, Watched, blame, caused, named};
use std::alloc::Global;
use std::cell::{Cell, RefCell};
use std::fs::{self, File};
use std::io::ErrorKind;
use std::rt::Files;
use std::time::Clock;
use stn_cause::Cause;
use stn_records::Site;
use stn_refusal::{Failure, Fault};
use stn_site::SitePlan;

/// The log of a name: the place that the name led to when it was held, and the lock beside that place.
#[derive(Drop)]
pub struct HeldFile {
    name: String,
    place: Place,
    lock: Lock,
}

/// Files, each under its path, and what of them could not be used last.
#[derive(Drop)]
pub struct FileStore<'a, T> {
    rt: &'a T,
    trouble: RefCell<Option<Trouble>>,
}

impl<'a, T> FileStore<'a, T> {
    /// The files of a runtime.
    pub fn new(rt: &'a T) -> FileStore<'a, T> {
        FileStore {
            rt,
            trouble: RefCell::new(None),
        }
    }

    // Keeps what can't be used.
    fn keep(&self, trouble: Option<Trouble>) {
        let _ = self.trouble.try_replace(trouble);
    }

    // What was done; where it was not, what can't be used is kept.
    fn told<X: Drop>(&self, done: Result<X, Undone>) -> Result<X, Failure>
        ensures { MatchResult done (λ value. result ≡ Ok value) (λ undone. result ≡ Err undone.failure) }
    {
        match done {
            Ok(value) => Ok(value),
            Err(Undone { failure, trouble }) => {
                self.keep(trouble);
                Err(failure)
            }
        }
    }
}

impl<'a, T: AllocGlobal> FileStore<'a, T> {
    // What was read of the file of a path; where its read failed, or it has too many bytes, that is kept, and why.
    fn unless_unread<X: Drop>(
        &self,
        path: &str,
        cause: Option<Cause>,
        read: Result<X, Failure>,
    ) -> Result<X, Failure>
        ensures { result ≡ read }
    {
        if let Err(Failure::Failed(Fault::Read)) = &read {
            let cause = cause.unwrap_or(Cause::Unread);
            self.keep(Trouble::new(self.rt.alloc(), path, cause).ok());
        }
        if let Err(Failure::Failed(Fault::Bound)) = &read {
            self.keep(Trouble::new(self.rt.alloc(), path, Cause::TooLong).ok());
        }
        read
    }
}

// Holds the log of a path.
fn hold_at<T: Files<File = File> + AllocGlobal>(rt: &T, path: &str) -> Result<HeldFile, Undone>
    ensures named { IfOk result (λ held. string_bytes held.name ≡ path.now) }
    ensures failed { IfErr result (λ undone. IsLack IsFileFault undone.failure) }
{
    let name = String::from_str(rt.alloc(), path)?;
    let path = resolve(rt, path)?;
    let lock = Lock::take(rt, path.as_str())?;
    let place = Place::find(rt, path)?;
    place.fit(rt, &lock);
    Ok(HeldFile { name, place, lock })
}

// Whether another program holds the log of a path.
fn is_held_at<T: Files<File = File> + AllocGlobal>(rt: &T, path: &str) -> Result<bool, Undone> {
    let path = resolve(rt, path)?;
    Ok(is_locked(rt, path.as_str())?)
}

// Finds out whether the log of a path can be held and saved.
fn can_save_at<T: Files<File = File> + AllocGlobal>(rt: &T, path: &str) -> Result<(), Undone>
    ensures { IfErr result (λ undone. IsLack IsFileFault undone.failure) }
{
    let path = resolve(rt, path)?;
    can_lock(rt, path.as_str())?;
    Place::find(rt, path)?.can_save(rt)
}

// Opens the file of a path to be read.
fn open_at<T: Files<File = File> + AllocGlobal>(rt: &T, path: &str) -> Result<File, Undone>
    ensures { IfErr result (λ undone. IsLack IsFileFault undone.failure) }
{
    named(rt.alloc(), path, caused(fs::open(rt, path)))
}

// What files hold is known to no clause.
impl<T: Files<File = File> + AllocGlobal + Clock> Store<Global> for FileStore<'_, T> {
    ghost use Rattle.std.specs.{Prelude.None, String.string_bytes};

    ghost entries = { λ _. None };

    ghost fails = { IsFileFault };

    type Held = HeldFile;

    ghost held_name = { λ held. string_bytes held.name };

    fn hold(&self, path: &str) -> Result<HeldFile, Failure> {
        self.told(hold_at(self.rt, path))
    }

    fn is_held(&self, path: &str) -> bool {
        is_held_at(self.rt, path).unwrap_or(false)
    }

    fn can_save(&self, path: &str) -> Result<(), Failure> {
        self.told(can_save_at(self.rt, path))
    }

    // A link is there even where it leads to nothing, and so is what can't be opened.
    fn is_there(&self, path: &str) -> Result<bool, Failure> {
        match fs::symlink_metadata(self.rt, path) {
            Ok(_) => Ok(true),
            Err(error) => match error.kind() {
                ErrorKind::NotFound | ErrorKind::NotADirectory => Ok(false),
                _ => {
                    let cause = Cause::from(error);
                    self.told(Err(blame(self.rt.alloc(), Fault::File, path, cause)))
                }
            },
        }
    }

    fn has(&self, path: &str, bytes: &[u8]) -> Result<bool, Failure> {
        let file = self.told(open_at(self.rt, path))?;
        let cause = Cell::new(None);
        let same = are_these(Watched::new(file, &cause), bytes);
        self.unless_unread(path, cause.get(), same)
    }

    fn has_held(&self, held: &HeldFile, bytes: &[u8]) -> Result<bool, Failure> {
        let file = self.told(held.place.open(self.rt))?;
        let cause = Cell::new(None);
        let same = are_these(Watched::new(file, &cause), bytes);
        self.unless_unread(held.name.as_str(), cause.get(), same)
    }

    fn look(&self, path: &str) -> Option<Look<Global>> {
        // What is no file, as a pipe, might keep this waiting.
        if !fs::metadata(self.rt, path).ok()?.is_file() {
            return None;
        }
        let file = fs::open(self.rt, path).ok()?;
        Some(Look::File(SeenFile::of(self.rt, file)?))
    }

    fn is_seen(&self, path: &str, look: &Look<Global>) -> bool {
        match (look, fs::metadata(self.rt, path)) {
            (Look::File(seen), Ok(found)) => seen.is(&found),
            _ => false,
        }
    }

    fn is_seen_held(&self, held: &HeldFile, look: &Look<Global>) -> bool {
        match (look, held.place.standing(self.rt)) {
            (Look::File(seen), Some(found)) => seen.is(&found),
            _ => false,
        }
    }

    fn load(&self, path: &str, site: Site) -> Result<SitePlan<Global>, Failure> {
        let file = self.told(open_at(self.rt, path))?;
        let cause = Cell::new(None);
        let read = read_log(self.rt.alloc(), Watched::new(file, &cause), site);
        self.unless_unread(path, cause.get(), read)
    }

    fn load_held(&self, held: &HeldFile, site: Site) -> Result<SitePlan<Global>, Failure> {
        let file = self.told(held.place.open(self.rt))?;
        let cause = Cell::new(None);
        let read = read_log(self.rt.alloc(), Watched::new(file, &cause), site);
        self.unless_unread(held.name.as_str(), cause.get(), read)
    }

    fn text(&self, path: &str) -> Result<Vec<u8>, Failure> {
        let file = self.told(open_at(self.rt, path))?;
        let cause = Cell::new(None);
        let text = read_text(self.rt.alloc(), Watched::new(file, &cause));
        self.unless_unread(path, cause.get(), text)
    }

    fn save_new(&mut self, held: &HeldFile, plan: &SitePlan<Global>) -> Result<(), Failure> {
        let text = spell_log(self.rt.alloc(), plan)?;
        let made = held.place.make(self.rt, &text);
        held.place.fit(self.rt, &held.lock);
        self.told(made)
    }

    fn save(&mut self, held: &HeldFile, plan: &SitePlan<Global>) -> Result<Vec<u8>, Failure> {
        let text = spell_log(self.rt.alloc(), plan)?;
        self.told(held.place.replace(self.rt, &held.lock, &text))?;
        Ok(text)
    }

    fn trouble(&self) -> Option<Trouble> {
        match self.trouble.try_take() {
            Ok(trouble) => trouble,
            Err(_) => None,
        }
    }

    fn note(&self, trouble: Trouble) {
        self.keep(Some(trouble));
    }
}
