//! What is seen of bytes, so that they are known again without being read.

ghost use Rattle.std.specs.{Prelude.{◌≡◌, true}, Fs.metadata_len};
ghost use Rattle.stn_store.specs.Look.{HasSameTimes, IsSameFile, ShowsChanges};

use std::alloc::Allocator;
use std::fs::{File, Metadata};
use std::os::unix::fs::MetadataExt;
use std::time::Clock;

/// How many seconds apart two times of files may be that are one time to a file system.
const CLOCK_STEP: i64 = 2;

/// What is seen of bytes that stand under a name.
#[derive(Drop)]
pub enum Look<A: Allocator> {
    /// The file that has them.
    File(SeenFile),
    /// The bytes themselves.
    Bytes(Vec<u8, A>),
}

/// A file, and what the system said of it. It stays open, so that no other file gets its number.
#[derive(Drop)]
pub struct SeenFile {
    file: File,
    state: FileState,
}

/// What the system says of a file: which one it is, its length, and when its bytes and what is said of it changed last, in seconds
/// since 1970 and nanoseconds.
#[derive(Clone, Copy)]
pub(crate) struct FileState {
    pub device: u64,
    pub number: u64,
    pub length: u64,
    pub written: i64,
    pub written_nanos: i64,
    pub changed: i64,
    pub changed_nanos: i64,
}

impl FileState {
    /// What is said of a file by now.
    pub fn of(found: &Metadata) -> FileState
        ensures { result.length ≡ metadata_len found.now }
    {
        FileState {
            device: found.dev(),
            number: found.ino(),
            length: found.size(),
            written: found.mtime(),
            written_nanos: found.mtime_nsec(),
            changed: found.ctime(),
            changed_nanos: found.ctime_nsec(),
        }
    }

    /// Whether the same is said of another file: it is the same one, and has not changed.
    pub fn is(&self, other: &FileState) -> bool
        ensures { result ≡ true → IsSameFile self.now other.now × HasSameTimes self.now other.now }
    {
        self.is_same_file(other) && self.has_times_of(other)
    }

    fn is_same_file(&self, other: &FileState) -> bool
        ensures { result ≡ true → IsSameFile self.now other.now }
    {
        self.device == other.device && self.number == other.number && self.length == other.length
    }

    fn has_times_of(&self, other: &FileState) -> bool
        ensures { result ≡ true → HasSameTimes self.now other.now }
    {
        self.written == other.written
            && self.written_nanos == other.written_nanos
            && self.changed == other.changed
            && self.changed_nanos == other.changed_nanos
    }

    /// Whether whatever changes the file after a moment, given in seconds since 1970, gives it another time.
    pub fn shows_changes(&self, seconds: i64) -> bool
        ensures { result ≡ true → ShowsChanges self.now seconds }
    {
        let latest = seconds.saturating_sub(CLOCK_STEP);
        self.written < latest && self.changed < latest
    }
}

impl SeenFile {
    /// An open file, if any change from now on shows.
    pub(crate) fn of<T: Clock>(rt: &T, file: File) -> Option<SeenFile> {
        let now = rt.since_1970().ok()?;
        let state = FileState::of(&file.metadata().ok()?);
        let seconds = i64::try_from(now.as_secs()).ok()?;
        if state.shows_changes(seconds) {
            Some(SeenFile { file, state })
        } else {
            None
        }
    }

    /// Whether a file is this one, and has not changed.
    pub(crate) fn is(&self, found: &Metadata) -> bool
        ensures { result ≡ true → self.now.state.length ≡ metadata_len found.now }
    {
        self.state.is(&FileState::of(found))
    }
}
