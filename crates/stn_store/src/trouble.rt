//! Why a call on files is not done.

ghost use Rattle.std.specs.{Prelude.{◌≡◌, Ok, Err, IfErr, IfOk, MatchResult}, IoError.error_kind, String.string_bytes};
ghost use Rattle.stn_cause.specs.Cause.{cause_of};
ghost use Rattle.stn_refusal.specs.{Refusals.out_of_memory, declared.failure.{Failure.TheVariants.Failed, Fault.TheVariants.File}};
ghost use Rattle.stn_store.specs.Files.{Blames};

use std::alloc::{AllocError, Global};
use std::cell::Cell;
use std::io::{self, Read};
use stn_cause::Cause;
use stn_refusal::{Failure, Fault};

/// A file, a folder or an address that can't be used, and why.
#[derive(Drop)]
pub struct Trouble {
    pub name: String,
    pub cause: Cause,
}

impl Trouble {
    /// What has a name can't be used.
    pub fn new(alloc: Global, name: &str, cause: Cause) -> Result<Trouble, AllocError>
        ensures name { IfOk result (λ trouble. string_bytes trouble.name ≡ name.now) }
        ensures cause { IfOk result (λ trouble. trouble.cause ≡ cause) }
    {
        let name = String::from_str(alloc, name)?;
        Ok(Trouble { name, cause })
    }
}

/// Why a call on files was not done: its failure, and what can't be used, where that is known and there was memory for its name.
#[derive(Drop)]
pub struct Undone {
    pub failure: Failure,
    pub trouble: Option<Trouble>,
}

impl From<AllocError> for Undone {
    ghost use Rattle.std.specs.Prelude.{None};

    ghost from_gives = { λ _ given. (given.failure ≡ out_of_memory) × (given.trouble ≡ None) };

    fn from(refused: AllocError) -> Undone {
        Undone {
            failure: Failure::from(refused),
            trouble: None,
        }
    }
}

/// A fault of what has a name.
pub fn blame(alloc: Global, fault: Fault, name: &str, cause: Cause) -> Undone
    ensures failure { result.failure ≡ Failed fault }
    ensures trouble { Blames result.trouble name.now cause }
{
    Undone {
        failure: Failure::Failed(fault),
        trouble: Trouble::new(alloc, name, cause).ok(),
    }
}

/// What a call on the file of a name answers, or what keeps it from being used.
pub fn named<X: Drop>(alloc: Global, name: &str, answer: Result<X, Cause>) -> Result<X, Undone>
    ensures answered { IfOk result (λ value. answer ≡ Ok value) }
    ensures failure { IfErr result (λ undone. undone.failure ≡ Failed File) }
    ensures trouble { IfErr result (λ undone. IfErr answer (λ cause. Blames undone.trouble name.now cause)) }
{
    match answer {
        Ok(value) => Ok(value),
        Err(cause) => Err(blame(alloc, Fault::File, name, cause)),
    }
}

/// What the system answers, or the cause that it gives.
pub fn caused<X: Drop>(answer: io::Result<X>) -> Result<X, Cause>
    ensures { MatchResult answer (λ value. result ≡ Ok value) (λ error. result ≡ Err (cause_of (error_kind error))) }
{
    match answer {
        Ok(value) => Ok(value),
        Err(error) => Err(Cause::from(error)),
    }
}

/// A reader that keeps why its last read failed.
#[derive(Drop)]
pub struct Watched<'a, R> {
    reader: R,
    cause: &'a Cell<Option<Cause>>,
}

impl<'a, R> Watched<'a, R> {
    /// The reader, and where the cause is kept.
    pub fn new(reader: R, cause: &'a Cell<Option<Cause>>) -> Watched<'a, R> {
        Watched { reader, cause }
    }
}

// No clause says what its reads give.
impl<R: Read> Read for Watched<'_, R> {
    ghost use Rattle.std.specs.Prelude.{None};

    ghost remaining = { λ _. None };

    fn read(&mut self, buf: &mut [u8]) -> io::Result<usize> {
        match self.reader.read(buf) {
            Ok(count) => Ok(count),
            Err(error) => {
                self.cause.set(Some(Cause::of(error.kind())));
                Err(error)
            }
        }
    }
}
