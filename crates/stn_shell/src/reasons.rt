//! What people should know of a command besides its answer, told on the standard error.

ghost use Rattle.std.specs.Prelude.{◌≡◌, MatchResult};
ghost use Rattle.stn_effects.specs.Printing.{device_of, TellsText};
ghost use Rattle.stn_logs.specs.Hints.{IsHinted};
ghost use Rattle.stn_refusal.specs.declared.failure.{Failure.TheVariants.Failed, Fault.TheVariants.Net as FaultOfNet};
ghost use Rattle.stn_shell.specs.Outside.{TellsSome};

use std::alloc::Global;
use std::io::{self, ErrorKind, Write};
use stn_cause::Cause;
use stn_device::Counted;
use stn_effects::tell;
use stn_line::Line;
use stn_logs::{Kept, hints_of};
use stn_refusal::{Failure, Fault};
use stn_store::{Store, Trouble};
use stn_time::Memory;

/// Tells a text, if there was memory for it, as far as the standard error takes it.
pub fn tell_made<E: Write>(made: Result<Vec<u8>, Memory>, err: &mut Counted<E>)
    ensures { MatchResult made (λ text. TellsText text.items (device_of E.contents err.old) (device_of E.contents err.new))
        (λ _. device_of E.contents err.new ≡ device_of E.contents err.old) }
{
    match made {
        Ok(text) => tell(&text, err),
        Err(_) => {}
    }
}

/// Tells the hints of a command that was done, on one line. A log that can't be read any more gives none.
pub fn tell_hints<S: Store<Global>, E: Write>(
    alloc: Global,
    store: &S,
    kept: &mut Kept<Global>,
    line: &Line<'_>,
    err: &mut Counted<E>,
)
    ensures { TellsSome (IsHinted (S.entries store.now) line.now) (device_of E.contents err.old) (device_of E.contents err.new) }
{
    match hints_of(alloc, store, kept, line) {
        Ok(hints) => tell(&hints, err),
        Err(_) => drop(store.trouble()),
    }
}

/// The fault of an address that can't be used. The store keeps why, if there is memory for it.
pub fn unusable<S: Store<Global>>(
    alloc: Global,
    store: &S,
    address: &str,
    error: io::Error,
) -> Failure
    ensures { result ≡ Failed FaultOfNet }
{
    match Trouble::new(alloc, address, cause_of_address(error)) {
        Ok(trouble) => store.note(trouble),
        Err(_) => {}
    }
    Failure::Failed(Fault::Net)
}

// Why an address can't be used. What is no valid input is none, as one without a port.
fn cause_of_address(error: io::Error) -> Cause {
    match error.kind() {
        ErrorKind::InvalidInput => Cause::NoAddress,
        _ => Cause::from(error),
    }
}
