//! What is printed, on the output and on the standard error.

ghost use Rattle.std.specs.Prelude.{OnOk, IfErr};
ghost use Rattle.stn_effects.specs.Printing.{device_of, Prints, IsUnprinted, TellsText, TellsFault, TellsRefusal, Tells};

use std::alloc::Allocator;
use std::io::Write;
use stn_device::{Counted, write_whole};
use stn_refusal::{Failure, Fault, Refusal};

/// Prints a text.
pub fn print<W: Write>(text: &[u8], out: &mut Counted<W>) -> Result<(), Failure>
    ensures printed { OnOk result (Prints (device_of W.contents out.old) (device_of W.contents out.new) text.now) }
    ensures failed { IfErr result (IsUnprinted (device_of W.contents out.old) (device_of W.contents out.new) text.now) }
{
    write_whole(out, text)?;
    Ok(())
}

/// Prints a text that is to be seen before the program goes on. Fault: `Write`, after which a part of it may be printed.
pub fn print_now<W: Write>(text: &[u8], out: &mut Counted<W>) -> Result<(), Failure>
    ensures printed { OnOk result (Prints (device_of W.contents out.old) (device_of W.contents out.new) text.now) }
    ensures failed { IfErr result (IsUnprinted (device_of W.contents out.old) (device_of W.contents out.new) text.now) }
{
    print(text, out)?;
    match out.flush() {
        Ok(()) => Ok(()),
        Err(_) => Err(Failure::Failed(Fault::Write)),
    }
}

/// Tells why there is no answer: a refusal on the output, a fault on the standard error.
pub fn tell_failure<W: Write, E: Write, A: Allocator>(
    alloc: A,
    failure: Failure,
    out: &mut Counted<W>,
    err: &mut Counted<E>,
)
    ensures { Tells failure (device_of W.contents out.old) (device_of W.contents out.new)
        (device_of E.contents err.old) (device_of E.contents err.new) }
{
    match failure {
        Failure::Refused(refusal) => tell_refusal(alloc, refusal, out, err),
        Failure::Failed(fault) => tell_fault(fault, err),
    }
}

fn tell_refusal<W: Write, E: Write, A: Allocator>(
    alloc: A,
    refusal: Refusal,
    out: &mut Counted<W>,
    err: &mut Counted<E>,
)
    ensures { TellsRefusal refusal (device_of W.contents out.old) (device_of W.contents out.new)
        (device_of E.contents err.old) (device_of E.contents err.new) }
{
    let mut text = Vec::new(alloc);
    match refusal.print(&mut text) {
        Ok(()) => match write_whole(out, &text) {
            Ok(()) => {}
            Err(_) => tell_fault(Fault::Write, err),
        },
        Err(_) => tell_fault(Fault::Memory, err),
    }
}

/// Prints the line of a fault, as far as the standard error takes it.
pub fn tell_fault<E: Write>(fault: Fault, err: &mut Counted<E>)
    ensures { TellsFault fault (device_of E.contents err.old) (device_of E.contents err.new) }
{
    tell(fault.text(), err);
}

/// Prints a text, as far as the standard error takes it.
pub fn tell<E: Write>(text: &[u8], err: &mut Counted<E>)
    ensures { TellsText text.now (device_of E.contents err.old) (device_of E.contents err.new) }
{
    let _ = write_whole(err, text);
}
