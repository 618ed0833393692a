ghost use Rattle.std.specs.Prelude.{◌≡◌, ◌++◌, OnOk, OnErr, take, vec_len};
ghost use Rattle.stn_refusal.specs.Refusals as spec;
ghost use Rattle.stn_refusal.specs.Printed.{place_text, refusal_text};

use crate::code::Code;
use itoa::Buffer;
use std::alloc::Allocator;
use stn_text::{Memory, all_or_nothing, append_decimal, print_event, print_id};

/// What a refusal names.
#[derive(Clone, Copy, Debug, PartialEq, Eq)]
pub enum Place {
    /// Nothing.
    Nowhere,
    /// A line of a text, or a step of a plan, by its number from 1 on; 0 is a command line.
    Number(u32),
    /// An event, by its number.
    Event(u16),
    /// An id, by its site and its counter.
    Id { site: u8, counter: u16 },
}

/// A refusal: its number, and what it names. The number is that of a `Code`, or any number that another site sent.
#[derive(Clone, Copy, Debug, PartialEq, Eq)]
pub struct Refusal {
    pub code: u8,
    pub place: Place,
}

impl Refusal {
    /// The refusal that names nothing.
    pub fn new(code: Code) -> Refusal
        ensures { result ≡ spec.refusal code }
    {
        Refusal::placed(code, Place::Nowhere)
    }

    /// The refusal that names a line or a step.
    pub fn at(code: Code, number: u32) -> Refusal
        ensures { result ≡ spec.refusal_at code number }
    {
        Refusal::placed(code, Place::Number(number))
    }

    /// The refusal that names an event, by its number.
    pub fn of(code: Code, event: u16) -> Refusal
        ensures { result ≡ spec.refusal_of code event }
    {
        Refusal::placed(code, Place::Event(event))
    }

    /// The refusal that names an id, by its site and its counter.
    pub fn for_id(code: Code, site: u8, counter: u16) -> Refusal
        ensures { result ≡ spec.refusal_for code (record { site = site; counter = counter }) }
    {
        Refusal::placed(code, Place::Id { site, counter })
    }

    // The refusal that names this.
    fn placed(code: Code, place: Place) -> Refusal
        ensures { result ≡ spec.placed code place }
    {
        Refusal {
            code: code.number(),
            place,
        }
    }

    /// Appends the printed line: `refused <code>`, and what the refusal names. If memory runs out, it appends nothing.
    pub fn print<A: Allocator>(self, out: &mut Vec<u8, A>) -> Result<(), Memory>
        ensures printed { OnOk result (out.new.items ≡ out.old.items ++ refusal_text self) }
        ensures kept { OnErr result (out.new.items ≡ out.old.items) }
    {
        let before = out.len();
        let outcome = append_refusal(out, self);
        all_or_nothing(out, before, outcome)
    }
}

// Appends the printed line. If memory runs out, a part of it may stand there.
fn append_refusal<A: Allocator>(out: &mut Vec<u8, A>, refusal: Refusal) -> Result<(), Memory>
    ensures printed { OnOk result (out.new.items ≡ out.old.items ++ refusal_text refusal) }
    ensures behind { take (vec_len out.old) out.new.items ≡ out.old.items }
{
    append_decimal(out, b"refused ", u16::from(refusal.code))?;
    append_place(out, refusal.place)?;
    out.extend_from_slice(b"\n")
}

// Appends what a refusal names. If memory runs out, a part of it may stand there.
fn append_place<A: Allocator>(out: &mut Vec<u8, A>, place: Place) -> Result<(), Memory>
    ensures printed { OnOk result (out.new.items ≡ out.old.items ++ place_text place) }
    ensures behind { take (vec_len out.old) out.new.items ≡ out.old.items }
{
    match place {
        Place::Nowhere => Ok(()),
        Place::Number(number) => {
            let mut buffer = Buffer::new();
            let digits = buffer.format(number).as_bytes();
            out.extend_from_slice(b" ")?;
            out.extend_from_slice(digits)
        }
        Place::Event(event) => {
            out.extend_from_slice(b" ")?;
            print_event(event, out)
        }
        Place::Id { site, counter } => {
            out.extend_from_slice(b" ")?;
            print_id(site, counter, out)
        }
    }
}
