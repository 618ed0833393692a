//! How events and ids are printed.

ghost use Rattle.std.specs.Prelude.{◌≡◌, ◌++◌, OnOk, OnErr};
ghost use Rattle.stn_text.specs.Names.{event_text, id_text};

use crate::Memory;
use crate::appending::all_or_nothing;
use crate::numbers::append_decimal;
use std::alloc::Allocator;

/// Appends the name of the event of this number: `z` for the origin, event 0; `s<k>` and `e<k>` for the start and the
/// end of step k, events 2k - 1 and 2k. If memory runs out, it appends nothing.
pub fn print_event<A: Allocator>(number: u16, out: &mut Vec<u8, A>) -> Result<(), Memory>
    ensures printed { OnOk result (out.new.items ≡ out.old.items ++ event_text number) }
    ensures kept { OnErr result (out.new.items ≡ out.old.items) }
{
    if number == 0 {
        out.extend_from_slice(b"z")
    } else if number % 2 == 1 {
        append_decimal(out, b"s", number / 2 + 1)
    } else {
        append_decimal(out, b"e", number / 2)
    }
}

/// Appends the id of this site and counter: `site.counter`, both numbers without leading zeros. If memory runs out, it
/// appends nothing.
pub fn print_id<A: Allocator>(site: u8, counter: u16, out: &mut Vec<u8, A>) -> Result<(), Memory>
    ensures printed { OnOk result (out.new.items ≡ out.old.items ++ id_text (record { site = site; counter = counter })) }
    ensures kept { OnErr result (out.new.items ≡ out.old.items) }
{
    let length = out.len();
    append_decimal(out, b"", u16::from(site))?;
    let appended = append_decimal(out, b".", counter);
    all_or_nothing(out, length, appended)
}
