ghost use Rattle.std.specs.{Prelude.{◌≡◌, ◌++◌, ◌<◌, OnOk, OnErr, codes, take, vec_len}, Fmt.sign_text};
ghost use Rattle.stn_time.specs.{Text.{SpellsTime, printed, three_digits}, TimeOf.time_of};

use crate::Memory;
use crate::millis::Ms;
use itoa::Buffer;
use std::alloc::Allocator;
use stn_text::all_or_nothing;

impl Ms {
    /// Appends the printed form: `-` for a negative time, the whole seconds without leading zeros, a point and exactly
    /// three digits. Zero has no sign. Lack of memory leaves `out` as it was.
    pub fn print<A: Allocator>(self, out: &mut Vec<u8, A>) -> Result<(), Memory>
        ensures ok { OnOk result (out.new.items ≡ out.old.items ++ printed self) }
        ensures kept { OnErr result (out.new.items ≡ out.old.items) }

        // A printed time reads as itself.
        ensures spells { SpellsTime (printed self) self }
        ensures reads { time_of (printed self) ≡ Ok self }
    {
        print_millis(self.get(), out)
    }
}

/// Appends the printed form of any number of milliseconds, as `Ms::print` does for a time.
pub fn print_millis<A: Allocator>(millis: i64, out: &mut Vec<u8, A>) -> Result<(), Memory>
    ensures ok { OnOk result (out.new.items ≡ out.old.items ++ printed millis) }
    ensures kept { OnErr result (out.new.items ≡ out.old.items) }
    ensures spells { SpellsTime (printed millis) millis }
{
    let before = out.len();
    let outcome = append_printed(millis, out);
    all_or_nothing(out, before, outcome)
}

// Lack of memory may leave a part of the printed form.
fn append_printed<A: Allocator>(millis: i64, out: &mut Vec<u8, A>) -> Result<(), Memory>
    ensures ok { OnOk result (out.new.items ≡ out.old.items ++ printed millis) }
    ensures kept { take (vec_len out.old) out.new.items ≡ out.old.items }
{
    let size = millis.unsigned_abs();
    let mut buffer = Buffer::new();
    out.extend_from_slice(sign_text(millis < 0))?;
    out.extend_from_slice(buffer.format(size / 1000).as_bytes())?;
    out.extend_from_slice(&point_and_digits(size % 1000))
}

fn sign_text(negative: bool) -> &'static [u8]
    ensures { result.now ≡ sign_text negative }
{
    if negative { b"-" } else { b"" }
}

// A point and the three decimal digits of a number.
fn point_and_digits(number: u64) -> [u8; 4]
    requires { number < 1000 }
    ensures { result ≡ codes "." ++ three_digits number }
{
    [
        b'.',
        b'0' + (number / 100) as u8,
        b'0' + (number / 10 % 10) as u8,
        b'0' + (number % 10) as u8,
    ]
}
