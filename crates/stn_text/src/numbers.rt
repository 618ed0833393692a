ghost use Rattle.std.specs.Prelude.{◌≡◌, ℕ, ◌^◌, ◌<◌, ◌++◌, IfSome, OnOk, OnErr, decimal};
ghost use Rattle.stn_text.specs.Numbers.{number_of};

use crate::Memory;
use itoa::Buffer;
use std::alloc::Allocator;

/// How many digits a number has at most.
pub const MOST_DIGITS: usize = 5;

/// The number that a word of one to five decimal digits is.
pub fn read_number(word: &[u8]) -> Option<u32>
    ensures value { result ≡ number_of word.now }
{
    if word.is_empty() || word.len() > MOST_DIGITS {
        return None;
    }
    let mut number = 0u32;
    for digit in word {
        if !digit.is_ascii_digit() {
            return None;
        }
        number = number * 10 + u32::from(*digit - b'0');
    }
    Some(number)
}

/// The number below 65,536 whose decimal form the text is: digits alone, without leading zeros.
pub fn read_decimal(text: &[u8]) -> Option<u16>
    ensures found { IfSome result (λ number. text.now ≡ decimal number) }
    ensures all { (number : ℕ) → number < 2 ^ 16 → text.now ≡ decimal number → result ≡ Some number }
{
    let number = u16::try_from(read_number(text)?).ok()?;
    if Buffer::new().format(number).as_bytes() == text {
        Some(number)
    } else {
        None
    }
}

/// Appends the prefix and the decimal form of the number; if memory runs out, it appends nothing.
pub fn append_decimal<A: Allocator>(
    out: &mut Vec<u8, A>,
    prefix: &[u8],
    number: u16,
) -> Result<(), Memory>
    ensures appended { OnOk result (out.new.items ≡ out.old.items ++ (prefix.now ++ decimal number)) }
    ensures kept { OnErr result (out.new.items ≡ out.old.items) }
{
    let mut buffer = Buffer::new();
    let digits = buffer.format(number).as_bytes();
    out.reserve(prefix.len() + digits.len())?;
    out.extend_from_slice(prefix)?;
    out.extend_from_slice(digits)
}
