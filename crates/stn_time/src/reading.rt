ghost use Rattle.std.specs.{Prelude.{◌≡◌, ◌==◌, ℤ, pos, neg_ℤ, ◌^◌, ◌<◌, ◌≤◌, ◌↔◌, if◌then◌else◌, min, length, drop, slice_index_or, MatchOption}, Char.{is_ascii_digit, digit_value}, List.{list_all, prefix_len}, Option.option_copied, Str.Parse.{AllDigits, digits_value}};
ghost use Rattle.stn_time.specs.{Text.{IsOutOfRange, IsTimeForm, IsTooFine, SpellsTime, millis_of, thousandths_of, these_parts}, TimeOf.{fraction_of, is_numeral, parts_of, time_of, time_of_found}, Near.IsNear, Time.IsWithinHorizon, Failures.time_failure};

use crate::millis::{HORIZON, Ms};
use stn_refusal::{Code, Failure};
use thiserror::Error;

/// Why a text is no time, in the order in which the faults are looked for.
#[derive(Clone, Copy, Debug, PartialEq, Eq, Error)]
pub enum TimeFault {
    /// The text has not the form of a time.
    #[error("not a time in seconds, as 7 or -0.250")]
    Malformed,
    /// A digit past the third after the point is not 0.
    #[error("a time finer than a millisecond")]
    TooFine,
    /// The time lies beyond `HORIZON`, on either side of zero.
    #[error("a time beyond the horizon")]
    OutOfRange,
}

impl From<TimeFault> for Failure {
    ghost from_gives = { λ fault given. given ≡ time_failure fault };

    fn from(fault: TimeFault) -> Failure {
        match fault {
            TimeFault::Malformed => Failure::refused(Code::Malformed),
            TimeFault::TooFine => Failure::refused(Code::TooFine),
            TimeFault::OutOfRange => Failure::refused(Code::OutOfRange),
        }
    }
}

/// The least number of whole seconds beyond the horizon.
const BEYOND: u64 = HORIZON as u64 / 1000 + 1;

/// The parts of a text that has the form of a time; no digits after the point where there is no point.
#[derive(Clone, Copy)]
struct Parts<'a> {
    negative: bool,
    whole: &'a [u8],
    fraction: &'a [u8],
}

impl Ms {
    /// The time that a text spells: an optional `-`, one digit or more for the whole seconds, and optionally a point
    /// and one digit or more. Leading zeros are accepted, and digits past the third after the point have to be 0.
    ///
    /// The faults come in this order: `Malformed`, `TooFine`, `OutOfRange`.
    pub fn read(text: &[u8]) -> Result<Ms, TimeFault>
        ensures value { result ≡ time_of text.now }
        ensures time { (millis : ℤ) →
            (result ≡ Ok millis) ↔ (SpellsTime text.now millis × IsWithinHorizon millis) }
        ensures malformed { (result ≡ Err TimeFault.Malformed) ↔ (¬ IsTimeForm text.now) }
        ensures too_fine { (result ≡ Err TimeFault.TooFine) ↔ IsTooFine text.now }
        ensures out_of_range { (result ≡ Err TimeFault.OutOfRange) ↔ IsOutOfRange text.now }

        // A text spells one number at most.
        ensures unique { (m : ℤ) → (n : ℤ) → SpellsTime text.now m → SpellsTime text.now n → m ≡ n }
    {
        match Parts::of(text) {
            Some(parts) => parts.time(),
            None => Err(TimeFault::Malformed),
        }
    }
}

impl<'a> Parts<'a> {
    fn of(text: &'a [u8]) -> Option<Parts<'a>>
        ensures { MatchOption result (parts_of text.now ≡ None)
            (λ p. parts_of text.now ≡ Some (these_parts p.negative p.whole.now p.fraction.now)) }
    {
        let negative = text.first() == Some(&b'-');
        let unsigned = if negative { &text[1..] } else { text };
        let (whole, rest) = unsigned.split_at(digits_len(unsigned));
        if whole.is_empty() {
            return None;
        }
        let fraction = fraction_of(rest)?;
        Some(Parts {
            negative,
            whole,
            fraction,
        })
    }

    fn time(self) -> Result<Ms, TimeFault>
        requires whole { AllDigits 10 self.whole.now }
        requires fraction { AllDigits 10 self.fraction.now }
        ensures { result ≡ time_of_found (Some
            (these_parts self.entry.negative self.entry.whole.now self.entry.fraction.now)) }
    {
        if !is_fine(self.fraction) {
            return Err(TimeFault::TooFine);
        }
        Ms::new(self.millis()).ok_or(TimeFault::OutOfRange)
    }

    // The milliseconds of the parts; beyond the horizon, some number beyond it.
    fn millis(self) -> i64
        requires whole { AllDigits 10 self.whole.now }
        requires fraction { AllDigits 10 self.fraction.now }
        ensures { IsNear (millis_of
            (these_parts self.entry.negative self.entry.whole.now self.entry.fraction.now)) result }
    {
        let size = 1000 * seconds(self.whole) + thousandths(self.fraction);
        signed(self.negative, size)
    }
}

fn signed(negative: bool, size: u64) -> i64
    requires { size < 2 ^ 63 }
    ensures { result ≡ (if negative then neg_ℤ (pos size) else pos size) }
{
    if negative {
        -(size as i64)
    } else {
        size as i64
    }
}

// How many digits the bytes begin with.
fn digits_len(bytes: &[u8]) -> usize
    ensures value { result ≡ prefix_len is_ascii_digit bytes.now }
    ensures within { result ≤ length bytes.now }
{
    for (i, byte) in bytes.iter().enumerate() {
        if !byte.is_ascii_digit() {
            return i;
        }
    }
    bytes.len()
}

fn fraction_of(rest: &[u8]) -> Option<&[u8]>
    ensures { option_copied result ≡ fraction_of rest.now }
{
    match rest.split_first() {
        None => Some(rest),
        Some((point, digits)) if *point == b'.' && is_numeral(digits) => Some(digits),
        Some(_) => None,
    }
}

fn is_numeral(bytes: &[u8]) -> bool
    ensures { result ≡ is_numeral bytes.now }
{
    !bytes.is_empty() && digits_len(bytes) == bytes.len()
}

fn is_fine(fraction: &[u8]) -> bool
    ensures { result ≡ list_all (λ digit. digit == 48) (drop 3 fraction.now) }
{
    fraction.iter().skip(3).all(|digit| *digit == b'0')
}

// The number that the digits write, or `BEYOND` where it is greater.
fn seconds(digits: &[u8]) -> u64
    requires { AllDigits 10 digits.now }
    ensures { result ≡ min BEYOND (digits_value 10 digits.now) }
{
    let mut seconds = 0;
    for digit in digits {
        seconds = (10 * seconds + u64::from(digit - b'0')).min(BEYOND);
    }
    seconds
}

fn thousandths(fraction: &[u8]) -> u64
    requires { AllDigits 10 fraction.now }
    ensures value { result ≡ thousandths_of fraction.now }
    ensures small { result < 1000 }
{
    100 * digit_at(fraction, 0) + 10 * digit_at(fraction, 1) + digit_at(fraction, 2)
}

// The digit at a place, 0 where there is none.
fn digit_at(digits: &[u8], place: usize) -> u64
    requires { AllDigits 10 digits.now }
    ensures value { result ≡ digit_value (slice_index_or digits.now place 48) }
    ensures small { result < 10 }
{
    if place < digits.len() {
        u64::from(digits[place] - b'0')
    } else {
        0
    }
}
