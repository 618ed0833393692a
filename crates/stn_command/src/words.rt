//! What single words say.

ghost use Rattle.std.specs.Prelude.{◌≡◌, option_map};
ghost use Rattle.stn_command.specs.Words.{event_of, id_of, time_read, side_read, bound_between, no_such_word};

use stn_net::Event;
use stn_records::Id;
use stn_refusal::{Code, Failure};
use stn_site::AskedBound;
use stn_time::{HORIZON, Ms};

/// The event that a word names.
pub fn read_event(word: &[u8]) -> Option<Event>
    ensures { result ≡ event_of word.now }
{
    Event::read(word)
}

/// The id that a word names.
pub fn read_id(word: &[u8]) -> Option<Id>
    ensures { result ≡ id_of word.now }
{
    Id::read(word)
}

/// The time that a word spells. Refused as `Ms::read` refuses it.
pub fn read_time(word: &[u8]) -> Result<Ms, Failure>
    ensures { result ≡ time_read word.now }
{
    match Ms::read(word) {
        Ok(time) => Ok(time),
        Err(fault) => Err(Failure::from(fault)),
    }
}

// The side of a bound that a word spells, or the open one where there is no word.
fn read_side(word: Option<&[u8]>, open_side: Ms) -> Result<Ms, Failure>
    ensures { result ≡ side_read open_side (option_map (λ one. one.now) word.entry) }
{
    match word {
        Some(word) => read_time(word),
        None => Ok(open_side),
    }
}

/// The bound from one event to another whose sides words spell; a side without a word is open.
///
/// Refused as `Ms::read` refuses the word of the lower side, then that of the upper.
pub fn read_between(
    from: Event,
    to: Event,
    lo: Option<&[u8]>,
    hi: Option<&[u8]>,
) -> Result<AskedBound, Failure>
    ensures { result ≡ bound_between from to (option_map (λ one. one.now) lo.entry) (option_map (λ one. one.now) hi.entry) }
{
    let lo = read_side(lo, Ms::new(-HORIZON).unwrap())?;
    let hi = read_side(hi, Ms::new(HORIZON).unwrap())?;
    Ok(AskedBound::new(from, to, lo, hi))
}

/// Words that are not of the form that a command wants, where no line of a script is to be named.
pub fn no_such_word() -> Failure
    ensures { result ≡ no_such_word }
{
    Failure::refused_at(Code::Line, 0)
}
