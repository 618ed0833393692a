//! What single words of a command say.

ghost use Rattle.std.specs.Prelude.{◌≡◌, ◌⊎◌, ◌++◌, ◌∷◌, [], pos, option_map, Ok, Err, MatchResult};
ghost use Rattle.stn_refusal.specs.Refusals.{out_of_memory};
ghost use Rattle.stn_command.specs.Words.{each_read};
ghost use Rattle.stn_asked.specs.Words as said;

use std::alloc::Allocator;
use stn_command::{no_such_word, read_owned, read_steps};
use stn_loosen::Tolerance;
use stn_net::Event;
use stn_questions::Question;
use stn_records::Id;
use stn_refusal::Failure;
use stn_site::{AskedBound, OwnedSteps, StepRange};
use stn_time::{HORIZON, Ms};

/// What a word of a command should be.
#[derive(Clone, Copy, Debug, PartialEq, Eq)]
pub enum Form {
    /// An event, as `s1`.
    Event,
    /// The id of a record, as `1.2`.
    Id,
    /// A time in seconds.
    Time,
    /// A time that is not below 0.
    Tolerance,
    /// Steps, as `2,4-6`.
    Steps,
    /// Steps of a site, as `2:4-6`, that no word before gives to a site.
    Owned,
    /// `yes` or `no`.
    YesNo,
}

/// A word that can't be read, what it should be, and why: it says nothing, or memory ran out.
#[derive(Clone, Copy)]
pub struct RefusedWord<'a> {
    pub word: &'a str,
    pub form: Form,
    pub failure: Failure,
}

impl<'a> From<RefusedWord<'a>> for Failure {
    ghost from_gives = { λ refused given. given ≡ refused.failure };

    fn from(refused: RefusedWord<'a>) -> Failure {
        refused.failure
    }
}

// What was read of a word.
fn as_word<'a, T: Drop>(
    form: Form,
    word: &'a str,
    read: Result<T, Failure>,
) -> Result<T, RefusedWord<'a>>
    ensures { result ≡ said.as_word form word.entry read }
{
    match read {
        Ok(value) => Ok(value),
        Err(failure) => Err(RefusedWord {
            word,
            form,
            failure,
        }),
    }
}

/// The event that a word names.
pub fn read_event(word: &str) -> Result<Event, RefusedWord<'_>>
    ensures { result ≡ said.event_read word.entry }
{
    let event = stn_command::read_event(word.as_bytes());
    as_word(Form::Event, word, event.ok_or(no_such_word()))
}

/// The id that a word names.
pub fn read_id(word: &str) -> Result<Id, RefusedWord<'_>>
    ensures { result ≡ said.id_read word.entry }
{
    let id = stn_command::read_id(word.as_bytes());
    as_word(Form::Id, word, id.ok_or(no_such_word()))
}

/// The time that a word spells.
pub fn read_time(word: &str) -> Result<Ms, RefusedWord<'_>>
    ensures { result ≡ said.moment_read word.entry }
{
    as_word(Form::Time, word, stn_command::read_time(word.as_bytes()))
}

// The time that a word spells; another one, where there is no word.
fn read_time_or(word: Option<&str>, other: Ms) -> Result<Ms, RefusedWord<'_>>
    ensures { result ≡ said.moment_or other word.entry }
{
    match word {
        Some(word) => read_time(word),
        None => Ok(other),
    }
}

/// The times that words spell.
pub fn read_times<'a, A: Allocator>(
    alloc: A,
    words: &[&'a str],
) -> Result<Vec<Ms, A>, RefusedWord<'a>>
    ensures { MatchResult result (λ times. each_read said.moment_read words.now ≡ Ok times.items)
        (λ refused. (refused.failure ≡ out_of_memory) ⊎ (each_read said.moment_read words.now ≡ Err refused)) }
{
    let mut times = Vec::new(alloc);
    'words: for word in words {
        let time = read_time(*word)?;
        as_word(Form::Time, *word, push(&mut times, time))?;
    }
    Ok(times)
}

// Appends a time.
fn push<A: Allocator>(times: &mut Vec<Ms, A>, time: Ms) -> Result<(), Failure>
    ensures { MatchResult result (λ _. times.new.items ≡ times.old.items ++ (time ∷ [])) (λ failure. failure ≡ out_of_memory) }
{
    times.push(time)?;
    Ok(())
}

/// The time that a word spells, where there is one.
pub fn read_present(word: Option<&str>) -> Result<Option<Ms>, RefusedWord<'_>>
    ensures { result ≡ said.given_read said.moment_read word.entry }
{
    match word {
        Some(word) => Ok(Some(read_time(word)?)),
        None => Ok(None),
    }
}

/// The steps that a word names, where there is one.
pub fn read_chosen<'a, A: Allocator + Copy>(
    alloc: A,
    word: Option<&'a str>,
) -> Result<Option<Vec<StepRange, A>>, RefusedWord<'a>>
    ensures { MatchResult result (λ steps. said.given_read said.chosen_read word.entry ≡ Ok (option_map (λ all. all.items) steps))
        (λ refused. (refused.failure ≡ out_of_memory) ⊎ (said.given_read said.chosen_read word.entry ≡ Err refused)) }
{
    match word {
        Some(word) => {
            let steps = as_word(Form::Steps, word, read_steps(alloc, word))?;
            Ok(Some(steps))
        }
        None => Ok(None),
    }
}

/// The steps that words give to sites.
pub fn read_all_owned<'a, A: Allocator + Copy>(
    alloc: A,
    words: &[&'a str],
) -> Result<Vec<OwnedSteps, A>, RefusedWord<'a>>
    ensures { MatchResult result (λ owned. said.all_owned words.now ≡ Ok owned.items)
        (λ refused. (refused.failure ≡ out_of_memory) ⊎ (said.all_owned words.now ≡ Err refused)) }
{
    let mut owned = Vec::new(alloc);
    'words: for word in words {
        as_word(Form::Owned, *word, read_owned(alloc, &mut owned, *word))?;
    }
    Ok(owned)
}

/// Whether there are arrows: a word says yes or no, and no word yes.
pub fn read_arrows(word: Option<&str>) -> Result<bool, RefusedWord<'_>>
    ensures { result ≡ said.arrows_read word.entry }
{
    match word {
        Some("yes") | None => Ok(true),
        Some("no") => Ok(false),
        Some(word) => as_word(Form::YesNo, word, Err(no_such_word())),
    }
}

/// The question why, about the event of a word, or about the events of two.
pub fn read_why<'a>(event: &'a str, to: Option<&'a str>) -> Result<Question, RefusedWord<'a>>
    ensures { result ≡ said.why_read event.entry to.entry }
{
    let from = read_event(event)?;
    match to {
        Some(word) => Ok(Question::WhyApart(from, read_event(word)?)),
        None => Ok(Question::Why(from)),
    }
}

/// The bound that the words of two events and of its two sides spell; a side without a word is open.
#[tactic(auto, unfolding(crate::specs::Words::bound_read))]
pub fn read_bound<'a>(
    from: &'a str,
    to: &'a str,
    lo: Option<&'a str>,
    hi: Option<&'a str>,
) -> Result<AskedBound, RefusedWord<'a>>
    ensures { result ≡ said.bound_read from.entry to.entry lo.entry hi.entry }
{
    let from = read_event(from)?;
    let to = read_event(to)?;
    let lo = read_time_or(lo, Ms::new(-HORIZON).unwrap())?;
    let hi = read_time_or(hi, Ms::new(HORIZON).unwrap())?;
    Ok(AskedBound::new(from, to, lo, hi))
}

/// The tolerance that the words of two times spell; a time without a word is 0.
///
/// Refused in this order: as `Ms::read` refuses the word of `early`, then that of `late`; as 70 where `early`, then where
/// `late`, is below 0.
#[tactic(auto, unfolding(crate::specs::Words::slack_read))]
pub fn read_tolerance<'a>(
    early: Option<&'a str>,
    late: Option<&'a str>,
) -> Result<Tolerance, RefusedWord<'a>>
    ensures { result ≡ said.slack_read early.entry late.entry }
{
    let early_time = read_time_or(early, no_time())?;
    let late_time = read_time_or(late, no_time())?;
    let less = not_below(early, early_time)?;
    let more = not_below(late, late_time)?;
    Ok(Tolerance::new(less, more).unwrap())
}

// The time 0.
fn no_time() -> Ms
    ensures { result ≡ pos 0 }
{
    Ms::new(0).unwrap()
}

// The time of a word, which may not be below 0.
fn not_below(word: Option<&str>, time: Ms) -> Result<Ms, RefusedWord<'_>>
    ensures { result ≡ said.not_below word.entry time }
{
    match word {
        Some(word) if time.get() < 0 => as_word(Form::Tolerance, word, Err(no_such_word())),
        _ => Ok(time),
    }
}
