//! The steps that words name.

ghost use Rattle.std.specs.{Prelude.{◌≡◌, ◌⊎◌, ◌<◌, ◌==◌, Ok, Err, map, option_map, IfOk, OnErr, MatchResult}, List.slice_split};
ghost use Rattle.stn_refusal.specs.Refusals.{out_of_memory};
ghost use Rattle.stn_command.specs.Steps as named;
ghost use Rattle.stn_command.specs.Words.{each_read};

use crate::words::no_such_word;
use std::alloc::{AllocError, Allocator};
use stn_records::{MOST_SITES, Site};
use stn_refusal::Failure;
use stn_site::{OwnedSteps, StepRange};
use stn_text::read_number;
use stn_time::Memory;

/// The steps that a word names: numbers and ranges of them with `,` between, as `2,4-6`.
///
/// Refused as 70 where the word is not of this form, or names a step 0, or a range that falls. Lack of memory may come in place
/// of any answer.
#[tactic(auto, unfolding(crate::specs::Steps::steps_read))]
pub fn read_steps<A: Allocator + Copy>(alloc: A, word: &str) -> Result<Vec<StepRange, A>, Failure>
    ensures { MatchResult result (λ steps. named.steps_read word.now ≡ Ok steps.items)
        (λ failure. (failure ≡ out_of_memory) ⊎ (named.steps_read word.now ≡ Err failure)) }
{
    let parts = parts_of(alloc, word)?;
    read_ranges(alloc, &parts)
}

// The parts of a word, with `,` between.
fn parts_of<'a, A: Allocator>(alloc: A, word: &'a str) -> Result<Vec<&'a str, A>, AllocError>
    ensures { IfOk result (λ parts. map (λ part. part.now) parts.items ≡ slice_split (λ byte. byte == 44) word.now) }
{
    word.split(',').collect(alloc)
}

// The ranges that words name.
fn read_ranges<A: Allocator>(alloc: A, words: &[&str]) -> Result<Vec<StepRange, A>, Failure>
    ensures { MatchResult result (λ ranges. each_read named.range_read (map (λ word. word.now) words.now) ≡ Ok ranges.items)
        (λ failure. (failure ≡ out_of_memory) ⊎ (each_read named.range_read (map (λ word. word.now) words.now) ≡ Err failure)) }
{
    let mut ranges = Vec::new(alloc);
    'words: for word in words {
        let range = read_range(*word)?;
        ranges.push(range)?;
    }
    Ok(ranges)
}

/// Adds the steps that a word gives to a site, as `2:4-6`. After an error nothing is added.
///
/// Refused as 70 where the word is not of this form, or names a step 0, a range that falls, a site that is not from 1 to 64, or a
/// step that is given already. Lack of memory may come in place of any answer.
#[tactic(auto, unfolding(crate::specs::Steps::owned_too))]
pub fn read_owned<A: Allocator + Copy>(
    alloc: A,
    owned: &mut Vec<OwnedSteps, A>,
    word: &str,
) -> Result<(), Failure>
    ensures read { MatchResult result (λ _. named.owned_too owned.old.items word.now ≡ Ok owned.new.items)
        (λ failure. (failure ≡ out_of_memory) ⊎ (named.owned_too owned.old.items word.now ≡ Err failure)) }
    ensures kept { OnErr result (owned.new.items ≡ owned.old.items) }
{
    let more = read_own(alloc, word)?;
    if share_steps(owned, &more) {
        return Err(no_such_word());
    }
    owned.extend_from_slice(&more)?;
    Ok(())
}

// The steps that a word gives to a site.
#[tactic(auto, unfolding(crate::specs::Steps::owned_read))]
fn read_own<A: Allocator + Copy>(alloc: A, word: &str) -> Result<Vec<OwnedSteps, A>, Failure>
    ensures { MatchResult result (λ owned. named.owned_read word.now ≡ Ok owned.items)
        (λ failure. (failure ≡ out_of_memory) ⊎ (named.owned_read word.now ≡ Err failure)) }
{
    match around(word, ':') {
        Some((site, steps)) => {
            let site = read_site(site)?;
            let steps = read_steps(alloc, steps)?;
            Ok(owned_by(alloc, site, &steps)?)
        }
        None => Err(no_such_word()),
    }
}

// The ranges, as steps of a site.
fn owned_by<A: Allocator>(
    alloc: A,
    site: Site,
    ranges: &[StepRange],
) -> Result<Vec<OwnedSteps, A>, Memory>
    ensures { IfOk result (λ owned. owned.items ≡ map (λ range. record { site = site; steps = range }) ranges.now) }
{
    let mut owned = Vec::new(alloc);
    for range in ranges {
        owned.push(OwnedSteps {
            site,
            steps: *range,
        })?;
    }
    Ok(owned)
}

// Whether the two lists have a step in common.
fn share_steps(given: &[OwnedSteps], more: &[OwnedSteps]) -> bool
    ensures { result ≡ named.share_steps given.now more.now }
{
    more.iter().any(|one| is_given(given, &one.steps))
}

// Whether one of the range's steps was given.
fn is_given(given: &[OwnedSteps], range: &StepRange) -> bool
    ensures { result ≡ named.is_given given.now range.now }
{
    given.iter().any(|one| share_step(&one.steps, range))
}

// Whether the two ranges have a step in common.
fn share_step(one: &StepRange, other: &StepRange) -> bool
    ensures { result ≡ named.share_step one.now other.now }
{
    one.first <= other.last && other.first <= one.last
}

// The range that a word names: two numbers with `-` between, or one.
fn read_range(word: &str) -> Result<StepRange, Failure>
    ensures { result ≡ named.range_read word.now }
{
    let (first, last) = around(word, '-').unwrap_or((word, word));
    let first = read_digits(first)?;
    let last = read_digits(last)?;
    steps_between(first, last)
}

// The steps from the first to the last.
fn steps_between(first: u32, last: u32) -> Result<StepRange, Failure>
    ensures { result ≡ named.steps_between first last }
{
    if 1 <= first && first <= last {
        Ok(StepRange { first, last })
    } else {
        Err(no_such_word())
    }
}

// The site of a number.
fn read_site(word: &str) -> Result<Site, Failure>
    ensures { result ≡ named.site_read word.now }
{
    let number = read_digits(word)?;
    if 1 <= number && number <= MOST_SITES as u32 {
        Ok(Site::new(number as u8).unwrap())
    } else {
        Err(no_such_word())
    }
}

// The number of one to five digits that a word is.
fn read_digits(word: &str) -> Result<u32, Failure>
    ensures { result ≡ named.digits_read word.now }
{
    read_number(word.as_bytes()).ok_or(no_such_word())
}

// The parts of a word before the first mark and after it, where it has one.
fn around<'a>(word: &'a str, mark: char) -> Option<(&'a str, &'a str)>
    requires { mark < 128 }
    ensures { option_map (λ parts. (parts.0.now, parts.1.now)) result ≡ named.around mark word.now }
{
    word.split_once(mark)
}
