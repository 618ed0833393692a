ghost use Rattle.std.specs.{Prelude.{◌≡◌, ◌+◌, ◌^◌, ◌<◌, ◌≤◌, ◌∷◌, true, false, length, min, Ok, IfSome, IfNone, IfOk, IfErr, codes}, Option.option_map};
ghost use Rattle.stn_text.specs.Lines.{lines_of, words_of};
ghost use Rattle.stn_effects.specs.Effects.{seen};
ghost use Rattle.stn_lift.specs.PlanSource.{bare, files, plan_source, base_of};
ghost use Rattle.stn_exec.specs.{Blocks.{is_alone, block_from}, Heading.{seen_found, seen_block, IsOpened, IsHeadingFailure, IsMade, IsRead}, Script.{is_skipped, next_line, or_line, heading_number, refusing_fault, block_at, named_block, bare_part, files_part, based, heading_of}};

use std::alloc::Allocator;
use std::rc::Rc;
use stn_lift::{Base, Source};
use stn_refusal::{Code, Failure};
use stn_site::SitePlan;
use stn_text::{first_line, first_word, read_number};
use stn_world::World;

/// A line that is not skipped: its number, its first word, what stands after the word, and the text
/// after the line.
#[derive(Clone, Copy)]
pub struct FoundLine<'a> {
    pub number: u32,
    pub word: &'a [u8],
    pub rest: &'a [u8],
    pub behind: &'a [u8],
}

/// The rest of a script: the number of its first line, and its text.
#[derive(Clone, Copy)]
pub struct Rest<'a> {
    pub number: u32,
    pub text: &'a [u8],
}

/// A block of a heading: its lines, each with its LF, and what stands after the line that ends it.
#[derive(Clone, Copy)]
pub struct HeadingBlock<'a> {
    pub text: &'a [u8],
    pub behind: Rest<'a>,
}

/// Reads the heading of a script: its sites, which hold nothing yet, and its commands; `last` is the
/// number of the line after its last LF.
pub fn open<A: Allocator + Copy>(
    alloc: A,
    last: u32,
    script: &[u8],
) -> Result<(World<A, SitePlan<A>>, Rest<'_>), Failure>
    requires { length script.now < 2 ^ 31 }
    ensures opened { IfOk result (λ opened. IsOpened (heading_of last (lines_of script.now)) opened.0 opened.1) }
    ensures within { IfOk result (λ opened. opened.1.number + length opened.1.text.now ≤ length script.now + 1) }
    ensures refused { IfErr result (IsHeadingFailure (heading_of last (lines_of script.now))) }
{
    let (base, behind) = read_base(alloc, last, script)?;
    let found = wanted_line(last, behind.number, behind.text)?;
    let sites = read_value(b"sites", found)?;
    let rest = Rest {
        number: found.number + 1,
        text: found.behind,
    };
    let world = World::of_plans(alloc, Rc::new(alloc, base)?, saturated(sites))?;
    Ok((world, rest))
}

// The number as a byte, or the greatest byte if it is too large for one.
fn saturated(number: u32) -> u8
    ensures { result ≡ min number u8.MAX }
{
    u8::try_from(number).unwrap_or(u8::MAX)
}

// The base that the first part of a heading gives, and what stands after that part.
fn read_base<A: Allocator + Copy>(
    alloc: A,
    last: u32,
    script: &[u8],
) -> Result<(Base<A>, Rest<'_>), Failure>
    requires { length script.now < 2 ^ 31 }
    ensures read { IsRead (based last (lines_of script.now)) result }
    ensures within { IfOk result (λ read. read.1.number + length read.1.text.now ≤ length script.now + 1) }
{
    let found = wanted_line(last, 1, script)?;
    if stands_alone(b"domain", found.word, found.rest) {
        read_files(alloc, last, found)
    } else {
        read_bare(alloc, found)
    }
}

// The base of the bare plan that a line names, and what stands after the line.
fn read_bare<A: Allocator + Copy>(
    alloc: A,
    found: FoundLine<'_>,
) -> Result<(Base<A>, Rest<'_>), Failure>
    requires { found.number + 1 + length found.behind.now < 2 ^ 32 }
    ensures read { IsRead (bare_part (seen_found found.entry)) result }
    ensures within { IfOk result (λ read. read.1.number + length read.1.text.now ≤ found.entry.number + 1 + length found.entry.behind.now) }
{
    let steps = read_value(b"steps", found)?;
    let base = bare_base(alloc, u16::try_from(steps).unwrap_or(u16::MAX))?;
    let rest = Rest {
        number: found.number + 1,
        text: found.behind,
    };
    Ok((base, rest))
}

// The base of a bare plan of so many steps.
fn bare_base<A: Allocator + Copy>(alloc: A, steps: u16) -> Result<Base<A>, Failure>
    ensures { IsMade (refusing_fault (base_of (bare steps))) result }
{
    make_base(alloc, &Source::Bare(steps))
}

// The base of the domain and the plan after the line `domain`, and what stands after both.
fn read_files<A: Allocator + Copy>(
    alloc: A,
    last: u32,
    found: FoundLine<'_>,
) -> Result<(Base<A>, Rest<'_>), Failure>
    requires { found.number + 1 + length found.behind.now < 2 ^ 32 }
    ensures read { IsRead (files_part last (seen_found found.entry)) result }
    ensures within { IfOk result (λ read. read.1.number + length read.1.text.now ≤ found.entry.number + 1 + length found.entry.behind.now) }
{
    let domain = read_block(last, found.number + 1, found.behind)?;
    let next = wanted_line(last, domain.behind.number, domain.behind.text)?;
    let plan = read_named_block(last, b"plan", next)?;
    let base = base_of_files(alloc, domain.text, plan.text)?;
    Ok((base, plan.behind))
}

// The base of a domain and a plan.
fn base_of_files<A: Allocator + Copy>(
    alloc: A,
    domain: &[u8],
    plan: &[u8],
) -> Result<Base<A>, Failure>
    ensures { IsMade (refusing_fault (base_of (files domain.now plan.now))) result }
{
    let domain = Vec::from_slice(alloc, domain)?;
    let plan = Vec::from_slice(alloc, plan)?;
    make_base(alloc, &Source::Files(domain, plan))
}

// The base of a source.
fn make_base<A: Allocator + Copy>(alloc: A, source: &Source<A>) -> Result<Base<A>, Failure>
    ensures { IsMade (refusing_fault (base_of (plan_source source.now))) result }
{
    Ok(Base::from_source(alloc, source)?)
}

// The block after a line that is its name alone.
fn read_named_block<'a>(
    last: u32,
    name: &[u8],
    found: FoundLine<'a>,
) -> Result<HeadingBlock<'a>, Failure>
    requires { found.number + 1 + length found.behind.now < 2 ^ 32 }
    ensures block { seen seen_block result ≡ named_block last name.now (seen_found found.entry) }
    ensures within { IfOk result (λ block. block.behind.number + length block.behind.text.now ≤ found.entry.number + 1 + length found.entry.behind.now) }
{
    if stands_alone(name, found.word, found.rest) {
        read_block(last, found.number + 1, found.behind)
    } else {
        Err(Failure::refused_at(Code::Line, found.number))
    }
}

// The block whose first line has this number.
fn read_block<'a>(last: u32, number: u32, text: &'a [u8]) -> Result<HeadingBlock<'a>, Failure>
    requires { number + length text.now < 2 ^ 32 }
    ensures block { seen seen_block result ≡ block_at last number (lines_of text.now) }
    ensures within { IfOk result (λ block. block.behind.number + length block.behind.text.now ≤ number + length text.now) }
{
    find_end(number, text).ok_or(Failure::refused_at(Code::Line, last))
}

// The block of a text whose first line has this number, up to the first line that is the word `end`.
fn find_end(number: u32, text: &[u8]) -> Option<HeadingBlock<'_>>
    requires { number + length text.now < 2 ^ 32 }
    ensures block { option_map seen_block result ≡ block_from number (lines_of text.now) }
    ensures within { IfSome result (λ block. block.behind.number + length block.behind.text.now ≤ number + length text.now) }
{
    let mut at = number;
    let mut left = text;
    while !left.is_empty() {
        let (line, behind) = first_line(left);
        if is_end(line) {
            return Some(HeadingBlock {
                text: &text[..text.len() - left.len()],
                behind: Rest {
                    number: at + 1,
                    text: behind,
                },
            });
        }
        at += 1;
        left = behind;
    }
    None
}

// Whether the line is the word `end`.
fn is_end(line: &[u8]) -> bool
    ensures { result ≡ is_alone (codes "end") (words_of line.now) }
{
    match first_word(line) {
        Some((word, rest)) => stands_alone(b"end", word, rest),
        None => false,
    }
}

// Whether a line is a name alone, by its first word and what stands after it.
fn stands_alone(name: &[u8], word: &[u8], rest: &[u8]) -> bool
    ensures { result ≡ is_alone name.now (word.now ∷ words_of rest.now) }
{
    first_word(rest).is_none() && word == name
}

// The number of a line that is a name and a number.
fn read_value(name: &[u8], found: FoundLine<'_>) -> Result<u32, Failure>
    ensures { result ≡ or_line found.entry.number (heading_number name.now (seen_found found.entry).words) }
{
    value_after(name, found.word, found.rest).ok_or(Failure::refused_at(Code::Line, found.number))
}

// The number of such a line, by its first word and what stands after it.
fn value_after(name: &[u8], word: &[u8], rest: &[u8]) -> Option<u32>
    ensures { result ≡ heading_number name.now (word.now ∷ words_of rest.now) }
{
    let (digits, behind) = first_word(rest)?;
    if first_word(behind).is_some() || word != name {
        return None;
    }
    read_number(digits)
}

// The first line that is not skipped, of a text whose first line has this number.
fn wanted_line(last: u32, number: u32, text: &[u8]) -> Result<FoundLine<'_>, Failure>
    requires { number + length text.now < 2 ^ 32 }
    ensures found { seen seen_found result ≡ or_line last (next_line number (lines_of text.now)) }
    ensures within { IfOk result (λ found. found.number + 1 + length found.behind.now ≤ number + length text.now) }
{
    find_line(number, text).ok_or(Failure::refused_at(Code::Line, last))
}

// The same line, if there is one.
fn find_line(number: u32, text: &[u8]) -> Option<FoundLine<'_>>
    requires { number + length text.now < 2 ^ 32 }
    ensures found { option_map seen_found result ≡ next_line number (lines_of text.now) }
    ensures within { IfSome result (λ found. found.number + 1 + length found.behind.now ≤ number + length text.now) }
{
    let mut at = number;
    let mut left = text;
    while !left.is_empty() {
        let (line, behind) = first_line(left);
        if let Some((word, rest)) = opening_word(line) {
            return Some(FoundLine {
                number: at,
                word,
                rest,
                behind,
            });
        }
        at += 1;
        left = behind;
    }
    None
}

/// The first word of a line, and what stands after it; none where the line has no words, or is a
/// comment.
pub fn opening_word(line: &[u8]) -> Option<(&[u8], &[u8])>
    ensures skipped { IfNone result (is_skipped (words_of line.now) ≡ true) }
    ensures kept { IfSome result (λ parts. is_skipped (words_of line.now) ≡ false) }
    ensures cut { IfSome result (λ parts. words_of line.now ≡ parts.0.now ∷ words_of parts.1.now) }
{
    match first_word(line) {
        Some((word, rest)) => {
            if word.first() == Some(&b'#') {
                None
            } else {
                Some((word, rest))
            }
        }
        None => None,
    }
}
