//! The log of a command, and the file that a refusal is about.

ghost use Rattle.std.specs.Prelude.{◌≡◌, ◌++◌, OnOk, option_map};
ghost use Rattle.stn_reasons.specs.Reasons as spec;

use crate::telling::append_number;
use std::alloc::Allocator;
use stn_line::{Line, LogChange, NewLog, SiteLog};
use stn_refusal::{Code, Place, Refusal};
use stn_time::Memory;

/// The log of a command; none, where it has none.
pub fn log_of<'l, 'a>(line: &'l Line<'a>) -> Option<&'l SiteLog<'a>>
    ensures { option_map (λ log. log.now) result ≡ spec.log_of line.now }
{
    match line {
        Line::Run | Line::Explain { .. } => None,
        Line::Make(log, _)
        | Line::Change(log, _)
        | Line::Ask(log, ..)
        | Line::Shell { log }
        | Line::Serve { log, .. }
        | Line::Send { log, .. } => Some(log),
    }
}

/// The file of a command that a refusal is about, where its number alone says so: the domain, the plan, the other log of `merge`, or
/// what is there already under the name of a new log.
pub fn refused_file<'a>(line: &Line<'a>, number: u8) -> Option<&'a str>
    ensures { option_map (λ name. name.now) result ≡ spec.file_refused line.now number }
{
    match line {
        Line::Make(log, NewLog::Bare { .. }) => {
            (number == Code::LogThere.number()).then_some(log.name)
        }
        Line::Make(log, NewLog::Init { domain, plan }) => {
            refused_text(log.name, *domain, *plan, number)
        }
        Line::Make(log, NewLog::Loosen { domain, plan, .. }) => {
            refused_text(log.name, *domain, *plan, number)
        }
        Line::Change(_, LogChange::Merge { other }) => {
            (number == Code::OtherPlan.number()).then_some(*other)
        }
        _ => None,
    }
}

// The file that a refusal is about, of those that the log of a plan text is made of.
fn refused_text<'a>(log: &'a str, domain: &'a str, plan: &'a str, number: u8) -> Option<&'a str>
    ensures { option_map (λ name. name.now) result ≡ spec.text_refused log.now domain.now plan.now number }
{
    if is_of_domain(number) {
        Some(domain)
    } else if is_of_plan(number) {
        Some(plan)
    } else if number == Code::LogThere.number() {
        Some(log)
    } else {
        None
    }
}

// Whether a number refuses the text of a domain.
fn is_of_domain(number: u8) -> bool
    ensures { result ≡ spec.refuses_domain number }
{
    Code::DomainTooLong.number() <= number && number <= Code::DomainVariable.number()
}

/// Whether a number refuses the text of a plan.
pub fn is_of_plan(number: u8) -> bool
    ensures { result ≡ spec.refuses_plan number }
{
    Code::PlanTooLong.number() <= number && number <= Code::PastHorizon.number()
}

/// Appends the line that names a file, and the place in it that a refusal names.
pub fn append_file<A: Allocator>(
    name: &str,
    refusal: Refusal,
    out: &mut Vec<u8, A>,
) -> Result<(), Memory>
    ensures { OnOk result (out.new.items ≡ out.old.items ++ spec.file_text name.now refusal) }
{
    out.extend_from_slice(b"see ")?;
    out.extend_from_slice(name.as_bytes())?;
    append_place(refusal, out)?;
    out.extend_from_slice(b"\n")
}

// Appends the place of a refusal in a file: a line of a text, or a step of a plan.
fn append_place<A: Allocator>(refusal: Refusal, out: &mut Vec<u8, A>) -> Result<(), Memory>
    ensures { OnOk result (out.new.items ≡ out.old.items ++ spec.place_words refusal) }
{
    match refusal.place {
        Place::Number(number) => {
            out.extend_from_slice(place_word(refusal.code))?;
            append_number(number as usize, out)
        }
        Place::Nowhere | Place::Event(_) | Place::Id { .. } => Ok(()),
    }
}

// How a place begins: a plan is refused by these numbers for a step, and a text for a line.
fn place_word(number: u8) -> &'static [u8]
    ensures { result.now ≡ spec.place_word number }
{
    if Code::UnknownAction.number() <= number {
        b", step "
    } else {
        b", line "
    }
}
