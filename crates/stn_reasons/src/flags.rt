//! Flags of a command that the plan of its log can't serve.

ghost use Rattle.std.specs.Prelude.{◌≡◌, ◌++◌, OnOk, option_map};
ghost use Rattle.stn_lift.specs.PlanSource.{plan_source};
ghost use Rattle.stn_reasons.specs.Flags as spec;

use std::alloc::Allocator;
use stn_lift::{Base, Source};
use stn_line::{Line, LogChange, LogQuestion, NameWords};
use stn_site::{Piece, append_pieces};
use stn_text::append_decimal;
use stn_time::Memory;

/// What is said of `--names` and `--plan`, where the plan of the log can't have names in this way.
pub fn refused_names<A: Allocator>(line: &Line<'_>, base: &Base<A>) -> Option<&'static str>
    ensures { option_map (λ text. text.now) result ≡ spec.names_refused line.now base.now }
{
    match line {
        Line::Ask(_, _, names) => names_text(names, base.source()),
        _ => None,
    }
}

// The same, of a plan with this source.
fn names_text<A: Allocator>(names: &NameWords<'_>, source: &Source<A>) -> Option<&'static str>
    ensures { option_map (λ text. text.now) result ≡ spec.names_by names.now.own names.now.plan (plan_source source.now) }
{
    match (names.own, names.plan, source) {
        (true, Some(_), _) => Some("--names, --plan: give one of them alone"),
        (true, None, Source::Bare(_)) => {
            Some("--names: the log has no names of its own (give --plan=PLAN)")
        }
        (false, Some(_), Source::Files(_, _)) => {
            Some("--plan: the log has names of its own (shown by steps, draw and --names)")
        }
        _ => None,
    }
}

/// The file that a command takes names from, where it names one.
pub fn names_file<'a>(line: &Line<'a>) -> Option<&'a str>
    ensures { option_map (λ name. name.now) result ≡ spec.names_file line.now }
{
    match line {
        Line::Ask(_, _, names) => names.plan,
        _ => None,
    }
}

/// The flag by which a command names steps, where it has one.
pub fn steps_flag(line: &Line<'_>) -> Option<&'static str>
    ensures { option_map (λ flag. flag.now) result ≡ spec.steps_flag line.now }
{
    match line {
        Line::Change(_, LogChange::Guard { .. }) | Line::Ask(_, LogQuestion::Draw(_), _) => {
            Some("--own")
        }
        Line::Ask(_, LogQuestion::Foresee { choice, .. }, _) => choice.steps.and(Some("--steps")),
        _ => None,
    }
}

/// Appends the line for a flag that names a step that a plan of so many steps lacks. If memory runs out, a part of it may stand there.
pub fn append_flag<A: Allocator>(flag: &str, steps: u16, out: &mut Vec<u8, A>) -> Result<(), Memory>
    ensures { OnOk result (out.new.items ≡ out.old.items ++ spec.flag_text steps flag.now) }
{
    out.extend_from_slice(flag.as_bytes())?;
    out.extend_from_slice(b": ")?;
    append_steps(steps, out)?;
    out.extend_from_slice(b"\n")
}

// Appends which steps a plan of so many has.
fn append_steps<A: Allocator>(steps: u16, out: &mut Vec<u8, A>) -> Result<(), Memory>
    ensures { OnOk result (out.new.items ≡ out.old.items ++ spec.all_steps_text steps) }
{
    match steps {
        0 => out.extend_from_slice(b"the plan has no step"),
        1 => out.extend_from_slice(b"the plan has one step"),
        steps => append_decimal(out, b"the plan has steps 1 to ", steps),
    }
}

/// Appends the line for a file of names whose plan has another number of steps than so many, those of the log. If memory runs out, a
/// part of it may stand there.
pub fn append_names_count<A: Allocator>(
    name: &str,
    steps: u16,
    out: &mut Vec<u8, A>,
) -> Result<(), Memory>
    ensures { OnOk result (out.new.items ≡ out.old.items ++ spec.names_count_text steps name.now) }
{
    append_pieces(
        out,
        &[
            Piece::Text(name.as_bytes()),
            Piece::Text(b": its plan has another number of steps than the log's ("),
            Piece::Number(steps),
            Piece::Text(b")\n"),
        ],
    )
}
