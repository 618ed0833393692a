ghost use Rattle.std.specs.Prelude.{◌≡◌, ◌*◌, option_map};
ghost use Rattle.stn_reasons.specs.Absent as spec;

use stn_command::read_event;
use stn_line::{Line, LogChange, LogQuestion};

/// The first word of a command that names no event of a plan with so many steps, where one does: what a log refuses as 4. The
/// origin is an event, but none that takes place.
pub fn absent_event<'a>(line: &Line<'a>, steps: u16) -> Option<&'a str>
    ensures { option_map (λ word. word.now) result ≡ spec.absent_event steps line.now }
{
    match line {
        Line::Change(_, LogChange::Add { from, to, .. } | LogChange::Amend { from, to, .. }) => {
            absent(*from, 0, steps).or(absent(*to, 0, steps))
        }
        Line::Change(_, LogChange::Done { event, .. }) => absent(*event, 1, steps),
        Line::Ask(_, LogQuestion::Why { event, to }, _) => {
            absent(*event, 0, steps).or(absent_second(*to, steps))
        }
        _ => None,
    }
}

// The word, where it names an event before the first one or after those of the steps.
fn absent(word: &str, first: u16, steps: u16) -> Option<&str>
    ensures { option_map (λ word. word.now) result ≡ spec.absent first steps word.now }
{
    let number = read_event(word.as_bytes())?.number();
    if first <= number && u32::from(number) <= last_of(steps) {
        None
    } else {
        Some(word)
    }
}

// The number of the last event of so many steps.
fn last_of(steps: u16) -> u32
    ensures { result ≡ 2 * steps }
{
    2 * u32::from(steps)
}

// The word, where it is there and names no event of the plan.
fn absent_second(word: Option<&str>, steps: u16) -> Option<&str>
    ensures { option_map (λ word. word.now) result ≡ spec.absent_second steps word.entry }
{
    match word {
        Some(word) => absent(word, 0, steps),
        None => None,
    }
}
