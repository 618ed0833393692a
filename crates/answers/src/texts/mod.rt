//! Texts, one a line after the word `time`, `domain` or `plan`, and the answer to each; in a text `~` stands for a line feed. A line
//! `padded <count> ..` has so many spaces after its text; a line `hex <word> <digits>` has a text in hex.
//!
//! Of a time it prints 0, the milliseconds, and the time as it is printed; of a domain two zeros; of a plan 0 and the number of its
//! steps; of a fault its code and its line, or 0. A line `millis <number>` prints so many milliseconds as a time. A line that
//! begins with `=` is a heading, and is printed as it is.
//!
//! A line `with <domain>` has the domain of the plans that are lifted after it, one each on a line `lift <plan>`. Of such a plan it
//! prints the base bounds in their order and then the planned times of the events, or the code of the fault and its argument.

mod lifted;
mod read;

use crate::texts::lifted::print_lifted;
use crate::texts::read::{print_answer, print_time};
use crate::words::{bytes_of, cut_word};
use std::alloc::{AllocError, Global};
use std::io;

// How many spaces stand after the text of a row, and the rest of the row.
fn padding(row: &str) -> (usize, &str) {
    match row.strip_prefix("padded ") {
        Some(padded) => {
            let (count, rest) = cut_word(padded);
            (count.parse::<usize>().unwrap_or(0), rest)
        }
        None => (0, row),
    }
}

// A text with a line feed for each `~`, and so many spaces after it.
fn text_of(alloc: Global, text: &str, spaces: usize) -> Result<String, AllocError> {
    let mut text = text.replace(alloc, "~", "\n")?;
    for _ in 0..spaces {
        text.push(' ')?;
    }
    Ok(text)
}

// Prints the answer to the text of a row.
fn answer_text(rt: &HostRuntime, row: &str) -> io::Result<()> {
    let (spaces, rest) = padding(row);
    let (word, text) = cut_word(rest);
    let text = text_of(rt.alloc(), text, spaces)?;
    print_answer(rt, word, text.as_bytes())
}

// Prints the answer to a text in hex.
fn answer_hex(rt: &HostRuntime, rest: &str) -> io::Result<()> {
    let (word, digits) = cut_word(rest);
    let text = bytes_of(rt.alloc(), digits)?;
    print_answer(rt, word, &text)
}

fn take_domain(alloc: Global, domain: &mut String, text: &str) -> io::Result<()> {
    *domain = text_of(alloc, text, 0)?;
    Ok(())
}

fn lift(rt: &HostRuntime, domain: &str, text: &str) -> io::Result<()> {
    let plan = text_of(rt.alloc(), text, 0)?;
    print_lifted(rt, domain, &plan)
}

/// Prints the answer to a row, or takes its domain for the plans after it.
pub fn answer(rt: &HostRuntime, domain: &mut String, row: &str) -> io::Result<()> {
    if row.starts_with('=') {
        println!(rt; "{row}")
    } else if let Some(number) = row.strip_prefix("millis ") {
        print_time(rt, number.parse().unwrap_or(0))
    } else if let Some(rest) = row.strip_prefix("hex ") {
        answer_hex(rt, rest)
    } else if let Some(text) = row.strip_prefix("with ") {
        take_domain(rt.alloc(), domain, text)
    } else if let Some(text) = row.strip_prefix("lift ") {
        lift(rt, domain, text)
    } else {
        answer_text(rt, row)
    }
}
