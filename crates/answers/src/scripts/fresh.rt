use crate::scripts::output::output_of;
use crate::scripts::replicas::Replicas;
use std::alloc::{AllocError, Global};
use std::io;

// Whether both outputs begin with that of the script alone, and then are one text that is not empty, before
// which the second says that a merge was done.
fn are_same(before: &[u8], ours: &[u8], theirs: &[u8]) -> bool {
    match (ours.strip_prefix(before), theirs.strip_prefix(before)) {
        (Some(report), Some(more)) => match more.strip_prefix(b"merged\n".as_slice()) {
            Some(other) => report == other && report.starts_with(b"plan ".as_slice()),
            None => false,
        },
        _ => false,
    }
}

fn prints_same(alloc: Global, script: &str, ours: &str, theirs: &str) -> bool {
    are_same(
        &output_of(alloc, script),
        &output_of(alloc, ours),
        &output_of(alloc, theirs),
    )
}

// Whether a site reports the same after the script as site 64, of which the script makes no use, once that has
// merged it.
fn is_same_at(alloc: Global, script: &str, site: u8) -> Result<bool, AllocError> {
    let ours = format!(in alloc; "{script}{site} report\n")?;
    let theirs = format!(in alloc; "{script}64 merge {site}\n64 report\n")?;
    Ok(prints_same(alloc, script, &ours, &theirs))
}

// Whether the first so many sites do so.
fn are_same_at(alloc: Global, script: &str, sites: u8) -> Result<bool, AllocError> {
    for before in 0..sites {
        if !is_same_at(alloc, script, before.saturating_add(1))? {
            return Ok(false);
        }
    }
    Ok(true)
}

// The last line of a script's heading, counted from 0, and the number of sites that it says.
#[derive(Clone, Copy)]
struct Heading {
    last: usize,
    sites: u8,
}

// The heading up to the first line `sites <number>`.
fn heading_of(text: &str) -> Option<Heading> {
    for (last, line) in text.lines().enumerate() {
        if let Some(number) = line.strip_prefix("sites ") {
            let sites = number.parse::<u8>().unwrap_or(0);
            return Some(Heading { last, sites });
        }
    }
    None
}

fn append_often(script: &mut String, count: u16, command: &str) -> Result<(), AllocError> {
    for _ in 0..count {
        script.push_str(command)?;
        script.push('\n')?;
    }
    Ok(())
}

// Appends a line of a script: so many times `<command>`, of a line `* <number> <command>`, else the line itself.
fn append_line(script: &mut String, line: &str) -> Result<(), AllocError> {
    match line.strip_prefix("* ") {
        Some(repeated) => {
            let (count, command) = repeated.split_once(' ').unwrap_or(("0", ""));
            append_often(script, count.parse::<u16>().unwrap_or(0), command)
        }
        None => append_often(script, 1, line),
    }
}

// Makes the changes of a line, as `append_line` appends them.
fn follow_line(replicas: &mut Replicas, line: &str) {
    match line.strip_prefix("* ") {
        Some(repeated) => {
            let (count, command) = repeated.split_once(' ').unwrap_or(("0", ""));
            for _ in 0..count.parse::<u16>().unwrap_or(0) {
                let _ = replicas.follow(command);
            }
        }
        None => {
            let _ = replicas.follow(line);
        }
    }
}

// The number of the first line of a text after which a site reports otherwise than a new one, or its replica otherwise than a new
// replica.
fn find_difference(
    script: &mut String,
    replicas: &mut Replicas,
    text: &str,
    heading: Heading,
) -> Result<Option<usize>, AllocError> {
    let alloc = *script.allocator();
    for (place, line) in text.lines().enumerate() {
        let last = place == heading.last;
        append_line(script, if last { "sites 64" } else { line })?;
        if place > heading.last {
            follow_line(replicas, line);
        }
        let is_opened = place >= heading.last;
        if is_opened && !(are_same_at(alloc, script, heading.sites)? && replicas.are_fresh()) {
            return Ok(Some(place.saturating_add(1)));
        }
    }
    Ok(None)
}

fn difference(alloc: Global, text: &str, heading: Heading) -> Result<Option<usize>, AllocError> {
    let Some(mut replicas) = Replicas::open(alloc, text, heading.sites) else {
        return Ok(Some(0));
    };
    let mut script = String::new(alloc);
    let place = find_difference(&mut script, &mut replicas, text, heading);
    drop(script);
    drop(replicas);
    place
}

fn print_compared(rt: &HostRuntime, name: &str, text: &str, heading: Heading) -> io::Result<()> {
    match difference(rt.alloc(), text, heading)? {
        Some(line) => println!(rt; "{name} line {line} differs"),
        None => {
            let times = text.lines().count().saturating_sub(heading.last);
            println!(rt;
                "{name} {} same",
                times.saturating_mul(usize::from(heading.sites))
            )
        }
    }
}

/// Compares the reports of a script, and prints how many were the same, or the first that was not.
pub fn compare(rt: &HostRuntime, name: &str, text: &str) -> io::Result<()> {
    match heading_of(text) {
        Some(heading) => print_compared(rt, name, text, heading),
        None => println!(rt; "{name} has no heading"),
    }
}
