use crate::records::print::Said;
use crate::records::words::{next_bound, next_id, next_run};
use std::alloc::Global;
use std::str::SplitWhitespace;
use stn_net::Bound;
use stn_records::{Id, Mark, Records, Site};

// Each call gives what was said; none where its words do not say what it takes.
fn add(ours: &mut Records<Global>, words: &mut SplitWhitespace<'_>) -> Option<Said> {
    match (next_id(words), next_bound(words)) {
        (Some(id), Some(bound)) => Some(ours.add(id, Mark::Plain, bound)),
        _ => None,
    }
}

fn run(ours: &mut Records<Global>, words: &mut SplitWhitespace<'_>) -> Option<Said> {
    match (next_id(words), next_run(words)) {
        (Some(id), Some(bound)) => Some(ours.add(id, Mark::Done, bound)),
        _ => None,
    }
}

// Adds the records 1.1 to 1.4096, each of this bound.
fn add_all(ours: &mut Records<Global>, site: Site, bound: Bound) -> Said {
    for counter in 1..4_097 {
        if let Some(id) = Id::new(site, counter) {
            ours.add(id, Mark::Plain, bound)?;
        }
    }
    Ok(())
}

fn fill(ours: &mut Records<Global>, words: &mut SplitWhitespace<'_>) -> Option<Said> {
    match (Site::new(1), next_bound(words)) {
        (Some(site), Some(bound)) => Some(add_all(ours, site, bound)),
        _ => None,
    }
}

fn withdraw(ours: &mut Records<Global>, words: &mut SplitWhitespace<'_>) -> Option<Said> {
    Some(ours.withdraw(next_id(words)?))
}

fn bury(ours: &mut Records<Global>, words: &mut SplitWhitespace<'_>) -> Option<Said> {
    Some(ours.bury(next_id(words)?))
}

fn amend(ours: &mut Records<Global>, words: &mut SplitWhitespace<'_>) -> Option<Said> {
    match (next_id(words), next_id(words), next_bound(words)) {
        (Some(id), Some(old), Some(bound)) => Some(ours.amend(id, old, bound)),
        _ => None,
    }
}

fn replace(ours: &mut Records<Global>, words: &mut SplitWhitespace<'_>) -> Option<Said> {
    match (next_id(words), next_id(words), next_bound(words)) {
        (Some(id), Some(old), Some(bound)) => Some(ours.replace(id, old, bound)),
        _ => None,
    }
}

fn take(ours: &mut Records<Global>, theirs: &Records<Global>) -> Option<Said> {
    Some(ours.take(theirs))
}

// Makes a call that changes what the site holds; none where the call is another.
pub fn change(
    call: &str,
    ours: &mut Records<Global>,
    theirs: &Records<Global>,
    words: &mut SplitWhitespace<'_>,
) -> Option<Said> {
    match call {
        "add" => add(ours, words),
        "run" => run(ours, words),
        "fill" => fill(ours, words),
        "take" => take(ours, theirs),
        "amend" => amend(ours, words),
        "replace" => replace(ours, words),
        "withdraw" => withdraw(ours, words),
        "bury" => bury(ours, words),
        _ => None,
    }
}
