// What the words of a call say.
ghost use Rattle.std.specs.Prelude.{IfSome};
ghost use Rattle.stn_records.specs.Record.{IsProper};

use std::str::SplitWhitespace;
use stn_net::{Bound, Event};
use stn_records::{Id, Mark, Site};
use stn_time::Ms;

pub fn next_word<'a>(words: &mut SplitWhitespace<'a>) -> &'a str {
    words.next().unwrap_or("")
}

pub fn next_id(words: &mut SplitWhitespace<'_>) -> Option<Id> {
    Id::read(next_word(words).as_bytes())
}

pub fn next_site(words: &mut SplitWhitespace<'_>) -> Option<Site> {
    Site::new(next_word(words).parse::<u8>().ok()?)
}

// A place among entries, counted from 0.
pub fn next_place(words: &mut SplitWhitespace<'_>) -> Option<usize> {
    next_word(words).parse::<usize>().ok()
}

fn next_time(words: &mut SplitWhitespace<'_>) -> Option<Ms> {
    Ms::read(next_word(words).as_bytes()).ok()
}

// The bound from the origin to an event, between two times.
pub fn next_bound(words: &mut SplitWhitespace<'_>) -> Option<Bound> {
    let to = Event::read(next_word(words).as_bytes());
    match (to, next_time(words), next_time(words)) {
        (Some(to), Some(lo), Some(hi)) => Bound::new(512, Event::origin(), to, lo, hi).ok(),
        _ => None,
    }
}

// The bound of s1 that was run at a time.
pub fn next_run(words: &mut SplitWhitespace<'_>) -> Option<Bound>
    ensures { IfSome result (λ bound. IsProper Mark.Done bound) }
{
    match (next_time(words), Event::new(1)) {
        (Some(time), Some(to)) => Bound::new(512, Event::origin(), to, time, time).ok(),
        _ => None,
    }
}
