use crate::records::joins::append_join;
use crate::records::print::{Shown, append_all, append_id, append_number};
use crate::records::words::{next_id, next_place, next_site};
use std::alloc::Global;
use std::str::SplitWhitespace;
use stn_net::Bound;
use stn_records::{Id, Mark, PartFault, Record, Records, Site};
use stn_time::Memory;

// The records, replaced or not.
fn append_records(records: &Records<Global>, out: &mut Vec<u8>) -> Result<(), Memory> {
    for place in 0..=records.known() {
        if let Some((id, mark, bound)) = records.record_at(place) {
            Record { mark, bound }.append(id, out)?;
        }
    }
    Ok(())
}

// After a dash the withdrawn ids.
fn append_withdrawn(records: &Records<Global>, out: &mut Vec<u8>) -> Result<(), Memory> {
    out.extend_from_slice(b" -")?;
    for place in 0..=records.known() {
        if let Some(id) = records.tombstone_at(place) {
            append_id(id, out)?;
        }
    }
    Ok(())
}

// After a dash the entries of amendments, where there are any.
fn append_entries(records: &Records<Global>, out: &mut Vec<u8>) -> Result<(), Memory> {
    for place in 0..=records.known() {
        if let Some((id, old)) = records.entry_at(place) {
            if place == 0 {
                out.extend_from_slice(b" -")?;
            }
            old.append(id, out)?;
        }
    }
    Ok(())
}

// All that is held.
fn append_held(records: &Records<Global>, out: &mut Vec<u8>) -> Result<(), Memory> {
    out.extend_from_slice(b"held")?;
    append_records(records, out)?;
    append_withdrawn(records, out)?;
    append_entries(records, out)
}

// All that a new value holds, which is then let go of.
pub fn append_new(records: Records<Global>, out: &mut Vec<u8>) -> Result<(), Memory> {
    let answer = append_held(&records, out);
    drop(records);
    answer
}

fn append_replaced(replaced: &[(Id, ())], out: &mut Vec<u8>) -> Result<(), Memory> {
    out.extend_from_slice(b"replaced")?;
    append_all(replaced, out)
}

fn next_entry(records: &Records<Global>, words: &mut SplitWhitespace<'_>) -> Option<(Id, Id)> {
    records.entry_at(next_place(words)?)
}

// The entry at a place.
fn append_entry_at(entry: Option<(Id, Id)>, out: &mut Vec<u8>) -> Result<(), Memory> {
    out.extend_from_slice(b"entry")?;
    match entry {
        Some((id, old)) => old.append(id, out),
        None => out.extend_from_slice(b" none"),
    }
}

fn append_listed(live: &[(Id, Mark, Bound)], out: &mut Vec<u8>) -> Result<(), Memory> {
    out.extend_from_slice(b"live")?;
    for &(id, mark, bound) in live {
        Record { mark, bound }.append(id, out)?;
    }
    Ok(())
}

fn append_live(records: &Records<Global>, out: &mut Vec<u8>) -> Result<(), Memory> {
    let live = records.live()?;
    let answer = append_listed(&live, out);
    drop(live);
    answer
}

// The next counter of a site.
fn append_next(
    records: &Records<Global>,
    site: Option<Site>,
    out: &mut Vec<u8>,
) -> Result<(), Memory> {
    let Some(site) = site else {
        return out.extend_from_slice(b"no site");
    };
    match records.next_counter(site) {
        Ok(counter) => append_number(usize::from(counter), out),
        Err(_) => out.extend_from_slice(b"spent"),
    }
}

// The parts of an id.
fn append_parts(id: Id, out: &mut Vec<u8>) -> Result<(), Memory> {
    append_number(usize::from(id.site().number()), out)?;
    out.push(b' ')?;
    append_number(usize::from(id.counter()), out)
}

// The parts of an id and its text, and whether its record is live.
fn append_id_read(
    records: &Records<Global>,
    id: Option<Id>,
    out: &mut Vec<u8>,
) -> Result<(), Memory> {
    let Some(id) = id else {
        return out.extend_from_slice(b"no id");
    };
    append_parts(id, out)?;
    append_id(id, out)?;
    out.extend_from_slice(if records.is_live(id) { b" live" } else { b"" })
}

// Takes in the ids up to a dash, and those after it.
fn take_parts(
    words: &mut SplitWhitespace<'_>,
    records: &mut Vec<Id>,
    tombstones: &mut Vec<Id>,
) -> Result<(), Memory> {
    take_ids(words, records)?;
    take_ids(words, tombstones)
}

// Takes in the ids up to a dash, or all that are left.
fn take_ids(words: &mut SplitWhitespace<'_>, ids: &mut Vec<Id>) -> Result<(), Memory> {
    for word in words {
        match Id::read(word.as_bytes()) {
            Some(id) => ids.push(id)?,
            None => break,
        }
    }
    Ok(())
}

fn append_copy(records: &Records<Global>, out: &mut Vec<u8>) -> Result<(), Memory> {
    append_new(records.copy()?, out)
}

fn append_part(
    ours: &Records<Global>,
    records: &[Id],
    tombstones: &[Id],
    out: &mut Vec<u8>,
) -> Result<(), Memory> {
    match ours.part(records, tombstones) {
        Ok(part) => append_new(part, out),
        Err(PartFault::Unknown) => out.extend_from_slice(b"unknown"),
        Err(PartFault::Memory) => out.extend_from_slice(b"memory"),
    }
}

// The part of the records of ids, and after a dash withdrawn ids.
fn append_part_of(
    ours: &Records<Global>,
    words: &mut SplitWhitespace<'_>,
    out: &mut Vec<u8>,
) -> Result<(), Memory> {
    let mut records = Vec::new(*out.allocator());
    let mut tombstones = Vec::new(*out.allocator());
    take_parts(words, &mut records, &mut tombstones)?;
    append_part(ours, &records, &tombstones, out)
}

// Appends the answer to a question, or to a join of what both sites hold.
pub fn append_answer(
    call: &str,
    ours: &Records<Global>,
    theirs: &Records<Global>,
    words: &mut SplitWhitespace<'_>,
    out: &mut Vec<u8>,
) -> Result<(), Memory> {
    match call {
        "held" => append_held(ours, out),
        "live" => append_live(ours, out),
        "replaced" => append_replaced(ours.replaced(), out),
        "entry_at" => append_entry_at(next_entry(ours, words), out),
        "known" => append_number(ours.known(), out),
        "next" => append_next(ours, next_site(words), out),
        "id" => append_id_read(ours, next_id(words), out),
        "copy" => append_copy(ours, out),
        "part" => append_part_of(ours, words, out),
        _ => append_join(call, ours, theirs, out),
    }
}
