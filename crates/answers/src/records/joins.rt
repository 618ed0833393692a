use crate::records::print::{Said, Shown, append_all, append_said, said_of_join};
use crate::records::questions::append_new;
use std::alloc::Global;
use stn_records::{IdMap, Join, MapValue, Records, State};
use stn_time::Memory;

// What both sites hold, as a new value.
fn append_joined(
    ours: &Records<Global>,
    theirs: &Records<Global>,
    out: &mut Vec<u8>,
) -> Result<(), Memory> {
    match ours.joined(theirs) {
        Ok(all) => append_new(all, out),
        Err(fault) => append_said(&Err(fault), out),
    }
}

// Takes in what each site holds, one after the other.
fn take_both<T: Join>(all: &mut T, ours: &T, theirs: &T) -> Said {
    match all.take(ours) {
        Ok(()) => said_of_join(&all.take(theirs)),
        Err(fault) => said_of_join(&Err(fault)),
    }
}

// What two maps have, taken one after the other by none.
fn join_maps<X: MapValue + Shown>(
    ours: &IdMap<X, Global>,
    theirs: &IdMap<X, Global>,
    out: &mut Vec<u8>,
) -> Result<(), Memory> {
    let mut all = IdMap::new(*out.allocator());
    let said = take_both(&mut all, ours, theirs);
    append_said(&said, out)?;
    append_all(all.entries(), out)
}

fn append_state(said: &Said, all: &State<Global>, out: &mut Vec<u8>) -> Result<(), Memory> {
    append_said(said, out)?;
    append_all(all.additions().entries(), out)?;
    out.extend_from_slice(b" -")?;
    append_all(all.tombstones().entries(), out)?;
    if !all.replacements().entries().is_empty() {
        out.extend_from_slice(b" -")?;
    }
    append_all(all.replacements().entries(), out)
}

fn join_states(
    ours: &State<Global>,
    theirs: &State<Global>,
    out: &mut Vec<u8>,
) -> Result<(), Memory> {
    let mut all = State::new(*out.allocator());
    let said = take_both(&mut all, ours, theirs);
    let answer = append_state(&said, &all, out);
    drop(all);
    answer
}

// Appends a join of what both sites hold, or of a part of it.
pub fn append_join(
    call: &str,
    ours: &Records<Global>,
    theirs: &Records<Global>,
    out: &mut Vec<u8>,
) -> Result<(), Memory> {
    let (one, other) = (ours.state(), theirs.state());
    match call {
        "join" => append_joined(ours, theirs, out),
        "join_additions" => join_maps(one.additions(), other.additions(), out),
        "join_tombstones" => join_maps(one.tombstones(), other.tombstones(), out),
        "join_amendments" => join_maps(one.replacements(), other.replacements(), out),
        "join_states" => join_states(one, other, out),
        _ => out.extend_from_slice(b"no such call"),
    }
}
