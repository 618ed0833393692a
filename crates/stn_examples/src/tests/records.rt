ghost use Rattle.std.specs.Prelude.{◌≤◌};

use crate::tests::sweep::{Call, judged, requests};
use std::alloc::Global;
use stn_net::{Bound, Event};
use stn_records::{Id, Mark, PartFault, Records, RecordsFault, Site};
use stn_refusing::{Outcome, Refusing};
use stn_time::Ms;

fn id(site: u8, counter: u16) -> Id
    requires site { (1 ≤ site) × (site ≤ 64) }
    requires counter { 1 ≤ counter }
{
    Id::new(Site::new(site).unwrap(), counter).unwrap()
}

fn bound() -> Bound {
    let lo = Ms::new(2_000).unwrap();
    let hi = Ms::new(10_000).unwrap();
    Bound::new(1, Event::origin(), Event::new(1).unwrap(), lo, hi).unwrap()
}

// Adds a record of site 1, and buries an id of site 2, of this counter.
fn put(records: &mut Records<&Refusing<Global>>, counter: u16) -> bool
    requires { 1 ≤ counter }
{
    records.add(id(1, counter), Mark::Plain, bound()).is_ok()
        && records.bury(id(2, counter)).is_ok()
}

// Adds records of site 1 with the counters from the first to the last, and buries as many ids of site 2.
fn fill(records: &mut Records<&Refusing<Global>>, first: u16, last: u16) -> bool
    requires { 1 ≤ first }
{
    let mut filled = true;
    for counter in first..=last {
        filled = filled && put(records, counter);
    }
    filled
}

/// A call that changes what is held.
#[derive(Clone, Copy)]
pub enum Change {
    Add,
    Withdraw,
    Bury,
}

// Whether the record was added, or memory was lacking.
fn added(records: &mut Records<&Refusing<Global>>) -> (bool, bool) {
    let answer = records.add(id(3, 1), Mark::Plain, bound());
    (answer == Ok(()), answer == Err(RecordsFault::Memory))
}

fn withdrawn(records: &mut Records<&Refusing<Global>>) -> (bool, bool) {
    let answer = records.withdraw(id(1, 1));
    (answer == Ok(()), answer == Err(RecordsFault::Memory))
}

fn buried(records: &mut Records<&Refusing<Global>>) -> (bool, bool) {
    let answer = records.bury(id(3, 1));
    (answer == Ok(()), answer == Err(RecordsFault::Memory))
}

// Whether the call was accepted, or memory was lacking.
fn changed(records: &mut Records<&Refusing<Global>>, change: Change) -> (bool, bool) {
    match change {
        Change::Add => added(records),
        Change::Withdraw => withdrawn(records),
        Change::Bury => buried(records),
    }
}

// Whether so many ids are known, and the first record is live or not.
fn holds(records: &Records<&Refusing<Global>>, known: usize, live: bool) -> bool {
    records.known() == known && records.is_live(id(1, 1)) == live
}

// Whether all is as it must be after the call.
fn is_changed(records: &Records<&Refusing<Global>>, change: Change) -> bool {
    match change {
        Change::Add | Change::Bury => holds(records, 33, true),
        Change::Withdraw => holds(records, 32, false),
    }
}

// What the call answers one of whose requests is refused. The same call is then accepted.
fn change_twice(
    heap: &Refusing<Global>,
    number: u64,
    records: &mut Records<&Refusing<Global>>,
    change: Change,
) -> Outcome {
    heap.refuse(number);
    let (done, memory) = changed(records, change);
    let right = done && is_changed(records, change);
    let unchanged = memory && holds(records, 32, true);
    let answer = judged(heap, right, unchanged);
    let (again, _) = changed(records, change);
    answer.only_if(again)
}

/// What a change of sixteen records and as many withdrawn ids answers while a request is refused. One more of each asks for memory.
pub fn change_refused(heap: &Refusing<Global>, number: u64, change: Change) -> Outcome {
    let mut records = Records::new(heap);
    let filled = fill(&mut records, 1, 16);
    let answer = change_twice(heap, number, &mut records, change);
    drop(records);
    answer.only_if(filled)
}

#[test]
fn changes_of_records(rt: HostRuntime) {
    for change in [Change::Add, Change::Withdraw, Change::Bury] {
        assert!(rt; requests(&rt, rt.alloc(), Call::Change(change)) > 1);
    }
}

// What is taken while a request is refused. The same call is then accepted.
fn take_twice<'a>(
    heap: &Refusing<Global>,
    number: u64,
    ours: &mut Records<&'a Refusing<Global>>,
    theirs: &Records<&'a Refusing<Global>>,
) -> Outcome {
    heap.refuse(number);
    let answer = ours.take(theirs);
    let right = answer == Ok(()) && ours.known() == 40;
    let unchanged = answer == Err(RecordsFault::Memory) && ours.known() == 24;
    judged(heap, right, unchanged).only_if(ours.take(theirs).is_ok())
}

// What another site, which holds some of these records, takes of them.
fn taken<'a>(
    heap: &'a Refusing<Global>,
    number: u64,
    theirs: &Records<&'a Refusing<Global>>,
) -> Outcome {
    let mut ours = Records::new(heap);
    let filled = fill(&mut ours, 1, 12);
    let answer = take_twice(heap, number, &mut ours, theirs);
    drop(ours);
    answer.only_if(filled)
}

/// What another site takes of the records while a request is refused.
pub fn take_refused(heap: &Refusing<Global>, number: u64) -> Outcome {
    let mut theirs = Records::new(heap);
    let filled = fill(&mut theirs, 9, 20);
    let answer = taken(heap, number, &theirs);
    drop(theirs);
    answer.only_if(filled)
}

#[test]
fn takes(rt: HostRuntime) {
    assert!(rt; requests(&rt, rt.alloc(), Call::Take) > 2);
}

/// A call that makes a value of what is held.
#[derive(Clone, Copy)]
pub enum Reading {
    Part,
    Copy,
    Live,
}

// Whether these records, which are then let go of, know so many ids.
fn knows(records: Records<&Refusing<Global>>, known: usize) -> bool {
    let right = records.known() == known;
    drop(records);
    right
}

// Whether a part was made that knows the ids asked for, or memory was lacking.
fn is_part(records: &Records<&Refusing<Global>>) -> (bool, bool) {
    match records.part(&[id(1, 6), id(1, 5)], &[id(2, 5), id(2, 6), id(2, 5)]) {
        Ok(part) => (knows(part, 4), false),
        Err(fault) => (false, fault == PartFault::Memory),
    }
}

// Whether a copy was made that knows as many ids, or memory was lacking.
fn is_copied(records: &Records<&Refusing<Global>>) -> (bool, bool) {
    match records.copy() {
        Ok(copy) => (knows(copy, 24), false),
        Err(_) => (false, true),
    }
}

// Whether all records are listed, or memory was lacking.
fn is_listed(records: &Records<&Refusing<Global>>) -> (bool, bool) {
    match records.live() {
        Ok(live) => (live.len() == 12, false),
        Err(_) => (false, true),
    }
}

fn is_read(records: &Records<&Refusing<Global>>, reading: Reading) -> (bool, bool) {
    match reading {
        Reading::Part => is_part(records),
        Reading::Copy => is_copied(records),
        Reading::Live => is_listed(records),
    }
}

/// What a value that is made of what is held comes to while a request is refused.
pub fn read_refused(heap: &Refusing<Global>, number: u64, reading: Reading) -> Outcome {
    let mut records = Records::new(heap);
    let filled = fill(&mut records, 1, 12);
    heap.refuse(number);
    let (right, memory) = is_read(&records, reading);
    let unchanged = memory && records.known() == 24;
    drop(records);
    judged(heap, right, unchanged).only_if(filled)
}

#[test]
fn readings_of_records(rt: HostRuntime) {
    for (reading, least) in [(Reading::Part, 3), (Reading::Copy, 3), (Reading::Live, 2)] {
        assert!(rt; requests(&rt, rt.alloc(), Call::Reading(reading)) >= least);
    }
}

/// What an id is printed as after a blank while a request is refused.
pub fn print_refused(heap: &Refusing<Global>, number: u64) -> Outcome {
    let mut text = Vec::new(heap);
    let begun = text.push(b' ').is_ok();
    heap.refuse(number);
    let printed = id(64, 65_535).print(&mut text).is_ok();
    let right = printed && text.as_slice() == b" 64.65535".as_slice();
    let unchanged = !printed && text.as_slice() == b" ".as_slice();
    judged(heap, right, unchanged).only_if(begun)
}

#[test]
fn texts_of_ids(rt: HostRuntime) {
    assert!(rt; requests(&rt, rt.alloc(), Call::Print) > 1);
}
