ghost use Rattle.std.specs.{Prelude.{◌≡◌, ◌+◌, ◌<◌, ◌≤◌, ℕ, length, slice_index_or, All}, List.Sorted.IsPermutation};
ghost use Rattle.stn_net.specs.{Event.most_events, Matrix.{Closed.IsClosed, Table.entry, Way.{AreNearer, AreRuns, IsOnWay}}};

use crate::matrix::square::{Arc, Square};
use std::alloc::Allocator;

// How many columns begin a run. Measured on matrices of the bounds of the scripts of bench/bench.py, which make none any more:
// without runs the bounds of `windows` took 1,108 million instructions in place of 366, and those of `conflict` 1,332 in place
// of 519. With ten, `conflict` took two in a hundred more; with twelve, and eight in place of five below, `merges` two in a
// hundred more, and `amended` three.
const HUBS: usize = 11;

// Every eighth row is asked whether it changes. To put the columns into runs without asking takes six in a hundred more
// instructions in `windows`, and eleven in a hundred in the matrices of `merges`.
const SAMPLED: usize = 8;

// If so many of those asked change, the columns are put into runs.
const MANY: usize = 5;

// Columns, and for each the place at which its run ends: the columns after it, up to there, are those
// of events to which a tightest way from the arc's end leads by its own. So where its entry does not
// change, none of its run does.
#[derive(Clone, Copy)]
pub(crate) struct Runs<'a> {
    pub columns: &'a [u16],
    pub ends: &'a [u16],
}

// A column, and by how much it comes nearer.
#[derive(Clone, Copy)]
struct Hub {
    column: u16,
    gain: i64,
}

// Puts the columns into runs, where many rows change; else each is a run of its own.
pub(crate) fn arrange<A: Allocator>(
    square: &Square<A>,
    arc: &Arc,
    columns: &mut [u16],
    ends: &mut [u16],
)
    requires closed { IsClosed square.now.events (entry square.now) }
    requires from { arc.now.from ≤ square.now.events }
    requires to { arc.now.to ≤ square.now.events }
    requires alike { length ends.old ≡ length columns.old }
    requires few { length columns.old ≤ most_events + 1 }
    requires nearer { AreNearer square.now.events (entry square.now) arc.now.from arc.now.to arc.now.weight columns.old (square.now.events + 1) }
    ensures nearer { AreNearer square.now.events (entry square.now) arc.now.from arc.now.to arc.now.weight columns.new (square.now.events + 1) }
    ensures runs { AreRuns (entry square.now) arc.now.to columns.new ends.new }
{
    count_up(ends);
    if changes_many_rows(square, arc) {
        group(square, arc, columns, ends);
    }
}

// Writes the number of the next place to each place.
fn count_up(ends: &mut [u16])
    requires { length ends.old ≤ most_events + 1 }
    ensures long { length ends.new ≡ length ends.old }
    ensures next { (i : ℕ) → i < length ends.old → slice_index_or ends.new i 0 ≡ i + 1 }
{
    for place in 0..ends.len() {
        ends[place] = place as u16 + 1;
    }
}

// Whether the arc's end comes nearer to many rows, by those that are asked.
fn changes_many_rows<A: Allocator>(square: &Square<A>, arc: &Arc) -> bool
    requires closed { IsClosed square.now.events (entry square.now) }
    requires from { arc.now.from ≤ square.now.events }
    requires to { arc.now.to ≤ square.now.events }
{
    let from = usize::from(arc.from.number());
    let to = usize::from(arc.to.number());
    let weight = arc.weight.get();
    let mut many = 0;
    for sample in 0..=usize::from(square.events()) / SAMPLED {
        let row = SAMPLED * sample;
        if square.entry(row, from) + weight < square.entry(row, to) {
            many += 1;
        }
    }
    many >= MANY
}

// Puts columns into runs: those that come nearer by most each get what is left of the columns beyond
// them, the one that comes nearer by least first.
fn group<A: Allocator>(square: &Square<A>, arc: &Arc, columns: &mut [u16], ends: &mut [u16])
    requires closed { IsClosed square.now.events (entry square.now) }
    requires from { arc.now.from ≤ square.now.events }
    requires to { arc.now.to ≤ square.now.events }
    requires alike { length ends.old ≡ length columns.old }
    requires few { length columns.old ≤ most_events + 1 }
    requires nearer { AreNearer square.now.events (entry square.now) arc.now.from arc.now.to arc.now.weight columns.old (square.now.events + 1) }
    requires alone { (i : ℕ) → i < length ends.old → slice_index_or ends.old i 0 ≡ i + 1 }
    ensures nearer { AreNearer square.now.events (entry square.now) arc.now.from arc.now.to arc.now.weight columns.new (square.now.events + 1) }
    ensures runs { AreRuns (entry square.now) arc.now.to columns.new ends.new }
{
    let hubs = hubs_of(square, arc, columns);
    let mut begin = 0;
    for hub in &hubs {
        if begin < columns.len() {
            let end = gather(square, arc, columns, begin, hub.column);
            ends[begin] = end as u16;
            begin = end;
        }
    }
}

// The columns that come nearer by most, the one that does so by least first.
fn hubs_of<A: Allocator>(square: &Square<A>, arc: &Arc, columns: &[u16]) -> [Hub; HUBS]
    requires closed { IsClosed square.now.events (entry square.now) }
    requires from { arc.now.from ≤ square.now.events }
    requires to { arc.now.to ≤ square.now.events }
    requires within { All (λ y. y ≤ square.now.events) columns.now }
{
    let own = square.row(usize::from(arc.from.number()));
    let onward = square.row(usize::from(arc.to.number()));
    let mut hubs = [Hub {
        column: 0,
        gain: i64::MIN,
    }; HUBS];
    for column in columns {
        let place = usize::from(*column);
        let gain = own[place] - onward[place];
        if hubs[0].gain < gain {
            let column = *column;
            rise(&mut hubs, Hub { column, gain });
        }
    }
    hubs
}

// Puts a hub in place of the first, and moves it up to where it belongs.
fn rise(hubs: &mut [Hub; HUBS], hub: Hub) {
    hubs[0] = hub;
    for place in 1..HUBS {
        if hub.gain <= hubs[place].gain {
            return;
        }
        hubs.swap(place - 1, place);
    }
}

// Puts the hub, or some column where it is not left, at `begin`, and after it those of the columns
// from there on that lie beyond it; answers where these end.
fn gather<A: Allocator>(
    square: &Square<A>,
    arc: &Arc,
    columns: &mut [u16],
    begin: usize,
    hub: u16,
) -> usize
    requires closed { IsClosed square.now.events (entry square.now) }
    requires to { arc.now.to ≤ square.now.events }
    requires begin { begin < length columns.old }
    requires within { All (λ y. y ≤ square.now.events) columns.old }
    ensures permutation { IsPermutation columns.old columns.new }
    ensures kept { (i : ℕ) → i < begin → slice_index_or columns.new i 0 ≡ slice_index_or columns.old i 0 }
    ensures begins { begin < result }
    ensures ends { result ≤ length columns.old }
    ensures beyond { (i : ℕ) → begin < i → i < result
        → IsOnWay (entry square.now) arc.now.to (slice_index_or columns.new begin 0) (slice_index_or columns.new i 0) }
{
    let there = place_of(columns, begin, hub);
    columns.swap(begin, there);
    let first = usize::from(columns[begin]);
    let own = square.row(usize::from(arc.to.number()));
    let onward = square.row(first);
    let far = own[first];
    let mut end = begin + 1;
    for place in begin + 1..columns.len() {
        let column = usize::from(columns[place]);
        if far + onward[column] <= own[column] {
            columns.swap(end, place);
            end += 1;
        }
    }
    end
}

// The first place of the column from `begin` on, or else `begin`.
fn place_of(columns: &[u16], begin: usize, column: u16) -> usize
    requires { begin < length columns.now }
    ensures least { begin ≤ result }
    ensures within { result < length columns.now }
{
    for place in begin..columns.len() {
        if columns[place] == column {
            return place;
        }
    }
    begin
}
