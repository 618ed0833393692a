// The numbers in a frame, and what they stand for.
ghost use Rattle.std.specs.{Prelude.{◌≡◌, ◌+◌, ◌*◌, ◌≤◌, ◌++◌, length, IsSome, IfSome, OnOk}, Int.{w64, to_be_bytes}};
ghost use Rattle.stn_time.specs.Time.{IsWithinHorizon};
ghost use Rattle.stn_net.specs.Event.{most_events};
ghost use Rattle.stn_records.specs.{Id.{IsSite, IsId}, declared.record.Mark.Mark as MarkOf};
ghost use Rattle.stn_wire.specs.{Spelling.{two, four, id_bytes, width_of, side_width, most_gap, side_bytes, IsLow, IsHigh, bound_bytes, IsBound, mark_byte, record_bytes, IsRecord}, Reading.IsReadFrom, declared.layout.Layout.TheVariants.New};

use crate::layout::Layout;
use std::alloc::Allocator;
use stn_net::{Bound, Event, MOST_EVENTS};
use stn_records::{Id, Mark, Record, Site};
use stn_time::{HORIZON, Memory, Ms};

pub(crate) fn two_of(bytes: &[u8]) -> u16
    requires { length bytes.now ≡ 2 }
    ensures { two result ≡ bytes.now }
{
    u16::from_be_bytes([bytes[0], bytes[1]])
}

pub(crate) fn four_of(bytes: &[u8]) -> u32
    requires { length bytes.now ≡ 4 }
    ensures { four result ≡ bytes.now }
{
    u32::from_be_bytes([bytes[0], bytes[1], bytes[2], bytes[3]])
}

pub(crate) fn eight_of(bytes: &[u8]) -> u64
    requires { length bytes.now ≡ 8 }
    ensures { to_be_bytes w64 result ≡ bytes.now }
{
    u64::from_be_bytes([
        bytes[0], bytes[1], bytes[2], bytes[3], bytes[4], bytes[5], bytes[6], bytes[7],
    ])
}

pub(crate) fn append_two<A: Allocator>(out: &mut Vec<u8, A>, number: u16) -> Result<(), Memory>
    ensures { OnOk result (out.new.items ≡ out.old.items ++ two number) }
{
    out.extend_from_slice(&number.to_be_bytes())
}

pub(crate) fn append_four<A: Allocator>(out: &mut Vec<u8, A>, number: u32) -> Result<(), Memory>
    ensures { OnOk result (out.new.items ≡ out.old.items ++ four number) }
{
    out.extend_from_slice(&number.to_be_bytes())
}

fn append_eight<A: Allocator>(out: &mut Vec<u8, A>, number: u64) -> Result<(), Memory>
    ensures { OnOk result (out.new.items ≡ out.old.items ++ to_be_bytes w64 number) }
{
    out.extend_from_slice(&number.to_be_bytes())
}

pub(crate) fn read_id(bytes: &[u8]) -> Option<Id>
    requires { length bytes.now ≡ 4 }
    ensures { IsReadFrom IsId id_bytes bytes.now result }
{
    let site = read_site(&bytes[..2])?;
    Id::new(site, two_of(&bytes[2..4]))
}

fn read_site(bytes: &[u8]) -> Option<Site>
    requires { length bytes.now ≡ 2 }
    ensures { IsReadFrom IsSite two bytes.now result }
{
    let number = u8::try_from(two_of(bytes)).ok()?;
    Site::new(number)
}

pub(crate) fn append_id<A: Allocator>(out: &mut Vec<u8, A>, id: Id) -> Result<(), Memory>
    ensures appended { OnOk result (out.new.items ≡ out.old.items ++ id_bytes id) }
    ensures said { IsId id }
{
    append_two(out, u16::from(id.site().number()))?;
    append_two(out, id.counter())
}

// How far a side lies above the least that the layout has.
fn read_gap(layout: Layout, bytes: &[u8]) -> Option<u64>
    requires { length bytes.now ≡ side_width layout }
    ensures { IsReadFrom (λ gap. gap ≤ most_gap layout) (to_be_bytes (width_of layout)) bytes.now result }
{
    let gap = layout.number_of(bytes);
    (gap <= layout.most_gap()).then_some(gap)
}

// The lower side of a bound. The least that the layout has is open, unless the bound is an execution's.
fn read_low(layout: Layout, mark: Mark, bytes: &[u8]) -> Option<Ms>
    requires { length bytes.now ≡ side_width layout }
    ensures { IsReadFrom (IsLow layout mark) (side_bytes layout) bytes.now result }
{
    let gap = read_gap(layout, bytes)?;
    match mark {
        Mark::Plain if gap == 0 => Ms::new(-HORIZON),
        _ => Ms::new(gap as i64 - layout.furthest()),
    }
}

// The upper side, in the same way.
fn read_high(layout: Layout, mark: Mark, bytes: &[u8]) -> Option<Ms>
    requires { length bytes.now ≡ side_width layout }
    ensures { IsReadFrom (IsHigh layout mark) (side_bytes layout) bytes.now result }
{
    let gap = read_gap(layout, bytes)?;
    match mark {
        Mark::Plain if gap == layout.most_gap() => Ms::new(HORIZON),
        _ => Ms::new(gap as i64 - layout.furthest()),
    }
}

fn append_side<A: Allocator>(out: &mut Vec<u8, A>, side: Ms) -> Result<(), Memory>
    ensures appended { OnOk result (out.new.items ≡ out.old.items ++ side_bytes New side) }
    ensures said { IsWithinHorizon side }
{
    append_eight(out, (side.get() + HORIZON) as u64)
}

fn read_event(bytes: &[u8]) -> Option<Event>
    requires { length bytes.now ≡ 2 }
    ensures { IsReadFrom (λ event. event ≤ most_events) two bytes.now result }
{
    Event::new(two_of(bytes))
}

fn read_bound(layout: Layout, mark: Mark, bytes: &[u8]) -> Option<Bound>
    requires { length bytes.now ≡ 4 + 2 * side_width layout }
    ensures { IsReadFrom (IsBound layout mark) (bound_bytes layout) bytes.now result }
{
    let (from, rest) = bytes.split_at(2);
    let (to, sides) = rest.split_at(2);
    let (lo, hi) = sides.split_at(layout.side_width());
    let from = read_event(from)?;
    let to = read_event(to)?;
    let lo = read_low(layout, mark, lo)?;
    let hi = read_high(layout, mark, hi)?;
    Bound::new(MOST_EVENTS, from, to, lo, hi).ok()
}

fn append_bound<A: Allocator>(out: &mut Vec<u8, A>, bound: &Bound) -> Result<(), Memory>
    ensures appended { OnOk result (out.new.items ≡ out.old.items ++ bound_bytes New bound.now) }
    ensures said { OnOk result ((mark : MarkOf) → IsBound New mark bound.now) }
{
    append_two(out, bound.from().number())?;
    append_two(out, bound.to().number())?;
    append_side(out, bound.lo())?;
    append_side(out, bound.hi())
}

fn read_mark(byte: u8) -> Option<Mark>
    ensures found { IfSome result (λ mark. byte ≡ mark_byte mark) }
    ensures none { (mark : MarkOf) → byte ≡ mark_byte mark → IsSome result }
{
    match byte {
        0 => Some(Mark::Plain),
        1 => Some(Mark::Done),
        _ => None,
    }
}

fn mark_byte(mark: Mark) -> u8
    ensures { result ≡ mark_byte mark }
{
    match mark {
        Mark::Plain => 0,
        Mark::Done => 1,
    }
}

pub(crate) fn read_record(layout: Layout, bytes: &[u8]) -> Option<Record>
    requires { length bytes.now ≡ 5 + 2 * side_width layout }
    ensures { IsReadFrom (IsRecord layout) (record_bytes layout) bytes.now result }
{
    let mark = read_mark(bytes[0])?;
    let bound = read_bound(layout, mark, &bytes[1..])?;
    Some(Record { mark, bound })
}

pub(crate) fn append_record<A: Allocator>(
    out: &mut Vec<u8, A>,
    added: &Record,
) -> Result<(), Memory>
    ensures appended { OnOk result (out.new.items ≡ out.old.items ++ record_bytes New added.now) }
    ensures said { OnOk result (IsRecord New added.now) }
{
    out.push(mark_byte(added.mark))?;
    append_bound(out, &added.bound)
}
