// Lists of items, with their count in front.
ghost use Rattle.std.specs.{Prelude.{◌≡◌, ℕ, ◌<◌, ◌^◌, List, ◌++◌, length, IfOk, OnOk, option_map}, List.{flat_map, AllByRecursion}};
ghost use Rattle.stn_wire.specs.{Spelling.{counted, AreCounted}, Reading.{IsReadFrom, AreItems, items_then, counted_then}, declared.layout.Layout.TheVariants.New};

use crate::fields::{append_two, two_of};
use crate::item::Item;
use crate::layout::Layout;
use std::alloc::Allocator;
use stn_time::Memory;

// So many items, and what stands after them.
fn read_items<T: Item, A: Allocator>(
    alloc: A,
    layout: Layout,
    bytes: &[u8],
    count: u16,
) -> Result<Option<(Vec<T, A>, &[u8])>, Memory>
    ensures { IfOk result (λ r. IsReadFrom (λ (found : List T × List ℕ). AreItems (T.IsSpelled layout) count found.0) (items_then (T.bytes_of layout)) bytes.now
        (option_map (λ found. (found.0.items, found.1.now)) r)) }
{
    let mut items = Vec::new(alloc);
    let mut rest = bytes;
    'items: for _ in 0..count {
        if rest.len() < T::size(layout) {
            return Ok(None);
        }
        let (front, behind) = rest.split_at(T::size(layout));
        match T::read(layout, front) {
            Some(item) => items.push(item)?,
            None => return Ok(None),
        }
        rest = behind;
    }
    Ok(Some((items, rest)))
}

// A count and so many items, and what stands after them.
pub(crate) fn read_counted<T: Item, A: Allocator>(
    alloc: A,
    layout: Layout,
    bytes: &[u8],
) -> Result<Option<(Vec<T, A>, &[u8])>, Memory>
    ensures { IfOk result (λ r. IsReadFrom (λ (found : List T × List ℕ). AreCounted (T.IsSpelled layout) found.0) (counted_then (T.bytes_of layout)) bytes.now
        (option_map (λ found. (found.0.items, found.1.now)) r)) }
{
    if bytes.len() < 2 {
        return Ok(None);
    }
    let (count, rest) = bytes.split_at(2);
    read_items(alloc, layout, rest, two_of(count))
}

fn append_items<T: Item, A: Allocator>(out: &mut Vec<u8, A>, items: &[T]) -> Result<(), Memory>
    ensures appended { OnOk result (out.new.items ≡ out.old.items ++ flat_map (T.bytes_of New) items.now) }
    ensures each { OnOk result (AllByRecursion (T.IsSpelled New) items.now) }
{
    for item in items {
        item.append(out)?;
    }
    Ok(())
}

pub(crate) fn append_counted<T: Item, A: Allocator>(
    out: &mut Vec<u8, A>,
    items: &[T],
) -> Result<(), Memory>
    requires { length items.now < 2 ^ 16 }
    ensures appended { OnOk result (out.new.items ≡ out.old.items ++ counted (T.bytes_of New) items.now) }
    ensures counted { OnOk result (AreCounted (T.IsSpelled New) items.now) }
{
    append_two(out, items.len() as u16)?;
    append_items(out, items)
}
