// The body of a RECORDS frame after its kind: the additions, the withdrawn ids, and the entries of amendments.
ghost use Rattle.std.specs.Prelude.{◌≡◌, ℕ, ◌<◌, ◌^◌, List, ◌++◌, length, IfOk, OnOk, option_map};
ghost use Rattle.std.specs.FinMap as fin;
ghost use Rattle.stn_records.specs.Id.{SiteCounter};
ghost use Rattle.stn_wire.specs.{Spelling.{amendments_bytes, AreCounted, AreIds}, Frame.{state_bytes, records_kind, IsState}, Reading.{IsReadFrom, IsStateWith, AreEntries, entries_then}, declared.layout.Layout.TheVariants.New};

use crate::item::Item;
use crate::layout::Layout;
use crate::lists::{append_counted, read_counted};
use std::alloc::Allocator;
use stn_records::{Id, Record, Records};
use stn_time::Memory;

// A state with some entries of amendments, or with none.
pub(crate) fn read_state<A: Allocator + Copy>(
    alloc: A,
    layout: Layout,
    amended: bool,
    bytes: &[u8],
) -> Result<Option<Records<A>>, Memory>
    ensures { IfOk result (IsReadFrom (IsStateWith layout amended) (state_bytes layout) bytes.now) }
{
    let Some((additions, rest)) = read_counted(alloc, layout, bytes)? else {
        return Ok(None);
    };
    let Some((tombstones, rest)) = read_counted(alloc, layout, rest)? else {
        return Ok(None);
    };
    let Some((replacements, rest)) = read_entries(alloc, layout, amended, rest)? else {
        return Ok(None);
    };
    if rest.is_empty() {
        Records::from_lists(additions, tombstones, replacements)
    } else {
        Ok(None)
    }
}

// Some entries, or none, and what stands after them.
fn read_entries<A: Allocator + Copy>(
    alloc: A,
    layout: Layout,
    amended: bool,
    bytes: &[u8],
) -> Result<Option<(Vec<(Id, Id), A>, &[u8])>, Memory>
    ensures { IfOk result (λ r. IsReadFrom (λ (found : List (SiteCounter × SiteCounter) × List ℕ). AreEntries amended found.0) entries_then bytes.now
        (option_map (λ found. (found.0.items, found.1.now)) r)) }
{
    if !amended {
        return Ok(Some((Vec::new(alloc), bytes)));
    }
    match read_counted(alloc, layout, bytes)? {
        Some((entries, rest)) if !entries.is_empty() => Ok(Some((entries, rest))),
        _ => Ok(None),
    }
}

// The kind of a frame with the records.
pub(crate) fn kind_of_records<A: Allocator + Copy>(state: &Records<A>) -> u8
    ensures { result ≡ records_kind (fin.entries state.now.replacements) }
{
    if state.state().replacements().entries().is_empty() {
        8
    } else {
        16
    }
}

// How many bytes `append_state` appends.
pub(crate) fn state_length<A: Allocator + Copy>(state: &Records<A>) -> usize
    ensures value { result ≡ length (state_bytes New state.now) }
    ensures small { result < 262144 }
{
    let additions = state.state().additions().entries().len();
    let tombstones = state.state().tombstones().entries().len();
    let lists = 4
        + additions * <(Id, Record)>::size(Layout::New)
        + tombstones * <(Id, ())>::size(Layout::New);
    lists + entries_length(state.state().replacements().entries())
}

// How many bytes the entries have.
fn entries_length(entries: &[(Id, Id)]) -> usize
    requires { length entries.now < 2 ^ 16 }
    ensures { result ≡ length (amendments_bytes entries.now) }
{
    if entries.is_empty() {
        0
    } else {
        2 + entries.len() * <(Id, Id)>::size(Layout::New)
    }
}

pub(crate) fn append_state<A: Allocator + Copy, B: Allocator>(
    out: &mut Vec<u8, B>,
    state: &Records<A>,
) -> Result<(), Memory>
    ensures appended { OnOk result (out.new.items ≡ out.old.items ++ state_bytes New state.now) }
    ensures said { OnOk result (IsState New state.now) }
{
    let state = state.state();
    append_counted(out, state.additions().entries())?;
    append_counted(out, state.tombstones().entries())?;
    append_entries(out, state.replacements().entries())
}

// Appends the entries, where there are any.
fn append_entries<B: Allocator>(out: &mut Vec<u8, B>, entries: &[(Id, Id)]) -> Result<(), Memory>
    requires { length entries.now < 2 ^ 16 }
    ensures appended { OnOk result (out.new.items ≡ out.old.items ++ amendments_bytes entries.now) }
    ensures said { OnOk result (AreCounted AreIds entries.now) }
{
    if entries.is_empty() {
        return Ok(());
    }
    append_counted(out, entries)
}
