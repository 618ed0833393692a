ghost use Rattle.std.specs.{Prelude.{◌≡◌, ◌++◌, ℕ, List, map, Option, IfOk, OnOk, OnErr}, List.flat_map};
ghost use Rattle.stn_records.specs.Id.{id_text};
ghost use Rattle.stn_questions.specs.{Records.{AreKnown, IsRecordsText, amends_text, held_text, word_where, record_line}, Replaced.AreReplaced};

use crate::bounds::append_named;
use std::alloc::Allocator;
use stn_records::{Id, Mark, Record, Records};
use stn_site::{BoundName, Piece, SitePlan, append_pieces};
use stn_time::Memory;

/// Appends a line for each known id, in order: the id; its record's bound, where the record is known,
/// with `done` where it says that its event is done; `amends` and the old id, where the record replaces
/// one; `withdrawn` where the id is, and `replaced` where a record replaces it. If memory runs out, it
/// appends nothing.
pub fn print_records<A: Allocator + Copy, B: Allocator>(
    plan: &SitePlan<A>,
    out: &mut Vec<u8, B>,
) -> Result<(), Memory>
    ensures printed { OnOk result ((text : List ℕ) × IsRecordsText plan.now.state text × (out.new.items ≡ out.old.items ++ text)) }
    ensures kept { OnErr result (out.new.items ≡ out.old.items) }
{
    let text = text_of(plan.alloc(), plan.records())?;
    out.extend_from_slice(&text)
}

fn text_of<A: Allocator + Copy>(alloc: A, records: &Records<A>) -> Result<Vec<u8, A>, Memory>
    ensures { IfOk result (λ text. IsRecordsText records.now text.items) }
{
    let ids = known_ids(alloc, records)?;
    let replaced = replaced_ids(alloc, records)?;
    let mut text = Vec::new(alloc);
    append_lines(records, &replaced, &ids, &mut text)?;
    Ok(text)
}

// The known ids in order, each once.
fn known_ids<A: Allocator + Copy>(alloc: A, records: &Records<A>) -> Result<Vec<Id, A>, Memory>
    ensures { IfOk result (λ ids. AreKnown records.now ids.items) }
{
    let state = records.state();
    let mut ids = listed_ids(
        alloc,
        state.additions().entries(),
        state.tombstones().entries(),
        state.replacements().entries(),
    )?;
    ids.sort_unstable();
    ids.dedup();
    Ok(ids)
}

// The ids of the records, the withdrawn ids, and those that records replace.
fn listed_ids<A: Allocator>(
    alloc: A,
    added: &[(Id, Record)],
    withdrawn: &[(Id, ())],
    replacing: &[(Id, Id)],
) -> Result<Vec<Id, A>, Memory>
    ensures { IfOk result (λ ids. ids.items
        ≡ map (λ entry. entry.0) added.now ++ map (λ entry. entry.0) withdrawn.now ++ map (λ entry. entry.1) replacing.now) }
{
    let added = added.iter().map(|entry| entry.0);
    let withdrawn = withdrawn.iter().map(|entry| entry.0);
    let replaced = replacing.iter().map(|entry| entry.1);
    added.chain(withdrawn).chain(replaced).collect(alloc)
}

// The ids that records replace, in order.
fn replaced_ids<A: Allocator + Copy>(alloc: A, records: &Records<A>) -> Result<Vec<Id, A>, Memory>
    ensures { IfOk result (λ ids. AreReplaced records.now ids.items) }
{
    let mut ids = old_ids(alloc, records.state().replacements().entries())?;
    ids.sort_unstable();
    Ok(ids)
}

// The ids that the entries replace.
fn old_ids<A: Allocator>(alloc: A, replacing: &[(Id, Id)]) -> Result<Vec<Id, A>, Memory>
    ensures { IfOk result (λ ids. ids.items ≡ map (λ entry. entry.1) replacing.now) }
{
    replacing.iter().map(|entry| entry.1).collect(alloc)
}

fn append_lines<A: Allocator + Copy, B: Allocator>(
    records: &Records<A>,
    replaced: &[Id],
    ids: &[Id],
    out: &mut Vec<u8, B>,
) -> Result<(), Memory>
    requires { AreReplaced records.now replaced.now }
    ensures { OnOk result (out.new.items ≡ out.old.items ++ flat_map (record_line records.now) ids.now) }
{
    for id in ids {
        append_line(records, replaced, *id, out)?;
    }
    Ok(())
}

fn append_line<A: Allocator + Copy, B: Allocator>(
    records: &Records<A>,
    replaced: &[Id],
    id: Id,
    out: &mut Vec<u8, B>,
) -> Result<(), Memory>
    requires { AreReplaced records.now replaced.now }
    ensures { OnOk result (out.new.items ≡ out.old.items ++ record_line records.now id) }
{
    let state = records.state();
    append_held(id, state.additions().get(id), out)?;
    append_amended(state.replacements().get(id), out)?;
    append_pieces(
        out,
        &[
            Piece::Text(word_where(state.tombstones().contains(id), b" withdrawn")),
            Piece::Text(word_where(replaced.binary_search(&id).is_ok(), b" replaced")),
            Piece::Text(b"\n"),
        ],
    )
}

// Appends an id, and its record where that is known.
fn append_held<B: Allocator>(
    id: Id,
    held: Option<Record>,
    out: &mut Vec<u8, B>,
) -> Result<(), Memory>
    ensures { OnOk result (out.new.items ≡ out.old.items ++ (id_text id ++ held_text held)) }
{
    match held {
        Some(record) => {
            let done = word_where(record.mark == Mark::Done, b" done");
            append_named(out, BoundName::Record(id), record.bound, done)
        }
        None => id.print(out),
    }
}

// Appends the id that a record replaces, where it replaces one.
fn append_amended<B: Allocator>(old: Option<Id>, out: &mut Vec<u8, B>) -> Result<(), Memory>
    ensures { OnOk result (out.new.items ≡ out.old.items ++ amends_text old) }
{
    match old {
        Some(id) => {
            out.extend_from_slice(b" amends ")?;
            id.print(out)
        }
        None => Ok(()),
    }
}

// The word, where it is so.
fn word_where(so: bool, word: &[u8]) -> &[u8]
    ensures { result.now ≡ word_where so word.now }
{
    if so { word } else { b"" }
}
