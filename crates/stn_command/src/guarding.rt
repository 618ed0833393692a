//! What is printed of a guard.

ghost use Rattle.std.specs.{Prelude.{◌≡◌, ◌++◌, option_map, OnOk, OnErr}, List.flat_map};
ghost use Rattle.stn_command.specs.Guarding.{added_line, guard_text};

use crate::changes::Made;
use std::alloc::Allocator;
use stn_records::Id;
use stn_time::Memory;

/// Appends what is printed where the guard of what a site holds was added under these ids: a line for each; `conflict`,
/// where there is no guard. If memory runs out, it appends nothing.
pub fn print_guard<A: Allocator>(ids: Option<&[Id]>, out: &mut Vec<u8, A>) -> Result<(), Memory>
    ensures printed { OnOk result (out.new.items ≡ out.old.items ++ guard_text (option_map (λ all. all.now) ids.entry)) }
    ensures kept { OnErr result (out.new.items ≡ out.old.items) }
{
    match ids {
        Some(ids) => append_added(ids, out),
        None => out.extend_from_slice(b"conflict\n"),
    }
}

// Appends a line for each id; nothing if memory runs out.
fn append_added<A: Allocator>(ids: &[Id], out: &mut Vec<u8, A>) -> Result<(), Memory>
    ensures printed { OnOk result (out.new.items ≡ out.old.items ++ flat_map added_line ids.now) }
    ensures kept { OnErr result (out.new.items ≡ out.old.items) }
{
    let before = out.len();
    for id in ids {
        if let Err(fault) = Made::Added(*id).print(out) {
            out.truncate(before);
            return Err(fault);
        }
    }
    Ok(())
}
