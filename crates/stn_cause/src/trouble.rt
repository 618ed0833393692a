ghost use Rattle.std.specs.Prelude.{◌≡◌, ◌++◌, OnOk, OnErr, take, vec_len};
ghost use Rattle.stn_cause.specs.Cause.{trouble_text};

use crate::cause::Cause;
use std::alloc::Allocator;
use stn_text::{Memory, all_or_nothing};

/// Appends the line that names a file, a folder or an address, and says why it can't be used. If memory runs out, it appends
/// nothing.
pub fn append_trouble<A: Allocator>(
    name: &str,
    cause: Cause,
    out: &mut Vec<u8, A>,
) -> Result<(), Memory>
    ensures told { OnOk result (out.new.items ≡ out.old.items ++ trouble_text name.now cause) }
    ensures kept { OnErr result (out.new.items ≡ out.old.items) }
{
    let before = out.len();
    let outcome = append_line(name, cause, out);
    all_or_nothing(out, before, outcome)
}

// Appends the line. If memory runs out, a part of it may stand there.
fn append_line<A: Allocator>(name: &str, cause: Cause, out: &mut Vec<u8, A>) -> Result<(), Memory>
    ensures told { OnOk result (out.new.items ≡ out.old.items ++ trouble_text name.now cause) }
    ensures behind { take (vec_len out.old) out.new.items ≡ out.old.items }
{
    out.extend_from_slice(name.as_bytes())?;
    out.extend_from_slice(b": ")?;
    out.extend_from_slice(cause.text())?;
    out.extend_from_slice(b"\n")
}
