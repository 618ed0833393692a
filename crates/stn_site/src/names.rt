ghost use Rattle.std.specs.Prelude.{◌≡◌, ◌+◌, ◌≤◌, ◌++◌, codes, decimal, length, take, vec_len, OnOk, OnErr};
ghost use Rattle.stn_records.specs.Id.{id_text};
ghost use Rattle.stn_site.specs.Names.{name_text};

use itoa::Buffer;
use std::alloc::Allocator;
use stn_records::{Id, MOST_SITES};
use stn_text::all_or_nothing;
use stn_time::Memory;

/// The name of a bound.
#[derive(Clone, Copy, Debug, PartialEq, Eq)]
pub enum BoundName {
    /// One that the plan itself sets, by its number from 1 on.
    Plan(u32),
    /// That of the record of this id.
    Record(Id),
}

impl BoundName {
    /// Appends the printed form: `plan.` and the number, or the id. If memory runs out, it appends nothing.
    pub fn print<A: Allocator>(self, out: &mut Vec<u8, A>) -> Result<(), Memory>
        ensures text { OnOk result (out.new.items ≡ out.old.items ++ name_text self) }
        ensures short { OnOk result (length out.new.items ≤ length out.old.items + 15) }
        ensures kept { OnErr result (out.new.items ≡ out.old.items) }
    {
        match self {
            BoundName::Plan(number) => {
                let before = out.len();
                let outcome = append_number(out, number);
                all_or_nothing(out, before, outcome)
            }
            BoundName::Record(id) => append_id(out, id),
        }
    }
}

// Appends `plan.` and the number. If memory runs out, a part of it may stand there.
fn append_number<A: Allocator>(out: &mut Vec<u8, A>, number: u32) -> Result<(), Memory>
    ensures text { OnOk result (out.new.items ≡ out.old.items ++ (codes "plan." ++ decimal number)) }
    ensures short { OnOk result (length out.new.items ≤ length out.old.items + 15) }
    ensures behind { take (vec_len out.old) out.new.items ≡ out.old.items }
{
    let mut buffer = Buffer::new();
    out.extend_from_slice(b"plan.")?;
    out.extend_from_slice(buffer.format(number).as_bytes())
}

fn append_id<A: Allocator>(out: &mut Vec<u8, A>, id: Id) -> Result<(), Memory>
    ensures text { OnOk result (out.new.items ≡ out.old.items ++ id_text id) }
    ensures short { OnOk result (length out.new.items ≤ length out.old.items + 11) }
    ensures kept { OnErr result (out.new.items ≡ out.old.items) }
{
    prove!(id.site().number() <= MOST_SITES && id.counter() >= 1);
    id.print(out)
}
