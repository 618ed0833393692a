ghost use Rattle.std.specs.Prelude.{◌≡◌, Ok, IfOk, OnOk};
ghost use Rattle.stn_effects.specs.Printing.{device_of, Writes};
ghost use Rattle.stn_store.specs.Log.{log_held, log_text, IsLog};

use std::alloc::Allocator;
use std::io::Write;
use stn_device::{Counted, write_whole};
use stn_records::MOST_KNOWN;
use stn_refusal::Failure;
use stn_site::{SiteCopy, SitePlan};
use stn_time::Memory;
use stn_wire::{Said, say};

/// Writes the log of a site's copy of a plan, be it a `SitePlan` or a replica: what the plan is made from, and all that the
/// site holds. The site is not in it.
///
/// Faults: `Write`, where a call of the writer failed or took nothing; then a front part of the log was written. `Memory`; then
/// nothing was written.
pub fn save<W: Write, A: Allocator + Copy, C: SiteCopy<A>>(
    alloc: A,
    copy: &C,
    writer: &mut Counted<W>,
) -> Result<(), Failure>
    ensures saved { Writes (log_text (log_held (C.held copy.now)))
        (device_of W.contents writer.old) (device_of W.contents writer.new) result }

    // It says what the site holds.
    ensures loaded { OnOk result (IsLog (log_text (log_held (C.held copy.now))) (Ok (log_held (C.held copy.now)))) }
{
    let text = spell_log(alloc, copy.plan())?;
    write_whole(writer, &text)?;
    Ok(())
}

/// The log of a site's copy of a plan.
pub fn spell_log<A: Allocator + Copy>(alloc: A, plan: &SitePlan<A>) -> Result<Vec<u8, A>, Memory>
    ensures text { IfOk result (λ text. text.items ≡ log_text (log_held plan.now)) }
    ensures loaded { OnOk result (IsLog (log_text (log_held plan.now)) (Ok (log_held plan.now))) }
{
    let mut text = Vec::new(alloc);
    say(&Said::Hello(plan.base().source()), &mut text)?;
    // Whatever is held is short enough for a frame.
    let records = plan.records();
    prove!(records.known() <= MOST_KNOWN);
    say(&Said::Records(records), &mut text)?;
    Ok(text)
}
