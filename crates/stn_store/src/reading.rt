//! Logs and texts by their bytes.

ghost use Rattle.std.specs.Prelude.{◌≡◌, ◌⊎◌, Ok, Err, None, IfOk, IfErr};
ghost use Rattle.stn_store.specs.{Log.{log_held, Failures.load_failure}, declared.log.fault.LoadFault.LoadFault as LoadFaultView, Bytes.{IsLogIn, IsTextIn, AreTheseIn}};
ghost use Rattle.stn_refusal.specs.declared.failure.Failure.TheVariants.{Failed};
ghost use Rattle.stn_refusal.specs.declared.failure.Fault.TheVariants as lack;

use crate::log::load_plan;
use std::alloc::Allocator;
use std::io::Read;
use stn_device::{Counted, read_whole};
use stn_records::Site;
use stn_refusal::{Failure, Fault};
use stn_site::SitePlan;
use stn_text::MOST_TEXT;

/// How many bytes of a domain or a plan are read at most: one more than a text may have.
const MOST_TEXT_READ: usize = MOST_TEXT + 1;

/// How many bytes are compared at once.
const PIECE: usize = 8192;

/// A site's copy of a plan by the bytes of its log.
pub fn read_log<R: Read + Drop, A: Allocator + Copy>(
    alloc: A,
    reader: R,
    site: Site,
) -> Result<SitePlan<A>, Failure>
    ensures said { IfOk result (λ plan. IsLogIn (R.remaining reader) (Ok (log_held plan))) }
    ensures site { IfOk result (λ plan. plan.site ≡ site) }
    ensures failed { IfErr result (λ failure. (failure ≡ Failed lack.Memory) ⊎ (failure ≡ Failed lack.Read)
        ⊎ ((fault : LoadFaultView) × IsLogIn (R.remaining reader) (Err fault) × (failure ≡ load_failure fault))) }
{
    let mut counted = Counted::new(reader);
    Ok(load_plan(alloc, &mut counted, site)?)
}

/// The text of a domain or a plan; of a longer one so much that it shows.
pub fn read_text<R: Read + Drop, A: Allocator>(alloc: A, reader: R) -> Result<Vec<u8, A>, Failure>
    ensures text { IfOk result (λ text. IsTextIn (R.remaining reader) text.items) }

    // A reader whose bytes are known is not read beyond its limit.
    ensures failed { IfErr result (λ failure. (failure ≡ Failed lack.Memory) ⊎ (failure ≡ Failed lack.Read)
        ⊎ ((failure ≡ Failed lack.Bound) × (R.remaining reader ≡ None))) }
{
    let mut counted = Counted::new(reader.take(MOST_TEXT_READ as u64));
    Ok(read_whole(alloc, &mut counted, MOST_TEXT_READ)?)
}

/// Whether the bytes of a reader are these. After the piece in which they differ, no more is read.
pub fn are_these<R: Read + Drop>(reader: R, bytes: &[u8]) -> Result<bool, Failure>
    ensures same { IfOk result (λ same. AreTheseIn (R.remaining reader) bytes.now same) }
    ensures failed { IfErr result (λ failure. failure ≡ Failed lack.Read) }
{
    let mut reader = reader;
    let mut piece = [0u8; PIECE];
    let mut left = bytes;
    'pieces: loop {
        match reader.read(&mut piece) {
            Ok(0) => return Ok(left.is_empty()),
            Ok(count) => match left.strip_prefix(&piece[..count]) {
                Some(rest) => left = rest,
                None => return Ok(false),
            },
            Err(_) => return Err(Failure::Failed(Fault::Read)),
        }
    }
}
