ghost use Rattle.std.specs.Prelude.{◌≡◌, ◌-◌, ◌^◌, ◌<◌, ◌≤◌, ◌⊎◌, ◌++◌, ◌↔◌, length, min, IsErrOf, IfErr, OnOk, OnErr};
ghost use Rattle.stn_wire.specs.Frame.{content, said_content, body_of, spelling, IsOld, IsFrame, most_body};

use crate::MOST_BODY;
use crate::fault::WireFault;
use crate::fields::append_four;
use crate::frame::{Frame, Said};
use crate::source::source_length;
use crate::state::state_length;
use std::alloc::Allocator;
use stn_time::Memory;

/// Appends the spelling of a frame.
///
/// Faults: `OldFrame`, where it is a frame of the old version; `Length`, where the body would pass
/// 262,144 bytes; `Memory`. After a fault nothing is appended.
pub fn encode<A: Allocator + Copy, B: Allocator + Copy>(
    frame: &Frame<A>,
    out: &mut Vec<u8, B>,
) -> Result<(), WireFault>
    ensures appended { OnOk result (out.new.items ≡ out.old.items ++ spelling (content frame.now)) }
    ensures sound { OnOk result (IsFrame (content frame.now)) }
    ensures old { IsErrOf result WireFault.OldFrame ↔ IsOld (content frame.now) }
    ensures length { IsErrOf result WireFault.Length ↔ (¬ IsOld (content frame.now)) × (most_body < length (body_of (content frame.now))) }
    ensures fault { IfErr result (λ fault. (fault ≡ WireFault.OldFrame) ⊎ ((fault ≡ WireFault.Length) ⊎ (fault ≡ WireFault.Memory))) }
    ensures kept { OnErr result (out.new.items ≡ out.old.items) }
{
    let Some(said) = frame.said() else {
        return Err(WireFault::OldFrame);
    };
    if body_length(&said) > MOST_BODY {
        return Err(WireFault::Length);
    }
    say(&said, out)?;
    Ok(())
}

/// Appends the spelling of what is said, whose body is not too long. Where memory is refused, nothing is
/// appended.
pub fn say<A: Allocator + Copy, B: Allocator + Copy>(
    said: &Said<A>,
    out: &mut Vec<u8, B>,
) -> Result<(), Memory>
    requires { length (body_of (said_content said.now)) ≤ most_body }
    ensures appended { OnOk result (out.new.items ≡ out.old.items ++ spelling (said_content said.now)) }
    ensures sound { OnOk result (IsFrame (said_content said.now)) }
    ensures kept { OnErr result (out.new.items ≡ out.old.items) }
{
    let length = body_length(said);
    let mut spelled = Vec::with_capacity(*out.allocator(), 4 + length)?;
    append_four(&mut spelled, length as u32)?;
    said.append_body(&mut spelled)?;
    out.extend_from_slice(&spelled)
}

// How many bytes the body has, up to the greatest number.
fn body_length<A: Allocator + Copy>(said: &Said<A>) -> usize
    ensures { result ≡ min (length (body_of (said_content said.now))) (2 ^ 64 - 1) }
{
    let behind = match said {
        Said::Hello(source) => source_length(source),
        Said::Records(state) => state_length(state),
        Said::Ask => 0,
        Said::Text(bytes) => bytes.len(),
        Said::Refused(_) => 1,
        Said::Same => 0,
    };
    behind.saturating_add(1)
}
