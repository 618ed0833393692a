ghost use Rattle.std.specs.Prelude.{length, IfSome};
ghost use Rattle.stn_wire.specs.{Front.{IsFront, answered_front}, Reading.IsJudged};

use crate::MOST_BODY;
use crate::body::read_body;
use crate::fault::WireFault;
use crate::fields::four_of;
use crate::frame::Frame;
use std::alloc::Allocator;

/// The frame in front, and how many bytes it has. None where the bytes are less than a frame and
/// show no fault.
///
/// Faults: `Length`, as soon as four bytes give a body's length outside 1 to 262,144; `Kind`, as
/// soon as the first byte of a body is no kind; `Body`, where the whole body breaks a rule of its
/// kind; `Memory`.
pub fn decode<A: Allocator + Copy>(
    alloc: A,
    bytes: &[u8],
) -> Result<Option<(Frame<A>, usize)>, WireFault>
    ensures { IfSome (answered_front result) (IsFront bytes.now) }
{
    let length = wanted(bytes)?;
    if bytes.len() < length {
        return Ok(None);
    }
    match read_body(alloc, &bytes[4..length])? {
        Some(frame) => Ok(Some((frame, length))),
        None => Err(WireFault::Body),
    }
}

// How many bytes the frame in front has, as far as they show: five, where its kind has not come.
pub(crate) fn wanted(bytes: &[u8]) -> Result<usize, WireFault>
    ensures { IsJudged bytes.now result }
{
    if bytes.len() < 4 {
        return Ok(5);
    }
    let length = four_of(&bytes[..4]) as usize;
    if length < 1 || length > MOST_BODY {
        return Err(WireFault::Length);
    }
    match bytes.get(4) {
        None => Ok(5),
        Some(1..=8 | 16) => Ok(4 + length),
        Some(_) => Err(WireFault::Kind),
    }
}
