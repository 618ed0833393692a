// Frames, of which each request for memory is refused in turn.
use crate::calls::sweep::Trial;
use std::alloc::Global;
use stn_refusing::{Outcome, Refusing};
use stn_wire::{Fed, Feeder, Frame, WireFault, decode, encode};

// How many bytes a feeder is fed at once.
const PIECE: usize = 7;

// Appends a frame, and again where memory ran out, after which nothing was appended.
fn append(
    trial: &Trial<'_>,
    frame: &Frame<Global>,
    out: &mut Vec<u8, &Refusing<Global>>,
) -> Outcome {
    trial.begin();
    let answer = encode(frame, out);
    let refused = trial.end();
    let right = match answer {
        Ok(()) => true,
        Err(WireFault::Memory) => out.as_slice() == b"before".as_slice()
            && encode(frame, out).is_ok(),
        Err(_) => false,
    };
    Outcome::of(refused, right)
}

/// Whether `encode` of the frame appends these bytes, and answers the refused request.
pub fn encode_refused(trial: &Trial<'_>, frame: &Frame<Global>, bytes: &[u8]) -> Outcome {
    let mut out = Vec::new(trial.heap);
    let begun = out.extend_from_slice(b"before").is_ok();
    let outcome = append(trial, frame, &mut out);
    if begun && out.strip_prefix(b"before") == Some(bytes) {
        outcome
    } else {
        Outcome::Wrong
    }
}

// What an old frame holds, as a frame that can be written; any other frame itself.
fn renewed(frame: Frame<&Refusing<Global>>) -> Frame<&Refusing<Global>> {
    match frame {
        Frame::OldHello(source) => Frame::Hello(source),
        Frame::OldRecords(records) => Frame::Records(records),
        other => other,
    }
}

// Appends what is written of a frame.
fn append_renewed(frame: Frame<&Refusing<Global>>, spelled: &mut Vec<u8>) -> Result<(), WireFault> {
    let frame = renewed(frame);
    let answer = encode(&frame, spelled);
    drop(frame);
    answer
}

// Whether a frame is renewed as these bytes.
fn is_spelled(
    alloc: Global,
    frame: Frame<&Refusing<Global>>,
    bytes: &[u8],
) -> Result<bool, WireFault> {
    let mut out = Vec::new(alloc);
    append_renewed(frame, &mut out)?;
    Ok(out.as_slice() == bytes)
}

// Whether the bytes are one frame, which is renewed as the wanted bytes; or lack of memory.
fn is_read(trial: &Trial<'_>, bytes: &[u8], wanted: &[u8]) -> Result<bool, WireFault> {
    match decode(trial.heap, bytes)? {
        Some((frame, length)) => {
            let spelled = is_spelled(trial.alloc, frame, wanted)?;
            Ok(spelled && length == bytes.len())
        }
        None => Ok(false),
    }
}

/// Whether `decode` reads what is written as the wanted bytes, and answers the refused request.
pub fn decode_refused(trial: &Trial<'_>, bytes: &[u8], wanted: &[u8]) -> Outcome {
    trial.begin();
    let answer = is_read(trial, bytes, wanted);
    let refused = trial.end();
    let right = match answer {
        Ok(read) => read,
        Err(WireFault::Memory) => refused && is_read(trial, bytes, wanted) == Ok(true),
        Err(_) => false,
    };
    Outcome::of(refused, right)
}

// Feeds a piece, and appends what is written of the frame that it completes. It gives how many bytes were taken.
fn feed_piece(
    feeder: &mut Feeder<&Refusing<Global>>,
    piece: &[u8],
    spelled: &mut Vec<u8>,
) -> Result<usize, WireFault> {
    let Fed { used, frame } = feeder.feed(piece)?;
    match frame {
        Some(frame) => append_renewed(frame, spelled)?,
        None => {}
    }
    Ok(used)
}

// Feeds a stream in pieces, each again where memory ran out, and gives how often. Lack of memory leaves the feeder in the
// middle of a frame exactly where it was before.
fn stream(
    feeder: &mut Feeder<&Refusing<Global>>,
    bytes: &[u8],
    spelled: &mut Vec<u8>,
) -> Result<u64, WireFault> {
    let mut again = 0u64;
    let mut rest = bytes;
    for _ in 0..=bytes.len() {
        let middle = feeder.middle();
        match feed_piece(feeder, rest.get(..PIECE).unwrap_or(rest), spelled) {
            Ok(used) => rest = rest.get(used..).unwrap_or(b""),
            Err(WireFault::Memory) if feeder.middle() == middle => again = again.saturating_add(1),
            Err(fault) => return Err(fault),
        }
    }
    Ok(again)
}

// Whether a stream is read as it must be.
fn is_fed(
    trial: &Trial<'_>,
    feeder: &mut Feeder<&Refusing<Global>>,
    bytes: &[u8],
    spelled: &mut Vec<u8>,
) -> Outcome {
    trial.begin();
    let again = stream(feeder, bytes, spelled);
    let refused = trial.end();
    let told = again == Ok(0) || refused && again == Ok(1);
    Outcome::of(refused, told && !feeder.middle())
}

/// Whether `Feeder::feed` of frames, in pieces, reads what is written as the wanted bytes, and answers the refused request: after
/// lack of memory no byte was taken, and the same piece goes on.
pub fn feed_refused(trial: &Trial<'_>, bytes: &[u8], wanted: &[u8]) -> Outcome {
    let mut feeder = Feeder::new(trial.heap);
    let mut spelled = Vec::new(trial.alloc);
    let outcome = is_fed(trial, &mut feeder, bytes, &mut spelled);
    drop(feeder);
    if spelled.as_slice() == wanted {
        outcome
    } else {
        Outcome::Wrong
    }
}
