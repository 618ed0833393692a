// What becomes of some bytes as a frame.
use crate::case::{Case, wire_code};
use std::alloc::Global;
use stn_wire::{Fed, Feeder, Frame, WireFault, decode, encode};

fn is_old(frame: &Frame<Global>) -> bool {
    matches!(frame, Frame::OldHello(_) | Frame::OldRecords(_))
}

// What a frame is that was read from these bytes, which have to be its spelling; an old one has none.
fn of_spelling(alloc: Global, frame: &Frame<Global>, bytes: Option<&[u8]>) -> Case {
    let mut out = Vec::new(alloc);
    match encode(frame, &mut out) {
        Ok(()) if Some(out.as_slice()) == bytes => Case::Read,
        Err(WireFault::OldFrame) if is_old(frame) => Case::Old,
        _ => Case::Broken,
    }
}

// The frame in front of the bytes.
fn whole_frame(alloc: Global, bytes: &[u8]) -> Case {
    match decode(alloc, bytes) {
        Ok(Some((frame, length))) => of_frame_read(alloc, frame, bytes.get(..length)),
        Ok(None) => Case::Unfinished,
        Err(fault) => Case::Refused(wire_code(fault)),
    }
}

fn of_frame_read(alloc: Global, frame: Frame<Global>, bytes: Option<&[u8]>) -> Case {
    let case = of_spelling(alloc, &frame, bytes);
    drop(frame);
    case
}

// Feeds the last of the bytes that have come. What the frame is that it ends, or why there is none.
fn fed_byte(alloc: Global, feeder: &mut Feeder<Global>, bytes: &[u8]) -> Option<Case> {
    let last = bytes.len().saturating_sub(1);
    match feeder.feed(&bytes[last..]) {
        Ok(fed) => fed
            .frame
            .map(|frame| of_frame_read(alloc, frame, Some(bytes))),
        Err(fault) => Some(Case::Refused(wire_code(fault))),
    }
}

fn feed_each(alloc: Global, feeder: &mut Feeder<Global>, bytes: &[u8]) -> Case {
    for at in 0..bytes.len() {
        if let Some(case) = fed_byte(alloc, feeder, &bytes[..at + 1]) {
            return case;
        }
    }
    Case::Unfinished
}

// The first frame of a stream that comes byte by byte.
fn fed_frame(alloc: Global, bytes: &[u8]) -> Case {
    let mut feeder = Feeder::new(alloc);
    let case = feed_each(alloc, &mut feeder, bytes);
    drop(feeder);
    case
}

/// What the bytes are as a frame, whole and byte by byte.
pub fn of_frame(alloc: Global, bytes: &[u8]) -> Case {
    let case = whole_frame(alloc, bytes);
    if fed_frame(alloc, bytes) == case {
        case
    } else {
        Case::Broken
    }
}
