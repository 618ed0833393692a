use crate::tests::sweep::{Call, judged, requests};
use std::alloc::{AllocError, Global};
use stn_lift::Source;
use stn_refusing::{Outcome, Refusing};
use stn_wire::{Fed, Feeder, Frame, WireFault, encode};

fn name_of(frame: &Option<Frame<Global>>) -> &'static str {
    match frame {
        Some(Frame::Ask) => "ask",
        Some(Frame::Same) => "same",
        Some(_) => "another",
        None => "none",
    }
}

// How many bytes were used, and the name of the frame that came of them.
fn seen(fed: Fed<Global>) -> (usize, &'static str) {
    let answer = (fed.used, name_of(&fed.frame));
    drop(fed);
    answer
}

fn feed(feeder: &mut Feeder<Global>, bytes: &[u8]) -> Result<(usize, &'static str), WireFault> {
    match feeder.feed(bytes) {
        Ok(fed) => Ok(seen(fed)),
        Err(fault) => Err(fault),
    }
}

#[test]
fn feeder_pieces(rt: HostRuntime) {
    let mut feeder = Feeder::new(rt.alloc());
    assert!(rt; !feeder.middle());
    assert!(rt; feed(&mut feeder, b"\x00\x00\x00\x01") == Ok((4, "none")));
    assert!(rt; feeder.middle());
    assert!(rt; feed(&mut feeder, b"\x03") == Ok((1, "ask")));
    assert!(rt; !feeder.middle());
}

#[test]
fn feeder_of_two_frames(rt: HostRuntime) {
    let mut feeder = Feeder::new(rt.alloc());
    let two = b"\x00\x00\x00\x01\x03\x00\x00\x00\x01\x06";
    assert!(rt; feed(&mut feeder, two) == Ok((5, "ask")));
    assert!(rt; feed(&mut feeder, &two[5..]) == Ok((5, "same")));
}

#[test]
fn feeder_keeps_its_fault(rt: HostRuntime) {
    let mut feeder = Feeder::new(rt.alloc());
    assert!(rt; feed(&mut feeder, b"\x00\x04\x00\x01") == Err(WireFault::Length));
    assert!(rt; feed(&mut feeder, b"\x00\x00\x00\x01\x03") == Err(WireFault::Length));
    assert!(rt; !feeder.middle());
}

// The fault of a frame that isn't spelled, and how many bytes it leaves; the length of one that is.
fn spelled(alloc: Global, frame: Frame<Global>) -> (Option<WireFault>, usize) {
    let mut out = Vec::new(alloc);
    let fault = encode(&frame, &mut out).err();
    drop(frame);
    (fault, out.len())
}

#[test]
fn old_frames_are_not_spelled(rt: HostRuntime) {
    let answer = spelled(rt.alloc(), Frame::OldHello(Source::Bare(1)));
    assert!(rt; answer == (Some(WireFault::OldFrame), 0));
}

// What comes of an old HELLO of a domain of so many bytes and an empty plan.
fn spelled_old_hello(
    alloc: Global,
    length: usize,
) -> Result<(Option<WireFault>, usize), AllocError> {
    let domain = vec![in alloc; b'x'; length]?;
    let files = Source::Files(domain, Vec::new(alloc));
    Ok(spelled(alloc, Frame::OldHello(files)))
}

#[test]
fn long_old_frames_are_not_spelled(rt: HostRuntime) {
    let old = (Some(WireFault::OldFrame), 0);
    assert!(rt; spelled_old_hello(rt.alloc(), 262_144) == Ok(old));
}

// What comes of a TEXT of so many bytes.
fn spelled_text(alloc: Global, length: usize) -> Result<(Option<WireFault>, usize), AllocError> {
    let text = vec![in alloc; b'x'; length]?;
    Ok(spelled(alloc, Frame::Text(text)))
}

#[test]
fn longest_body(rt: HostRuntime) {
    assert!(rt; spelled_text(rt.alloc(), 262_143) == Ok((None, 262_148)));
    assert!(rt; spelled_text(rt.alloc(), 262_144) == Ok((Some(WireFault::Length), 0)));
}

/// What comes of spelling the longest TEXT while a request is refused.
pub fn text_refused(heap: &Refusing<Global>, number: u64) -> Outcome {
    let Ok(text) = vec![in heap; b'x'; 262_143] else {
        return Outcome::Wrong;
    };
    let frame = Frame::Text(text);
    let mut out = Vec::new(heap);
    heap.refuse(number);
    let spelled = encode(&frame, &mut out);
    let length = out.len();
    drop(frame);
    drop(out);
    let right = spelled == Ok(()) && length == 262_148;
    judged(
        heap,
        right,
        spelled == Err(WireFault::Memory) && length == 0,
    )
}

#[test]
fn longest_text_without_memory(rt: HostRuntime) {
    assert!(rt; requests(&rt, rt.alloc(), Call::Text) > 0);
}
