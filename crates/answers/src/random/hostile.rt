// Random bytes, and random changes to good ones.
use rand_core::Rng;
use rand_pcg::Pcg32;
use std::alloc::AllocError;

// A number below a limit.
fn below(random: &mut Pcg32, limit: usize) -> usize {
    let word = random.next_u32() as usize;
    word.checked_rem(limit).unwrap_or(0)
}

fn any_byte(random: &mut Pcg32) -> u8 {
    random.next_u32().to_be_bytes()[3]
}

// Up to 39 random bytes.
fn append_noise(random: &mut Pcg32, bytes: &mut Vec<u8>) -> Result<(), AllocError> {
    for _ in 0..below(random, 40) {
        bytes.push(any_byte(random))?;
    }
    Ok(())
}

// One of the frames; no bytes where there are none.
fn any_frame<'a>(random: &mut Pcg32, frames: &'a [Vec<u8>]) -> &'a [u8] {
    match frames.get(below(random, frames.len())) {
        Some(frame) => frame,
        None => b"",
    }
}

// The first frame in seven of eight cases, else no bytes.
fn first_frame<'a>(random: &mut Pcg32, frames: &'a [Vec<u8>]) -> &'a [u8] {
    match frames.first() {
        Some(frame) if below(random, 8) != 0 => frame,
        _ => b"",
    }
}

// Mostly the first frame, and up to five frames after it.
fn append_good(
    random: &mut Pcg32,
    frames: &[Vec<u8>],
    bytes: &mut Vec<u8>,
) -> Result<(), AllocError> {
    bytes.extend_from_slice(first_frame(random, frames))?;
    for _ in 0..below(random, 6) {
        bytes.extend_from_slice(any_frame(random, frames))?;
    }
    Ok(())
}

fn append_spliced(
    front: &[u8],
    value: &[u8],
    behind: &[u8],
    bytes: &mut Vec<u8>,
) -> Result<(), AllocError> {
    bytes.extend_from_slice(front)?;
    bytes.extend_from_slice(value)?;
    bytes.extend_from_slice(behind)
}

// Appends the bytes with one changed, left out or put in, or cut.
fn append_changed(
    random: &mut Pcg32,
    bytes: &[u8],
    changed: &mut Vec<u8>,
) -> Result<(), AllocError> {
    let kind = below(random, 4);
    let place = below(random, bytes.len());
    let value = [any_byte(random)];
    let (front, rest) = bytes.split_at(place.min(bytes.len()));
    let behind = rest.get(1..).unwrap_or(b"");
    match kind {
        0 => append_spliced(front, &value, behind, changed),
        1 => append_spliced(front, b"", behind, changed),
        2 => append_spliced(front, &value, rest, changed),
        _ => changed.extend_from_slice(front),
    }
}

fn change(random: &mut Pcg32, bytes: &mut Vec<u8>) -> Result<(), AllocError> {
    let mut changed = Vec::new(*bytes.allocator());
    let answer = append_changed(random, bytes, &mut changed);
    *bytes = changed;
    answer
}

// Up to three changes.
fn change_some(random: &mut Pcg32, bytes: &mut Vec<u8>) -> Result<(), AllocError> {
    for _ in 0..below(random, 4) {
        change(random, bytes)?;
    }
    Ok(())
}

/// Appends random bytes in one of 16 cases, else good frames with up to three changes.
pub fn append_hostile(
    random: &mut Pcg32,
    frames: &[Vec<u8>],
    bytes: &mut Vec<u8>,
) -> Result<(), AllocError> {
    if below(random, 16) == 0 {
        append_noise(random, bytes)
    } else {
        append_good(random, frames, bytes)?;
        change_some(random, bytes)
    }
}
