// Frames in words.
use crate::words::push_bytes;
use std::alloc::{AllocError, Global};
use std::io;

fn append_frames(words: &str, frames: &mut Vec<Vec<u8>>) -> io::Result<()> {
    for word in words.split(' ') {
        push_bytes(word, frames)?;
    }
    Ok(())
}

/// The bytes of each word, which has them in hex.
pub fn frames_of(alloc: Global, words: &str) -> io::Result<Vec<Vec<u8>>> {
    let mut frames = Vec::new(alloc);
    append_frames(words, &mut frames)?;
    Ok(frames)
}

/// The bytes of some frames, one after the other.
pub fn joined(alloc: Global, frames: &[Vec<u8>]) -> Result<Vec<u8>, AllocError> {
    let mut bytes = Vec::new(alloc);
    for frame in frames {
        bytes.extend_from_slice(frame)?;
    }
    Ok(bytes)
}

/// How many of the frames have come whole where so many bytes have come.
pub fn whole_frames(frames: &[Vec<u8>], bytes: u64) -> usize {
    let mut left = bytes;
    for (at, frame) in frames.iter().enumerate() {
        match left.checked_sub(frame.len() as u64) {
            Some(behind) => left = behind,
            None => return at,
        }
    }
    frames.len()
}
