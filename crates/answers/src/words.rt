// The words of a line.
use std::alloc::Global;
use std::io;
use std::io::Error;
use std::str::SplitWhitespace;

/// The first word of a line, and what follows it.
pub fn cut_word(line: &str) -> (&str, &str) {
    line.split_once(' ').unwrap_or((line, ""))
}

/// The first words of a line of bytes that a reader hands on: a word, how many bytes a call hands on at most, and which of the
/// calls fails (0: none).
#[derive(Clone, Copy)]
pub struct Row<'a> {
    pub word: &'a str,
    pub piece: usize,
    pub fails_at: u64,
}

pub fn next_row<'a>(words: &mut SplitWhitespace<'a>) -> Row<'a> {
    let word = words.next().unwrap_or("");
    let piece = words.next().unwrap_or("").parse::<usize>();
    let fails_at = words.next().unwrap_or("").parse::<u64>();
    Row {
        word,
        piece: piece.unwrap_or(0),
        fails_at: fails_at.unwrap_or(0),
    }
}

/// The bytes that a word has in hex.
pub fn bytes_of(alloc: Global, digits: &str) -> io::Result<Vec<u8>> {
    match hex::decode(alloc, digits) {
        Ok(bytes) => Ok(bytes),
        Err(_) => Err(Error::other("no bytes in hex")),
    }
}

/// Adds the bytes that a word has in hex.
pub fn push_bytes(digits: &str, all: &mut Vec<Vec<u8>>) -> io::Result<()> {
    let bytes = bytes_of(*all.allocator(), digits)?;
    Ok(all.push(bytes)?)
}

/// Prints bytes in hex.
pub fn print_hex(rt: &HostRuntime, bytes: &[u8]) -> io::Result<()> {
    let digits = hex::encode(rt.alloc(), bytes)?;
    print!(rt; "{digits}")
}
