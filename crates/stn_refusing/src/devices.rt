use std::io;
use std::io::{Error, ErrorKind, Read, Write};

/// Hands on at most `piece` bytes a call, and fails at the call of a number, counted from 1.
#[derive(Drop)]
pub struct PieceReader<'a> {
    pub rest: &'a [u8],
    pub piece: usize,
    pub calls: u64,
    pub fails_at: u64,
}

impl Read for PieceReader<'_> {
    fn read(&mut self, buf: &mut [u8]) -> io::Result<usize> {
        self.calls = self.calls.saturating_add(1);
        if self.calls == self.fails_at {
            return Err(Error::from(ErrorKind::Interrupted));
        }
        let count = self.piece.min(self.rest.len()).min(buf.len());
        let (front, rest) = self.rest.split_at(count);
        buf[..count].copy_from_slice(front);
        self.rest = rest;
        Ok(count)
    }
}

/// Takes at most `piece` bytes a call, and fails at the call of a number, counted from 1.
#[derive(Drop)]
pub struct PieceWriter {
    pub held: Vec<u8>,
    pub piece: usize,
    pub calls: u64,
    pub fails_at: u64,
}

impl Write for PieceWriter {
    fn write(&mut self, buf: &[u8]) -> io::Result<usize> {
        self.calls = self.calls.saturating_add(1);
        if self.calls == self.fails_at {
            return Err(Error::from(ErrorKind::Interrupted));
        }
        let count = self.piece.min(buf.len());
        self.held.extend_from_slice(&buf[..count])?;
        Ok(count)
    }

    fn flush(&mut self) -> io::Result<()> {
        Ok(())
    }
}
