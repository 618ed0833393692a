//! Shells whose log another program replaces between two lines, and commands whose output fails.

use crate::{append_words, print_end};
use std::fs;
use std::io::{self, Error, Read, Write};
use std::rt::Files;
use stn_device::Counted;
use stn_refusing::PieceWriter;
use stn_shell::execute;
use stn_text::first_line;

// An input, read byte by byte. Where it comes to a line `!NAME`, it gives the file of that name the name of a log, and does not hand the
// line on.
#[derive(Drop)]
struct SharedInput<'a, T> {
    rt: &'a T,
    log: &'a str,
    rest: &'a [u8],
}

impl<T: Files> Read for SharedInput<'_, T> {
    fn read(&mut self, buf: &mut [u8]) -> io::Result<usize> {
        if self.rest.first() == Some(&b'!') {
            let (line, rest) = first_line(self.rest);
            self.rest = rest;
            rename(self.rt, &line[1..], self.log)?;
        }
        let count = self.rest.len().min(buf.len()).min(1);
        let (front, rest) = self.rest.split_at(count);
        buf[..count].copy_from_slice(front);
        self.rest = rest;
        Ok(count)
    }
}

fn rename<T: Files>(rt: &T, name: &[u8], log: &str) -> io::Result<()> {
    match str::from_utf8(name) {
        Ok(name) => fs::rename(rt, name, log),
        Err(_) => Err(Error::other("no name")),
    }
}

/// Does the lines of a file as those of a shell on a log of site 1.
pub fn share(rt: &HostRuntime, log: &str, name: &str) -> io::Result<()> {
    let bytes = fs::read(rt, name)?;
    let rest = bytes.as_slice();
    let mut reader = Counted::new(SharedInput { rt, log, rest });
    let mut out = Counted::new(io::writer(rt));
    let mut err = Counted::new(Vec::new(rt.alloc()));
    let words = ["stn", "shell", log, "1"];
    let status = execute(rt, &words, &mut reader, &mut out, &mut err);
    print_end(rt, &err.into_inner(), status)
}

/// Does a command with a file as its standard input, whose output takes each text whole, but fails to take one of this number. What
/// stands on the standard error is printed too.
pub fn fail(rt: &HostRuntime, name: &str, number: u64, line: &str) -> io::Result<()> {
    let input = fs::read(rt, name)?;
    let mut words = Vec::new(rt.alloc());
    append_words(line, &mut words)?;
    let mut reader = Counted::new(input.as_slice());
    let mut out = Counted::new(PieceWriter {
        held: Vec::new(rt.alloc()),
        piece: usize::MAX,
        calls: 0,
        fails_at: number,
    });
    let mut err = Counted::new(Vec::new(rt.alloc()));
    let status = execute(rt, &words, &mut reader, &mut out, &mut err);
    io::writer(rt).write_all(&out.into_inner().held)?;
    io::writer(rt).write_all(&err.into_inner())?;
    println!(rt; "status {status}")
}
