//! For tests: does the commands of its input, one a line, in the folder that it is run in, and prints what each prints and its
//! status, but of a fault not its reason. A word `""` is empty. Other lines make and show files, or do commands of logs over a store in memory:
//!
//! - `= FILE` prints the bytes of a file in hex, or `none`;
//! - `:bytes FILE COUNT HEX` puts so many times these bytes after a file, which it makes where there is none;
//! - `:text FILE LINES` does so with a text whose lines `|` parts;
//! - `:withdrawn FILE COUNT SITE MANY` does so with a frame of the first so many withdrawn ids of a site;
//! - `:folder NAME` makes a folder, `:link NAME TARGET` a link;
//! - `:from FILE WORDS` does a command with the file as its standard input;
//! - `:unprinted FILE NUMBER WORDS` does so with an output that fails to take the text of this number, and prints the reason too;
//! - `:shared LOG FILE` does the lines of the file in a shell on a log of site 1; a line `!NAME` of it gives the file of that name the name
//!   of the log, as another program may between two lines;
//! - `:status WORDS` prints the status of a command alone;
//! - `:told WORDS` does a command, and prints what stands on its output, what on the standard error, and its status;
//! - `:told-from FILE WORDS` does so with the file as its standard input;
//! - `:mode FILE` prints who may read, write and run a file, in octal; `:chmod FILE MODE` sets that;
//! - `:name FILE NAME` gives a file a second name;
//! - `:hold LOG` holds a log, and prints whether its lock is free before, meanwhile and afterwards;
//! - `:turn LINK OTHER SAID` holds the log that LINK leads to, lets LINK lead to OTHER, and saves what SAID says as the log held;
//! - `:cuts FILE CUT WORDS` does a command once for each length that FILE can be cut to, over a file CUT that is cut so;
//! - `:memory-text NAME LINES` puts a text whose lines `|` parts into the store under a name;
//! - `:memory-told WORDS` is `:told` over the store;
//! - `:memory WORDS` does a command over the store, and prints what it answers, or why it is refused;
//! - `:memory-serve NAME COUNT HEX` serves by the log of site 1 in the store a site that says these bytes and COUNT zeros, and one
//!   that says nothing, and prints what each is told;
//! - `:memory-talk NAME OTHER` has the site 2 of one log in the store ask the site 1 of another, and prints what both make of it;
//! - `:loopback SCENARIO WORDS` serves or sends logs over connections on this machine, and prints what both ends make of it; the words
//!   say what is expected, after the bytes that are said in hex where the scenario is `request`, `replies` or `unsaved-records`.
//!
//! At its end it does the command of its own words as the process that it is. They are no command's, so it ends with 2.
#![tactic(auto)]

mod edges;
mod loopback;
mod memory;
mod shared;
mod talk;

use crate::edges::{hold, print_mode, save_by_link, set_mode, tell};
use crate::loopback::run_scenario;
use crate::memory::{put, run_in_memory};
use crate::shared::{fail, share};
use crate::talk::{serve_saying, talk};
use std::alloc::{AllocError, Global};
use std::io::{Error, Write};
use std::os::unix::fs::symlink;
use std::process::ExitCode;
use std::{fs, io};
use stn_device::Counted;
use stn_shell::{execute, program};
use stn_store::{FileStore, MemoryStore, Store};
use stn_text::first_line;

// What stands on the standard input of a command.
const SCRIPT: &[u8] = b"steps 0\nsites 1\n1 report\n";

// What a word of a command line says, which may be nothing.
fn said_word(word: &str) -> &str {
    if word == "\"\"" { "" } else { word }
}

// Appends the words of a command line.
fn append_words<'a>(line: &'a str, words: &mut Vec<&'a str>) -> Result<(), AllocError> {
    words.push("stn")?;
    for word in line.split_whitespace() {
        words.push(said_word(word))?;
    }
    Ok(())
}

// Prints the fault of a command, if there is one, without its reason, and its status.
fn print_end(rt: &HostRuntime, said: &[u8], status: u8) -> io::Result<()> {
    if said.starts_with(b"fault ") {
        let (fault, _) = first_line(said);
        io::writer(rt).write_all(fault)?;
        println!(rt)?;
    }
    println!(rt; "status {status}")
}

fn run_words(rt: &HostRuntime, words: &[&str], input: &[u8]) -> io::Result<()> {
    let mut reader = Counted::new(input);
    let mut out = Counted::new(io::writer(rt));
    let mut err = Counted::new(Vec::new(rt.alloc()));
    let status = execute(rt, words, &mut reader, &mut out, &mut err);
    print_end(rt, &err.into_inner(), status)
}

// Does the command of a line, and prints what it prints and its status.
fn run_line(rt: &HostRuntime, line: &str, input: &[u8]) -> io::Result<()> {
    let mut words = Vec::new(rt.alloc());
    append_words(line, &mut words)?;
    run_words(rt, &words, input)
}

fn status_of(rt: &HostRuntime, words: &[&str]) -> u8 {
    let mut reader = Counted::new(SCRIPT);
    let mut out = Counted::new(Vec::new(rt.alloc()));
    let mut err = Counted::new(Vec::new(rt.alloc()));
    execute(rt, words, &mut reader, &mut out, &mut err)
}

// Does the command of a line, and prints its status alone.
fn run_quietly(rt: &HostRuntime, line: &str) -> io::Result<()> {
    let mut words = Vec::new(rt.alloc());
    append_words(line, &mut words)?;
    println!(rt; "status {}", status_of(rt, &words))
}

fn print_digits(rt: &HostRuntime, bytes: &[u8]) -> io::Result<()> {
    let digits = hex::encode(rt.alloc(), bytes)?;
    println!(rt; "{digits}")
}

// Prints the bytes of a file.
fn print_file(rt: &HostRuntime, name: &str) -> io::Result<()> {
    match fs::read(rt, name) {
        Ok(bytes) => print_digits(rt, &bytes),
        Err(_) => println!(rt; "none"),
    }
}

fn write_often(file: &mut fs::File, count: u32, bytes: &[u8]) -> io::Result<()> {
    for _ in 0..count {
        file.write_all(bytes)?;
    }
    Ok(())
}

// Puts so many times these bytes after a file.
fn append(rt: &HostRuntime, name: &str, count: u32, bytes: &[u8]) -> io::Result<()> {
    let mut options = fs::OpenOptions::new();
    let mut file = options.create(true).append(true).open(rt, name)?;
    write_often(&mut file, count, bytes)
}

// The bytes that digits spell.
fn bytes_of(alloc: Global, digits: &str) -> io::Result<Vec<u8>> {
    match hex::decode(alloc, digits) {
        Ok(bytes) => Ok(bytes),
        Err(_) => Err(Error::other("no digits")),
    }
}

fn append_bytes(rt: &HostRuntime, name: &str, words: &str) -> io::Result<()> {
    let (count, digits) = cut_word(words);
    let bytes = bytes_of(rt.alloc(), digits)?;
    append(rt, name, count.parse().unwrap_or(0), &bytes)
}

fn append_line(line: &str, text: &mut Vec<u8>) -> Result<(), AllocError> {
    text.extend_from_slice(line.as_bytes())?;
    Ok(text.push(b'\n')?)
}

fn append_lines(lines: &str, text: &mut Vec<u8>) -> Result<(), AllocError> {
    for line in lines.split('|') {
        append_line(line, text)?;
    }
    Ok(())
}

// A text whose lines `|` parts, each with its LF.
fn text_of(alloc: Global, lines: &str) -> Result<Vec<u8>, AllocError> {
    let mut text = Vec::new(alloc);
    append_lines(lines, &mut text)?;
    Ok(text)
}

fn append_text(rt: &HostRuntime, name: &str, lines: &str) -> io::Result<()> {
    let text = text_of(rt.alloc(), lines)?;
    append(rt, name, 1, &text)
}

// Appends a frame of so many withdrawn ids of a site.
fn append_frame(site: u16, many: u16, frame: &mut Vec<u8>) -> Result<(), AllocError> {
    let length = 5 + 4 * u32::from(many);
    frame.extend_from_slice(&length.to_be_bytes())?;
    frame.extend_from_slice(&[8, 0, 0])?;
    frame.extend_from_slice(&many.to_be_bytes())?;
    for counter in 1..=many {
        frame.extend_from_slice(&site.to_be_bytes())?;
        frame.extend_from_slice(&counter.to_be_bytes())?;
    }
    Ok(())
}

fn append_withdrawn(rt: &HostRuntime, name: &str, words: &str) -> io::Result<()> {
    let (count, rest) = cut_word(words);
    let (site, many) = cut_word(rest);
    let mut frame = Vec::new(rt.alloc());
    append_frame(
        site.parse().unwrap_or(0),
        many.parse().unwrap_or(0),
        &mut frame,
    )?;
    append(rt, name, count.parse().unwrap_or(0), &frame)
}

// Does a command with a file as its standard input.
fn run_from(rt: &HostRuntime, name: &str, line: &str) -> io::Result<()> {
    let input = fs::read(rt, name)?;
    run_line(rt, line, &input)
}

// Does one whose output fails to take the text of this number.
fn run_unprinted(rt: &HostRuntime, name: &str, words: &str) -> io::Result<()> {
    let (number, line) = cut_word(words);
    fail(rt, name, number.parse().unwrap_or(0), line)
}

fn run_each_cut(rt: &HostRuntime, bytes: &[u8], words: &str) -> io::Result<()> {
    let (cut, line) = cut_word(words);
    for length in 0..=bytes.len() {
        fs::write(rt, cut, &bytes[..length])?;
        println!(rt; "{length}")?;
        run_line(rt, line, SCRIPT)?;
    }
    Ok(())
}

// Does the command of a line over a store, and prints what stands where, and its status.
fn tell_line<S: Store<Global>>(
    rt: &HostRuntime,
    store: &mut S,
    line: &str,
    input: &[u8],
) -> io::Result<()> {
    let mut words = Vec::new(rt.alloc());
    append_words(line, &mut words)?;
    tell(rt, store, &words, input)
}

// Does so with a file as its standard input.
fn tell_from(rt: &HostRuntime, words: &str) -> io::Result<()> {
    let (name, line) = cut_word(words);
    let input = fs::read(rt, name)?;
    tell_line(rt, &mut FileStore::new(rt), line, &input)
}

fn turn(rt: &HostRuntime, link: &str, words: &str) -> io::Result<()> {
    let (other, said) = cut_word(words);
    save_by_link(rt, &mut FileStore::new(rt), link, other, said)
}

// Does a command over a file that is cut to each length.
fn run_cuts(rt: &HostRuntime, name: &str, words: &str) -> io::Result<()> {
    let bytes = fs::read(rt, name)?;
    run_each_cut(rt, &bytes, words)
}

// The first word of a line, and what follows it.
fn cut_word(line: &str) -> (&str, &str) {
    line.split_once(' ').unwrap_or((line, ""))
}

// Makes or shows files.
fn do_other(rt: &HostRuntime, line: &str) -> io::Result<()> {
    let (word, rest) = cut_word(line);
    let (name, rest) = cut_word(rest);
    match word {
        "=" => print_file(rt, name),
        ":bytes" => append_bytes(rt, name, rest),
        ":text" => append_text(rt, name, rest),
        ":withdrawn" => append_withdrawn(rt, name, rest),
        ":folder" => fs::create_dir(rt, name),
        ":link" => symlink(rt, rest, name),
        ":from" => run_from(rt, name, rest),
        ":unprinted" => run_unprinted(rt, name, rest),
        ":shared" => share(rt, name, rest),
        ":cuts" => run_cuts(rt, name, rest),
        ":mode" => print_mode(rt, name),
        ":chmod" => set_mode(rt, name, rest),
        ":name" => fs::hard_link(rt, name, rest),
        ":hold" => hold(rt, &FileStore::new(rt), name),
        ":turn" => turn(rt, name, rest),
        ":loopback" => run_scenario(rt, name, rest),
        _ => Err(Error::other("no such line")),
    }
}

fn serve_in_memory(
    rt: &HostRuntime,
    store: &mut MemoryStore<Global>,
    words: &str,
) -> io::Result<()> {
    let (name, rest) = cut_word(words);
    let (count, digits) = cut_word(rest);
    match count.parse::<usize>() {
        Ok(zeros) => serve_saying(rt, store, name, digits, zeros),
        Err(_) => Err(Error::other("no number")),
    }
}

// Does what a line says.
fn do_line(rt: &HostRuntime, store: &mut MemoryStore<Global>, line: &str) -> io::Result<()> {
    if let Some(words) = line.strip_prefix(":memory-text ") {
        put(rt.alloc(), store, words)
    } else if let Some(words) = line.strip_prefix(":memory ") {
        run_in_memory(rt, store, words)
    } else if let Some(words) = line.strip_prefix(":memory-told ") {
        tell_line(rt, store, words, SCRIPT)
    } else if let Some(words) = line.strip_prefix(":told ") {
        tell_line(rt, &mut FileStore::new(rt), words, SCRIPT)
    } else if let Some(words) = line.strip_prefix(":told-from ") {
        tell_from(rt, words)
    } else if let Some(words) = line.strip_prefix(":memory-serve ") {
        serve_in_memory(rt, store, words)
    } else if let Some(words) = line.strip_prefix(":memory-talk ") {
        let (asking, asked) = cut_word(words);
        talk(rt, store, asking, asked)
    } else if let Some(words) = line.strip_prefix(":status ") {
        run_quietly(rt, words)
    } else if line.starts_with(':') || line.starts_with('=') {
        do_other(rt, line)
    } else {
        run_line(rt, line, SCRIPT)
    }
}

fn take_line(rt: &HostRuntime, store: &mut MemoryStore<Global>, line: &str) -> io::Result<()> {
    println!(rt; "> {line}")?;
    do_line(rt, store, line)
}

fn do_lines(rt: &HostRuntime, store: &mut MemoryStore<Global>) -> io::Result<()> {
    for line in rt.lines(rt.alloc()) {
        take_line(rt, store, &line?)?;
    }
    Ok(())
}

fn main(rt: HostRuntime) -> io::Result<ExitCode> {
    let mut store = MemoryStore::new(rt.alloc());
    do_lines(&rt, &mut store)?;
    Ok(program(&rt))
}
