// What scripts print. A script stands after a heading:
//
// - `= NAME`: prints what the script prints and what its run counts. If it has at most 4,096 bytes and prints at most so many,
//   each request for memory, each read and each write is then refused in turn; prints how many were, if each was answered as
//   it must be.
// - `! NAME`, and a number: of a script of so many line feeds, prints what its run counts, or why it ended, and has each
//   request for memory refused in turn.
// - `% FILE`: prints what the script of a file prints and counts.
//
// What sites report is compared after other headings:
//
// - `~ NAME`, and a script, in which a line `* NUMBER COMMAND` stands for so many commands. Before and after each line of it the
//   report of each site is compared with that of a new site that has merged it, and that of each site's replica, which comes
//   from its matrix, with that of a new replica that took the same records. Prints at how many times and sites both were the
//   same, or the first line after which one was not.
// - `@ NAME`: 64 sites of one plan each add a bound, one of them withdraws another of its own, and they merge in a ring until
//   nothing that they report changes. Prints what they then report and how many of them do, and the same again once one of
//   them has added a bound that contradicts others.

mod faults;
mod fresh;
mod output;
mod replicas;
mod ring;

use crate::scripts::faults::{Worked, sweep, sweep_requests};
use crate::scripts::fresh::compare;
use crate::scripts::ring::merge_in_ring;
use std::alloc::{AllocError, Global};
use std::fs::File;
use std::io::Write;
use std::{fs, io};
use stn_exec::{Counted, Ran, RunFault, run};

// The most bytes of a script, and of its output, of which every call is refused in turn.
const MOST_SWEPT: usize = 4096;

// Prints how many calls of a script were refused in turn, if each was answered as it must be, where neither the script nor what it
// prints is long.
fn print_sweep(rt: &HostRuntime, worked: &Worked) -> io::Result<()> {
    if worked.script.len() > MOST_SWEPT || worked.text.len() > MOST_SWEPT {
        return Ok(());
    }
    match sweep(rt.alloc(), worked) {
        Some(refused) => println!(rt; "{refused}"),
        None => println!(rt; "a refused call is not answered"),
    }
}

// Prints what a run counts, or why it ended.
fn print_answer(rt: &HostRuntime, answer: Result<Ran, RunFault>) -> io::Result<()> {
    match answer {
        Ok(ran) => println!(rt; "ran {} refused {}", ran.commands, ran.refused),
        Err(fault) => println!(rt; "{fault}"),
    }
}

// Prints what a script of the input printed and counted, and has its calls refused.
fn print_run(
    rt: &HostRuntime,
    script: &[u8],
    text: &[u8],
    answer: Result<Ran, RunFault>,
) -> io::Result<()> {
    io::writer(rt).write_all(text)?;
    print_answer(rt, answer)?;
    match answer {
        Ok(_) => print_sweep(
            rt,
            &Worked {
                script,
                answer,
                text,
            },
        ),
        Err(_) => Ok(()),
    }
}

fn run_row(rt: &HostRuntime, script: &[u8]) -> io::Result<()> {
    let mut input = Counted::new(script);
    let mut output = Counted::new(Vec::new(rt.alloc()));
    let answer = run(rt.alloc(), &mut input, &mut output);
    print_run(rt, script, &output.into_inner(), answer)
}

// Runs a script of so many line feeds, and prints what it counts, or why it ended, and how many of its requests for memory were
// refused in turn, if each was answered as it must be.
fn run_lines(rt: &HostRuntime, count: usize) -> io::Result<()> {
    let script = vec![in rt.alloc(); b'\n'; count]?;
    let mut input = Counted::new(script.as_slice());
    let mut output = Counted::new(Vec::new(rt.alloc()));
    let answer = run(rt.alloc(), &mut input, &mut output);
    let text = output.into_inner();
    print_answer(rt, answer)?;
    let worked = Worked {
        script: &script,
        answer,
        text: &text,
    };
    match sweep_requests(rt.alloc(), &worked) {
        Some(requests) => println!(rt; "answers each of {requests} requests that were refused"),
        None => println!(rt; "a refused call is not answered"),
    }
}

// Runs the script of a file, and prints what it prints and counts, after its name.
fn run_one(rt: &HostRuntime, name: &str) -> io::Result<()> {
    println!(rt; "= {name}")?;
    run_file(rt, fs::open(rt, name)?)
}

fn run_file(rt: &HostRuntime, file: File) -> io::Result<()> {
    let mut input = Counted::new(file);
    let mut output = Counted::new(io::writer(rt));
    let answer = run(rt.alloc(), &mut input, &mut output);
    print_answer(rt, answer)
}

// Does what a heading says, with the script after it.
fn do_heading(rt: &HostRuntime, heading: &str, script: &str) -> io::Result<()> {
    if let Some(name) = heading.strip_prefix("~ ") {
        return compare(rt, name, script);
    }
    if let Some(name) = heading.strip_prefix("% ") {
        return run_one(rt, name);
    }
    println!(rt; "{heading}")?;
    if heading.starts_with('@') {
        merge_in_ring(rt)
    } else if heading.starts_with('!') {
        run_lines(rt, script.trim().parse::<usize>().unwrap_or(0))
    } else {
        run_row(rt, script.as_bytes())
    }
}

fn is_heading(row: &str) -> bool {
    row.starts_with("= ")
        || row.starts_with("! ")
        || row.starts_with("% ")
        || row.starts_with("~ ")
        || row.starts_with("@ ")
}

fn add_row(script: &mut String, row: &str) -> Result<(), AllocError> {
    script.push_str(row)?;
    script.push('\n')
}

/// A heading, and the lines of the script after it.
#[derive(Drop)]
pub struct Headed {
    heading: String,
    script: String,
}

impl Headed {
    /// No heading.
    pub fn new(alloc: Global) -> Headed {
        Headed {
            heading: String::new(alloc),
            script: String::new(alloc),
        }
    }

    /// Adds a row to the script, or does what the heading says and begins with the next one.
    pub fn take_row(&mut self, rt: &HostRuntime, row: &str) -> io::Result<()> {
        if is_heading(row) {
            self.end(rt)?;
            Ok(self.heading.push_str(row)?)
        } else {
            Ok(add_row(&mut self.script, row)?)
        }
    }

    /// Does what the heading says, if there is one.
    pub fn end(&mut self, rt: &HostRuntime) -> io::Result<()> {
        if !self.heading.is_empty() {
            do_heading(rt, &self.heading, &self.script)?;
        }
        self.heading.clear();
        self.script.clear();
        Ok(())
    }
}
