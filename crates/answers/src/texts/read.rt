use std::alloc::Global;
use std::io;
use std::io::Error;
use stn_lift::{Plan, PlanFault};
use stn_pddl::{Domain, DomainFault};
use stn_time::{Ms, TimeFault, print_millis};

fn of_domain_fault(fault: DomainFault) -> (u8, usize) {
    match fault {
        DomainFault::TooLong => (10, 0),
        DomainFault::Syntax(line) => (11, line as usize),
        DomainFault::TooDeep(line) => (12, line as usize),
        DomainFault::Unsupported(line) => (13, line as usize),
        DomainFault::Number(line) => (14, line as usize),
        DomainFault::Twice(line) => (15, line as usize),
        DomainFault::Variable(line) => (16, line as usize),
        DomainFault::Memory => (99, 0),
    }
}

fn of_domain(alloc: Global, text: &[u8]) -> (u8, usize) {
    match Domain::read(alloc, text).err() {
        Some(fault) => of_domain_fault(fault),
        None => (0, 0),
    }
}

fn of_plan_fault(fault: PlanFault) -> (u8, usize) {
    match fault {
        PlanFault::TooLong => (20, 0),
        PlanFault::Syntax(line) => (21, line as usize),
        PlanFault::Number(line) => (22, line as usize),
        PlanFault::Negative(line) => (23, line as usize),
        PlanFault::TooManySteps => (24, 0),
        PlanFault::Memory => (99, 0),
    }
}

fn of_plan(alloc: Global, text: &[u8]) -> (u8, usize) {
    match Plan::read(alloc, text) {
        Ok(plan) => (0, plan.steps().len()),
        Err(fault) => of_plan_fault(fault),
    }
}

fn of_time_fault(fault: TimeFault) -> u8 {
    match fault {
        TimeFault::Malformed => 1,
        TimeFault::TooFine => 2,
        TimeFault::OutOfRange => 3,
    }
}

fn print_line(rt: &HostRuntime, text: &[u8]) -> io::Result<()> {
    println!(rt; "{}", String::from_utf8_lossy(rt.alloc(), text)?)
}

// Prints a time: 0, its milliseconds, and what it prints.
fn print_read(rt: &HostRuntime, time: Ms) -> io::Result<()> {
    let mut text = Vec::new(rt.alloc());
    time.print(&mut text)?;
    print!(rt; "0 {} ", time.get())?;
    print_line(rt, &text)
}

/// Prints a number of milliseconds as a time.
pub fn print_time(rt: &HostRuntime, millis: i64) -> io::Result<()> {
    let mut text = Vec::new(rt.alloc());
    print_millis(millis, &mut text)?;
    print_line(rt, &text)
}

fn print_code(rt: &HostRuntime, (code, number): (u8, usize)) -> io::Result<()> {
    println!(rt; "{code} {number}")
}

/// Prints the answer to a text, by the word that says what it is.
pub fn print_answer(rt: &HostRuntime, word: &str, text: &[u8]) -> io::Result<()> {
    match word {
        "domain" => print_code(rt, of_domain(rt.alloc(), text)),
        "plan" => print_code(rt, of_plan(rt.alloc(), text)),
        "time" => match Ms::read(text) {
            Ok(time) => print_read(rt, time),
            Err(fault) => print_code(rt, (of_time_fault(fault), 0)),
        },
        _ => Err(Error::other("no such word")),
    }
}
