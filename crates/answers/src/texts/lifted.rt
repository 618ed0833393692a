use std::alloc::{AllocError, Global};
use std::io;
use std::io::Write;
use stn_lift::{Base, BaseFault, LiftFault, Source};
use stn_net::{Bound, Event};

fn lift_code(fault: LiftFault) -> (u8, u32) {
    match fault {
        LiftFault::UnknownAction(step) => (30, u32::from(step)),
        LiftFault::Arity(step) => (31, u32::from(step)),
        LiftFault::DurationDiffers(step) => (32, u32::from(step)),
        LiftFault::PastHorizon(step) => (33, u32::from(step)),
        LiftFault::Memory => (99, 0),
    }
}

// The code of a fault, and the step; of a domain or a plan with a fault of its own, 10 or 20 alone.
fn code_of(fault: BaseFault) -> (u8, u32) {
    match fault {
        BaseFault::Domain(_) => (10, 0),
        BaseFault::Plan(_) => (20, 0),
        BaseFault::Lift(fault) => lift_code(fault),
        BaseFault::TooManySteps => (34, 0),
        BaseFault::Memory => (99, 0),
    }
}

fn append_events(out: &mut Vec<u8>, bound: &Bound) -> Result<(), AllocError> {
    bound.from().print(out)?;
    out.push(b' ')?;
    bound.to().print(out)
}

fn append_times(out: &mut Vec<u8>, bound: &Bound) -> Result<(), AllocError> {
    bound.lo().print(out)?;
    out.push(b' ')?;
    bound.hi().print(out)
}

fn append_bound(out: &mut Vec<u8>, bound: &Bound) -> Result<(), AllocError> {
    append_events(out, bound)?;
    out.push(b' ')?;
    append_times(out, bound)?;
    Ok(out.push(b'\n')?)
}

fn append_planned(out: &mut Vec<u8>, base: &Base<Global>, number: u16) -> Result<(), AllocError> {
    if number <= base.events() {
        let event = Event::new(number).unwrap();
        event.print(out)?;
        out.push(b' ')?;
        base.planned(event).print(out)?;
        out.push(b'\n')?;
    }
    Ok(())
}

fn append_base(out: &mut Vec<u8>, base: &Base<Global>) -> Result<(), AllocError> {
    for bound in base.bounds() {
        append_bound(out, bound)?;
    }
    for number in 0..=base.events() {
        append_planned(out, base, number)?;
    }
    Ok(())
}

fn print_bounds(rt: &HostRuntime, base: &Base<Global>) -> io::Result<()> {
    let mut out = Vec::new(rt.alloc());
    append_base(&mut out, base)?;
    io::writer(rt).write_all(&out)
}

fn print_base(rt: &HostRuntime, source: &Source<Global>) -> io::Result<()> {
    match Base::from_source(rt.alloc(), source) {
        Ok(base) => print_bounds(rt, &base),
        Err(fault) => {
            let (code, step) = code_of(fault);
            println!(rt; "refused {code} {step}")
        }
    }
}

/// Prints the base of a plan in a domain: its bounds in their order and then the planned times of the events, or the code of
/// the fault and its argument.
pub fn print_lifted(rt: &HostRuntime, domain: &str, plan: &str) -> io::Result<()> {
    let domain = Vec::from_slice(rt.alloc(), domain.as_bytes())?;
    let plan = Vec::from_slice(rt.alloc(), plan.as_bytes())?;
    print_base(rt, &Source::Files(domain, plan))
}
