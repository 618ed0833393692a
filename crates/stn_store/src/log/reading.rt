ghost use Rattle.std.specs.Prelude.{is_some, true, ◌≡◌, ◌-◌, ◌^◌, ◌<◌, option_map, Ok, Err, IfOk, IfErr, IfSome, OnOk, MatchOption};
ghost use Rattle.stn_device.specs.Counted.{failure_count};
ghost use Rattle.stn_wire.specs.Frame.{content};
ghost use Rattle.stn_lift.specs.PlanSource.{plan_source, base_of};
ghost use Rattle.stn_store.specs.Log.{Log, log_held, so_far, opened, taken, taken_in, taken_later, Loading.Loads, Opening.{opened_so_far, IsRefused}};

use crate::log::fault::LoadFault;
use crate::log::version::Version;
use std::alloc::Allocator;
use std::io::Read;
use std::rc::Rc;
use stn_device::Counted;
use stn_lift::{Base, Source};
use stn_records::{Records, Site};
use stn_replica::Replica;
use stn_site::SitePlan;
use stn_wire::{Frame, FrameReader, Next};

/// A site's copy of a plan by its log, of which at most 16,777,216 bytes are read, and one more. Each frame is taken before more is asked for.
///
/// Faults: `Read`, `Memory`; else those of the frames in their order, and of one frame `Frame`, `LogForm`, `Base`, `Take`; where
/// all whole frames were taken, `Bound` where the log goes on after what is read, else `LogForm` where it ends before the first
/// frame or within one.
pub fn load_plan<R: Read, A: Allocator + Copy>(
    alloc: A,
    reader: &mut Counted<R>,
    site: Site,
) -> Result<SitePlan<A>, LoadFault>
    requires { failure_count reader.old < 2 ^ 64 - 1 }
    ensures { Loads R.remaining site reader.old reader.new result }
{
    let mut frames = FrameReader::new(alloc);
    let mut log = None;
    'frames: loop {
        match frames.next(reader)? {
            Next::Frame(frame) => {
                let taken = take(alloc, site, &mut log, &frame);
                drop(frame);
                taken?;
            }
            Next::Faulty(fault) => return Err(LoadFault::from(fault)),
            Next::Cut => return Err(LoadFault::LogForm),
            Next::Closed => match log {
                Some(opened) => return Ok(opened.plan),
                None => return Err(LoadFault::LogForm),
            },
        }
    }
}

/// The replica of a site by its log: `load_plan`, and its matrices. It has the same faults.
pub fn load<R: Read, A: Allocator + Copy>(
    alloc: A,
    reader: &mut Counted<R>,
    site: Site,
) -> Result<Replica<A>, LoadFault>
    requires { failure_count reader.old < 2 ^ 64 - 1 }
    ensures { Loads R.remaining site reader.old reader.new result }
{
    let plan = load_plan(alloc, reader, site)?;
    Ok(Replica::of(plan)?)
}

// A log that is being read: the version of its frames, and the copy of the plan that they make.
#[derive(Drop)]
struct Opened<A: Allocator> {
    version: Version,
    plan: SitePlan<A>,
}

// Takes one more frame of a log.
fn take<A: Allocator + Copy>(
    alloc: A,
    site: Site,
    log: &mut Option<Opened<A>>,
    frame: &Frame<A>,
) -> Result<(), LoadFault>
    requires { IfSome log.old (λ opened. opened.plan.site ≡ site) }
    ensures taken { OnOk result (IfSome (option_map opened_so_far log.new) (λ next. taken (option_map opened_so_far log.old) (content frame.now) ≡ Ok next)) }
    ensures opened { OnOk result (is_some (option_map opened_so_far log.new) ≡ true) }
    ensures refused { IfErr result (IsRefused (taken (option_map opened_so_far log.old) (content frame.now))) }
    ensures site { OnOk result (IfSome log.new (λ opened. opened.plan.site ≡ site)) }
{
    match log {
        Some(opened) => take_records(opened.version, &mut opened.plan, frame),
        None => {
            let opened = open(alloc, site, frame)?;
            drop(log.replace(opened));
            Ok(())
        }
    }
}

// The log by its first frame.
fn open<A: Allocator + Copy>(alloc: A, site: Site, frame: &Frame<A>) -> Result<Opened<A>, LoadFault>
    ensures taken { IfOk result (λ opened. taken None (content frame.now) ≡ Ok (opened_so_far opened)) }
    ensures refused { IfErr result (IsRefused (taken None (content frame.now))) }
    ensures site { IfOk result (λ opened. opened.plan.site ≡ site) }
{
    match frame {
        Frame::OldHello(source) => open_by(alloc, site, Version::Old, source),
        Frame::Hello(source) => open_by(alloc, site, Version::New, source),
        _ => Err(LoadFault::LogForm),
    }
}

// The log by its source.
fn open_by<A: Allocator + Copy>(
    alloc: A,
    site: Site,
    version: Version,
    source: &Source<A>,
) -> Result<Opened<A>, LoadFault>
    ensures taken { IfOk result (λ log. opened version (base_of (plan_source source.now)) ≡ Ok (opened_so_far log)) }
    ensures refused { IfErr result (IsRefused (opened version (base_of (plan_source source.now)))) }
    ensures site { IfOk result (λ opened. opened.plan.site ≡ site) }
{
    let base = Base::from_source(alloc, source)?;
    let plan = SitePlan::new(alloc, site, Rc::new(alloc, base)?);
    Ok(Opened { version, plan })
}

// Takes a frame after the first.
fn take_records<A: Allocator + Copy>(
    version: Version,
    plan: &mut SitePlan<A>,
    frame: &Frame<A>,
) -> Result<(), LoadFault>
    ensures taken { OnOk result (taken_later version (log_held plan.old) (content frame.now) ≡ Ok (so_far version (log_held plan.new))) }
    ensures refused { IfErr result (IsRefused (taken_later version (log_held plan.old) (content frame.now))) }
    ensures site { OnOk result (plan.new.site ≡ plan.old.site) }
{
    match records_of(version, frame) {
        Some(records) => {
            plan.take(records)?;
            Ok(())
        }
        None => Err(LoadFault::LogForm),
    }
}

// The records of a frame after the first, where it is RECORDS of the log's version.
fn records_of<A: Allocator>(version: Version, frame: &Frame<A>) -> Option<&Records<A>>
    ensures { MatchOption result ((log : Log) → taken_later version log (content frame.now) ≡ Err LoadFault.LogForm)
        (λ records. (log : Log) → taken_later version log (content frame.now) ≡ taken_in version log records.now) }
{
    match (version, frame) {
        (Version::Old, Frame::OldRecords(records)) => Some(records),
        (Version::New, Frame::Records(records)) => Some(records),
        _ => None,
    }
}
