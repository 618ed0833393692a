// The reply to a frame.
ghost use Rattle.std.specs.Prelude.{◌≡◌, ◌⊎◌, ◌++◌, true, false, None, Some, IfOk, OnOk, OnErr};
ghost use Rattle.stn_lift.specs.PlanSource.{plan_source};
ghost use Rattle.stn_wire.specs.Frame.{content, spelling, hello, records, ask, refused};
ghost use Rattle.stn_refusal.specs.Codes.{number_of};
ghost use Rattle.stn_session.specs.{Session.answer, Turns.IsAnswered};

use std::alloc::{AllocError, Allocator};
use stn_lift::Source;
use stn_records::{MOST_KNOWN, Records};
use stn_refusal::{Code, Failure};
use stn_site::SiteCopy;
use stn_time::Memory;
use stn_wire::{Frame, Said, say};

/// What a frame brought, beside its reply.
#[derive(Clone, Copy)]
pub(crate) struct Turn {
    /// Whether the other site is known to have the same plan.
    pub(crate) greeted: bool,
    /// The code that ends the session.
    pub(crate) ended: Option<u8>,
    /// Whether the site's state is another one than before.
    pub(crate) changed: bool,
}

impl Turn {
    // The session goes on.
    fn going_on(changed: bool) -> Turn
        ensures { result ≡ record { greeted = true; ended = None; changed = changed } }
    {
        Turn {
            greeted: true,
            ended: None,
            changed,
        }
    }
}

/// Does what a frame says, and appends the reply.
pub(crate) fn reply_to<A: Allocator + Copy, C: SiteCopy<A>>(
    alloc: A,
    frame: &Frame<A>,
    greeted: bool,
    copy: &mut C,
    out: &mut Vec<u8, A>,
) -> Result<Turn, Memory>
    ensures source { (C.held copy.new).source ≡ (C.held copy.old).source }
    ensures site { (C.held copy.new).site ≡ (C.held copy.old).site }
    ensures answered { IfOk result (IsAnswered (answer (C.held copy.old).source (C.held copy.old).state greeted (content frame.now)) (C.held copy.old).state (C.held copy.new).state out.old.items out.new.items) }
    ensures left { OnErr result (((C.held copy.new).state ≡ (C.held copy.old).state)
        ⊎ ((C.held copy.new).state ≡ (answer (C.held copy.old).source (C.held copy.old).state greeted (content frame.now)).state)) }
{
    match frame {
        Frame::Hello(source) => greet(source, greeted, copy, out),
        Frame::Records(records) if greeted => take(records, copy, out),
        Frame::Ask if greeted => report(alloc, copy, out),
        Frame::OldHello(_) | Frame::OldRecords(_) => end(Code::OldVersion, greeted, out),
        Frame::Records(_) | Frame::Ask | Frame::Text(_) | Frame::Refused(_) | Frame::Same => {
            end(Code::Unexpected, greeted, out)
        }
    }
}

// HELLO: SAME, where the plan is the site's own.
fn greet<A: Allocator + Copy, C: SiteCopy<A>>(
    source: &Source<A>,
    greeted: bool,
    copy: &C,
    out: &mut Vec<u8, A>,
) -> Result<Turn, Memory>
    ensures { IfOk result (IsAnswered (answer (C.held copy.now).source (C.held copy.now).state greeted (hello (plan_source source.now))) (C.held copy.now).state (C.held copy.now).state out.old.items out.new.items) }
{
    if source.same(copy.plan().base().source()) {
        say::<A, A>(&Said::Same, out)?;
        Ok(Turn::going_on(false))
    } else {
        end(Code::OtherPlan, greeted, out)
    }
}

// RECORDS: the whole state, where it takes in the records; else what refuses them.
fn take<A: Allocator + Copy, C: SiteCopy<A>>(
    theirs: &Records<A>,
    copy: &mut C,
    out: &mut Vec<u8, A>,
) -> Result<Turn, Memory>
    ensures source { (C.held copy.new).source ≡ (C.held copy.old).source }
    ensures site { (C.held copy.new).site ≡ (C.held copy.old).site }
    ensures answered { IfOk result (IsAnswered (answer (C.held copy.old).source (C.held copy.old).state true (records theirs.now)) (C.held copy.old).state (C.held copy.new).state out.old.items out.new.items) }
    ensures left { OnErr result (((C.held copy.new).state ≡ (C.held copy.old).state)
        ⊎ ((C.held copy.new).state ≡ (answer (C.held copy.old).source (C.held copy.old).state true (records theirs.now)).state)) }
{
    let brings = !copy.plan().records().holds(theirs);
    match copy.take(theirs) {
        Ok(()) => {
            append_state(copy.plan().records(), out)?;
            Ok(Turn::going_on(brings))
        }
        Err(fault) => {
            append_refused(Failure::from(fault).code().ok_or(AllocError)?, out)?;
            Ok(Turn::going_on(false))
        }
    }
}

// ASK: the report.
fn report<A: Allocator + Copy, C: SiteCopy<A>>(
    alloc: A,
    copy: &C,
    out: &mut Vec<u8, A>,
) -> Result<Turn, Memory>
    ensures { IfOk result (IsAnswered (answer (C.held copy.now).source (C.held copy.now).state true ask) (C.held copy.now).state (C.held copy.now).state out.old.items out.new.items) }
{
    let mut text = Vec::new(alloc);
    copy.plan().report(&mut text)?;
    say::<A, A>(&Said::Text(&text), out)?;
    Ok(Turn::going_on(false))
}

// REFUSED with a code, which ends the session.
fn end<A: Allocator + Copy>(code: Code, greeted: bool, out: &mut Vec<u8, A>) -> Result<Turn, Memory>
    ensures { IfOk result (λ turn. (turn.greeted ≡ greeted) × (turn.ended ≡ Some (number_of code)) × (turn.changed ≡ false) × (out.new.items ≡ out.old.items ++ spelling (refused (number_of code)))) }
{
    let code = code.number();
    append_refused(code, out)?;
    Ok(Turn {
        greeted,
        ended: Some(code),
        changed: false,
    })
}

/// Appends a REFUSED frame.
pub(crate) fn append_refused<A: Allocator + Copy>(
    code: u8,
    out: &mut Vec<u8, A>,
) -> Result<(), Memory>
    ensures { OnOk result (out.new.items ≡ out.old.items ++ spelling (refused code)) }
{
    say::<A, A>(&Said::Refused(code), out)
}

/// Appends a RECORDS frame with a whole state.
pub(crate) fn append_state<A: Allocator + Copy>(
    state: &Records<A>,
    out: &mut Vec<u8, A>,
) -> Result<(), Memory>
    ensures { OnOk result (out.new.items ≡ out.old.items ++ spelling (records state.now)) }
{
    // Whatever is held is short enough for a frame.
    prove!(state.known() <= MOST_KNOWN);
    say(&Said::Records(state), out)
}
