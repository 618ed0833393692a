// What a site asks of another, and what it makes of the replies.
ghost use Rattle.std.specs.Prelude.{◌≡◌, ◌≢◌, ◌⊎◌, ◌++◌, List, ℕ, Option, Err, IfOk, IfErr, OnOk, OnErr, IsErrOf};
ghost use Rattle.stn_device.specs.Counted.{counted_device, CountsFailure, KeepsCount};
ghost use Rattle.stn_effects.specs.Printing.{device_of, Writes};
ghost use Rattle.stn_refusal.specs.Refusals.{out_of_memory};
ghost use Rattle.stn_lift.specs.PlanSource.{PlanSource};
ghost use Rattle.stn_records.specs.Content.{Content};
ghost use Rattle.stn_wire.specs.{Frame.{content, same, records, text}, Stream.{unread, pending, IsReading}};
ghost use Rattle.stn_session.specs.{Exchange.{request_bytes, at_stage, greeting, handing, telling, failed, greeted_by, handed, reception_of, unexpected, IsReceived, Receives, seen_value}, Turns.{FindsFrame, Came, Leads}, declared.exchange.ReplyFault.TheVariants.{Read, Memory}, Failures.reply_failure};

use crate::replies::append_state;
use std::alloc::{AllocError, Allocator};
use std::io::{Read, Write};
use stn_device::{Counted, ReadFault, write_whole};
use stn_records::Records;
use stn_refusal::{Code, Failure, Fault};
use stn_site::{ReplicaFault, SiteCopy};
use stn_wire::{Frame, FrameFault, FrameReader, Next, Said, say};
use thiserror::Error;

/// Writes what a site says to another, all at once: HELLO with what its plan is made from, RECORDS with
/// its whole state, and ASK.
///
/// Faults: `Memory`, after which nothing is written; `Write`, after which a part may be.
pub fn send_requests<W: Write, A: Allocator + Copy, C: SiteCopy<A>>(
    alloc: A,
    copy: &C,
    writer: &mut Counted<W>,
) -> Result<(), Failure>
    ensures asked { Writes (request_bytes (C.held copy.now).source (C.held copy.now).state)
        (device_of W.contents writer.old) (device_of W.contents writer.new) result }
    ensures unwritten { IsErrOf result out_of_memory → writer.new ≡ writer.old }
{
    let mut out = Vec::new(alloc);
    append_requests(copy, &mut out)?;
    write_whole(writer, &out)?;
    Ok(())
}

// Appends HELLO, RECORDS and ASK.
fn append_requests<A: Allocator + Copy, C: SiteCopy<A>>(
    copy: &C,
    out: &mut Vec<u8, A>,
) -> Result<(), AllocError>
    ensures { OnOk result (out.new.items ≡ out.old.items ++ request_bytes (C.held copy.now).source (C.held copy.now).state) }
{
    say(&Said::Hello(copy.plan().base().source()), out)?;
    append_state(copy.plan().records(), out)?;
    say::<A, A>(&Said::Ask, out)
}

/// Why replies were not taken, or not all of them.
#[derive(Clone, Copy, Debug, PartialEq, Eq, Error)]
pub enum ReplyFault {
    /// The other site refused what was said, with this code.
    #[error("refused")]
    Refused(u8),
    /// The bytes begin no frame.
    #[error(transparent)]
    Frame(FrameFault),
    /// Another frame stands where a reply is wanted, or the input ended.
    #[error("no reply")]
    Reply,
    /// This site refused the records.
    #[error(transparent)]
    Replica(ReplicaFault),
    /// A call of the reader failed.
    #[error("a read failed")]
    Read,
    /// The replies have more than `MOST_BYTES` bytes.
    #[error("the replies are too long")]
    Bound,
    /// Memory was refused.
    #[error("out of memory")]
    Memory,
}

impl From<ReplyFault> for Failure {
    ghost from_gives = { λ fault given. given ≡ reply_failure fault };

    fn from(fault: ReplyFault) -> Failure {
        match fault {
            ReplyFault::Refused(number) => Failure::refused_with(number),
            ReplyFault::Frame(fault) => Failure::from(fault),
            ReplyFault::Reply => Failure::refused(Code::Reply),
            ReplyFault::Replica(fault) => Failure::from(fault),
            ReplyFault::Read => Failure::Failed(Fault::Read),
            ReplyFault::Bound => Failure::Failed(Fault::Bound),
            ReplyFault::Memory => Failure::Failed(Fault::Memory),
        }
    }
}

/// Reads the replies to what `send_requests` wrote, SAME, RECORDS and TEXT, takes in the records, and
/// gives the text. What stands after the text is not judged. At most `MOST_BYTES` bytes are read, and one
/// more to see whether there is more.
///
/// Refused in the order of the frames: `Refused`, where the other site refused; `Frame`; `Reply`; `Replica`, where
/// the records are refused; and `Read`, `Bound`, `Memory`. Records that were taken before a refusal stay taken.
pub fn receive_replies<R: Read, A: Allocator + Copy, C: SiteCopy<A>>(
    alloc: A,
    reader: &mut Counted<R>,
    copy: &mut C,
) -> Result<Vec<u8, A>, ReplyFault>
    // The bytes that were read are frames and a rest; the answer and the site's state are what these come to.
    ensures received { Receives (C.held copy.old).source (C.held copy.old).state (C.held copy.new).state
        (device_of R.remaining reader.old) (device_of R.remaining reader.new) (seen_value (λ bytes. bytes.items) result) }
    ensures source { (C.held copy.new).source ≡ (C.held copy.old).source }
    ensures site { (C.held copy.new).site ≡ (C.held copy.old).site }
{
    let mut frames = FrameReader::new(alloc);
    take_replies(&mut frames, reader, copy)
}

// The three replies, one after the other.
fn take_replies<R: Read, A: Allocator + Copy, C: SiteCopy<A>>(
    frames: &mut FrameReader<A>,
    reader: &mut Counted<R>,
    copy: &mut C,
) -> Result<Vec<u8, A>, ReplyFault>
    requires { frames.old ≡ unread }
    ensures received { IsReceived (C.held copy.old).source (C.held copy.old).state (R.remaining (counted_device reader.old))
        (R.remaining (counted_device reader.new)) (C.held copy.new).state (seen_value (λ bytes. bytes.items) result) }
    ensures source { (C.held copy.new).source ≡ (C.held copy.old).source }
    ensures site { (C.held copy.new).site ≡ (C.held copy.old).site }
    ensures read { IsErrOf result Read → CountsFailure reader.old reader.new }
    ensures kept { result ≢ Err Read → KeepsCount reader.old reader.new }
{
    take_same(frames, reader)?;
    take_records(frames, reader, copy)?;
    take_text(frames, reader)
}

// The first reply.
fn take_same<R: Read, A: Allocator + Copy>(
    frames: &mut FrameReader<A>,
    reader: &mut Counted<R>,
) -> Result<(), ReplyFault>
    requires { IsReading frames.old }
    ensures leads { (source : PlanSource) → (first : Content) → (before : Option (List ℕ))
        → Came source first before (R.remaining (counted_device reader.old)) (pending frames.old) frames.old.count (at_stage greeting first)
        → Leads source first before (R.remaining (counted_device reader.new)) frames.new (at_stage handing first) result }
    ensures read { IsErrOf result Read → CountsFailure reader.old reader.new }
    ensures kept { result ≢ Err Read → KeepsCount reader.old reader.new }
{
    let frame = next_reply(frames, reader)?;
    same_of(frame)
}

// The second reply.
fn take_records<R: Read, A: Allocator + Copy, C: SiteCopy<A>>(
    frames: &mut FrameReader<A>,
    reader: &mut Counted<R>,
    copy: &mut C,
) -> Result<(), ReplyFault>
    requires { IsReading frames.old }
    ensures leads { (first : Content) → (before : Option (List ℕ))
        → Came (C.held copy.old).source first before (R.remaining (counted_device reader.old)) (pending frames.old) frames.old.count (at_stage handing (C.held copy.old).state)
        → Leads (C.held copy.old).source first before (R.remaining (counted_device reader.new)) frames.new (at_stage telling (C.held copy.new).state) result }
    ensures source { (C.held copy.new).source ≡ (C.held copy.old).source }
    ensures site { (C.held copy.new).site ≡ (C.held copy.old).site }
    ensures read { IsErrOf result Read → CountsFailure reader.old reader.new }
    ensures kept { result ≢ Err Read → KeepsCount reader.old reader.new }
{
    let frame = next_reply(frames, reader)?;
    let theirs = records_of(frame)?;
    let taken = take_in(copy, &theirs);
    drop(theirs);
    taken
}

// The third reply.
fn take_text<R: Read, A: Allocator + Copy>(
    frames: &mut FrameReader<A>,
    reader: &mut Counted<R>,
) -> Result<Vec<u8, A>, ReplyFault>
    requires { IsReading frames.old }
    ensures received { (source : PlanSource) → (first : Content) → (before : Option (List ℕ)) → (state : Content)
        → Came source first before (R.remaining (counted_device reader.old)) (pending frames.old) frames.old.count (at_stage telling state)
        → IsReceived source first before (R.remaining (counted_device reader.new)) state (seen_value (λ bytes. bytes.items) result) }
    ensures read { IsErrOf result Read → CountsFailure reader.old reader.new }
    ensures kept { result ≢ Err Read → KeepsCount reader.old reader.new }
{
    let frame = next_reply(frames, reader)?;
    text_of(frame)
}

// The next frame.
fn next_reply<R: Read, A: Allocator + Copy>(
    frames: &mut FrameReader<A>,
    reader: &mut Counted<R>,
) -> Result<Frame<A>, ReplyFault>
    requires { IsReading frames.old }
    ensures finds { FindsFrame frames.old frames.new (R.remaining (counted_device reader.old)) (R.remaining (counted_device reader.new)) result }
    ensures read { IsErrOf result Read → CountsFailure reader.old reader.new }
    ensures kept { result ≢ Err Read → KeepsCount reader.old reader.new }
{
    match frames.next(reader) {
        Ok(Next::Frame(frame)) => Ok(frame),
        Ok(Next::Faulty(fault)) => Err(ReplyFault::Frame(fault)),
        Ok(Next::Closed) => Err(ReplyFault::Reply),
        Ok(Next::Cut) => Err(ReplyFault::Reply),
        Err(ReadFault::Read) => Err(ReplyFault::Read),
        Err(ReadFault::Bound) => Err(ReplyFault::Bound),
        Err(ReadFault::Memory) => Err(ReplyFault::Memory),
    }
}

// Why a frame that is not waited for is refused.
fn refusal_of<A: Allocator>(frame: Frame<A>) -> ReplyFault
    ensures is { result ≡ unexpected (content frame) }
    ensures read { result ≢ Read }
{
    match frame {
        Frame::Refused(code) => ReplyFault::Refused(code),
        Frame::OldHello(_)
        | Frame::OldRecords(_)
        | Frame::Hello(_)
        | Frame::Records(_)
        | Frame::Ask
        | Frame::Text(_)
        | Frame::Same => ReplyFault::Reply,
    }
}

// SAME, or why another frame is refused.
fn same_of<A: Allocator>(frame: Frame<A>) -> Result<(), ReplyFault>
    ensures same { OnOk result (content frame ≡ same) }
    ensures refused { IfErr result (λ fault. (state : Content) → greeted_by state (content frame) ≡ at_stage (failed fault) state) }
    ensures read { result ≢ Err Read }
{
    match frame {
        Frame::Same => Ok(()),
        other => Err(refusal_of(other)),
    }
}

// The records of RECORDS, or why another frame is refused.
fn records_of<A: Allocator>(frame: Frame<A>) -> Result<Records<A>, ReplyFault>
    ensures records { IfOk result (λ theirs. content frame ≡ records theirs) }
    ensures refused { IfErr result (λ fault. (source : PlanSource) → (state : Content) → handed source state (content frame) ≡ at_stage (failed fault) state) }
    ensures read { result ≢ Err Read }
{
    match frame {
        Frame::Records(theirs) => Ok(theirs),
        other => Err(refusal_of(other)),
    }
}

// The bytes of TEXT, or why another frame is refused.
fn text_of<A: Allocator>(frame: Frame<A>) -> Result<Vec<u8, A>, ReplyFault>
    ensures text { IfOk result (λ bytes. content frame ≡ text bytes.items) }
    ensures refused { IfErr result (λ fault. (state : Content) → reception_of state (content frame) ≡ at_stage (failed fault) state) }
    ensures read { result ≢ Err Read }
{
    match frame {
        Frame::Text(bytes) => Ok(bytes),
        other => Err(refusal_of(other)),
    }
}

// Takes in what the other site holds.
fn take_in<A: Allocator + Copy, C: SiteCopy<A>>(
    copy: &mut C,
    theirs: &Records<A>,
) -> Result<(), ReplyFault>
    ensures source { (C.held copy.new).source ≡ (C.held copy.old).source }
    ensures site { (C.held copy.new).site ≡ (C.held copy.old).site }
    ensures taken { OnOk result (handed (C.held copy.old).source (C.held copy.old).state (records theirs.now) ≡ at_stage telling (C.held copy.new).state) }
    ensures refused { IfErr result (λ fault. (fault ≡ Memory)
        ⊎ (handed (C.held copy.old).source (C.held copy.old).state (records theirs.now) ≡ at_stage (failed fault) (C.held copy.old).state)) }
    ensures kept { OnErr result ((C.held copy.new).state ≡ (C.held copy.old).state) }
    ensures read { result ≢ Err Read }
{
    match copy.take(theirs) {
        Ok(()) => Ok(()),
        Err(ReplicaFault::Memory) => Err(ReplyFault::Memory),
        Err(fault) => Err(ReplyFault::Replica(fault)),
    }
}
