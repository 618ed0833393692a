ghost use Rattle.std.specs.Prelude.{◌≡◌, ◌-◌, ◌^◌, ◌<◌};
ghost use Rattle.stn_device.specs.Counted.{failure_count};
ghost use Rattle.stn_wire.specs.Frame.{content};
ghost use Rattle.stn_effects.specs.Printing.{Device, device_of};
ghost use Rattle.stn_session.specs.{Session.answer, Serving.{Serves, KeepsNothing, talk, session_answer, serve_fault}, Turns.{KeepsTurn, AnswersFrame, TellsRefused}, declared.session.{KeepingFault.TheVariants.{Serve, Keep}, ServeFault.TheVariants.{Read, Write, Memory}}};

use crate::keeper::{Keeper, Nowhere};
use crate::replies::{Turn, append_refused, reply_to};
use std::alloc::{AllocError, Allocator};
use std::io::{Read, Write};
use stn_device::{Counted, ReadFault, WriteFault, write_whole};
use stn_refusal::Failure;
use stn_site::{SiteCopy, SitePlan};
use stn_wire::{Frame, FrameReader, Next};
use thiserror::Error;

/// How a session ended.
#[derive(Clone, Copy, Debug, PartialEq, Eq)]
pub enum End {
    /// The input ended between two frames.
    Closed,
    /// The input ended within a frame.
    Cut,
    /// The other site was refused with this code.
    Refused(u8),
}

/// What a session did: how many frames were answered, and how it ended.
#[derive(Clone, Copy, PartialEq, Eq)]
pub struct Served {
    pub frames: u32,
    pub end: End,
}

/// Why a session broke off.
#[derive(Clone, Copy, Debug, PartialEq, Eq, Error)]
pub enum ServeFault {
    /// A call of the reader failed.
    #[error("a read failed")]
    Read,
    /// A call of the writer failed, or took nothing.
    #[error("a write failed")]
    Write,
    /// The other site sent more than `MOST_BYTES` bytes.
    #[error("the session is too long")]
    Bound,
    /// Memory was refused.
    #[error("out of memory")]
    Memory,
}

/// Why a session that keeps what it takes in broke off.
#[derive(Clone, Copy, Debug, PartialEq, Eq, Error)]
pub enum KeepingFault {
    /// A device or memory failed, or the other site sent too much.
    #[error("the session broke off")]
    Serve(ServeFault),
    /// A state could not be kept.
    #[error("a state could not be kept")]
    Keep(Failure),
}

impl From<AllocError> for KeepingFault {
    ghost from_gives = { λ _ made. made ≡ Serve Memory };

    fn from(_refused: AllocError) -> KeepingFault {
        KeepingFault::Serve(ServeFault::Memory)
    }
}

impl From<WriteFault> for KeepingFault {
    ghost from_gives = { λ _ made. made ≡ Serve Write };

    fn from(_fault: WriteFault) -> KeepingFault {
        KeepingFault::Serve(ServeFault::Write)
    }
}

impl From<ReadFault> for KeepingFault {
    ghost from_gives = { λ fault made. made ≡ Serve (serve_fault fault) };

    fn from(fault: ReadFault) -> KeepingFault {
        KeepingFault::Serve(match fault {
            ReadFault::Read => ServeFault::Read,
            ReadFault::Bound => ServeFault::Bound,
            ReadFault::Memory => ServeFault::Memory,
        })
    }
}

impl From<Failure> for KeepingFault {
    ghost from_gives = { λ failure made. made ≡ Keep failure };

    fn from(failure: Failure) -> KeepingFault {
        KeepingFault::Keep(failure)
    }
}

// Answers a frame: does what it says, keeps the state, where it is another one by then, and writes the reply.
fn answer_frame<P, K: Keeper<P, A>, W: Write, A: Allocator + Copy, C: SiteCopy<A>>(
    alloc: A,
    frame: &Frame<A>,
    greeted: bool,
    keeper: &K,
    place: &mut P,
    copy: &mut C,
    writer: &mut Counted<W>,
) -> Result<Turn, KeepingFault>
    ensures source { (C.held copy.new).source ≡ (C.held copy.old).source }
    ensures site { (C.held copy.new).site ≡ (C.held copy.old).site }
    ensures answered { (unheard : Device) → AnswersFrame (K.keeps keeper.now (C.held copy.old).source)
        (answer (C.held copy.old).source (C.held copy.old).state greeted (content frame.now))
        (talk unheard (device_of W.contents writer.old) (C.held copy.old).state place.old)
        (talk unheard (device_of W.contents writer.new) (C.held copy.new).state place.new) result }
{
    let mut out = Vec::new(alloc);
    let turn = reply_to(alloc, frame, greeted, copy, &mut out)?;
    keep_turn(turn, keeper, place, copy.plan())?;
    write_whole(writer, &out)?;
    Ok(turn)
}

// Keeps the state of a site that a frame changed.
fn keep_turn<P, K: Keeper<P, A>, A: Allocator + Copy>(
    turn: Turn,
    keeper: &K,
    place: &mut P,
    plan: &SitePlan<A>,
) -> Result<(), Failure>
    ensures { KeepsTurn (K.keeps keeper.now plan.now.source plan.now.state) turn.changed place.old place.new result }
{
    if turn.changed {
        keeper.keep(place, plan)
    } else {
        Ok(())
    }
}

// Answers bytes that are no frame.
fn refuse<W: Write, A: Allocator + Copy>(
    alloc: A,
    code: u8,
    writer: &mut Counted<W>,
) -> Result<(), KeepingFault>
    ensures { TellsRefused code (device_of W.contents writer.old) (device_of W.contents writer.new) result }
{
    let mut out = Vec::new(alloc);
    append_refused(code, &mut out)?;
    write_whole(writer, &out)?;
    Ok(())
}

// What a session did: it answered so many frames, and ended so.
fn ended_after(frames: u32, end: End) -> Served
    ensures { result ≡ record { frames = frames; end = end } }
{
    Served { frames, end }
}

/// Serves one session: reads frames to the end, answers each before it asks for more, and takes in
/// what the other site holds. At most `MOST_BYTES` bytes are read, and one more to
/// see whether there is more.
///
/// A fault leaves what the frames that were answered left; after `Memory` and `Write` one frame more may
/// be taken, whose reply is not written, or not all of it.
pub fn serve<R: Read, W: Write, A: Allocator + Copy, C: SiteCopy<A>>(
    alloc: A,
    reader: &mut Counted<R>,
    writer: &mut Counted<W>,
    copy: &mut C,
) -> Result<Served, ServeFault>
    requires reader_counts { failure_count reader.old < 2 ^ 64 - 1 }
    requires writer_counts { failure_count writer.old < 2 ^ 64 - 1 }

    // The bytes that were read are frames and a rest; the replies, the copy, the count and the end are those of the session.
    ensures served { Serves KeepsNothing (C.held copy.old).source
        (talk (device_of R.remaining reader.old) (device_of W.contents writer.old) (C.held copy.old).state tt)
        (talk (device_of R.remaining reader.new) (device_of W.contents writer.new) (C.held copy.new).state tt) (Ok result) }
    ensures source { (C.held copy.new).source ≡ (C.held copy.old).source }
    ensures site { (C.held copy.new).site ≡ (C.held copy.old).site }
{
    match serve_keeping(alloc, &Nowhere, &mut (), reader, writer, copy) {
        Ok(served) => Ok(served),
        Err(KeepingFault::Serve(fault)) => Err(fault),
        Err(KeepingFault::Keep(_)) => unreachable!(),
    }
}

/// Serves one session as `serve` does, and keeps each state that the other site's records made another one, before it is told of
/// it. Where a state can't be kept, the session ends before that reply, as `Keep`: the copy then holds the state that was not kept.
pub fn serve_keeping<P, K: Keeper<P, A>, R: Read, W: Write, A: Allocator + Copy, C: SiteCopy<A>>(
    alloc: A,
    keeper: &K,
    place: &mut P,
    reader: &mut Counted<R>,
    writer: &mut Counted<W>,
    copy: &mut C,
) -> Result<Served, KeepingFault>
    requires reader_counts { failure_count reader.old < 2 ^ 64 - 1 }
    requires writer_counts { failure_count writer.old < 2 ^ 64 - 1 }

    // What `serve` says; and after each frame whose records changed the site's state, that state was kept. Where a state was not
    // kept, nothing of the reply to its frame is written.
    ensures served { Serves (K.keeps keeper.now (C.held copy.old).source) (C.held copy.old).source
        (talk (device_of R.remaining reader.old) (device_of W.contents writer.old) (C.held copy.old).state place.old)
        (talk (device_of R.remaining reader.new) (device_of W.contents writer.new) (C.held copy.new).state place.new) (session_answer result) }
    ensures source { (C.held copy.new).source ≡ (C.held copy.old).source }
    ensures site { (C.held copy.new).site ≡ (C.held copy.old).site }
{
    let mut frames = FrameReader::new(alloc);
    let mut greeted = false;
    let mut count = 0;
    'frames: loop {
        match frames.next(reader)? {
            Next::Frame(frame) => {
                let answered = answer_frame(alloc, &frame, greeted, keeper, place, copy, writer);
                drop(frame);
                let turn = answered?;
                count += 1;
                greeted = turn.greeted;
                if let Some(code) = turn.ended {
                    return Ok(ended_after(count, End::Refused(code)));
                }
            }
            Next::Faulty(fault) => {
                let code = fault.code();
                refuse(alloc, code, writer)?;
                return Ok(ended_after(count, End::Refused(code)));
            }
            Next::Closed => return Ok(ended_after(count, End::Closed)),
            Next::Cut => return Ok(ended_after(count, End::Cut)),
        }
    }
}
