// Frames read piece by piece: no more than one piece and one unfinished frame is kept.
ghost use Rattle.std.specs.{Prelude.{◌≡◌, ◌≢◌, ◌⊎◌, ◌<◌, ◌≤◌, length, [], false, Ok, Err, IfOk, IfErr, OnOk, IsErrOf}, Io.KnownBytes.{Consumes, IsAtEnd}};
ghost use Rattle.stn_device.specs.{Bytes.most_bytes, Counted.{counted_device, CountsFailure, KeepsCount}, declared.whole.ReadFault.TheVariants.Read};
ghost use Rattle.stn_wire.specs.{Stream.{unread, pending, IsReading, GivesNext, Pieces.{next_of_fault, IsPieceFed, IsFilled, IsBeyond}}, declared.stream.reader.Next.TheVariants.{Closed, Cut}};

use crate::stream::fault::FrameFault;
use crate::{Feeder, Frame, WireFault};
use std::alloc::Allocator;
use std::io::Read;
use std::marker::Model;
use stn_device::{Counted, MOST_BYTES, ReadFault};

// How many bytes one call of the reader is asked for at most.
const PIECE: usize = 4096;

/// What comes next in a stream.
#[derive(Drop)]
pub enum Next<A: Allocator> {
    /// A frame.
    Frame(Frame<A>),
    /// Bytes that begin no frame.
    Faulty(FrameFault),
    /// The end, after the last frame.
    Closed,
    /// The end, within a frame.
    Cut,
}

/// The frames of a reader.
#[derive(Drop)]
pub struct FrameReader<A: Allocator> {
    feeder: Feeder<A>,
    // What was read last, and from where on it was not taken yet.
    piece: Vec<u8, A>,
    at: usize,
    // How many bytes were read.
    taken: usize,
}

impl<A: Allocator> Model for FrameReader<A> {
    ghost use Rattle.std.specs.Prelude.{◌++◌, ◌≤◌, drop, length};
    ghost use Rattle.stn_device.specs.Bytes.{most_bytes};
    ghost use Rattle.stn_wire.specs.Stream.Held.{Stream};

    ghost Value = { Stream };

    ghost view = { λ f. record { held = f.feeder.held; behind = drop f.at f.piece.items; count = f.taken; broken = f.feeder.broken } };

    ghost invariant = { λ f. (f.at ≤ length f.piece.items) × (length (f.feeder.held ++ drop f.at f.piece.items) ≤ f.taken) × (f.taken ≤ most_bytes) };
}

impl<A: Allocator + Copy> FrameReader<A> {
    /// Nothing is read yet.
    pub fn new(alloc: A) -> FrameReader<A>
        ensures { result ≡ unread }
    {
        FrameReader {
            feeder: Feeder::new(alloc),
            piece: Vec::new(alloc),
            at: 0,
            taken: 0,
        }
    }

    /// What comes next. It asks the reader for more only where no whole frame is left of what was read. Faults: `Read`; `Bound`,
    /// where more than `MOST_BYTES` bytes come; `Memory`. It can be asked again only after a frame.
    pub fn next<R: Read>(&mut self, reader: &mut Counted<R>) -> Result<Next<A>, ReadFault>
        requires { IsReading self.old }
        ensures gives { GivesNext self.old self.new (R.remaining (counted_device reader.old)) (R.remaining (counted_device reader.new)) result }
        ensures closed { result ≡ Ok Closed → IsAtEnd (R.remaining (counted_device reader.new)) }
        ensures cut { result ≡ Ok Cut → IsAtEnd (R.remaining (counted_device reader.new)) }
        ensures read { IsErrOf result Read → CountsFailure reader.old reader.new }
        ensures kept { result ≢ Err Read → KeepsCount reader.old reader.new }
    {
        'pieces: loop {
            match self.feed() {
                Ok(Some(frame)) => return Ok(Next::Frame(frame)),
                Ok(None) => {}
                Err(fault) => return next_of_fault(fault),
            }
            let more = self.fill(reader)?;
            if !more {
                return Ok(self.end());
            }
        }
    }

    // Takes what was read, up to the end of the first frame.
    fn feed(&mut self) -> Result<Option<Frame<A>>, WireFault>
        requires { IsReading self.old }
        ensures fed { IsPieceFed self.old self.new result }
        ensures reading { OnOk result (IsReading self.new) }
        ensures count { self.new.count ≡ self.old.count }
        ensures few { self.new.count ≤ most_bytes }
    {
        let fed = self.feeder.feed(&self.piece[self.at..])?;
        self.at += fed.used;
        Ok(fed.frame)
    }

    // Reads the next piece, where all that was read is held. Whether there is one.
    fn fill<R: Read>(&mut self, reader: &mut Counted<R>) -> Result<bool, ReadFault>
        requires reading { IsReading self.old }
        requires held { self.old.behind ≡ [] }
        ensures filled { IsFilled self.old self.new (R.remaining (counted_device reader.old)) (R.remaining (counted_device reader.new)) result }
        ensures reading { OnOk result (IsReading self.new) }
        ensures few { OnOk result (self.new.count ≤ most_bytes) }
        ensures read { IsErrOf result Read → CountsFailure reader.old reader.new }
        ensures kept { result ≢ Err Read → KeepsCount reader.old reader.new }
    {
        let room = PIECE.min(MOST_BYTES - self.taken);
        if room == 0 {
            return look_beyond(reader);
        }
        let mut buffer = [0u8; PIECE];
        match reader.read(&mut buffer[..room]) {
            Ok(0) => Ok(false),
            Ok(count) => {
                self.at = 0;
                self.piece.clear();
                self.piece.extend_from_slice(&buffer[..count])?;
                self.taken += count;
                Ok(true)
            }
            Err(_) => Err(ReadFault::Read),
        }
    }

    // The end, which came after what is held.
    fn end(&self) -> Next<A>
        requires { self.now.behind ≡ [] }
        ensures closed { result ≡ Closed → pending self.now ≡ [] }
        ensures cut { result ≡ Cut → 0 < length (pending self.now) }
        ensures end { (result ≡ Closed) ⊎ (result ≡ Cut) }
    {
        if self.feeder.middle() {
            Next::Cut
        } else {
            Next::Closed
        }
    }
}

// What comes next where taking what was read gave a fault. That of an old frame is none of bytes.
fn next_of_fault<A: Allocator>(fault: WireFault) -> Result<Next<A>, ReadFault>
    ensures { result ≡ next_of_fault fault }
{
    match fault {
        WireFault::Length => Ok(Next::Faulty(FrameFault::Length)),
        WireFault::Kind => Ok(Next::Faulty(FrameFault::Kind)),
        WireFault::Body => Ok(Next::Faulty(FrameFault::Body)),
        WireFault::OldFrame | WireFault::Memory => Err(ReadFault::Memory),
    }
}

// At the limit: no byte more, or the fault of one.
fn look_beyond<R: Read>(reader: &mut Counted<R>) -> Result<bool, ReadFault>
    ensures end { IfOk result (λ more. (more ≡ false) × Consumes (R.remaining (counted_device reader.old)) (R.remaining (counted_device reader.new)) []
        × IsAtEnd (R.remaining (counted_device reader.new))) }
    ensures fault { IfErr result (IsBeyond (R.remaining (counted_device reader.old)) (R.remaining (counted_device reader.new))) }
    ensures read { IsErrOf result Read → CountsFailure reader.old reader.new }
    ensures kept { result ≢ Err Read → KeepsCount reader.old reader.new }
{
    let mut beyond = [0u8; 1];
    match reader.read(&mut beyond) {
        Ok(0) => Ok(false),
        Ok(_) => Err(ReadFault::Bound),
        Err(_) => Err(ReadFault::Read),
    }
}
