ghost use Rattle.std.specs.Prelude.{◌≡◌, ◌-◌, ◌<◌, ◌↔◌, [], ◌++◌, take, length, min, IsTrue, IfOk, OnErr};
ghost use Rattle.stn_wire.specs.{Feeder.{holding, LacksBytes}, Feeding.LeavesFeeder, Reading.IsFrameTaken, Front.{IsFront, unfinished}};

use crate::fault::WireFault;
use crate::fields::four_of;
use crate::frame::Frame;
use crate::front::{decode, wanted};
use std::alloc::Allocator;
use std::marker::Model;
use stn_time::Memory;

/// How many bytes show how many a frame has: its length and its kind.
const OPENING: usize = 5;

/// What a piece of a stream gave.
#[derive(Drop)]
pub struct Fed<A: Allocator> {
    /// How many bytes of the piece were taken.
    pub used: usize,
    /// The first frame that they complete.
    pub frame: Option<Frame<A>>,
}

/// A stream of frames that comes in pieces. It holds less than one frame. The frames that it gives
/// don't depend on how the stream was cut.
#[derive(Drop)]
pub struct Feeder<A: Allocator> {
    held: Vec<u8, A>,
    // How many bytes the frame lacks, once its length and its kind are held.
    missing: usize,
    broken: Option<WireFault>,
}

impl<A: Allocator> Model for Feeder<A> {
    ghost use Rattle.stn_wire.specs.Feeder.{FeederState, IsFeeder, LacksBytes};

    ghost Value = { FeederState };

    ghost view = { λ f. record { held = f.held.items; broken = f.broken } };

    ghost invariant = { λ f. IsFeeder f.held.items f.broken × LacksBytes f.held.items f.missing };
}

impl<A: Allocator + Copy> Feeder<A> {
    /// A feeder at the start of a stream.
    pub fn new(alloc: A) -> Self
        ensures { result ≡ holding [] }
    {
        Feeder {
            held: Vec::new(alloc),
            missing: 0,
            broken: None,
        }
    }

    /// Whether an unfinished frame is held.
    pub fn middle(&self) -> bool
        ensures { IsTrue result ↔ (0 < length self.now.held) }
    {
        !self.held.is_empty()
    }

    /// Takes the next piece, up to the end of the first frame that it completes; what stands after
    /// that frame is to be fed again.
    ///
    /// Faults: those of `decode`, over what is held and the piece. After `Length`, `Kind` and `Body`
    /// each later call answers the same; after `Memory` no byte was taken.
    pub fn feed(&mut self, piece: &[u8]) -> Result<Fed<A>, WireFault>
        ensures { LeavesFeeder self.old (record { piece = piece.now; answer = result }) self.new }
    {
        if let Some(fault) = self.broken {
            return Err(fault);
        }
        let before = self.held.len();
        if before >= OPENING && piece.len() < self.missing {
            self.held.extend_from_slice(piece)?;
            self.missing -= piece.len();
            return Ok(Fed {
                used: piece.len(),
                frame: None,
            });
        }
        match take_frame(&mut self.held, piece) {
            Ok(fed) => {
                self.missing = missing(&self.held);
                Ok(fed)
            }
            Err(WireFault::Memory) => {
                self.held.truncate(before);
                Err(WireFault::Memory)
            }
            Err(fault) => {
                self.held.clear();
                self.broken = Some(fault);
                Err(fault)
            }
        }
    }
}

// Takes bytes of the piece up to the end of the first frame.
fn take_frame<A: Allocator + Copy>(held: &mut Vec<u8, A>, piece: &[u8]) -> Result<Fed<A>, WireFault>
    requires { IsFront held.old.items unfinished }
    ensures { IsFrameTaken held.old.items piece.now result held.new.items }
{
    let opening = fill(held, piece, OPENING)?;
    let length = wanted(held)?;
    let used = opening + fill(held, &piece[opening..], length)?;
    match decode(*held.allocator(), held)? {
        Some((frame, _)) => {
            held.clear();
            Ok(Fed {
                used,
                frame: Some(frame),
            })
        }
        None => Ok(Fed { used, frame: None }),
    }
}

// How many bytes an unfinished frame lacks, once its length and its kind are held.
fn missing(held: &[u8]) -> usize
    requires { IsFront held.now unfinished }
    ensures { LacksBytes held.now result }
{
    if held.len() < OPENING {
        return 0;
    }
    4 + four_of(&held[..4]) as usize - held.len()
}

// Appends bytes of the piece until so many are held, and says how many.
fn fill<A: Allocator>(held: &mut Vec<u8, A>, piece: &[u8], most: usize) -> Result<usize, Memory>
    ensures taken { IfOk result (λ used. used ≡ min (most - length held.old.items) (length piece.now)) }
    ensures filled { IfOk result (λ used. held.new.items ≡ held.old.items ++ take used piece.now) }
    ensures kept { OnErr result (held.new.items ≡ held.old.items) }
{
    let used = most.saturating_sub(held.len()).min(piece.len());
    held.extend_from_slice(&piece[..used])?;
    Ok(used)
}
