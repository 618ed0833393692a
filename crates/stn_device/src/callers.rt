//! Other sites that come, one after the other.

ghost use Rattle.std.specs.Prelude.{◌≡◌, ◌⊎◌, ◌++◌, [], ◌∷◌, Some, OnOk, OnErr, IfOk, IfErr};
ghost use Rattle.stn_device.specs.{Counted.failure_count, Partner.{partner_state, heard_bytes, heard_end}, Callers.{CallersState, Comes, gone_too, comer_saying, callers_of, has_room}};
ghost use Rattle.stn_refusal.specs.declared.failure.Failure.TheVariants.{Failed};
ghost use Rattle.stn_refusal.specs.declared.failure.Fault.TheVariants as fault;

use crate::counted::Counted;
use crate::partner::{Ear, Finish, Partner};
use std::alloc::{AllocError, Global};
use std::collections::VecDeque;
use std::io::Read;
use stn_refusal::{Failure, Fault};

/// Other sites, each of which comes, is let in, and goes before the next one is let in.
pub trait Callers {
    ghost use Rattle.std.specs.Prelude.{Option};

    /// What is read of a site.
    type Reader: Read + Drop;

    /// What a site is told.
    type Writer: Finish + Drop;

    /// Those that are still to come and those that went, where that is known.
    ghost callers: { Self → Option CallersState };

    /// One was let in, and has not gone.
    ghost is_in: { Self → Type 0 };

    /// Waits for the next one, and lets it in. No call of it failed yet.
    fn accept(&mut self) -> Result<Partner<Self::Reader, Self::Writer>, Failure>
        ensures came { IfOk result (λ partner. Comes (callers self.old) (callers self.new)
            (partner_state Self.Reader.remaining Self.Writer.contents Self.Writer.ended partner)) }
        ensures let_in { OnOk result (is_in self.new) }
        ensures reads { IfOk result (λ partner. failure_count partner.reader ≡ 0) }
        ensures writes { IfOk result (λ partner. failure_count partner.writer ≡ 0) }
        ensures none { IfErr result (λ failure. (failure ≡ Failed fault.Net) ⊎ (failure ≡ Failed fault.Memory)) }
        ensures kept { OnErr result (callers self.new ≡ callers self.old) };

    /// Lets it go.
    fn leave(&mut self, partner: Partner<Self::Reader, Self::Writer>)
        requires { is_in self.old }
        ensures { callers self.new ≡ gone_too (callers self.old)
            (partner_state Self.Reader.remaining Self.Writer.contents Self.Writer.ended partner) };
}

/// Sites in memory, each of which says some bytes.
#[derive(Drop)]
pub struct MemoryCallers<'a> {
    alloc: Global,
    coming: VecDeque<&'a [u8]>,
    gone: Vec<Partner<&'a [u8], Ear>>,
}

impl<'a> MemoryCallers<'a> {
    /// No site.
    pub fn new(alloc: Global) -> MemoryCallers<'a>
        ensures { callers_of result ≡ record { coming = []; gone = [] } }
    {
        MemoryCallers {
            alloc,
            coming: VecDeque::new(alloc),
            gone: Vec::new(alloc),
        }
    }

    /// One more site is to come, that says these bytes.
    pub fn expect(&mut self, bytes: &'a [u8]) -> Result<(), AllocError>
        ensures coming { OnOk result ((callers_of self.new).coming ≡ (callers_of self.old).coming ++ comer_saying bytes.entry.now ∷ []) }
        ensures gone { (callers_of self.new).gone ≡ (callers_of self.old).gone }
        ensures kept { OnErr result ((callers_of self.new).coming ≡ (callers_of self.old).coming) }
    {
        self.coming.push_back(bytes)?;
        Ok(())
    }

    /// Those that went, in the order in which they came.
    pub fn into_gone(self) -> Vec<Partner<&'a [u8], Ear>>
        ensures { result ≡ self.entry.gone }
    {
        let MemoryCallers {
            alloc: _,
            coming,
            gone,
        } = self;
        drop(coming);
        gone
    }
}

impl<'a> Callers for MemoryCallers<'a> {
    ghost use Rattle.std.specs.Prelude.{Some};

    type Reader = &'a [u8];

    type Writer = Ear;

    ghost callers = { λ all. Some (callers_of all) };

    ghost is_in = { has_room };

    // A fault of the network stands for a site that does not come.
    fn accept(&mut self) -> Result<Partner<&'a [u8], Ear>, Failure> {
        self.gone.reserve(1)?;
        match self.coming.pop_front() {
            Some(bytes) => Ok(Partner {
                reader: Counted::new(bytes),
                writer: Counted::new(Ear::new(self.alloc)),
            }),
            None => Err(Failure::Failed(Fault::Net)),
        }
    }

    // `accept` made room for it.
    fn leave(&mut self, partner: Partner<&'a [u8], Ear>)
        requires { has_room self.old }
        ensures { Some (callers_of self.new) ≡ gone_too (Some (callers_of self.old))
            (partner_state (λ bytes. Some bytes.now) (λ ear. Some (heard_bytes ear)) (λ ear. Some (heard_end ear)) partner.entry) }
    {
        let _ = self.gone.push(partner);
    }
}
