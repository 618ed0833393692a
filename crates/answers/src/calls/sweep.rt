// Calls of which one request for memory, one read or one write is refused.
use std::alloc::Global;
use stn_refusing::{PieceReader, PieceWriter, Refusing};

/// What is refused.
#[derive(Clone, Copy, PartialEq)]
pub enum Kind {
    Nothing,
    Memory,
    Read,
    Write,
    /// Each write takes no byte.
    EachByte,
}

/// What is refused, and which request, read or write it is, counted from 1.
#[derive(Clone, Copy)]
pub struct Failing {
    pub kind: Kind,
    pub number: u64,
}

pub const NOTHING: Failing = Failing {
    kind: Kind::Nothing,
    number: 0,
};

pub const EACH_BYTE: Failing = Failing {
    kind: Kind::EachByte,
    number: 0,
};

impl Failing {
    /// The number of the refused call, where it is of this kind; else 0.
    pub fn number_of(self, kind: Kind) -> u64 {
        if self.kind == kind { self.number } else { 0 }
    }
}

/// Where a call is made of which one request for memory, one read or one write is refused.
#[derive(Clone, Copy)]
pub struct Trial<'a> {
    pub alloc: Global,
    pub heap: &'a Refusing<Global>,
    pub failing: Failing,
}

impl<'a> Trial<'a> {
    /// The same where nothing is refused.
    pub fn working(&self) -> Trial<'a> {
        Trial {
            alloc: self.alloc,
            heap: self.heap,
            failing: NOTHING,
        }
    }

    /// A reader that hands on one byte a call.
    pub fn reader<'b>(&self, bytes: &'b [u8]) -> PieceReader<'b> {
        PieceReader {
            rest: bytes,
            piece: 1,
            calls: 0,
            fails_at: self.failing.number_of(Kind::Read),
        }
    }

    /// A writer that takes seven bytes a call.
    pub fn writer(&self) -> PieceWriter {
        let stuck = self.failing.kind == Kind::EachByte;
        PieceWriter {
            held: Vec::new(self.alloc),
            piece: if stuck { 0 } else { 7 },
            calls: 0,
            fails_at: self.failing.number_of(Kind::Write),
        }
    }

    /// Refuses the request for memory of its number, counted from here on.
    pub fn begin(&self) {
        self.heap.refuse(self.failing.number_of(Kind::Memory));
    }

    /// Whether a request for memory was refused. From here on none is.
    pub fn end(&self) -> bool {
        let refused = self.failing.kind == Kind::Memory && !self.heap.is_waiting();
        self.heap.refuse(0);
        refused
    }
}
