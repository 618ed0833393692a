ghost use Rattle.std.specs.Prelude.{◌≡◌, MatchOption};
ghost use Rattle.stn_wire.specs.Frame.{content, said_content, IsOld};

use std::alloc::Allocator;
use stn_lift::Source;
use stn_records::Records;

/// What one site says to another.
#[derive(Drop)]
pub enum Frame<A: Allocator> {
    /// The plan of the site, as the old version said it.
    OldHello(Source<A>),
    /// Records and withdrawn ids, as the old version said them: a side that was open then is open now.
    OldRecords(Records<A>),
    /// The plan of the site, by what its base is made from.
    Hello(Source<A>),
    /// Records with the ids that they replace, and withdrawn ids.
    Records(Records<A>),
    /// A report is wanted.
    Ask,
    /// A text, as a report.
    Text(Vec<u8, A>),
    /// What was said is refused, with a code.
    Refused(u8),
    /// Both sites have the same plan.
    Same,
}

impl<A: Allocator> Frame<A> {
    /// The frame, by what it is about; none where it is one of the old version.
    pub fn said(&self) -> Option<Said<'_, A>>
        ensures { MatchOption result (IsOld (content self.now))
            (λ said. (said_content said ≡ content self.now) × ¬ IsOld (content self.now)) }
    {
        match self {
            Frame::OldHello(_) => None,
            Frame::OldRecords(_) => None,
            Frame::Hello(source) => Some(Said::Hello(source)),
            Frame::Records(state) => Some(Said::Records(state)),
            Frame::Ask => Some(Said::Ask),
            Frame::Text(bytes) => Some(Said::Text(bytes)),
            Frame::Refused(code) => Some(Said::Refused(*code)),
            Frame::Same => Some(Said::Same),
        }
    }
}

/// What one site says to another, by what it is about: a frame that holds no copy of it.
#[derive(Drop)]
pub enum Said<'a, A: Allocator> {
    /// The plan of the site.
    Hello(&'a Source<A>),
    /// Records with the ids that they replace, and withdrawn ids.
    Records(&'a Records<A>),
    /// A report is wanted.
    Ask,
    /// A text.
    Text(&'a [u8]),
    /// A refusal, with its code.
    Refused(u8),
    /// Both sites have the same plan.
    Same,
}
