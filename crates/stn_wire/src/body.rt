// Bodies of frames: a table by kinds.
ghost use Rattle.std.specs.Prelude.{◌≡◌, ◌∷◌, ◌≤◌, ◌++◌, length, IfOk, OnOk, option_map, if◌then◌else◌};
ghost use Rattle.stn_wire.specs.{Frame.{most_body, content, said_content, kind_of, rest_of, body_of, HasSpelling}, Reading.IsBodyReading};

use crate::frame::{Frame, Said};
use crate::layout::Layout;
use crate::source::{append_source, read_source};
use crate::state::{append_state, kind_of_records, read_state};
use std::alloc::Allocator;
use stn_time::Memory;

pub(crate) fn read_body<A: Allocator + Copy>(
    alloc: A,
    body: &[u8],
) -> Result<Option<Frame<A>>, Memory>
    ensures { IfOk result (λ r. IsBodyReading body.now (option_map content r)) }
{
    match body.split_first() {
        Some((1, rest)) => read_old_hello(alloc, rest),
        Some((2, rest)) => read_old_records(alloc, rest),
        Some((3, rest)) => Ok(rest.is_empty().then_some(Frame::Ask)),
        Some((4, rest)) => read_text(alloc, rest),
        Some((5, rest)) => Ok(read_refused(rest)),
        Some((6, rest)) => Ok(rest.is_empty().then_some(Frame::Same)),
        Some((7, rest)) => read_hello(alloc, rest),
        Some((8, rest)) => read_records(alloc, false, rest),
        Some((16, rest)) => read_records(alloc, true, rest),
        _ => Ok(None),
    }
}

fn read_old_hello<A: Allocator + Copy>(alloc: A, rest: &[u8]) -> Result<Option<Frame<A>>, Memory>
    ensures { IfOk result (λ r. IsBodyReading (1 ∷ rest.now) (option_map content r)) }
{
    Ok(read_source(alloc, rest)?.map(|source| Frame::OldHello(source)))
}

fn read_old_records<A: Allocator + Copy>(alloc: A, rest: &[u8]) -> Result<Option<Frame<A>>, Memory>
    ensures { IfOk result (λ r. IsBodyReading (2 ∷ rest.now) (option_map content r)) }
{
    Ok(read_state(alloc, Layout::Old, false, rest)?.map(|state| Frame::OldRecords(state)))
}

fn read_hello<A: Allocator + Copy>(alloc: A, rest: &[u8]) -> Result<Option<Frame<A>>, Memory>
    ensures { IfOk result (λ r. IsBodyReading (7 ∷ rest.now) (option_map content r)) }
{
    Ok(read_source(alloc, rest)?.map(|source| Frame::Hello(source)))
}

fn read_records<A: Allocator + Copy>(
    alloc: A,
    amended: bool,
    rest: &[u8],
) -> Result<Option<Frame<A>>, Memory>
    ensures { IfOk result (λ r. IsBodyReading ((if amended then 16 else 8) ∷ rest.now) (option_map content r)) }
{
    Ok(read_state(alloc, Layout::New, amended, rest)?.map(|state| Frame::Records(state)))
}

fn read_text<A: Allocator>(alloc: A, rest: &[u8]) -> Result<Option<Frame<A>>, Memory>
    ensures { IfOk result (λ r. IsBodyReading (4 ∷ rest.now) (option_map content r)) }
{
    Ok(Some(Frame::Text(Vec::from_slice(alloc, rest)?)))
}

fn read_refused<A: Allocator>(rest: &[u8]) -> Option<Frame<A>>
    ensures { IsBodyReading (5 ∷ rest.now) (option_map content result) }
{
    let (code, behind) = rest.split_first()?;
    behind.is_empty().then_some(Frame::Refused(*code))
}

impl<A: Allocator + Copy> Said<'_, A> {
    /// Appends the body of a frame that says this.
    pub(crate) fn append_body<B: Allocator>(&self, out: &mut Vec<u8, B>) -> Result<(), Memory>
        requires { length (body_of (said_content self.now)) ≤ most_body }
        ensures appended { OnOk result (out.new.items ≡ out.old.items ++ body_of (said_content self.now)) }
        ensures said { OnOk result (HasSpelling (said_content self.now)) }
    {
        out.push(self.kind())?;
        self.append_rest(out)
    }

    fn kind(&self) -> u8
        ensures { result ≡ kind_of (said_content self.now) }
    {
        match self {
            Said::Hello(_) => 7,
            Said::Records(state) => kind_of_records(state),
            Said::Ask => 3,
            Said::Text(_) => 4,
            Said::Refused(_) => 5,
            Said::Same => 6,
        }
    }

    // Appends what stands after the kind.
    fn append_rest<B: Allocator>(&self, out: &mut Vec<u8, B>) -> Result<(), Memory>
        requires { length (rest_of (said_content self.now)) ≤ most_body }
        ensures appended { OnOk result (out.new.items ≡ out.old.items ++ rest_of (said_content self.now)) }
        ensures said { OnOk result (HasSpelling (said_content self.now)) }
    {
        match self {
            Said::Hello(source) => append_source(out, source),
            Said::Records(state) => append_state(out, state),
            Said::Ask => Ok(()),
            Said::Text(bytes) => out.extend_from_slice(bytes),
            Said::Refused(code) => out.extend_from_slice(&[*code]),
            Said::Same => Ok(()),
        }
    }
}
