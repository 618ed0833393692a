use stn_net::Bound;
use stn_records::{Id, JoinFault, Mark, Record, RecordsFault};
use stn_time::Memory;

pub fn append_id(id: Id, out: &mut Vec<u8>) -> Result<(), Memory> {
    out.push(b' ')?;
    id.print(out)
}

// The event that a bound ends at, and both sides.
fn append_bound(bound: Bound, out: &mut Vec<u8>) -> Result<(), Memory> {
    out.push(b' ')?;
    bound.to().print(out)?;
    out.push(b' ')?;
    bound.lo().print(out)?;
    out.push(b' ')?;
    bound.hi().print(out)
}

fn word_of_mark(mark: Mark) -> &'static [u8] {
    match mark {
        Mark::Plain => b"",
        Mark::Done => b" done",
    }
}

/// What a map has of an id.
pub trait Shown: Copy {
    /// Appends it, after the id.
    fn append(self, id: Id, out: &mut Vec<u8>) -> Result<(), Memory>;
}

// A record as its bound; `done` where it says that the event was run.
impl Shown for Record {
    fn append(self, id: Id, out: &mut Vec<u8>) -> Result<(), Memory> {
        append_id(id, out)?;
        append_bound(self.bound, out)?;
        out.extend_from_slice(word_of_mark(self.mark))
    }
}

// The id that a new record replaces.
impl Shown for Id {
    fn append(self, id: Id, out: &mut Vec<u8>) -> Result<(), Memory> {
        append_id(id, out)?;
        append_id(self, out)
    }
}

// A withdrawn or replaced id has nothing more.
impl Shown for () {
    fn append(self, id: Id, out: &mut Vec<u8>) -> Result<(), Memory> {
        append_id(id, out)
    }
}

/// Appends all that a map has.
pub fn append_all<X: Shown>(all: &[(Id, X)], out: &mut Vec<u8>) -> Result<(), Memory> {
    for &(id, value) in all {
        value.append(id, out)?;
    }
    Ok(())
}

pub fn append_number(number: usize, out: &mut Vec<u8>) -> Result<(), Memory> {
    let alloc = *out.allocator();
    let text = format!(in alloc; "{number}")?;
    out.extend_from_slice(text.as_bytes())
}

/// What a call that changes what a site holds says of it.
pub type Said = Result<(), RecordsFault>;

pub fn said_of_join(answer: &Result<(), JoinFault>) -> Said {
    match answer {
        Ok(()) => Ok(()),
        Err(JoinFault::Clash(id)) => Err(RecordsFault::Clash(*id)),
        Err(JoinFault::Memory) => Err(RecordsFault::Memory),
    }
}

fn append_clash(id: Id, out: &mut Vec<u8>) -> Result<(), Memory> {
    out.extend_from_slice(b"clash")?;
    append_id(id, out)
}

pub fn append_said(said: &Said, out: &mut Vec<u8>) -> Result<(), Memory> {
    match said {
        Ok(()) => out.extend_from_slice(b"ok"),
        Err(RecordsFault::SelfReplace) => out.extend_from_slice(b"self"),
        Err(RecordsFault::Clash(id)) => append_clash(*id, out),
        Err(RecordsFault::Unknown) => out.extend_from_slice(b"unknown"),
        Err(RecordsFault::Full) => out.extend_from_slice(b"full"),
        Err(RecordsFault::Memory) => out.extend_from_slice(b"memory"),
    }
}
