// Sessions as long as may be and one byte longer, of HELLO frames that are answered each with SAME; and frames that name as many
// ids as may be, and one more.
use crate::sessions::serve_anew;
use std::alloc::{AllocError, Global};
use std::io;
use std::io::{Read, Write};
use stn_device::Counted;
use stn_session::{ServeFault, Served};

// HELLO of a bare plan of one step, and SAME.
const HELLO: [u8; 8] = [0, 0, 0, 4, 7, 0, 0, 1];

const SAME: [u8; 5] = [0, 0, 0, 1, 6];

// Hands on so many bytes, HELLO after HELLO.
#[derive(Drop)]
struct Hellos {
    left: usize,
    at: usize,
}

impl Read for Hellos {
    fn read(&mut self, buf: &mut [u8]) -> io::Result<usize> {
        let count = self.left.min(buf.len());
        self.left -= count;
        for byte in buf[..count].iter_mut() {
            *byte = HELLO[self.at % HELLO.len()];
            self.at = self.at.wrapping_add(1);
        }
        Ok(count)
    }
}

// Takes SAME after SAME, and counts the bytes and those that are others.
#[derive(Drop)]
struct Sames {
    count: usize,
    wrong: usize,
}

impl Write for Sames {
    fn write(&mut self, buf: &[u8]) -> io::Result<usize> {
        for byte in buf {
            if *byte != SAME[self.count % SAME.len()] {
                self.wrong = self.wrong.saturating_add(1);
            }
            self.count = self.count.saturating_add(1);
        }
        Ok(buf.len())
    }

    fn flush(&mut self) -> io::Result<()> {
        Ok(())
    }
}

fn print_end(rt: &HostRuntime, served: Result<Served, ServeFault>) -> io::Result<()> {
    match served {
        Ok(served) => println!(rt; "{} frames, {:?}", served.frames, served.end),
        Err(fault) => println!(rt; "{fault}"),
    }
}

// A session of so many bytes of HELLO frames.
fn print_hellos(rt: &HostRuntime, bytes: usize) -> io::Result<()> {
    let mut reader = Counted::new(Hellos { left: bytes, at: 0 });
    let mut writer = Counted::new(Sames { count: 0, wrong: 0 });
    let served = serve_anew(rt.alloc(), &mut reader, &mut writer);
    let Sames { count, wrong } = writer.into_inner();
    print!(rt; "session of {bytes} bytes: replies of {count} bytes, {wrong} wrong; ")?;
    print_end(rt, served)
}

// The bound from the origin to the first event that leaves it free.
const FREE_BOUND: [u8; 21] = [
    0, 0, 0, 0, 1, 0, 0, 0, 0, 0, 0, 0, 0, 0, 0, 0, 0x0e, 0xaf, 0x62, 0x58, 0,
];

// So many records of site 1, from the counter 1 on, of this bound.
fn append_records(bytes: &mut Vec<u8>, count: u16) -> Result<(), AllocError> {
    bytes.extend_from_slice(&count.to_be_bytes())?;
    for number in 0..count {
        append_id(bytes, 1, number.wrapping_add(1))?;
        bytes.extend_from_slice(&FREE_BOUND)?;
    }
    Ok(())
}

fn append_id(bytes: &mut Vec<u8>, site: u8, counter: u16) -> Result<(), AllocError> {
    bytes.extend_from_slice(&[0, site])?;
    bytes.extend_from_slice(&counter.to_be_bytes())
}

// So many ids of a site, from the counter 1 on.
#[derive(Clone, Copy)]
struct Ids {
    site: u8,
    count: u16,
}

const NONE: Ids = Ids { site: 1, count: 0 };

fn append_withdrawn(bytes: &mut Vec<u8>, ids: Ids) -> Result<(), AllocError> {
    bytes.extend_from_slice(&ids.count.to_be_bytes())?;
    for number in 0..ids.count {
        append_id(bytes, ids.site, number.wrapping_add(1))?;
    }
    Ok(())
}

// The records of site 1, from the counter 1 on, replace one of the ids each: the first the second, and so on, and the last the first.
fn append_replaced(bytes: &mut Vec<u8>, ids: Ids) -> Result<(), AllocError> {
    bytes.extend_from_slice(&ids.count.to_be_bytes())?;
    for number in 0..ids.count {
        let counter = number.wrapping_add(1);
        let next = counter.checked_rem(ids.count).unwrap_or(0);
        append_id(bytes, 1, counter)?;
        append_id(bytes, ids.site, next.wrapping_add(1))?;
    }
    Ok(())
}

// What a RECORDS frame holds: so many records of site 1, withdrawn ids, and ids that records replace.
#[derive(Clone, Copy)]
struct Held {
    records: u16,
    withdrawn: Ids,
    replaced: Ids,
}

impl Held {
    fn new(records: u16, withdrawn: Ids, replaced: Ids) -> Held {
        Held {
            records,
            withdrawn,
            replaced,
        }
    }

    // Those of sites of their own.
    fn apart(records: u16, withdrawn: u16, replaced: u16) -> Held {
        Held {
            records,
            withdrawn: Ids {
                site: 2,
                count: withdrawn,
            },
            replaced: Ids {
                site: 3,
                count: replaced,
            },
        }
    }
}

// Appends a frame of this kind.
fn append_frame(bytes: &mut Vec<u8>, kind: u8, rest: &[u8]) -> Result<(), AllocError> {
    let length = u32::try_from(rest.len())
        .unwrap_or(u32::MAX)
        .saturating_add(1);
    bytes.extend_from_slice(&length.to_be_bytes())?;
    bytes.push(kind)?;
    bytes.extend_from_slice(rest)
}

// Appends the lists of a RECORDS frame.
fn append_lists(lists: &mut Vec<u8>, held: Held) -> Result<(), AllocError> {
    append_records(lists, held.records)?;
    append_withdrawn(lists, held.withdrawn)?;
    if held.replaced.count > 0 {
        append_replaced(lists, held.replaced)?;
    }
    Ok(())
}

// Appends a RECORDS frame, which is of another kind where records replace others.
fn append_held(bytes: &mut Vec<u8>, held: Held) -> Result<(), AllocError> {
    let kind = if held.replaced.count == 0 { 8 } else { 16 };
    let mut lists = Vec::new(*bytes.allocator());
    append_lists(&mut lists, held)?;
    append_frame(bytes, kind, &lists)
}

fn append_all_held(bytes: &mut Vec<u8>, all: &[Held]) -> Result<(), AllocError> {
    for held in all {
        append_held(bytes, *held)?;
    }
    Ok(())
}

// HELLO or SAME, and a RECORDS frame for each of these.
fn told(alloc: Global, first: &[u8], rest: &[Held]) -> Result<Vec<u8>, AllocError> {
    let mut bytes = Vec::from_slice(alloc, first)?;
    append_all_held(&mut bytes, rest)?;
    Ok(bytes)
}

// Whether the replies are those that are wanted, and how the session ended.
fn print_judged(
    rt: &HostRuntime,
    are_wanted: bool,
    served: Result<Served, ServeFault>,
) -> io::Result<()> {
    let word = if are_wanted { "" } else { "not " };
    print!(rt; "replies {word}as wanted; ")?;
    print_end(rt, served)
}

// Serves a session, prints how it ended and whether its replies are those that are wanted.
fn print_replies(rt: &HostRuntime, input: &[u8], wanted: &[u8]) -> io::Result<()> {
    let mut reader = Counted::new(input);
    let mut writer = Counted::new(Vec::new(rt.alloc()));
    let served = serve_anew(rt.alloc(), &mut reader, &mut writer);
    let replies = writer.into_inner();
    print_judged(rt, replies.as_slice() == wanted, served)
}

// The same for a session with the frames of `input`, whose replies should be the frames of `wanted`.
fn print_told(rt: &HostRuntime, input: &[Held], wanted: &[Held]) -> io::Result<()> {
    let input = told(rt.alloc(), &HELLO, input)?;
    let wanted = told(rt.alloc(), &SAME, wanted)?;
    print_replies(rt, &input, &wanted)
}

// A frame with 4,096 records, one with 4,096 withdrawn ids of the same, one with both, and one in which these records also replace
// each other.
fn print_full_frames(rt: &HostRuntime) -> io::Result<()> {
    print!(rt; "frames of 4096 records, withdrawn ids and replaced ids: ")?;
    let all = Ids {
        site: 1,
        count: 4096,
    };
    let records = Held::new(4096, NONE, NONE);
    let withdrawn = Held::new(0, all, NONE);
    let both = Held::new(4096, all, NONE);
    let each = Held::new(4096, all, all);
    print_told(
        rt,
        &[records, withdrawn, both, each],
        &[records, both, both, each],
    )
}

// What is named by a frame.
fn print_held(rt: &HostRuntime, held: Held) -> io::Result<()> {
    let Held {
        records,
        withdrawn,
        replaced,
    } = held;
    print!(rt;
        "frame of {records} records of site 1, {} withdrawn ids of site {}, {} replaced ids of site {}: ",
        withdrawn.count, withdrawn.site, replaced.count, replaced.site
    )
}

// A frame that names as many ids as may be.
fn print_full_frame(rt: &HostRuntime, held: Held) -> io::Result<()> {
    print_held(rt, held)?;
    print_told(rt, &[held], &[held])
}

// A frame that names one id too many.
fn print_overfull_frame(rt: &HostRuntime, held: Held) -> io::Result<()> {
    print_held(rt, held)?;
    let input = told(rt.alloc(), &HELLO, &[held])?;
    print_replies(rt, &input, &[0, 0, 0, 1, 6, 0, 0, 0, 2, 5, 52])
}

// Frames whose ids stand in one list or in two.
fn print_overfull_frames(rt: &HostRuntime) -> io::Result<()> {
    let too_many = Ids {
        site: 1,
        count: 4097,
    };
    print_overfull_frame(rt, Held::new(4097, NONE, NONE))?;
    print_overfull_frame(rt, Held::new(0, too_many, NONE))?;
    print_overfull_frame(rt, Held::apart(4096, 1, 0))?;
    print_overfull_frame(rt, Held::apart(4096, 0, 1))
}

// Frames whose ids stand in three lists.
fn print_frames_of_three_lists(rt: &HostRuntime) -> io::Result<()> {
    print_full_frame(rt, Held::apart(2048, 1024, 1024))?;
    print_overfull_frame(rt, Held::apart(2049, 1024, 1024))?;
    print_overfull_frame(rt, Held::apart(2048, 1025, 1024))?;
    print_overfull_frame(rt, Held::apart(2048, 1024, 1025))
}

/// Prints what these sessions came to.
pub fn print_limits(rt: &HostRuntime) -> io::Result<()> {
    print_full_frames(rt)?;
    print_overfull_frames(rt)?;
    print_frames_of_three_lists(rt)?;
    print_hellos(rt, 16_777_216)?;
    print_hellos(rt, 16_777_217)
}
