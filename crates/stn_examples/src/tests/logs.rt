// Commands on logs over a store in memory, each of whose requests for memory is refused in turn.
use crate::tests::commands::{DOMAIN, PLAN};
use crate::tests::sweep::{Call, judged, requests};
use std::alloc::{Allocator, Global};
use std::process::Abort;
use stn_line::{Line, line};
use stn_logs::answer;
use stn_refusal::{Failure, Fault};
use stn_refusing::{Outcome, Refusing};
use stn_store::MemoryStore;

// What stands in the store is under these.
const NAMES: [&str; 7] = ["domain", "plan", "made", "loose", "robust", "own", "other"];

// Each is done over what those before it left: the last of them over a log whose bounds contradict each other.
const COMMANDS: [&str; 40] = [
    "stn init made 1 domain plan",
    "stn loosen loose 1 domain plan --early=1 --late=1",
    "stn loosen robust 1 domain plan --late=1 --robust",
    "stn bare own 1 2",
    "stn bare other 2 2",
    "stn add own 1 s1 e1 --lo=1 --hi=5",
    "stn add own 1 e1 s2 --lo=0 --hi=2",
    "stn add own 1 z e2 --hi=30",
    "stn add other 2 s2 e2 --lo=1 --hi=4",
    "stn merge own 1 other",
    "stn amend own 1 1.1 s1 e1 --lo=2 --hi=4",
    "stn guard own 1 --own=2:2",
    "stn report own 1",
    "stn next own 1 0",
    "stn next own 1 0 --steps=2",
    "stn ready own 1 0",
    "stn ready own 1 0 --starts",
    "stn rehearse own 1 0",
    "stn rehearse own 1 0 --steps=1",
    "stn why own 1 s2",
    "stn why own 1 s1 e2",
    "stn records own 1",
    "stn steps own 1",
    "stn steps made 1",
    "stn steps own 1 --plan=plan",
    "stn bounds made 1",
    "stn check made 1 0 5 6 11",
    "stn repairs own 1",
    "stn draw made 1",
    "stn draw own 1 --plan=plan",
    "stn done own 1 s1 1",
    "stn withdraw own 1 1.3",
    "stn add own 1 z e1 --hi=1",
    "stn report own 1",
    "stn why own 1 e1",
    "stn guard own 1 --own=2:2",
    "stn repairs own 1",
    "stn draw own 1",
    "stn explain 22",
    "stn explain",
];

/// The words of a command, what stands in the store before it, what it answers with memory, and what stands there then. Words are
/// read by the global allocator.
#[derive(Clone, Copy)]
pub struct Done<'a> {
    alloc: Global,
    words: &'a [&'a str],
    before: &'a MemoryStore<Global>,
    text: &'a [u8],
    after: &'a MemoryStore<Global>,
}

// A store with what another one has.
fn copy<A: Allocator + Copy, B: Allocator + Copy>(
    store: &MemoryStore<A>,
    alloc: B,
) -> Option<MemoryStore<B>> {
    let mut copy = MemoryStore::new(alloc);
    for name in NAMES {
        if let Some(bytes) = store.get(name) {
            copy.put(name, bytes.to_vec(alloc).ok()?).ok()?;
        }
    }
    Some(copy)
}

// Whether two stores have the same bytes under each name.
fn is_same<A: Allocator + Copy, B: Allocator + Copy>(
    store: &MemoryStore<A>,
    other: &MemoryStore<B>,
) -> bool {
    let mut same = true;
    for name in NAMES {
        same = same && store.get(name) == other.get(name);
    }
    same
}

// Whether a command answers and leaves what it does with memory, or memory was lacking.
fn is_done<'a>(
    heap: &'a Refusing<Global>,
    store: &mut MemoryStore<&'a Refusing<Global>>,
    done: Done<'_>,
) -> (bool, bool) {
    match line(done.alloc, done.words).ok() {
        Some(line) => is_answered(heap, store, &line, done),
        None => (false, false),
    }
}

// The same of its command line.
fn is_answered<'a>(
    heap: &'a Refusing<Global>,
    store: &mut MemoryStore<&'a Refusing<Global>>,
    line: &Line<'_>,
    done: Done<'_>,
) -> (bool, bool) {
    match answer(heap, store, line) {
        Ok(text) => {
            let right = text.as_slice() == done.text && is_same(store, done.after);
            drop(text);
            (right, false)
        }
        Err(failure) => (false, failure == Failure::Failed(Fault::Memory)),
    }
}

// What a command answers one of whose requests is refused: it is done as with memory, where the request only asked in advance for more
// room. Else the same command is done then.
fn do_twice<'a>(
    heap: &'a Refusing<Global>,
    number: u64,
    store: &mut MemoryStore<&'a Refusing<Global>>,
    done: Done<'_>,
) -> Outcome {
    heap.refuse(number);
    let (right, memory) = is_done(heap, store, done);
    let unchanged = memory && is_same(store, done.before);
    let answer = judged(heap, right, unchanged || right);
    answer.only_if(right || is_done(heap, store, done).0)
}

/// What a command on a log answers while a request is refused.
pub fn line_refused(heap: &Refusing<Global>, number: u64, done: Done<'_>) -> Outcome {
    let Some(mut store) = copy(done.before, heap) else {
        return Outcome::Wrong;
    };
    let answer = do_twice(heap, number, &mut store, done);
    drop(store);
    answer
}

// The store with the texts of a domain and of a plan.
fn texts(alloc: Global) -> Option<MemoryStore<Global>> {
    let mut store = MemoryStore::new(alloc);
    store.put("domain", DOMAIN.to_vec(alloc).ok()?).ok()?;
    store.put("plan", PLAN.to_vec(alloc).ok()?).ok()?;
    Some(store)
}

// What a command answers with memory.
fn text_of(alloc: Global, store: &mut MemoryStore<Global>, words: &[&str]) -> Option<Vec<u8>> {
    let line = line(alloc, words).ok()?;
    answer(alloc, store, &line).ok()
}

// Has each request of a command refused in turn.
fn refuse_each<'a>(
    rt: &impl Abort,
    alloc: Global,
    words: &'a [&'a str],
    before: &'a MemoryStore<Global>,
    text: &'a [u8],
    after: &'a MemoryStore<Global>,
) {
    let done = Done {
        alloc,
        words,
        before,
        text,
        after,
    };
    assert!(rt; requests(rt, alloc, Call::Line(done)) > 5);
}

// The store that a command leaves, each of whose requests was refused in turn.
fn sweep_line(
    rt: &impl Abort,
    alloc: Global,
    before: &MemoryStore<Global>,
    words: &[&str],
) -> Option<MemoryStore<Global>> {
    let mut after = copy(before, alloc)?;
    let text = text_of(alloc, &mut after, words)?;
    refuse_each(rt, alloc, words, before, &text, &after);
    Some(after)
}

fn sweep_lines(rt: &impl Abort, alloc: Global) -> Option<()> {
    let mut store = texts(alloc)?;
    for command in COMMANDS {
        let words: Vec<&str> = command.split(' ').collect(alloc).ok()?;
        store = sweep_line(rt, alloc, &store, &words)?;
    }
    Some(())
}

#[test]
fn commands_without_memory(rt: HostRuntime) {
    assert!(rt; sweep_lines(&rt, rt.alloc()).is_some());
}
