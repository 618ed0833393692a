use crate::tests::commands::{Asked, loosen_refused, say_refused};
use crate::tests::conflict::cycle_refused;
use crate::tests::frames::text_refused;
use crate::tests::guards::guard_refused;
use crate::tests::logs::{Done, line_refused};
use crate::tests::readers::{domain_refused, plan_refused};
use crate::tests::records::{
    Change, Reading, change_refused, print_refused, read_refused, take_refused,
};
use std::alloc::Global;
use std::process::Abort;
use stn_refusing::{Outcome, Refusing};

/// What a call answered that has just returned: `right` says that its answer and what it left are those of a call with
/// memory, `unchanged` that it answered lack of memory and left all as before. From here on nothing is refused.
pub fn judged(heap: &Refusing<Global>, right: bool, unchanged: bool) -> Outcome {
    let refused = !heap.is_waiting();
    heap.refuse(0);
    Outcome::of(refused, if refused { unchanged } else { right })
}

/// A call each of whose requests for memory is refused in turn.
#[derive(Clone, Copy)]
pub enum Call<'a> {
    Cycle,
    Domain,
    Plan,
    Change(Change),
    Take,
    Reading(Reading),
    Print,
    Say(Asked, bool),
    Loosen(bool),
    Guard,
    Line(Done<'a>),
    Text,
}

// What the call answers while the request of this number is refused. The allocator refuses nothing yet: each of these functions
// asks for the refusal right before the call that is looked at.
fn answer_with(heap: &Refusing<Global>, number: u64, call: Call<'_>) -> Outcome {
    match call {
        Call::Cycle => cycle_refused(heap, number),
        Call::Domain => domain_refused(heap, number),
        Call::Plan => plan_refused(heap, number),
        Call::Change(change) => change_refused(heap, number, change),
        Call::Take => take_refused(heap, number),
        Call::Reading(reading) => read_refused(heap, number, reading),
        Call::Print => print_refused(heap, number),
        Call::Say(asked, conflict) => say_refused(heap, number, asked, conflict),
        Call::Loosen(robust) => loosen_refused(heap, number, robust),
        Call::Guard => guard_refused(heap, number),
        Call::Line(done) => line_refused(heap, number, done),
        Call::Text => text_refused(heap, number),
    }
}

fn answer_of(alloc: Global, number: u64, call: Call<'_>) -> Outcome {
    let heap = Refusing::new(alloc, 0);
    let answer = answer_with(&heap, number, call);
    drop(heap);
    answer
}

/// Has each request for memory of a call refused in turn, and gives how many there are.
pub fn requests(rt: &impl Abort, alloc: Global, call: Call<'_>) -> u64 {
    for number in 1..1000 {
        match answer_of(alloc, number, call) {
            Outcome::Right => return number,
            Outcome::Answered => {}
            Outcome::Wrong => panic!(rt; "request {number}"),
        }
    }
    panic!(rt; "more than 999 requests");
}
