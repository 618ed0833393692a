ghost use Rattle.stn_net.specs.Difference.{NamesEvents};

use crate::tests::sweep::{Call, judged, requests};
use std::alloc::Global;
use stn_conflict::{Cycle, Link, Side, cycle};
use stn_lift::Base;
use stn_net::{Bound, Event};
use stn_refusing::{Outcome, Refusing};
use stn_time::{HORIZON, Memory, Ms};

// The end comes five seconds after the start.
fn duration() -> Bound
    ensures { NamesEvents 2 result }
{
    let five = Ms::new(5_000).unwrap();
    Bound::new(
        2,
        Event::new(1).unwrap(),
        Event::new(2).unwrap(),
        five,
        five,
    )
    .unwrap()
}

// The end comes at most four seconds after the origin.
fn deadline() -> Bound
    ensures { NamesEvents 2 result }
{
    let least = Ms::new(-HORIZON).unwrap();
    let four = Ms::new(4_000).unwrap();
    Bound::new(2, Event::origin(), Event::new(2).unwrap(), least, four).unwrap()
}

// The upper link of the deadline, the lower one of the duration, and the lower one of the start's horizon bound.
const NAMED: [Link; 3] = [
    Link {
        place: 3,
        side: Side::Upper,
    },
    Link {
        place: 2,
        side: Side::Lower,
    },
    Link {
        place: 0,
        side: Side::Lower,
    },
];

fn is_named(cycle: &Cycle<&Refusing<Global>>) -> bool {
    cycle.sum == -1_000 && cycle.links.as_slice() == NAMED.as_slice()
}

// Whether the named cycle was found, or memory was lacking.
fn is_found(found: Result<Option<Cycle<&Refusing<Global>>>, Memory>) -> (bool, bool) {
    match found {
        Ok(Some(cycle)) => (is_named(&cycle), false),
        Ok(None) => (false, false),
        Err(_) => (false, true),
    }
}

/// What is found while a request is refused.
pub fn cycle_refused(heap: &Refusing<Global>, number: u64) -> Outcome {
    let Ok(base) = Base::bare(heap, 1) else {
        return Outcome::Wrong;
    };
    heap.refuse(number);
    let found = cycle(heap, 2, base.bounds(), &[duration(), deadline()]);
    drop(base);
    let (right, memory) = is_found(found);
    judged(heap, right, memory)
}

#[test]
fn want_of_memory(rt: HostRuntime) {
    assert!(rt; requests(&rt, rt.alloc(), Call::Cycle) > 2);
}
