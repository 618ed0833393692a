use std::alloc::Global;
use std::rc::Rc;
use stn_lift::Base;
use stn_matrix::Matrix;
use stn_net::Event;
use stn_records::{Id, Site};
use stn_refusing::Refusing;
use stn_replica::Replica;
use stn_site::ReplicaFault;
use stn_time::{HORIZON, Ms};

// Whether a matrix is made while the request of this number is refused.
fn makes_matrix(alloc: Global, number: u64) -> bool {
    let heap = Refusing::new(alloc, number);
    Matrix::bare(&heap, 512).is_ok()
}

// A matrix is one request for memory.
#[test]
fn one_request(rt: HostRuntime) {
    assert!(rt; makes_matrix(rt.alloc(), 2));
    assert!(rt; !makes_matrix(rt.alloc(), 1));
}

// Adds a bound between the two events of a step, at most so many milliseconds shorter than a second.
fn add_bound(replica: &mut Replica<&Refusing<Global>>, shorter: u16) -> bool {
    let start = Event::new(1).unwrap();
    let end = Event::new(2).unwrap();
    let least = Ms::new(0).unwrap();
    let most = Ms::new(1_000 - i64::from(shorter)).unwrap();
    replica.add(start, end, least, most).is_ok()
}

// Adds bounds, each at most a millisecond shorter than the one before.
fn add_bounds(replica: &mut Replica<&Refusing<Global>>) -> bool {
    let mut added = true;
    for number in 0..256u16 {
        added = added && add_bound(replica, number);
    }
    added
}

fn new_replica(heap: &Refusing<Global>) -> Option<Replica<&Refusing<Global>>> {
    let base = Base::bare(heap, 1).ok()?;
    let base = Rc::new(heap, base).ok()?;
    Replica::new(heap, Site::new(1).unwrap(), base).ok()
}

fn add_to_new(heap: &Refusing<Global>) -> bool {
    match new_replica(heap) {
        Some(mut replica) => {
            let added = add_bounds(&mut replica);
            drop(replica);
            added
        }
        None => false,
    }
}

// The additions of a replica ask for memory for their records alone, not for a matrix each.
#[test]
fn few_requests(rt: HostRuntime) {
    let heap = Refusing::new(rt.alloc(), 256);
    assert!(rt; add_to_new(&heap));
    assert!(rt; heap.is_waiting());
}

// Adds a bound that says nothing.
fn add_open(replica: &mut Replica<&Refusing<Global>>) -> Result<Id, ReplicaFault> {
    let least = Ms::new(-HORIZON).unwrap();
    let most = Ms::new(HORIZON).unwrap();
    replica.add(Event::origin(), Event::new(1).unwrap(), least, most)
}

// What two sites do, the first of which holds as many records as a site can.
#[derive(Clone, Copy)]
enum Step {
    Add,
    Merge,
    Withdraw,
    AddBeside,
    MergeBeside,
}

// Whether the answer is that with memory, or memory was lacking.
fn told<T: Drop>(answer: Result<T, ReplicaFault>, wanted: Option<ReplicaFault>) -> (bool, bool) {
    let fault = answer.err();
    (fault == wanted, fault == Some(ReplicaFault::Memory))
}

fn take_step<'a>(
    full: &mut Replica<&'a Refusing<Global>>,
    beside: &mut Replica<&'a Refusing<Global>>,
    step: Step,
) -> (bool, bool) {
    let first = Id::new(Site::new(1).unwrap(), 1).unwrap();
    match step {
        Step::Add => told(add_open(full), Some(ReplicaFault::Full)),
        Step::Merge => told(full.take(beside.records()), None),
        Step::Withdraw => told(full.withdraw(first), None),
        Step::AddBeside => told(add_open(beside), None),
        Step::MergeBeside => told(beside.take(full.records()), Some(ReplicaFault::Full)),
    }
}

// Has each request for memory of a step refused in turn: the answer is lack of memory, and no site knows more, until none is refused.
fn answers_step<'a>(
    heap: &Refusing<Global>,
    full: &mut Replica<&'a Refusing<Global>>,
    beside: &mut Replica<&'a Refusing<Global>>,
    step: Step,
) -> bool {
    let known = beside.records().known();
    for number in 1..1000 {
        heap.refuse(number);
        let (right, memory) = take_step(full, beside, step);
        let lacking = memory && !heap.is_waiting() && beside.records().known() == known;
        heap.refuse(0);
        if right || !lacking {
            return right;
        }
    }
    false
}

fn answers_steps<'a>(
    heap: &Refusing<Global>,
    full: &mut Replica<&'a Refusing<Global>>,
    beside: &mut Replica<&'a Refusing<Global>>,
) -> bool {
    let mut right = true;
    for step in [
        Step::Add,
        Step::Merge,
        Step::Withdraw,
        Step::AddBeside,
        Step::MergeBeside,
    ] {
        right = right && answers_step(heap, full, beside, step);
    }
    right
}

fn fill(replica: &mut Replica<&Refusing<Global>>) -> bool {
    let mut filled = true;
    for _ in 0..4_096u16 {
        filled = filled && add_open(replica).is_ok();
    }
    filled
}

fn answers_when_full(heap: &Refusing<Global>) -> Option<bool> {
    let mut full = new_replica(heap)?;
    let mut beside = full.beside(Site::new(2).unwrap()).ok()?;
    Some(fill(&mut full) && answers_steps(heap, &mut full, &mut beside))
}

#[test]
fn full_sites_without_memory(rt: HostRuntime) {
    let heap = Refusing::new(rt.alloc(), 0);
    assert!(rt; answers_when_full(&heap) == Some(true));
}
