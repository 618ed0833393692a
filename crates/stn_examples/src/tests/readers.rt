use crate::tests::sweep::{Call, judged, requests};
use std::alloc::Global;
use stn_lift::{Plan, PlanFault};
use stn_pddl::{Domain, DomainFault};
use stn_refusing::{Outcome, Refusing};

const DOMAIN: &[u8] =
    b"(define (domain d) (:durative-action mend :parameters (?f) :duration (= ?duration 5) :effect (at end (p ?f c))))";

const PLAN: &[u8] = b"0: (mend f) [5]\n6: (mend g)\n";

fn has_action(domain: Domain<&Refusing<Global>>) -> bool {
    let has = domain.action(b"mend").is_some();
    drop(domain);
    has
}

// Whether the domain that was read has its action, or memory was lacking.
fn is_domain(read: Result<Domain<&Refusing<Global>>, DomainFault>) -> (bool, bool) {
    match read {
        Ok(domain) => (has_action(domain), false),
        Err(fault) => (false, fault == DomainFault::Memory),
    }
}

/// What the domain is read as while a request is refused.
pub fn domain_refused(heap: &Refusing<Global>, number: u64) -> Outcome {
    heap.refuse(number);
    let (right, memory) = is_domain(Domain::read(heap, DOMAIN));
    judged(heap, right, memory)
}

#[test]
fn domains(rt: HostRuntime) {
    assert!(rt; requests(&rt, rt.alloc(), Call::Domain) > 4);
}

// Whether the plan that was read has both steps, or memory was lacking.
fn is_plan(read: Result<Plan<&Refusing<Global>>, PlanFault>) -> (bool, bool) {
    match read {
        Ok(plan) => (plan.steps().len() == 2, false),
        Err(fault) => (false, fault == PlanFault::Memory),
    }
}

/// What the plan is read as while a request is refused.
pub fn plan_refused(heap: &Refusing<Global>, number: u64) -> Outcome {
    heap.refuse(number);
    let (right, memory) = is_plan(Plan::read(heap, PLAN));
    judged(heap, right, memory)
}

#[test]
fn plans(rt: HostRuntime) {
    assert!(rt; requests(&rt, rt.alloc(), Call::Plan) > 3);
}
