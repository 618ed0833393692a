use std::alloc::Global;
use stn_refusing::Refusing;

// Whether a vector gets memory for its first element.
fn gets_memory(heap: &Refusing<Global>) -> bool {
    let mut items = Vec::new(heap);
    items.push(1u8).is_ok()
}

#[test]
fn refuses_the_request_of_its_number(rt: HostRuntime) {
    let heap = Refusing::new(rt.alloc(), 2);
    assert!(rt; gets_memory(&heap));
    assert!(rt; heap.is_waiting());
    assert!(rt; !gets_memory(&heap));
    assert!(rt; !heap.is_waiting());
    assert!(rt; gets_memory(&heap));
}

#[test]
fn refuses_from_now_on(rt: HostRuntime) {
    let heap = Refusing::new(rt.alloc(), 0);
    assert!(rt; gets_memory(&heap));
    heap.refuse(1);
    assert!(rt; !gets_memory(&heap));
    heap.refuse(0);
    assert!(rt; gets_memory(&heap));
}
