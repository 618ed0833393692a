use std::alloc::Global;
use stn_net::Event;

// Whether the event of a number is read as it is printed.
fn is_read_as_printed(alloc: Global, number: u16) -> bool {
    let mut text = Vec::new(alloc);
    match Event::new(number) {
        Some(event) => event.print(&mut text).is_ok() && Event::read(&text) == Some(event),
        None => false,
    }
}

#[test]
fn events_read_as_printed(rt: HostRuntime) {
    for number in 0..513u16 {
        assert!(rt; is_read_as_printed(rt.alloc(), number), "event {number}");
    }
    assert!(rt; Event::new(513).is_none());
}
