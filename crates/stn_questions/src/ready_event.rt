use stn_net::Event;
use stn_time::Ms;

/// An event that may run at some time from now on, with the first and the last such time. It may run at
/// each whole millisecond between, too.
#[derive(Clone, Copy, Debug, PartialEq, Eq, PartialOrd, Ord)]
pub struct ReadyEvent {
    /// The first time.
    pub first: Ms,
    /// The event.
    pub event: Event,
    /// The last time.
    pub last: Ms,
}
