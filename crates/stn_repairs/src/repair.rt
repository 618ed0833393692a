use stn_net::Event;
use stn_records::Id;
use stn_time::Ms;

/// A live record without which the others have a schedule: withdrawn, or amended so that it allows a
/// difference in the range, it is in no conflict.
#[derive(Clone, Copy, Debug, PartialEq, Eq)]
pub struct Repair {
    /// The id of the record.
    pub id: Id,
    /// The event from which its bound takes the difference.
    pub from: Event,
    /// The event to which its bound takes the difference.
    pub to: Event,
    /// The least difference of the two over all schedules of the others.
    pub least: Ms,
    /// The greatest difference.
    pub greatest: Ms,
}
