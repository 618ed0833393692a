use std::alloc::Allocator;
use stn_drawing::Axis;
use stn_site::OwnedSteps;
use stn_time::Ms;

/// How a plan is drawn.
#[derive(Clone, Copy)]
pub struct Look<'a> {
    /// The title.
    pub title: &'a [u8],
    /// The present, if it is shown: what is left comes then or later.
    pub present: Option<Ms>,
    /// Whether arrows lead to the start of each step from the event that holds it.
    pub arrows: bool,
    /// Steps that sites own; of two lists that have a step, the first counts.
    pub owned: &'a [OwnedSteps],
}

/// What is drawn of a plan.
#[derive(Drop)]
pub struct Chart<'a, 'b, A: Allocator> {
    pub look: &'a Look<'a>,
    /// The names of the steps, if they have any.
    pub names: &'a [Vec<u8, A>],
    pub steps: u16,
    /// The windows of the origin and of all events.
    pub windows: &'a [(Ms, Ms)],
    /// Which of these are done.
    pub done: &'b [bool],
    /// The row of each step, from that of number 0 on, which there is not.
    pub rows: &'b [u16],
    /// The event of another step that holds the start of each step, if one does, from that of number 0 on.
    pub holders: &'b [Option<u16>],
    /// The event that is overdue, if one is.
    pub overdue: Option<u16>,
    pub axis: Axis,
}
