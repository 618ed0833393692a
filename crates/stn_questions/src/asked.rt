use stn_net::Event;

/// A question about a plan.
#[derive(Clone, Copy, Debug, PartialEq, Eq)]
pub enum Question {
    /// Which records are known, and what became of them?
    Records,
    /// What is each step?
    Steps,
    /// Which bounds does the plan have?
    Bounds,
    /// Why does this event's window end where it does?
    Why(Event),
    /// Why does the second of these events come no sooner and no later after the first?
    WhyApart(Event, Event),
}
