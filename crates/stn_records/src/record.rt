use stn_net::Bound;

/// What a record says of its bound.
#[derive(Clone, Copy, Debug, PartialEq, Eq)]
pub enum Mark {
    /// A bound that a site added.
    Plain,
    /// The time at which an event took place: a bound from the origin with equal sides.
    Done,
}

/// A bound that a site added, with its mark.
#[derive(Clone, Copy, Debug, PartialEq, Eq)]
pub struct Record {
    /// The mark.
    pub mark: Mark,
    /// The bound.
    pub bound: Bound,
}
