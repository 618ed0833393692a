ghost use Rattle.std.specs.Prelude.{◌≡◌, ◌+◌, ◌≤◌, ◌++◌, ◌∷◌, [], List, length, take, All, IfOk, IfSome, OnOk, OnErr, MatchOption};
ghost use Rattle.stn_net.specs.{Event.most_events, Difference.{Difference, NamesEvents}, Horizon.horizon_bounds, Schedule.HasSchedule, Windows.Window.IsWindow};
ghost use Rattle.stn_conflict.specs.Relaxation.{IsEnds, IsNetwork, AreSingle};

use crate::arcs::{Direction, side_of};
use crate::graph::Graph;
use crate::links::Side;
use crate::outgoing::Rows;
use crate::reach::search_from;
use crate::relaxation::Search;
use std::alloc::Allocator;
use std::marker::Model;
use stn_net::{Bound, Event};
use stn_time::{Memory, Ms};

/// The windows of a plan's events, which bounds on single events make narrower.
#[derive(Drop)]
pub struct Windows<A: Allocator> {
    events: u16,
    bounds: Vec<Bound, A>,
    // The first bounds, whose links are looked at; each after them is on a single event.
    given: usize,
    latest: Ends<A>,
    // The earliest times, with their signs changed.
    earliest: Ends<A>,
}

// How long after an event each can come at the most, by bounds or by bounds turned round, and what lowers that.
#[derive(Drop)]
pub(crate) struct Ends<A: Allocator> {
    pub rows: Rows<A>,
    pub search: Search<A>,
}

impl<A: Allocator> Model for Windows<A> {
    ghost use Rattle.stn_conflict.specs.{Listing.ListedBounds, Relaxation.AreEnds};

    ghost Value = { ListedBounds };

    ghost view = { λ w. record { events = w.events; bounds = w.bounds.items } };

    ghost invariant = { λ w. AreEnds w.events w.given w.bounds.items w.latest w.earliest };
}

impl<A: Allocator + Copy> Windows<A> {
    /// The windows by the bounds of `base` followed by those of `extra`; none exactly where these have no schedule. There
    /// are so many `events` beside the origin, `base` begins with their horizon bounds, and all bounds are about them. It
    /// fails only if memory runs out.
    pub fn of(
        alloc: A,
        events: u16,
        base: &[Bound],
        extra: &[Bound],
    ) -> Result<Option<Windows<A>>, Memory>
        requires few { events ≤ most_events }
        requires begins { take events base.now ≡ horizon_bounds events }
        requires base_named { All (NamesEvents events) base.now }
        requires extra_named { All (NamesEvents events) extra.now }
        ensures found { IfOk result (λ found. MatchOption found (¬ HasSchedule (base.now ++ extra.now))
            (λ windows. windows ≡ record { events = events; bounds = base.now ++ extra.now })) }
        ensures possible { IfOk result (λ found. IfSome found (λ _. HasSchedule (base.now ++ extra.now))) }
    {
        let mut bounds = Vec::from_slice(alloc, base)?;
        bounds.extend_from_slice(extra)?;
        let given = bounds.len();
        let origin = Event::origin();
        let Some(latest) = search_from(alloc, Direction::Forward, events, base, extra, origin)?
        else {
            return Ok(None);
        };
        let Some(earliest) = search_from(alloc, Direction::Backward, events, base, extra, origin)?
        else {
            return Ok(None);
        };
        Ok(Some(Windows {
            events,
            bounds,
            given,
            latest,
            earliest,
        }))
    }

    /// How many events there are beside the origin.
    pub fn events(&self) -> u16
        ensures { result ≡ self.now.events }
    {
        self.events
    }

    /// The earliest and the latest time of an event.
    pub fn window(&self, event: Event) -> (Ms, Ms)
        requires { event ≤ self.now.events }
        ensures { IsWindow self.now.bounds event result.0 result.1 }
    {
        let place = usize::from(event.number());
        (
            -self.earliest.search.far[place],
            self.latest.search.far[place],
        )
    }

    /// Adds a bound from the origin to an event, with which there has to be a schedule. It fails only if memory runs out; then
    /// all is as before.
    pub fn narrow(&mut self, bound: Bound) -> Result<(), Memory>
        requires single { bound.from ≡ 0 }
        requires named { NamesEvents self.old.events bound }
        requires possible { HasSchedule (self.old.bounds ++ bound ∷ []) }
        ensures narrowed { OnOk result (self.new ≡ record self.old { bounds = self.old.bounds ++ bound ∷ [] }) }
        ensures kept { OnErr result (self.new ≡ self.old) }
    {
        self.bounds.push(bound)?;
        let given = &self.bounds[..self.given];
        self.latest.narrow(self.events, given, &bound);
        self.earliest.narrow(self.events, given, &bound);
        Ok(())
    }
}

impl<A: Allocator + Copy> Ends<A> {
    // Takes a bound on a single event, after others of which these are given.
    fn narrow(&mut self, events: u16, given: &[Bound], bound: &Bound)
        requires few { events ≤ most_events }
        requires single { bound.now.from ≡ 0 }
        requires named { NamesEvents events bound.now }
        requires network { IsNetwork events given.now }
        requires ends { (bounds : List Difference) × (take (length given.now) bounds ≡ given.now) × AreSingle (length given.now) bounds
            × IsEnds self.old.rows.direction events (length given.now) bounds self.old × HasSchedule (bounds ++ bound.now ∷ []) }
        ensures { (bounds : List Difference) → take (length given.now) bounds ≡ given.now → AreSingle (length given.now) bounds
            → IsEnds self.old.rows.direction events (length given.now) bounds self.old → HasSchedule (bounds ++ bound.now ∷ [])
            → IsEnds self.old.rows.direction events (length given.now) (bounds ++ bound.now ∷ []) self.new }
    {
        let most = side_of(self.rows.direction, bound, Side::Upper).weight;
        let graph = Graph::new(events, given, &[], &self.rows);
        self.search.lower(&graph, bound.to(), most);
    }
}
