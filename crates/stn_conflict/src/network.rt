ghost use Rattle.std.specs.Prelude.{◌≡◌, ◌+◌, ◌≤◌, ◌↔◌, ◌++◌, ◌∷◌, [], false, take, All, IsTrue, IfOk, OnOk, OnErr, MatchOption};
ghost use Rattle.stn_net.specs.{Event.most_events, Difference.NamesEvents, Schedule.HasSchedule, Horizon.horizon_bounds, Matrix.Tightest.IsTightest, Ranges.CanBeApart};
ghost use Rattle.stn_conflict.specs.{Distances.TellsWithin, Relaxation.{AreDistances, AreFirstRows, IsNetwork, IsPending, IsSearch}, declared.arcs.Direction.TheVariants.Forward};

use crate::arcs::Direction;
use crate::graph::Graph;
use crate::outgoing::Rows;
use crate::relaxation::Search;
use std::alloc::Allocator;
use std::marker::Model;
use stn_net::{Bound, Event};
use stn_time::{Memory, Ms};

/// The bounds of a plan, to which more can be added, and questions about the difference of two events' times.
#[derive(Drop)]
pub struct Network<A: Allocator> {
    events: u16,
    bounds: Vec<Bound, A>,
    // The links of the bounds, as of the last question.
    rows: Rows<A>,
    // How late each event can come, as of the last question: a search that goes on with the bounds pushed since.
    latest: Search<A>,
    search: Search<A>,
}

impl<A: Allocator> Model for Network<A> {
    ghost use Rattle.stn_conflict.specs.{Listing.ListedBounds, Relaxation.CanBeSearched};

    ghost Value = { ListedBounds };

    ghost view = { λ n. record { events = n.events; bounds = n.bounds.items } };

    ghost invariant = { λ n. CanBeSearched n.events n.bounds.items n.rows n.latest n.search };
}

impl<A: Allocator + Copy> Network<A> {
    /// The bounds of `base` followed by those of `extra`. There are so many `events` beside the origin, `base` begins
    /// with their horizon bounds, and all bounds are about them. It fails only if memory runs out.
    pub fn new(alloc: A, events: u16, base: &[Bound], extra: &[Bound]) -> Result<Network<A>, Memory>
        requires few { events ≤ most_events }
        requires begins { take events base.now ≡ horizon_bounds events }
        requires base_named { All (NamesEvents events) base.now }
        requires extra_named { All (NamesEvents events) extra.now }
        ensures { IfOk result (λ network. network ≡ record { events = events; bounds = base.now ++ extra.now }) }
    {
        let mut bounds = Vec::from_slice(alloc, base)?;
        bounds.extend_from_slice(extra)?;
        let rows = Rows::new(alloc, Direction::Forward, usize::from(events), events, 0)?;
        let mut latest = Search::new(alloc, usize::from(events) + 1)?;
        latest.begin(Event::origin());
        latest.fresh.fill(true);
        let search = Search::new(alloc, usize::from(events) + 1)?;
        Ok(Network {
            events,
            bounds,
            rows,
            latest,
            search,
        })
    }

    /// Adds a bound after the others. It fails only if memory runs out; then all is as before.
    pub fn push(&mut self, bound: Bound) -> Result<(), Memory>
        requires { NamesEvents self.old.events bound }
        ensures pushed { OnOk result (self.new ≡ record self.old { bounds = self.old.bounds ++ bound ∷ [] }) }
        ensures kept { OnErr result (self.new ≡ self.old) }
    {
        self.bounds.push(bound)?;
        self.latest.freshen(&bound);
        Ok(())
    }

    /// Adds a bound after the others if they have a schedule with it, and answers whether it did. It fails only if memory
    /// runs out; then all is as before.
    pub fn take(&mut self, bound: Bound) -> Result<bool, Memory>
        requires { NamesEvents self.old.events bound }
        ensures possible { IfOk result (λ taken. IsTrue taken ↔ HasSchedule (self.old.bounds ++ bound ∷ [])) }
        ensures taken { IfOk result (λ taken. IsTrue taken → self.new ≡ record self.old { bounds = self.old.bounds ++ bound ∷ [] }) }
        ensures refused { IfOk result (λ taken. taken ≡ false → self.new ≡ self.old) }
        ensures kept { OnErr result (self.new ≡ self.old) }
    {
        let count = self.bounds.len();
        self.search.copy_from(&self.latest);
        self.bounds.push(bound)?;
        self.latest.freshen(&bound);
        let fits = extend(self.events, &self.bounds, &mut self.rows, &mut self.latest);
        if let Ok(true) = fits {
            return Ok(true);
        }
        self.bounds.truncate(count);
        self.rows.cut(count);
        self.latest.copy_from(&self.search);
        fits
    }

    /// Whether `to` comes at most `most` milliseconds after `from` in each schedule of the bounds; none exactly where they
    /// have no schedule. It fails only if memory runs out.
    pub fn is_within(&mut self, from: Event, to: Event, most: i64) -> Result<Option<bool>, Memory>
        requires from { from ≤ self.old.events }
        requires to { to ≤ self.old.events }
        ensures told { IfOk result (λ found. MatchOption found (¬ HasSchedule self.old.bounds) (TellsWithin self.old.bounds from to most)) }
        ensures same { self.new ≡ self.old }
    {
        let Some(apart) = self.latest_apart(from, to)? else {
            return Ok(None);
        };
        if apart > most {
            return Ok(Some(false));
        }
        match self.distance(from, to)? {
            Some(far) => Ok(Some(far.get() <= most)),
            None => Ok(None),
        }
    }

    // How long after one event another comes where each comes as late as it can, which is a schedule; none where the bounds
    // have no schedule.
    fn latest_apart(&mut self, from: Event, to: Event) -> Result<Option<i64>, Memory>
        requires from { from ≤ self.old.events }
        requires to { to ≤ self.old.events }
        ensures taken { IfOk result (λ found. MatchOption found (¬ HasSchedule self.old.bounds) (CanBeApart self.old.bounds from to)) }
        ensures same { self.new ≡ self.old }
    {
        if !extend(self.events, &self.bounds, &mut self.rows, &mut self.latest)? {
            self.latest.fresh.fill(true);
            return Ok(None);
        }
        let end = self.latest.far[usize::from(to.number())].get();
        Ok(Some(end - self.latest.far[usize::from(from.number())].get()))
    }

    // How long after one event another can come at the most, or none where the bounds have no schedule.
    fn distance(&mut self, from: Event, to: Event) -> Result<Option<Ms>, Memory>
        requires from { from ≤ self.old.events }
        requires to { to ≤ self.old.events }
        ensures found { IfOk result (λ found. MatchOption found (¬ HasSchedule self.old.bounds) (IsTightest self.old.bounds from to)) }
        ensures same { self.new ≡ self.old }
    {
        self.rows.add(&self.bounds, &[])?;
        let graph = Graph::new(self.events, &self.bounds, &[], &self.rows);
        if !self.search.find(&graph, from) {
            return Ok(None);
        }
        Ok(Some(self.search.far[usize::from(to.number())]))
    }
}

// Takes the links of the bounds that the rows don't have yet into the search for how late each event can come; whether the
// bounds have a schedule.
fn extend<A: Allocator + Copy>(
    events: u16,
    bounds: &[Bound],
    rows: &mut Rows<A>,
    latest: &mut Search<A>,
) -> Result<bool, Memory>
    requires network { IsNetwork events bounds.now }
    requires rows { AreFirstRows Forward events bounds.now (events + 1) rows.old }
    requires pending { IsPending events bounds.now latest.old }
    ensures rows { AreFirstRows Forward events bounds.now (events + 1) rows.new }
    ensures late { IsSearch bounds.now 0 (events + 1) latest.new }
    ensures possible { IfOk result (λ fits. IsTrue fits ↔ HasSchedule bounds.now) }
    ensures distances { IfOk result (λ fits. IsTrue fits → AreDistances bounds.now 0 latest.new.far.items) }
    ensures kept { OnErr result (latest.new ≡ latest.old) }
{
    rows.add(bounds, &[])?;
    let graph = Graph::new(events, bounds, &[], rows);
    Ok(latest.go_on(&graph))
}
