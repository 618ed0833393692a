ghost use Rattle.std.specs.Prelude.{◌≡◌, ◌↔◌, ◌≤◌, ◌++◌, take, All, IsNone, IfOk, IfSome, MatchOption};
ghost use Rattle.stn_net.specs.{Event.most_events, Difference.NamesEvents, Schedule.HasSchedule, Horizon.horizon_bounds};
ghost use Rattle.stn_conflict.specs.{Directions.facing, Distances.{AreDistancesFrom, AreDistancesTo}, Relaxation.HasFound};

use crate::arcs::Direction;
use crate::graph::Graph;
use crate::links::Distances;
use crate::outgoing::Rows;
use crate::relaxation::Search;
use crate::windows::Ends;
use std::alloc::Allocator;
use stn_net::{Bound, Event};
use stn_time::{Memory, Ms};

/// The tightest differences between `event` and each event, both ways, over the bounds of `base` followed by
/// those of `extra`; none exactly where these bounds have no schedule. There are so many `events` beside the
/// origin, `base` begins with their horizon bounds, and all bounds are about them. It fails only if memory runs
/// out.
pub fn distances<A: Allocator + Copy>(
    alloc: A,
    events: u16,
    base: &[Bound],
    extra: &[Bound],
    event: Event,
) -> Result<Option<Distances<A>>, Memory>
    requires few { events ≤ most_events }
    requires begins { take events base.now ≡ horizon_bounds events }
    requires base_named { All (NamesEvents events) base.now }
    requires extra_named { All (NamesEvents events) extra.now }
    requires event { event ≤ events }
    ensures none { IfOk result (λ found. IsNone found ↔ ¬ HasSchedule (base.now ++ extra.now)) }
    ensures from { IfOk result (λ found. IfSome found
        (λ distances. AreDistancesFrom (base.now ++ extra.now) events event distances.from.items)) }
    ensures to { IfOk result (λ found. IfSome found
        (λ distances. AreDistancesTo (base.now ++ extra.now) events event distances.to.items)) }
{
    let onward = Direction::Forward;
    let Some(from) = distances_from(alloc, onward, events, base, extra, event)? else {
        return Ok(None);
    };
    match distances_from(alloc, Direction::Backward, events, base, extra, event)? {
        Some(to) => Ok(Some(Distances { from, to })),
        None => Ok(None),
    }
}

// How long after the event each event can come at the most, by the bounds of both slices or by these turned round; none exactly
// where they have no schedule.
pub(crate) fn distances_from<A: Allocator + Copy>(
    alloc: A,
    direction: Direction,
    events: u16,
    base: &[Bound],
    extra: &[Bound],
    event: Event,
) -> Result<Option<Vec<Ms, A>>, Memory>
    requires few { events ≤ most_events }
    requires begins { take events base.now ≡ horizon_bounds events }
    requires base_named { All (NamesEvents events) base.now }
    requires extra_named { All (NamesEvents events) extra.now }
    requires event { event ≤ events }
    ensures { IfOk result (λ found. MatchOption found (¬ HasSchedule (base.now ++ extra.now))
        (λ far. AreDistancesFrom (facing direction (base.now ++ extra.now)) events event far.items)) }
{
    match search_from(alloc, direction, events, base, extra, event)? {
        Some(Ends { search, .. }) => Ok(Some(search.far)),
        None => Ok(None),
    }
}

// The search that finds it, with the rows of its links.
pub(crate) fn search_from<A: Allocator + Copy>(
    alloc: A,
    direction: Direction,
    events: u16,
    base: &[Bound],
    extra: &[Bound],
    event: Event,
) -> Result<Option<Ends<A>>, Memory>
    requires few { events ≤ most_events }
    requires begins { take events base.now ≡ horizon_bounds events }
    requires base_named { All (NamesEvents events) base.now }
    requires extra_named { All (NamesEvents events) extra.now }
    requires event { event ≤ events }
    ensures { IfOk result (λ found. MatchOption found (¬ HasSchedule (base.now ++ extra.now))
        (λ ends. HasFound direction events (base.now ++ extra.now) event ends.rows ends.search)) }
{
    let rows = Rows::of(alloc, direction, usize::from(events), events, base, extra)?;
    let graph = Graph::new(events, base, extra, &rows);
    match Search::found(alloc, &graph, event)? {
        Some(search) => Ok(Some(Ends { rows, search })),
        None => Ok(None),
    }
}
