ghost use Rattle.std.specs.Prelude.{◌≡◌, ◌+◌, ◌<◌, ◌≤◌, ◌↔◌, ℕ, length, IsTrue, IfOk, OnOk, MatchOption};
ghost use Rattle.stn_net.specs.Event.{most_events};
ghost use Rattle.stn_conflict.specs.{Relaxation.{AreDistances, IsLook}, Named.{IsTight, IsLevelStep}, Search.{level_at, LeadsOn, IsWalkOf, AreLevels, HasNoStep, IsFirstStepTo}};

use crate::graph::Graph;
use crate::links::Link;
use crate::outgoing::{Look, across};
use std::alloc::Allocator;
use stn_net::Event;
use stn_time::{Memory, Ms};

// A walk over tight links: the levels of the events that it has reached, and these events in their order.
#[derive(Drop)]
pub(crate) struct Walk<A: Allocator> {
    pub levels: Vec<Option<u16>, A>,
    reached: Vec<Event, A>,
}

// Whether the link is tight: the greatest difference from `start` to its end is that to its beginning
// plus the link's weight.
#[tactic(auto, using(crate::proofs::Tightness::link_among))]
fn is_tight<A: Allocator>(graph: &Graph<'_, A>, far: &[Ms], start: Event, link: Link) -> bool
    requires far { AreDistances graph.now.bounds start far.now }
    requires there { link.place < length graph.now.bounds }
    ensures { IsTrue result ↔ IsTight graph.now.bounds start link }
{
    let arc = graph.arc(link);
    let begin = far[usize::from(arc.from.number())].get();
    let end = far[usize::from(arc.to.number())].get();
    begin + arc.weight.get() == end
}

// Whether the link is a tight one of the bounds to an event that has no level yet.
fn leads_on<A: Allocator>(
    graph: &Graph<'_, A>,
    far: &[Ms],
    start: Event,
    levels: &[Option<u16>],
    look: &Look,
) -> bool
    requires far { AreDistances graph.now.bounds start far.now }
    requires whole { length levels.now ≡ length far.now }
    requires look { (event : ℕ) × IsLook graph.now.bounds event look.now }
    ensures { IsTrue result ↔ LeadsOn graph.now.bounds start (level_at levels.now) look.now.link }
{
    levels[usize::from(look.to.number())].is_none() && is_tight(graph, far, start, look.link)
}

// Follows the tight links from the event at a place of those that were reached: gives the next level to each event
// that has none.
fn follow<A: Allocator + Copy>(
    graph: &Graph<'_, A>,
    far: &[Ms],
    start: Event,
    walk: &mut Walk<A>,
    place: usize,
) -> Result<(), Memory>
    requires far { AreDistances graph.now.bounds start far.now }
    requires few { length far.now ≤ most_events + 1 }
    requires long { length far.now ≡ graph.now.events + 1 }
    requires whole { length graph.now.bounds ≤ graph.now.whole }
    requires there { place < length walk.old.reached.items }
    requires walk { IsWalkOf graph.now.bounds start (length far.now) place walk.old }
    ensures { OnOk result (IsWalkOf graph.now.bounds start (length far.now) (place + 1) walk.new) }
{
    let event = usize::from(walk.reached[place].number());
    let level = walk.levels[event].unwrap();
    for look in graph.row(event) {
        if leads_on(graph, far, start, &walk.levels, look) {
            walk.levels[usize::from(look.to.number())] = Some(level + 1);
            walk.reached.push(look.to)?;
        }
    }
    Ok(())
}

// The level of each event, breadth first over the tight links (Moore, 1959).
pub(crate) fn levels_from<A: Allocator + Copy>(
    alloc: A,
    graph: &Graph<'_, A>,
    far: &[Ms],
    start: Event,
) -> Result<Vec<Option<u16>, A>, Memory>
    requires far { AreDistances graph.now.bounds start far.now }
    requires few { length far.now ≤ most_events + 1 }
    requires long { length far.now ≡ graph.now.events + 1 }
    requires whole { length graph.now.bounds ≤ graph.now.whole }
    ensures { IfOk result (λ levels. AreLevels graph.now.bounds start (length far.now) levels.items) }
{
    let mut walk = Walk {
        levels: vec![in alloc; None; far.len()]?,
        reached: Vec::new(alloc),
    };
    walk.levels[usize::from(start.number())] = Some(0);
    walk.reached.push(start)?;
    let mut place = 0;
    while place < walk.reached.len() {
        follow(graph, far, start, &mut walk, place)?;
        place += 1;
    }
    Ok(walk.levels)
}

// Whether the link is tight and begins one level lower than it ends.
fn is_step<A: Allocator>(
    graph: &Graph<'_, A>,
    far: &[Ms],
    start: Event,
    levels: &[Option<u16>],
    link: Link,
) -> bool
    requires far { AreDistances graph.now.bounds start far.now }
    requires few { length far.now ≤ most_events + 1 }
    requires levels { AreLevels graph.now.bounds start (length far.now) levels.now }
    requires there { link.place < length graph.now.bounds }
    ensures { IsTrue result ↔ IsLevelStep graph.now.bounds start link }
{
    let arc = graph.arc(link);
    let begin = levels[usize::from(arc.from.number())].unwrap();
    let end = levels[usize::from(arc.to.number())].unwrap();
    begin + 1 == end && is_tight(graph, far, start, link)
}

// The first step to an event: the links that end at it are those of its row with the other side of their bounds, in the row's order.
#[tactic(auto, using(crate::proofs::Steps::passed_more))]
pub(crate) fn first_step<A: Allocator>(
    graph: &Graph<'_, A>,
    far: &[Ms],
    start: Event,
    levels: &[Option<u16>],
    event: Event,
) -> Option<Link>
    requires far { AreDistances graph.now.bounds start far.now }
    requires few { length far.now ≤ most_events + 1 }
    requires long { length far.now ≡ graph.now.events + 1 }
    requires whole { length graph.now.bounds ≤ graph.now.whole }
    requires levels { AreLevels graph.now.bounds start (length far.now) levels.now }
    requires event { event < length far.now }
    ensures { MatchOption result (HasNoStep graph.now.bounds start event) (IsFirstStepTo graph.now.bounds start event) }
{
    for look in graph.row(usize::from(event.number())) {
        let into = across(look.link);
        if is_step(graph, far, start, levels, into) {
            return Some(into);
        }
    }
    None
}
