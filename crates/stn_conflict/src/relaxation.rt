// Distances of all events from one of them. Links are relaxed until each is met (Bellman, 1958): first those from each
// event, then those from events whose estimates fell, back and forth through the events (Yen, 1970). Each sweep through
// them that lowers anything makes one estimate more exact, so where more sweeps would be needed than there are events,
// there are no distances. Mostly this shows sooner: the links that lowered the estimates last lead round with a negative
// sum (Cherkassky and Goldberg, 1999).
//
// What a search over other bounds left in `by` does no harm: only links of these bounds count.

ghost use Rattle.std.specs.Prelude.{◌≡◌, ◌⊎◌, ◌+◌, ◌<◌, ◌≤◌, ◌+ℤ◌, ◌≤ℤ◌, ◌↔◌, ◌++◌, ◌∷◌, [], ℕ, ℤ, true, false, length, IsTrue, IsErr, IfOk, IfSome, OnOk, MatchOption, List};
ghost use Rattle.stn_net.specs.{Event.most_events, Difference.{Difference, NamesEvents}, Schedule.{HasSchedule, times_of}};
ghost use Rattle.stn_conflict.specs.{Relaxation.{RelaxesFrom, AreBegun, AreEstimates, AreDistances, AreRelaxed, AreTables, HasTables, IsArcBetween, IsBegun, IsFloor, IsKept, IsLowered, IsNetwork, IsPending, LeavesNoFloor, IsRelaxedBut, NamesAmong, IsSearch, Lowers, is_fresh}};
ghost use Rattle.stn_time.specs.Time.{horizon};

use crate::graph::Graph;
use crate::outgoing::Look;
use std::alloc::Allocator;
use stn_net::{Bound, Event};
use stn_time::{HORIZON, Memory, Ms};

// The bounds have no schedule.
#[derive(Clone, Copy)]
struct NoSchedule;

pub(crate) fn horizon() -> Ms
    ensures { result ≡ horizon }
{
    Ms::new(HORIZON).unwrap()
}

// A search for the distances from an event.
#[derive(Drop)]
pub(crate) struct Search<A: Allocator> {
    // The event from which the distances are sought.
    start: Event,
    // For each event an estimate of its distance, which is never too small.
    pub far: Vec<Ms, A>,
    // For each event that from which a link lowered its estimate last.
    by: Vec<usize, A>,
    // The events whose estimates were lowered since their links were relaxed.
    pub fresh: Vec<bool, A>,
    // The sweeps through the events since the estimates began to be lowered.
    sweeps: usize,
}

impl<A: Allocator + Copy> Search<A> {
    // A search among so many events.
    pub fn new(alloc: A, count: usize) -> Result<Search<A>, Memory>
        requires some { 0 < count }
        requires few { count ≤ most_events + 1 }
        ensures { IfOk result (λ search. HasTables count search) }
    {
        Ok(Search {
            start: Event::origin(),
            far: vec![in alloc; horizon(); count]?,
            by: vec![in alloc; 0; count]?,
            fresh: vec![in alloc; false; count]?,
            sweeps: 0,
        })
    }

    // The estimates of another search among as many events, and what is fresh among them.
    pub fn copy_from(&mut self, other: &Search<A>)
        requires tables { HasTables (length other.now.far.items) self.old }
        requires other { HasTables (length other.now.far.items) other.now }
        ensures tables { HasTables (length other.now.far.items) self.new }
        ensures start { self.new.start ≡ other.now.start }
        ensures far { self.new.far.items ≡ other.now.far.items }
        ensures fresh { self.new.fresh.items ≡ other.now.fresh.items }
    {
        self.start = other.start;
        self.far.copy_from_slice(&other.far);
        self.by.copy_from_slice(&other.by);
        self.fresh.copy_from_slice(&other.fresh);
    }

    // A search that has found the distances from an event, or none where the bounds have no schedule.
    pub fn found(alloc: A, graph: &Graph<'_, A>, start: Event) -> Result<Option<Search<A>>, Memory>
        requires few { graph.now.events ≤ most_events }
        requires network { IsNetwork graph.now.events graph.now.bounds }
        requires kept { graph.now.events ≤ graph.now.whole }
        requires start { start ≤ graph.now.events }
        ensures { IfOk result (λ found. MatchOption found (¬ HasSchedule graph.now.bounds)
            (λ search. HasTables (graph.now.events + 1) search × (search.start ≡ start) × AreDistances graph.now.bounds start search.far.items)) }
    {
        let mut search = Search::new(alloc, graph.count())?;
        if search.find(graph, start) {
            Ok(Some(search))
        } else {
            Ok(None)
        }
    }

    // Finds the distances from an event, and answers true; false exactly where the bounds have no schedule.
    #[tactic(auto, using(crate::proofs::Searches::tables_of))]
    pub fn find(&mut self, graph: &Graph<'_, A>, start: Event) -> bool
        requires tables { HasTables (graph.now.events + 1) self.old }
        requires network { IsNetwork graph.now.events graph.now.bounds }
        requires kept { graph.now.events ≤ graph.now.whole }
        requires start { start ≤ graph.now.events }
        ensures tables { HasTables (graph.now.events + 1) self.new }
        ensures start { self.new.start ≡ start }
        ensures possible { IsTrue result ↔ HasSchedule graph.now.bounds }
        ensures distances { IsTrue result → AreDistances graph.now.bounds start self.new.far.items }
    {
        self.begin(start);
        self.settle(graph)
    }

    // Begins again from an event, with the estimates that the horizon allows.
    pub fn begin(&mut self, start: Event)
        requires tables { HasTables (length self.old.far.items) self.old }
        requires start { start < length self.old.far.items }
        ensures start { self.new.start ≡ start }
        ensures tables { HasTables (length self.old.far.items) self.new }
        ensures estimates { (bounds : List Difference) (events : ℕ) → length self.old.far.items ≡ events + 1
            → IsNetwork events bounds → AreEstimates bounds start self.new.far.items }
    {
        self.start = start;
        self.far.fill(horizon());
        self.far[usize::from(start.number())] = Ms::new(0).unwrap();
    }

    // With one bound more, the links from its events are no longer relaxed.
    pub fn freshen(&mut self, bound: &Bound)
        requires tables { HasTables (length self.old.far.items) self.old }
        requires named { NamesAmong (length self.old.far.items) bound.now }
        ensures { (events : ℕ) (bounds : List Difference) → NamesEvents events bound.now → IsPending events bounds self.old
            → IsPending events (bounds ++ bound.now ∷ []) self.new }
    {
        self.fresh[usize::from(bound.from().number())] = true;
        self.fresh[usize::from(bound.to().number())] = true;
    }

    // Lowers the estimates until they are the distances, and answers true; false exactly where the bounds, of which the
    // rows have all links, have no schedule.
    #[tactic(auto, using(crate::proofs::Relaxing::all_fresh))]
    pub fn settle(&mut self, graph: &Graph<'_, A>) -> bool
        requires network { IsNetwork graph.now.events graph.now.bounds }
        requires kept { graph.now.events ≤ graph.now.whole }
        requires search { IsSearch graph.now.bounds self.old.start (graph.now.events + 1) self.old }
        ensures search { IsSearch graph.now.bounds self.old.start (graph.now.events + 1) self.new }
        ensures possible { IsTrue result ↔ HasSchedule graph.now.bounds }
        ensures distances { IsTrue result → AreDistances graph.now.bounds self.old.start self.new.far.items }
    {
        self.by.fill(usize::from(self.start.number()));
        self.fresh.fill(true);
        self.go_on(graph)
    }

    // The same, where each link from an event whose estimate is not fresh is met already.
    pub fn go_on(&mut self, graph: &Graph<'_, A>) -> bool
        requires network { IsNetwork graph.now.events graph.now.bounds }
        requires kept { graph.now.events ≤ graph.now.whole }
        requires search { IsSearch graph.now.bounds self.old.start (graph.now.events + 1) self.old }
        requires relaxed { IsRelaxedBut graph.now.whole graph.now.bounds self.old.far.items self.old.fresh.items }
        ensures search { IsSearch graph.now.bounds self.old.start (graph.now.events + 1) self.new }
        ensures possible { IsTrue result ↔ HasSchedule graph.now.bounds }
        ensures distances { IsTrue result → AreDistances graph.now.bounds self.old.start self.new.far.items }
    {
        self.relax_until_met(graph).is_ok()
    }

    // Lowers the estimate of an event, if it is more than this, and then the others, where each link is met already.
    pub fn lower(&mut self, graph: &Graph<'_, A>, event: Event, most: Ms)
        requires begun { IsBegun graph.now self.old }
        requires met { AreRelaxed graph.now.bounds (times_of self.old.far.items) }
        requires event { event ≤ graph.now.events }
        requires floor { (low : ℕ → ℤ) × IsFloor graph.now.bounds self.old.start self.old.far.items low × (low event ≤ℤ most) }
        ensures begun { IsBegun graph.now self.new }
        ensures start { self.new.start ≡ self.old.start }
        ensures met { AreRelaxed graph.now.bounds (times_of self.new.far.items) }
        ensures fall { (x : ℕ) → times_of self.new.far.items x ≤ℤ times_of self.old.far.items x }
        ensures here { times_of self.new.far.items event ≤ℤ most }
        ensures floors { (low : ℕ → ℤ) → IsFloor graph.now.bounds self.old.start self.old.far.items low → low event ≤ℤ most
            → IsFloor graph.now.bounds self.old.start self.new.far.items low }
    {
        let place = usize::from(event.number());
        if self.far[place].get() <= most.get() {
            return;
        }
        self.far[place] = most;
        self.by[place] = usize::from(self.start.number());
        self.fresh[place] = true;
        let _ = self.relax_until_met(graph);
    }

    // Relaxes the links from events with fresh estimates, back and forth through the events, until there is none.
    fn relax_until_met(&mut self, graph: &Graph<'_, A>) -> Result<(), NoSchedule>
        requires begun { IsBegun graph.now self.old }
        requires relaxed { IsRelaxedBut graph.now.whole graph.now.bounds self.old.far.items self.old.fresh.items }
        ensures begun { IsBegun graph.now self.new }
        ensures start { self.new.start ≡ self.old.start }
        ensures lowers { Lowers graph.now.bounds self.old.start self.old.far.items self.new.far.items }
        ensures refused { IsErr result → (low : ℕ → ℤ) → ¬ IsFloor graph.now.bounds self.old.start self.old.far.items low }
        ensures met { OnOk result (AreRelaxed graph.now.bounds (times_of self.new.far.items)) }
    {
        self.sweeps = 0;
        let mut onward = graph.first_onward();
        while let Some(event) = self.first_fresh() {
            if self.sweeps == graph.count() || self.goes_round(graph, event) {
                return Err(NoSchedule);
            }
            self.sweep(graph, onward)?;
            onward = !onward;
        }
        Ok(())
    }

    // The first event with a fresh estimate, if there is any.
    fn first_fresh(&self) -> Option<usize>
        ensures { MatchOption result ((x : ℕ) → x < length self.now.fresh.items → is_fresh self.now.fresh.items x ≡ false)
            (λ event. (event < length self.now.fresh.items) × (is_fresh self.now.fresh.items event ≡ true)) }
    {
        for event in 0..self.fresh.len() {
            if self.fresh[event] {
                return Some(event);
            }
        }
        None
    }

    // Relaxes the links from each event with a fresh estimate, in the events' order or against it.
    fn sweep(&mut self, graph: &Graph<'_, A>, onward: bool) -> Result<(), NoSchedule>
        requires begun { IsBegun graph.now self.old }
        requires few { self.old.sweeps ≤ graph.now.events }
        requires relaxed { IsRelaxedBut graph.now.whole graph.now.bounds self.old.far.items self.old.fresh.items }
        ensures begun { IsBegun graph.now self.new }
        ensures start { self.new.start ≡ self.old.start }
        ensures sweeps { self.new.sweeps ≡ self.old.sweeps + 1 }
        ensures lowers { Lowers graph.now.bounds self.old.start self.old.far.items self.new.far.items }
        ensures refused { IsErr result → (low : ℕ → ℤ) → ¬ IsFloor graph.now.bounds self.old.start self.old.far.items low }
        ensures relaxed { OnOk result (IsRelaxedBut graph.now.whole graph.now.bounds self.new.far.items self.new.fresh.items) }

        // Only an event whose estimate fell is still fresh.
        ensures stale { OnOk result ((x : ℕ) → x < graph.now.events + 1 → times_of self.new.far.items x ≡ times_of self.old.far.items x
            → is_fresh self.new.fresh.items x ≡ false) }
    {
        self.sweeps += 1;
        let count = graph.count();
        for index in 0..count {
            let event = if onward { index } else { count - 1 - index };
            if self.fresh[event] {
                self.fresh[event] = false;
                self.relax_from(graph, event)?;
            }
        }
        Ok(())
    }

    // Relaxes the links from an event.
    fn relax_from(&mut self, graph: &Graph<'_, A>, event: usize) -> Result<(), NoSchedule>
        requires begun { IsBegun graph.now self.old }
        requires event { event < graph.now.events + 1 }
        ensures start { self.new.start ≡ self.old.start }
        ensures sweeps { self.new.sweeps ≡ self.old.sweeps }
        ensures relaxes { RelaxesFrom graph.now self.old.start event self.old.far.items self.old.fresh.items self.new.far.items self.new.by.items self.new.fresh.items result }
    {
        relax_row(
            graph,
            self.start,
            event,
            &mut self.far,
            &mut self.by,
            &mut self.fresh,
        )
    }

    // Whether what lowered the estimates last leads back from an event to a cycle with a negative sum: no times relax all its
    // links.
    fn goes_round(&self, graph: &Graph<'_, A>, from: usize) -> bool
        requires tables { HasTables (graph.now.events + 1) self.now }
        requires from { from < graph.now.events + 1 }
        ensures { IsTrue result → (low : ℕ → ℤ) → ¬ AreRelaxed graph.now.bounds low }
    {
        let event = self.far_back(from);
        event != usize::from(self.start.number()) && self.comes_back(graph, event)
    }

    // The event to which it leads back from an event, over as many links as there are events.
    fn far_back(&self, from: usize) -> usize
        requires tables { HasTables (length self.now.far.items) self.now }
        requires from { from < length self.now.far.items }
        ensures { result < length self.now.far.items }
    {
        let mut here = from;
        for _ in 0..self.by.len() {
            here = self.by[here];
        }
        here
    }

    // Whether it leads from an event back to it, with a negative sum.
    fn comes_back(&self, graph: &Graph<'_, A>, start: usize) -> bool
        requires tables { HasTables (graph.now.events + 1) self.now }
        requires start { start < graph.now.events + 1 }
        ensures { IsTrue result → (low : ℕ → ℤ) → ¬ AreRelaxed graph.now.bounds low }
    {
        let mut here = start;
        let mut sum = 0;
        for _ in 0..self.by.len() {
            let from = self.by[here];
            let Some(weight) = least_weight(graph, from, here) else {
                return false;
            };
            sum += weight.get();
            here = from;
            if here == start {
                return sum < 0;
            }
        }
        false
    }
}

// The same over slices, so that the loop does not read again at each link where a vector is.
fn relax_row<A: Allocator>(
    graph: &Graph<'_, A>,
    start: Event,
    event: usize,
    far: &mut [Ms],
    by: &mut [usize],
    fresh: &mut [bool],
) -> Result<(), NoSchedule>
    requires begun { AreBegun graph.now start far.old by.old fresh.old }
    requires event { event < graph.now.events + 1 }
    ensures { RelaxesFrom graph.now start event far.old fresh.old far.new by.new fresh.new result }
{
    let here = far[event];
    for look in graph.row(event) {
        relax(look, start, event, here, far, by, fresh)?;
    }
    Ok(())
}

// Lowers the estimate at a link's end to what the link allows, where that is less. `here` was the estimate at its beginning.
fn relax(
    look: &Look,
    start: Event,
    event: usize,
    here: Ms,
    far: &mut [Ms],
    by: &mut [usize],
    fresh: &mut [bool],
) -> Result<(), NoSchedule>
    requires tables { AreTables (length far.old) far.old by.old fresh.old }
    requires end { look.now.to < length far.old }
    requires event { event < length far.old }
    ensures tables { AreTables (length far.old) far.new by.new fresh.new }
    ensures met { OnOk result (IsKept look.now.to (here +ℤ look.now.weight) far.old fresh.old far.new fresh.new
        ⊎ IsLowered start look.now.to (here +ℤ look.now.weight) far.old fresh.old far.new fresh.new) }
    ensures refused { IsErr result → LeavesNoFloor start look.now.to (here +ℤ look.now.weight) far.old fresh.old far.new fresh.new }
{
    let end = usize::from(look.to.number());
    let way = here.get() + look.weight.get();
    if far[end].get() <= way {
        return Ok(());
    }
    if look.to == start || way < -HORIZON {
        return Err(NoSchedule);
    }
    far[end] = Ms::new(way).unwrap();
    by[end] = event;
    fresh[end] = true;
    Ok(())
}

// The least weight of a link from one event to another, if there is any.
fn least_weight<A: Allocator>(graph: &Graph<'_, A>, from: usize, to: usize) -> Option<Ms>
    requires { from < graph.now.events + 1 }
    ensures { IfSome result (IsArcBetween graph.now.bounds from to) }
{
    let mut least: Option<Ms> = None;
    for look in graph.row(from) {
        let less = match least {
            Some(weight) => look.weight < weight,
            None => true,
        };
        if less && usize::from(look.to.number()) == to {
            least = Some(look.weight);
        }
    }
    least
}
