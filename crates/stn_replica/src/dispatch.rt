ghost use Rattle.std.specs.Prelude.{◌≡◌, ◌+◌, ◌≤◌, length, take, IfOk, IfErr, MatchOption};
ghost use Rattle.stn_net.specs.{Event.most_events, Schedule.HasSchedule, Windows.{Dispatch.IsNext, Rehearsal.IsRehearseFault}};
ghost use Rattle.stn_site.specs.{Bounds.all_bounds, Report.done_events, Dispatch.IsRestOfPlan};

use crate::replica::Replica;
use std::alloc::Allocator;
use stn_matrix::{Matrix, next, rehearse};
use stn_net::{Event, Next, RehearseFault};
use stn_site::EVENT_FLAGS;
use stn_time::Ms;

impl<A: Allocator + Copy> Replica<A> {
    /// What comes next from now on, by all bounds; an event is done where a live record says so. None
    /// where all bounds have no schedule. It asks for no memory.
    pub fn next(&self, now: Ms) -> Option<Next>
        ensures { MatchOption result (¬ HasSchedule (all_bounds self.now.source self.now.state))
            (λ answer. HasSchedule (all_bounds self.now.source self.now.state)
            × IsNext (all_bounds self.now.source self.now.state) (done_events self.now.source self.now.state) now answer) }
    {
        let matrix = self.current()?;
        let done = self.plan().done_flags();
        Some(next(matrix, flags_of(&done, matrix), now))
    }

    /// The rest of the plan from now on, by all bounds: each event that is not done and the time at
    /// which it runs. None where all bounds have no schedule.
    ///
    /// Refused in this order: `Overdue`, where every schedule has an event that is not done before
    /// now; `Memory`.
    pub fn rehearse(&self, now: Ms) -> Result<Option<Vec<(Ms, Event), A>>, RehearseFault>
        ensures rest { IfOk result (λ found. MatchOption found (¬ HasSchedule (all_bounds self.now.source self.now.state))
            (λ runs. IsRestOfPlan self.now.source self.now.state now runs.items)) }
        ensures fault { IfErr result (λ fault. HasSchedule (all_bounds self.now.source self.now.state)
            × IsRehearseFault (all_bounds self.now.source self.now.state) (done_events self.now.source self.now.state) now fault) }
    {
        match self.current() {
            Some(matrix) => {
                let done = self.plan().done_flags();
                let runs = rehearse(self.alloc(), matrix, flags_of(&done, matrix), now)?;
                Ok(Some(runs))
            }
            None => Ok(None),
        }
    }
}

// Those of the flags that are about the matrix's events.
fn flags_of<'a, A: Allocator + Copy>(
    flags: &'a [bool; EVENT_FLAGS],
    matrix: &Matrix<A>,
) -> &'a [bool]
    ensures value { result.now ≡ take (matrix.now.events + 1) flags.now }
    ensures one_each { length result.now ≡ matrix.now.events + 1 }
    ensures few { matrix.now.events ≤ most_events }
{
    &flags[..usize::from(matrix.events()) + 1]
}
