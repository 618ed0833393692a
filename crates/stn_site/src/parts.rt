// The live records, and what other answers than the report say of the bounds.
ghost use Rattle.std.specs.Prelude.{◌≡◌, ℕ, ◌++◌, List, All, IfOk, OnOk, OnErr};
ghost use Rattle.stn_net.specs.{Difference.NamesEvents, Schedule.HasSchedule};
ghost use Rattle.stn_lift.specs.PlanSource.{events_of};
ghost use Rattle.stn_site.specs.{Bounds.{all_bounds, live_bounds}, Names.live_ids, Report.IsConflictPart};

use crate::site_plan::SitePlan;
use std::alloc::Allocator;
use stn_net::Bound;
use stn_records::Id;
use stn_time::Memory;

impl<A: Allocator + Copy> SitePlan<A> {
    /// The ids of the live records, in order.
    pub fn live_ids(&self) -> Result<Vec<Id, A>, Memory>
        ensures { IfOk result (λ ids. ids.items ≡ live_ids self.now.state) }
    {
        let live = self.records().live_records();
        live.map(|entry| entry.0).collect(self.alloc())
    }

    /// The bounds of the live records, in order of id.
    pub fn live_bounds(&self) -> Result<Vec<Bound, A>, Memory>
        ensures value { IfOk result (λ bounds. bounds.items ≡ live_bounds self.now.state) }
        ensures named { All (NamesEvents (events_of self.now.source)) (live_bounds self.now.state) }
    {
        let live = self.records().live_records();
        live.map(|entry| entry.1.bound).collect(self.alloc())
    }

    /// Appends what the report says of bounds that have no schedule, from the line `conflict` on. If
    /// memory runs out, it appends nothing.
    pub fn report_conflict<B: Allocator>(&self, out: &mut Vec<u8, B>) -> Result<(), Memory>
        requires { ¬ HasSchedule (all_bounds self.now.source self.now.state) }
        ensures part { OnOk result ((text : List ℕ) × IsConflictPart self.now.source self.now.state text × (out.new.items ≡ out.old.items ++ text)) }
        ensures kept { OnErr result (out.new.items ≡ out.old.items) }
    {
        let mut text = Vec::new(self.alloc());
        self.append_conflict(&mut text)?;
        out.extend_from_slice(&text)
    }
}
