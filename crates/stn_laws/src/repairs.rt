ghost use Rattle.std.specs.{Prelude.{◌≡◌, ◌++◌, ◌∷◌, [], ℕ, List, true}, List.Contains, Set.is_member};
ghost use Rattle.stn_net.specs.Schedule.{HasSchedule};
ghost use Rattle.stn_lift.specs.PlanSource.{PlanSource, base_bounds};
ghost use Rattle.stn_records.specs.{Id.{SiteCounter, same_ids}, declared.record.Record.Record, Content.{Content, live_of}};
ghost use Rattle.stn_conflict.specs.{declared.links.Link.Link, Arcs.IsNegativeCycle};
ghost use Rattle.stn_site.specs.{declared.names.BoundName.TheVariants.Record as of_record, Bounds.all_bounds, Names.{live_ids, name_in}, Held.Held, Calls.{Accepted, CameBy, TookSame}};
ghost use Rattle.stn_repairs.specs.{Repairs.others, Dropped.{AreDropped, kept_bounds}, Text.IsRepairsText};

use stn_records::counts_same;

/// The law that a plan and a state have one text of what mends a conflict.
pub fn one_repairs_text()
    ensures { (source : PlanSource) → (state : Content) → (text other : List ℕ)
        → IsRepairsText source state text → IsRepairsText source state other → text ≡ other }
{}

/// The law that a record without which the others have a schedule has a link on each negative cycle of all
/// bounds, so also on the named one.
pub fn repairs_lie_on_each_cycle()
    ensures { (source : PlanSource) → (state : Content) → (links : List Link) → (id : SiteCounter)
        → IsNegativeCycle (all_bounds source state) links → HasSchedule (others (base_bounds source) (live_of state) id)
        → (link : Link) × Contains links link × (name_in (base_bounds source) (live_ids state) link.place ≡ of_record id) }
{}

/// The law that the plan's bounds and those of the records that are not dropped have a schedule, and have
/// none with any one of those that are.
pub fn kept_is_maximal()
    ensures possible { (source : PlanSource) → (state : Content) → (ids : List SiteCounter)
        → HasSchedule (base_bounds source) → AreDropped (base_bounds source) (live_of state) ids
        → HasSchedule (kept_bounds (base_bounds source) (live_of state) ids) }
    ensures largest { (source : PlanSource) → (state : Content) → (ids : List SiteCounter)
        → HasSchedule (base_bounds source) → AreDropped (base_bounds source) (live_of state) ids
        → (id : SiteCounter) → (one : Record) → Contains (live_of state) (id, one) → is_member same_ids ids id ≡ true
        → ¬ HasSchedule (kept_bounds (base_bounds source) (live_of state) ids ++ one.bound ∷ []) }
{}

/// The law that replicas of one plan that took the same additions and withdrawals, by whatever calls, in any
/// order, more than once or merged in any grouping, print the same of what mends a conflict, where an amendment
/// is the addition of its record and the withdrawal of the id that it replaces.
pub fn same_repairs()
    ensures { (ours theirs : List Accepted) → (one other : Held) → CameBy ours one → CameBy theirs other → TookSame ours theirs
        → one.source ≡ other.source → (text last : List ℕ)
        → IsRepairsText one.source one.state text → IsRepairsText other.source other.state last → text ≡ last }
{
    counts_same();
    one_repairs_text();
}
