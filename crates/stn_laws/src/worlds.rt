ghost use Rattle.std.specs.{Prelude.{◌≡◌, ℕ, ◌≤◌, ◌↔◌, List, ◌∷◌, map, All, None, true, false}, List.Contains};
ghost use Rattle.stn_lift.specs.PlanSource.{PlanSource, events_of, IsSoundSource};
ghost use Rattle.stn_records.specs.{Id.SiteCounter, declared.record.Record.Record, Content.{most_known, Content, Item, addition, HasItem, is_known, is_live, dispute_contents, IsPart, CountsSame}};
ghost use Rattle.stn_site.specs.{Calls.Replaces, Held.Held, Report.IsReport, declared.own.OwnedSteps.OwnedSteps};
ghost use Rattle.stn_guard.specs.Adding.{owner_by, AddsGuard};
ghost use Rattle.stn_world.specs.{World.{World, HasSite, HasPacket, IsRecordOf, opening_world, held_at, content_at, packet_at}, Steps.{Step, merged, delivered, IsAccepted, run, Brings, TookAt, TookSameAt, TookSameItemsAt}};
ghost use Rattle.stn_laws.specs.{Guarded.{adds_bound, AllAccepted, HoldsAlone, HoldsGuarded, KeepsToOwn, HaveOwnSchedules, HaveSchedules}, Runs.{Making, WasMade, records_made, states_of, HasEntries, InEachRun}};

use stn_site::{one_report, same_counts_same_bytes};

/// The law that what a site of a world holds is the union of what it took: after any run it has an
/// addition, a withdrawal or an entry of an amendment exactly where one of the steps that were accepted
/// brought it there.
pub fn sites_are_unions()
    ensures { (source : PlanSource) (sites : ℕ) (steps : List Step) (site : ℕ) → HasSite (opening_world source sites) site
        → (item : Item) → HasItem (content_at (run (opening_world source sites) steps) site) item ↔ TookAt (opening_world source sites) steps site item }
{}

/// The law that the states of a world, those of its sites and of its packets, agree, after any run:
/// any two on every id, so that each id has one record everywhere; and each id of a site that is known
/// anywhere is known at that site, so that its next id is new everywhere.
pub fn states_agree()
    ensures agreed { InEachRun (λ now items. (one other : Content) → Contains (states_of now) one → Contains (states_of now) other → dispute_contents one other ≡ None) }
    ensures own { InEachRun (λ now items. (one : Content) (id : SiteCounter) → Contains (states_of now) one → is_known one id ≡ true
        → is_known (content_at now id.site) id ≡ true) }
{}

/// The law that in each run in which at most 4,096 records are made no delivery and no merge is refused
/// for a cause other than memory and a site or packet that is not there.
pub fn none_refused()
    ensures delivery { InEachRun (λ now items. records_made items ≤ most_known
        → (site number : ℕ) → HasSite now site → HasPacket now number → IsAccepted now (delivered site number)) }
    ensures merge { InEachRun (λ now items. records_made items ≤ most_known
        → (site other : ℕ) → HasSite now site → HasSite now other → IsAccepted now (merged site other)) }
{}

/// The law that in each run each site holds every item that it made, and no site and no packet holds
/// an item that nobody made.
pub fn only_made_items()
    ensures held { InEachRun (λ now items. (one : Making) → Contains items one → HasItem (content_at now one.site) one.item) }
    ensures at_sites { InEachRun (λ now items. (site : ℕ) (item : Item) → HasItem (content_at now site) item → WasMade items item) }
    ensures in_packets { InEachRun (λ now items. (number : ℕ) (item : Item) → HasItem (packet_at now number) item → WasMade items item) }
{}

/// The law that in each run each record of a site or of a packet is of a bound of the plan, and one that says that an event was executed
/// fixes its time.
pub fn records_are_bounds()
    ensures { InEachRun (λ now items. (state : Content) → Contains (states_of now) state → (id : SiteCounter) → (one : Record) → HasItem state (addition id one)
        → IsRecordOf (events_of now.source) one) }
{}

/// The law that an amendment is whole: in each run a site or a packet that has the record of an amendment
/// has the entry by which it replaces another id, too.
pub fn amendments_are_whole()
    ensures { InEachRun (λ now items. (state : Content) → Contains (states_of now) state → HasEntries now state) }
{}

/// The law that in each run what a site took from a packet or from another site it holds ever after,
/// whole: after the delivery or merge that was accepted, and after any further steps.
pub fn held_ever_after()
    ensures delivered { InEachRun (λ now items. (site number : ℕ) → IsAccepted now (delivered site number)
        → (rest : List Step) → IsPart (packet_at now number) (content_at (run now (delivered site number ∷ rest)) site)) }
    ensures merged { InEachRun (λ now items. (site other : ℕ) → IsAccepted now (merged site other)
        → (rest : List Step) → IsPart (content_at now other) (content_at (run now (merged site other ∷ rest)) site)) }
{}

/// The law that two sites of a world that hold the same items print the same bytes.
pub fn same_items_print_same()
    ensures { (world : World) (site other : ℕ) → ((item : Item) → HasItem (content_at world site) item ↔ HasItem (content_at world other) item)
        → (text last : List ℕ) → IsReport world.source (content_at world site) text → IsReport world.source (content_at world other) last → text ≡ last }
{
    one_report();
}

/// The law that in each run a bound that was withdrawn or replaced at a site, or came there as withdrawn
/// or replaced by a packet or a merge, is never live there afterwards, even where its record comes
/// later.
pub fn withdrawn_for_good()
    ensures { InEachRun (λ now items. (step : Step) (site : ℕ) (id : SiteCounter) → IsAccepted now step → Replaces (Brings now step site) id
        → (rest : List Step) → is_live (content_at (run now (step ∷ rest)) site) id ≡ false) }
{}

/// The law of acting out of contact. Take a world in any run in which each site holds a guarded state, and beside it nothing is
/// held but records of bounds that are the own of the sites that made them. While from then on each site only adds bounds and
/// executions of its own, and its own bounds keep a schedule, all that any site holds has one, whatever is merged or
/// delivered.
pub fn guarded_sites_keep_schedules()
    ensures { InEachRun (λ start items. (owner : ℕ → ℕ) (state : Content) → HoldsGuarded owner state start
        → (steps : List Step) → All (KeepsToOwn owner) steps → HaveOwnSchedules owner (run start steps) → HaveSchedules (run start steps)) }
{}

/// The law that a site of a world that adds each bound of its guard, and is refused none, holds what it holds where it adds the
/// guard at once.
pub fn guards_are_steps()
    ensures { (world : World) (site : ℕ) → HasSite world site → (owned : List OwnedSteps) (ids : List SiteCounter) (new : Held)
        → (adds : AddsGuard owned (held_at world site) ids new) → AllAccepted world (map (adds_bound site) adds.guard)
        → content_at (run world (map (adds_bound site) adds.guard)) site ≡ new.state }
{}

/// The law that a guard leads to a guarded world: take what a site of a world holds, in any run, once it added its guard. A world
/// of the same plan whose sites all hold this, and nothing else, holds a guarded state.
pub fn guards_guard_worlds()
    ensures { InEachRun (λ now items. IsSoundSource now.source → (site : ℕ) (owned : List OwnedSteps) (ids : List SiteCounter) (new : Held)
        → AddsGuard owned (held_at now site) ids new → (world : World) → world.source ≡ now.source → HoldsAlone new.state world
        → HoldsGuarded (owner_by site owned) new.state world) }
{}

/// The law that two sites of one plan, in one world or in two, that took the same additions and
/// withdrawals, in any order, more than once or merged in any grouping, have the same records and the
/// same replaced ids and report the same bytes. An amendment is the addition of its record and the
/// withdrawal of the id that it replaces, so it prints as these two would. Sites that took the same
/// items hold the same.
pub fn sites_took_same_same_bytes()
    ensures bytes { (source : PlanSource) (sites others : ℕ) (ours theirs : List Step)
        → (site other : ℕ) → HasSite (opening_world source sites) site → HasSite (opening_world source others) other
        → TookSameAt (opening_world source sites) ours site (opening_world source others) theirs other
        → let one = content_at (run (opening_world source sites) ours) site in
        let two = content_at (run (opening_world source others) theirs) other in
        CountsSame one two × ((text last : List ℕ) → IsReport source one text → IsReport source two last → text ≡ last) }
    ensures states { (source : PlanSource) (sites others : ℕ) (ours theirs : List Step)
        → (site other : ℕ) → HasSite (opening_world source sites) site → HasSite (opening_world source others) other
        → TookSameItemsAt (opening_world source sites) ours site (opening_world source others) theirs other
        → content_at (run (opening_world source sites) ours) site ≡ content_at (run (opening_world source others) theirs) other }
{
    sites_are_unions();
    same_counts_same_bytes();
}
