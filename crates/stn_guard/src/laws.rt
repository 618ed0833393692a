ghost use Rattle.std.specs.Prelude.{◌≡◌, ◌↔◌, ◌<◌, ◌≤◌, ℕ, ℤ, true, false, List, ◌++◌, take, flat_map, All};
ghost use Rattle.stn_net.specs.{Difference.{Difference, NamesEvents}, Schedule.HasSchedule, Horizon.horizon_bounds, Windows.Window.IsInWindow};
ghost use Rattle.stn_lift.specs.PlanSource.{PlanSource, events_of};
ghost use Rattle.stn_records.specs.Content.{Content, CountsSame};
ghost use Rattle.stn_site.specs.Bounds.{all_bounds};
ghost use Rattle.stn_guard.specs.{Owners.{is_owned, own_bounds, is_shared}, Guard.Guards, Making.{AreSharedWindows, IsGuardOf}};

/// The law of gluing: if each site adds bounds of its own to bounds that are guarded, and its own bounds have a schedule
/// then, all of them together have one.
pub fn guards_glue()
    ensures { (owner : ℕ → ℕ) → (bounds guard : List Difference) → (added : ℕ → List Difference) → (sites : List ℕ)
        → Guards owner bounds guard
        → ((site : ℕ) → All (λ bound. is_owned owner site bound ≡ true) (added site))
        → ((site : ℕ) → HasSchedule (own_bounds owner site ((bounds ++ guard) ++ added site)))
        → HasSchedule ((bounds ++ guard) ++ flat_map added sites) }
{}

/// The law that in guarded bounds the window of an event is its window by its owner's own bounds alone.
pub fn own_windows_are_whole()
    ensures { (owner : ℕ → ℕ) → (bounds guard : List Difference) → Guards owner bounds guard → (event : ℕ) → (time : ℤ)
        → (IsInWindow (bounds ++ guard) event time ↔ IsInWindow (own_bounds owner (owner event) (bounds ++ guard)) event time) }
{}

/// The law that only bounds that have a schedule are guarded.
pub fn guard_needs_schedule()
    ensures { (owner : ℕ → ℕ) → (bounds guard : List Difference) → Guards owner bounds guard → HasSchedule bounds }
{}

/// The law that a bound is shared if and only if it is no site's own.
pub fn shared_is_no_sites_own()
    ensures { (owner : ℕ → ℕ) → (bound : Difference)
        → ((is_shared owner bound ≡ true) ↔ ((site : ℕ) → is_owned owner site bound ≡ false)) }
{}

/// The law that the guard that is made of bounds guards them, and that its bounds are windows in the bounds with the
/// guard. There are so many `events` beside the origin, and the bounds begin with their horizon bounds.
pub fn made_guards()
    ensures guards { (owner : ℕ → ℕ) → (events : ℕ) → (bounds guard : List Difference) → HasSchedule bounds
        → All (NamesEvents events) bounds → take events bounds ≡ horizon_bounds events
        → IsGuardOf owner events bounds guard → Guards owner bounds guard }
    ensures windows { (owner : ℕ → ℕ) → (events : ℕ) → (bounds guard : List Difference) → HasSchedule bounds
        → All (NamesEvents events) bounds → take events bounds ≡ horizon_bounds events
        → IsGuardOf owner events bounds guard → AreSharedWindows owner events bounds (bounds ++ guard) guard }
{}

/// The law that one guard is made of bounds and owners.
pub fn one_guard()
    ensures { (owner : ℕ → ℕ) → (events : ℕ) → (bounds one other : List Difference) → HasSchedule bounds
        → IsGuardOf owner events bounds one → IsGuardOf owner events bounds other → one ≡ other }
{}

/// The law that sites of one plan whose states have the same records and the same replaced ids, with owners that agree on each of
/// the plan's events, make the same guard.
pub fn same_counts_same_guard()
    ensures { (source : PlanSource) → (state like : Content) → (owner other : ℕ → ℕ) → (one last : List Difference) → CountsSame state like
        → ((event : ℕ) → 0 < event → event ≤ events_of source → owner event ≡ other event)
        → All (NamesEvents (events_of source)) (all_bounds source state) → HasSchedule (all_bounds source state)
        → IsGuardOf owner (events_of source) (all_bounds source state) one
        → IsGuardOf other (events_of source) (all_bounds source like) last → one ≡ last }
{}
