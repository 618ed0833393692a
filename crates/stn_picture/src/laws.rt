ghost use Rattle.std.specs.Prelude.{◌≡◌, ℕ, List};
ghost use Rattle.stn_lift.specs.PlanSource.{PlanSource};
ghost use Rattle.stn_records.specs.Content.{Content};
ghost use Rattle.stn_site.specs.{Held.Held, Calls.{Accepted, CameBy, TookSame}};
ghost use Rattle.stn_chart.specs.Chart.{Look};
ghost use Rattle.stn_picture.specs.Picture.{IsPicture};

use stn_conflict::{negative_cycle_is_conflict, one_named_cycle};
use stn_records::counts_same;

/// The law that a plan and a state have one picture, drawn in one way with the same names.
pub fn one_picture()
    ensures { (look : Look) → (names : List (List ℕ)) → (source : PlanSource) → (state : Content) → (text other : List ℕ)
        → IsPicture look names source state text → IsPicture look names source state other → text ≡ other }
{
    one_named_cycle();
    negative_cycle_is_conflict();
}

/// The law that sites of one plan that took the same additions and withdrawals, by whatever calls, in any order, more than once
/// or merged in any grouping, have the same picture, drawn in one way with the same names. An amendment is the addition of its
/// record and the withdrawal of the id that it replaces.
pub fn same_pictures()
    ensures { (ours theirs : List Accepted) → (one other : Held) → CameBy ours one → CameBy theirs other → TookSame ours theirs
        → one.source ≡ other.source → (look : Look) → (names : List (List ℕ)) → (text last : List ℕ)
        → IsPicture look names one.source one.state text → IsPicture look names other.source other.state last → text ≡ last }
{
    counts_same();
    one_picture();
}
