ghost use Rattle.std.specs.Prelude.{◌≡◌, ◌↔◌, ℕ, List, ◌∷◌, Some};
ghost use Rattle.stn_lift.specs.PlanSource.{PlanSource};
ghost use Rattle.stn_records.specs.{Content.{Content, Item, HasItem, CountsSame, join_contents}, Join.{join_all, SameItems}};
ghost use Rattle.stn_site.specs.{Held.Held, Calls.{Accepted, CameBy, CountAlike, Took, TookSame, TookSameItems}, Report.IsReport};

use stn_conflict::one_named_cycle;
use stn_records::{counts_same, states_by_items_alone};

/// The law that a plan and a state have one report.
pub fn one_report()
    ensures { (source : PlanSource) → (state : Content) → (text other : List ℕ)
        → IsReport source state text → IsReport source state other → text ≡ other }
{
    one_named_cycle();
}

/// The law that a report depends on the additions and the replaced ids alone: states of one plan that
/// have the same of both report the same bytes, whether an id was withdrawn or replaced, and by which
/// record.
pub fn same_counts_same_bytes()
    ensures items { (s t : Content) → CountAlike (HasItem s) (HasItem t) ↔ CountsSame s t }
    ensures bytes { (source : PlanSource) → (s t : Content) → CountsSame s t
        → (text other : List ℕ) → IsReport source s text → IsReport source t other → text ≡ other }
{
    counts_same();
    one_report();
}

/// The law that sites of one plan that took the same items, in any order, more than once or in any
/// grouping, report the same bytes. What a site took is given by a list of states, the first before
/// the rest, and it holds their join.
pub fn same_items_same_bytes()
    ensures { (source : PlanSource) → (a b : Content) → (ours theirs : List Content) → (s t : Content) → (text other : List ℕ)
        → SameItems HasItem (a ∷ ours) (b ∷ theirs) → join_all join_contents a ours ≡ Some s → join_all join_contents b theirs ≡ Some t
        → IsReport source s text → IsReport source t other → text ≡ other }
{
    states_by_items_alone();
    one_report();
}

/// The law that a replica's state is the union of what it took: whatever calls it accepted, since it
/// held nothing, it has an addition, a withdrawal or a replacement exactly where one of them brought
/// it.
pub fn state_is_union()
    ensures { (calls : List Accepted) → (held : Held) → CameBy calls held → (item : Item) → HasItem held.state item ↔ Took calls item }
{}

/// The law that replicas of one plan that took the same additions and withdrawals, by whatever calls,
/// in any order, more than once or merged in any grouping, report the same bytes, where an amendment
/// is the addition of its record and the withdrawal of the id that it replaces; and that they hold
/// the same where they took the same items.
pub fn took_same_same_bytes()
    ensures bytes { (ours theirs : List Accepted) → (one other : Held) → CameBy ours one → CameBy theirs other → TookSame ours theirs → one.source ≡ other.source
        → (text last : List ℕ) → IsReport one.source one.state text → IsReport other.source other.state last → text ≡ last }
    ensures states { (ours theirs : List Accepted) → (one other : Held) → CameBy ours one → CameBy theirs other → TookSameItems ours theirs → one.state ≡ other.state }
{
    state_is_union();
    same_counts_same_bytes();
}
