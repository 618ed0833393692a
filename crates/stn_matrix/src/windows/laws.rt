ghost use Rattle.std.specs.Prelude.{◌≡◌, ◌⊎◌, ◌+◌, ℕ, ℤ, Bool, List, length};
ghost use Rattle.stn_net.specs.{Difference.Difference, Matrix.{Table.Table, Tightest.IsExact}, declared.windows.answers.{Next.Next, RehearseFault.TheVariants.Overdue}, Windows.{Dispatch.{IsNext, IsOverdue}, Rehearsal.{IsRehearsal, IsRehearseFault}}};

/// The law that one answer says what comes next.
pub fn next_unique()
    ensures { (bounds : List Difference) → (done : List Bool) → (now : ℤ) → (one other : Next)
        → IsNext bounds done now one → IsNext bounds done now other → one ≡ other }
{}

/// The law that a plan has one rehearsal, and none where an event is overdue.
pub fn rehearsal_unique()
    ensures runs { (bounds : List Difference) → (done : List Bool) → (now : ℤ) → (one other : List (ℤ × ℕ))
        → IsRehearsal bounds done now one → IsRehearsal bounds done now other → one ≡ other }
    ensures overdue { (bounds : List Difference) → (done : List Bool) → (now : ℤ) → (runs : List (ℤ × ℕ)) → (event : ℕ)
        → IsRehearsal bounds done now runs → ¬ IsOverdue bounds done now event }
{
    next_unique();
}

/// The law that something comes next from any time on, where the differences of the bounds are known and there is a flag
/// for each event.
pub fn something_comes_next()
    ensures { (bounds : List Difference) → (table : Table) → IsExact bounds table → (done : List Bool) → length done ≡ table.events + 1 → (now : ℤ)
        → (answer : Next) × IsNext bounds done now answer }
{}

/// The law that there is then a rehearsal, or the event that is overdue.
pub fn rehearsed_or_overdue()
    ensures { (bounds : List Difference) → (table : Table) → IsExact bounds table → (done : List Bool) → length done ≡ table.events + 1 → (now : ℤ)
        → ((runs : List (ℤ × ℕ)) × IsRehearsal bounds done now runs) ⊎ ((event : ℕ) × IsRehearseFault bounds done now (Overdue event)) }
{}
