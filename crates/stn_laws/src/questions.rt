ghost use Rattle.std.specs.Prelude.{◌≡◌, ◌⊎◌, ℕ, ℤ, ◌+◌, Bool, List, length, All};
ghost use Rattle.stn_net.specs.{Difference.IsBoundWithin, Schedule.HasSchedule, Windows.{Dispatch.IsNext, Rehearsal.{IsRehearsal, IsRehearseFault}}, declared.windows.answers.{Next.{Next, TheVariants.Run}, RehearseFault.TheVariants.Overdue}};
ghost use Rattle.stn_lift.specs.PlanSource.{PlanSource, IsSoundSource, events_of};
ghost use Rattle.stn_records.specs.Content.{Content};
ghost use Rattle.stn_site.specs.{Bounds.{all_bounds, live_bounds}, Report.{IsReport, done_events}, Held.Held, Calls.{Accepted, CameBy, TookSame, TookSameItems}};
ghost use Rattle.stn_questions.specs.{declared.asked.Question.Question, Answer.{AsksOfNoEvent, AsksOfPlan, IsAnswer}, Ready.{BeginsWithNext, IsReadyText, IsReadyWith}};
ghost use Rattle.stn_laws.specs.Among.{IsReadyAmong};

use stn_conflict::{negative_cycle_is_conflict, one_way};
use stn_records::counts_same;
use stn_site::{one_report, took_same_same_bytes};

/// The law that a plan and a state have one answer to each question.
pub fn one_answer()
    ensures { (source : PlanSource) → (state : Content) → (question : Question) → (text other : List ℕ)
        → IsAnswer source state question text → IsAnswer source state question other → text ≡ other }
{
    one_report();
    one_way();
    negative_cycle_is_conflict();
}

/// The law that a plan that has a base and a state have a report, if each bound of a live record is one of the plan.
pub fn every_state_has_a_report()
    ensures { (source : PlanSource) → (state : Content) → IsSoundSource source → All (IsBoundWithin (events_of source)) (live_bounds state)
        → (text : List ℕ) × IsReport source state text }
{}

/// The law that they also have an answer to each question about events that the plan has.
pub fn every_question_has_an_answer()
    ensures { (source : PlanSource) → (state : Content) → IsSoundSource source → All (IsBoundWithin (events_of source)) (live_bounds state)
        → (question : Question) → (¬ AsksOfNoEvent source question) → (text : List ℕ) × IsAnswer source state question text }
{}

/// The law that where all their bounds have a schedule, something comes next from each time on, whichever events count as
/// done.
pub fn every_state_has_a_next()
    ensures { (source : PlanSource) → (state : Content) → IsSoundSource source → All (IsBoundWithin (events_of source)) (live_bounds state)
        → HasSchedule (all_bounds source state) → (done : List Bool) → length done ≡ events_of source + 1 → (now : ℤ)
        → (answer : Next) × IsNext (all_bounds source state) done now answer }
{}

/// The law that there is then a rehearsal, or an event is overdue.
pub fn every_state_has_a_rehearsal()
    ensures { (source : PlanSource) → (state : Content) → IsSoundSource source → All (IsBoundWithin (events_of source)) (live_bounds state)
        → HasSchedule (all_bounds source state) → (done : List Bool) → length done ≡ events_of source + 1 → (now : ℤ)
        → ((runs : List (ℤ × ℕ)) × IsRehearsal (all_bounds source state) done now runs)
        ⊎ ((event : ℕ) × IsRehearseFault (all_bounds source state) done now (Overdue event)) }
{}

/// The law that they have a text that says which events may run from a time on, whichever count as done.
pub fn every_state_has_a_ready_text()
    ensures { (source : PlanSource) → (state : Content) → IsSoundSource source → All (IsBoundWithin (events_of source)) (live_bounds state)
        → (done : List Bool) → length done ≡ events_of source + 1 → (now : ℤ)
        → (text : List ℕ) × IsReadyWith (all_bounds source state) done now text }
{}

/// The law that a plan and a state have one text that says which events may run from a time on.
pub fn one_ready_text()
    ensures { (source : PlanSource) → (state : Content) → (now : ℤ) → (text other : List ℕ)
        → IsReadyText source state now text → IsReadyText source state now other → text ≡ other }
{}

/// The law that where an event comes next, the first line of those that may run says so, with its time,
/// and that all of them may run until the same time.
pub fn ready_begins_with_next()
    ensures { (source : PlanSource) → (state : Content) → (now time : ℤ) → (event : ℕ) → (text : List ℕ)
        → IsNext (all_bounds source state) (done_events source state) now (Run time event) → IsReadyText source state now text → BeginsWithNext time event text }
{}

/// The law that replicas of one plan that took the same, by whatever calls, in any order, more than once
/// or merged in any grouping, give the same answers: to each question where they took the same items, and
/// to each question but that for the records where they took the same additions and withdrawals, where
/// an amendment is the addition of its record and the withdrawal of the id that it replaces. Where they
/// took the same additions and withdrawals, they also say the same of what may run from a time on, of all events (`ready`)
/// or of those that are asked about (`among`).
pub fn same_answers()
    ensures items { (ours theirs : List Accepted) → (one other : Held) → CameBy ours one → CameBy theirs other → TookSameItems ours theirs
        → one.source ≡ other.source → (question : Question) → (text last : List ℕ)
        → IsAnswer one.source one.state question text → IsAnswer other.source other.state question last → text ≡ last }
    ensures plan { (ours theirs : List Accepted) → (one other : Held) → CameBy ours one → CameBy theirs other → TookSame ours theirs
        → one.source ≡ other.source → (question : Question) → AsksOfPlan question → (text last : List ℕ)
        → IsAnswer one.source one.state question text → IsAnswer other.source other.state question last → text ≡ last }
    ensures ready { (ours theirs : List Accepted) → (one other : Held) → CameBy ours one → CameBy theirs other → TookSame ours theirs
        → one.source ≡ other.source → (now : ℤ) → (text last : List ℕ)
        → IsReadyText one.source one.state now text → IsReadyText other.source other.state now last → text ≡ last }
    ensures among { (ours theirs : List Accepted) → (one other : Held) → CameBy ours one → CameBy theirs other → TookSame ours theirs
        → one.source ≡ other.source → (asked : ℕ → Bool) → (now : ℤ) → (text last : List ℕ)
        → IsReadyAmong asked one.source one.state now text → IsReadyAmong asked other.source other.state now last → text ≡ last }
{
    took_same_same_bytes();
    counts_same();
    one_answer();
    one_ready_text();
}
