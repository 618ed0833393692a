ghost use Rattle.std.specs.Prelude.{◌≡◌, ◌⊎◌, ℕ, ℤ, None, Some, List, Option};
ghost use Rattle.stn_refusal.specs.declared.{refusal.Refusal.Refusal, failure.Failure.{Failure, TheVariants.Refused}};
ghost use Rattle.stn_site.specs.{Held.Held, Report.done_events, SoundSite.IsSoundSite, Calls.{Accepted, CameBy, TookSame}};
ghost use Rattle.stn_lift.specs.{Plan.Steps.PlannedStep, PlanSource.PlanSource};
ghost use Rattle.stn_records.specs.Content.{Content};
ghost use Rattle.stn_questions.specs.declared.words.Outlook.{Outlook};
ghost use Rattle.stn_command.specs.{Dispatch.{Choice, every_event, done_or_not_chosen}, Named.IsNamed, Query.{Query, foresee, IsSaid, IsQueryRefusal}};

use crate::questions::one_answer;
use crate::repairs::one_repairs_text;
use stn_picture::one_picture;
use stn_records::counts_same;
use stn_site::one_report;

/// The law that what a site holds has one answer to each query, also by the names of another plan's steps, and one
/// cause that refuses a query or none.
pub fn one_said()
    ensures text { (query : Query) (held : Held) (text other : List ℕ) → IsSaid query held text → IsSaid query held other → text ≡ other }
    ensures named { (query : Query) (steps : List PlannedStep) (held : Held) (text other : List ℕ)
        → IsNamed query steps held text → IsNamed query steps held other → text ≡ other }
    ensures refusal { (query : Query) (held : Held) (cause other : Option Failure)
        → IsQueryRefusal query held cause → IsQueryRefusal query held other → cause ≡ other }
{
    one_report();
    one_answer();
    one_repairs_text();
    one_picture();
}

/// The law that each site has an answer to each query that nothing refuses (`text`), also by the names of any steps (`named`), and that
/// nothing refuses a query or a cause does that is printed (`refusal`).
pub fn every_query_has_an_answer()
    ensures text { (query : Query) (held : Held) → IsSoundSite held → IsQueryRefusal query held None → (text : List ℕ) × IsSaid query held text }
    ensures refusal { (query : Query) (held : Held) → IsSoundSite held
        → IsQueryRefusal query held None ⊎ ((cause : Refusal) × IsQueryRefusal query held (Some (Refused cause))) }
    ensures named { (query : Query) (steps : List PlannedStep) (held : Held) → IsSoundSite held → IsQueryRefusal query held None
        → (text : List ℕ) × IsNamed query steps held text }
{}

/// The law that where every event is chosen, one counts as left exactly if it is not done.
pub fn chosen_all()
    ensures { (source : PlanSource) (state : Content)
        → done_or_not_chosen every_event source state ≡ done_events source state }
{}

/// The law that replicas of one plan that took the same additions and withdrawals say the same of the events that are left,
/// whichever are chosen: what comes next from a time on, which may run, and how the rest runs.
pub fn same_foreseen()
    ensures { (ours theirs : List Accepted) → (one other : Held) → CameBy ours one → CameBy theirs other → TookSame ours theirs
        → one.source ≡ other.source → (outlook : Outlook) → (now : ℤ) → (choice : Choice) → (text last : List ℕ)
        → IsSaid (foresee outlook now choice) one text → IsSaid (foresee outlook now choice) other last → text ≡ last }
{
    counts_same();
}
