ghost use Rattle.std.specs.Prelude.{◌≡◌, ◌⊎◌, ◌↔◌, ℕ, ℤ, ◌+◌, List, Some, Result, Ok, Err, IfSome};
ghost use Rattle.std.specs.FinMap as map;
ghost use Rattle.stn_text.specs.Lines.{lines_of};
ghost use Rattle.stn_device.specs.Bytes.{most_bytes, ConsumesAtMost};
ghost use Rattle.stn_net.specs.Difference.{Difference};
ghost use Rattle.stn_refusal.specs.declared.failure.Failure.{Failure};
ghost use Rattle.stn_records.specs.{Content.{Content, Item, HasItem}, Id.{SiteCounter, IsId}, declared.record.Record.Record};
ghost use Rattle.stn_site.specs.{Lines.line, declared.names.BoundName.BoundName, Report.IsReport};
ghost use Rattle.stn_questions.specs.{declared.asked.Question.Question, Answer.{AsksOfPlan, IsAnswer}, Bounds.named_line, Ready.IsReadyText, Records.record_line};
ghost use Rattle.stn_world.specs.{World.{opening_world, content_at}, Steps.{run, TookAt, TookSameAt, TookSameItemsAt}};
ghost use Rattle.stn_exec.specs.{Output.{IsOutput, CountsRefusals, WritesOutputPart}, Runs.{Streams, ReadsScript, PrintsReplies, RunsScript}, Script.{Start, heading_of, last_line, script_outcome}, declared.script.Ran.Ran};
ghost use Rattle.stn_laws.specs.{ReadBack.{IsName, IsReadable, ReadsBack}, Reports.{steps_of_lines, LineOf, first_world, steps_before, world_at, ReportsSite, AsksSite, AsksReady, PrintsAt, PrintSame}};

use crate::queries::{chosen_all, every_query_has_an_answer, one_said};
use crate::questions::{one_answer, one_ready_text};
use crate::worlds::{sites_are_unions, sites_took_same_same_bytes};
use stn_records::counts_same;

/// The law that a script has one output, and one number of refusals.
pub fn one_script()
    ensures output { (script text other : List ℕ)
        → IsOutput (script_outcome script).replies text → IsOutput (script_outcome script).replies other → text ≡ other }
    ensures count { (script : List ℕ) (count other : ℕ)
        → CountsRefusals (script_outcome script).replies count → CountsRefusals (script_outcome script).replies other → count ≡ other }
{
    one_said();
}

/// The law of what a run leaves. One that comes to its end read a whole script, and wrote just its output. One that a fault ends could
/// not read, and wrote nothing; or it read a script, and wrote a front part of its output. It read at most one byte more than a script
/// may have.
pub fn runs_write_output()
    ensures done { (old new : Streams) (ran : Ran) → RunsScript old new (Ok ran) → (script : List ℕ)
        × ReadsScript old.unread new.unread (Ok script) × PrintsReplies (script_outcome script) old.out new.out (Ok ran) }
    ensures ends { (old new : Streams) (failure : Failure) → RunsScript old new (Err failure)
        → (ReadsScript old.unread new.unread (Err failure) × (new.out ≡ old.out))
        ⊎ ((script : List ℕ) × ReadsScript old.unread new.unread (Ok script) × PrintsReplies (script_outcome script) old.out new.out (Err failure)) }
    ensures part { (old new : Streams) (failure : Failure) → RunsScript old new (Err failure)
        → IfSome old.unread.bytes (λ script. WritesOutputPart old.out.bytes new.out.bytes (script_outcome script).replies)
        × ((script : List ℕ) × WritesOutputPart old.out.bytes new.out.bytes (script_outcome script).replies) }
    ensures used { (old new : Streams) (ended : Result Ran Failure) → RunsScript old new ended
        → ConsumesAtMost old.unread.bytes new.unread.bytes (most_bytes + 1) }
{}

/// The law that each script has an output, and a number of refusals, whatever its text is.
pub fn every_script_has_an_output()
    ensures output { (script : List ℕ) → (text : List ℕ) × IsOutput (script_outcome script).replies text }
    ensures count { (script : List ℕ) → (count : ℕ) × CountsRefusals (script_outcome script).replies count }
{
    every_query_has_an_answer();
}

/// The law that the commands of a script are a run of the world's steps, and what its reports say. The
/// script's world is the end of the run of its steps, and at each line the end of the run of the steps
/// before it. The output of the script falls into what the lines before a line print, what the line
/// prints, and what the lines after it print. What a site's command `report` prints is the report of
/// what the site holds, which is the union of what it took. So two sites of one plan, of one script or
/// of two, that took the same additions and withdrawals, in any order, more than once or merged in any
/// grouping, print the same bytes. An amendment is one addition and one withdrawal.
pub fn scripts_are_runs()
    ensures end { (script : List ℕ) (start : Start) → heading_of (last_line script) (lines_of script) ≡ Ok start
        → (script_outcome script).world ≡ run (opening_world start.source start.sites) (steps_of_lines (opening_world start.source start.sites) start.lines) }
    ensures world { (script : List ℕ) (at : LineOf script) → world_at at ≡ run (first_world at) (steps_before at) }
    ensures output { (script output : List ℕ) (at : LineOf script) → IsOutput (script_outcome script).replies output → (text : List ℕ) × PrintsAt at output text }
    ensures report { (script output text : List ℕ) (at : LineOf script) (site : ℕ) → ReportsSite at site → PrintsAt at output text
        → IsReport at.start.source (content_at (world_at at) site) text }
    ensures union { (script : List ℕ) (at : LineOf script) (site : ℕ) → ReportsSite at site
        → (item : Item) → HasItem (content_at (world_at at) site) item ↔ TookAt (first_world at) (steps_before at) site item }
    ensures bytes { (script other output last text last_text : List ℕ) (at : LineOf script) (there : LineOf other) (site others : ℕ)
        → ReportsSite at site → ReportsSite there others → at.start.source ≡ there.start.source
        → TookSameAt (first_world at) (steps_before at) site (first_world there) (steps_before there) others
        → PrintsAt at output text → PrintsAt there last last_text → text ≡ last_text }
{
    sites_are_unions();
    sites_took_same_same_bytes();
}

/// The law of what a script's questions print. What the line of a site's question prints is the answer
/// of the plan and of what the site holds. So two sites of one plan, of one script or of two, that took
/// the same items print the same answer to each question; and where they took the same additions and
/// withdrawals, to each question but that for the records.
pub fn questions_are_answered()
    ensures answer { (script output text : List ℕ) (at : LineOf script) (site : ℕ) (question : Question) → AsksSite at site question → PrintsAt at output text
        → IsAnswer at.start.source (content_at (world_at at) site) question text }
    ensures items { (question : Question) → PrintSame (λ _ at site. AsksSite at site question) TookSameItemsAt }
    ensures plan { (question : Question) → AsksOfPlan question → PrintSame (λ _ at site. AsksSite at site question) TookSameAt }
{
    sites_took_same_same_bytes();
    one_answer();
    counts_same();
}

/// The law of what a script's commands `ready` print. What the line of a site's command prints says
/// which events may run from its time on, by the plan and by what the site holds. So two sites of one
/// plan, of one script or of two, that took the same additions and withdrawals print the same.
pub fn ready_is_answered()
    ensures text { (script output text : List ℕ) (at : LineOf script) (site : ℕ) (now : ℤ) → AsksReady at site now → PrintsAt at output text
        → IsReadyText at.start.source (content_at (world_at at) site) now text }
    ensures bytes { (now : ℤ) → PrintSame (λ _ at site. AsksReady at site now) TookSameAt }
{
    sites_took_same_same_bytes();
    chosen_all();
    one_ready_text();
    counts_same();
}

/// The law that the lines of `bounds` and `records` are read as they say: an addition of the second to the fifth word of one, as
/// its events and sides, adds its bound.
pub fn listed_bounds_read_back()
    ensures bounds { (name : BoundName) (bound : Difference) → IsName name → IsReadable bound
        → (text : List ℕ) × (named_line name bound ≡ line text) × ReadsBack text bound }
    ensures records { (state : Content) (id : SiteCounter) (one : Record) → map.get state.additions id ≡ Some one → IsId id → IsReadable one.bound
        → (text : List ℕ) × (record_line state id ≡ line text) × ReadsBack text one.bound }
{}
