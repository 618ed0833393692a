ghost use Rattle.std.specs.{Prelude.{◌≡◌, ℕ, ◌+◌, ◌*◌, ◌<◌, ◌≤◌, ◌++◌, ◌^◌, List, length, map, All, IfOk, OnOk, OnErr, MatchOption}, List.flat_map};
ghost use Rattle.stn_net.specs.{Event.most_events, Schedule.HasSchedule};
ghost use Rattle.stn_lift.specs.PlanSource.{events_of};
ghost use Rattle.stn_records.specs.Content.{most_known, known_count, live_of, replaced_count as replaced_count_of};
ghost use Rattle.stn_site.specs.{Bounds.all_bounds, Lines.link_line, Windows.AreWindows, Report.{most_report, IsWindowsPart, IsReport, IsConflictPart, heading}};

use crate::lines::{MOST_LINE, append_conflict_line, append_link_line, append_window_line};
use crate::pieces::{Piece, append_pieces};
use crate::site_plan::SitePlan;
use std::alloc::Allocator;
use stn_conflict::{Link, cycle};
use stn_net::{Bound, Event};
use stn_records::{Id, Records};
use stn_time::{Memory, Ms};

impl<A: Allocator + Copy> SitePlan<A> {
    /// Appends the report, where the windows of the origin and of all events are known, in their order;
    /// none where all bounds have no schedule. It says how many steps, events, live records and replaced
    /// ids there are; then the window of each event, or else one cycle of bounds that contradict each
    /// other. It depends on the plan and the state alone, and has at most 65,536 bytes. If memory runs
    /// out, it appends nothing.
    pub fn report_with<B: Allocator>(
        &self,
        windows: Option<&[(Ms, Ms)]>,
        out: &mut Vec<u8, B>,
    ) -> Result<(), Memory>
        requires { MatchOption windows (¬ HasSchedule (all_bounds self.now.source self.now.state))
            (λ windows. AreWindows (all_bounds self.now.source self.now.state) (events_of self.now.source) windows.now) }
        ensures reported { OnOk result ((text : List ℕ) × IsReport self.now.source self.now.state text × (out.new.items ≡ out.old.items ++ text)) }
        ensures short { OnOk result (length out.new.items ≤ length out.old.items + most_report) }
        ensures kept { OnErr result (out.new.items ≡ out.old.items) }
    {
        let text = self.text(windows)?;
        out.extend_from_slice(&text)
    }

    // The report.
    fn text(&self, windows: Option<&[(Ms, Ms)]>) -> Result<Vec<u8, A>, Memory>
        requires { MatchOption windows (¬ HasSchedule (all_bounds self.now.source self.now.state))
            (λ windows. AreWindows (all_bounds self.now.source self.now.state) (events_of self.now.source) windows.now) }
        ensures report { IfOk result (λ text. IsReport self.now.source self.now.state text.items) }
        ensures short { IfOk result (λ text. length text.items ≤ most_report) }
    {
        let mut text = Vec::new(self.alloc());
        self.append_heading(&mut text)?;
        match windows {
            Some(known) => self.append_windows(known, &mut text)?,
            None => self.append_conflict(&mut text)?,
        }
        Ok(text)
    }

    fn append_heading(&self, out: &mut Vec<u8, A>) -> Result<(), Memory>
        ensures text { OnOk result (out.new.items ≡ out.old.items ++ heading self.now.source self.now.state) }
        ensures short { OnOk result (length out.new.items ≤ length out.old.items + MOST_LINE * 2) }
    {
        let (live, replaced) = (live_count(self.records()), replaced_count(self.records()));
        let (steps, events) = (self.base().steps(), self.base().events());
        append_pieces(
            out,
            &[
                Piece::Text(b"plan "),
                Piece::Number(steps),
                Piece::Text(b" steps "),
                Piece::Number(events),
                Piece::Text(b" events\n"),
                Piece::Text(b"records "),
                Piece::Number(live),
                Piece::Text(b" live "),
                Piece::Number(replaced),
                Piece::Text(b" withdrawn\n"),
            ],
        )
    }

    // `ok` and the windows of the events.
    fn append_windows(&self, windows: &[(Ms, Ms)], out: &mut Vec<u8, A>) -> Result<(), Memory>
        requires { AreWindows (all_bounds self.now.source self.now.state) (events_of self.now.source) windows.now }
        ensures part { OnOk result ((text : List ℕ) × IsWindowsPart self.now.source self.now.state text × (out.new.items ≡ out.old.items ++ text)) }
        ensures short { OnOk result (length out.new.items ≤ length out.old.items + MOST_LINE * (most_events + 1)) }
    {
        let done = self.done_flags();
        out.extend_from_slice(b"ok\n")?;
        for before in 0..self.base().events() {
            let event = Event::new(before + 1).unwrap();
            let (earliest, latest) = windows[usize::from(before) + 1];
            append_window_line(out, event, earliest, latest, done[usize::from(before) + 1])?;
        }
        Ok(())
    }

    // The sum of the named cycle of all bounds, and then its links.
    pub(crate) fn append_conflict(&self, out: &mut Vec<u8, A>) -> Result<(), Memory>
        requires { ¬ HasSchedule (all_bounds self.now.source self.now.state) }
        ensures part { OnOk result ((text : List ℕ) × IsConflictPart self.now.source self.now.state text × (out.new.items ≡ out.old.items ++ text)) }
        ensures short { OnOk result (length out.new.items ≤ length out.old.items + MOST_LINE * (most_events + 2)) }
    {
        let all_ids = self.live_ids()?;
        let all_others = self.live_bounds()?;
        let ids = all_ids.as_slice();
        let others = all_others.as_slice();
        let base = self.base().bounds();
        let found = cycle(self.alloc(), self.base().events(), base, others)?;
        let named = found.unwrap();
        append_conflict_line(out, named.sum)?;
        append_link_lines(base, ids, others, &named.links, out)
    }
}

// How many records are live.
fn live_count<A: Allocator + Copy>(records: &Records<A>) -> u16
    ensures { result ≡ length (live_of records.now) }
{
    records.live_records().count() as u16
}

// How many ids are replaced.
fn replaced_count<A: Allocator + Copy>(records: &Records<A>) -> u16
    ensures value { result ≡ replaced_count_of records.now }
    ensures limited { known_count records.now ≤ most_known }
{
    records.replaced().len() as u16
}

/// Appends the line of each link, whose place is one of the plan's bounds followed by the others. If
/// memory runs out, it appends nothing.
pub fn append_link_lines<B: Allocator>(
    base: &[Bound],
    ids: &[Id],
    others: &[Bound],
    links: &[Link],
    out: &mut Vec<u8, B>,
) -> Result<(), Memory>
    requires there { All (λ link. link.place < length base.now + length others.now) links.now }
    requires few { length base.now < 2 ^ 32 }
    requires one_each { length ids.now ≡ length others.now }
    ensures text { OnOk result (out.new.items ≡ out.old.items ++ flat_map (link_line base.now ids.now others.now) links.now) }
    ensures short { OnOk result (length out.new.items ≤ length out.old.items + MOST_LINE * length links.now) }
    ensures kept { OnErr result (out.new.items ≡ out.old.items) }
{
    let before = out.len();
    for link in links {
        if let Err(fault) = append_link_line(out, base, ids, others, *link) {
            out.truncate(before);
            return Err(fault);
        }
    }
    Ok(())
}
