//! The rows of the steps.
ghost use Rattle.std.specs.Prelude.{◌≡◌, ◌++◌, ◌%◌, ◌≤◌, ◌<◌, codes, decimal, OnOk};
ghost use Rattle.stn_chart.specs.Rows as row;
ghost use Rattle.stn_chart.specs.{Rows.bar_text, Seen.seen_chart};

use crate::look::Chart;
use crate::parts::step_of;
use crate::places::{LEAST_WIDTH, LINE_RIGHT, MIDDLE_BELOW, MOST_NAME, ROW_HEIGHT, WORDS_BELOW};
use crate::tables::{end_of, start_of, window_at};
use std::alloc::Allocator;
use std::io::Write;
use stn_drawing::{Seconds, append_cut, append_shown, in_memory};
use stn_site::{Piece, append_pieces};
use stn_time::Memory;

// After an error, a part of a text may stand in the output.

impl<'a, 'b, A: Allocator> Chart<'a, 'b, A> {
    /// Appends the row of a step.
    pub fn append_row(&self, out: &mut Vec<u8, A>, step: u16) -> Result<(), Memory>
        ensures { OnOk result (out.new.items ≡ out.old.items ++ row.row_text (seen_chart self.now) step) }
    {
        self.append_title(out, step)?;
        self.append_label(out, step)?;
        self.append_solid(out, step)?;
        self.append_rest(out, step)?;
        self.append_latest_mark(out, step)?;
        self.append_owner(out, step)?;
        self.append_arrow(out, step)?;
        out.extend_from_slice(b"</g>\n")
    }

    // Appends what a browser shows under the mouse.
    fn append_title(&self, out: &mut Vec<u8, A>, step: u16) -> Result<(), Memory>
        ensures { OnOk result (out.new.items ≡ out.old.items ++ row.title_text (seen_chart self.now) step) }
    {
        in_memory(write!(out, "<g><title>{step} "))?;
        self.append_whole_name(out, step)?;
        self.append_window(out, b": starts ", start_of(step))?;
        self.append_window(out, b", ends ", end_of(step))?;
        out.extend_from_slice(b"</title>")
    }

    // Appends the whole name of a step, or its number.
    fn append_whole_name(&self, out: &mut Vec<u8, A>, step: u16) -> Result<(), Memory>
        ensures { OnOk result (out.new.items ≡ out.old.items ++ row.whole_name (seen_chart self.now) step) }
    {
        match self.names.get(usize::from(step).saturating_sub(1)) {
            Some(name) => append_shown(out, name),
            None => in_memory(write!(out, "step {step}")),
        }
    }

    // Appends the name of a step, cut where it is long, or its number.
    fn append_short_name(&self, out: &mut Vec<u8, A>, step: u16) -> Result<(), Memory>
        ensures { OnOk result (out.new.items ≡ out.old.items ++ row.short_name (seen_chart self.now) step) }
    {
        match self.names.get(usize::from(step).saturating_sub(1)) {
            Some(name) => append_cut(out, MOST_NAME, name),
            None => in_memory(write!(out, "step {step}")),
        }
    }

    // Appends a text and the window of an event in words.
    fn append_window(&self, out: &mut Vec<u8, A>, before: &[u8], event: usize) -> Result<(), Memory>
        ensures { OnOk result (out.new.items ≡ out.old.items ++ (before.now ++ row.window_text (seen_chart self.now) event)) }
    {
        let (soonest, latest) = window_at(self.windows, event);
        let (before, soonest) = (Piece::Text(before), Piece::Time(soonest));
        if self.is_open(event) {
            append_pieces(out, &[before, soonest, Piece::Text(b" or later")])
        } else {
            append_pieces(
                out,
                &[before, soonest, Piece::Text(b" to "), Piece::Time(latest)],
            )
        }
    }

    // The line on which the words of a step stand.
    fn words_base(&self, step: u16) -> u64
        ensures { result ≡ row.words_base (seen_chart self.now) step }
    {
        self.top_of(step) + WORDS_BELOW
    }

    // The middle of its bars.
    fn middle_of(&self, step: u16) -> u64
        ensures value { result ≡ row.middle_of (seen_chart self.now) step }
        ensures below { 3 ≤ result }
    {
        self.top_of(step) + MIDDLE_BELOW
    }

    // Appends the number and the name of a step.
    fn append_label(&self, out: &mut Vec<u8, A>, step: u16) -> Result<(), Memory>
        ensures { OnOk result (out.new.items ≡ out.old.items ++ row.label_text (seen_chart self.now) step) }
    {
        let base = self.words_base(step);
        in_memory(write!(
            out,
            "<text class='s e' x='24' y='{base}'>{step}</text><text class='n' x='32' y='{base}'>"
        ))?;
        self.append_short_name(out, step)?;
        out.extend_from_slice(b"</text>\n")
    }

    // The class of the solid part of a step.
    fn class_of(&self, step: u16) -> &'static str
        ensures { result.now ≡ row.class_of (seen_chart self.now) step }
    {
        let owner = self.owner_of(step);
        if self.is_done(step) {
            "d"
        } else if self.is_running(step) {
            "r"
        } else if self.is_fixed(step) {
            "f"
        } else if owner == 0 {
            "a"
        } else {
            colour_of(owner)
        }
    }

    // Appends the solid part, from the soonest start to the soonest end.
    fn append_solid(&self, out: &mut Vec<u8, A>, step: u16) -> Result<(), Memory>
        ensures { OnOk result (out.new.items ≡ out.old.items ++ row.solid_text (seen_chart self.now) step) }
    {
        let left = self.place_of(self.soonest(start_of(step)));
        let right = self.place_of(self.soonest(end_of(step)));
        let width = LEAST_WIDTH.max(right.saturating_sub(left));
        append_bar(out, self.class_of(step), left, self.middle_of(step), width)
    }

    // Appends what stands after it.
    fn append_rest(&self, out: &mut Vec<u8, A>, step: u16) -> Result<(), Memory>
        ensures { OnOk result (out.new.items ≡ out.old.items ++ row.rest_text (seen_chart self.now) step) }
    {
        if self.is_open(end_of(step)) {
            self.append_open(out, step)
        } else {
            self.append_lasting(out, step)?;
            self.append_time(out, step)
        }
    }

    // Appends the part of a step without a latest time, from the soonest end to the end of the axis.
    fn append_open(&self, out: &mut Vec<u8, A>, step: u16) -> Result<(), Memory>
        ensures { OnOk result (out.new.items ≡ out.old.items ++ row.open_bar_text (seen_chart self.now) step) }
    {
        let left = self.place_of(self.soonest(end_of(step)));
        append_fading(
            out,
            left,
            self.middle_of(step) - 3,
            LINE_RIGHT.saturating_sub(left),
        )
    }

    // Appends the part from the soonest end to the latest.
    fn append_lasting(&self, out: &mut Vec<u8, A>, step: u16) -> Result<(), Memory>
        ensures { OnOk result (out.new.items ≡ out.old.items ++ row.lasting_text (seen_chart self.now) step) }
    {
        if !self.may_last(step) {
            return Ok(());
        }
        let left = self.place_of(self.soonest(end_of(step)));
        let right = self.place_of(self.latest(end_of(step)));
        let class = self.lasting_class(step);
        append_bar(
            out,
            class,
            left,
            self.middle_of(step),
            right.saturating_sub(left),
        )
    }

    fn lasting_class(&self, step: u16) -> &'static str
        ensures { result.now ≡ row.lasting_class (seen_chart self.now) step }
    {
        if self.is_due(step) { "l" } else { "p" }
    }

    fn time_class(&self, step: u16) -> &'static str
        ensures { result.now ≡ row.time_class (seen_chart self.now) step }
    {
        if self.is_due(step) { "s w" } else { "s" }
    }

    fn mark_class(&self, step: u16) -> &'static str
        ensures { result.now ≡ row.mark_class (seen_chart self.now) step }
    {
        if self.is_due(step) { "c" } else { "k" }
    }

    // Where the time after the bars stands.
    fn behind(&self, step: u16) -> u64
        ensures { result ≡ row.behind (seen_chart self.now) step }
    {
        let least = self.place_of(self.soonest(start_of(step))) + LEAST_WIDTH;
        self.place_of(self.latest(end_of(step))).max(least) + 5
    }

    // Appends the latest time.
    fn append_time(&self, out: &mut Vec<u8, A>, step: u16) -> Result<(), Memory>
        ensures { OnOk result (out.new.items ≡ out.old.items ++ row.time_text (seen_chart self.now) step) }
    {
        let latest = window_at(self.windows, end_of(step)).1;
        let (class, time) = (self.time_class(step), Seconds(latest.get()));
        let (left, base) = (self.behind(step), self.words_base(step));
        in_memory(write!(
            out,
            "<text class='{class}' x='{left}' y='{base}'>{time}</text>"
        ))
    }

    // Appends the mark at the latest start.
    fn append_latest_mark(&self, out: &mut Vec<u8, A>, step: u16) -> Result<(), Memory>
        ensures { OnOk result (out.new.items ≡ out.old.items ++ row.latest_mark (seen_chart self.now) step) }
    {
        if !self.may_wait(step) {
            return Ok(());
        }
        let left = self.place_of(self.latest(start_of(step)));
        append_mark(out, self.mark_class(step), left, self.top_of(step) + 4)
    }

    // Appends the number of the site that owns the step.
    fn append_owner(&self, out: &mut Vec<u8, A>, step: u16) -> Result<(), Memory>
        ensures { OnOk result (out.new.items ≡ out.old.items ++ row.owner_text (seen_chart self.now) step) }
    {
        let (owner, base) = (self.owner_of(step), self.words_base(step));
        if owner == 0 {
            return Ok(());
        }
        in_memory(write!(out, "<text class='s e' x='992' y='{base}'>{owner}</text>"))
    }

    // Appends the arrow to the start of a step that has not begun, from the event that holds it.
    fn append_arrow(&self, out: &mut Vec<u8, A>, step: u16) -> Result<(), Memory>
        ensures { OnOk result (out.new.items ≡ out.old.items ++ row.arrow_text (seen_chart self.now) step) }
    {
        if !self.look.arrows || self.is_begun(step) {
            return Ok(());
        }
        match self.holder_of(step) {
            Some(event) => self.append_arrow_from(out, event, step),
            None => Ok(()),
        }
    }

    // Appends the arrow from an event to the start of a step.
    fn append_arrow_from(&self, out: &mut Vec<u8, A>, event: u16, step: u16) -> Result<(), Memory>
        ensures { OnOk result (out.new.items ≡ out.old.items ++ row.arrow_path (seen_chart self.now) event step) }
    {
        let left = self.place_of(self.soonest(usize::from(event)));
        let right = self.place_of(self.soonest(start_of(step)));
        let (top, other) = (self.top_of(step_of(event)), self.top_of(step));
        if top < other {
            append_along(out, left, top + 18, right, other, "v6")
        } else {
            append_along(out, left, top + 6, right, other + ROW_HEIGHT, "v-6")
        }
    }
}

// The class of the steps of a site.
fn colour_of(site: u16) -> &'static str
    ensures { result.now ≡ codes "a o" ++ decimal (site % 6) }
{
    let classes = ["a o0", "a o1", "a o2", "a o3", "a o4", "a o5"];
    classes[usize::from(site % 6)]
}

// Appends an arrow down or up, and to its tip.
fn append_along<A: Allocator>(
    out: &mut Vec<u8, A>,
    left: u64,
    begin: u64,
    right: u64,
    end: u64,
    tip: &str,
) -> Result<(), Memory>
    ensures { OnOk result (out.new.items ≡ out.old.items ++ row.arrow_along left begin right end tip.now) }
{
    in_memory(write!(
        out,
        "<path class='v' d='M{left} {begin}V{end}H{right}{tip}'/>"
    ))
}

/// Appends a bar of a class.
pub fn append_bar<A: Allocator>(
    out: &mut Vec<u8, A>,
    class: &str,
    left: u64,
    middle: u64,
    width: u64,
) -> Result<(), Memory>
    ensures { OnOk result (out.new.items ≡ out.old.items ++ bar_text class.now left middle width) }
{
    in_memory(write!(out, "<path class='{class}' d='M{left} {middle}h{width}'/>"))
}

/// Appends a bar that fades.
pub fn append_fading<A: Allocator>(
    out: &mut Vec<u8, A>,
    left: u64,
    top: u64,
    width: u64,
) -> Result<(), Memory>
    ensures { OnOk result (out.new.items ≡ out.old.items ++ row.fading_text left top width) }
{
    in_memory(write!(
        out,
        "<rect fill='url(#j)' x='{left}' y='{top}' width='{width}' height='6'/>"
    ))
}

/// Appends the mark of a latest start, of a class.
pub fn append_mark<A: Allocator>(
    out: &mut Vec<u8, A>,
    class: &str,
    left: u64,
    top: u64,
) -> Result<(), Memory>
    ensures { OnOk result (out.new.items ≡ out.old.items ++ row.mark_text class.now left top) }
{
    in_memory(write!(out, "<path class='{class}' d='M{left} {top}v16'/>"))
}
