//! What stands around the rows: the head, the axis, the present.
ghost use Rattle.std.specs.{Prelude.{◌≡◌, ◌++◌, ◌<◌, ◌^◌, OnOk}, List.{flat_map, range_with_len}};
ghost use Rattle.stn_chart.specs.Frame as frame;
ghost use Rattle.stn_chart.specs.{Frame.{overdue_text, now_text}, Rows.row_text, Seen.seen_chart};

use crate::look::Chart;
use crate::parts::Part;
use crate::places::{height_of, row_top};
use crate::style::{PARTS, SITES, STYLE};
use crate::tables::moment_of;
use std::alloc::Allocator;
use std::io::Write;
use stn_drawing::{append_heading, append_opening, append_paper, in_memory};
use stn_text::print_event;
use stn_time::{Memory, Ms};

// After an error, a part of a text may stand in the output.

impl<'a, 'b, A: Allocator> Chart<'a, 'b, A> {
    /// Appends the picture of a plan.
    pub fn append(&self, out: &mut Vec<u8, A>) -> Result<(), Memory>
        ensures { OnOk result (out.new.items ≡ out.old.items ++ frame.plan_text (seen_chart self.now)) }
    {
        self.append_head(out)?;
        self.axis.append(out)?;
        self.append_rows(out)?;
        self.append_present(out)?;
        self.append_legend(out)?;
        out.extend_from_slice(b"</svg>\n")
    }

    // Appends the rows of the steps.
    fn append_rows(&self, out: &mut Vec<u8, A>) -> Result<(), Memory>
        ensures { OnOk result (out.new.items ≡ out.old.items ++ flat_map (row_text (seen_chart self.now)) (range_with_len 1 self.now.steps)) }
    {
        for before in 0..self.steps {
            self.append_row(out, before + 1)?;
        }
        Ok(())
    }

    // Appends the head.
    fn append_head(&self, out: &mut Vec<u8, A>) -> Result<(), Memory>
        ensures { OnOk result (out.new.items ≡ out.old.items ++ frame.head_text (seen_chart self.now)) }
    {
        append_opening(out, self.look.title, height_of(self.steps))?;
        self.append_style(out)?;
        self.append_ground(out)?;
        append_heading(out, self.look.title)?;
        self.append_summary(out)
    }

    // Appends the style sheets and what they name.
    fn append_style(&self, out: &mut Vec<u8, A>) -> Result<(), Memory>
        ensures { OnOk result (out.new.items ≡ out.old.items ++ frame.chart_style (seen_chart self.now)) }
    {
        out.extend_from_slice(STYLE)?;
        self.append_sites(out)?;
        out.extend_from_slice(PARTS)
    }

    // Appends the style of the steps of sites.
    fn append_sites(&self, out: &mut Vec<u8, A>) -> Result<(), Memory>
        ensures { OnOk result (out.new.items ≡ out.old.items ++ frame.sites_text (seen_chart self.now)) }
    {
        if self.look.owned.is_empty() {
            Ok(())
        } else {
            out.extend_from_slice(SITES)
        }
    }

    // Appends the ground.
    fn append_ground(&self, out: &mut Vec<u8, A>) -> Result<(), Memory>
        ensures { OnOk result (out.new.items ≡ out.old.items ++ frame.chart_paper (seen_chart self.now)) }
    {
        let end = row_top(u64::from(self.steps));
        append_paper(out, height_of(self.steps), row_top(1), end)
    }

    // Appends how many steps are done and running, which event is overdue, the present.
    fn append_summary(&self, out: &mut Vec<u8, A>) -> Result<(), Memory>
        ensures { OnOk result (out.new.items ≡ out.old.items ++ frame.summary_text (seen_chart self.now)) }
    {
        let (done, running) = (self.count_of(Part::Done), self.count_of(Part::Running));
        let steps = self.steps;
        in_memory(write!(
            out,
            "<text class='s e' x='992' y='20'>{done} of {steps} steps done, {running} running"
        ))?;
        append_overdue(out, self.overdue)?;
        append_now(out, self.look.present)?;
        out.extend_from_slice(b"</text>\n")
    }

    // Appends the line of the present, from above the rows to below them.
    fn append_present(&self, out: &mut Vec<u8, A>) -> Result<(), Memory>
        ensures { OnOk result (out.new.items ≡ out.old.items ++ frame.present_text (seen_chart self.now) self.now.look.now.present) }
    {
        match self.look.present {
            Some(now) => {
                let left = self.place_of(moment_of(Some(now)));
                append_line(out, left, row_top(u64::from(self.steps)))
            }
            None => Ok(()),
        }
    }
}

fn append_overdue<A: Allocator>(out: &mut Vec<u8, A>, event: Option<u16>) -> Result<(), Memory>
    ensures { OnOk result (out.new.items ≡ out.old.items ++ overdue_text event) }
{
    match event {
        Some(event) => {
            out.extend_from_slice(b", <tspan class='w'>overdue ")?;
            print_event(event, out)?;
            out.extend_from_slice(b"</tspan>")
        }
        None => Ok(()),
    }
}

fn append_now<A: Allocator>(out: &mut Vec<u8, A>, now: Option<Ms>) -> Result<(), Memory>
    ensures { OnOk result (out.new.items ≡ out.old.items ++ now_text now) }
{
    match now {
        Some(now) => {
            out.extend_from_slice(b", now ")?;
            now.print(out)
        }
        None => Ok(()),
    }
}

// Appends the line of the present.
fn append_line<A: Allocator>(out: &mut Vec<u8, A>, left: u64, end: u64) -> Result<(), Memory>
    requires { end < 2 ^ 45 }
    ensures { OnOk result (out.new.items ≡ out.old.items ++ frame.present_line left end) }
{
    let (bottom, base) = (end + 4, end + 16);
    in_memory(write!(
        out,
        "<path class='c' d='M{left} 48V{bottom}'/><text class='m w' x='{left}' y='{base}'>now</text>\n"
    ))
}
