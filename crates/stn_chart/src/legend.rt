//! The legend of what occurs.
ghost use Rattle.std.specs.Prelude.{◌≡◌, ◌+◌, ◌++◌, ◌≤◌, ◌<◌, ◌^◌, IfOk, OnOk};
ghost use Rattle.stn_chart.specs.Frame as frame;
ghost use Rattle.stn_chart.specs.{Frame.{sample_text, meaning_text}, Seen.seen_chart};

use crate::look::Chart;
use crate::parts::Part;
use crate::places::{LEGEND_APART, LEGEND_LEFT, row_top};
use crate::rows::{append_bar, append_fading, append_mark};
use std::alloc::Allocator;
use std::io::Write;
use stn_drawing::in_memory;
use stn_time::Memory;

const PARTS: [Part; 8] = [
    Part::Soonest,
    Part::Lasting,
    Part::Latest,
    Part::Fixed,
    Part::Done,
    Part::Running,
    Part::Due,
    Part::Open,
];

impl<'a, 'b, A: Allocator> Chart<'a, 'b, A> {
    /// Appends an entry of the legend for each part that occurs.
    pub fn append_legend(&self, out: &mut Vec<u8, A>) -> Result<(), Memory>
        ensures { OnOk result (out.new.items ≡ out.old.items ++ frame.legend_text (seen_chart self.now)) }
    {
        let base = row_top(u64::from(self.steps)) + 44;
        let mut left = LEGEND_LEFT;
        for part in PARTS {
            left = self.append_entry_at(out, base, left, part)?;
        }
        Ok(())
    }

    // Appends the entry of a part, where it occurs: where the next entry begins.
    fn append_entry_at(
        &self,
        out: &mut Vec<u8, A>,
        base: u64,
        left: u64,
        part: Part,
    ) -> Result<u64, Memory>
        requires left { left < 2 ^ 40 }
        requires base { 12 ≤ base }
        ensures entry { OnOk result (out.new.items ≡ out.old.items ++ frame.entry_at (seen_chart self.now) base left part) }
        ensures next { IfOk result (λ next. next ≡ frame.left_after (seen_chart self.now) left part) }
        ensures near { IfOk result (λ next. next ≤ left + 120) }
    {
        if self.count_of(part) == 0 {
            return Ok(left);
        }
        let entry = Entry { part, left, base };
        entry.append_sample(out)?;
        entry.append_meaning(out)?;
        Ok(left + LEGEND_APART)
    }
}

// An entry of the legend: its part, where it begins, and the line on which its words stand.
#[derive(Clone, Copy)]
struct Entry {
    part: Part,
    left: u64,
    base: u64,
    ghost near: { left < 2 ^ 40 },
    ghost below: { 12 ≤ base },
}

impl Entry {
    fn append_sample<A: Allocator>(&self, out: &mut Vec<u8, A>) -> Result<(), Memory>
        ensures { OnOk result (out.new.items ≡ out.old.items ++ sample_text self.now.part self.now.left self.now.base) }
    {
        let (left, base) = (self.left, self.base);
        let class = match self.part {
            Part::Soonest => "a",
            Part::Lasting => "p",
            Part::Latest => return append_mark(out, "k", left + 9, base - 12),
            Part::Fixed => "f",
            Part::Done => "d",
            Part::Running => "r",
            Part::Due => "l",
            Part::Open => return append_fading(out, left, base - 7, 18),
        };
        append_bar(out, class, left, base - 4, 18)
    }

    fn append_meaning<A: Allocator>(&self, out: &mut Vec<u8, A>) -> Result<(), Memory>
        ensures { OnOk result (out.new.items ≡ out.old.items ++ frame.words_text self.now.part (self.now.left + 24) self.now.base) }
    {
        let (left, base) = (self.left + 24, self.base);
        let meaning = meaning_of(self.part);
        in_memory(write!(
            out,
            "<text class='s' x='{left}' y='{base}'>{meaning}</text>\n"
        ))
    }
}

fn meaning_of(part: Part) -> &'static str
    ensures { result.now ≡ meaning_text part }
{
    match part {
        Part::Soonest => "soonest",
        Part::Lasting => "may last until",
        Part::Latest => "latest start",
        Part::Fixed => "cannot move",
        Part::Done => "done",
        Part::Running => "running",
        Part::Due => "due soon",
        Part::Open => "no latest time",
    }
}
