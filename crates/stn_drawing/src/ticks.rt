//! An axis with its ticks.
ghost use Rattle.std.specs.{Prelude.{◌≡◌, ◌+◌, ◌++◌, ◌<◌, ◌^◌, OnOk}, List.{flat_map, range_with_len}};
ghost use Rattle.stn_drawing.specs.Ticks as is;
ghost use Rattle.stn_drawing.specs.Seen.{seen_axis};

use crate::axis::{Axis, gap_of, gaps_in, unit_of, unit_text};
use crate::memory::in_memory;
use std::alloc::Allocator;
use std::io::Write;
use stn_time::Memory;

impl Axis {
    /// The axis that begins at `left`, is `width` units wide, and reaches at least `before` milliseconds before the time 0 and
    /// `after` after it; the lines of its ticks end at `bottom`.
    pub fn reaching(left: u64, width: u64, before: u64, after: u64, bottom: u64) -> Axis
        requires left { left < 2 ^ 10 }
        requires width { width < 2 ^ 10 }
        requires before { before < 2 ^ 45 }
        requires after { after < 2 ^ 45 }
        ensures { seen_axis result ≡ is.axis_reaching left width before after bottom }
    {
        let gap = gap_of(before, after);
        let (early, late) = (gaps_in(gap, before), gaps_in(gap, after));
        Axis {
            left,
            width,
            long: (gap * (early + late)).max(1),
            gap,
            before: early,
            ticks: early + late + 1,
            bottom,
        }
    }

    /// Where a time stands that is `far` milliseconds after the beginning, in units, rounded down.
    pub fn place_of(&self, far: u64) -> u64
        requires { far < 2 ^ 53 }
        ensures value { result ≡ is.place_on (seen_axis self.now) far }
        ensures small { result < 2 ^ 63 + 2 ^ 10 }
    {
        self.left + self.width * far / self.long
    }

    /// Appends the lines of the ticks, and the words above them.
    pub fn append<A: Allocator>(&self, out: &mut Vec<u8, A>) -> Result<(), Memory>
        ensures { OnOk result (out.new.items ≡ out.old.items ++ is.axis_text (seen_axis self.now)) }
    {
        out.extend_from_slice(b"<path class='g' d='")?;
        self.append_lines(out)?;
        out.extend_from_slice(b"'/>\n<text class='s m' y='44'>")?;
        self.append_words(out)?;
        out.extend_from_slice(b"</text>\n")
    }

    fn append_lines<A: Allocator>(&self, out: &mut Vec<u8, A>) -> Result<(), Memory>
        ensures { OnOk result (out.new.items ≡ out.old.items ++ flat_map (is.tick_line (seen_axis self.now)) (range_with_len 0 self.now.ticks)) }
    {
        for tick in 0..self.ticks {
            let (left, bottom) = (self.tick_place(tick), self.bottom);
            in_memory(write!(out, "M{left} 50V{bottom}"))?;
        }
        Ok(())
    }

    // Where a tick stands.
    fn tick_place(&self, tick: u64) -> u64
        requires { tick < self.now.ticks }
        ensures { result ≡ is.tick_place (seen_axis self.now) tick }
    {
        self.place_of(self.gap * tick)
    }

    fn append_words<A: Allocator>(&self, out: &mut Vec<u8, A>) -> Result<(), Memory>
        ensures { OnOk result (out.new.items ≡ out.old.items ++ flat_map (is.tick_words (seen_axis self.now)) (range_with_len 0 self.now.ticks)) }
    {
        for tick in 0..self.ticks {
            self.append_word(out, tick)?;
        }
        Ok(())
    }

    fn append_word<A: Allocator>(&self, out: &mut Vec<u8, A>, tick: u64) -> Result<(), Memory>
        requires { tick < self.now.ticks }
        ensures { OnOk result (out.new.items ≡ out.old.items ++ is.tick_words (seen_axis self.now) tick) }
    {
        let left = self.tick_place(tick);
        let sign = if tick < self.before { "-" } else { "" };
        let count = self.gap * tick.abs_diff(self.before) / unit_of(self.gap);
        let unit = if tick == self.before {
            unit_text(self.gap)
        } else {
            ""
        };
        in_memory(write!(out, "<tspan x='{left}'>{sign}{count}{unit}</tspan>"))
    }
}
