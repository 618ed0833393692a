//! What stands around the rows of a conflict.
ghost use Rattle.std.specs.{Prelude.{◌≡◌, ◌++◌, ◌≤◌, length, OnOk, neg_ℤ}, List.{flat_map, range_with_len}};
ghost use Rattle.stn_walk.specs.Walk as is;
ghost use Rattle.stn_walk.specs.Seen.{seen_walk};

use crate::parts::top_of;
use crate::style::WALK;
use crate::walk::Walk;
use std::alloc::Allocator;
use std::io::Write;
use stn_drawing::{EventName, Seconds, append_heading, append_opening, append_paper, in_memory};
use stn_time::Memory;

// After an error, a part of a text may stand in the output.

impl<'a, 'b, A: Allocator> Walk<'a, 'b, A> {
    /// Appends the picture of a conflict.
    pub fn append(&self, out: &mut Vec<u8, A>) -> Result<(), Memory>
        requires { 1 ≤ length self.now.links.now }
        ensures { OnOk result (out.new.items ≡ out.old.items ++ is.walk_text (seen_walk self.now)) }
    {
        self.append_head(out)?;
        self.axis.append(out)?;
        self.append_drops(out)?;
        self.append_rows(out)?;
        self.append_last_row(out)?;
        self.append_foot(out)?;
        out.extend_from_slice(b"</svg>\n")
    }

    // Appends the last row: the first event again, before itself.
    fn append_last_row(&self, out: &mut Vec<u8, A>) -> Result<(), Memory>
        requires { 1 ≤ length self.now.links.now }
        ensures { OnOk result (out.new.items ≡ out.old.items ++ is.last_row (seen_walk self.now)) }
    {
        self.append_before_itself(out)?;
        self.append_span(out)?;
        self.append_again(out)
    }

    // Appends that the first event would come before itself, and by how much.
    fn append_before_itself(&self, out: &mut Vec<u8, A>) -> Result<(), Memory>
        requires { 1 ≤ length self.now.links.now }
        ensures { OnOk result (out.new.items ≡ out.old.items ++ is.before_itself (seen_walk self.now)) }
    {
        let base = top_of(self.links.len()) + 15;
        let (event, early) = (EventName(self.begins_at(0)), self.early());
        in_memory(write!(
            out,
            "<text class='h w' x='8' y='{base}'>{event} would be {early} before itself</text>"
        ))
    }

    // Appends the span from the sum of all links to 0.
    fn append_span(&self, out: &mut Vec<u8, A>) -> Result<(), Memory>
        ensures { OnOk result (out.new.items ≡ out.old.items ++ is.span_text (seen_walk self.now)) }
    {
        let (left, right) = (self.left_of(self.links.len()), self.place_of(0));
        let top = top_of(self.links.len());
        let (ends, middle) = (top + 10, top + 17);
        in_memory(write!(
            out,
            "<path class='c' d='M{left} {ends}v14M{right} {ends}v14M{left} {middle}H{right}'/>"
        ))
    }

    // Appends the first event again, where it would come.
    fn append_again(&self, out: &mut Vec<u8, A>) -> Result<(), Memory>
        requires { 1 ≤ length self.now.links.now }
        ensures { OnOk result (out.new.items ≡ out.old.items ++ is.again_text (seen_walk self.now)) }
    {
        let left = self.left_of(self.links.len()).saturating_sub(8);
        let base = top_of(self.links.len()) + 21;
        let event = EventName(self.begins_at(0));
        in_memory(write!(
            out,
            "<text class='e' x='{left}' y='{base}'>{event}</text>\n"
        ))
    }

    // Appends what the rows show.
    fn append_foot(&self, out: &mut Vec<u8, A>) -> Result<(), Memory>
        requires { 1 ≤ length self.now.links.now }
        ensures { OnOk result (out.new.items ≡ out.old.items ++ is.walk_foot (seen_walk self.now)) }
    {
        let base = top_of(self.links.len() + 1) + 24;
        let event = EventName(self.begins_at(0));
        in_memory(write!(
            out,
            "<text class='s' x='8' y='{base}'>From row to row: the latest time of the next event, where {event} is at 0.</text>\n"
        ))
    }

    // Appends the lines from each row down to the next one.
    fn append_drops(&self, out: &mut Vec<u8, A>) -> Result<(), Memory>
        ensures { OnOk result (out.new.items ≡ out.old.items ++ is.walk_drops (seen_walk self.now)) }
    {
        out.extend_from_slice(b"<path class='o' d='")?;
        self.append_each_drop(out)?;
        out.extend_from_slice(b"'/>\n")
    }

    fn append_each_drop(&self, out: &mut Vec<u8, A>) -> Result<(), Memory>
        ensures { OnOk result (out.new.items ≡ out.old.items ++ flat_map (is.row_drop (seen_walk self.now)) (range_with_len 0 (length self.now.links.now))) }
    {
        for row in 0..self.links.len() {
            self.append_drop(out, row)?;
        }
        Ok(())
    }

    // Appends the rows of the links.
    fn append_rows(&self, out: &mut Vec<u8, A>) -> Result<(), Memory>
        ensures { OnOk result (out.new.items ≡ out.old.items ++ flat_map (is.walk_row (seen_walk self.now)) (range_with_len 0 (length self.now.links.now))) }
    {
        for row in 0..self.links.len() {
            self.append_row(out, row)?;
        }
        Ok(())
    }

    // Appends the head.
    fn append_head(&self, out: &mut Vec<u8, A>) -> Result<(), Memory>
        ensures { OnOk result (out.new.items ≡ out.old.items ++ is.walk_head (seen_walk self.now)) }
    {
        let end = top_of(self.links.len() + 1);
        let height = end + 36;
        append_opening(out, self.title, height)?;
        out.extend_from_slice(WALK)?;
        append_paper(out, height, top_of(1), end)?;
        append_heading(out, self.title)?;
        self.append_summary(out)
    }

    // Appends how many bounds contradict each other, and by how much.
    fn append_summary(&self, out: &mut Vec<u8, A>) -> Result<(), Memory>
        ensures { OnOk result (out.new.items ≡ out.old.items ++ is.walk_summary (seen_walk self.now)) }
    {
        let (count, early) = (self.links.len(), self.early());
        in_memory(write!(
            out,
            "<text class='s e' x='992' y='20'>{count} bounds contradict each other by {early} s</text>\n"
        ))
    }

    // By how much the first event would come before itself.
    fn early(&self) -> Seconds
        ensures { result.0 ≡ neg_ℤ (is.last_sum (seen_walk self.now)) }
    {
        Seconds(-self.sum_at(self.links.len()))
    }
}
