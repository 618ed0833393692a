//! The rows of the links.
ghost use Rattle.std.specs.Prelude.{◌≡◌, ◌+◌, ◌++◌, ◌<◌, ◌^◌, length, OnOk};
ghost use Rattle.stn_time.specs.Text.{printed};
ghost use Rattle.stn_site.specs.Lines as site_lines;
ghost use Rattle.stn_walk.specs.Walk as is;
ghost use Rattle.stn_walk.specs.{Walk.leaves_text, Seen.seen_walk};

use crate::parts::{is_duration, top_of};
use crate::walk::Walk;
use std::alloc::Allocator;
use std::io::Write;
use stn_conflict::Side;
use stn_drawing::{EventName, Seconds, append_cut, in_memory};
use stn_lift::step_of;
use stn_net::{Bound, Event};
use stn_records::Id;
use stn_repairs::Repair;
use stn_site::{BoundName, Piece, append_pieces};
use stn_time::{Memory, Ms};

// In the title of a row, a name has at most so many characters.
const MOST_WHOLE: usize = 200;

// In the words of a row, a name has at most so many.
const MOST_SHORT: usize = 24;

// From so many units on, an arrow is longer than its tip.
const TIP: u64 = 9;

// After an error, a part of a text may stand in the output.

impl<'a, 'b, A: Allocator> Walk<'a, 'b, A> {
    /// Appends the row of a link.
    pub fn append_row(&self, out: &mut Vec<u8, A>, row: usize) -> Result<(), Memory>
        requires { row < length self.now.links.now }
        ensures { OnOk result (out.new.items ≡ out.old.items ++ is.walk_row (seen_walk self.now) row) }
    {
        out.extend_from_slice(b"<g>")?;
        self.append_title(out, row)?;
        self.append_words(out, row)?;
        self.append_mending(out, row)?;
        self.append_label(out, row)?;
        self.append_arrow(out, row)?;
        out.extend_from_slice(b"</g>\n")
    }

    /// The place, from the left, at which the arrow of a row begins.
    pub fn left_of(&self, row: usize) -> u64
        ensures value { result ≡ is.left_of (seen_walk self.now) row }
        ensures small { result < 2 ^ 63 + 2 ^ 10 }
    {
        self.place_of(self.sum_at(row))
    }

    // Appends what the record of a row leaves, where it alone mends the conflict.
    fn append_mending(&self, out: &mut Vec<u8, A>, row: usize) -> Result<(), Memory>
        requires { row < length self.now.links.now }
        ensures { OnOk result (out.new.items ≡ out.old.items ++ is.row_mending (seen_walk self.now) row) }
    {
        if let BoundName::Record(id) = self.name_of(row) {
            for repair in self.repairs {
                self.append_mends(out, row, id, *repair)?;
            }
        }
        Ok(())
    }

    // Appends the range of a repair, where it is by the record of a row.
    fn append_mends(
        &self,
        out: &mut Vec<u8, A>,
        row: usize,
        id: Id,
        repair: Repair,
    ) -> Result<(), Memory>
        requires { row < length self.now.links.now }
        ensures { OnOk result (out.new.items ≡ out.old.items ++ is.mends_text row (is.row_link (seen_walk self.now) row).side id repair) }
    {
        if repair.id != id {
            return Ok(());
        }
        let base = top_of(row) + 29;
        let (left, words) = left_by(self.row_link(row).side, repair);
        in_memory(write!(
            out,
            "<text class='j' x='124' y='{base}'>alone mends it: {left}{words}</text>\n"
        ))
    }

    // Appends the event at which the link of a row begins, on the side that the link leaves.
    fn append_label(&self, out: &mut Vec<u8, A>, row: usize) -> Result<(), Memory>
        requires { row < length self.now.links.now }
        ensures { OnOk result (out.new.items ≡ out.old.items ++ is.row_label (seen_walk self.now) row) }
    {
        let (left, base) = (self.left_of(row), top_of(row) + 21);
        let event = EventName(self.begins_at(row));
        if self.left_of(row + 1) < left {
            let place = left + 8;
            in_memory(write!(out, "<text x='{place}' y='{base}'>{event}</text>"))
        } else {
            let place = left.saturating_sub(8);
            in_memory(write!(out, "<text class='e' x='{place}' y='{base}'>{event}</text>"))
        }
    }

    // Appends an arrow, or a dot where it is shorter than its tip.
    fn append_arrow(&self, out: &mut Vec<u8, A>, row: usize) -> Result<(), Memory>
        requires { row < length self.now.links.now }
        ensures { OnOk result (out.new.items ≡ out.old.items ++ is.row_arrow (seen_walk self.now) row) }
    {
        let (left, right) = (self.left_of(row), self.left_of(row + 1));
        let middle = top_of(row) + 17;
        if left.abs_diff(right) < TIP {
            in_memory(write!(out, "<circle class='x' cx='{left}' cy='{middle}' r='3'/>"))
        } else {
            in_memory(write!(out, "<path d='M{left} {middle}H{right}'/>"))
        }
    }

    /// Appends the line from a row down to the next one.
    pub fn append_drop(&self, out: &mut Vec<u8, A>, row: usize) -> Result<(), Memory>
        requires { row < length self.now.links.now }
        ensures { OnOk result (out.new.items ≡ out.old.items ++ is.row_drop (seen_walk self.now) row) }
    {
        let (right, top) = (self.left_of(row + 1), top_of(row) + 21);
        in_memory(write!(out, "M{right} {top}v26"))
    }

    // Appends what a browser shows under the mouse.
    fn append_title(&self, out: &mut Vec<u8, A>, row: usize) -> Result<(), Memory>
        requires { row < length self.now.links.now }
        ensures { OnOk result (out.new.items ≡ out.old.items ++ is.walk_title (seen_walk self.now) row) }
    {
        if self.names.is_empty() {
            return Ok(());
        }
        let bound = self.bound_of(row);
        out.extend_from_slice(b"<title>")?;
        self.append_event_words(out, bound.from())?;
        self.append_event_words(out, bound.to())?;
        out.extend_from_slice(b"</title>")
    }

    // Appends the name of a link.
    fn append_link_name(&self, out: &mut Vec<u8, A>, row: usize) -> Result<(), Memory>
        requires { row < length self.now.links.now }
        ensures { OnOk result (out.new.items ≡ out.old.items ++ is.link_name (seen_walk self.now) row) }
    {
        append_pieces(
            out,
            &[
                Piece::Bound(self.name_of(row)),
                Piece::Text(b" "),
                Piece::Text(side_text(self.row_link(row).side)),
            ],
        )
    }

    // Appends in words what a link asks.
    fn append_asked(&self, out: &mut Vec<u8, A>, side: Side, bound: Bound) -> Result<(), Memory>
        ensures { OnOk result (out.new.items ≡ out.old.items ++ is.asked_text (seen_walk self.now) side bound) }
    {
        let (words, limit) = limit_of(side, bound);
        if is_duration(bound) {
            self.append_step_words(out, MOST_SHORT, step_of(bound.to()))?;
            append_pieces(out, &[Piece::Text(words), Piece::Time(limit)])
        } else {
            append_pieces(
                out,
                &[
                    Piece::Event(bound.to()),
                    Piece::Text(words),
                    Piece::Time(limit),
                    Piece::Text(b" after "),
                    Piece::Event(bound.from()),
                ],
            )
        }
    }

    // Appends a step by its number, and by its name if it has one.
    fn append_step_words(&self, out: &mut Vec<u8, A>, most: usize, step: u16) -> Result<(), Memory>
        ensures { OnOk result (out.new.items ≡ out.old.items ++ is.step_words (seen_walk self.now) most step) }
    {
        match self.names.get(usize::from(step).saturating_sub(1)) {
            Some(name) => {
                in_memory(write!(out, "{step} "))?;
                append_cut(out, most, name)
            }
            None => in_memory(write!(out, "step {step}")),
        }
    }

    // Appends which step an event starts or ends.
    fn append_event_words(&self, out: &mut Vec<u8, A>, event: Event) -> Result<(), Memory>
        ensures { OnOk result (out.new.items ≡ out.old.items ++ is.event_words (seen_walk self.now) event) }
    {
        if event.number() == 0 {
            return Ok(());
        }
        append_pieces(out, &[Piece::Event(event), Piece::Text(b": ")])?;
        self.append_step_words(out, MOST_WHOLE, step_of(event))?;
        out.extend_from_slice(b"\n")
    }

    // Appends the name of a link, and what it asks.
    fn append_words(&self, out: &mut Vec<u8, A>, row: usize) -> Result<(), Memory>
        requires { row < length self.now.links.now }
        ensures { OnOk result (out.new.items ≡ out.old.items ++ is.walk_words (seen_walk self.now) row) }
    {
        let base = top_of(row) + 15;
        in_memory(write!(out, "<text class='h' x='8' y='{base}'>"))?;
        self.append_link_name(out, row)?;
        in_memory(write!(out, "</text><text class='n' x='124' y='{base}'>"))?;
        self.append_asked(out, self.row_link(row).side, self.bound_of(row))?;
        out.extend_from_slice(b"</text>\n")
    }
}

fn side_text(side: Side) -> &'static [u8]
    ensures { result.now ≡ site_lines.side_text side }
{
    match side {
        Side::Upper => b"upper",
        Side::Lower => b"lower",
    }
}

// The limit that a side asks for, after words.
fn limit_of(side: Side, bound: Bound) -> (&'static [u8], Ms)
    ensures { result.0.now ++ printed result.1 ≡ is.limit_words side bound }
{
    match side {
        Side::Upper => (b" at most ", bound.hi()),
        Side::Lower => (b" at least ", bound.lo()),
    }
}

// What the others leave, before words.
fn left_by(side: Side, repair: Repair) -> (Seconds, &'static str)
    ensures { printed result.0.0 ++ result.1.now ≡ leaves_text side repair }
{
    match side {
        Side::Upper => (Seconds(repair.least.get()), " or more"),
        Side::Lower => (Seconds(repair.greatest.get()), " or less"),
    }
}
