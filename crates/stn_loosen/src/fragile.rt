//! What is not robust of a plan.

ghost use Rattle.std.specs.{Prelude.{◌≡◌, ◌+◌, ◌*◌, ◌<◌, ◌≤◌, ◌^◌, ◌++◌, codes, length, map, All, IfOk, OnOk}, List.flat_map};
ghost use Rattle.stn_site.specs.Lines.{side_text, side_limit};
ghost use Rattle.stn_loosen.specs.Fragile as spec;
ghost use Rattle.stn_loosen.specs.{Fragile.TellsFragile, Stepped.{as_bound, AreSteps}};

use crate::crossed::crossed_starts;
use crate::parts::horizon_of;
use crate::span::{Span, setting_of};
use crate::starts::{loose_bounds, loose_durations, starts_of};
use crate::tolerance::Tolerance;
use std::alloc::Allocator;
use stn_conflict::{Link, Side};
use stn_lift::{Base, step_of};
use stn_net::{Bound, Event};
use stn_site::{BoundName, Piece, append_pieces};
use stn_text::append_decimal;
use stn_time::Memory;

/// What is not robust of a plan with a tolerance: the lines of a closed chain of bounds on starts that no times of the starts meet;
/// nothing, where there is a promise. A line is that of a conflict, of the plan's bound that a bound on starts comes from, but with its
/// side as moved; after it stand the steps whose durations move it.
pub fn fragile_lines<A: Allocator + Copy>(
    alloc: A,
    base: &Base<A>,
    tolerance: Tolerance,
) -> Result<Vec<u8, A>, Memory>
    ensures { IfOk result (λ text. TellsFragile base.now tolerance text.items) }
{
    let durations = loose_durations(alloc, base, tolerance)?;
    let bounds = loose_bounds(alloc, base, &durations)?;
    let starts = starts_of(alloc, horizon_of(base), &durations, &bounds)?;
    match crossed_starts(alloc, base.events(), horizon_of(base), &starts)? {
        Some(links) => lines_of(alloc, base.events(), &durations, &bounds, &starts, &links),
        None => Ok(Vec::new(alloc)),
    }
}

// The lines of links.
fn lines_of<A: Allocator + Copy>(
    alloc: A,
    events: u16,
    durations: &[Bound],
    bounds: &[Bound],
    starts: &[Span],
    links: &[Link],
) -> Result<Vec<u8, A>, Memory>
    requires steps { AreSteps durations.now }
    requires counted { length starts.now ≡ events + 2 * length bounds.now }
    requires horizon { events ≤ length bounds.now }
    requires few { length bounds.now < 2 ^ 32 }
    requires there { All (λ link. link.place < length starts.now) links.now }
    ensures { IfOk result (λ text. text.items ≡ flat_map (spec.start_line events durations.now bounds.now (map as_bound starts.now)) links.now) }
{
    let mut text = Vec::new(alloc);
    for link in links {
        append_line(events, durations, bounds, starts, *link, &mut text)?;
    }
    Ok(text)
}

// Appends the line of a link.
fn append_line<A: Allocator>(
    events: u16,
    durations: &[Bound],
    bounds: &[Bound],
    starts: &[Span],
    link: Link,
    out: &mut Vec<u8, A>,
) -> Result<(), Memory>
    requires steps { AreSteps durations.now }
    requires counted { length starts.now ≡ events + 2 * length bounds.now }
    requires horizon { events ≤ length bounds.now }
    requires few { length bounds.now < 2 ^ 32 }
    requires there { link.place < length starts.now }
    ensures { OnOk result (out.new.items ≡ out.old.items ++ spec.start_line events durations.now bounds.now (map as_bound starts.now) link) }
{
    let events = usize::from(events);
    let place = origin_place(events, link.place);
    let bound = &bounds[place];
    append_pieces(
        out,
        &[
            Piece::Bound(BoundName::Plan(place as u32 + 1)),
            Piece::Text(side_text(link.side)),
            Piece::Event(bound.from()),
            Piece::Text(b" "),
            Piece::Event(bound.to()),
            Piece::Text(b" "),
            Piece::Sum(limit_of(&starts[link.place], link.side)),
        ],
    )?;
    append_movers(events, durations, link.place, bound, out)?;
    out.extend_from_slice(b"\n")
}

// The place of the plan's bound that a bound on starts comes from.
fn origin_place(events: usize, place: usize) -> usize
    ensures { result ≡ spec.origin_place events place }
{
    if place < events {
        place
    } else {
        (place - events) / 2
    }
}

fn side_text(side: Side) -> &'static [u8]
    ensures { result.now ≡ codes " " ++ (side_text side ++ codes " ") }
{
    match side {
        Side::Upper => b" upper ",
        Side::Lower => b" lower ",
    }
}

fn limit_of(moved: &Span, side: Side) -> i64
    ensures { result ≡ side_limit (as_bound moved.now) side }
{
    match side {
        Side::Upper => moved.hi,
        Side::Lower => moved.lo,
    }
}

// The step whose duration sets an event, where one does.
fn mover(durations: &[Bound], event: Event) -> Option<u16>
    requires { AreSteps durations.now }
    ensures { result ≡ spec.mover durations.now event }
{
    if setting_of(durations, event).from.number() == event.number() {
        None
    } else {
        Some(step_of(event))
    }
}

// Appends the steps that move a bound on starts at a place, which comes from a bound of the plan.
fn append_movers<A: Allocator>(
    events: usize,
    durations: &[Bound],
    place: usize,
    bound: &Bound,
    out: &mut Vec<u8, A>,
) -> Result<(), Memory>
    requires { AreSteps durations.now }
    ensures { OnOk result (out.new.items ≡ out.old.items ++ spec.mover_text durations.now events place bound.now) }
{
    if place < events {
        return Ok(());
    }
    let from = mover(durations, bound.from());
    let to = mover(durations, bound.to());
    append_by(from, to, out)
}

// Appends steps, if there are any.
fn append_by<A: Allocator>(
    from: Option<u16>,
    to: Option<u16>,
    out: &mut Vec<u8, A>,
) -> Result<(), Memory>
    ensures { OnOk result (out.new.items ≡ out.old.items ++ spec.by_text from to) }
{
    if from.is_none() && to.is_none() {
        return Ok(());
    }
    out.extend_from_slice(b" by")?;
    append_step(from, out)?;
    append_step(to, out)
}

// Appends a step, if it is there.
fn append_step<A: Allocator>(step: Option<u16>, out: &mut Vec<u8, A>) -> Result<(), Memory>
    ensures { OnOk result (out.new.items ≡ out.old.items ++ spec.step_text step) }
{
    match step {
        Some(step) => append_decimal(out, b" ", step),
        None => Ok(()),
    }
}
