ghost use Rattle.std.specs.Prelude.{◌≡◌, ℕ, ◌≤◌, ◌++◌, ◌↔◌, IsSome, IfSome, OnOk, OnErr};
ghost use Rattle.stn_net.specs.Event.{most_events, event_text, IsStepText};

use std::alloc::Allocator;
use std::marker::Model;
use stn_text::{print_event, read_decimal};
use stn_time::Memory;

/// The greatest number of steps of a plan.
pub const MOST_STEPS: u16 = 256;

/// The greatest number of events beside the origin: the start and the end of each step.
pub const MOST_EVENTS: u16 = 2 * MOST_STEPS;

/// An event of a plan, by its number: 0 is the origin, at which all times begin; step k, counted
/// from 1, starts at event 2k - 1 and ends at event 2k.
#[derive(Clone, Copy, Debug, PartialEq, Eq, PartialOrd, Ord)]
pub struct Event {
    number: u16,
}

impl Model for Event {
    ghost use Rattle.std.specs.Prelude.{ℕ, ◌≤◌};
    ghost use Rattle.stn_net.specs.Event.{most_events};

    ghost Value = { ℕ };

    ghost view = { λ e. e.number };

    ghost invariant = { λ e. e.number ≤ most_events };

    ghost inverse = { λ n. record { number = n } };
}

impl Event {
    /// The event of this number, where it is at most 512.
    pub fn new(number: u16) -> Option<Event>
        ensures within { IsSome result ↔ (number ≤ most_events) }
        ensures value { IfSome result (λ event. event ≡ number) }
    {
        if number <= MOST_EVENTS {
            Some(Event { number })
        } else {
            None
        }
    }

    /// The origin, event 0.
    pub fn origin() -> Event
        ensures { result ≡ 0 }
    {
        Event { number: 0 }
    }

    /// The number of the event.
    pub fn number(self) -> u16
        ensures value { result ≡ self }
        ensures within { result ≤ most_events }
    {
        self.number
    }

    /// The event that is printed so: `z` for the origin, `s<k>` and `e<k>` for the start and the
    /// end of step k, from 1 to 256 without leading zeros.
    pub fn read(text: &[u8]) -> Option<Event>
        ensures found { IfSome result (λ event. text.now ≡ event_text event) }
        ensures within { IfSome result (λ event. event ≤ most_events) }
        ensures all { (event : ℕ) → event ≤ most_events → text.now ≡ event_text event → result ≡ Some event }
    {
        let (first, digits) = text.split_first()?;
        match *first {
            b'z' => {
                if digits.is_empty() {
                    Some(Event::origin())
                } else {
                    None
                }
            }
            b's' => {
                let step = read_step(digits)?;
                Some(Event {
                    number: 2 * step - 1,
                })
            }
            b'e' => {
                let step = read_step(digits)?;
                Some(Event { number: 2 * step })
            }
            _ => None,
        }
    }

    /// Appends the printed form; if memory runs out, it appends nothing.
    pub fn print<A: Allocator>(self, out: &mut Vec<u8, A>) -> Result<(), Memory>
        ensures printed { OnOk result (out.new.items ≡ out.old.items ++ event_text self) }
        ensures kept { OnErr result (out.new.items ≡ out.old.items) }
    {
        print_event(self.number, out)
    }
}

// The number of a step, from 1 on.
fn read_step(digits: &[u8]) -> Option<u16>
    ensures found { IfSome result (λ step. IsStepText digits.now step) }
    ensures all { (step : ℕ) → IsStepText digits.now step → result ≡ Some step }
{
    let step = read_decimal(digits)?;
    if 1 <= step && step <= MOST_STEPS {
        Some(step)
    } else {
        None
    }
}
