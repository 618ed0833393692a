ghost use Rattle.std.specs.Prelude.{◌≡◌, ◌↔◌, IsSome, IfSome};
ghost use Rattle.stn_time.specs.Time.{IsWithinHorizon};
ghost use Rattle.stn_loosen.specs.{Promise.{still, setting_of}, Moved.{moved_upper, moved_lower}, Stepped.{AreSteps, IsBoundOf, IsWithinReach, as_bound}};

use stn_net::{Bound, Event};
use stn_time::{HORIZON, Ms};

// Two events, and how long after the first the second comes: from `lo` to `hi` milliseconds, which may lie beyond the horizon.
#[derive(Clone, Copy)]
pub(crate) struct Span {
    pub from: Event,
    pub to: Event,
    pub lo: i64,
    pub hi: i64,
}

impl Span {
    // The same as a bound says.
    pub(crate) fn of(bound: &Bound) -> Span
        ensures value { as_bound result ≡ bound.now }
        ensures lo { IsWithinHorizon result.lo }
        ensures hi { IsWithinHorizon result.hi }
        ensures reach { IsWithinReach (as_bound result) }
    {
        Span {
            from: bound.from(),
            to: bound.to(),
            lo: bound.lo().get(),
            hi: bound.hi().get(),
        }
    }

    // The event stands where it stands.
    fn still(event: Event) -> Span
        ensures value { as_bound result ≡ still event }
        ensures lo { IsWithinHorizon result.lo }
        ensures hi { IsWithinHorizon result.hi }
    {
        Span {
            from: event,
            to: event,
            lo: 0,
            hi: 0,
        }
    }

    // The bound, where it is one of a plan with so many events.
    pub(crate) fn bound(self, events: u16) -> Option<Bound>
        requires { IsWithinReach (as_bound self) }
        ensures found { IsSome result ↔ IsBoundOf events (as_bound self) }
        ensures value { IfSome result (λ bound. bound ≡ as_bound self) }
    {
        let lo = Ms::new(self.lo)?;
        let hi = Ms::new(self.hi)?;
        Bound::new(events, self.from, self.to, lo, hi).ok()
    }
}

// What sets an event: the duration of the step that it ends; any other event is set by itself.
pub(crate) fn setting_of(durations: &[Bound], event: Event) -> Span
    requires { AreSteps durations.now }
    ensures value { as_bound result ≡ setting_of durations.now event }
    ensures lo { IsWithinHorizon result.lo }
    ensures hi { IsWithinHorizon result.hi }
{
    let number = usize::from(event.number());
    if number == 0 || number % 2 == 1 {
        return Span::still(event);
    }
    match durations.get(number / 2 - 1) {
        Some(duration) => Span::of(duration),
        None => Span::still(event),
    }
}

// The upper and the lower side of a bound, each moved to the starts of the steps whose ends it names; the other side of each is open.
pub(crate) fn moved_sides(durations: &[Bound], bound: &Bound) -> (Span, Span)
    requires { AreSteps durations.now }
    ensures upper { as_bound result.0 ≡ moved_upper durations.now bound.now }
    ensures lower { as_bound result.1 ≡ moved_lower durations.now bound.now }
    ensures upper_reach { IsWithinReach (as_bound result.0) }
    ensures lower_reach { IsWithinReach (as_bound result.1) }
{
    let from = setting_of(durations, bound.from());
    let to = setting_of(durations, bound.to());
    let upper = Span {
        from: from.from,
        to: to.from,
        lo: -HORIZON,
        hi: bound.hi().get() - to.hi + from.lo,
    };
    let lower = Span {
        lo: bound.lo().get() - to.lo + from.hi,
        hi: HORIZON,
        ..upper
    };
    (upper, lower)
}
