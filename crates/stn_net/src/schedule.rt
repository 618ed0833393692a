ghost use Rattle.std.specs.{Prelude.{◌≡◌, ◌<◌, ◌↔◌, ◌-ℤ◌, ◌≤ℤ◌, pos, length, take, All, IsTrue, IsNone, IfSome}, List.HoldsAt};
ghost use Rattle.stn_net.specs.Schedule.{times_of, Meets, IsSchedule, NamesTimes};

use crate::bound::Bound;
use stn_time::Ms;

/// The place, from 0, of the first bound that the times break; none where the times are a
/// schedule. The times are those of the events by number, the origin's first.
pub fn first_broken(bounds: &[Bound], times: &[Ms]) -> Option<usize>
    requires origin { times_of times.now 0 ≡ pos 0 }
    requires named { All (NamesTimes times.now) bounds.now }
    ensures none { IsNone result ↔ IsSchedule bounds.now (times_of times.now) }
    ensures within { IfSome result (λ place. place < length bounds.now) }
    ensures broken { IfSome result (λ place. ¬ HoldsAt (Meets (times_of times.now)) bounds.now place) }
    ensures earlier { IfSome result (λ place. All (Meets (times_of times.now)) (take place bounds.now)) }
{
    for (place, bound) in bounds.iter().enumerate() {
        if !is_met(bound, times) {
            return Some(place);
        }
    }
    None
}

// Whether the times meet the bound.
fn is_met(bound: &Bound, times: &[Ms]) -> bool
    requires { NamesTimes times.now bound.now }
    ensures { IsTrue result ↔ Meets (times_of times.now) bound.now }
{
    let from = times[usize::from(bound.from().number())];
    let to = times[usize::from(bound.to().number())];
    let difference = difference_of(from, to);
    at_most(bound.lo(), difference) && at_least(bound.hi(), difference)
}

// The time of `to` less the time of `from`, in milliseconds.
fn difference_of(from: Ms, to: Ms) -> i64
    ensures { result ≡ to -ℤ from }
{
    to.get() - from.get()
}

fn at_most(time: Ms, millis: i64) -> bool
    ensures { IsTrue result ↔ (time ≤ℤ millis) }
{
    time.get() <= millis
}

fn at_least(time: Ms, millis: i64) -> bool
    ensures { IsTrue result ↔ (millis ≤ℤ time) }
{
    time.get() >= millis
}
