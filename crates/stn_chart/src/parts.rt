//! What is true of the steps of a chart.
ghost use Rattle.std.specs.Prelude.{◌≡◌, ◌+◌, ◌<◌, ◌≤◌, ◌^◌};
ghost use Rattle.stn_lift.specs.BaseBounds as events;
ghost use Rattle.stn_chart.specs.Parts as is;
ghost use Rattle.stn_chart.specs.Seen.{seen_chart};

use crate::look::Chart;
use crate::places::row_top;
use crate::tables::{end_of, is_open_in, latest_in, moment_of, soonest_in, start_of};
use std::alloc::Allocator;
use stn_site::OwnedSteps;
use stn_time::Ms;

/// What the legend explains.
#[derive(Clone, Copy, Debug, PartialEq, Eq)]
pub enum Part {
    /// From the soonest start to the soonest end.
    Soonest,
    /// From there to the latest end.
    Lasting,
    /// The latest start.
    Latest,
    /// A step that cannot move.
    Fixed,
    /// A step that is done.
    Done,
    /// A step that runs.
    Running,
    /// A step whose latest time is near.
    Due,
    /// A step without a latest time.
    Open,
}

impl<'a, 'b, A: Allocator> Chart<'a, 'b, A> {
    pub fn soonest(&self, event: usize) -> u64
        ensures value { result ≡ is.soonest (seen_chart self.now) event }
        ensures small { result < 2 ^ 40 }
    {
        soonest_in(self.windows, event)
    }

    pub fn latest(&self, event: usize) -> u64
        ensures value { result ≡ is.latest (seen_chart self.now) event }
        ensures small { result < 2 ^ 40 }
    {
        latest_in(self.windows, event)
    }

    pub fn is_open(&self, event: usize) -> bool
        ensures { result ≡ is.is_open (seen_chart self.now) event }
    {
        is_open_in(self.windows, event)
    }

    // Whether a live record says when the event was executed.
    fn is_recorded(&self, event: usize) -> bool
        ensures { result ≡ is.is_recorded (seen_chart self.now) event }
    {
        self.done.get(event).copied().unwrap_or(false)
    }

    pub fn is_begun(&self, step: u16) -> bool
        ensures { result ≡ is.is_begun (seen_chart self.now) step }
    {
        self.is_recorded(start_of(step))
    }

    pub fn is_done(&self, step: u16) -> bool
        ensures { result ≡ is.is_step_done (seen_chart self.now) step }
    {
        self.is_begun(step) && self.is_recorded(end_of(step))
    }

    pub fn is_running(&self, step: u16) -> bool
        ensures { result ≡ is.is_running (seen_chart self.now) step }
    {
        self.is_begun(step) && !self.is_recorded(end_of(step))
    }

    /// Whether its start and its end have one time each.
    pub fn is_fixed(&self, step: u16) -> bool
        ensures { result ≡ is.is_fixed (seen_chart self.now) step }
    {
        let (start, end) = (start_of(step), end_of(step));
        self.soonest(start) == self.latest(start) && self.soonest(end) == self.latest(end)
    }

    // Whether the event has a latest time, less than a twentieth of the axis from now.
    fn is_near(&self, now: Ms, event: usize) -> bool
        ensures { result ≡ is.is_near (seen_chart self.now) now event }
    {
        !self.is_open(event) && 20 * self.latest(event) < 20 * moment_of(Some(now)) + self.axis.long
    }

    /// Whether the latest start of a step that has not begun is so near, or the latest end of one that runs.
    pub fn is_due(&self, step: u16) -> bool
        ensures { result ≡ is.is_due (seen_chart self.now) step }
    {
        match self.look.present {
            Some(now) => {
                if self.is_begun(step) {
                    self.is_running(step) && self.is_near(now, end_of(step))
                } else {
                    self.is_near(now, start_of(step))
                }
            }
            None => false,
        }
    }

    /// Whether its end may come later than at the soonest, and has a latest time.
    pub fn may_last(&self, step: u16) -> bool
        ensures { result ≡ is.may_last (seen_chart self.now) step }
    {
        let end = end_of(step);
        !self.is_open(end) && self.soonest(end) < self.latest(end)
    }

    /// Whether its start is not recorded, may come later than at the soonest, and has a latest time.
    pub fn may_wait(&self, step: u16) -> bool
        ensures { result ≡ is.may_wait (seen_chart self.now) step }
    {
        let start = start_of(step);
        !self.is_begun(step) && !self.is_open(start) && self.soonest(start) < self.latest(start)
    }

    // Whether the part occurs at the step.
    fn shows(&self, part: Part, step: u16) -> bool
        ensures { result ≡ is.shows (seen_chart self.now) part step }
    {
        match part {
            Part::Soonest => !self.is_begun(step) && !self.is_fixed(step),
            Part::Lasting => self.may_last(step) && !self.is_due(step),
            Part::Latest => self.may_wait(step),
            Part::Fixed => !self.is_begun(step) && self.is_fixed(step),
            Part::Done => self.is_done(step),
            Part::Running => self.is_running(step),
            Part::Due => self.is_due(step),
            Part::Open => self.is_open(end_of(step)),
        }
    }

    /// At how many steps the part occurs.
    pub fn count_of(&self, part: Part) -> u16
        ensures { result ≡ is.count_of (seen_chart self.now) part }
    {
        let mut count = 0;
        for before in 0..self.steps {
            count += u16::from(self.shows(part, before + 1));
        }
        count
    }

    /// The site that owns the step; 0 where none does.
    pub fn owner_of(&self, step: u16) -> u16
        ensures { result ≡ is.step_owner (seen_chart self.now) step }
    {
        owner_in(self.look.owned, step)
    }

    /// Where a time stands.
    pub fn place_of(&self, time: u64) -> u64
        requires { time < 2 ^ 50 }
        ensures value { result ≡ is.place_of (seen_chart self.now) time }
        ensures small { result < 2 ^ 63 + 2 ^ 10 }
    {
        self.axis.place_of(time)
    }

    /// Where the row of a step begins.
    pub fn top_of(&self, step: u16) -> u64
        ensures value { result ≡ is.top_of (seen_chart self.now) step }
        ensures small { result < 2 ^ 45 }
        ensures below { 54 ≤ result }
    {
        let row = self.rows.get(usize::from(step)).copied().unwrap_or(0);
        row_top(u64::from(row))
    }

    /// The event of another step that holds the start of a step, if one does.
    pub fn holder_of(&self, step: u16) -> Option<u16>
        ensures { result ≡ is.holder_of (seen_chart self.now) step }
    {
        self.holders.get(usize::from(step)).copied()?
    }
}

// The site of the first of the lists that has the step; 0 where none has it.
fn owner_in(owned: &[OwnedSteps], step: u16) -> u16
    ensures { result ≡ is.owner_in owned.now step }
{
    for one in owned {
        if has_step(one, step) {
            return u16::from(one.site.number());
        }
    }
    0
}

fn has_step(owned: &OwnedSteps, step: u16) -> bool
    ensures { result ≡ is.has_step owned.now step }
{
    owned.steps.first <= u32::from(step) && u32::from(step) <= owned.steps.last
}

/// The step that an event starts or ends.
pub fn step_of(event: u16) -> u16
    ensures { result ≡ events.step_of event }
{
    ((u32::from(event) + 1) / 2) as u16
}
