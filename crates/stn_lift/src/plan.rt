//! Timed plans: texts of steps, each with its time, its action and the action's arguments, and perhaps a duration.
ghost use Rattle.std.specs.Prelude.{◌≡◌, ◌≤◌, length, map, All, Ok, IfOk, IfErr, IsErrOf};
ghost use Rattle.stn_text.specs.Faults.{Returns};
ghost use Rattle.stn_lift.specs.Plan.{Steps.{is_plan_memory, IsTimely, most_steps, most_text, steps_of, plan_of}, Faults.IsPlanCause, Views.planned_step};

mod bytes;
mod fault;
mod lines;
mod step;
mod tokens;

use crate::plan::lines::Lines;
use crate::plan::step::read_step;
pub use fault::PlanFault;
use std::alloc::Allocator;
use std::marker::Model;
pub use step::Step;
use stn_net::MOST_STEPS;
use stn_text::is_too_long;

/// A plan: its text, and its steps in the order of their lines. It borrows the text, and each name in it is a slice of
/// the text.
#[derive(Drop)]
pub struct Plan<'a, A: Allocator> {
    text: &'a [u8],
    steps: Vec<Step<'a, A>, A>,
}

impl<'a, A: Allocator> Model for Plan<'a, A> {
    ghost use Rattle.std.specs.Prelude.{map};
    ghost use Rattle.stn_lift.specs.Plan.{Steps.{Contents, IsPlan}, Views.planned_step};

    ghost Value = { Contents };

    ghost view = { λ p. record { text = p.text.now; steps = map planned_step p.steps.items } };

    ghost invariant = { λ p. IsPlan (record { text = p.text.now; steps = map planned_step p.steps.items }) };
}

/// The steps on the lines.
#[tactic(auto, unfolding(crate::specs::Plan::Steps::steps_of))]
fn read_steps<'a, A: Allocator + Copy>(
    alloc: A,
    mut lines: Lines<'a>,
) -> Result<Vec<Step<'a, A>, A>, PlanFault>
    ensures { Returns is_plan_memory (λ steps. map planned_step steps.items) result (steps_of lines.entry) }
{
    let mut steps = Vec::new(alloc);
    while let Some((number, line)) = lines.next_line() {
        if let Some(step) = read_step(alloc, number, line)? {
            steps.push(step).map_err(|_| PlanFault::Memory)?;
        }
    }
    Ok(steps)
}

impl<'a, A: Allocator + Copy> Plan<'a, A> {
    /// Reads a plan from its text. The faults are looked for in this order: `TooLong`; the fault of the first line that
    /// has one, `Syntax`, `Number` or `Negative`; `TooManySteps`. `Memory` may come in place of any answer but
    /// `TooLong`.
    #[tactic(auto, unfolding(crate::specs::Plan::Steps::plan_of, crate::specs::Plan::Steps::limited))]
    pub fn read(alloc: A, text: &'a [u8]) -> Result<Plan<'a, A>, PlanFault>
        ensures given { Returns is_plan_memory (λ plan. plan.steps) result (plan_of text.now) }
        ensures text { IfOk result (λ plan. plan.text ≡ text.now) }

        // The text is too long, or the first line with a fault has it, or there are too many steps.
        ensures cause { IfErr result (IsPlanCause text.now) }
        ensures memory { IsErrOf result PlanFault.Memory → length text.now ≤ most_text }
    {
        if is_too_long(text) {
            return Err(PlanFault::TooLong);
        }
        let steps = read_steps(alloc, Lines::new(text))?;
        if steps.len() > usize::from(MOST_STEPS) {
            return Err(PlanFault::TooManySteps);
        }
        Ok(Plan { text, steps })
    }
}

impl<'a, A: Allocator> Plan<'a, A> {
    /// The text that the plan was read from.
    pub fn text(&self) -> &'a [u8]
        ensures text { result.now ≡ self.now.text }
        ensures short { length result.now ≤ most_text }
    {
        self.text
    }

    /// The steps, in the order of their lines.
    pub fn steps(&self) -> &[Step<'a, A>]
        ensures steps { map planned_step result.now ≡ self.now.steps }
        ensures given { plan_of self.now.text ≡ Ok self.now.steps }
        ensures few { length result.now ≤ most_steps }
        ensures timely { All (λ step. IsTimely (planned_step step)) result.now }
    {
        &self.steps
    }
}
