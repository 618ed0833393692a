//! The names of steps.
ghost use Rattle.std.specs.Prelude.{◌≡◌, IfOk, map};
ghost use Rattle.stn_lift.specs.Plan.Views.{planned_step};
ghost use Rattle.stn_questions.specs.Steps.{step_name, source_names};

use crate::steps::{append_words, read_again};
use std::alloc::Allocator;
use stn_lift::{Plan, Source, Step};
use stn_site::SitePlan;
use stn_time::Memory;

/// The names of the steps of a plan's text: the action of each, and its arguments as the text spells them.
pub fn step_names<'a, A: Allocator + Copy>(
    alloc: A,
    plan: &Plan<'a, A>,
) -> Result<Vec<Vec<u8, A>, A>, Memory>
    ensures { IfOk result (λ names. map (λ name. name.items) names.items ≡ map step_name plan.now.steps) }
{
    names_among(alloc, plan.steps())
}

fn names_among<'a, A: Allocator + Copy>(
    alloc: A,
    steps: &[Step<'a, A>],
) -> Result<Vec<Vec<u8, A>, A>, Memory>
    ensures { IfOk result (λ names. map (λ name. name.items) names.items ≡ map step_name (map planned_step steps.now)) }
{
    let mut names = Vec::new(alloc);
    for step in steps {
        let mut name = Vec::new(alloc);
        append_words(step.action, &step.args, &mut name)?;
        names.push(name)?;
    }
    Ok(names)
}

/// The names of the steps of a site's plan; those of a bare plan have none.
pub fn source_names<A: Allocator + Copy>(plan: &SitePlan<A>) -> Result<Vec<Vec<u8, A>, A>, Memory>
    ensures { IfOk result (λ names. map (λ name. name.items) names.items ≡ source_names plan.now.source) }
{
    match plan.base().source() {
        Source::Bare(_) => Ok(Vec::new(plan.alloc())),
        Source::Files(_, text) => {
            let read = read_again(plan.alloc(), text)?;
            step_names(plan.alloc(), &read)
        }
    }
}
