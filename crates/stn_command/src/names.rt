//! What is said to a query where steps have the names that a plan's text gives.

ghost use Rattle.std.specs.Prelude.{◌≡◌, ◌⊎◌, None, Some, Ok, MatchResult};
ghost use Rattle.stn_refusal.specs.Refusals.{out_of_memory};
ghost use Rattle.stn_lift.specs.Plan.Steps.{plan_of};
ghost use Rattle.stn_questions.specs.Steps.{planned_steps};
ghost use Rattle.stn_chart.specs.Chart.{seen_look};
ghost use Rattle.stn_command.specs.{Query.{ask, draw, seen_query, IsQueryRefusal}, Named.{IsNamed, IsNamesRefusal, SaysNamed, IsSaidWithNames, count_refusal}};

use crate::named_lines::with_names;
use crate::queries::{Query, say};
use crate::words::no_such_word;
use std::alloc::Allocator;
use stn_chart::Look;
use stn_lift::Plan;
use stn_net::BoundFault;
use stn_picture::print_picture;
use stn_questions::{Question, names_of, step_names};
use stn_refusal::Failure;
use stn_site::{SitePlan, are_within};

/// What is said to a query about a site's copy of a plan whose steps have the actions and arguments of the steps of another, of which
/// this is the text: the steps by these alone, the picture by them, and any other answer with them at the end of its lines, after two
/// spaces each.
///
/// Refused in this order: as `Plan::read` refuses the text (20 to 24); as 70 where the other plan has another number of steps; as
/// `say` refuses the query. Lack of memory may come in place of any answer.
pub fn say_named<A: Allocator + Copy>(
    plan: &SitePlan<A>,
    query: &Query<'_>,
    other: &[u8],
) -> Result<Vec<u8, A>, Failure>
    ensures { MatchResult result
        (λ text. IsNamed (seen_query query.now) (planned_steps other.now) plan.now text.items × IsNamesRefusal (seen_query query.now) other.now plan.now None)
        (λ failure. (failure ≡ out_of_memory) ⊎ IsNamesRefusal (seen_query query.now) other.now plan.now (Some failure)) }
{
    let named = read_named(plan.alloc(), plan.base().steps(), other)?;
    match query {
        Query::Ask(question) => tell_named(plan, *question, &named),
        Query::Draw(look) => draw_named(plan, look, &named),
        Query::Report | Query::Check(_) | Query::Foresee(..) | Query::Repairs => {
            say_with_names(plan, query, &named)
        }
    }
}

// The answer to a question, where the steps have the names of those of another plan.
fn tell_named<A: Allocator + Copy>(
    plan: &SitePlan<A>,
    question: Question,
    named: &Plan<'_, A>,
) -> Result<Vec<u8, A>, Failure>
    ensures { SaysNamed (ask question) named.now.steps plan.now result }
{
    match question {
        Question::Steps => Ok(names_of(plan.alloc(), named)?),
        Question::Records | Question::Bounds | Question::Why(_) | Question::WhyApart(..) => {
            say_with_names(plan, &Query::Ask(question), named)
        }
    }
}

// The picture of a plan whose steps have the names of those of another.
fn draw_named<'x, A: Allocator + Copy>(
    plan: &SitePlan<A>,
    look: &'x Look<'x>,
    named: &Plan<'_, A>,
) -> Result<Vec<u8, A>, Failure>
    ensures { SaysNamed (draw (seen_look look.now)) named.now.steps plan.now result }
{
    if !are_within(look.owned, plan.base().steps()) {
        return Err(Failure::from(BoundFault::NoEvent));
    }
    let names = step_names(plan.alloc(), named)?;
    let mut picture = Vec::new(plan.alloc());
    print_picture(plan, look, &names, &mut picture)?;
    Ok(picture)
}

// What is said to a query, with the names of the steps of another plan at the end of its lines.
fn say_with_names<A: Allocator + Copy>(
    plan: &SitePlan<A>,
    query: &Query<'_>,
    named: &Plan<'_, A>,
) -> Result<Vec<u8, A>, Failure>
    ensures { MatchResult result
        (λ text. IsSaidWithNames (seen_query query.now) named.now.steps plan.now text.items × IsQueryRefusal (seen_query query.now) plan.now None)
        (λ failure. (failure ≡ out_of_memory) ⊎ IsQueryRefusal (seen_query query.now) plan.now (Some failure)) }
{
    let plain = say(plan, query)?;
    let names = step_names(plan.alloc(), named)?;
    Ok(with_names(plan, &names, &plain)?)
}

// The plan of a text, where it has so many steps.
fn read_named<'x, A: Allocator + Copy>(
    alloc: A,
    steps: u16,
    text: &'x [u8],
) -> Result<Plan<'x, A>, Failure>
    ensures { MatchResult result
        (λ plan. (plan_of text.now ≡ Ok plan.steps) × (count_refusal steps (plan_of text.now) ≡ None))
        (λ failure. (failure ≡ out_of_memory) ⊎ (count_refusal steps (plan_of text.now) ≡ Some failure)) }
{
    let plan = Plan::read(alloc, text)?;
    if plan.steps().len() != usize::from(steps) {
        return Err(no_such_word());
    }
    Ok(plan)
}
