//! What a command makes of a plan.

ghost use Rattle.std.specs.Prelude.{◌≡◌, ◌⊎◌, Some, None, option_map, Ok, Err, OnOk, IfOk, IfErr, MatchResult};
ghost use Rattle.stn_effects.specs.Effects.{failing, seen};
ghost use Rattle.stn_command.specs.Guarding.{guard_text};
ghost use Rattle.stn_lift.specs.{Failures.base_failure, PlanSource.{plan_source, base_of}};
ghost use Rattle.stn_records.specs.Content.{no_content};
ghost use Rattle.stn_site.specs.{Change.change_refusal, Failures.replica_failure};
ghost use Rattle.stn_asked.specs.Words.{merge, seen_update};
ghost use Rattle.stn_logs.specs.Commands.{seen_outcome, IsChanged, IsGuarded, IsUnguarded, Updates};
ghost use Rattle.stn_refusal.specs.declared.failure.Failure.TheVariants.{Failed};
ghost use Rattle.stn_refusal.specs.declared.failure.Fault.TheVariants as lack;

use std::alloc::Allocator;
use std::rc::Rc;
use stn_asked::Update;
use stn_command::{Made, print_guard};
use stn_guard::add_guard;
use stn_lift::{Base, Source};
use stn_records::{Id, Site};
use stn_refusal::Failure;
use stn_site::{Change, OwnedSteps, SitePlan};
use stn_store::{Store, take_in};
use stn_time::Memory;

/// What came of an update, and the text that says so.
#[derive(Drop)]
pub enum Outcome<A: Allocator> {
    /// What the site holds now is to be saved.
    Updated(Vec<u8, A>),
    /// The site holds what it held, and nothing is to be saved.
    Unchanged(Vec<u8, A>),
}

/// A site's copy of the plan of a source. It holds nothing yet.
pub fn opened<A: Allocator + Copy>(
    alloc: A,
    site: Site,
    source: &Source<A>,
) -> Result<SitePlan<A>, Failure>
    ensures source { IfOk result (λ plan. plan.source ≡ plan_source source.now) }
    ensures empty { IfOk result (λ plan. plan.state ≡ no_content) }
    ensures accepted { OnOk result (base_of (plan_source source.now) ≡ Ok (plan_source source.now)) }
    ensures refused { IfErr result (λ failure. (failure ≡ Failed lack.Memory) ⊎ (failing base_failure (base_of (plan_source source.now)) ≡ Err failure)) }
{
    let base = Base::from_source(alloc, source)?;
    let base = Rc::new(alloc, base)?;
    Ok(SitePlan::new(alloc, site, base))
}

/// Makes an update of a site's copy of a plan. Where memory runs out, the copy may be updated by then.
pub fn make_update<S: Store<A>, A: Allocator + Copy>(
    alloc: A,
    store: &S,
    plan: &mut SitePlan<A>,
    asked: &Update<'_, A>,
) -> Result<Outcome<A>, Failure>
    ensures { Updates S.fails (seen_update asked.now) plan.old (S.entries store.now) (S.entries store.now) (seen (seen_outcome plan.new) result) }
{
    match asked {
        Update::Change(asked) => change_plan(alloc, plan, asked),
        Update::Merge(other) => merge_log(alloc, store, plan, *other),
        Update::Guard(owned) => guard_plan(alloc, plan, owned),
    }
}

// Makes a change.
fn change_plan<A: Allocator + Copy>(
    alloc: A,
    plan: &mut SitePlan<A>,
    asked: &Change,
) -> Result<Outcome<A>, Failure>
    ensures { MatchResult result (λ outcome. IsChanged asked.now plan.old (seen_outcome plan.new outcome) × (change_refusal plan.old asked.now ≡ None))
        (λ failure. (failure ≡ Failed lack.Memory) ⊎ (Some failure ≡ option_map replica_failure (change_refusal plan.old asked.now))) }
{
    let id = plan.change(asked)?;
    let mut text = Vec::new(alloc);
    Made::of(asked, id).print(&mut text)?;
    Ok(Outcome::Updated(text))
}

// Takes in all that another log of the same plan says.
fn merge_log<S: Store<A>, A: Allocator + Copy>(
    alloc: A,
    store: &S,
    plan: &mut SitePlan<A>,
    other: &str,
) -> Result<Outcome<A>, Failure>
    ensures { Updates S.fails (merge other.now) plan.old (S.entries store.now) (S.entries store.now) (seen (seen_outcome plan.new) result) }
{
    let theirs = store.load(other, plan.site())?;
    take_in(plan, &theirs)?;
    drop(theirs);
    Ok(Outcome::Updated(Vec::from_slice(alloc, b"merged\n")?))
}

// Adds the guard of what a site holds.
fn guard_plan<A: Allocator + Copy>(
    alloc: A,
    plan: &mut SitePlan<A>,
    owned: &[OwnedSteps],
) -> Result<Outcome<A>, Failure>
    ensures { MatchResult result (λ outcome. IsGuarded owned.now plan.old (seen_outcome plan.new outcome) × IsUnguarded owned.now plan.old None)
        (λ failure. (failure ≡ Failed lack.Memory) ⊎ IsUnguarded owned.now plan.old (Some failure)) }
{
    match add_guard(plan, owned)? {
        Some(ids) => Ok(Outcome::Updated(guard_lines(alloc, Some(&ids))?)),
        None => Ok(Outcome::Unchanged(guard_lines(alloc, None)?)),
    }
}

// The lines that say which records a guard has.
fn guard_lines<A: Allocator>(alloc: A, ids: Option<&[Id]>) -> Result<Vec<u8, A>, Memory>
    ensures { IfOk result (λ text. text.items ≡ guard_text (option_map (λ all. all.now) ids.entry)) }
{
    let mut text = Vec::new(alloc);
    print_guard(ids, &mut text)?;
    Ok(text)
}
