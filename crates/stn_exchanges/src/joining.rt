//! What a log says by now, taken in by a site, and saved.

ghost use Rattle.std.specs.Prelude.{◌≡◌, ◌⊎◌, IfSome, IfOk, IfErr};
ghost use Rattle.stn_exchanges.specs.Joining.{FindsSaid, TakesLog, SavesJoin, KeepsIn, shared};
ghost use Rattle.stn_store.specs.{Log.log_held, Steps.Saves, Store.{Opens, IsUnopened, IsLack}};

use std::alloc::Allocator;
use stn_line::SiteLog;
use stn_refusal::Failure;
use stn_session::Keeper;
use stn_site::{SiteCopy, SitePlan};
use stn_store::{Store, take_in};

// What a log says, held or not. A log that is gone says nothing.
fn find_said<'a, S: Store<A>, A: Allocator + Copy>(
    store: &'a S,
    log: &SiteLog<'_>,
    held: Option<&'a S::Held>,
) -> Result<Option<SitePlan<A>>, Failure>
    requires { IfSome held (λ held. S.held_name held.now ≡ log.now.name.now) }
    ensures { FindsSaid S.fails log.now (S.entries store.now) (S.entries store.now) result }
{
    if store.is_there(log.name)? {
        let said = load(store, log, held)?;
        Ok(Some(said))
    } else {
        Ok(None)
    }
}

// A site's copy of a plan by a log, held or not.
fn load<S: Store<A>, A: Allocator + Copy>(
    store: &S,
    log: &SiteLog<'_>,
    held: Option<&S::Held>,
) -> Result<SitePlan<A>, Failure>
    requires { IfSome held (λ held. S.held_name held.now ≡ log.now.name.now) }
    ensures opened { IfOk result (λ plan. Opens (S.entries store.now) log.now.name.now log.now.site plan) }
    ensures failed { IfErr result (λ failure. IsUnopened (S.entries store.now) log.now.name.now failure ⊎ IsLack S.fails failure) }
{
    match held {
        Some(held) => store.load_held(held, log.site),
        None => store.load(log.name, log.site),
    }
}

/// Takes in what a log says, held or not. A log that is gone says nothing. A refusal or a fault changes nothing.
pub fn take_log<'a, S: Store<A>, A: Allocator + Copy, C: SiteCopy<A>>(
    store: &'a S,
    log: &SiteLog<'_>,
    held: Option<&'a S::Held>,
    copy: &mut C,
) -> Result<(), Failure>
    requires { IfSome held (λ held. S.held_name held.now ≡ log.now.name.now) }
    ensures taken { TakesLog S.fails log.now (C.held copy.old).source
        (shared (C.held copy.old).state (S.entries store.now)) (shared (C.held copy.new).state (S.entries store.now)) result }
    ensures source { (C.held copy.new).source ≡ (C.held copy.old).source }
    ensures site { (C.held copy.new).site ≡ (C.held copy.old).site }
{
    match find_said(store, log, held)? {
        Some(said) => {
            let taken = take_in(copy, &said);
            drop(said);
            taken
        }
        None => Ok(()),
    }
}

/// Takes in what a log says by now, and saves the join. No other program changes the log meanwhile.
pub fn save_join<S: Store<A>, A: Allocator + Copy, C: SiteCopy<A>>(
    store: &mut S,
    log: &SiteLog<'_>,
    copy: &mut C,
) -> Result<(), Failure>
    ensures saved { SavesJoin S.fails log.now (C.held copy.old).source
        (shared (C.held copy.old).state (S.entries store.old)) (shared (C.held copy.new).state (S.entries store.new)) result }
    ensures source { (C.held copy.new).source ≡ (C.held copy.old).source }
    ensures site { (C.held copy.new).site ≡ (C.held copy.old).site }
{
    let held = store.hold(log.name)?;
    take_log(store, log, Some(&held), copy)?;
    save(store, &held, copy.plan())
}

// Saves a site's copy of a plan as the log that is held.
fn save<S: Store<A>, A: Allocator + Copy>(
    store: &mut S,
    held: &S::Held,
    plan: &SitePlan<A>,
) -> Result<(), Failure>
    ensures { Saves S.fails (S.held_name held.now) (log_held plan.now) (S.entries store.old) (S.entries store.new) result }
{
    store.save(held, plan)?;
    Ok(())
}

/// Saves what a log says by now, joined with what a site holds, whose copy of the plan stays as it is.
pub fn keep_join<S: Store<A>, A: Allocator + Copy>(
    store: &mut S,
    log: &SiteLog<'_>,
    plan: &SitePlan<A>,
) -> Result<(), Failure>
    ensures { KeepsIn S.fails log.now plan.now.source plan.now.state (S.entries store.old) (S.entries store.new) result }
{
    let lock = store.hold(log.name)?;
    match find_said(store, log, Some(&lock))? {
        Some(mut said) => {
            take_in(&mut said, plan)?;
            save(store, &lock, &said)
        }
        None => save(store, &lock, plan),
    }
}

/// Keeps in a log what a session takes in.
#[derive(Clone, Copy)]
pub struct InLog<'a, 'b> {
    pub log: &'a SiteLog<'b>,
}

impl<'a, 'b, S: Store<A>, A: Allocator + Copy> Keeper<S, A> for InLog<'a, 'b> {
    ghost keeps = { λ keeper source state old new. KeepsIn S.fails keeper.log.now source state (S.entries old) (S.entries new) };

    fn keep(&self, store: &mut S, plan: &SitePlan<A>) -> Result<(), Failure> {
        keep_join(store, self.log, plan)
    }
}
