//! Laws of serving.

ghost use Rattle.std.specs.Prelude.{◌≡◌, ℕ, ◌<◌, List, length, flat_map, Option, Ok, Err};
ghost use Rattle.stn_device.specs.Callers.{CallersState};
ghost use Rattle.stn_effects.specs.Printing.{Prints};
ghost use Rattle.stn_exchanges.specs.{Connections.{Meeting, session_text, ServesSite, WithNext, ServesSites}, Visits.{Visit, AreVisits, ComeAndGo}};
ghost use Rattle.stn_lift.specs.PlanSource.{PlanSource};
ghost use Rattle.stn_line.specs.declared.words.SiteLog.{SiteLog};
ghost use Rattle.stn_refusal.specs.declared.failure.Failure.{Failure};

use std::alloc::Allocator;
use stn_store::Store;

/// The law that so many sites are served by so many visits of the next ones, each of which began with what the one before it left, and
/// that their lines are printed, and nothing else.
pub fn served_by_visits<S: Store<A>, A: Allocator + Copy>()
    ensures { (log : SiteLog) (source : PlanSource) (count : ℕ) (old new : Meeting (Option CallersState))
        → ServesSites S.fails log source count old new (Ok tt) → (visits : List Visit) × (length visits ≡ count)
        × AreVisits S.fails log source visits old new × ComeAndGo old.others new.others visits × Prints old.out new.out (flat_map (λ visit. session_text visit.answer) visits) }
{}

/// The law that serving that stops has served fewer sites, and stopped at the next one.
pub fn stopped_after_fewer<S: Store<A>, A: Allocator + Copy>()
    ensures { (log : SiteLog) (source : PlanSource) (count : ℕ) (old new : Meeting (Option CallersState)) (failure : Failure)
        → ServesSites S.fails log source count old new (Err failure) → (served : ℕ) × (between : Meeting (Option CallersState)) × (served < count)
        × ServesSites S.fails log source served old between (Ok tt) × WithNext (ServesSite S.fails log source) between new (Err failure) }
{}
