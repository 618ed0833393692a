ghost use Rattle.std.specs.{Prelude.{◌≡◌, ◌⊎◌, ◌<◌, ◌^◌, ℕ, List, Some, Result, Err, IsErrAnd}, List.AllByRecursion};
ghost use Rattle.stn_effects.specs.Effects.{EndAlike};
ghost use Rattle.stn_line.specs.declared.words.Line.{Line};
ghost use Rattle.stn_asked.specs.{Words.word_refused, declared.words.RefusedWord.RefusedWord};
ghost use Rattle.stn_logs.specs.Commands.{DoesLine};
ghost use Rattle.stn_refusal.specs.declared.failure.Failure.{Failure};
ghost use Rattle.stn_store.specs.{Log.{Log, IsLog}, Steps.Entries, Store.{Entry, IsLack}, declared.log.fault.LoadFault.LoadFault};

use crate::loosened::{one_robust_plan, too_many_are_not_few};
use crate::queries::one_said;
use std::alloc::Allocator;
use stn_guard::one_guard;
use stn_store::Store;

/// The law that bytes have one meaning as a log.
pub fn one_log()
    ensures { (input : List ℕ) (one other : Result Log LoadFault) → IsLog input one → IsLog input other → one ≡ other }
{}

/// The law that no bytes are without a meaning as a log: it cannot be that none is theirs.
pub fn some_log()
    ensures { (input : List ℕ) → AllByRecursion (λ byte. byte < 2 ^ 8) input → ¬ ((meaning : Result Log LoadFault) → ¬ IsLog input meaning) }
{}

/// The law that a command that gives no answer saves nothing.
#[tactic(auto, using(crate::proofs::logs::Unsaved::line_keeps))]
pub fn no_answer_nothing_saved<S: Store<A>, A: Allocator + Copy>()
    ensures { (line : Line) (old new : Entries) (failure : Failure) → DoesLine S.fails line old new (Err failure) → new ≡ old }
{}

/// The law that a command that a word refuses saves nothing, and ends with its refusal, or for a lack.
pub fn told_word_refuses<S: Store<A>, A: Allocator + Copy>()
    ensures { (line : Line) (refused : RefusedWord) (old new : Entries) (ended : Result (List ℕ) Failure) → word_refused line ≡ Some refused
        → DoesLine S.fails line old new ended → (new ≡ old) × IsErrAnd ended (λ failure. (failure ≡ refused.failure) ⊎ IsLack S.fails failure) }
{}

/// The law that a command has one ending, but for lacks, in a store of which all entries are known: it is answered, or one cause
/// refuses it.
pub fn one_ending<S: Store<A>, A: Allocator + Copy>()
    ensures { (entries : List Entry) (line : Line) (one other : Entries) (ended last : Result (List ℕ) Failure)
        → DoesLine S.fails line (Some entries) one ended → DoesLine S.fails line (Some entries) other last → EndAlike S.fails ended last }
{
    one_log();
    one_guard();
    one_said();
    one_robust_plan();
    too_many_are_not_few();
}
