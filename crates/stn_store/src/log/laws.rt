ghost use Rattle.std.specs.Prelude.{ℕ, List, Ok};
ghost use Rattle.stn_site.specs.{Held.holding_state, SoundSite.IsSoundSite};
ghost use Rattle.stn_store.specs.Log.{Log, IsLog};

/// The law that what a log says is sound, so that each query has an answer or a cause: its source has a base, its live records are of
/// bounds of the plan, and its records of executions fix times.
pub fn logs_are_sound()
    ensures { (input : List ℕ) (log : Log) → IsLog input (Ok log) → IsSoundSite (holding_state log.source log.state) }
{}
