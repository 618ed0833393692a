ghost use Rattle.std.specs.Prelude.{◌≡◌};
ghost use Rattle.stn_cause.specs.{Cause.cause_text, declared.cause.Cause.Cause};

/// Two causes are never told alike.
pub fn causes_told_apart()
    ensures { (one other : Cause) → cause_text one ≡ cause_text other → one ≡ other }
{}
