ghost use Rattle.std.specs.{Prelude.{◌≡◌, ◌<◌, ◌^◌, ℕ, List, Option, Some, Result}, List.AllByRecursion};
ghost use Rattle.stn_lift.specs.PlanSource.{PlanSource};
ghost use Rattle.stn_records.specs.Content.{Content};
ghost use Rattle.stn_session.specs.{Session.Session, Serving.IsSession, Exchange.IsReceived, declared.{session.End.End, exchange.ReplyFault.ReplyFault}};
ghost use Rattle.stn_laws.specs.Reception.{SaysReplies};

/// The law that bytes have one session: however they are cut into frames and a rest, it ends in one way, and its
/// replies, state and count are the same.
pub fn one_session()
    ensures { (first : Session) → (bytes : List ℕ) → (one other : End) → (last final : Session)
        → IsSession first bytes one last → IsSession first bytes other final → (one ≡ other) × (last ≡ final) }
{}

/// The law that no bytes are without a session: it cannot be that they end it in no way.
pub fn some_session()
    ensures { (first : Session) → (bytes : List ℕ) → AllByRecursion (λ byte. byte < 2 ^ 8) bytes
        → ¬ ((end : End) → (last : Session) → ¬ IsSession first bytes end last) }
{}

/// The law that a reader's bytes have one reception: however many of them were read, and however they are cut into
/// frames and a rest, the answer and the state are the same, unless a read fails or memory runs out.
pub fn one_reception()
    ensures { (source : PlanSource) → (first : Content) → (input : List ℕ) → (after last : Option (List ℕ))
        → (one other : Result (List ℕ) ReplyFault) → (state final : Content)
        → IsReceived source first (Some input) after state one → IsReceived source first (Some input) last final other
        → SaysReplies one → SaysReplies other → (one ≡ other) × (state ≡ final) }
{}

/// The law that no reader's bytes are without a reception: it cannot be that they are received in no way that they alone decide, where no
/// read fails and memory lasts.
pub fn some_reception()
    ensures { (source : PlanSource) → (first : Content) → (input : List ℕ) → AllByRecursion (λ byte. byte < 2 ^ 8) input
        → ¬ ((after : Option (List ℕ)) → (answer : Result (List ℕ) ReplyFault) → (state : Content)
        → SaysReplies answer → ¬ IsReceived source first (Some input) after state answer) }
{}
