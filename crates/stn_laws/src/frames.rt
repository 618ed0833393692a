ghost use Rattle.std.specs.{Prelude.{◌≡◌, ◌<◌, ◌^◌, ◌⊎◌, ℕ, List, ◌++◌, []}, List.AllByRecursion};
ghost use Rattle.stn_wire.specs.{Frame.{FrameContent, spelling, IsFrame}, Feeder.{FeederState, holding}, Feeding.{Call, Feeds, stream_of, frames_of}, declared.fault.WireFault.WireFault, Front.{Front, faulty, unfinished, IsFront, BeginsFrame}};

use std::alloc::Allocator;

/// Some bytes begin with one whole frame, or show one fault, or are unfinished: never two of these.
pub fn one_front()
    ensures { (bytes : List ℕ) (a b : Front) → IsFront bytes a → IsFront bytes b → a ≡ b }
{}

/// Some bytes that begin with no whole frame show a fault, or are unfinished.
pub fn some_front()
    ensures { (bytes : List ℕ) → AllByRecursion (λ byte. byte < 2 ^ 8) bytes → ¬ BeginsFrame bytes
        → IsFront bytes unfinished ⊎ ((fault : WireFault) × IsFront bytes (faulty fault)) }
{}

/// Frames with the same bytes are one, and no spelling is the front of another's.
pub fn one_spelling()
    ensures { (f g : FrameContent) (x y : List ℕ) → IsFrame f → IsFrame g → spelling f ++ x ≡ spelling g ++ y → (f ≡ g) × (x ≡ y) }
{}

/// Two feeders with the same bytes, however these were cut into pieces, gave the same frames, and hold the same bytes or
/// are broken by the same fault.
pub fn one_feeding<A: Allocator, B: Allocator>()
    ensures { (one : List (Call A)) (other : List (Call B)) (last final : FeederState) → Feeds (holding []) one last → Feeds (holding []) other final
        → stream_of one ≡ stream_of other → (frames_of one ≡ frames_of other) × (last ≡ final) }
{}
