//! Names, compared without regard to ASCII case.

ghost use Rattle.std.specs.{Prelude.{◌≡◌, fold}, Cmp.partial_equiv_from_equiv};
ghost use Rattle.stn_pddl.specs.Tree.Names as spec;

use std::hash::{Hash, Hasher};

#[tactic(auto, unfolding(crate::specs::Tree::Names::is_same_word))]
/// Whether two words are the same without regard to ASCII case.
pub fn is_same_word(a: &[u8], b: &[u8]) -> bool
    ensures { result ≡ spec.is_same_word a.now b.now }
{
    a.eq_ignore_ascii_case(b)
}

/// A word of a text: the slice that it was read from. Names are equal without regard to ASCII case.
#[derive(Clone, Copy, Debug)]
pub struct Name<'a> {
    /// The bytes as they stand in the text.
    pub bytes: &'a [u8],
}

impl PartialEq for Name<'_> {
    ghost eq = { λ a b. spec.is_same_word a.bytes.now b.bytes.now };

    ghost laws = { partial_equiv_from_equiv (spec.same_words (λ name. name.bytes.now)) };

    fn eq(&self, other: &Self) -> bool {
        is_same_word(self.bytes, other.bytes)
    }
}

impl Eq for Name<'_> {
    ghost laws = { spec.same_words (λ name. name.bytes.now) };
}

impl Hash for Name<'_> {
    ghost hash_input = { λ name. spec.hash_writes name.bytes.now };

    ghost respects_eq = { λ a b. spec.hashed_alike a.bytes.now b.bytes.now };

    fn hash<H: Hasher>(&self, state: &mut H) {
        hash_folded(self.bytes, state);
    }
}

fn hash_folded<H: Hasher>(word: &[u8], state: &mut H)
    ensures { state.new ≡ fold H.write state.old (spec.hash_writes word.now) }
{
    for byte in word {
        state.write_u8(byte.to_ascii_lowercase());
    }
}
