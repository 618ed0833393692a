//! The word at the front of some bytes.

ghost use Rattle.std.specs.Prelude.{◌≡◌, ◌≤◌, length};
ghost use Rattle.stn_pddl.specs.Tree.Trees as spec;

use crate::tree::bytes::{Kind, kind_of};

/// How many bytes the word at the front has.
#[tactic(auto, unfolding(crate::specs::Tree::Trees::word_len))]
pub fn word_len(bytes: &[u8]) -> usize
    ensures len { result ≡ spec.word_len bytes.now }
    ensures within { result ≤ length bytes.now }
{
    for (index, &byte) in bytes.iter().enumerate() {
        if kind_of(byte) != Kind::Letter {
            return index;
        }
    }
    bytes.len()
}
