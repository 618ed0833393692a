// What becomes of some bytes as a log.
use crate::case::Case;
use crate::held::{Held, loaded};
use std::alloc::Global;

fn is_same(one: &Held, other: &Held) -> bool {
    one.case == other.case && one.log.as_slice() == other.log.as_slice()
}

/// What the bytes are as a log, whole and byte by byte.
pub fn of_log(alloc: Global, bytes: &[u8]) -> Held {
    let mut whole = loaded(alloc, bytes, 4096);
    let cut = loaded(alloc, bytes, 1);
    if !is_same(&whole, &cut) {
        whole.case = Case::Broken;
    }
    whole
}
