use std::alloc::Global;
use stn_exec::{Counted, run};

/// What a script prints; nothing where it is not run to its end.
pub fn output_of(alloc: Global, script: &str) -> Vec<u8> {
    let mut reader = Counted::new(script.as_bytes());
    let mut writer = Counted::new(Vec::new(alloc));
    let answer = run(alloc, &mut reader, &mut writer);
    let mut out = writer.into_inner();
    if answer.is_err() {
        out.clear();
    }
    out
}
