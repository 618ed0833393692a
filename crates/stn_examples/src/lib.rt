//! Tests of what no clause says and no stored run shows: devices that fail, refused memory, and worked examples of single calls.
#![tactic(auto)]

#[cfg(test)]
mod tests;
