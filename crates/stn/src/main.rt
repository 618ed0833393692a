//! The program `stn`: does the command of its words.
#![tactic(auto)]

use std::process::ExitCode;
use stn_shell::program;

fn main(rt: HostRuntime) -> ExitCode {
    program(&rt)
}
