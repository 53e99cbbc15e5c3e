//! Runs a script of pipe calls: the script is on standard input, the text goes to standard output.
#![tactic(auto)]

use pf_play::run_program;
use std::process::ExitCode;

fn main(rt: HostRuntime) -> ExitCode {
    run_program(&rt)
}
