//! `corpus`: makes the calls of all cases in the working folder, and tells which of them a program answers otherwise.
#![tactic(auto)]

use program_cases::run_cases;
use std::process::ExitCode;

fn main(rt: HostRuntime) -> ExitCode {
    run_cases(rt)
}
