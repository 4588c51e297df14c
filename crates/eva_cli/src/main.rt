//! The program.
#![tactic(auto)]

use std::process::ExitCode;

fn main(rt: HostRuntime) -> ExitCode {
    eva_main::run(&rt, &rt)
}
