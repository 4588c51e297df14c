//! The program once more, whose stored run ends with an alarm.
#![tactic(auto)]

use std::process::ExitCode;

fn main(rt: HostRuntime) -> ExitCode {
    eva_main::run(&rt, &rt)
}
