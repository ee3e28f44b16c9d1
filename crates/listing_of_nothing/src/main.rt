// The same program as `listing`, run on empty input. A program of its own, since the gate runs a program on one input.
#![tactic(auto)]

use std::process::ExitCode;

fn main(rt: HostRuntime) -> ExitCode {
    lister::list_standard_input(rt)
}
