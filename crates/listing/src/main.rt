// Lists the units of the Annex B stream on standard input.
#![tactic(auto)]

use std::process::ExitCode;

fn main(rt: HostRuntime) -> ExitCode {
    lister::list_standard_input(rt)
}
