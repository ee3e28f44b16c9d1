// The same program as `listing`, run on more bytes than one read gives and more units than one push marks: empty units, lengths of up to five
// digits, a start code and a unit across the end of a read, zeros between units, and two zeros at the end, which join the last unit. A program
// of its own, since the gate runs a program on one input.
#![tactic(auto)]

use std::process::ExitCode;

fn main(rt: HostRuntime) -> ExitCode {
    lister::list_standard_input(rt)
}
