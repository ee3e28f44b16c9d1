// Document 01's "Sheets pulled for checking" through the compiled code: a line per case with what was answered, held to the file stdout.
#![tactic(auto)]

mod bits_of;
mod escaping;
mod framing;
mod groups;
mod say;

use std::io;

fn main(rt: HostRuntime) -> io::Result<()> {
    escaping::cases(&rt)?;
    bits_of::cases(&rt)?;
    framing::cases(&rt)?;
    groups::cases(&rt)
}
