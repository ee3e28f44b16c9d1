// All that touches the operating system. What a read put into a buffer and what a write did with one no contract can say
// (specs/System.antt). So bytes are read here alone, and text is handed out here alone; each is counted, modulo 2^64.
ghost use Rattle.std.specs.Prelude.{◌≡◌};
ghost use Rattle.lister.specs.System.{TookIn, HandedOut};

use std::io::{Eprint, Error, ErrorKind, Print, Read};

// What a call of the operating system that failed was to do.
#[derive(Clone, Copy, Debug, PartialEq, Eq)]
pub(crate) enum Failure {
    Read,
    Write,
}

// Standard input and standard output: how many bytes came from the one, and how many were handed to the other.
#[derive(Drop)]
pub(crate) struct System {
    rt: HostRuntime,
    pub(crate) read: u64,
    pub(crate) sent: u64,
}

impl System {
    pub(crate) fn new(rt: HostRuntime) -> System
        ensures read { result.read ≡ 0 }
        ensures sent { result.sent ≡ 0 }
    {
        System {
            rt,
            read: 0,
            sent: 0,
        }
    }

    // Reads once, and answers how many bytes came, at the front of the chunk: none at the end of the input.
    pub(crate) fn take_in(&mut self, chunk: &mut [u8]) -> Result<usize, Failure>
        ensures took_in { TookIn chunk.new self.old.read result self.new.read }
        ensures sent { self.new.sent ≡ self.old.sent }
    {
        let mut input = self.rt.stdin();
        let n = input.read(chunk).map_err(|_| Failure::Read)?;
        self.read = self.read.wrapping_add(n as u64);
        Ok(n)
    }

    // Hands a text to standard output.
    pub(crate) fn hand_out(&mut self, text: &[u8]) -> Result<(), Failure>
        ensures handed_out { HandedOut text.now self.old.sent result self.new.sent }
        ensures read { self.new.read ≡ self.old.read }
    {
        self.sent = self.sent.wrapping_add(text.len() as u64);
        Print::write_all(&self.rt.stdout(), text).map_err(|why| {
            self.complain_of_write(why);
            Failure::Write
        })
    }

    // Tells on standard error that a write failed, and where. A reader that leaves, as `head` does, wants to hear no more. Where telling fails too,
    // there is nobody to tell.
    fn complain_of_write(&self, why: Error) {
        if why.kind() == ErrorKind::BrokenPipe {
            return;
        }
        let _ = eprintln!(self.rt;
            "listing: standard output: a write failed within the first {} bytes",
            self.sent
        );
    }

    // Tells on standard error that a read failed, and where.
    pub(crate) fn complain_of_read(&self) {
        let _ = eprintln!(self.rt;
            "listing: standard input: a read failed behind {} bytes; no total",
            self.read
        );
    }
}
