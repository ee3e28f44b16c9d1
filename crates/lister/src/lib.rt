// The listing of an Annex B stream: standard input is read to its end, in pieces, and a line for each unit and a total go to standard output.
// Memory is constant whatever the stream's length. Lengths and counts are u64: a stream of 2^64 bytes is out of reach.
//
// What the contracts carry is where a listing stands (specs/Listed.antt): all that was read so far, all that was handed to writing, and
// what waits between. `read` and `sent` of the system count the one and the other, and system.rt alone writes them.
#![tactic(auto)]

mod system;
mod text;

ghost use Rattle.std.specs.Prelude.{◌≡◌, ◌≤◌, length};

use annexb::AnnexBReader;
use counting::Tally;
use desk::Pushed;
use std::process::ExitCode;
use system::{Failure, System};
use text::Text;

// How many bytes a read is asked for, and a call of the reader may give.
const ROOM: usize = 65_536;

// How many units a call of the reader may end.
const MARKS: usize = 1024;

// What is kept between two pieces of the input.
#[derive(Clone, Copy, Debug, PartialEq, Eq)]
struct Progress {
    reader: AnnexBReader,
    tally: Tally,
}

// A listing under way, and the memory for one call of the reader: its marks, and the lines of the units that it ends. The room for what it gives is
// lent apart from these: nothing here reads it, so a compiler that sees it by itself keeps none of it.
#[derive(Drop)]
struct Listing {
    system: System,
    progress: Progress,
    marks: [u64; MARKS],
    text: Text,
    // The reader's state is no bad one.
    ghost good: { progress.reader.zeros ≤ 2 },
}

impl Listing {
    ghost use Rattle.std.specs.Prelude.{◌*◌, [], take, IfErr};
    ghost use Rattle.desk.specs.Numbers.{most};
    ghost use Rattle.counting.specs.Tally.{Tallied};
    ghost use Rattle.lister.specs.Text.{lines_by, modulo};
    ghost use Rattle.lister.specs.Listed.{Carries, SomeListed, ChunkListed, Finishes, ListingCameTo};

    fn new(rt: HostRuntime) -> Listing
        ensures { Carries [] result.system.read result.system.sent result.progress }
    {
        Listing {
            system: System::new(rt),
            progress: Progress {
                reader: AnnexBReader::new(),
                tally: Tally::new(),
            },
            marks: [0; MARKS],
            text: Text::new(),
        }
    }

    // After a call of the reader: the lines of the units that it ended are the text.
    fn tell(&mut self, called: Pushed)
        requires { called.marked ≤ MARKS }
        ensures tallied { Tallied self.old.progress.tally self.old.marks called.marked called.written self.new.marks self.new.progress.tally }
        ensures text { self.new.text.items ≡ lines_by modulo self.old.progress.tally.units (take called.marked self.new.marks) }
        ensures few { length self.new.text.items ≤ called.marked * 47 }
        ensures reader { self.new.progress.reader ≡ self.old.progress.reader }
        ensures system { self.new.system ≡ self.old.system }
    {
        let first = self.progress.tally.units;
        self.progress
            .tally
            .tally(&mut self.marks, called.marked, called.written);
        self.text.clear();
        text::unit_lines(&mut self.text, &self.marks[..called.marked], first);
    }

    // Lists the units that end in the front of a chunk that one push takes: their lines go out at once. Lent three bytes and a mark, a push takes
    // one byte at least. What it is lent is short enough, so it is not refused.
    fn list_some(&mut self, chunk: &[u8], room: &mut [u8; ROOM]) -> Result<usize, Failure>
        requires in_bounds { 1 ≤ length chunk.now }
        requires few { length chunk.now ≤ most }
        ensures some_listed { SomeListed chunk.now self.old.system.sent self.old.progress result self.new.system.sent self.new.progress }
        ensures read { self.new.system.read ≡ self.old.system.read }
    {
        let called = self
            .progress
            .reader
            .push(chunk, room, &mut self.marks)
            .unwrap();
        self.tell(called);
        self.system.hand_out(&self.text)?;
        Ok(called.taken)
    }

    // Lists the units that end in a chunk: all of it is taken, unless a write fails.
    fn list_chunk(&mut self, chunk: &[u8], room: &mut [u8; ROOM]) -> Result<(), Failure>
        requires { length chunk.now ≤ most }
        ensures chunk_listed { ChunkListed chunk.now self.old.system.sent self.old.progress result self.new.system.sent self.new.progress }
        ensures read { self.new.system.read ≡ self.old.system.read }
    {
        let mut rest = chunk;
        // No `for`: how long a piece is, only the push that takes it tells.
        while !rest.is_empty() {
            let taken = self.list_some(rest, room)?;
            rest = &rest[taken..];
        }
        Ok(())
    }

    // The end of the input: a reset ends the open unit, and its line and the total are told. What it gives fits, so it is not refused.
    fn finish(&mut self, room: &mut [u8; ROOM]) -> Result<(), Failure>
        ensures finishes { Finishes self.old.system.sent self.old.progress self.new.system.sent }
        ensures failed { IfErr result (λ e. e ≡ Failure.Write) }
        ensures read { self.new.system.read ≡ self.old.system.read }
    {
        let called = self.progress.reader.reset(room, &mut self.marks).unwrap();
        self.tell(called);
        text::total_line(&mut self.text, self.progress.tally.units);
        self.system.hand_out(&self.text)
    }

    // Lists the whole input. A read may give any part of what was asked for. Nothing says that an input ends, so reads are counted: none comes to
    // 2^64 of them.
    fn list_all(&mut self) -> Result<(), Failure>
        requires { Carries [] self.old.system.read self.old.system.sent self.old.progress }
        ensures { ListingCameTo self.new.system.read self.new.system.sent result }
    {
        let mut chunk = [0; ROOM];
        let mut room = [0; ROOM];
        for _ in 0..u64::MAX {
            let n = self.system.take_in(&mut chunk)?;
            if n == 0 {
                return self.finish(&mut room);
            }
            self.list_chunk(&chunk[..n], &mut room)?;
        }
        Err(Failure::Read)
    }
}

// A read that failed is told on standard error here, a write where it failed; both by the exit status that the program is to end with.
pub fn list_standard_input(rt: HostRuntime) -> ExitCode {
    let mut listing = Listing::new(rt);
    match listing.list_all() {
        Ok(()) => return ExitCode::SUCCESS,
        Err(Failure::Read) => listing.system.complain_of_read(),
        Err(Failure::Write) => {}
    }
    ExitCode::FAILURE
}
