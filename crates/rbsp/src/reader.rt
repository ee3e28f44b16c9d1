// Reading: removes the emulation prevention bytes. A push at a time, each byte taken singly.
ghost use Rattle.std.specs.Prelude.{◌≡◌};
ghost use Rattle.rbsp.specs.Step.{read_step, skipping, bad_reader};
ghost use Rattle.rbsp.specs.Answer.{ReadPush};
ghost use Rattle.rbsp.specs.declared.reader.Stopped.TheVariants.{Refused};

use desk::{Pushed, Refusal, Step, Steps};

// The Rust's ParseState. Its `Three` falls away, since bytes are taken singly.
#[derive(Clone, Copy, Debug, PartialEq, Eq)]
pub enum ParseState {
    // Zeros at the end of what was taken: 0, 1 or 2.
    Start(u8),
    // So many bytes are yet to be dropped, unexamined.
    Skip(usize),
    // Right behind a removed 03.
    PostThree,
}

#[derive(Clone, Copy, Debug, PartialEq, Eq)]
pub struct ByteReader {
    pub state: ParseState,
}

// Why a push stopped.
#[derive(Clone, Copy, Debug, PartialEq, Eq)]
pub enum Stopped {
    // At its entry checks: nothing is taken.
    Refused(Refusal),
    // At a forbidden byte: what came before it was delivered, and the count taken is its index.
    Forbidden(Pushed),
}

impl From<Refusal> for Stopped {
    ghost from_gives = { λ e s. s ≡ Refused e };

    fn from(why: Refusal) -> Stopped {
        Stopped::Refused(why)
    }
}

impl ParseState {
    // So many bytes are yet to be dropped, or none.
    fn skipping(left: usize) -> ParseState
        ensures { result ≡ skipping left }
    {
        match left {
            0 => ParseState::Start(0),
            _ => ParseState::Skip(left),
        }
    }
}

impl Steps for ParseState {
    ghost next = { read_step };

    ghost LEAD = { 0 };

    // Nothing goes before a byte.
    const LEAD: u8 = 0;

    // Rec 7.4.1: behind two zeros 03 is removed, and 00, 01 and 02 are forbidden; behind a removed 03 only 00 to 03 may follow, and a 00 is the first
    // zero of a new pair. A byte to be dropped is not looked at.
    fn step(self, b: u8) -> Option<Step<ParseState>> {
        let (after, count) = match (self, b) {
            (ParseState::Start(2..), 3) => (ParseState::PostThree, 0),
            (ParseState::Start(2..), 0..=2) => return None,
            (ParseState::Start(zeros), _) => (ParseState::Start(desk::zeros_after(zeros, b)), 1),
            (ParseState::Skip(0), _) => (ParseState::Start(desk::zeros_after(0, b)), 1),
            (ParseState::Skip(left), _) => (ParseState::skipping(left - 1), 0),
            (ParseState::PostThree, 4..) => return None,
            (ParseState::PostThree, _) => (ParseState::Start(desk::zeros_after(0, b)), 1),
        };
        Some(Step {
            after,
            count,
            ends: false,
        })
    }
}

impl ByteReader {
    // Drops nothing.
    pub fn without_skip() -> ByteReader
        ensures { result.state ≡ skipping 0 }
    {
        ByteReader::skipping_bytes(0)
    }

    // Drops the one byte of the H.264 NAL header.
    pub fn skipping_h264_header() -> ByteReader
        ensures { result.state ≡ skipping 1 }
    {
        ByteReader::skipping_bytes(1)
    }

    // Drops the first `skip` bytes.
    pub fn skipping_bytes(skip: usize) -> ByteReader
        ensures { result.state ≡ skipping skip }
    {
        ByteReader {
            state: ParseState::skipping(skip),
        }
    }

    // A stored run of zeros over 2.
    fn is_bad(self) -> bool
        ensures { result ≡ bad_reader self.state }
    {
        matches!(&self.state, ParseState::Start(3..))
    }

    // Takes bytes while all that the next one releases fits, up to a forbidden byte. Refuses a lent buffer that is too long, and a bad state.
    pub fn push(&mut self, chunk: &[u8], out: &mut [u8]) -> Result<Pushed, Stopped>
        ensures { ReadPush self.old.state self.new.state chunk.now out.old out.new result }
    {
        desk::entry(chunk.len(), out.len(), 0, self.is_bad())?;
        let pushed = desk::run(&mut self.state, chunk, out, &mut []);
        pushed.map_err(Stopped::Forbidden)
    }
}
