// Units out of a byte stream (Rec Annex B), from src/annexb.rs.
#![tactic(auto)]

ghost use Rattle.std.specs.Prelude.{◌≡◌, cond};
ghost use Rattle.annexb.specs.Seen.{new};
ghost use Rattle.annexb.specs.Step.{stepping};
ghost use Rattle.annexb.specs.Answer.{FramePush, FrameReset};

pub use desk::Pushed;
use desk::{Refusal, Step, Steps};

// The reader between two calls: in a unit or not, and the zeros that the next byte decides on.
// The Rust's ParseState: Start, StartOneZero and StartTwoZero are zeros 0, 1 and 2 outside a unit; InUnit, InUnitOneZero and InUnitTwoZero are
// those in one, zeros being its backtrack_bytes. Two fields and no enum: a saved state may hold any zeros, which number 2 is for, and C hands in
// both.
#[derive(Clone, Copy, Debug, PartialEq, Eq)]
pub struct AnnexBReader {
    pub in_unit: bool,
    pub zeros: u8,
}

impl Steps for AnnexBReader {
    ghost next = { stepping };

    ghost LEAD = { 0 };

    // The zeros held.
    const LEAD: u8 = 0;

    // Behind two zeros 01 starts a unit, and 00 or 01 ends one: neither pattern stands in a NAL unit (Rec 7.4.1), and a start code is 00 00 01
    // (Rec B.1.1). A third zero is no third held one: the two before it may yet be a start code's. Any other byte of a unit releases the zeros
    // held, and itself.
    fn step(self, b: u8) -> Option<Step<AnnexBReader>> {
        let (in_unit, zeros, count, ends) = match (self.zeros, b) {
            (2.., 0) => (false, 2, 0, self.in_unit),
            (2.., 1) => (true, 0, 0, self.in_unit),
            (held, 0) => (self.in_unit, held + 1, 0, false),
            (held, _) if self.in_unit => (true, 0, usize::from(held) + 1, false),
            _ => (false, 0, 0, false),
        };
        Some(Step {
            after: AnnexBReader { in_unit, zeros },
            count,
            ends,
        })
    }
}

impl AnnexBReader {
    // A reader that has taken nothing.
    pub fn new() -> AnnexBReader
        ensures { result ≡ new }
    {
        AnnexBReader {
            in_unit: false,
            zeros: 0,
        }
    }

    // How many zeros of an open unit wait for the next byte.
    fn held(self) -> usize
        ensures { result ≡ cond self.in_unit self.zeros 0 }
    {
        if self.in_unit {
            usize::from(self.zeros)
        } else {
            0
        }
    }

    // Takes bytes of the chunk from the front, one after another, while all that the next one releases fits. A mark is the count of bytes that this
    // call wrote before a unit's end. TooLong: a lent buffer is. BadState: over two zeros are held. Refused, it leaves all as it was.
    pub fn push(
        &mut self,
        chunk: &[u8],
        room: &mut [u8],
        marks: &mut [u64],
    ) -> Result<Pushed, Refusal>
        ensures { FramePush self.old chunk.now room.old marks.old self.new room.new marks.new result }
    {
        desk::entry(chunk.len(), room.len(), marks.len(), self.zeros > 2)?;
        // No byte is forbidden.
        let pushed = desk::run(self, chunk, room, marks).unwrap();
        Ok(pushed)
    }

    // Ends an open unit, with its held zeros and its mark, and forgets all. Outside a unit it hands out nothing. TooLong, BadState: as a push.
    // NoRoom: they do not fit. Refused, it leaves all as it was.
    pub fn reset(&mut self, room: &mut [u8], marks: &mut [u64]) -> Result<Pushed, Refusal>
        ensures { FrameReset self.old room.old marks.old self.new room.new marks.new result }
    {
        desk::entry(0, room.len(), marks.len(), self.zeros > 2)?;
        if !self.in_unit {
            *self = AnnexBReader::new();
            return Ok(Pushed {
                taken: 0,
                written: 0,
                marked: 0,
            });
        }
        let held = self.held();
        let ends = usize::from(self.in_unit);
        if held > room.len() || ends > marks.len() {
            return Err(Refusal::NoRoom);
        }
        room[..held].fill(0);
        marks[..ends].fill(held as u64);
        *self = AnnexBReader::new();
        Ok(Pushed {
            taken: 0,
            written: held,
            marked: ends,
        })
    }
}
