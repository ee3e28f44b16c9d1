// Writing: inserts the emulation prevention bytes. A push at a time.
ghost use Rattle.std.specs.Prelude.{◌≡◌};
ghost use Rattle.rbsp.specs.Step.{write_step};
ghost use Rattle.rbsp.specs.Answer.{WritePush, new_byte_writer};

use desk::{Pushed, Refusal, Step, Steps};

// Zeros at the end of what was written: 0, 1 or 2.
#[derive(Clone, Copy, Debug, PartialEq, Eq)]
pub struct ByteWriter {
    pub zero_count: u8,
}

impl Steps for ByteWriter {
    ghost next = { write_step };

    ghost LEAD = { 3 };

    // The emulation prevention byte.
    const LEAD: u8 = 3;

    // Rec 7.4.1: behind two zeros a 03 goes before 00, 01, 02 and 03. Zeros count anew behind it.
    fn step(self, b: u8) -> Option<Step<ByteWriter>> {
        let (zero_count, count) = match (self.zero_count, b) {
            (_, 4..) => (0, 1),
            (2.., _) => (desk::zeros_after(0, b), 2),
            (zeros, _) => (desk::zeros_after(zeros, b), 1),
        };
        Some(Step {
            after: ByteWriter { zero_count },
            count,
            ends: false,
        })
    }
}

impl ByteWriter {
    pub fn new() -> ByteWriter
        ensures { result ≡ new_byte_writer }
    {
        ByteWriter { zero_count: 0 }
    }

    // Takes bytes while all that the next one releases fits; none is forbidden. Refuses a lent buffer that is too long, and a bad state.
    pub fn push(&mut self, chunk: &[u8], out: &mut [u8]) -> Result<Pushed, Refusal>
        ensures { WritePush self.old self.new chunk.now out.old out.new result }
    {
        desk::entry(chunk.len(), out.len(), 0, self.zero_count > 2)?;
        let pushed = desk::run(self, chunk, out, &mut []);
        Ok(pushed.unwrap())
    }
}
