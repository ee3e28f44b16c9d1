// Framing: the calls of `annexb`.
ghost use Rattle.std.specs.Prelude.{◌≡◌};
ghost use Rattle.exports.specs.Framing.{frame_of, frame_numbers, FrontsPush, FrontsReset};

use super::numbers::pushed;
use annexb::AnnexBReader;
use desk::{Pushed, Refusal};

fn frame_numbers(answer: Result<Pushed, Refusal>, reader: AnnexBReader) -> [u64; 6]
    ensures { result ≡ frame_numbers answer reader }
{
    let [number, taken, written, marked] = pushed(answer);
    [
        number,
        taken,
        written,
        marked,
        u64::from(reader.in_unit),
        u64::from(reader.zeros),
    ]
}

// AnnexBReader::push. The answer: number, bytes taken, bytes written, marks written, and the state: 1 in a unit, zeros.
#[unsafe(no_mangle)]
pub extern "C" fn dampfeather_annexb_push(
    in_unit: bool,
    zeros: u8,
    chunk: &[u8],
    room: &mut [u8],
    marks: &mut [u64],
    answer: &mut [u64; 6],
)
    ensures { FrontsPush (frame_of in_unit zeros) chunk.now room.old marks.old
        room.new marks.new answer.new }
{
    let mut reader = AnnexBReader { in_unit, zeros };
    *answer = frame_numbers(reader.push(chunk, room, marks), reader);
}

// AnnexBReader::reset. The answer is as a push's.
#[unsafe(no_mangle)]
pub extern "C" fn dampfeather_annexb_reset(
    in_unit: bool,
    zeros: u8,
    room: &mut [u8],
    marks: &mut [u64],
    answer: &mut [u64; 6],
)
    ensures { FrontsReset (frame_of in_unit zeros) room.old marks.old
        room.new marks.new answer.new }
{
    let mut reader = AnnexBReader { in_unit, zeros };
    *answer = frame_numbers(reader.reset(room, marks), reader);
}
