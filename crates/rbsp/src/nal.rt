// A whole NAL at once: decide, fill, then pick the part shown (the Rust's `Cow`).
ghost use Rattle.std.specs.Prelude.{◌≡◌};
ghost use Rattle.rbsp.specs.Answer.{Surveys, Fillable, Decodes, refused_with, shown_of};

use super::reader::{ByteReader, ParseState};
use desk::{Refusal, Steps};

// What of a decoded NAL is to be shown. No Option: a None would not say that the NAL's own tail is.
#[derive(Clone, Copy, Debug, PartialEq, Eq)]
pub enum Decoded {
    // The NAL's own tail: nothing was removed, and the room is untouched.
    Own,
    // The first so many bytes of the room.
    Filled(usize),
}

// Why a NAL is refused: a case for each number that decode_nal gives, and no Refusal, which could be any.
#[derive(Clone, Copy, Debug, PartialEq, Eq)]
pub enum Undecoded {
    TooLong,
    Empty,
    // The forbidden byte's index in the NAL.
    Forbidden(usize),
    NoRoom,
}

impl Undecoded {
    // By a name, as `Refusal::number`.
    pub fn number(self) -> u8
        ensures { result ≡ refused_with self }
    {
        match self {
            Undecoded::TooLong => Refusal::TooLong,
            Undecoded::Empty => Refusal::EmptyNal,
            Undecoded::Forbidden(_) => Refusal::ForbiddenByte,
            Undecoded::NoRoom => Refusal::NoRoom,
        }
        .number()
    }
}

// Counts what unescaping keeps of a NAL's tail, or finds the forbidden byte.
fn survey(tail: &[u8]) -> Result<usize, usize>
    ensures { Surveys tail.now result }
{
    let mut state = ParseState::Start(0);
    let mut kept: usize = 0;
    for (i, b) in tail.iter().enumerate() {
        let s = state.step(*b).ok_or(i)?;
        state = s.after;
        kept += s.count;
    }
    Ok(kept)
}

// A tail that holds no forbidden byte, and of which `kept` bytes are kept. All are, where none was removed: so it is no length of the slice.
fn fill(nal: &[u8], room: &mut [u8], kept: usize) -> Result<Decoded, Undecoded>
    requires { Fillable nal.now room.old kept }
    ensures { Decodes nal.now room.old room.new result }
{
    if kept == nal.len() - 1 {
        return Ok(Decoded::Own);
    }
    if kept > room.len() {
        return Err(Undecoded::NoRoom);
    }
    let filled = ByteReader::skipping_h264_header().push(nal, room).unwrap();
    Ok(Decoded::Filled(filled.written))
}

// Removes the header and the emulation prevention bytes. Nothing is written before all is known to be well.
pub fn decode_nal(nal: &[u8], room: &mut [u8]) -> Result<Decoded, Undecoded>
    ensures { Decodes nal.now room.old room.new result }
{
    desk::entry(nal.len(), room.len(), 0, false).map_err(|_| Undecoded::TooLong)?;
    let (_, tail) = nal.split_first().ok_or(Undecoded::Empty)?;
    let kept = survey(tail).map_err(|i| Undecoded::Forbidden(i + 1))?;
    fill(nal, room, kept)
}

// The picker: what decode_nal's answer says is to be shown, a part of the NAL or of the room that it filled; of a refusal nothing.
pub fn shown<'a>(nal: &'a [u8], room: &'a [u8], decoded: Result<Decoded, Undecoded>) -> &'a [u8]
    ensures { result.now ≡ shown_of nal.now room.now decoded }
{
    match decoded {
        Ok(Decoded::Own) => nal.get(1..).unwrap_or(nal),
        Ok(Decoded::Filled(n)) => room.get(..n).unwrap_or(room),
        Err(_) => &nal[..0],
    }
}
