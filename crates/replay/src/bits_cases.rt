// Calls 4 to 16: reads at a place, and writes by a writer with some bits pending.
use super::case::{Case, Lent};
use bits::{BitReader, BitWriter, BytePos};
use desk::Refusal;

// A value from its sign and its magnitude.
pub(crate) fn signed(negative: bool, magnitude: u32) -> i32 {
    let z = i32::try_from(magnitude).unwrap_or(0);
    if negative { z.wrapping_neg() } else { z }
}

// A read of a value: the number and the place behind it are the original's, and so is the value, which is recorded as 0 where there is none.
pub(crate) fn read_right<T, F>(case: Case, wanted: T, read: F) -> bool
where
    T: PartialEq + Drop,
    F: FnOnce(&mut BitReader) -> Result<T, Refusal>,
    requires { F.IsAlwaysCallable read }
{
    let mut reader = case.reader();
    let answer = read(&mut reader);
    case.numbered(&answer)
        && reader.at.0 == case.z as usize
        && match answer {
            Ok(value) => value == wanted,
            Err(_) => case.y == 0,
        }
}

pub(crate) fn more_right(case: Case) -> bool {
    let answer = case.reader().has_more_rbsp_data(case.input);
    case.numbered(&answer) && answer.map_or(true, |more| u32::from(more) == case.y)
}

// A write: the whole bytes, and behind a write that is done the pending bits.
pub(crate) fn write_right<F>(case: Case, lent: &mut Lent, write: F) -> bool
where
    F: FnOnce(&mut BitWriter, &mut [u8]) -> Result<(), Refusal>,
    requires { F.IsAlwaysCallable write }
{
    let room = lent.room(case.output);
    let mut writer = BitWriter {
        written: BytePos(0),
        pending: (case.b % 256) as u8,
        count: (case.a % 256) as u8,
    };
    let answer = write(&mut writer, room);
    let written = match answer {
        Ok(()) => writer.written.0,
        Err(_) => 0,
    };
    case.numbered(&answer)
        && room.get(..written) == Some(case.output)
        && (answer.is_err()
            || u32::from(writer.pending) == case.y && u32::from(writer.count) == case.z)
}
