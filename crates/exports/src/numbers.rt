// The numbers that the answers of several calls have.
ghost use Rattle.std.specs.Prelude.{◌≡◌};
ghost use Rattle.bits.specs.Reading.{reader_at};
ghost use Rattle.exports.specs.Bits.{moved_numbers, ToldNumbers, FieldNumbers};
ghost use Rattle.exports.specs.Fronts.{push_numbers};

use bits::{BitPos, BitReader};
use desk::{Pushed, Refusal};

// Of a push: the number, and the bytes taken, the bytes written and the marks written, which of a refusal are 0.
pub fn pushed(answer: Result<Pushed, Refusal>) -> [u64; 4]
    ensures { result ≡ push_numbers answer }
{
    match answer {
        Ok(p) => [0, p.taken as u64, p.written as u64, p.marked as u64],
        Err(why) => [u64::from(why.number()), 0, 0, 0],
    }
}

pub fn reader_at(at: usize) -> BitReader
    ensures { result ≡ reader_at at }
{
    BitReader { at: BitPos(at) }
}

// Of what is told: the number, and the value, which of a refusal is 0.
pub fn told<T: Into<u64>>(answer: Result<T, Refusal>) -> [u64; 2]
    ensures { ToldNumbers T.converts answer result }
{
    let number = u64::from(desk::number(&answer));
    [number, answer.map_or(0, T::into)]
}

// Of what moves a reader: the number, and the place behind it.
pub fn moved<T>(answer: &Result<T, Refusal>, reader: BitReader) -> [u64; 2]
    ensures { result ≡ moved_numbers answer.now reader }
{
    [u64::from(desk::number(answer)), reader.at.0 as u64]
}

// Of a field: the number, the value, and the place behind it.
pub fn field<T: Into<u64>>(answer: Result<T, Refusal>, reader: BitReader) -> [u64; 3]
    ensures { FieldNumbers T.converts answer reader result }
{
    let [number, value] = told(answer);
    let place = reader.at.0 as u64;
    [number, value, place]
}
