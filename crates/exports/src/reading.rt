// Reading bits: the calls of `bits`. A reader is its place in bits, `at`. The reads are alike but for the call: each is a function of the C
// interface.
ghost use Rattle.std.specs.Prelude.{◌≡◌, ◌%◌, eqb};
ghost use Rattle.bits.specs.Reading.{reader_at, read_bits, read_bit, read_ue, read_se, skipped, has_more, finish_rbsp, finish_sei, whole_bytes};
ghost use Rattle.exports.specs.Bits.{FrontsBits, FrontsBit, FrontsMoved, FrontsSigned, FrontsMore, FrontsAligned};

use super::numbers::{field, moved, reader_at, told};
use bits::BitPos;

// BitReader::read: u(width). The answer: number, value, and the place behind it.
#[unsafe(no_mangle)]
pub extern "C" fn dampfeather_read(at: usize, s: &[u8], width: u32, answer: &mut [u64; 3])
    ensures { FrontsBits (reader_at at) (read_bits s.now at width) answer.new }
{
    let mut reader = reader_at(at);
    *answer = field(reader.read(s, width), reader);
}

// BitReader::read_ue. The answer is as read's.
#[unsafe(no_mangle)]
pub extern "C" fn dampfeather_read_ue(at: usize, s: &[u8], answer: &mut [u64; 3])
    ensures { FrontsBits (reader_at at) (read_ue s.now at) answer.new }
{
    let mut reader = reader_at(at);
    *answer = field(reader.read_ue(s), reader);
}

// BitReader::read_bit. The answer is as read's.
#[unsafe(no_mangle)]
pub extern "C" fn dampfeather_read_bit(at: usize, s: &[u8], answer: &mut [u64; 3])
    ensures { FrontsBit (reader_at at) (read_bit s.now at) answer.new }
{
    let mut reader = reader_at(at);
    *answer = field(reader.read_bit(s), reader);
}

// BitReader::skip. The answer: number, and the place behind what was skipped.
#[unsafe(no_mangle)]
pub extern "C" fn dampfeather_skip(at: usize, s: &[u8], bit_count: u32, answer: &mut [u64; 2])
    ensures { FrontsMoved (reader_at at) (skipped s.now at bit_count) answer.new }
{
    let mut reader = reader_at(at);
    *answer = moved(&reader.skip(s, bit_count), reader);
}

// BitReader::read_se. The answer: number, and the place behind the value. A refusal leaves the value as it came.
#[unsafe(no_mangle)]
pub extern "C" fn dampfeather_read_se(at: usize, s: &[u8], value: &mut i32, answer: &mut [u64; 2])
    ensures { FrontsSigned (reader_at at) (read_se s.now at) value.old value.new answer.new }
{
    let mut reader = reader_at(at);
    let read = reader.read_se(s);
    *answer = moved(&read, reader);
    if let Ok(signed) = read {
        *value = signed;
    }
}

// BitReader::has_more_rbsp_data. The answer: number, and 1 for yes.
#[unsafe(no_mangle)]
pub extern "C" fn dampfeather_has_more_rbsp_data(at: usize, s: &[u8], answer: &mut [u64; 2])
    ensures { FrontsMore (has_more s.now at) answer.new }
{
    *answer = told(reader_at(at).has_more_rbsp_data(s));
}

// BitReader::finish_rbsp, its number.
#[unsafe(no_mangle)]
pub extern "C" fn dampfeather_finish_rbsp(at: usize, s: &[u8]) -> u8
    ensures { result ≡ finish_rbsp s.now at }
{
    desk::number(&reader_at(at).finish_rbsp(s))
}

// BitReader::finish_sei_payload, its number.
#[unsafe(no_mangle)]
pub extern "C" fn dampfeather_finish_sei_payload(at: usize, s: &[u8]) -> u8
    ensures { result ≡ finish_sei s.now at }
{
    desk::number(&reader_at(at).finish_sei_payload(s))
}

// BitReader::byte_aligned.
#[unsafe(no_mangle)]
pub extern "C" fn dampfeather_byte_aligned(at: usize) -> bool
    ensures { result ≡ eqb (at % 8) 0 }
{
    reader_at(at).byte_aligned()
}

// BitPos::byte. The answer: 1 where a byte starts there, and its place.
#[unsafe(no_mangle)]
pub extern "C" fn dampfeather_byte_of(at: usize, answer: &mut [u64; 2])
    ensures { FrontsAligned (whole_bytes at) answer.new }
{
    *answer = match BitPos(at).byte() {
        Some(byte) => [1, byte.0 as u64],
        None => [0, 0],
    };
}
