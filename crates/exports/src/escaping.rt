// Escaping: the calls of `rbsp`.
ghost use Rattle.std.specs.Prelude.{◌≡◌};
ghost use Rattle.exports.specs.Escaping.{reader_of, state_numbers, stop_numbers, FrontsRead, writer_of, FrontsWrite, decode_numbers, FrontsDecode};

use super::numbers::pushed;
use desk::{Pushed, Refusal};
use rbsp::nal::{Decoded, Undecoded, decode_nal};
use rbsp::reader::{ByteReader, ParseState, Stopped};
use rbsp::writer::ByteWriter;

// Any three numbers are a state.
fn reader_of(zeros: u8, skip: usize, post_three: bool) -> ByteReader
    ensures { result.state ≡ reader_of zeros skip post_three }
{
    let state = match (post_three, skip) {
        (true, _) => ParseState::PostThree,
        (false, 0) => ParseState::Start(zeros),
        (false, _) => ParseState::Skip(skip),
    };
    ByteReader { state }
}

fn state_numbers(state: ParseState) -> [u64; 3]
    ensures { result ≡ state_numbers state }
{
    match state {
        ParseState::Start(zeros) => [u64::from(zeros), 0, 0],
        ParseState::Skip(left) => [0, left as u64, 0],
        ParseState::PostThree => [0, 0, 1],
    }
}

// The number, the bytes taken and the bytes written.
fn stop_numbers(answer: Result<Pushed, Stopped>) -> [u64; 3]
    ensures { result ≡ stop_numbers answer }
{
    match answer {
        Ok(all) => [0, all.taken as u64, all.written as u64],
        Err(Stopped::Refused(why)) => [u64::from(why.number()), 0, 0],
        Err(Stopped::Forbidden(before)) => [
            u64::from(Refusal::ForbiddenByte.number()),
            before.taken as u64,
            before.written as u64,
        ],
    }
}

// ByteReader::push. The answer: number, bytes taken, bytes written, and the state: zeros, bytes yet to drop, 1 behind a removed 03. Where no byte was
// taken, the numbers of the state go out as they came in.
#[unsafe(no_mangle)]
pub extern "C" fn dampfeather_byte_reader_push(
    zeros: u8,
    skip: usize,
    post_three: bool,
    chunk: &[u8],
    out: &mut [u8],
    answer: &mut [u64; 6],
)
    ensures { FrontsRead zeros skip post_three chunk.now out.old out.new answer.new }
{
    let mut reader = reader_of(zeros, skip, post_three);
    let [number, taken, written] = stop_numbers(reader.push(chunk, out));
    let [zeros, skip, post_three] = if taken == 0 {
        [u64::from(zeros), skip as u64, u64::from(post_three)]
    } else {
        state_numbers(reader.state)
    };
    *answer = [number, taken, written, zeros, skip, post_three];
}

// ByteWriter::push. The answer: number, bytes taken, bytes written, and the state's zeros.
#[unsafe(no_mangle)]
pub extern "C" fn dampfeather_byte_writer_push(
    zero_count: u8,
    chunk: &[u8],
    out: &mut [u8],
    answer: &mut [u64; 4],
)
    ensures { FrontsWrite (writer_of zero_count) chunk.now out.old out.new answer.new }
{
    let mut writer = ByteWriter { zero_count };
    let [number, taken, written, _] = pushed(writer.push(chunk, out));
    *answer = [number, taken, written, u64::from(writer.zero_count)];
}

fn decode_numbers(answer: Result<Decoded, Undecoded>) -> [u64; 3]
    ensures { result ≡ decode_numbers answer }
{
    match answer {
        Ok(Decoded::Own) => [0, 0, 0],
        Ok(Decoded::Filled(n)) => [0, 1, n as u64],
        Err(Undecoded::Forbidden(i)) => [u64::from(Refusal::ForbiddenByte.number()), 0, i as u64],
        Err(why) => [u64::from(why.number()), 0, 0],
    }
}

// decode_nal. The answer: number; 1 where the room was filled, 0 where the NAL's own tail is to be shown; and how many bytes were filled, or for 7
// the byte's index.
#[unsafe(no_mangle)]
pub extern "C" fn dampfeather_decode_nal(nal: &[u8], room: &mut [u8], answer: &mut [u64; 3])
    ensures { FrontsDecode nal.now room.old room.new answer.new }
{
    *answer = decode_numbers(decode_nal(nal, room));
}
