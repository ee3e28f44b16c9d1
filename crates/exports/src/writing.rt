// Writing bits: the calls of `bits`. A writer is the count of bytes written, the pending bits as a number, and their count. The five writes are alike
// but for the call: each is a function of the C interface.
ghost use Rattle.std.specs.Prelude.{◌≡◌, eqb};
ghost use Rattle.bits.specs.Reading.{mapped};
ghost use Rattle.bits.specs.Writing.{writer, write_bits, write_bit, write_ue, write_se, write_trailing};
ghost use Rattle.exports.specs.Bits.{put_numbers, FrontsPut, FrontsMapped};

use bits::{BitWriter, BytePos, golomb_to_signed};
use desk::Refusal;

fn writer_of(written: usize, pending: u8, count: u8) -> BitWriter
    ensures { result ≡ writer written pending count }
{
    BitWriter {
        written: BytePos(written),
        pending,
        count,
    }
}

fn put(answer: Result<(), Refusal>, writer: BitWriter) -> [u64; 4]
    ensures { result ≡ put_numbers answer writer }
{
    [
        u64::from(desk::number(&answer)),
        writer.written.0 as u64,
        u64::from(writer.pending),
        u64::from(writer.count),
    ]
}

// BitWriter::write: u(width) of value. The answer: number, and the writer: bytes written, pending bits, their count.
#[unsafe(no_mangle)]
pub extern "C" fn dampfeather_write(
    written: usize,
    pending: u8,
    count: u8,
    out: &mut [u8],
    width: u32,
    value: u32,
    answer: &mut [u64; 4],
)
    ensures { FrontsPut written pending count out.new (λ from. write_bits out.old from width value)
        answer.new }
{
    let mut writer = writer_of(written, pending, count);
    *answer = put(writer.write(out, width, value), writer);
}

// BitWriter::write_bit. The answer is as write's.
#[unsafe(no_mangle)]
pub extern "C" fn dampfeather_write_bit(
    written: usize,
    pending: u8,
    count: u8,
    out: &mut [u8],
    bit: bool,
    answer: &mut [u64; 4],
)
    ensures { FrontsPut written pending count out.new (λ from. write_bit out.old from bit) answer.new }
{
    let mut writer = writer_of(written, pending, count);
    *answer = put(writer.write_bit(out, bit), writer);
}

// BitWriter::write_ue. The answer is as write's.
#[unsafe(no_mangle)]
pub extern "C" fn dampfeather_write_ue(
    written: usize,
    pending: u8,
    count: u8,
    out: &mut [u8],
    value: u32,
    answer: &mut [u64; 4],
)
    ensures { FrontsPut written pending count out.new (λ from. write_ue out.old from value) answer.new }
{
    let mut writer = writer_of(written, pending, count);
    *answer = put(writer.write_ue(out, value), writer);
}

// BitWriter::write_se. The answer is as write's.
#[unsafe(no_mangle)]
pub extern "C" fn dampfeather_write_se(
    written: usize,
    pending: u8,
    count: u8,
    out: &mut [u8],
    value: i32,
    answer: &mut [u64; 4],
)
    ensures { FrontsPut written pending count out.new (λ from. write_se out.old from value) answer.new }
{
    let mut writer = writer_of(written, pending, count);
    *answer = put(writer.write_se(out, value), writer);
}

// BitWriter::write_rbsp_trailing_bits. The answer is as write's.
#[unsafe(no_mangle)]
pub extern "C" fn dampfeather_write_rbsp_trailing_bits(
    written: usize,
    pending: u8,
    count: u8,
    out: &mut [u8],
    answer: &mut [u64; 4],
)
    ensures { FrontsPut written pending count out.new (λ from. write_trailing out.old from) answer.new }
{
    let mut writer = writer_of(written, pending, count);
    *answer = put(writer.write_rbsp_trailing_bits(out), writer);
}

// BitWriter::byte_aligned.
#[unsafe(no_mangle)]
pub extern "C" fn dampfeather_writer_byte_aligned(written: usize, pending: u8, count: u8) -> bool
    ensures { result ≡ eqb count 0 }
{
    writer_of(written, pending, count).byte_aligned()
}

// golomb_to_signed, its number. A refusal leaves the value as it came.
#[unsafe(no_mangle)]
pub extern "C" fn dampfeather_golomb_to_signed(val: u32, value: &mut i32) -> u8
    ensures { FrontsMapped (mapped val) value.old value.new result }
{
    let mapped = golomb_to_signed(val);
    if let Ok(signed) = mapped {
        *value = signed;
    }
    desk::number(&mapped)
}
