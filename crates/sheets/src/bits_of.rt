// ue(v), and finish_rbsp.
use super::say::Hex;
use bits::{BitPos, BitReader, BitWriter};
use desk::Refusal;
use std::{fmt, io};

// The first `count` bits of some bytes: a count of bits, and no length of the slice.
#[derive(Clone, Copy)]
struct Code<'a> {
    bytes: &'a [u8],
    count: usize,
}

impl fmt::Display for Code<'_> {
    fn fmt<W: fmt::Write>(&self, f: &mut fmt::Formatter<W>) -> fmt::Result {
        let mut reader = BitReader::new();
        for _ in 0..self.count {
            let Ok(bit) = reader.read_bit(self.bytes) else {
                break;
            };
            write!(f, "{}", u8::from(bit))?;
        }
        Ok(())
    }
}

fn write(value: u32, room: &mut [u8]) -> Result<(), Refusal> {
    let mut writer = BitWriter::new();
    writer.write_ue(room, value)?;
    writer.write_rbsp_trailing_bits(room)
}

// The code that write_ue gives, bit for bit, and what read_ue makes of it.
fn ue(rt: &impl Print, value: u32) -> io::Result<()> {
    let mut room = [0xAA; 16];
    print!(rt; "ue {value}: ")?;
    if write(value, &mut room).is_err() {
        return println!(rt; "refused");
    }
    let mut reader = BitReader::new();
    let Ok(back) = reader.read_ue(&room) else {
        return println!(rt; "not read");
    };
    let code = Code {
        bytes: &room,
        count: reader.at.0,
    };
    println!(rt; "{code}, read back {back}")
}

// `at` counts bits.
fn finish(rt: &impl Print, s: &[u8], at: usize) -> io::Result<()> {
    let finished = BitReader { at: BitPos(at) }.finish_rbsp(s);
    println!(rt; "finish{} at {at}: {}", Hex(s), desk::number(&finished))
}

pub fn cases(rt: &impl Print) -> io::Result<()> {
    for value in [0, 1, 2, 3, 4294967294] {
        ue(rt, value)?;
    }
    finish(rt, b"\x80\x00\x00", 0)?;
    finish(rt, b"\xC0", 0)?;
    finish(rt, b"\xC0", 1)?;
    finish(rt, b"\x00", 0)?;
    finish(rt, b"\x40", 0)
}
