// decode_nal and ByteWriter.
use super::say::{Hex, front};
use rbsp::nal::{Decoded, Undecoded, decode_nal, shown};
use rbsp::writer::ByteWriter;
use std::io;

fn nal(rt: &impl Print, nal: &[u8]) -> io::Result<()> {
    let mut room = [0xAA; 16];
    let decoded = decode_nal(nal, &mut room);
    print!(rt; "nal{}: ", Hex(nal))?;
    match decoded {
        Ok(Decoded::Own) => print!(rt; "0, own tail")?,
        Ok(Decoded::Filled(_)) => print!(rt; "0, room")?,
        Err(Undecoded::Forbidden(at)) => print!(rt; "7, place {at}")?,
        Err(other) => print!(rt; "{}", other.number())?,
    }
    println!(rt; "{}", Hex(shown(nal, &room, decoded)))
}

fn escape(rt: &impl Print, rbsp: &[u8]) -> io::Result<()> {
    let mut room = [0xAA; 16];
    print!(rt; "escape{}:", Hex(rbsp))?;
    match ByteWriter::new().push(rbsp, &mut room) {
        Ok(p) => println!(rt; "{}", Hex(front(&room, p.written))),
        Err(refusal) => println!(rt; " refused, {}", refusal.number()),
    }
}

pub fn cases(rt: &impl Print) -> io::Result<()> {
    nal(rt, b"\x68\x12\x34\x00\x00\x03\x00\x86")?;
    nal(rt, b"\x68\xE8\x43\x8F\x13\x21\x30")?;
    nal(rt, b"\x68\x12\x34\x00\x00\x00\x86")?;
    nal(rt, b"\x68\x00\x00\x03")?;
    nal(rt, b"\x68\x00\x00\x03\x04")?;
    nal(rt, b"\x68")?;
    nal(rt, b"")?;
    escape(rt, b"\x00\x00\x00\x00\x00")?;
    escape(rt, b"\x00\x00\x03")
}
