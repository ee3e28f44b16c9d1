// AnnexBReader: a push of the whole stream, then a reset.
use super::say::{Hex, front};
use annexb::AnnexBReader;
use std::io;

fn unit(rt: &impl Print, bytes: &[u8]) -> io::Result<()> {
    print!(rt; " [{} ]", Hex(bytes))
}

fn stream(rt: &impl Print, s: &[u8]) -> io::Result<()> {
    let mut room = [0xAA; 64];
    let mut marks = [0; 8];
    let mut reader = AnnexBReader::new();
    print!(rt; "stream{}:", Hex(s))?;
    let Ok(p) = reader.push(s, &mut room, &mut marks) else {
        return println!(rt; " refused");
    };
    let mut from = 0;
    for end in front(&marks, p.marked) {
        let end = *end as usize;
        unit(rt, room.get(from..end).unwrap_or_default())?;
        from = end;
    }
    if reader.in_unit {
        print!(rt; " open")?;
        unit(rt, room.get(from..p.written).unwrap_or_default())?;
        print!(rt; " and held {}", reader.zeros)?;
    } else {
        print!(rt; " none open")?;
    }
    let Ok(p) = reader.reset(&mut room, &mut marks) else {
        return println!(rt; " refused");
    };
    println!(rt;
        ", reset gives{}, marks {}",
        Hex(front(&room, p.written)),
        p.marked
    )
}

pub fn cases(rt: &impl Print) -> io::Result<()> {
    stream(rt, b"\x00\x00\x01\x00\x00\x01")?;
    stream(rt, b"\x00\x00\x01\x68\x00\x00")?;
    stream(rt, b"\x00\x00\x01\x68\x00\x00\x00\x00\x01")
}
