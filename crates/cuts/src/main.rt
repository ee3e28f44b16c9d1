// The example of src/annexb.rs through the compiled code: units of 25 and 7 bytes, the second closed by a reset. Under every placing of up to three
// cuts, and byte by byte; each with every room from 3 bytes and 1 mark up to all 32 bytes and both marks. It counts cases and differences.
#![tactic(auto)]

ghost use Rattle.std.specs.Iterator.{IsFinite};

use annexb::{AnnexBReader, Pushed};
use std::io;

const STREAM: &[u8] =
    b"\x00\x00\x01\x67\x64\x00\x0A\xAC\x72\x84\x44\x26\x84\x00\x00\x03\x00\x04\x00\x00\x03\x00\xCA\x3C\x48\x96\x11\x80\
    \x00\x00\x01\x68\xE8\x43\x8F\x13\x21\x30";

const UNITS: &[u8] =
    b"\x67\x64\x00\x0A\xAC\x72\x84\x44\x26\x84\x00\x00\x03\x00\x04\x00\x00\x03\x00\xCA\x3C\x48\x96\x11\x80\x68\xE8\x43\x8F\x13\x21\x30";

// A reader under way and what it is lent; how many bytes it has given, and what it is still to give, bytes and ends of units. Each call answers None
// where it differs.
#[derive(Drop)]
struct Run<'a, 'b> {
    reader: AnnexBReader,
    room: &'a mut [u8],
    marks: &'a mut [u64],
    given: u64,
    bytes: &'b [u8],
    ends: &'b [u64],
}

impl<'a, 'b> Run<'a, 'b> {
    fn new(room: &'a mut [u8], marks: &'a mut [u64], ends: &'b [u64]) -> Run<'a, 'b> {
        Run {
            reader: AnnexBReader::new(),
            room,
            marks,
            given: 0,
            bytes: UNITS,
            ends,
        }
    }

    // The marks and the bytes of a call are those that come next. `replay` has its like: two programs, each whole by itself.
    fn compare(&mut self, p: Pushed) -> Option<()> {
        let before = self.given;
        let (ends, later) = self.ends.split_at_checked(p.marked)?;
        let mut pairs = self.marks.get(..p.marked)?.iter().zip(ends);
        if !pairs.all(|(mark, end)| before.wrapping_add(*mark) == *end) {
            return None;
        }
        self.ends = later;
        let bytes = self.bytes;
        self.bytes = bytes.strip_prefix(self.room.get(..p.written)?)?;
        self.given = before.wrapping_add(p.written as u64);
        Some(())
    }

    // Pushes a piece until all of it is taken. With these rooms each push takes a byte at least. No `for`: how much it takes, only the push tells.
    fn push(&mut self, piece: &[u8]) -> Option<()> {
        let mut left = piece;
        while !left.is_empty() {
            let p = self.reader.push(left, self.room, self.marks).ok()?;
            if p.taken == 0 {
                return None;
            }
            self.compare(p)?;
            left = left.get(p.taken..)?;
        }
        Some(())
    }

    // The stream in these pieces, and a reset: all bytes and ends are given, and the state is a new one.
    fn whole<'s, I: Iterator<Item = &'s [u8]> + Drop>(&mut self, pieces: I) -> Option<()>
        requires next { I.can_next pieces }
        requires ends { IsFinite (I.remaining pieces) }
    {
        for piece in pieces {
            self.push(piece)?;
        }
        let p = self.reader.reset(self.room, self.marks).ok()?;
        self.compare(p)?;
        let all = self.bytes.is_empty() && self.ends.is_empty();
        (all && self.reader == AnnexBReader::new()).then_some(())
    }
}

#[derive(Clone, Copy, Default)]
struct Counts {
    cases: u64,
    differences: u64,
}

impl Counts {
    fn count(&mut self, case: Option<()>) {
        self.cases = self.cases.saturating_add(1);
        if case.is_none() {
            self.differences = self.differences.saturating_add(1);
        }
    }

    // Byte by byte, and then all placings of the cuts: in fewer pieces where two of them are equal, or one is at an end.
    fn every_cutting(&mut self, room: &mut [u8], marks: &mut [u64], ends: &[u64]) {
        self.count(Run::new(room, marks, ends).whole(STREAM.chunks(1)));
        let all = STREAM.len();
        for a in 0..=all {
            for b in a..=all {
                for c in b..=all {
                    let pieces = [&STREAM[..a], &STREAM[a..b], &STREAM[b..c], &STREAM[c..]];
                    self.count(Run::new(room, marks, ends).whole(pieces.into_iter()));
                }
            }
        }
    }
}

// Every case, where the units are to end at these places.
fn every_case(ends: &[u64]) -> Counts {
    let mut room = [0; UNITS.len()];
    let mut marks = [0; 2];
    let mut counts = Counts::default();
    for bytes in 3..=room.len() {
        for units in 1..=marks.len() {
            counts.every_cutting(&mut room[..bytes], &mut marks[..units], ends);
        }
    }
    counts
}

// The last line is what the comparison makes of an answer that is wrong by one: every case differs.
fn main(rt: HostRuntime) -> io::Result<()> {
    let counts = every_case(&[25, 32]);
    println!(rt; "cases {}", counts.cases)?;
    println!(rt; "differences {}", counts.differences)?;
    let altered = every_case(&[25, 31]);
    println!(rt;
        "differences from an answer altered by one {}",
        altered.differences
    )
}
