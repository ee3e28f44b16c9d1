// Call 3: a stream by two pushes, and a reset.
use super::bytes::{cut, half};
use super::case::{Case, Lent};
use annexb::{AnnexBReader, Pushed};

// What was given so far, bytes and units, and the recorded ends of the units that are still to come, each of 16 bits.
#[derive(Clone, Copy)]
struct Given<'a> {
    bytes: usize,
    units: usize,
    ends: &'a [u8],
}

impl Given<'_> {
    // The marks of a call are the ends that come next; None where they are not. `cuts` has its like: two programs, each whole by itself.
    fn more(&mut self, p: Pushed, marks: &[u64]) -> Option<()> {
        let before = self.bytes as u64;
        for mark in marks.get(..p.marked)? {
            let (end, later) = cut(self.ends, 2);
            if before.wrapping_add(*mark) != u64::from(half(end)) {
                return None;
            }
            self.ends = later;
        }
        self.bytes = self.bytes.saturating_add(p.written);
        self.units = self.units.saturating_add(p.marked);
        Some(())
    }
}

// None where a call gives other than what is recorded.
fn run(case: Case, lent: &mut Lent) -> Option<()> {
    let (bytes, ends) = cut(case.output, case.y as usize);
    let (room, marks) = lent.room_and_marks(bytes, case.x as usize);
    let mut reader = AnnexBReader::new();
    let mut given = Given {
        bytes: 0,
        units: 0,
        ends,
    };
    let (one, two) = cut(case.input, case.b as usize);
    for part in [one, two] {
        let p = reader.push(part, room.get_mut(given.bytes..)?, marks).ok()?;
        given.more(p, marks)?;
        if p.taken != part.len() {
            return None;
        }
    }
    let p = reader.reset(room.get_mut(given.bytes..)?, marks).ok()?;
    given.more(p, marks)?;
    let all = given.units == case.x as usize && given.bytes == case.y as usize;
    (all && room.get(..given.bytes)? == bytes).then_some(())
}

pub(crate) fn right(case: Case, lent: &mut Lent) -> bool {
    run(case, lent).is_some()
}
