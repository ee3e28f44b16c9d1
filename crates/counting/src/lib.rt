// The lengths of units, by the marks that framing gives.
#![tactic(auto)]

ghost use Rattle.std.specs.Prelude.{◌≡◌};
ghost use Rattle.counting.specs.Tally.{lengths, last_of, nothing, Tallied};

// The units that ended so far, and the bytes of the open unit that were given so far. Both are exact below 2^64, and modulo 2^64 from there on.
#[derive(Clone, Copy, Debug, PartialEq, Eq)]
pub struct Tally {
    pub units: u64,
    pub bytes: u64,
}

// Puts the distance of each mark from the one before it in its place, the first one's from `start`; answers the last mark.
fn distances(marks: &mut [u64], start: u64) -> u64
    ensures put { marks.new ≡ lengths start marks.old }
    ensures last { result ≡ last_of start marks.old }
{
    let mut last = start;
    for mark in marks.iter_mut() {
        let end = *mark;
        *mark = end.wrapping_sub(last);
        last = end;
    }
    last
}

impl Tally {
    pub fn new() -> Tally
        ensures { result ≡ nothing }
    {
        Tally { units: 0, bytes: 0 }
    }

    // After a call of the reader that gave `written` bytes and `marked` marks: puts the length of each unit that ended in place of its mark.
    // The open unit started `bytes` bytes before the call's first byte, so its own distance is from 0 - bytes.
    // `marked` stands beside the marks, since `Tallied` promises an answer for any number.
    pub fn tally(&mut self, marks: &mut [u64], marked: usize, written: usize)
        ensures { Tallied self.old marks.old marked written marks.new self.new }
    {
        let count = marked.min(marks.len());
        let start = 0u64.wrapping_sub(self.bytes);
        let last = distances(&mut marks[..count], start);
        self.units = self.units.wrapping_add(count as u64);
        self.bytes = (written as u64).wrapping_sub(last);
    }
}
