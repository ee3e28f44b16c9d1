// What stands at the places of a slice: the value of some bits, the first one and the last one.
ghost use Rattle.std.specs.Prelude.{◌≡◌, ◌+◌, ◌-◌, ◌*◌, ◌/◌, ◌%◌, ◌≤◌, ◌<◌, length, MatchOption, EachIndex, slice_index};
ghost use Rattle.std.specs.Int.Count.{count_leading_zeros};
ghost use Rattle.desk.specs.Numbers.{most};
ghost use Rattle.bits.specs.Rule.{size, value_at, first_one, last_one};
ghost use Rattle.bits.specs.Step.{place, FirstNonzero, LastNonzero};
ghost use Rattle.bits.specs.Answer.{whole_bytes, aligned_back};
ghost use Rattle.bits.specs.Reading.{Entered};

use super::{BitPos, BytePos};

impl BitPos {
    // The byte that starts here, if one does.
    pub fn byte(self) -> Option<BytePos>
        ensures { result ≡ aligned_back (whole_bytes self.0) }
    {
        if self.0 % 8 != 0 {
            return None;
        }
        Some(BytePos(self.0 / 8))
    }

    // The byte that the bit here lies in.
    pub(crate) fn holder(self) -> BytePos
        ensures { result.0 ≡ self.0 / 8 }
    {
        BytePos(self.0 / 8)
    }

    // The first byte that starts here or later. Nothing wraps, wherever the place is.
    pub(crate) fn next_byte(self) -> BytePos
        ensures { result.0 ≡ self.0 / 8 + (self.0 % 8 + 7) / 8 }
    {
        BytePos(self.0.div_ceil(8))
    }
}

// Up to five bytes as one number.
#[tactic(auto, using(crate::proofs::Value::value_zero, crate::proofs::Value::value_more, crate::proofs::Value::value_small))]
fn gather(bytes: &[u8]) -> u64
    requires { length bytes.now ≤ 5 }
    ensures { result ≡ value_at bytes.now 0 (8 * length bytes.now) }
{
    let mut all: u64 = 0;
    for b in bytes {
        all = all * 256 + u64::from(*b);
    }
    all
}

// The n bits from a place on.
pub(crate) fn bits_at(s: &[u8], at: BitPos, n: usize) -> u32
    requires { Entered s.now (at.0 + n) × (n ≤ 32) }
    ensures { result ≡ value_at s.now at.0 n }
{
    let end = BitPos(at.0 + n);
    let to = end.next_byte();
    let all = gather(&s[at.holder().0..to.0]);
    let below = 8 * to.0 - end.0;
    ((all >> below) & ((1u64 << n) - 1)) as u32
}

// The place of the highest one of b, which is a byte, or the last bits of it.
fn top_place(byte: BytePos, b: u8) -> BitPos
    requires { byte.0 ≤ most }
    ensures { result.0 ≡ 8 * byte.0 + count_leading_zeros 8 b }
{
    BitPos(8 * byte.0 + b.leading_zeros() as usize)
}

// The first byte that is not zero, if there is one.
fn first_nonzero(s: &[u8]) -> Option<usize>
    ensures { MatchOption result (EachIndex s.now (λ k. slice_index s.now k ≡ 0)) (λ i. FirstNonzero s.now i) }
{
    s.iter().position(|b| *b != 0)
}

// The last byte that is not zero, if there is one.
fn last_nonzero(s: &[u8]) -> Option<usize>
    ensures { MatchOption result (EachIndex s.now (λ k. slice_index s.now k ≡ 0)) (λ i. LastNonzero s.now i) }
{
    s.iter().rposition(|b| *b != 0)
}

// The place of the first one from a place on, if there is one.
pub(crate) fn first_one(s: &[u8], at: BitPos) -> Option<BitPos>
    requires { Entered s.now at.0 }
    ensures { place result ≡ first_one s.now at.0 (size s.now - at.0) }
{
    let holder = at.holder();
    if holder.0 == s.len() {
        return None;
    }
    let head = bits_at(s, at, 8 - at.0 % 8) as u8;
    if head != 0 {
        return Some(top_place(holder, head));
    }
    let behind = holder.0 + 1;
    let i = behind + first_nonzero(&s[behind..])?;
    Some(top_place(BytePos(i), s[i]))
}

// The place of the last one, if there is one. The search starts at the end, where the stop bit is.
pub(crate) fn last_one(s: &[u8]) -> Option<BitPos>
    requires { length s.now ≤ most }
    ensures { place result ≡ last_one s.now 0 (size s.now) }
{
    let i = last_nonzero(s)?;
    Some(BitPos(8 * i + 7 - s[i].trailing_zeros() as usize))
}
