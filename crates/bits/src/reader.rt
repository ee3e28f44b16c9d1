// Reading.
ghost use Rattle.std.specs.Prelude.{◌≡◌, ◌%◌, eqb};
ghost use Rattle.desk.specs.Refusing.{answered};
ghost use Rattle.bits.specs.Answer.{new_reader, past_end, entry_at, Reads, read_bits, read_bit, read_ue, read_se, skipped, told_by, has_more};
ghost use Rattle.bits.specs.Answer.{finish_rbsp, finish_sei};

use super::golomb::signed_of;
use super::places::{bits_at, first_one, last_one};
use super::{BitPos, BitReader};
use desk::Refusal;

impl BitReader {
    pub fn new() -> Self
        ensures { result ≡ new_reader }
    {
        BitReader { at: BitPos(0) }
    }

    // Is the position past the end?
    pub fn past_end(self, s: &[u8]) -> bool
        ensures { result ≡ past_end s.now self.at.0 }
    {
        s.len() < self.at.next_byte().0
    }

    // The checks that every call makes first.
    fn entry(self, s: &[u8]) -> Result<(), Refusal>
        ensures { answered result ≡ entry_at s.now self.at.0 }
    {
        desk::entry(s.len(), 0, 0, self.past_end(s))
    }

    // u(n), n from 0 to 32.
    #[tactic(auto, using(crate::proofs::Entry::entered), unfolding(crate::specs::Answer::read_bits))]
    pub fn read(&mut self, s: &[u8], width: u32) -> Result<u32, Refusal>
        ensures { Reads self.old self.new result (read_bits s.now self.old.at.0 width) }
    {
        self.entry(s)?;
        if width > 32 {
            return Err(Refusal::BadWidth);
        }
        let n = width as usize;
        let next = self.at.0 + n;
        if next > 8 * s.len() {
            return Err(Refusal::BitsRunOut);
        }
        let bits = bits_at(s, self.at, n);
        self.at = BitPos(next);
        Ok(bits)
    }

    #[tactic(auto, unfolding(crate::specs::Answer::read_bit))]
    pub fn read_bit(&mut self, s: &[u8]) -> Result<bool, Refusal>
        ensures { Reads self.old self.new result (read_bit s.now self.old.at.0) }
    {
        Ok(self.read(s, 1)? == 1)
    }

    // ue(v). A one after 32 zeros or more is too large even where the bits run out behind it; with no one at all they run out.
    #[tactic(auto, using(crate::proofs::Ones::code_reading), unfolding(crate::specs::Answer::read_ue))]
    pub fn read_ue(&mut self, s: &[u8]) -> Result<u32, Refusal>
        ensures { Reads self.old self.new result (read_ue s.now self.old.at.0) }
    {
        self.entry(s)?;
        let one = first_one(s, self.at).ok_or(Refusal::BitsRunOut)?.0;
        let zeros = one - self.at.0;
        if zeros > 31 {
            return Err(Refusal::ExpGolombTooLarge);
        }
        let next = one + 1 + zeros;
        if next > 8 * s.len() {
            return Err(Refusal::BitsRunOut);
        }
        let value = (1u32 << zeros) - 1 + bits_at(s, BitPos(one + 1), zeros);
        self.at = BitPos(next);
        Ok(value)
    }

    // se(v).
    #[tactic(auto, unfolding(crate::specs::Answer::read_se))]
    pub fn read_se(&mut self, s: &[u8]) -> Result<i32, Refusal>
        ensures { Reads self.old self.new result (read_se s.now self.old.at.0) }
    {
        Ok(signed_of(self.read_ue(s)?))
    }

    #[tactic(auto, using(crate::proofs::Entry::entered), unfolding(crate::specs::Answer::skipped))]
    pub fn skip(&mut self, s: &[u8], bit_count: u32) -> Result<(), Refusal>
        ensures { Reads self.old self.new result (skipped s.now self.old.at.0 bit_count) }
    {
        self.entry(s)?;
        let next = self.at.0 + bit_count as usize;
        if next > 8 * s.len() {
            return Err(Refusal::BitsRunOut);
        }
        self.at = BitPos(next);
        Ok(())
    }

    pub fn byte_aligned(self) -> bool
        ensures { result ≡ eqb (self.at.0 % 8) 0 }
    {
        self.at.0 % 8 == 0
    }

    // Is the place before the trailing bits (Rec 7.2, more_rbsp_data)?
    #[tactic(auto, using(crate::proofs::Entry::entered, crate::proofs::Ones::behind_is), unfolding(crate::specs::Answer::has_more))]
    pub fn has_more_rbsp_data(self, s: &[u8]) -> Result<bool, Refusal>
        ensures { told_by result ≡ has_more s.now self.at.0 }
    {
        self.entry(s)?;
        Ok(last_one(s).is_some_and(|last| self.at.0 < last.0))
    }

    // Done where the place is that of the stop bit.
    #[tactic(auto, using(crate::proofs::Ones::finishing), unfolding(crate::specs::Answer::finish_rbsp))]
    pub fn finish_rbsp(self, s: &[u8]) -> Result<(), Refusal>
        ensures { answered result ≡ finish_rbsp s.now self.at.0 }
    {
        self.entry(s)?;
        match last_one(s) {
            Some(last) if self.at.0 < last.0 => Err(Refusal::RemainingData),
            Some(last) if last == self.at => Ok(()),
            _ => Err(Refusal::BitsRunOut),
        }
    }

    // The same, and done at the end of the data: an SEI payload that ends on a byte has no trailing bits.
    #[tactic(auto, using(crate::proofs::Ones::finishing), unfolding(crate::specs::Answer::finish_sei))]
    pub fn finish_sei_payload(self, s: &[u8]) -> Result<(), Refusal>
        ensures { answered result ≡ finish_sei s.now self.at.0 }
    {
        self.entry(s)?;
        if self.at.0 == 8 * s.len() || last_one(s) == Some(self.at) {
            return Ok(());
        }
        Err(Refusal::RemainingData)
    }
}
