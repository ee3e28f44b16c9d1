// Writing. The room is lent to each call, which hands over whole bytes and keeps the bits that are left.
ghost use Rattle.std.specs.Prelude.{◌≡◌, ◌+◌, ◌-◌, ◌*◌, ◌/◌, ◌^◌, ◌≤◌, ◌<◌, length, ltb, eqb};
ghost use Rattle.desk.specs.Numbers.{most};
ghost use Rattle.desk.specs.Refusing.{answered};
ghost use Rattle.bits.specs.Step.{filled, wrote, whole_with, stored, Good, HasRoom};
ghost use Rattle.bits.specs.Answer.{new_writer, bad_writer, entry_on, roomed, ue_width, write_bits, write_bit, write_ue, write_se};
ghost use Rattle.bits.specs.Answer.{write_trailing, Writes};

use super::golomb::{prefix_len, unsigned_of};
use super::{BitWriter, BytePos};
use desk::Refusal;

// The K low bytes of y, from a place on. K is known to the compiler: a copy of as many bytes as only a run tells is a call, of a name that the
// archive for C would need from outside.
fn low_bytes<const K: usize>(out: &mut [u8], at: BytePos, y: u64)
    requires { (at.0 + K ≤ length out.old) × (K ≤ 8) × (length out.old ≤ most) }
    ensures { out.new ≡ filled out.old at.0 K y }
{
    let bytes = y.to_be_bytes();
    out[at.0..at.0 + K].copy_from_slice(&bytes[8 - K..]);
}

// The k low bytes of y, from a place on. The place and the count stand beside the room, since the rule speaks of all of it.
fn fill(out: &mut [u8], at: BytePos, k: usize, y: u64)
    requires { (at.0 + k ≤ length out.old) × (k ≤ 5) × (length out.old ≤ most) }
    ensures { out.new ≡ filled out.old at.0 k y }
{
    match k {
        0 => {}
        1 => low_bytes::<1>(out, at, y),
        2 => low_bytes::<2>(out, at, y),
        3 => low_bytes::<3>(out, at, y),
        4 => low_bytes::<4>(out, at, y),
        _ => low_bytes::<5>(out, at, y),
    }
}

impl BitWriter {
    pub fn new() -> Self
        ensures { result ≡ new_writer }
    {
        BitWriter {
            written: BytePos(0),
            pending: 0,
            count: 0,
        }
    }

    pub fn byte_aligned(self) -> bool
        ensures { result ≡ eqb self.count 0 }
    {
        self.count == 0
    }

    // Is this no state of a writer in a room of that many bytes?
    fn bad(self, room: usize) -> bool
        ensures { result ≡ bad_writer room self }
    {
        self.written.0 > room || self.count > 7 || (1u8 << self.count) <= self.pending
    }

    // The checks that every call makes first.
    fn entry(self, room: usize) -> Result<(), Refusal>
        ensures { answered result ≡ entry_on room self }
    {
        desk::entry(room, 0, 0, self.bad(room))
    }

    // Would the whole bytes pass the room, with n bits more? What holds behind the entry checks (`Good`, and a width of 32 at most) stands in the
    // requires of the private functions from here on: a type for it would borrow the writer and the room, and be made anew in each call.
    fn lacks_room(self, room: usize, n: u32) -> bool
        requires { Good room self × (n ≤ 63) }
        ensures { result ≡ ltb room (whole_with self n) }
    {
        room < self.written.0 + (self.count as usize + n as usize) / 8
    }

    // n bits of v, which have room. `as` here: with `usize::from` the proof did not close.
    fn put(&mut self, out: &mut [u8], n: u32, v: u32)
        requires { HasRoom (length out.old) self.old n × (n ≤ 32) × (v < 2 ^ n) }
        ensures { wrote self.new out.new ≡ stored out.old self.old n v }
    {
        let all = (u64::from(self.pending) << n) + u64::from(v);
        let total = self.count as usize + n as usize;
        let rest = total % 8;
        let whole = total / 8;
        fill(out, self.written, whole, all >> rest);
        self.written = BytePos(self.written.0 + whole);
        self.pending = (all & ((1u64 << rest) - 1)) as u8;
        self.count = rest as u8;
    }

    // The same, or a refusal where they have none.
    fn put_if_room(&mut self, out: &mut [u8], n: u32, v: u32) -> Result<(), Refusal>
        requires { Good (length out.old) self.old × (n ≤ 32) × (v < 2 ^ n) }
        ensures { Writes self.old self.new result out.new (roomed out.old self.old n v) }
    {
        if self.lacks_room(out.len(), n) {
            return Err(Refusal::NoRoom);
        }
        self.put(out, n, v);
        Ok(())
    }

    // u(n): `width` bits of `value`.
    #[tactic(auto, using(crate::proofs::Entry::good, crate::proofs::Value::one_shl), unfolding(crate::specs::Answer::write_bits))]
    pub fn write(&mut self, out: &mut [u8], width: u32, value: u32) -> Result<(), Refusal>
        ensures { Writes self.old self.new result out.new (write_bits out.old self.old width value) }
    {
        self.entry(out.len())?;
        if width > 32 || u64::from(value) >= (1u64 << width) {
            return Err(Refusal::BadWidth);
        }
        self.put_if_room(out, width, value)
    }

    #[tactic(auto, unfolding(crate::specs::Answer::write_bit))]
    pub fn write_bit(&mut self, out: &mut [u8], bit: bool) -> Result<(), Refusal>
        ensures { Writes self.old self.new result out.new (write_bit out.old self.old bit) }
    {
        self.write(out, 1, u32::from(bit))
    }

    // n zeros, one at a time, which have room.
    fn put_zeros(&mut self, out: &mut [u8], n: u32)
        requires { HasRoom (length out.old) self.old n × (n ≤ 31) }
        ensures { wrote self.new out.new ≡ stored out.old self.old n 0 }
    {
        for _ in 0..n {
            self.put(out, 1, 0);
        }
    }

    // The code of a value that has one: zeros, then value + 1 (Rec 9.1). The room is worked out first, so that a refusal writes nothing.
    fn put_ue(&mut self, out: &mut [u8], value: u32) -> Result<(), Refusal>
        requires { Good (length out.old) self.old × (value < 4294967295) }
        ensures { Writes self.old self.new result out.new (roomed out.old self.old (ue_width value) (value + 1)) }
    {
        let zeros = prefix_len(value);
        if self.lacks_room(out.len(), 2 * zeros + 1) {
            return Err(Refusal::NoRoom);
        }
        self.put_zeros(out, zeros);
        self.put(out, zeros + 1, value + 1);
        Ok(())
    }

    // ue(v).
    #[tactic(auto, using(crate::proofs::Entry::good), unfolding(crate::specs::Answer::write_ue))]
    pub fn write_ue(&mut self, out: &mut [u8], value: u32) -> Result<(), Refusal>
        ensures { Writes self.old self.new result out.new (write_ue out.old self.old value) }
    {
        self.entry(out.len())?;
        if value == u32::MAX {
            return Err(Refusal::NoCode);
        }
        self.put_ue(out, value)
    }

    // se(v).
    #[tactic(auto, using(crate::proofs::Signs::code_writing), unfolding(crate::specs::Answer::write_se))]
    pub fn write_se(&mut self, out: &mut [u8], value: i32) -> Result<(), Refusal>
        ensures { Writes self.old self.new result out.new (write_se out.old self.old value) }
    {
        self.entry(out.len())?;
        if value == i32::MIN {
            return Err(Refusal::NoCode);
        }
        self.put_ue(out, unsigned_of(value))
    }

    // A one, then zeros to the byte boundary (Rec 7.3.2.11).
    #[tactic(auto, using(crate::proofs::Entry::good), unfolding(crate::specs::Answer::write_trailing))]
    pub fn write_rbsp_trailing_bits(&mut self, out: &mut [u8]) -> Result<(), Refusal>
        ensures { Writes self.old self.new result out.new (write_trailing out.old self.old) }
    {
        self.entry(out.len())?;
        let zeros = 7 - u32::from(self.count);
        self.put_if_room(out, zeros + 1, 1u32 << zeros)
    }
}
