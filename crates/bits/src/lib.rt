// Bits of a byte slice, highest first (Rec 7.2, 9.1).
#![tactic(auto)]

mod golomb;
mod places;
mod reader;
mod writer;

pub use golomb::golomb_to_signed;

// A place of a bit: the bits before it. This type and the next are alike, as document 01 asks, so that no place of one kind is taken for one of the
// other.
#[derive(Clone, Copy, Debug, PartialEq, Eq)]
pub struct BitPos(pub usize);

// A place of a byte: the bytes before it.
#[derive(Clone, Copy, Debug, PartialEq, Eq)]
pub struct BytePos(pub usize);

// A cursor over a slice that is lent to each call. A refused call leaves it as it was.
#[derive(Clone, Copy, Debug, PartialEq, Eq)]
pub struct BitReader {
    pub at: BitPos,
}

// A writer between two calls: the bytes of the room that hold whole bytes of it, and 0 to 7 pending bits as a number. A refused call leaves it as it
// was. Plain fields with no invariant: any numbers may be saved and given back, which number 2 is for.
#[derive(Clone, Copy, Debug, PartialEq, Eq)]
pub struct BitWriter {
    pub written: BytePos,
    pub pending: u8,
    pub count: u8,
}
