// Parts of slices, and numbers in them, highest byte first. What a slice has not is empty, or 0. Of a caller only this is asked: a number has a byte
// at least, and the words are fewer than 2^16.
ghost use Rattle.std.specs.Prelude.{◌<◌, ◌^◌};

use std::array;

// What stands before a place, which is no length of the slice, and what from it on.
pub(crate) fn cut(s: &[u8], at: usize) -> (&[u8], &[u8]) {
    let at = at.min(s.len());
    s.split_at(at)
}

// The first N numbers of W bytes each.
pub(crate) fn numbers<const W: usize, const N: usize>(s: &[u8]) -> [[u8; W]; N]
    requires { 0 < W }
{
    let mut numbers = [[0; W]; N];
    for (number, bytes) in numbers.iter_mut().zip(s.chunks(W)) {
        *number = array::from_fn(|i| bytes.get(i).copied().unwrap_or(0));
    }
    numbers
}

// The first N words of 32 bits.
pub(crate) fn words<const N: usize>(s: &[u8]) -> [u32; N]
    requires { N < 2 ^ 16 }
{
    numbers(s).map(u32::from_be_bytes)
}

// The first number of 16 bits.
pub(crate) fn half(s: &[u8]) -> u16 {
    let [half] = numbers::<2, 1>(s);
    u16::from_be_bytes(half)
}

// The first byte.
pub(crate) fn byte(s: &[u8]) -> u32 {
    s.first().copied().map_or(0, u32::from)
}
