// What the lines have in common.
use std::fmt;

// Bytes in hexadecimal, a space before each.
#[derive(Clone, Copy)]
pub struct Hex<'a>(pub &'a [u8]);

impl fmt::Display for Hex<'_> {
    fn fmt<W: fmt::Write>(&self, f: &mut fmt::Formatter<W>) -> fmt::Result {
        for byte in self.0 {
            write!(f, " {byte:02x}")?;
        }
        Ok(())
    }
}

// The first n, of which there are so many.
pub fn front<T>(s: &[T], n: usize) -> &[T] {
    s.get(..n).unwrap_or_default()
}
