//! Writing a line piece by piece, over bytes that are there already.
//!
//! Each function returns the position after its piece. None allocates.

ghost use Rattle.std.specs.Prelude.{◌≡◌, ◌+◌, ◌<◌, ◌≤◌, [], ◌∷◌, ◌++◌, length, take, drop};

/// Writes a byte at a position, and returns the position after it.
#[inline(always)]
pub fn put_byte(line: &mut [u8], at: usize, byte: u8) -> usize
    requires { at < length line.old }
    ensures end { result ≡ at + 1 }
    ensures bytes { take result line.new ≡ take at line.old ++ byte ∷ [] }
    ensures rest { drop result line.new ≡ drop result line.old }
{
    line[at] = byte;
    at + 1
}

/// Writes bytes from a position on, and returns the position after them.
#[inline(always)]
pub fn put_bytes(line: &mut [u8], at: usize, bytes: &[u8]) -> usize
    requires { at + length bytes.now ≤ length line.old }
    ensures end { result ≡ at + length bytes.now }
    ensures bytes { take result line.new ≡ take at line.old ++ bytes.now }
    ensures rest { drop result line.new ≡ drop result line.old }
{
    for (i, byte) in bytes.iter().enumerate() {
        line[at + i] = *byte;
    }
    at + bytes.len()
}
