//! Where bytes come from.

ghost use Rattle.std.specs.Prelude.{◌≡◌, ◌↔◌, ◌≤◌, ℕ, List, Option, Bool, false, length, IsTrue, IsErr, IfOk};
ghost use Rattle.std.specs.Io.KnownBytes.{ReadConsumes};

/// A device has failed; the requested read or write hasn't happened.
#[derive(Clone, Copy, Debug, PartialEq, Eq)]
pub struct DeviceFailed;

/// A source of bytes. It fails at most once, and isn't used after that.
pub trait Source {
    /// The bytes that reads will still return, if they are known.
    ghost left: { Self → Option (List ℕ) };

    /// Whether a read has failed.
    ghost failed: { Self → Bool };

    /// Whether one read may make the second source of the first. Generic code cannot take two reads for one: at
    /// the end, where both leave the same bytes, only this member tells them apart.
    ghost reads: { Self → Self → Type 0 };

    /// Fills the beginning of the buffer, and returns how many bytes. If the buffer has room, 0 is the end of
    /// the source.
    fn read(&mut self, buf: &mut [u8]) -> Result<usize, DeviceFailed>
        requires { failed self.old ≡ false }
        ensures bound { IfOk result (λ n. n ≤ length buf.new) }
        ensures bytes { ReadConsumes (left self.old) (left self.new) result buf.new }
        ensures failing { IsTrue (failed self.new) ↔ IsErr result }
        ensures once { reads self.old self.new };

    fn has_failed(&self) -> bool
        ensures { result ≡ failed self.now };
}
