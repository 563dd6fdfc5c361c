//! Where bytes go.

ghost use Rattle.std.specs.Prelude.{◌≡◌, ◌↔◌, ◌<◌, ◌≤◌, ℕ, List, Option, Bool, false, length, IsTrue, IsErr, IfOk};
ghost use Rattle.std.specs.Io.KnownBytes.{WriteAppends};

use crate::source::DeviceFailed;

/// A destination of bytes. It fails at most once, and isn't used after that.
pub trait Sink {
    /// The bytes that it was given, if they are known.
    ghost held: { Self → Option (List ℕ) };

    /// Whether a write has failed.
    ghost failed: { Self → Bool };

    /// Takes the first bytes of the piece, at least one if there is any, and returns how many.
    fn write(&mut self, piece: &[u8]) -> Result<usize, DeviceFailed>
        requires { failed self.old ≡ false }
        ensures bound { IfOk result (λ n. n ≤ length piece.now) }
        ensures some { IfOk result (λ n. 0 < length piece.now → 0 < n) }
        ensures bytes { WriteAppends (held self.old) (held self.new) result piece.now }
        ensures failing { IsTrue (failed self.new) ↔ IsErr result };

    fn has_failed(&self) -> bool
        ensures { result ≡ failed self.now };
}
