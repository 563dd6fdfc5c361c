//! A source that is not read again after its end.

ghost use Rattle.std.specs.Prelude.{◌≡◌, ◌↔◌, ◌⊎◌, ◌<◌, ◌≤◌, false, length, IsTrue, IsErr, IfOk, OnErr, Ok};
ghost use Rattle.std.specs.Io.KnownBytes.{ReadConsumes};

use crate::source::{DeviceFailed, Source};
use std::marker::Model;

/// A source over another one, which is not read again once a read with room returned 0. From then on each read
/// returns 0. Some devices are not at their end for good: a terminal waits for a further Ctrl-D at each read.
#[derive(Debug, Drop)]
pub struct UntilEnd<R: Source> {
    inner: R,
    is_at_end: bool,
}

impl<R: Source> Model for UntilEnd<R> {
    ghost use Rattle.std.specs.Prelude.{IsTrue};
    ghost use Rattle.std.specs.Io.KnownBytes.{IsAtEnd};
    ghost use Rattle.streams.specs.UntilEnd.{Asked};

    ghost Value = { Asked R };

    ghost view = { λ s. record { inner = s.inner; is_at_end = s.is_at_end } };

    ghost invariant = { λ s. IsTrue s.is_at_end → IsAtEnd (R.left s.inner) };
}

impl<R: Source> UntilEnd<R> {
    ghost use Rattle.std.specs.Prelude.{◌≡◌, false};

    pub fn new(inner: R) -> Self
        ensures { result ≡ record { inner = inner; is_at_end = false } }
    {
        UntilEnd {
            inner,
            is_at_end: false,
        }
    }
}

impl<R: Source> Source for UntilEnd<R> {
    ghost left = { λ s. R.left s.inner };

    ghost failed = { λ s. R.failed s.inner };

    ghost reads = { λ old new. (new ≡ old) ⊎ R.reads old.inner new.inner };

    /// Reads the source below once, or not at all after its end.
    fn read(&mut self, buf: &mut [u8]) -> Result<usize, DeviceFailed>
        requires { R.failed self.old.inner ≡ false }
        ensures bound { IfOk result (λ n. n ≤ length buf.new) }
        ensures bytes { ReadConsumes (R.left self.old.inner) (R.left self.new.inner) result buf.new }
        ensures failing { IsTrue (R.failed self.new.inner) ↔ IsErr result }
        ensures once { (self.new ≡ self.old) ⊎ R.reads self.old.inner self.new.inner }

        ensures unread { IsTrue self.old.is_at_end → self.new ≡ self.old }
        ensures nothing { IsTrue self.old.is_at_end → result ≡ Ok 0 }
        ensures buffer { IsTrue self.old.is_at_end → buf.new ≡ buf.old }
        ensures asked { self.old.is_at_end ≡ false → R.reads self.old.inner self.new.inner }
        ensures end { IfOk result (λ n. IsTrue self.new.is_at_end
            ↔ (IsTrue self.old.is_at_end ⊎ ((n ≡ 0) × (0 < length buf.new)))) }
        ensures going { OnErr result (self.new.is_at_end ≡ false) }
    {
        if self.is_at_end {
            return Ok(0);
        }
        let n = self.inner.read(buf)?;
        self.is_at_end = n == 0 && !buf.is_empty();
        Ok(n)
    }

    fn has_failed(&self) -> bool {
        self.inner.has_failed()
    }
}
