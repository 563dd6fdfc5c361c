//! A text that has been read, as a source.

ghost use Rattle.std.specs.Prelude.{◌≡◌, ◌↔◌, ◌≤◌, Some, false, length, IsErr, IfOk, IsTrue};
ghost use Rattle.std.specs.Io.KnownBytes.{ReadConsumes};

use streams::source::{DeviceFailed, Source};

/// A text that has been read, as a source. It never fails.
#[derive(Debug, Drop)]
pub(crate) struct TextSource<'a> {
    rest: &'a [u8],
}

impl<'a> TextSource<'a> {
    ghost use Rattle.std.specs.Prelude.{◌≡◌};

    pub(crate) fn new(text: &'a [u8]) -> Self
        ensures { result.rest.now ≡ text.entry.now }
    {
        TextSource { rest: text }
    }
}

impl Source for TextSource<'_> {
    ghost use Rattle.std.specs.Prelude.{Some, false};

    ghost left = { λ s. Some s.rest.now };

    ghost failed = { λ s. false };

    ghost reads = { λ old new. Unit {0} };

    fn read(&mut self, buf: &mut [u8]) -> Result<usize, DeviceFailed> {
        let n = self.rest.len().min(buf.len());
        buf[..n].copy_from_slice(&self.rest[..n]);
        self.rest = &self.rest[n..];
        Ok(n)
    }

    fn has_failed(&self) -> bool {
        false
    }
}
