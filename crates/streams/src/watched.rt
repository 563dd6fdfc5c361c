//! A source that tells how much is read.

ghost use Rattle.std.specs.Prelude.{◌≡◌, ◌↔◌, ◌<◌, ◌≤◌, ℕ, false, length, IsTrue, IsErr, IfOk, OnOk, OnErr};
ghost use Rattle.std.specs.Io.KnownBytes.{ReadConsumes};

use crate::source::{DeviceFailed, Source};
use std::marker::Model;

/// Who is told how much of a source is read.
pub trait Watch {
    /// What it makes of a watch to be told of this many bytes.
    ghost notes: { Self → ℕ → Self → Type 0 };

    /// What it makes of a watch to be told that no more bytes are read.
    ghost ends: { Self → Self → Type 0 };

    /// So many bytes were read.
    fn note(&mut self, count: usize)
        ensures { notes self.old count self.new };

    /// No more bytes are read: the source is at its end, or has failed.
    fn end(&mut self)
        ensures { ends self.old self.new };
}

/// A source over another one, with a watch that is told of each read. What is read is what the source below gives.
#[derive(Debug, Drop)]
pub struct Watched<R: Source, W: Watch> {
    inner: R,
    watch: W,
}

impl<R: Source, W: Watch> Model for Watched<R, W> {
    ghost use Rattle.streams.specs.Watched.{Watching};

    ghost Value = { Watching R W };

    ghost view = { λ s. record { inner = s.inner; watch = s.watch } };
}

impl<R: Source, W: Watch> Watched<R, W> {
    pub fn new(inner: R, watch: W) -> Self
        ensures { result ≡ record { inner = inner; watch = watch } }
    {
        Watched { inner, watch }
    }

    /// Tells the watch that no more bytes are read.
    pub fn end(&mut self)
        ensures told { W.ends self.old.watch self.new.watch }
        ensures unread { self.new.inner ≡ self.old.inner }
    {
        self.watch.end();
    }
}

impl<R: Source, W: Watch> Source for Watched<R, W> {
    ghost left = { λ s. R.left s.inner };

    ghost failed = { λ s. R.failed s.inner };

    ghost reads = { λ old new. R.reads old.inner new.inner };

    /// Reads the source below once, and tells the watch how many bytes came. The watch is told of the end if none
    /// came though the buffer has room, or if reading failed.
    fn read(&mut self, buf: &mut [u8]) -> Result<usize, DeviceFailed>
        requires { R.failed self.old.inner ≡ false }
        ensures bound { IfOk result (λ n. n ≤ length buf.new) }
        ensures bytes { ReadConsumes (R.left self.old.inner) (R.left self.new.inner) result buf.new }
        ensures failing { IsTrue (R.failed self.new.inner) ↔ IsErr result }
        ensures once { R.reads self.old.inner self.new.inner }

        ensures told { IfOk result (λ n. 0 < n → W.notes self.old.watch n self.new.watch) }
        ensures end { IfOk result (λ n. n ≡ 0 → 0 < length buf.new → W.ends self.old.watch self.new.watch) }
        ensures untold { length buf.new ≡ 0 → OnOk result (self.new.watch ≡ self.old.watch) }
        ensures failure { OnErr result (W.ends self.old.watch self.new.watch) }
    {
        let outcome = self.inner.read(buf);
        match outcome {
            Ok(0) if buf.is_empty() => {}
            Ok(0) | Err(_) => self.watch.end(),
            Ok(count) => self.watch.note(count),
        }
        outcome
    }

    fn has_failed(&self) -> bool {
        self.inner.has_failed()
    }
}
