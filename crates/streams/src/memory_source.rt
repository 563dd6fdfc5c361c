//! A source in memory, for tests and for callers that have their bytes.

ghost use Rattle.std.specs.Prelude.{◌≡◌, ◌↔◌, ◌<◌, ◌≤◌, false, length, min, IsTrue, IsErr, IfOk, OnOk, Some};
ghost use Rattle.std.specs.Io.KnownBytes.{ReadConsumes};
ghost use Rattle.streams.specs.Turns.{one_fewer};

use crate::source::{DeviceFailed, Source};
use crate::turns::strikes;
use std::marker::Model;

/// Bytes that are read in pieces. One call may be chosen to fail.
#[derive(Debug, Drop)]
pub struct MemorySource {
    bytes: Vec<u8>,
    at: usize,
    piece: usize,
    fails_at: Option<u64>,
    failed: bool,
}

impl Model for MemorySource {
    ghost use Rattle.std.specs.Prelude.{◌<◌, ◌≤◌, length, drop};
    ghost use Rattle.streams.specs.MemorySource.{Supply};

    ghost Value = { Supply };

    ghost view = { λ s. record {
      left = drop s.at s.bytes.items;
      piece = s.piece;
      fails_at = s.fails_at;
      failed = s.failed;
    } };

    ghost invariant = { λ s. (s.at ≤ length s.bytes.items) × (0 < s.piece) };
}

impl MemorySource {
    ghost use Rattle.std.specs.Prelude.{◌≡◌, ◌<◌, false};

    /// Returns a source of these bytes, in pieces of at most `piece`. The call with the number `fails_at`,
    /// from 0, fails.
    pub fn new(bytes: Vec<u8>, piece: usize, fails_at: Option<u64>) -> Self
        requires { 0 < piece }
        ensures { result ≡ record { left = bytes.items; piece = piece; fails_at = fails_at; failed = false } }
    {
        MemorySource {
            bytes,
            at: 0,
            piece,
            fails_at,
            failed: false,
        }
    }
}

impl Source for MemorySource {
    ghost left = { λ s. Some s.left };

    ghost failed = { λ s. s.failed };

    ghost reads = { λ old new. (new.failed ≡ false) → (new.fails_at ≡ one_fewer old.fails_at) };

    fn read(&mut self, buf: &mut [u8]) -> Result<usize, DeviceFailed>
        requires { self.old.failed ≡ false }
        ensures bound { IfOk result (λ n. n ≤ length buf.new) }
        ensures bytes { ReadConsumes (Some self.old.left) (Some self.new.left) result buf.new }
        ensures failing { IsTrue self.new.failed ↔ IsErr result }
        ensures once { self.new.failed ≡ false → self.new.fails_at ≡ one_fewer self.old.fails_at }

        ensures gives { IfOk result (λ n.
            n ≡ min self.old.piece (min (length buf.new) (length self.old.left))) }
        ensures fails { IsErr result ↔ (self.old.fails_at ≡ Some 0) }
        ensures turn { OnOk result (self.new.fails_at ≡ one_fewer self.old.fails_at) }
        ensures piece { self.new.piece ≡ self.old.piece }
    {
        if strikes(&mut self.fails_at) {
            self.failed = true;
            return Err(DeviceFailed);
        }
        let n = self.piece.min(buf.len()).min(self.bytes.len() - self.at);
        buf[..n].copy_from_slice(&self.bytes[self.at..self.at + n]);
        self.at += n;
        Ok(n)
    }

    fn has_failed(&self) -> bool {
        self.failed
    }
}
