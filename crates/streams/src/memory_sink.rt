//! A sink in memory, for tests and for callers that need the bytes.

ghost use Rattle.std.specs.Prelude.{◌≡◌, ◌↔◌, ◌<◌, ◌≤◌, ◌-◌, ◌⊎◌, false, length, min, IsTrue, IsErr, IfOk, OnOk, Some};
ghost use Rattle.std.specs.Io.KnownBytes.{WriteAppends};
ghost use Rattle.streams.specs.Turns.{one_fewer};

use crate::sink::Sink;
use crate::source::DeviceFailed;
use crate::turns::strikes;
use std::alloc::{AllocError, Global};
use std::marker::Model;

/// Reserved bytes that are filled in pieces. One call may be chosen to fail.
#[derive(Debug, Drop)]
pub struct MemorySink {
    bytes: Vec<u8>,
    places: usize,
    piece: usize,
    fails_at: Option<u64>,
    failed: bool,
}

impl Model for MemorySink {
    ghost use Rattle.std.specs.Prelude.{◌<◌, ◌≤◌, ◌-◌, length};
    ghost use Rattle.std.specs.Vec.{vec_capacity};
    ghost use Rattle.streams.specs.MemorySink.{Store};

    ghost Value = { Store };

    ghost view = { λ s. record {
      held = s.bytes.items;
      free = s.places - length s.bytes.items;
      piece = s.piece;
      fails_at = s.fails_at;
      failed = s.failed;
    } };

    ghost invariant = { λ s. (0 < s.piece) × (length s.bytes.items ≤ s.places)
        × (s.places ≤ vec_capacity s.bytes) };
}

impl MemorySink {
    ghost use Rattle.std.specs.Prelude.{◌≡◌, ◌<◌, [], false, IfOk};

    /// Returns a sink of `places` free bytes, which takes pieces of at most `piece` bytes. The call with the
    /// number `fails_at`, from 0, fails.
    pub fn with_places(
        alloc: Global,
        places: usize,
        piece: usize,
        fails_at: Option<u64>,
    ) -> Result<Self, AllocError>
        requires { 0 < piece }
        ensures { IfOk result (λ s. s ≡ record {
          held = [];
          free = places;
          piece = piece;
          fails_at = fails_at;
          failed = false;
        }) }
    {
        Ok(MemorySink {
            bytes: Vec::with_capacity(alloc, places)?,
            places,
            piece,
            fails_at,
            failed: false,
        })
    }

    /// Returns the bytes that it has taken.
    pub fn bytes(&self) -> &[u8]
        ensures { result.now ≡ self.now.held }
    {
        &self.bytes
    }
}

impl Sink for MemorySink {
    ghost held = { λ s. Some s.held };

    ghost failed = { λ s. s.failed };

    fn write(&mut self, piece: &[u8]) -> Result<usize, DeviceFailed>
        requires { self.old.failed ≡ false }
        ensures bound { IfOk result (λ n. n ≤ length piece.now) }
        ensures some { IfOk result (λ n. 0 < length piece.now → 0 < n) }
        ensures bytes { WriteAppends (Some self.old.held) (Some self.new.held) result piece.now }
        ensures failing { IsTrue self.new.failed ↔ IsErr result }

        ensures takes { IfOk result (λ n. n ≡ min self.old.piece (min (length piece.now) self.old.free)) }
        ensures fails { IsErr result ↔ ((self.old.fails_at ≡ Some 0)
            ⊎ ((self.old.free ≡ 0) × (0 < length piece.now))) }
        ensures turn { OnOk result (self.new.fails_at ≡ one_fewer self.old.fails_at) }
        ensures piece { self.new.piece ≡ self.old.piece }
        ensures free { IfOk result (λ n. self.new.free ≡ self.old.free - n) }
    {
        let free = self.places - self.bytes.len();
        let n = self.piece.min(piece.len()).min(free);
        let strikes = strikes(&mut self.fails_at);
        if strikes
            || (n == 0 && !piece.is_empty())
            || self.bytes.extend_from_slice(&piece[..n]).is_err()
        {
            self.failed = true;
            return Err(DeviceFailed);
        }
        Ok(n)
    }

    fn has_failed(&self) -> bool {
        self.failed
    }
}
