//! The bytes of a source that were read and are still needed.

ghost use Rattle.std.specs.Prelude.{◌≡◌, ◌+◌, ◌<◌, ◌≤◌, ◌-◌, ◌↔◌, ℕ, List, Option, [], false, drop, length, take, IsTrue, IsErrOf, IfOk, IfErr, IfSome, OnOk, OnErr};
ghost use Rattle.std.specs.Io.KnownBytes.{IsAtEnd, Keeps};
ghost use Rattle.history.specs.Text.{HasNoBreak};
ghost use Rattle.streams.specs.declared.limits.TheConstants.{LINE_BYTES};
ghost use Rattle.streams.specs.ReadingOn.{IsOfReading, IsTooLong};
ghost use Rattle.streams.specs.Window.{Grows, StaysAhead, room};
ghost use Rattle.streams.specs.inner.Window.{IsFrontAhead, IsShorter};
ghost use Rattle.streams.specs.declared.stream_fault.StreamFault.TheVariants.{Memory, ReadFailed};

use crate::limits::{LINE_BYTES, ROOM};
use crate::source::Source;
use crate::stream_fault::StreamFault;
use history::text::first_line;
use std::alloc::{AllocError, Global};
use std::marker::Model;

/// A window on the bytes of a source, which moves on as they are used. What is in it was read from the
/// source, and what was used is dropped.
///
/// Its memory is reserved when it is opened, and never grows. If a line is longer than any good one, only its
/// first bytes stay. So each line of a source can be checked, however long it is.
#[derive(Drop)]
pub struct Window {
    bytes: Vec<u8>,
    at: usize,
    end: usize,
}

impl Model for Window {
    ghost use Rattle.std.specs.Prelude.{◌≡◌, ◌≤◌, length, slice_range, vec_capacity};
    ghost use Rattle.streams.specs.Window.{Seen};

    ghost Value = { Seen };

    ghost view = { λ w. record {
      bytes = slice_range w.bytes.items w.at w.end;
      passed = w.at;
      places = vec_capacity w.bytes;
    } };

    ghost invariant = { λ w. (w.at ≤ w.end) × (w.end ≤ length w.bytes.items)
        × (length w.bytes.items ≡ vec_capacity w.bytes) };
}

impl Window {
    /// Returns a window on a source of which nothing was read.
    pub fn open(alloc: Global) -> Result<Self, AllocError>
        ensures { IfOk result (λ w. w ≡ record { bytes = []; passed = 0; places = room }) }
    {
        let mut bytes = Vec::with_capacity(alloc, ROOM)?;
        for _ in 0..ROOM {
            bytes.push_reserved(0);
        }
        Ok(Window {
            bytes,
            at: 0,
            end: 0,
        })
    }

    /// Returns the bytes that are still needed.
    #[inline(always)]
    pub fn bytes(&self) -> &[u8]
        ensures bytes { result.now ≡ self.now.bytes }
        ensures few { length result.now ≤ self.now.places }
    {
        &self.bytes[self.at..self.end]
    }

    /// Drops all but the last `left` bytes.
    #[inline(always)]
    pub fn keep_last(&mut self, left: usize)
        requires { left ≤ length self.old.bytes }
        ensures bytes { self.new.bytes ≡ drop (length self.old.bytes - left) self.old.bytes }
        ensures passed { self.new.passed ≡ self.old.passed + (length self.old.bytes - left) }
        ensures few { length self.new.bytes ≤ self.new.places }
        ensures places { self.new.places ≡ self.old.places }
    {
        self.at = self.end - left;
    }

    /// Drops all but the first bytes of a line.
    fn keep_front(&mut self)
        ensures bytes { self.new.bytes ≡ take LINE_BYTES self.old.bytes }
        ensures few { length self.new.bytes ≤ LINE_BYTES }
        ensures places { self.new.places ≡ self.old.places }
    {
        let kept = (self.end - self.at).min(LINE_BYTES);
        self.end = self.at + kept;
    }

    /// Moves what is needed to the front, so that dropped bytes take no room.
    fn move_to_front(&mut self)
        ensures { self.new ≡ record self.old { passed = 0 } }
    {
        self.bytes.as_mut_slice().copy_within(self.at..self.end, 0);
        self.end -= self.at;
        self.at = 0;
    }

    /// Adds the bytes of one read, and returns how many; 0 is the end of the source. If the read fails,
    /// nothing is added, and the window has the same bytes.
    pub fn read_more<R: Source>(&mut self, reader: &mut R) -> Result<usize, StreamFault>
        requires reader { R.failed reader.old ≡ false }
        requires room { length self.old.bytes < self.old.places }
        ensures grows { IfOk result (Grows self.old.bytes self.new.bytes
            (R.left reader.old) (R.left reader.new)) }
        ensures end { IfOk result (λ n. n ≡ 0 → IsAtEnd (R.left reader.new)) }
        ensures kept { OnErr result ((self.new.bytes ≡ self.old.bytes)
            × Keeps (R.left reader.old) (R.left reader.new)) }
        ensures passed { self.new.passed ≡ 0 }
        ensures few { length self.new.bytes ≤ self.new.places }
        ensures places { self.new.places ≡ self.old.places }
        ensures failing { IsErrOf result ReadFailed ↔ IsTrue (R.failed reader.new) }
        ensures kinds { IfErr result (λ fault. fault ≡ ReadFailed) }
    {
        self.move_to_front();
        let Ok(n) = reader.read(&mut self.bytes[self.end..]) else {
            return Err(StreamFault::ReadFailed);
        };
        self.end += n;
        Ok(n)
    }

    /// Adds a piece to an incomplete line, and returns whether that is all: the line ends in the piece, or
    /// the source does. Otherwise only the beginning of the line stays.
    fn read_piece<R: Source>(&mut self, reader: &mut R) -> Result<bool, StreamFault>
        requires reader { R.failed reader.old ≡ false }
        requires room { LINE_BYTES < self.old.places }
        requires front { length self.old.bytes ≤ LINE_BYTES }
        ensures all { IfOk result (λ all. IsTrue all → (first : Option (List ℕ)) (old : List ℕ) →
            IsFrontAhead old first self.old.bytes (R.left reader.old) →
            StaysAhead old first self.new.bytes (R.left reader.new)) }
        ensures more { IfOk result (λ all. all ≡ false → (first : Option (List ℕ)) (old : List ℕ) →
            IsFrontAhead old first self.old.bytes (R.left reader.old) →
            IsFrontAhead old first self.new.bytes (R.left reader.new)) }
        ensures kept { OnErr result ((self.new.bytes ≡ self.old.bytes)
            × Keeps (R.left reader.old) (R.left reader.new)) }
        ensures few { IfOk result (λ all. all ≡ false → length self.new.bytes ≤ LINE_BYTES) }
        ensures less { IfOk result (λ all. all ≡ false → IsShorter (R.left reader.old) (R.left reader.new)) }
        ensures held { length self.new.bytes ≤ self.new.places }
        ensures whole { IfOk result (λ all. IsTrue all → HasNoBreak self.new.bytes →
            IsAtEnd (R.left reader.new)) }
        ensures places { self.new.places ≡ self.old.places }
        ensures failing { IsErrOf result ReadFailed ↔ IsTrue (R.failed reader.new) }
        ensures kinds { IfErr result (λ fault. fault ≡ ReadFailed) }
    {
        let n = self.read_more(reader)?;
        if n == 0 {
            return Ok(true);
        }
        let bytes = self.bytes();
        if first_line(&bytes[bytes.len() - n..]).is_some() {
            return Ok(true);
        }
        self.keep_front();
        Ok(false)
    }

    /// Reads until a whole line is in the window, or to the end of the source. If one is there already,
    /// nothing is read. Nothing that was read is lost, even if a read fails. But of a line without a break
    /// only the first 256 bytes stay, and the last piece.
    ///
    /// Reads are counted. Only if the source has more bytes than can be counted, `Memory` is returned.
    pub fn read_line<R: Source>(&mut self, reader: &mut R) -> Result<(), StreamFault>
        requires reader { R.failed reader.old ≡ false }
        requires room { LINE_BYTES < self.old.places }
        ensures ahead { StaysAhead self.old.bytes (R.left reader.old) self.new.bytes (R.left reader.new) }
        ensures ready { (HasNoBreak self.old.bytes → ⊥) → (self.new ≡ self.old) × (reader.new ≡ reader.old) }
        ensures few { length self.new.bytes ≤ self.new.places }
        ensures places { self.new.places ≡ self.old.places }
        ensures whole { OnOk result (HasNoBreak self.new.bytes → IsAtEnd (R.left reader.new)) }
        ensures failing { IsErrOf result ReadFailed ↔ IsTrue (R.failed reader.new) }
        ensures kinds { IfErr result IsOfReading }
        ensures memory { IsErrOf result Memory → IfSome (R.left reader.old) IsTooLong }
    {
        if first_line(self.bytes()).is_some() {
            return Ok(());
        }
        self.keep_front();
        for _ in 0..u64::MAX {
            if self.read_piece(reader)? {
                return Ok(());
            }
        }
        Err(StreamFault::Memory)
    }
}
