//! Reading the steps and trims of a text from their source, one at a time.

ghost use Rattle.std.specs.Prelude.{◌≡◌, ◌⊎◌, ◌+◌, ◌^◌, ◌<◌, ◌≤◌, ◌↔◌, ◌-◌, [], false, length, List, None, Ok, Option, Some, ℕ, IsErr, IsTrue, IsErrOf, IfOk, IfErr, IfNone, IfSome, OnErr, OnOk};
ghost use Rattle.std.specs.Io.KnownBytes.{IsAtEnd};
ghost use Rattle.driver.specs.Below.{IsInRange, HasNoBreak, IsAct, MOST_ACTS, steps_form, IsTooLong, room, Memory};
ghost use Rattle.driver.specs.StepReader.{common_act, progress};
ghost use Rattle.driver.specs.inner.StepReader.{passed};
ghost use Rattle.driver.specs.TextReader.{IsFaultOf, IsFaultOn, IsNext, IsOfNoText, KeepsPlace, WereRead};

use crate::end_of::end_of;
use frame::acts::Act;
use std::alloc::Global;
use std::marker::Model;
use steps::MOST_ACTS;
use steps::common_step::{Common, common_step};
use steps::header::StepsHeader;
use steps::next_line::{header_of, next_line};
use streams::fault::TextFault;
use streams::source::Source;
use streams::stream_fault::StreamFault;
use streams::window::Window;

/// The most acts that are counted. If a text has more, `OutOfMemory` is returned.
const MOST: u64 = 18_446_744_073_709_551_612;

/// A reader of a steps text. It has read the header, and the acts that were asked for.
#[derive(Drop)]
pub struct StepReader {
    header: StepsHeader,
    count: u64,
    window: Window,
}

impl Model for StepReader {
    ghost use Rattle.std.specs.Prelude.{◌≡◌, ◌<◌, ◌≤◌, ◌+◌, ◌^◌, length};
    ghost use Rattle.history.specs.Header.{IsInRange};
    ghost use Rattle.driver.specs.StepReader.{Held};
    ghost use Rattle.streams.specs.Window.{room};

    ghost Value = { Held };

    ghost view = { λ r. record {
      header = r.header;
      count = r.count;
      bytes = r.window.bytes;
      places = r.window.places;
    } };

    ghost invariant = { λ r. (r.count + 3 < 2 ^ 64) × IsInRange r.header.header × (r.window.places ≡ room)
        × (length r.window.bytes ≤ room) };
}

impl StepReader {
    /// Reads the header of a text.
    pub fn open<R: Source>(alloc: Global, reader: &mut R) -> Result<Self, StreamFault>
        requires { R.failed reader.old ≡ false }
        ensures ok { IfOk result (λ steps. WereRead steps_form (R.left reader.old)
            (progress steps (R.left reader.new)) []) }
        ensures err { IfErr result (IsFaultOf steps_form (R.left reader.old) (R.left reader.new)) }
        ensures room { IfOk result (λ steps. steps.places ≡ room) }
        ensures failing { IsErrOf result StreamFault.ReadFailed ↔ IsTrue (R.failed reader.new) }
        ensures none { IfOk result (λ steps. steps.count ≡ 0) }
    {
        let mut window = Window::open(alloc)?;
        window.read_line(reader)?;
        let (header, after) = header_of(window.bytes())?;
        let left = after.len();
        window.keep_last(left);
        Ok(StepReader {
            header,
            count: 0,
            window,
        })
    }

    /// Returns the header that the text began with.
    pub fn header(&self) -> StepsHeader
        ensures value { result ≡ self.now.header }
        ensures range { IsInRange self.now.header.header }
        ensures held { length self.now.bytes ≤ room }
    {
        self.header
    }

    /// Returns how many acts were read.
    pub fn count(&self) -> u64
        ensures { result ≡ self.now.count }
    {
        self.count
    }

    /// Goes on behind the line of an act, which is counted. `left` is the number of bytes after the line.
    #[inline(always)]
    fn advance(&mut self, left: usize)
        requires within { left ≤ length self.old.bytes }
        requires few { self.old.count + 4 < 2 ^ 64 }
        ensures { self.new ≡ passed left self.old }
    {
        self.count += 1;
        self.window.keep_last(left);
    }

    /// Counts one more act. `left` is the number of bytes after its line.
    #[inline(always)]
    fn pass(&mut self, left: usize) -> Result<(), StreamFault>
        requires { left ≤ length self.old.bytes }
        ensures ok { OnOk result (self.new ≡ passed left self.old) }
        ensures err { IfErr result (λ fault. fault ≡ Memory) }
        ensures many { IsErr result → 2 ^ 64 ≤ self.old.count + 4 }
        ensures kept { OnErr result (self.new ≡ self.old) }
        ensures header { self.new.header ≡ self.old.header }
        ensures few { self.new.count < 2 ^ 64 }
    {
        if self.count == MOST {
            return Err(StreamFault::Memory);
        }
        self.advance(left);
        Ok(())
    }

    /// Returns the seat and the step of the next line, if the window has all of it and it is one of the most
    /// frequent. Otherwise `next` reads the line. After as many acts as a good text may have there is none.
    #[inline(always)]
    pub fn next_common(&mut self) -> Option<(u16, Common)>
        ensures next { IfSome result (λ found. (left : Option (List ℕ)) → IsNext steps_form
            (progress self.old left) (Ok (Some (common_act found))) (progress self.new left) left) }
        ensures seated { IfSome result (λ found. IsAct self.old.header (common_act found)) }
        ensures counted { IfSome result (λ _. self.new.count ≡ self.old.count + 1) }
        ensures few { IfSome result (λ _. self.new.count ≤ MOST_ACTS) }
        ensures header { self.new.header ≡ self.old.header }
        ensures places { self.new.places ≡ self.old.places }
        ensures held { length self.new.bytes ≤ room }
        ensures none { IfNone result (self.new ≡ self.old) }
    {
        if self.count >= MOST_ACTS {
            return None;
        }
        let (found, left) = common_step(self.window.bytes(), self.header.header.seats)?;
        self.advance(left);
        Some(found)
    }

    /// As `next`, if the window doesn't hold a whole line yet.
    #[inline(never)]
    fn next_after_reading<R: Source>(&mut self, reader: &mut R) -> Result<Option<Act>, StreamFault>
        requires { R.failed reader.old ≡ false }
        ensures header { self.new.header ≡ self.old.header }
        ensures next { IsNext steps_form (progress self.old (R.left reader.old)) result
            (progress self.new (R.left reader.new)) (R.left reader.new) }
        ensures stands { KeepsPlace self.old.bytes (R.left reader.old) result self.new.bytes
            (R.left reader.new) }
        ensures seated { IfOk result (λ next. IfSome next (IsAct self.old.header)) }
        ensures few { self.new.count < 2 ^ 64 }
        ensures counted { IfOk result (λ next. IfSome next (λ _. self.new.count ≡ self.old.count + 1)) }
        ensures stays { result ≡ Ok None → self.new.count ≡ self.old.count }
        ensures uncounted { OnErr result (self.new.count ≡ self.old.count) }
        ensures places { self.new.places ≡ self.old.places }
        ensures held { length self.new.bytes ≤ room }
        ensures ready { (HasNoBreak self.old.bytes → ⊥) →
            IfOk result (λ next. IfSome next (λ _. reader.new ≡ reader.old)) }
        ensures ended { result ≡ Ok None → IsAtEnd (R.left reader.new) }
        ensures memory { IsErrOf result Memory →
            IfSome (R.left reader.old) IsTooLong ⊎ (2 ^ 64 ≤ self.old.count + 4) }
        ensures failing { IsErrOf result StreamFault.ReadFailed ↔ IsTrue (R.failed reader.new) }
    {
        self.window.read_line(reader)?;
        let Some((act, left)) = next_line(self.window.bytes(), &self.header, self.count)? else {
            return end_of(&mut self.window, reader, self.count);
        };
        self.pass(left)?;
        Ok(Some(act))
    }

    /// Returns the next act, or None after the last. Then nothing follows the end line.
    ///
    /// After None or a fault the reader's position is as before. Only bytes of a line that is longer than any
    /// good one may be gone.
    #[inline(always)]
    pub fn next<R: Source>(&mut self, reader: &mut R) -> Result<Option<Act>, StreamFault>
        requires { R.failed reader.old ≡ false }
        ensures header { self.new.header ≡ self.old.header }
        ensures next { IsNext steps_form (progress self.old (R.left reader.old)) result
            (progress self.new (R.left reader.new)) (R.left reader.new) }
        ensures stands { KeepsPlace self.old.bytes (R.left reader.old) result self.new.bytes
            (R.left reader.new) }
        ensures seated { IfOk result (λ next. IfSome next (IsAct self.old.header)) }
        ensures few { self.new.count < 2 ^ 64 }
        ensures counted { IfOk result (λ next. IfSome next (λ _. self.new.count ≡ self.old.count + 1)) }
        ensures stays { result ≡ Ok None → self.new.count ≡ self.old.count }
        ensures uncounted { OnErr result (self.new.count ≡ self.old.count) }
        ensures places { self.new.places ≡ self.old.places }
        ensures held { length self.new.bytes ≤ room }
        ensures ready { (HasNoBreak self.old.bytes → ⊥) →
            IfOk result (λ next. IfSome next (λ _. reader.new ≡ reader.old)) }
        ensures ended { result ≡ Ok None → IsAtEnd (R.left reader.new) }
        ensures memory { IsErrOf result Memory →
            IfSome (R.left reader.old) IsTooLong ⊎ (2 ^ 64 ≤ self.old.count + 4) }
        ensures failing { IsErrOf result StreamFault.ReadFailed ↔ IsTrue (R.failed reader.new) }
    {
        match next_line(self.window.bytes(), &self.header, self.count) {
            Ok(Some((act, left))) => {
                self.pass(left)?;
                Ok(Some(act))
            }
            Ok(None) => end_of(&mut self.window, reader, self.count),
            Err(TextFault::BadLine(line)) => Err(StreamFault::Text(TextFault::BadLine(line))),
            Err(_) => self.next_after_reading(reader),
        }
    }

    /// Reads the rest of a text after more acts than a good one may have. So it has a fault, which this
    /// returns.
    #[inline(never)]
    pub fn read_to_fault<R: Source>(&mut self, reader: &mut R) -> Result<(), StreamFault>
        requires reader { R.failed reader.old ≡ false }
        requires many { 2 ^ 32 ≤ self.old.count }
        ensures none { OnOk result (IsOfNoText steps_form (progress self.old (R.left reader.old))) }
        ensures err { IfErr result
            (IsFaultOn steps_form (progress self.old (R.left reader.old)) (R.left reader.new)) }
        ensures failing { IsErrOf result StreamFault.ReadFailed ↔ IsTrue (R.failed reader.new) }
    {
        while let Some(_) = self.next(reader)? {}
        Ok(())
    }
}
