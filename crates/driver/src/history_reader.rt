//! Reading the entries of a history text from its source, one at a time.

ghost use Rattle.std.specs.Prelude.{◌≡◌, ◌<◌, ◌≤◌, ◌↔◌, [], false, length, None};
ghost use Rattle.std.specs.Prelude.{Ok, IsTrue, IsErrOf, IfOk, IfErr, IfSome, OnErr};
ghost use Rattle.std.specs.Option.{option_copied};
ghost use Rattle.std.specs.Io.KnownBytes.{IsAtEnd};
ghost use Rattle.driver.specs.Below.{IsBasedWell, or_opening, MOST_FOLDED, IsBaseOf, IsInRange, HasNoBreak, history_form, IsTooLong, room};
ghost use Rattle.driver.specs.BaseReader.{IsPlacedBehind};
ghost use Rattle.driver.specs.inner.BaseReader.{IsBeginningRead};
ghost use Rattle.driver.specs.HistoryReader.{AreCounted, EntriesRead, IsEntryNext, IsStart};
ghost use Rattle.driver.specs.inner.HistoryReader.{entry_passed};
ghost use Rattle.driver.specs.TextReader.{IsFaultOf, KeepsPlace};

use crate::base_reader::read_base;
use crate::end_of::end_of;
use history::base::Base;
use history::entry::Entry;
use history::header::Header;
use history_text::next_entry::{head_of, next_entry};
use history_text::place::{Head, Place};
use history_text::spelt_number::SpeltNumber;
use std::alloc::Global;
use std::marker::Model;
use streams::fault::TextFault;
use streams::source::Source;
use streams::stream_fault::StreamFault;
use streams::window::Window;

/// A reader of a history text. It has read the header, the base if there is one, and the entries that were
/// asked for.
#[derive(Drop)]
pub struct HistoryReader {
    header: Header,
    base: Option<Base>,
    place: Place,
    spelt: SpeltNumber,
    window: Window,
}

impl Model for HistoryReader {
    ghost use Rattle.std.specs.Prelude.{◌≡◌, ◌≤◌, ◌+◌, ◌<◌, length};
    ghost use Rattle.history.specs.Entries.{or_opening};
    ghost use Rattle.history.specs.declared.limits.TheConstants.{MOST_FOLDED};
    ghost use Rattle.history.specs.GoodBase.{IsBaseOf};
    ghost use Rattle.history.specs.Header.{IsInRange};
    ghost use Rattle.history_text.specs.declared.base_under_way.TheConstants.{MOST_LINES};
    ghost use Rattle.driver.specs.HistoryReader.{EntriesHeld};
    ghost use Rattle.streams.specs.Window.{room};

    ghost Value = { EntriesHeld };

    ghost view = { λ r. record {
      header = r.header;
      base = r.base;
      place = r.place;
      bytes = r.window.bytes;
      places = r.window.places;
    } };

    ghost invariant = { λ r. (r.place.count ≤ r.header.cap) × (r.place.calls ≤ MOST_FOLDED + r.place.count)
        × (r.place.lines ≤ MOST_LINES) × (r.place.folded ≤ MOST_FOLDED) × IsInRange r.header
        × IsBaseOf r.header (or_opening r.header r.base) × (r.window.places ≡ room)
        × (length r.window.bytes ≤ room) };
}

impl HistoryReader {
    /// Reads the header of a text, and the base that follows it in a text of format 2.
    pub fn open<R: Source>(alloc: Global, reader: &mut R) -> Result<Self, StreamFault>
        requires { R.failed reader.old ≡ false }
        ensures ok { IfOk result (λ entries. EntriesRead (R.left reader.old) entries (R.left reader.new) []) }
        ensures err { IfErr result (IsFaultOf history_form (R.left reader.old) (R.left reader.new)) }
        ensures room { IfOk result (λ entries. entries.places ≡ room) }
        ensures failing { IsErrOf result StreamFault.ReadFailed ↔ IsTrue (R.failed reader.new) }
        ensures start { IfOk result IsStart }
        ensures none { IfOk result (λ entries. entries.place.folded ≡ 0 → entries.base ≡ None) }
    {
        let mut window = Window::open(alloc)?;
        window.read_line(reader)?;
        let (head, after) = head_of(window.bytes())?;
        let left = after.len();
        window.keep_last(left);
        let (base, place) = base_of(alloc, &head, &mut window, reader)?;
        Ok(HistoryReader {
            header: head.header,
            base,
            place,
            spelt: SpeltNumber::new(),
            window,
        })
    }

    /// Returns the header that the text began with.
    pub fn header(&self) -> Header
        ensures value { result ≡ self.now.header }
        ensures range { IsInRange self.now.header }
        ensures held { length self.now.bytes ≤ room }
    {
        self.header
    }

    /// Returns the base, if the text has one.
    pub fn base(&self) -> Option<&Base>
        ensures value { option_copied result ≡ self.now.base }
        ensures well { IsBasedWell self.now.header self.now.base }
    {
        self.base.as_ref()
    }

    /// Returns the base, if the text has one, and lets the reader go.
    pub(crate) fn into_base(self) -> Option<Base>
        ensures value { result ≡ self.base }
        ensures range { IsInRange self.header }
        ensures well { IsBasedWell self.header self.base }
    {
        let HistoryReader {
            header: _,
            base,
            place: _,
            spelt: _,
            window: _,
        } = self;
        base
    }

    /// Returns how many entries were folded into the base.
    pub fn folded(&self) -> u64
        ensures value { result ≡ self.now.place.folded }
        ensures few { result ≤ MOST_FOLDED }
    {
        self.place.folded
    }

    /// Returns how many entries were read after the base.
    pub fn count(&self) -> u64
        ensures value { result ≡ self.now.place.count }
        ensures few { result ≤ self.now.header.cap }
    {
        self.place.count
    }

    /// Returns how many calls ended, with those before the base.
    pub fn calls(&self) -> u64
        ensures { result ≡ self.now.place.calls }
    {
        self.place.calls
    }

    /// Counts one more entry. `left` is the number of bytes after its line.
    #[inline(always)]
    fn pass(&mut self, entry: Entry, left: usize)
        requires { (left ≤ length self.old.bytes) × (self.old.place.count < self.old.header.cap) }
        ensures { self.new ≡ entry_passed entry left self.old }
    {
        self.place = self.place.behind(&entry);
        self.window.keep_last(left);
    }

    /// As `next`, if the window doesn't hold a whole line yet.
    #[inline(never)]
    fn next_after_reading<R: Source>(
        &mut self,
        reader: &mut R,
    ) -> Result<Option<Entry>, StreamFault>
        requires { R.failed reader.old ≡ false }
        ensures header { self.new.header ≡ self.old.header }
        ensures base { self.new.base ≡ self.old.base }
        ensures next { IsEntryNext self.old (R.left reader.old) result self.new (R.left reader.new) }
        ensures stands { KeepsPlace self.old.bytes (R.left reader.old) result self.new.bytes
            (R.left reader.new) }
        ensures counted { IfOk result (λ next. AreCounted self.old next self.new) }
        ensures uncounted { OnErr result (self.new.place ≡ self.old.place) }
        ensures places { self.new.places ≡ self.old.places }
        ensures held { length self.new.bytes ≤ room }
        ensures ready { (HasNoBreak self.old.bytes → ⊥) →
            IfOk result (λ next. IfSome next (λ _. reader.new ≡ reader.old)) }
        ensures ended { result ≡ Ok None → IsAtEnd (R.left reader.new) }
        ensures memory { IsErrOf result StreamFault.Memory → IfSome (R.left reader.old) IsTooLong }
        ensures failing { IsErrOf result StreamFault.ReadFailed ↔ IsTrue (R.failed reader.new) }
    {
        self.window.read_line(reader)?;
        let Some((entry, left)) = next_entry(
            self.window.bytes(),
            &self.header,
            &mut self.spelt,
            self.place,
        )?
        else {
            let lines = self.place.lines + self.place.count;
            return end_of(&mut self.window, reader, lines);
        };
        self.pass(entry, left);
        Ok(Some(entry))
    }

    /// Returns the next entry, or None after the last. Then nothing follows the end line.
    ///
    /// After None or a fault the reader's position is as before. Only bytes of a line that is longer than any
    /// good one may be gone.
    #[inline(always)]
    pub fn next<R: Source>(&mut self, reader: &mut R) -> Result<Option<Entry>, StreamFault>
        requires { R.failed reader.old ≡ false }
        ensures header { self.new.header ≡ self.old.header }
        ensures base { self.new.base ≡ self.old.base }
        ensures next { IsEntryNext self.old (R.left reader.old) result self.new (R.left reader.new) }
        ensures stands { KeepsPlace self.old.bytes (R.left reader.old) result self.new.bytes
            (R.left reader.new) }
        ensures counted { IfOk result (λ next. AreCounted self.old next self.new) }
        ensures uncounted { OnErr result (self.new.place ≡ self.old.place) }
        ensures places { self.new.places ≡ self.old.places }
        ensures held { length self.new.bytes ≤ room }
        ensures ready { (HasNoBreak self.old.bytes → ⊥) →
            IfOk result (λ next. IfSome next (λ _. reader.new ≡ reader.old)) }
        ensures ended { result ≡ Ok None → IsAtEnd (R.left reader.new) }
        ensures memory { IsErrOf result StreamFault.Memory → IfSome (R.left reader.old) IsTooLong }
        ensures failing { IsErrOf result StreamFault.ReadFailed ↔ IsTrue (R.failed reader.new) }
    {
        match next_entry(
            self.window.bytes(),
            &self.header,
            &mut self.spelt,
            self.place,
        ) {
            Ok(Some((entry, left))) => {
                self.pass(entry, left);
                Ok(Some(entry))
            }
            Ok(None) => {
                let lines = self.place.lines + self.place.count;
                end_of(&mut self.window, reader, lines)
            }
            Err(TextFault::BadLine(line)) => Err(StreamFault::Text(TextFault::BadLine(line))),
            Err(_) => self.next_after_reading(reader),
        }
    }
}

/// Reads the base lines of a format-2 text, if there are any. Returns the base and the reader's position
/// after it.
fn base_of<R: Source>(
    alloc: Global,
    head: &Head,
    window: &mut Window,
    reader: &mut R,
) -> Result<(Option<Base>, Place), StreamFault>
    requires reader { R.failed reader.old ≡ false }
    requires range { IsInRange head.now.header }
    requires room { window.old.places ≡ room }
    requires held { length window.old.bytes ≤ room }
    ensures read { IsBeginningRead head.now window.old.bytes (R.left reader.old) result window.new.bytes
        (R.left reader.new) }
    ensures base { IfOk result (λ r. IsBaseOf head.now.header (or_opening head.now.header r.0)) }
    ensures place { IfOk result (λ r. IsPlacedBehind (or_opening head.now.header r.0) r.1) }
    ensures none { IfOk result (λ r. r.1.folded ≡ 0 → r.0 ≡ None) }
    ensures places { window.new.places ≡ window.old.places }
    ensures held { length window.new.bytes ≤ room }
    ensures failing { IsErrOf result StreamFault.ReadFailed ↔ IsTrue (R.failed reader.new) }
{
    if head.is_based {
        let (base, place) = read_base(alloc, head, window, reader)?;
        return Ok((Some(base), place));
    }
    let place = Place {
        lines: 0,
        folded: 0,
        count: 0,
        calls: 0,
    };
    Ok((None, place))
}
