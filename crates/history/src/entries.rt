//! A list of entries that only grows or is folded into a base, with room that stays reserved.

ghost use Rattle.std.specs.Prelude.{◌≡◌, ◌+◌, ◌*◌, ◌^◌, ◌<◌, ◌≤◌, ◌↔◌, ◌⊎◌, max, min, [], ◌∷◌, length, reverse, slice_get, Some, None, IsTrue, IsFalse, IsOk, IsErrOf, OnOk, OnErr, IfOk, IfErr, IsSome, IsSomeAnd};
ghost use Rattle.std.specs.Option.{option_copied, option_map};
ghost use Rattle.history.specs.declared.limits.TheConstants.{MOST_FOLDED};
ghost use Rattle.history.specs.declared.fault.Fault.TheVariants.{HistoryFull, OutOfMemory, TrimFull};
ghost use Rattle.history.specs.Base.{folded};
ghost use Rattle.history.specs.Entry.{ends_call};
ghost use Rattle.history.specs.Entries.{all_calls};
ghost use Rattle.history.specs.Fold.{MayFold};
ghost use Rattle.history.specs.Pages.{whole_pages};

use crate::base::Base;
use crate::entry::{Entry, Word};
use crate::fault::Fault;
use crate::fold::fold_onto;
use crate::pages::Pages;
use std::alloc::Global;
use std::marker::Model;

/// The entries of a history in their order, at most `cap` of them.
///
/// They are kept in pages of 1,024 places. A page is reserved once, and neither moves nor grows: only the
/// list of pages does. So no call ever copies an entry again.
///
/// Before an entry is added, [`make_room`](History::make_room) reserves its place. Room for `owed` more
/// entries stays reserved. These are the entries by which the calls already let in will end, so none of them
/// ever lacks a place or memory.
#[derive(Debug, Drop)]
pub struct History {
    owed: u64,
    /// How many of the entries end a call.
    calls: u64,
    pages: Pages,
    cap: u32,
    base: Option<Base>,
}

impl Model for History {
    ghost use Rattle.std.specs.Prelude.{reverse};
    ghost use Rattle.history.specs.Entries.{HistoryView};
    ghost use Rattle.history.specs.inner.Paged.{HasRoomOwed};

    ghost Value = { HistoryView };

    ghost view = { λ a. record {
      cap = a.cap;
      base = a.base;
      entries = reverse a.pages.entries;
      owed = a.owed;
      places = a.pages.places;
    } };

    ghost invariant = { λ a. HasRoomOwed a.pages a.cap a.owed a.calls };
}

impl History {
    /// Returns an empty history. It allocates nothing.
    pub fn open(alloc: Global, cap: u32) -> Self
        ensures { result ≡ record { cap = cap; base = None; entries = []; owed = 0; places = 0 } }
    {
        History {
            owed: 0,
            calls: 0,
            pages: Pages::open(alloc),
            cap,
            base: None,
        }
    }

    /// Returns an empty history on a base. It allocates nothing.
    pub fn open_on(cap: u32, base: Base) -> Self
        ensures { result ≡ record { cap = cap; base = Some base; entries = []; owed = 0; places = 0 } }
    {
        let alloc = *base.line.allocator();
        let mut history = History::open(alloc, cap);
        history.base = Some(base);
        history
    }

    /// Returns the state that the folded entries left, if the history began on a base.
    pub fn base(&self) -> Option<&Base>
        ensures { option_copied result ≡ self.now.base }
    {
        self.base.as_ref()
    }

    /// Returns how many entries there are.
    pub fn len(&self) -> u64
        ensures value { result ≡ length self.now.entries }
        ensures within_cap { result ≤ self.now.cap }
        ensures few { result < 2 ^ 32 }
    {
        self.pages.len()
    }

    pub fn is_empty(&self) -> bool
        ensures { IsTrue result ↔ (self.now.entries ≡ []) }
    {
        self.pages.len() == 0
    }

    /// Returns the greatest number of entries.
    pub fn cap(&self) -> u32
        ensures { result ≡ self.now.cap }
    {
        self.cap
    }

    /// Returns for how many more entries room stays reserved.
    pub fn owed(&self) -> u64
        ensures value { result ≡ self.now.owed }
        ensures reserved { length self.now.entries + result ≤ self.now.places }
        ensures within_cap { length self.now.entries + result ≤ self.now.cap }
    {
        self.owed
    }

    /// Returns the number of entries that the reserved memory holds, with those that are in it. Memory is
    /// reserved in whole pages, so the number may pass the cap by less than a page.
    pub fn places(&self) -> u64
        ensures value { result ≡ self.now.places }
        ensures bounded { result < self.now.cap + 1024 }
    {
        self.pages.places()
    }

    /// Returns the number of calls that ended: those of the base, and those of the entries. It is `u64::MAX`
    /// if there are more, which a good base rules out.
    pub fn calls(&self) -> u64
        ensures { result ≡ min (all_calls self.now) u64.MAX }
    {
        match &self.base {
            Some(base) => base.calls().saturating_add(self.calls),
            None => self.calls,
        }
    }

    /// Returns the entry of a number. The oldest has number 0.
    pub fn get(&self, number: u64) -> Option<Entry>
        ensures { result ≡ slice_get (reverse self.now.entries) number }
    {
        self.pages.get(number)
    }

    /// Reserves places for `needed` more entries, beyond those owed, in no more pages than all these take.
    ///
    /// - `HistoryFull`: they don't fit within the cap.
    /// - `OutOfMemory`: only if places were lacking. The code returns it if a page, or the list of pages, is
    ///   refused. No clause says so.
    ///
    /// After a fault nothing has changed, and no page is kept. If no place was lacking, as with 0, nothing
    /// changes.
    #[inline(always)]
    pub fn make_room(&mut self, needed: u64) -> Result<(), Fault>
        ensures full { IsErrOf result HistoryFull
            ↔ (self.old.cap < length self.old.entries + self.old.owed + needed) }
        ensures faults { IfErr result (λ fault. (fault ≡ HistoryFull) ⊎ (fault ≡ OutOfMemory)) }
        ensures memory { IsErrOf result OutOfMemory
            → self.old.places < length self.old.entries + self.old.owed + needed }

        // The pages are exactly those that the entries take.
        ensures places { OnOk result (self.new.places
            ≡ max self.old.places (whole_pages (length self.old.entries + self.old.owed + needed))) }
        ensures reserved { length self.old.entries + self.old.owed + needed ≤ self.old.places
            → self.new ≡ self.old }
        ensures ok { OnOk result (length self.new.entries + self.new.owed + needed ≤ self.new.places) }
        ensures within_cap { OnOk result (length self.new.entries + self.new.owed + needed ≤ self.new.cap) }

        // Nothing but the places changes.
        ensures same { self.new ≡ record self.old { places = self.new.places } }
        ensures err { OnErr result (self.new ≡ self.old) }
    {
        let cap = u64::from(self.cap());
        let taken = self.len() + self.owed();
        if cap - taken < needed {
            return Err(Fault::HistoryFull);
        }
        self.reserve(taken + needed)
    }

    /// Reserves the pages that the first `entries` entries take, with those that are there already.
    #[inline(always)]
    fn reserve(&mut self, entries: u64) -> Result<(), Fault>
        requires { entries ≤ self.old.cap }
        ensures places { OnOk result (self.new.places ≡ max self.old.places (whole_pages entries)) }
        ensures enough { OnOk result (entries ≤ self.new.places) }
        ensures same { self.new ≡ record self.old { places = self.new.places } }
        ensures reserved { entries ≤ self.old.places → IsOk result × (self.new ≡ self.old) }
        ensures err { IfErr result (λ fault. (fault ≡ OutOfMemory) × (self.new ≡ self.old)) }
    {
        match self.pages.reserve(entries) {
            Ok(()) => Ok(()),
            Err(_) => Err(Fault::OutOfMemory),
        }
    }

    /// Adds an entry at a place that is reserved, and sets how much room is owed after it. It allocates
    /// nothing.
    #[inline(always)]
    pub fn add(&mut self, entry: Entry, owed: u64)
        requires reserved { length self.old.entries + 1 + owed ≤ self.old.places }
        requires within_cap { length self.old.entries + 1 + owed ≤ self.old.cap }
        ensures { self.new ≡ record self.old { entries = entry ∷ self.old.entries; owed = owed } }
    {
        self.pages.add(entry);
        self.owed = owed;
        self.calls += u64::from(ends_call(entry.word));
    }

    /// Returns whether the entries may be folded: the history has a base, whose limit would not be passed.
    pub fn may_fold(&self) -> bool
        requires { IsSomeAnd self.now.base (λ base. base.entries ≤ MOST_FOLDED) }
        ensures { IsFalse result ↔ IsSomeAnd self.now.base
            (λ base. MOST_FOLDED < base.entries + length self.now.entries) }
    {
        match &self.base {
            Some(base) => base.may_fold(self.pages.len()),
            None => false,
        }
    }

    /// Takes the base out. A caller that knows the state after the entries writes it into the base, and
    /// [begins on](History::begin_on) that: a fold that looks at no entry.
    pub fn take_base(&mut self) -> Base
        requires { IsSome self.old.base }
        ensures base { self.old.base ≡ Some result }
        ensures taken { self.new ≡ record self.old { base = None } }
    {
        self.base.take().unwrap()
    }

    /// Begins anew on this base, without entries. It allocates nothing. What is reserved and what is owed
    /// stay.
    pub fn begin_on(&mut self, base: Base)
        ensures { self.new ≡ record self.old { base = Some base; entries = [] } }
    {
        self.base = Some(base);
        self.pages.clear();
        self.calls = 0;
    }

    /// Folds all entries into the base, and returns how many there were. It allocates nothing. What is
    /// reserved and what is owed stay.
    ///
    /// `TrimFull`: the base's limit of folded entries would be passed. Then nothing has changed.
    pub fn fold(&mut self) -> Result<u64, Fault>
        // It began on a base, and its entries are legal from there.
        requires { IsSomeAnd self.old.base (λ base. MayFold base self.old.entries) }
        ensures count { IfOk result (λ count. count ≡ length self.old.entries) }
        ensures folded { OnOk result (self.new ≡ record self.old {
          base = option_map (λ base. folded base self.old.entries) self.old.base;
          entries = [];
        }) }

        // The base may fold the entries that come next.
        ensures goes_on { OnOk result (IsSomeAnd self.new.base (λ base. MayFold base [])) }
        ensures full { IsErrOf result TrimFull
            ↔ IsSomeAnd self.old.base (λ base. MOST_FOLDED < base.entries + length self.old.entries) }
        ensures err { IfErr result (λ fault. (fault ≡ TrimFull) × (self.new ≡ self.old)) }
    {
        let count = self.pages.len();
        if !fold_onto(&mut self.base, &self.pages, count) {
            return Err(Fault::TrimFull);
        }
        self.pages.clear();
        self.calls = 0;
        Ok(count)
    }
}

/// Returns whether an entry with this word ends a call. All do but those after which the seat waits.
pub fn ends_call(word: Word) -> bool
    ensures { result ≡ ends_call word }
{
    !matches!(word, Word::Queued | Word::Await | Word::Lapse)
}
