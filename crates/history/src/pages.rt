//! Entries in pages, one of which is at hand.

ghost use Rattle.std.specs.Prelude.{◌≡◌, ◌+◌, ◌*◌, ◌^◌, ◌<◌, ◌≤◌, ◌++◌, max, [], ◌∷◌, length, set, take, slice_get, IsFalse, IsOk, IsTrue, OnOk, OnErr, vec_capacity};
ghost use Rattle.history.specs.Pages.{whole_pages};
ghost use Rattle.history.specs.inner.Paged.{AreKept, in_pages, used};

use crate::entry::Entry;
use crate::packed::{Packed, packed_at};
use crate::page::{PLACES, Page, reserve_pages};
use std::alloc::{AllocError, Global};
use std::marker::Model;

/// Entries in their order, in pages that are reserved once, and neither move nor grow.
///
/// The page at hand has the newest entries. While it has room, adding an entry is one store there. When it is
/// full, the next reserved page takes its place.
#[derive(Debug, Drop)]
pub(crate) struct Pages {
    /// How many entries there are.
    len: u64,
    /// The page at hand. It has no memory until a page is reserved.
    hand: Vec<Packed>,
    /// How many entries the reserved pages can hold.
    places: u64,
    /// How many of the other pages are full.
    full: usize,
    /// All other pages: first those that are full, then those that count as empty.
    others: Vec<Page>,
}

impl Model for Pages {
    ghost use Rattle.std.specs.Prelude.{◌≡◌, ◌+◌, ◌*◌, ◌++◌, length, vec_capacity};
    ghost use Rattle.history.specs.inner.Paged.{AreKept, PagesView, in_pages, used};

    ghost Value = { PagesView };

    ghost view = { λ a. record {
      entries = in_pages (used a.full a.others.items) ++ a.hand.items;
      places = a.places;
    } };

    ghost invariant = { λ a. AreKept (used a.full a.others.items) a.full a.hand.items (vec_capacity a.hand)
        × (a.len ≡ 1024 * a.full + length a.hand.items)
        × (a.places ≡ 1024 * length a.others.items + vec_capacity a.hand) };
}

impl Pages {
    /// Returns no pages. It allocates nothing.
    pub(crate) fn open(alloc: Global) -> Self
        ensures { result ≡ record { entries = []; places = 0 } }
    {
        Pages {
            len: 0,
            hand: Vec::new(alloc),
            places: 0,
            full: 0,
            others: Vec::new(alloc),
        }
    }

    /// Returns how many entries there are.
    pub(crate) fn len(&self) -> u64
        ensures value { result ≡ length self.now.entries }
        ensures within { result ≤ self.now.places }
        ensures few { result < 2 ^ 33 }
    {
        self.len
    }

    /// Returns the number of entries that the reserved memory can hold.
    pub(crate) fn places(&self) -> u64
        ensures value { result ≡ self.now.places }
        ensures few { result < 2 ^ 33 }
    {
        self.places
    }

    /// Returns the entry of a number. The oldest has number 0.
    pub(crate) fn get(&self, number: u64) -> Option<Entry>
        ensures { result ≡ slice_get self.now.entries number }
    {
        let place = number as usize;
        if place / PLACES == self.full {
            return packed_at(&self.hand, place % PLACES);
        }
        match full_pages(&self.others, self.full).get(place / PLACES) {
            Some(page) => page.get(place % PLACES),
            None => None,
        }
    }

    /// Reserves the pages that `entries` entries take, with those that are there already. On an error it
    /// reserves none.
    #[inline(always)]
    pub(crate) fn reserve(&mut self, entries: u64) -> Result<(), AllocError>
        requires { entries < 2 ^ 32 }
        ensures places { OnOk result (self.new.places ≡ max self.old.places (whole_pages entries)) }
        ensures same { self.new.entries ≡ self.old.entries }
        ensures reserved { entries ≤ self.old.places → IsOk result × (self.new ≡ self.old) }
        ensures err { OnErr result (self.new ≡ self.old) }
    {
        if entries <= self.places {
            return Ok(());
        }
        self.reserve_more(entries)
    }

    /// Reserves the pages that are lacking.
    #[cold]
    #[inline(never)]
    fn reserve_more(&mut self, entries: u64) -> Result<(), AllocError>
        requires few { entries < 2 ^ 32 }
        requires lacking { self.old.places < entries }
        ensures places { OnOk result (self.new.places ≡ max self.old.places (whole_pages entries)) }
        ensures same { self.new.entries ≡ self.old.entries }
        ensures err { OnErr result (self.new ≡ self.old) }
    {
        let places = self.places();
        let more = (entries as usize).div_ceil(PLACES) - places as usize / PLACES;
        reserve_pages(&mut self.others, more)?;
        self.places += (more * PLACES) as u64;
        if self.hand.capacity() == 0 {
            if let Some(page) = self.others.pop() {
                self.hand = page.into_entries();
            }
        }
        Ok(())
    }

    /// Adds an entry at a place that is reserved, on this page or the next. A full page is turned first, so
    /// that the entry goes from registers to its place, and no call takes it.
    #[inline(always)]
    pub(crate) fn add(&mut self, entry: Entry)
        requires { length self.old.entries < self.old.places }
        ensures { self.new ≡ record self.old { entries = self.old.entries ++ entry ∷ [] } }
    {
        find_place(&mut self.others, &mut self.full, &mut self.hand);
        self.hand.push_reserved(Packed::of(entry));
        self.len += 1;
    }

    /// Removes all entries. Their places stay. A page is cleared when it is taken, so this looks at no page but the
    /// one at hand.
    pub(crate) fn clear(&mut self)
        ensures { self.new ≡ record self.old { entries = [] } }
    {
        self.hand.clear();
        self.full = 0;
        self.len = 0;
    }

    /// Returns the full pages, and the entries at hand.
    pub(crate) fn parts(&self) -> (&[Page], &[Packed])
        ensures { self.now.entries ≡ in_pages result.0.now ++ result.1.now }
    {
        (full_pages(&self.others, self.full), &self.hand)
    }
}

/// Makes sure that the page at hand has a free place, if any page has one.
#[inline(always)]
fn find_place(others: &mut Vec<Page>, full: &mut usize, hand: &mut Vec<Packed>)
    requires kept { AreKept (used full.old others.old.items) full.old hand.old.items
        (vec_capacity hand.old) }
    requires place { length (in_pages (used full.old others.old.items) ++ hand.old.items)
        < 1024 * length others.old.items + vec_capacity hand.old }
    ensures kept { AreKept (used full.new others.new.items) full.new hand.new.items
        (vec_capacity hand.new) }
    ensures entries { in_pages (used full.new others.new.items) ++ hand.new.items
        ≡ in_pages (used full.old others.old.items) ++ hand.old.items }
    ensures others { length others.new.items ≡ length others.old.items }
    ensures capacity { vec_capacity hand.new ≡ vec_capacity hand.old }
    ensures place { length hand.new.items < vec_capacity hand.new }
{
    if hand.len() < PLACES {
        return;
    }
    turn_page(others, *full, hand);
    *full += 1;
}

/// Takes the next page to hand, in place of the full one, and removes what it has.
#[cold]
#[inline(never)]
fn turn_page(others: &mut Vec<Page>, next: usize, hand: &mut Vec<Packed>)
    requires next { next < length others.old.items }
    requires capacity { vec_capacity hand.old ≡ 1024 }
    ensures others { others.new.items ≡ set others.old.items next hand.old.items }
    ensures hand { hand.new.items ≡ [] }
    ensures capacity { vec_capacity hand.new ≡ 1024 }
{
    others[next].exchange(hand);
    hand.clear();
}

/// Returns the first `full` pages.
fn full_pages(others: &[Page], full: usize) -> &[Page]
    requires { full ≤ length others.now }
    ensures { result.now ≡ take full others.now }
{
    &others[..full]
}
