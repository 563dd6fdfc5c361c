//! A page of a history.

ghost use Rattle.std.specs.Prelude.{◌≡◌, ◌++◌, [], slice_get, IfOk, OnOk, OnErr, replicate, vec_capacity};

use crate::entry::Entry;
use crate::packed::{Packed, packed_at};
use std::alloc::{AllocError, Global};
use std::marker::Model;
use std::mem::swap;

/// How many entries a page holds.
pub(crate) const PLACES: usize = 1024;

/// Entries in their order, in memory that is reserved once and neither moves nor grows.
#[derive(Debug, Drop)]
pub(crate) struct Page {
    entries: Vec<Packed>,
}

impl Model for Page {
    ghost use Rattle.std.specs.Prelude.{◌≡◌, List, vec_capacity};
    ghost use Rattle.history.specs.declared.entry.Entry.{Entry};

    ghost Value = { List Entry };

    ghost view = { λ a. a.entries.items };

    ghost invariant = { λ a. vec_capacity a.entries ≡ 1024 };
}

impl Page {
    /// Reserves an empty page.
    pub(crate) fn reserve(alloc: Global) -> Result<Page, AllocError>
        ensures { IfOk result (λ page. page ≡ []) }
    {
        let entries = Vec::with_capacity(alloc, PLACES)?;
        Ok(Page { entries })
    }

    /// Returns the entry at a place. Places are counted from 0.
    pub(crate) fn get(&self, place: usize) -> Option<Entry>
        ensures { result ≡ slice_get self.now place }
    {
        packed_at(&self.entries, place)
    }

    /// Returns the entries in their order.
    pub(crate) fn entries(&self) -> &[Packed]
        ensures { result.now ≡ self.now }
    {
        &self.entries
    }

    /// Exchanges its entries for others, whose memory has room for as many.
    pub(crate) fn exchange(&mut self, entries: &mut Vec<Packed>)
        requires { vec_capacity entries.old ≡ 1024 }
        ensures put { self.new ≡ entries.old.items }
        ensures got { entries.new.items ≡ self.old }
        ensures capacity { vec_capacity entries.new ≡ 1024 }
    {
        swap(&mut self.entries, entries);
    }

    /// Returns its entries with their memory.
    pub(crate) fn into_entries(self) -> Vec<Packed>
        ensures items { result.items ≡ self }
        ensures capacity { vec_capacity result ≡ 1024 }
    {
        self.entries
    }
}

/// Appends `more` empty pages to the list, or none.
#[cold]
#[inline(never)]
pub(crate) fn reserve_pages(pages: &mut Vec<Page>, more: usize) -> Result<(), AllocError>
    ensures ok { OnOk result (pages.new.items ≡ pages.old.items ++ replicate more []) }
    ensures err { OnErr result (pages.new.items ≡ pages.old.items) }
{
    let standing = pages.len();
    let alloc = *pages.allocator();
    pages.reserve(more)?;
    for _ in 0..more {
        match Page::reserve(alloc) {
            Ok(page) => pages.push_reserved(page),
            Err(refused) => {
                pages.truncate(standing);
                return Err(refused);
            }
        }
    }
    Ok(())
}
