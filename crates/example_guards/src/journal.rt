//! A journal: a sequence that only grows, under a lock. Who writes an entry has a receipt, and can show the entry at its
//! place later, whoever had the lock meanwhile.
ghost use Rattle.std.specs.Prelude.{◌≡◌, ◌+◌, ◌<◌, ◌^◌, IfErr, IfOk, Some};
ghost use Rattle.boxcar.specs.Table.{Shelves, Shows};

use boxcar::Anything;
use boxcar::table::{Placed, Table};
use history::fault::Fault;
use std::alloc::Global;
use std::marker::{Brand, PhantomData};
use std::sync::Wait;

/// The entries, each of which is written once.
pub type Entries = Table<u64, Anything, Global>;

/// What shows that an entry stands at a place. Its thread keeps it, and may keep it without the lock.
pub type Receipt = Placed<u64, Anything, Global>;

/// Which table of entries a journal has.
pub trait Named {
    ghost table: { Shelves };
}

impl Named for Brand {
    ghost use Rattle.std.specs.Prelude.{[]};

    ghost table = { record { tag = []; buckets = [] } };
}

/// The entries, and how many there are.
#[derive(Drop)]
pub struct Journal<K: Named> {
    entries: Entries,
    length: usize,
    of: PhantomData<K>,
    ghost is: { entries ≡ K.table },
    ghost fits: { length < 2 ^ 64 },
}

impl<K: Named> Journal<K> {
    /// A journal with no entry yet.
    pub fn new(entries: Entries) -> Journal<K>
        requires { entries ≡ K.table }
        ensures { result.length ≡ 0 }
    {
        Journal {
            entries,
            length: 0,
            of: PhantomData,
        }
    }

    /// Writes an entry after the last one.
    pub fn write<R: Wait>(&mut self, rt: &R, entry: u64) -> Result<Receipt, Fault>
        ensures shows { IfOk result (Shows K.table) }
        ensures entry { IfOk result (λ receipt. receipt.value ≡ entry) }
        ensures last { IfOk result (λ receipt. receipt.index ≡ self.old.length) }
        ensures longer { IfOk result (λ _. self.new.length ≡ self.old.length + 1) }
        ensures same { IfErr result (λ _. self.new.length ≡ self.old.length) }
    {
        let place = self.length;
        let Some(next) = place.checked_add(1) else {
            return Err(Fault::OutOfMemory);
        };
        let Ok(receipt) = self.entries.set_placed(rt, place, entry) else {
            return Err(Fault::OutOfMemory);
        };
        self.length = next;
        Ok(receipt)
    }

    /// Returns the entry of a receipt.
    pub fn entry(&self, receipt: &Receipt) -> u64
        requires shows { Shows K.table receipt.now }
        ensures { result ≡ receipt.now.value }
    {
        *self.entries.value(receipt)
    }

    /// Returns the entry at this place. At the place of the receipt it is the one that the receipt shows.
    pub fn at(&self, place: usize, receipt: &Receipt) -> Option<u64>
        requires shows { Shows K.table receipt.now }
        ensures entry { place ≡ receipt.now.index → result ≡ Some receipt.now.value }
    {
        self.entries.get_seen(place, receipt).copied()
    }

    /// A place has one entry.
    pub fn agree(&self, one: &Receipt, other: &Receipt)
        requires one { Shows K.table one.now }
        requires other { Shows K.table other.now }
        ensures { one.now.index ≡ other.now.index → one.now.value ≡ other.now.value }
    {
        if one.index() == other.index() {
            self.entries.agrees(one, other);
        }
    }
}
