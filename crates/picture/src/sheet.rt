//! What a picture is drawn from.

use crate::naming::Names;
use crate::picture::Picture;
use history::entry::Entry;

/// What a picture is drawn from.
#[derive(Clone, Copy)]
pub(crate) struct Sheet<'a> {
    pub(crate) names: &'a Names,
    pub(crate) picture: &'a Picture,
    /// The entries after the base, from the first one on.
    pub(crate) entries: &'a [Entry],
    /// For each seat how many before it have a row, and after them how many seats have one.
    pub(crate) ranks: &'a [u64],
}

impl Sheet<'_> {
    /// Returns how many seats below a number have a row: for a seat that has one, it is the number of its
    /// row.
    pub(crate) fn row_of(self, seat: usize) -> u64 {
        match self.ranks.get(seat) {
            Some(row) => *row,
            None => 0,
        }
    }

    /// Returns how many rows there are.
    pub(crate) fn rows(self) -> u64 {
        self.row_of(self.picture.header.seats as usize)
    }

    /// Returns whether a seat has a row: then the rank of the next seat is another.
    pub(crate) fn has_row(self, seat: u16) -> bool {
        self.row_of(seat as usize) != self.row_of(seat as usize + 1)
    }

    /// Returns the number of an entry by which it is told. It counts folded entries too.
    pub(crate) fn number_of(self, index: u64) -> u64 {
        self.picture.folded.saturating_add(index)
    }

    /// Returns the entry of an index, if there is one.
    pub(crate) fn entry_at(self, index: u64) -> Option<Entry> {
        self.entries.get(index as usize).copied()
    }
}
