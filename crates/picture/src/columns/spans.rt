//! Which entries each column stands for.

/// The most columns.
pub(crate) const COLUMNS: u64 = 240;

/// How many entries there are, how many each column stands for, and how many columns there are. The last one
/// may stand for fewer.
#[derive(Clone, Copy, Debug)]
pub(crate) struct Spans {
    pub(crate) entries: u64,
    pub(crate) span: u64,
    pub(crate) count: u64,
}

impl Spans {
    /// Returns the columns of this many entries.
    pub(crate) fn of(entries: u64) -> Self {
        let span = entries.div_ceil(COLUMNS).max(1);
        Spans {
            entries,
            span,
            count: entries.div_ceil(span),
        }
    }

    /// Returns the first entry of a column.
    pub(crate) fn first(self, column: u64) -> u64 {
        column.saturating_mul(self.span)
    }

    /// Returns how many entries there are up to the last one of a column.
    pub(crate) fn end(self, column: u64) -> u64 {
        self.first(column.saturating_add(1)).min(self.entries)
    }

    /// Returns how many entries a column has.
    pub(crate) fn size(self, column: u64) -> u64 {
        self.end(column).saturating_sub(self.first(column))
    }

    /// Returns the column of an entry.
    pub(crate) fn column_of(self, entry: u64) -> u64 {
        entry / self.span.max(1)
    }
}
