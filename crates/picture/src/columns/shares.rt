//! For how many entries of each column a seat held, waited in the queue, or waited on a condition.

use crate::columns::spans::{COLUMNS, Spans};
use crate::columns::tables::{add, at};
use drawing::bar::Bar;
use drawing::kind::Kind;
use std::alloc::{AllocError, Global};

/// For how many entries of a column a seat had exclusive holds, had shared ones, waited in the queue, and
/// waited on a condition.
#[derive(Clone, Copy, Debug)]
pub(crate) struct Shares {
    pub(crate) exclusive: u64,
    pub(crate) shared: u64,
    pub(crate) in_line: u64,
    pub(crate) asleep: u64,
}

impl Shares {
    /// Returns all shares together. A seat that has holds and waits counts twice.
    pub(crate) fn sum(self) -> u64 {
        let held = self.exclusive.saturating_add(self.shared);
        held.saturating_add(self.in_line)
            .saturating_add(self.asleep)
    }
}

/// Returns a table with the share of each seat and part in each column.
pub(crate) fn table_of(
    alloc: Global,
    spans: Spans,
    seats: u16,
    bars: &[Bar],
) -> Result<Vec<u64>, AllocError> {
    let mut table = vec![in alloc; 0; seats as usize * 4 * COLUMNS as usize]?;
    for bar in bars {
        note(&mut table, spans, *bar);
    }
    Ok(table)
}

/// Returns what the table has of a seat and a column.
pub(crate) fn shares_at(table: &[u64], seat: u16, column: u64) -> Shares {
    Shares {
        exclusive: at(table, place_of(seat, 0, column)),
        shared: at(table, place_of(seat, 1, column)),
        in_line: at(table, place_of(seat, 2, column)),
        asleep: at(table, place_of(seat, 3, column)),
    }
}

/// Adds the entries of a bar to the columns that have some of them.
fn note(table: &mut Vec<u64>, spans: Spans, bar: Bar) {
    let part = part_of(bar.kind);
    let end = spans.column_of(bar.last).saturating_add(1).min(spans.count);
    for column in spans.column_of(bar.first)..end {
        let first = bar.first.max(spans.first(column));
        let until = bar.last.saturating_add(1).min(spans.end(column));
        let place = place_of(bar.seat, part, column);
        add(
            table,
            place,
            until.saturating_sub(first),
            spans.size(column),
        );
    }
}

/// Returns the place of a seat's part in a column.
fn place_of(seat: u16, part: u8, column: u64) -> u64 {
    let track = u64::from(seat) * 4 + u64::from(part);
    (track * COLUMNS).saturating_add(column)
}

/// Returns the number of what a seat does.
fn part_of(kind: Kind) -> u8 {
    match kind {
        Kind::Exclusive => 0,
        Kind::Shared => 1,
        Kind::InLine => 2,
        Kind::Asleep(_) => 3,
    }
}
