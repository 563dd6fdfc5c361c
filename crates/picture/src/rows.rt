//! Which seats have a row, and where. A seat that has no bar and made none of the entries has no row.

use crate::picture::Picture;
use drawing::bar::Bar;
use history::entry::Entry;
use std::alloc::{AllocError, Global};

/// Returns for each seat how many before it have a row, and after them how many seats have one. A seat has a
/// row if it has a bar, or made one of the entries that are drawn, or the first illegal one after them.
pub(crate) fn ranks_of(
    alloc: Global,
    picture: &Picture,
    entries: &[Entry],
) -> Result<Vec<u64>, AllocError> {
    let with_row = seats_with_row(alloc, picture, entries)?;
    let with_row: &[bool] = &with_row;
    let mut ranks = Vec::new(alloc);
    let mut rank: u64 = 0;
    for has_row in with_row {
        ranks.push(rank)?;
        rank = rank.saturating_add(u64::from(*has_row));
    }
    ranks.push(rank)?;
    Ok(ranks)
}

/// Returns for each seat whether it has a row.
fn seats_with_row(
    alloc: Global,
    picture: &Picture,
    entries: &[Entry],
) -> Result<Vec<bool>, AllocError> {
    let mut table = vec![in alloc; false; picture.header.seats as usize]?;
    let bars: &[Bar] = &picture.drawn.bars;
    for bar in bars {
        note(&mut table, bar.seat);
    }
    // The illegal entry has a place, if it is the next.
    let end = picture.to.saturating_add(u64::from(picture.ends_wrong()));
    for entry in between(entries, picture.from, end) {
        note(&mut table, entry.seat);
    }
    Ok(table)
}

/// Notes a seat, if the table has it.
fn note(table: &mut Vec<bool>, seat: u16) {
    if (seat as usize) < table.len() {
        table[seat as usize] = true;
    }
}

/// Returns the items from a place on, before another, as far as there are such.
pub(crate) fn between<T>(items: &[T], first: u64, end: u64) -> &[T] {
    let count = items.len();
    let end = if (count as u64) < end {
        count
    } else {
        end as usize
    };
    let first = if (end as u64) < first {
        end
    } else {
        first as usize
    };
    &items[first..end]
}
