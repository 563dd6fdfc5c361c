//! The tooltips of bars and marks. They say in words what the picture shows.

use crate::escaping::{put_condition, put_seat};
use crate::pieces::put;
use crate::sheet::Sheet;
use drawing::bar::Bar;
use drawing::kind::Kind;
use drawing::mark::Mark;
use explaining::words::put_entry;
use history::entry::Entry;
use history::number::put_wide;
use std::alloc::AllocError;

/// Appends the tooltip of a bar, and the end of the bar: its seat, what the seat does and how long, and the
/// bar's first entry.
pub(crate) fn put_bar_title(
    out: &mut Vec<u8>,
    sheet: Sheet<'_>,
    bar: Bar,
) -> Result<(), AllocError> {
    put_seat(out, sheet.names, b"'><title>seat ", bar.seat)?;
    put_state(out, sheet, bar)?;
    put(out, b", entries ", sheet.number_of(bar.first))?;
    put(out, b" to ", sheet.number_of(bar.last))?;
    out.extend_from_slice(b"; ")?;
    put_entry_words(out, sheet, bar.first)?;
    out.extend_from_slice(b"</title></rect>\n")
}

/// Appends what a seat does.
fn put_state(out: &mut Vec<u8>, sheet: Sheet<'_>, bar: Bar) -> Result<(), AllocError> {
    match bar.kind {
        Kind::Exclusive => put_holds(out, b", exclusive holds: ", bar.holds),
        Kind::Shared => put_holds(out, b", shared holds: ", bar.holds),
        Kind::InLine => out.extend_from_slice(b", in line"),
        Kind::Asleep(condition) => {
            put_condition(out, sheet.names, b", asleep on condition ", condition)
        }
    }
}

fn put_holds(out: &mut Vec<u8>, name: &[u8], holds: u128) -> Result<(), AllocError> {
    out.extend_from_slice(name)?;
    put_wide(out, holds)
}

/// Appends the tooltip of a mark, which is its entry, and the end of the mark.
pub(crate) fn put_mark_title(
    out: &mut Vec<u8>,
    sheet: Sheet<'_>,
    mark: Mark,
) -> Result<(), AllocError> {
    out.extend_from_slice(b"'><title>")?;
    put_entry_words(out, sheet, mark.number)?;
    out.extend_from_slice(b"</title></path>\n")
}

/// Appends the tooltip of an illegal entry's field, and the end of the field.
pub(crate) fn put_wrong_title(
    out: &mut Vec<u8>,
    sheet: Sheet<'_>,
    index: u64,
) -> Result<(), AllocError> {
    out.extend_from_slice(b"'><title>not legal: ")?;
    put_entry_words(out, sheet, index)?;
    out.extend_from_slice(b"</title></rect>\n")
}

/// Appends the entry of an index in words.
fn put_entry_words(out: &mut Vec<u8>, sheet: Sheet<'_>, index: u64) -> Result<(), AllocError> {
    put(out, b"entry ", sheet.number_of(index))?;
    put_maker(out, sheet, sheet.entry_at(index))
}

/// Appends who made an entry, and its words as a history text has them.
pub(crate) fn put_maker(
    out: &mut Vec<u8>,
    sheet: Sheet<'_>,
    entry: Option<Entry>,
) -> Result<(), AllocError> {
    match entry {
        None => Ok(()),
        Some(entry) => {
            put_seat(out, sheet.names, b": seat ", entry.seat)?;
            out.extend_from_slice(b" ")?;
            put_entry(out, entry)
        }
    }
}
