//! The rows of the seats, the scale below them, and the place of an illegal entry.

use crate::escaping::put_seat;
use crate::naming::Names;
use crate::pieces::{Rect, put, put_placed, put_rect};
use crate::sheet::Sheet;
use crate::titles::put_wrong_title;
use history::header::Object;
use std::alloc::AllocError;

/// Where the rows stand, in pixels, and the places in them: one for an entry, or for a column of entries.
#[derive(Clone, Copy, Debug)]
pub(crate) struct Grid {
    /// The number of the first place.
    pub(crate) from: u64,
    /// How many places there are.
    pub(crate) places: u64,
    /// The left edge of the first place. The seats are told left of it.
    pub(crate) left: u64,
    /// How wide each place is.
    pub(crate) step: u64,
    /// The upper edge of the first row.
    pub(crate) top: u64,
    pub(crate) rows: u64,
}

impl Grid {
    /// Returns the left edge of a place.
    pub(crate) fn x(self, place: u64) -> u64 {
        let before = place.saturating_sub(self.from);
        self.left.saturating_add(before.saturating_mul(self.step))
    }

    /// Returns the upper edge of a row.
    pub(crate) fn y(self, row: u64) -> u64 {
        self.top.saturating_add(row.saturating_mul(40))
    }

    /// Returns the lower edge of all rows.
    pub(crate) fn bottom(self) -> u64 {
        self.y(self.rows)
    }

    /// Returns the right edge of all places, with room for an illegal entry after them.
    pub(crate) fn right(self) -> u64 {
        let after = self.places.saturating_add(1);
        self.x(self.from.saturating_add(after))
    }

    /// Returns the width of a picture, of at least so many pixels.
    pub(crate) fn width(self, least: u64) -> u64 {
        self.right().saturating_add(16).max(least)
    }
}

/// Returns the left edge of the first place. The names of seats need more room than their numbers.
pub(crate) fn left_of(names: &Names) -> u64 {
    if names.name_a_seat() { 200 } else { 72 }
}

/// Returns what the amounts of an object are, if it has some. Everybody has a share of such an object.
pub(crate) fn amounts_of(object: Object) -> Option<&'static [u8]> {
    match object {
        Object::Lock(_) | Object::ReadWrite(_) => None,
        Object::Semaphore(_, _) => Some(b"free"),
        Object::Latch(_) => Some(b"count"),
    }
}

/// Appends the rows of the seats that have one. A seat is told so far below the upper edge of its row.
pub(crate) fn put_rows(
    out: &mut Vec<u8>,
    sheet: Sheet<'_>,
    grid: Grid,
    lower: u64,
) -> Result<(), AllocError> {
    for seat in 0..sheet.picture.header.seats {
        if sheet.has_row(seat) {
            let row = sheet.row_of(seat as usize);
            put_shade(out, grid, row)?;
            put_placed(out, b"<text x='", 8, grid.y(row).saturating_add(lower))?;
            put_seat(out, sheet.names, b"'>seat ", seat)?;
            out.extend_from_slice(b"</text>\n")?;
        }
    }
    Ok(())
}

/// Appends the background of a row. Every other one is shaded.
fn put_shade(out: &mut Vec<u8>, grid: Grid, row: u64) -> Result<(), AllocError> {
    if row % 2 == 1 {
        return Ok(());
    }
    let area = Rect {
        x: 0,
        y: grid.y(row),
        width: grid.right(),
        height: 40,
    };
    put_rect(out, b"<rect class='r' x='", area)?;
    out.extend_from_slice(b"'/>\n")
}

/// Appends a line of the scale before a place, from `top` down through all rows, and an entry's number below
/// it.
pub(crate) fn put_tick(
    out: &mut Vec<u8>,
    grid: Grid,
    top: u64,
    place: u64,
    number: u64,
) -> Result<(), AllocError> {
    let x = grid.x(place);
    let bottom = grid.bottom();
    put(out, b"<path class='g' d='M", x)?;
    put(out, b" ", top)?;
    put(out, b"V", bottom.saturating_add(4))?;
    put_placed(
        out,
        b"'/>\n<text x='",
        x.saturating_add(3),
        bottom.saturating_add(14),
    )?;
    put(out, b"'>", number)?;
    out.extend_from_slice(b"</text>\n")
}

/// Appends the place of the illegal entry, if it follows those that are drawn: an exclamation mark in the row
/// of its seat, and a field through all rows.
pub(crate) fn put_wrong(out: &mut Vec<u8>, sheet: Sheet<'_>, grid: Grid) -> Result<(), AllocError> {
    let place = sheet.picture.to;
    if !sheet.picture.ends_wrong() {
        return Ok(());
    }
    if let Some(entry) = sheet.entry_at(place) {
        put_mark_place(out, grid, place, sheet.row_of(entry.seat as usize))?;
        out.extend_from_slice(b"m0 -5v5m0 2v2'/>\n")?;
    }
    let area = Rect {
        x: grid.x(place),
        y: grid.top,
        width: grid.step,
        height: grid.rows.saturating_mul(40),
    };
    put_rect(out, b"<rect class='e' x='", area)?;
    put_wrong_title(out, sheet, place)
}

/// Appends the beginning of a mark in the middle of a place, below the bars of a row.
pub(crate) fn put_mark_place(
    out: &mut Vec<u8>,
    grid: Grid,
    place: u64,
    row: u64,
) -> Result<(), AllocError> {
    put(
        out,
        b"<path class='m' d='M",
        grid.x(place).saturating_add(grid.step / 2),
    )?;
    put(out, b" ", grid.y(row).saturating_add(34))
}
