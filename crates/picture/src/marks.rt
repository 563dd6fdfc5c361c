//! Marks of single entries.

use crate::grid::{Grid, put_mark_place};
use crate::sheet::Sheet;
use crate::titles::put_mark_title;
use drawing::mark::{Mark, Sign};
use std::alloc::AllocError;

/// Appends all marks, each in the middle of its entry, below the bars of the row of its seat.
pub(crate) fn put_marks(out: &mut Vec<u8>, sheet: Sheet<'_>, grid: Grid) -> Result<(), AllocError> {
    let marks: &[Mark] = &sheet.picture.drawn.marks;
    for mark in marks {
        let row = sheet.row_of(mark.seat as usize);
        put_mark_place(out, grid, mark.number, row)?;
        out.extend_from_slice(shape_of(mark.sign))?;
        put_mark_title(out, sheet, *mark)?;
    }
    Ok(())
}

/// Returns the shape: a circle, a cross, a triangle that points up, one that points down, three strokes, a
/// tick, a clock, a zigzag, or two arrowheads.
fn shape_of(sign: Sign) -> &'static [u8] {
    match sign {
        Sign::Missed => b"m-3 0a3 3 0 1 0 6 0a3 3 0 1 0 -6 0",
        Sign::Refused => b"m-3 -3l6 6m0 -6l-6 6",
        Sign::Signal => b"m0 -4l3 7h-6z",
        Sign::Drained => b"m0 4l3 -7h-6z",
        Sign::Counted => b"m-3 -4v8m3 -8v8m3 -8v8",
        Sign::Granted => b"m-4 0l3 3l5 -6",
        Sign::TimedOut => b"m-4 0a4 4 0 1 0 8 0a4 4 0 1 0 -8 0m4 -3v3h2",
        Sign::Interrupted => b"m1 -4l-3 4h4l-3 4",
        Sign::Barged => b"m-4 -4l4 4l-4 4m4 -8l4 4l-4 4",
    }
}
