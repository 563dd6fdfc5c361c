//! The curve of a semaphore's free permits, or of a latch's count.

use crate::grid::{Grid, amounts_of};
use crate::pieces::{put, put_amount, put_word};
use crate::range::Range;
use crate::sheet::Sheet;
use std::alloc::AllocError;

/// Appends the curve, if the object has one: its name, its highest and lowest number, and its line.
pub(crate) fn put_curve(out: &mut Vec<u8>, sheet: Sheet<'_>, grid: Grid) -> Result<(), AllocError> {
    let amounts: &[i128] = &sheet.picture.drawn.curve;
    let Some(word) = amounts_of(sheet.picture.header.object) else {
        return Ok(());
    };
    let range = Range::with_zero(amounts);
    let end = grid.left.saturating_sub(4);
    put_word(out, 138, word)?;
    put_amount(out, end, 112, &range.high)?;
    put_amount(out, end, 164, &range.low)?;
    put_line(out, grid, range, amounts)
}

/// Appends the line of the curve. For each entry it goes up or down to the amount and then to the right.
fn put_line(
    out: &mut Vec<u8>,
    grid: Grid,
    range: Range,
    amounts: &[i128],
) -> Result<(), AllocError> {
    put(out, b"<path class='c' d='M", grid.left)?;
    out.extend_from_slice(b" 164")?;
    for amount in amounts {
        put(out, b"V", 164u64.saturating_sub(range.up(amount, 56)))?;
        put(out, b"h", grid.step)?;
    }
    out.extend_from_slice(b"'/>\n")
}
