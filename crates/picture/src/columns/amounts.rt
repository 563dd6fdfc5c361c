//! The row of a semaphore's free permits, or of a latch's count.

use crate::columns::blocks::{HIGH, put_block, put_span};
use crate::columns::spans::Spans;
use crate::grid::{Grid, amounts_of};
use crate::pieces::{put_amount, put_signed, put_word};
use crate::range::Range;
use crate::rows::between;
use crate::sheet::Sheet;
use std::alloc::AllocError;

/// Appends the row, if the object has one: its word, its highest and its lowest amount, and its columns.
pub(crate) fn put_amounts(
    out: &mut Vec<u8>,
    sheet: Sheet<'_>,
    grid: Grid,
    spans: Spans,
) -> Result<(), AllocError> {
    let Some(word) = amounts_of(sheet.picture.header.object) else {
        return Ok(());
    };
    let amounts: &[i128] = &sheet.picture.drawn.curve;
    let whole = Range::with_zero(amounts);
    let end = grid.left.saturating_sub(4);
    put_word(out, 176, word)?;
    put_amount(out, end, 164, &whole.high)?;
    put_amount(out, end, 188, &whole.low)?;
    for column in 0..spans.count {
        let range = Range::of(between(amounts, spans.first(column), spans.end(column)));
        out.extend_from_slice(b"<g><title>")?;
        put_span(out, sheet, spans, column)?;
        put_from_to(out, word, range)?;
        put_range(out, grid.x(column), whole, range)?;
    }
    Ok(())
}

/// Appends the lowest and the highest amount of a column, and the end of its tooltip.
fn put_from_to(out: &mut Vec<u8>, word: &[u8], range: Range) -> Result<(), AllocError> {
    out.extend_from_slice(b": ")?;
    out.extend_from_slice(word)?;
    out.extend_from_slice(b" from ")?;
    put_signed(out, &range.low)?;
    out.extend_from_slice(b" to ")?;
    put_signed(out, &range.high)?;
    out.extend_from_slice(b"</title>")
}

/// Appends a block from the lowest amount of a column to its highest, and the end of the column's group.
fn put_range(out: &mut Vec<u8>, x: u64, whole: Range, range: Range) -> Result<(), AllocError> {
    let upper = whole.up(&range.high, HIGH);
    let high = upper
        .saturating_sub(whole.up(&range.low, HIGH))
        .saturating_add(2);
    put_block(
        out,
        b"<path class='c' d='M",
        x,
        186u64.saturating_sub(upper),
        high,
    )?;
    out.extend_from_slice(b"</g>\n")
}
