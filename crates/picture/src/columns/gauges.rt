//! The rows of the queue and of refusals: a number for each column.

use crate::columns::blocks::{high_of, put_block, put_span};
use crate::columns::queue::peaks_of;
use crate::columns::refusals::refusals_of;
use crate::columns::spans::Spans;
use crate::columns::tables::{at, greatest};
use crate::grid::Grid;
use crate::pieces::{put, put_amount, put_word};
use crate::sheet::Sheet;
use std::alloc::{AllocError, Global};

/// Appends both rows.
pub(crate) fn put_gauges(
    alloc: Global,
    out: &mut Vec<u8>,
    sheet: Sheet<'_>,
    grid: Grid,
    spans: Spans,
) -> Result<(), AllocError> {
    let peaks = peaks_of(alloc, spans, &sheet.picture.drawn.bars)?;
    put_words(out, grid, 72, b"in line", &peaks)?;
    put_columns(out, sheet, grid, spans, 72, b": in line at most ", &peaks)?;
    let refusals = refusals_of(alloc, spans, &sheet.picture.drawn.marks)?;
    put_words(out, grid, 112, b"refused", &refusals)?;
    put_columns(out, sheet, grid, spans, 112, b": refused ", &refusals)
}

/// Appends the word of a row and its greatest number, at the left.
fn put_words(
    out: &mut Vec<u8>,
    grid: Grid,
    y: u64,
    word: &[u8],
    numbers: &[u64],
) -> Result<(), AllocError> {
    let most = i128::from(greatest(numbers));
    put_word(out, y.saturating_add(24), word)?;
    put_amount(
        out,
        grid.left.saturating_sub(4),
        y.saturating_add(12),
        &most,
    )
}

/// Appends the columns of a row, each with its tooltip. One whose number is 0 is left out.
fn put_columns(
    out: &mut Vec<u8>,
    sheet: Sheet<'_>,
    grid: Grid,
    spans: Spans,
    y: u64,
    words: &[u8],
    numbers: &[u64],
) -> Result<(), AllocError> {
    let most = greatest(numbers);
    for column in 0..spans.count {
        let number = at(numbers, column);
        if number > 0 {
            let high = high_of(number, most);
            let top = y.saturating_add(36).saturating_sub(high);
            out.extend_from_slice(b"<g><title>")?;
            put_span(out, sheet, spans, column)?;
            put(out, words, number)?;
            out.extend_from_slice(b"</title>")?;
            put_block(out, b"<path class='q' d='M", grid.x(column), top, high)?;
            out.extend_from_slice(b"</g>\n")?;
        }
    }
    Ok(())
}
