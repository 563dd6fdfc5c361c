//! Blocks in columns, and what they tell.

use crate::columns::spans::Spans;
use crate::pieces::put;
use crate::sheet::Sheet;
use std::alloc::AllocError;

/// How many pixels are a whole row's.
pub(crate) const HIGH: u8 = 32;

/// Appends a block in a column, from a height down.
pub(crate) fn put_block(
    out: &mut Vec<u8>,
    shape: &[u8],
    x: u64,
    y: u64,
    high: u64,
) -> Result<(), AllocError> {
    put(out, shape, x)?;
    put(out, b" ", y)?;
    put(out, b"h4v", high)?;
    out.extend_from_slice(b"h-4z'/>")
}

/// Appends the entries of a column, by the numbers that are shown.
pub(crate) fn put_span(
    out: &mut Vec<u8>,
    sheet: Sheet<'_>,
    spans: Spans,
    column: u64,
) -> Result<(), AllocError> {
    let last = spans.end(column).saturating_sub(1);
    put(out, b"entries ", sheet.number_of(spans.first(column)))?;
    put(out, b" to ", sheet.number_of(last))
}

/// Returns how high a number is drawn, of a number that is drawn as high as a row. What isn't 0 is drawn.
pub(crate) fn high_of(number: u64, whole: u64) -> u64 {
    let whole = u128::from(whole.max(1));
    let most = u128::from(HIGH);
    u128::from(number)
        .saturating_mul(most)
        .div_ceil(whole)
        .min(most) as u64
}
