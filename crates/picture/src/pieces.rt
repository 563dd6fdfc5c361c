//! Pieces of elements. On an error only the first bytes of a piece may have been appended.

use history::number::put_number;
use itoa::Buffer;
use std::alloc::AllocError;

/// The position and the size of a rectangle.
#[derive(Clone, Copy, Debug)]
pub(crate) struct Rect {
    pub(crate) x: u64,
    pub(crate) y: u64,
    pub(crate) width: u64,
    pub(crate) height: u64,
}

/// Appends a name and a number.
pub(crate) fn put(out: &mut Vec<u8>, name: &[u8], number: u64) -> Result<(), AllocError> {
    out.extend_from_slice(name)?;
    put_number(out, number)
}

/// Appends an amount, which may be less than 0.
pub(crate) fn put_signed(out: &mut Vec<u8>, amount: &i128) -> Result<(), AllocError> {
    let mut buffer = Buffer::new();
    out.extend_from_slice(buffer.format(*amount).as_bytes())
}

/// Appends the beginning of an element, up to the last number of its position.
pub(crate) fn put_placed(
    out: &mut Vec<u8>,
    shape: &[u8],
    x: u64,
    y: u64,
) -> Result<(), AllocError> {
    put(out, shape, x)?;
    put(out, b"' y='", y)
}

/// Appends the beginning of a rectangle, up to its last number.
pub(crate) fn put_rect(out: &mut Vec<u8>, shape: &[u8], area: Rect) -> Result<(), AllocError> {
    put_placed(out, shape, area.x, area.y)?;
    put(out, b"' width='", area.width)?;
    put(out, b"' height='", area.height)
}

/// Appends words at the left edge.
pub(crate) fn put_word(out: &mut Vec<u8>, y: u64, word: &[u8]) -> Result<(), AllocError> {
    put(out, b"<text x='8' y='", y)?;
    out.extend_from_slice(b"'>")?;
    out.extend_from_slice(word)?;
    out.extend_from_slice(b"</text>\n")
}

/// Appends an amount that ends at `x`.
pub(crate) fn put_amount(
    out: &mut Vec<u8>,
    x: u64,
    y: u64,
    amount: &i128,
) -> Result<(), AllocError> {
    put_placed(out, b"<text class='a' x='", x, y)?;
    out.extend_from_slice(b"'>")?;
    put_signed(out, amount)?;
    out.extend_from_slice(b"</text>\n")
}
