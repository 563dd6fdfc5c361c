//! The part above the rows: the title, the line that says which entries are shown, and the legend.

ghost use Rattle.history.specs.Header.{IsInRange};

use crate::pieces::put;
use crate::sheet::Sheet;
use crate::titles::put_maker;
use history::header::Header;
use std::alloc::AllocError;

/// Appends all before the words of the line that says which entries are shown. The header stands there twice:
/// as the document's title, and as the picture's.
pub(crate) fn put_opening(
    out: &mut Vec<u8>,
    header: Header,
    width: u64,
    height: u64,
    style: &[u8],
) -> Result<(), AllocError>
    requires { IsInRange header }
{
    put(
        out,
        b"<svg xmlns='http://www.w3.org/2000/svg' version='1.1' width='",
        width,
    )?;
    put(out, b"' height='", height)?;
    put(out, b"' viewBox='0 0 ", width)?;
    put(out, b" ", height)?;
    out.extend_from_slice(b"'>\n<title>")?;
    put_header(out, header)?;
    out.extend_from_slice(b"</title>\n")?;
    out.extend_from_slice(style)?;
    out.extend_from_slice(b"<text class='h' x='8' y='18'>")?;
    put_header(out, header)?;
    out.extend_from_slice(b"</text>\n<text x='8' y='36'>")
}

/// Appends the header as a history text spells it.
fn put_header(out: &mut Vec<u8>, header: Header) -> Result<(), AllocError>
    requires { IsInRange header }
{
    match header.write_part(out) {
        Ok(()) => Ok(()),
        Err(_) => Err(AllocError),
    }
}

/// Appends the rest of the line that says which entries are shown: how many seats have no row, if there are
/// any, and which entry isn't legal. The legend follows.
pub(crate) fn put_rest(
    out: &mut Vec<u8>,
    sheet: Sheet<'_>,
    legend: &[u8],
) -> Result<(), AllocError> {
    let without_row = u64::from(sheet.picture.header.seats).saturating_sub(sheet.rows());
    if without_row > 0 {
        put(out, b"; seats without a row: ", without_row)?;
    }
    if let Some(number) = sheet.picture.wrong {
        put(out, b"<tspan class='f' dx='8'>not legal at entry ", number)?;
        let index = number.saturating_sub(sheet.picture.folded);
        put_maker(out, sheet, sheet.entry_at(index))?;
        out.extend_from_slice(b"</tspan>")?;
    }
    out.extend_from_slice(b"</text>\n")?;
    out.extend_from_slice(legend)
}
