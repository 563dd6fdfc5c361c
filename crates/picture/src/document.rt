//! The picture of single entries.

ghost use Rattle.history.specs.Header.{IsInRange};

use crate::bars::put_bars;
use crate::curve::put_curve;
use crate::escaping::put_escaped;
use crate::grid::{Grid, amounts_of, left_of, put_rows, put_tick, put_wrong};
use crate::head::{put_opening, put_rest};
use crate::looks::{LEGEND, STYLE};
use crate::marks::put_marks;
use crate::naming::Names;
use crate::picture::Picture;
use crate::pieces::{put, put_word};
use crate::rows::ranks_of;
use crate::sheet::Sheet;
use history::entry::Entry;
use std::alloc::{AllocError, Global};

/// Returns the SVG document of a picture. `entries` are those after the base, from the first one on. Tooltips
/// say in words which entry a bar or a mark shows. The first illegal entry is told in words if it is among
/// them, and explained below the rows.
///
/// A seat has a row if it has a bar, or made one of the entries that are drawn, or the first illegal one
/// after them. Seats and conditions are told by their numbers, with the names that they were given.
pub fn svg_text(
    alloc: Global,
    names: &Names,
    picture: &Picture,
    entries: &[Entry],
) -> Result<Vec<u8>, AllocError>
    requires { IsInRange picture.now.header }
{
    let ranks = ranks_of(alloc, picture, entries)?;
    let sheet = Sheet {
        names,
        picture,
        entries,
        ranks: &ranks,
    };
    let grid = grid_of(sheet);
    let mut out = Vec::new(alloc);
    let bottom = grid.bottom().saturating_add(24);
    let lines = picture.why.iter().filter(|byte| **byte == b'\n').count() as u64;
    let width = grid.width(if lines == 0 { 760 } else { 1048 });
    let height = bottom.saturating_add(lines.saturating_mul(16));
    put_opening(&mut out, picture.header, width, height, STYLE)?;
    put_shown(&mut out, sheet, grid)?;
    put_rest(&mut out, sheet, LEGEND)?;
    put_rows(&mut out, sheet, grid, 20)?;
    put_scale(&mut out, sheet, grid)?;
    put_curve(&mut out, sheet, grid)?;
    put_bars(&mut out, sheet, grid)?;
    put_marks(&mut out, sheet, grid)?;
    put_wrong(&mut out, sheet, grid)?;
    put_why(alloc, &mut out, picture, bottom)?;
    out.extend_from_slice(b"</svg>\n")?;
    Ok(out)
}

/// Appends the lines that explain the illegal entry, from an upper edge down.
fn put_why(
    alloc: Global,
    out: &mut Vec<u8>,
    picture: &Picture,
    upper: u64,
) -> Result<(), AllocError> {
    let mut why = Vec::new(alloc);
    put_escaped(&mut why, &picture.why)?;
    let mut y = upper.saturating_sub(4);
    for line in why.split(|byte| *byte == b'\n') {
        y = y.saturating_add(16);
        if !line.is_empty() {
            put_word(out, y, line)?;
        }
    }
    Ok(())
}

/// Returns the grid, with a place for each entry. If there are few, they are wide. The rows begin below the
/// curve, if there is one.
fn grid_of(sheet: Sheet<'_>) -> Grid {
    let to = sheet.picture.to;
    let from = sheet.picture.from.min(to);
    let places = to.saturating_sub(from);
    let has_curve = amounts_of(sheet.picture.header.object).is_some();
    Grid {
        from,
        places,
        left: left_of(sheet.names),
        step: if places <= 200 { 20 } else { 8 },
        top: if has_curve { 180 } else { 92 },
        rows: sheet.rows(),
    }
}

/// Appends which entries are shown.
fn put_shown(out: &mut Vec<u8>, sheet: Sheet<'_>, grid: Grid) -> Result<(), AllocError> {
    let all = sheet.picture.entries;
    if grid.places == 0 {
        return put(out, b"no entry is shown of ", all);
    }
    if sheet.picture.is_cut {
        put(out, b"the first ", grid.places)?;
        put(out, b" entries of ", all)?;
        return out.extend_from_slice(b"; --from and --to choose others");
    }
    put(out, b"entries ", sheet.number_of(grid.from))?;
    put(
        out,
        b" to ",
        sheet.number_of(sheet.picture.to.saturating_sub(1)),
    )?;
    put(out, b" of ", all)
}

/// Appends the scale. Entries with round numbers have a line through all rows, and the number below it, so
/// that numbers of ten digits don't touch.
fn put_scale(out: &mut Vec<u8>, sheet: Sheet<'_>, grid: Grid) -> Result<(), AllocError> {
    let pitch = if grid.step == 20 { 5 } else { 10 };
    for index in grid.from..sheet.picture.to {
        let number = sheet.number_of(index);
        if number % pitch == 0 {
            put_tick(out, grid, grid.top, index, number)?;
        }
    }
    Ok(())
}
