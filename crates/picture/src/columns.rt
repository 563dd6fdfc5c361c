//! The picture in columns, which sums a long history up.
//!
//! Each column stands for the same number of entries. A row for the queue and one for refusals come first,
//! then one for the free permits or the count if the object has these, and a row for each seat that did
//! something. Below them the longest waits are told, with the window that draws each. Every number that is
//! drawn stands in a tooltip too.

ghost use Rattle.history.specs.Header.{IsInRange};

mod amounts;
mod blocks;
mod cells;
mod gauges;
mod looks;
mod queue;
mod refusals;
mod shares;
mod spans;
mod tables;
mod waits;

use crate::columns::amounts::put_amounts;
use crate::columns::cells::put_all_cells;
use crate::columns::gauges::put_gauges;
use crate::columns::looks::{LEGEND, STYLE};
use crate::columns::spans::Spans;
use crate::columns::waits::{longest_of, put_waits};
use crate::grid::{Grid, amounts_of, left_of, put_rows, put_tick};
use crate::head::{put_opening, put_rest};
use crate::naming::Names;
use crate::picture::Picture;
use crate::pieces::put;
use crate::rows::ranks_of;
use crate::sheet::Sheet;
use history::entry::Entry;
use std::alloc::{AllocError, Global};

/// Returns the SVG document of a summary of a legal history. `picture` has the bars, marks and amounts of all
/// entries, and `entries` are those after the base.
///
/// A seat has a row if it has a bar, or made one of the entries. Seats and conditions are told by their
/// numbers, with the names that they were given.
pub fn overview_text(
    alloc: Global,
    names: &Names,
    picture: &Picture,
    entries: &[Entry],
) -> Result<Vec<u8>, AllocError>
    requires { IsInRange picture.now.header }
{
    let ranks = ranks_of(alloc, picture, entries)?;
    let sheet = Sheet {
        names,
        picture,
        entries,
        ranks: &ranks,
    };
    let spans = Spans::of(picture.to);
    let grid = grid_of(sheet, spans);
    let waits = longest_of(alloc, &picture.drawn.bars)?;
    let mut out = Vec::new(alloc);
    let height = height_of(grid, waits.len() as u64);
    put_opening(&mut out, picture.header, grid.width(1048), height, STYLE)?;
    put_summed(&mut out, sheet, spans)?;
    put_rest(&mut out, sheet, LEGEND)?;
    put_rows(&mut out, sheet, grid, 24)?;
    put_scale(&mut out, sheet, grid, spans)?;
    put_gauges(alloc, &mut out, sheet, grid, spans)?;
    put_amounts(&mut out, sheet, grid, spans)?;
    put_all_cells(alloc, &mut out, sheet, grid, spans)?;
    put_waits(&mut out, sheet, grid, &waits)?;
    out.extend_from_slice(b"</svg>\n")?;
    Ok(out)
}

/// Returns the grid, with a place for each column. The seats' rows begin below those of the queue and of
/// refusals, and of free permits or a count.
fn grid_of(sheet: Sheet<'_>, spans: Spans) -> Grid {
    let has_amounts = amounts_of(sheet.picture.header.object).is_some();
    Grid {
        from: 0,
        places: spans.count,
        left: left_of(sheet.names),
        step: 4,
        top: if has_amounts { 192 } else { 152 },
        rows: sheet.rows(),
    }
}

/// Returns the height with this many lines of waits.
fn height_of(grid: Grid, waits: u64) -> u64 {
    let below = if waits == 0 {
        24
    } else {
        waits.saturating_mul(16).saturating_add(48)
    };
    grid.bottom().saturating_add(below)
}

/// Appends which entries are summed up, and how many a column has.
fn put_summed(out: &mut Vec<u8>, sheet: Sheet<'_>, spans: Spans) -> Result<(), AllocError> {
    let all = sheet.picture.entries;
    if spans.entries == 0 {
        return put(out, b"no entry is shown of ", all);
    }
    put(out, b"entries ", sheet.picture.folded)?;
    put(
        out,
        b" to ",
        sheet.number_of(spans.entries.saturating_sub(1)),
    )?;
    put(out, b" of ", all)?;
    put(out, b" in columns of ", spans.span)?;
    out.extend_from_slice(b"; --from and --to draw a part")
}

/// Appends the scale: a line before every twentieth column, with the number of the column's first entry.
fn put_scale(
    out: &mut Vec<u8>,
    sheet: Sheet<'_>,
    grid: Grid,
    spans: Spans,
) -> Result<(), AllocError> {
    for column in 0..spans.count {
        if column % 20 == 0 {
            put_tick(out, grid, 72, column, sheet.number_of(spans.first(column)))?;
        }
    }
    Ok(())
}
