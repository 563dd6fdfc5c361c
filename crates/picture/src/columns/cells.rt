//! What a seat did in each column, as parts of a block.

use crate::columns::blocks::{high_of, put_block, put_span};
use crate::columns::shares::{Shares, shares_at, table_of};
use crate::columns::spans::Spans;
use crate::escaping::put_seat;
use crate::grid::Grid;
use crate::pieces::put;
use crate::sheet::Sheet;
use std::alloc::{AllocError, Global};

/// A column in the row of a seat: its left and its lower edge, and how many entries are drawn as high as the
/// row.
#[derive(Clone, Copy, Debug)]
struct Cell {
    x: u64,
    bottom: u64,
    whole: u64,
}

/// Appends the columns of the seats that have a row. One in which the seat did nothing is left out.
pub(crate) fn put_all_cells(
    alloc: Global,
    out: &mut Vec<u8>,
    sheet: Sheet<'_>,
    grid: Grid,
    spans: Spans,
) -> Result<(), AllocError> {
    let seats = sheet.picture.header.seats;
    let table = table_of(alloc, spans, seats, &sheet.picture.drawn.bars)?;
    for seat in 0..seats {
        if sheet.has_row(seat) {
            let bottom = grid.y(sheet.row_of(seat as usize)).saturating_add(36);
            for column in 0..spans.count {
                let shares = shares_at(&table, seat, column);
                let cell = Cell {
                    x: grid.x(column),
                    bottom,
                    whole: spans.size(column).max(shares.sum()),
                };
                if shares.sum() > 0 {
                    put_title(out, sheet, spans, seat, column, shares)?;
                    put_parts(out, cell, shares)?;
                }
            }
        }
    }
    Ok(())
}

/// Appends the beginning of a column's group: its tooltip, with the seat, the entries and the shares.
fn put_title(
    out: &mut Vec<u8>,
    sheet: Sheet<'_>,
    spans: Spans,
    seat: u16,
    column: u64,
    shares: Shares,
) -> Result<(), AllocError> {
    put_seat(out, sheet.names, b"<g><title>seat ", seat)?;
    out.extend_from_slice(b", ")?;
    put_span(out, sheet, spans, column)?;
    put(out, b": exclusive ", shares.exclusive)?;
    put(out, b", shared ", shares.shared)?;
    put(out, b", in line ", shares.in_line)?;
    put(out, b", asleep ", shares.asleep)?;
    out.extend_from_slice(b"</title>")
}

/// Appends all parts of a block, from the lower edge up, and the end of the column's group.
fn put_parts(out: &mut Vec<u8>, cell: Cell, shares: Shares) -> Result<(), AllocError> {
    let own = shares.exclusive;
    let held = own.saturating_add(shares.shared);
    let waiting = held.saturating_add(shares.in_line);
    put_part(out, b"<path class='x' d='M", cell, 0, own)?;
    put_part(out, b"<path class='s' d='M", cell, own, held)?;
    put_part(out, b"<path class='v' d='M", cell, held, waiting)?;
    put_part(out, b"<path class='z' d='M", cell, waiting, shares.sum())?;
    out.extend_from_slice(b"</g>\n")
}

/// Appends a part, from a number of entries up to another. One that would have no height is left out.
fn put_part(
    out: &mut Vec<u8>,
    shape: &[u8],
    cell: Cell,
    from: u64,
    to: u64,
) -> Result<(), AllocError> {
    let lower = high_of(from, cell.whole);
    let upper = high_of(to, cell.whole);
    if upper == lower {
        return Ok(());
    }
    put_block(
        out,
        shape,
        cell.x,
        cell.bottom.saturating_sub(upper),
        upper.saturating_sub(lower),
    )
}
