//! Bars: how long a seat held, waited in the queue or waited on a condition.

use crate::grid::{Grid, amounts_of};
use crate::pieces::{Rect, put_placed, put_rect};
use crate::sheet::Sheet;
use crate::titles::put_bar_title;
use drawing::bar::Bar;
use drawing::kind::Kind;
use history::entry::{Entry, Mode, Word};
use itoa::Buffer;
use std::alloc::AllocError;

/// Appends all bars.
pub(crate) fn put_bars(out: &mut Vec<u8>, sheet: Sheet<'_>, grid: Grid) -> Result<(), AllocError> {
    let bars: &[Bar] = &sheet.picture.drawn.bars;
    for bar in bars {
        let area = area_of(grid, sheet.row_of(bar.seat as usize), *bar);
        put_rect(out, shape_of(bar.kind, waits_to_share(sheet, *bar)), area)?;
        put_bar_title(out, sheet, *bar)?;
        put_label(out, area, *bar)?;
    }
    Ok(())
}

/// Returns the rectangle of a bar, from the left edge of its first entry to the right edge of its last.
/// Shared holds are drawn below the seat's other bars, so that both are visible.
fn area_of(grid: Grid, row: u64, bar: Bar) -> Rect {
    let lower = match bar.kind {
        Kind::Shared => 17,
        Kind::Exclusive | Kind::InLine | Kind::Asleep(_) => 3,
    };
    let entries = bar.last.saturating_add(1).saturating_sub(bar.first);
    Rect {
        x: grid.x(bar.first),
        y: grid.y(row).saturating_add(lower),
        width: entries.saturating_mul(grid.step),
        height: 12,
    }
}

/// Returns whether a wait in line is to share, as the entry says that begins it or the one that ends it.
/// Nothing is known of a wait that begins before the first entry that is drawn and has not ended at the last.
fn waits_to_share(sheet: Sheet<'_>, bar: Bar) -> bool {
    amounts_of(sheet.picture.header.object).is_some()
        || says_shared(bar.seat, sheet.entry_at(bar.first))
        || says_shared(bar.seat, sheet.entry_at(bar.last.saturating_add(1)))
}

/// Returns whether an entry says that its seat waits in line to share, or has waited so.
fn says_shared(seat: u16, entry: Option<Entry>) -> bool {
    match entry {
        None => false,
        Some(entry) => {
            let is_of_line = match entry.word {
                Word::Queued | Word::Granted | Word::Left => true,
                _ => false,
            };
            let is_shared = match entry.mode {
                Mode::X => false,
                Mode::S => true,
            };
            entry.seat == seat && is_of_line && is_shared
        }
    }
}

/// Returns how a bar looks.
fn shape_of(kind: Kind, to_share: bool) -> &'static [u8] {
    match kind {
        Kind::Exclusive => b"<rect class='x' x='",
        Kind::Shared => b"<rect class='s' x='",
        Kind::InLine if to_share => b"<rect class='v' x='",
        Kind::InLine => b"<rect class='w' x='",
        Kind::Asleep(_) => b"<rect class='z' x='",
    }
}

/// Appends the text in a bar: the number of holds, or the condition on which the seat waits.
fn put_label(out: &mut Vec<u8>, area: Rect, bar: Bar) -> Result<(), AllocError> {
    match bar.kind {
        Kind::Exclusive => put_inside(out, b"<text class='i' x='", area, b"'>", bar.holds),
        Kind::Shared => put_inside(out, b"<text class='n' x='", area, b"'>", bar.holds),
        Kind::InLine => Ok(()),
        Kind::Asleep(c) => put_inside(out, b"<text class='n' x='", area, b"'>c", u128::from(c)),
    }
}

/// Appends a number inside a bar that is wide enough for its digits and one more letter.
fn put_inside(
    out: &mut Vec<u8>,
    shape: &[u8],
    area: Rect,
    sign: &[u8],
    number: u128,
) -> Result<(), AllocError> {
    let mut buffer = Buffer::new();
    let digits = buffer.format(number);
    let letters = digits.len() as u64;
    if area.width < letters.saturating_mul(6).saturating_add(4) {
        return Ok(());
    }
    put_placed(
        out,
        shape,
        area.x.saturating_add(4),
        area.y.saturating_add(10),
    )?;
    out.extend_from_slice(sign)?;
    out.extend_from_slice(digits.as_bytes())?;
    out.extend_from_slice(b"</text>\n")
}
