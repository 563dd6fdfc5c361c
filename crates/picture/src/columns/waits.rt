//! The longest waits, and the lines that tell them.

ghost use Rattle.std.specs.Prelude.{◌≤◌, length};

use crate::escaping::{put_condition, put_seat};
use crate::grid::Grid;
use crate::pieces::put;
use crate::sheet::Sheet;
use drawing::bar::Bar;
use drawing::kind::Kind;
use std::alloc::{AllocError, Global};

/// The most waits that are told.
const MOST: usize = 5;

/// Returns the longest waits. Of those that last as long the first ones come first.
pub(crate) fn longest_of(alloc: Global, bars: &[Bar]) -> Result<Vec<Bar>, AllocError> {
    let mut waits = Vec::new(alloc);
    for bar in bars {
        if is_wait(bar.kind) {
            let place = before(&waits, lasting(*bar));
            waits.insert(place, *bar)?;
            waits.truncate(MOST);
        }
    }
    Ok(waits)
}

/// Returns how many waits at the front last at least so long.
fn before(waits: &[Bar], long: u64) -> usize
    ensures { result ≤ length waits.now }
{
    let mut place = 0;
    while place < waits.len() && long <= lasting(waits[place]) {
        place += 1;
    }
    place
}

/// Returns for how many entries a bar lasts.
fn lasting(bar: Bar) -> u64 {
    bar.last.saturating_add(1).saturating_sub(bar.first)
}

/// Returns whether a bar is a wait, in the queue or on a condition.
fn is_wait(kind: Kind) -> bool {
    match kind {
        Kind::Exclusive | Kind::Shared => false,
        Kind::InLine | Kind::Asleep(_) => true,
    }
}

/// Appends the longest waits, if there is one.
pub(crate) fn put_waits(
    out: &mut Vec<u8>,
    sheet: Sheet<'_>,
    grid: Grid,
    waits: &[Bar],
) -> Result<(), AllocError> {
    if waits.len() == 0 {
        return Ok(());
    }
    let mut y = grid.bottom().saturating_add(40);
    put(out, b"<text x='8' y='", y)?;
    out.extend_from_slice(b"'>longest waits:</text>\n")?;
    for wait in waits {
        y = y.saturating_add(16);
        put(out, b"<text x='8' y='", y)?;
        put_wait(out, sheet, *wait)?;
        put_window(out, sheet, *wait)?;
        out.extend_from_slice(b"</text>\n")?;
    }
    Ok(())
}

/// Appends the seat of a wait, how it waited, and from which entry to which.
fn put_wait(out: &mut Vec<u8>, sheet: Sheet<'_>, wait: Bar) -> Result<(), AllocError> {
    put_seat(out, sheet.names, b"'>seat ", wait.seat)?;
    match wait.kind {
        Kind::Exclusive | Kind::Shared => {}
        Kind::InLine => out.extend_from_slice(b" waited in line")?,
        Kind::Asleep(condition) => {
            put_condition(out, sheet.names, b" slept on condition ", condition)?
        }
    }
    put(out, b" from entry ", sheet.number_of(wait.first))?;
    put(out, b" to entry ", sheet.number_of(wait.last))
}

/// Appends the window of a wait: ten entries before it and after it, as far as there are entries.
fn put_window(out: &mut Vec<u8>, sheet: Sheet<'_>, wait: Bar) -> Result<(), AllocError> {
    let last = sheet.picture.to.saturating_sub(1);
    let first = wait.first.saturating_sub(10);
    put(out, b": aqs draw --from ", sheet.number_of(first))?;
    put(
        out,
        b" --to ",
        sheet.number_of(wait.last.saturating_add(10).min(last)),
    )
}
