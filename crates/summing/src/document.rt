//! The lines of a summary.

use crate::shown::{Condition, Seat, Shown, shown_of};
use crate::summary::Summary;
use std::alloc::{AllocError, Global};

/// Appends the numbers of the whole history.
fn put_whole(out: &mut String, shown: &Shown) -> Result<(), AllocError> {
    match shown.entry {
        None => write!(out, "legal\n")?,
        Some(number) => write!(out, "not legal at {number}\n")?,
    }
    if shown.base > 0 {
        write!(out, "base {}\n", shown.base)?;
    }
    write!(
        out,
        "entries {}\nhandovers {}\n",
        shown.entries, shown.handovers
    )?;
    let longest = shown.queue.longest;
    match shown.queue.at {
        None => write!(out, "queue {longest}\n"),
        Some(at) => write!(out, "queue {longest} at {at}\n"),
    }
}

/// Appends the line of a seat.
fn put_seat(out: &mut String, seat: &Seat) -> Result<(), AllocError> {
    write!(
        out,
        "seat {} calls {} took {} waited {}",
        seat.seat, seat.calls, seat.took, seat.waited
    )?;
    match &seat.longest {
        None => write!(out, " longest 0")?,
        Some(wait) => write!(out, " longest {} at {}", wait.entries, wait.at)?,
    }
    write!(
        out,
        " passed {} timeouts {} interrupts {}",
        seat.passed, seat.timeouts, seat.interrupts,
    )?;
    write!(out, " x {} s {}\n", seat.x, seat.s)
}

/// Appends the line of a condition.
fn put_condition(out: &mut String, number: usize, condition: &Condition) -> Result<(), AllocError> {
    write!(
        out,
        "condition {number} awaits {} signals {}",
        condition.awaits, condition.signals
    )?;
    write!(out, " empty {}\n", condition.empty)
}

/// Returns the text of a summary. `folded` entries were folded, and `wrong` is the number of the first
/// illegal entry, before which the summary ends.
pub fn summary_text(
    alloc: Global,
    folded: u64,
    wrong: Option<u64>,
    summary: &Summary,
) -> Result<Vec<u8>, AllocError> {
    let shown = shown_of(alloc, folded, wrong, summary)?;
    let mut out = String::new(alloc);
    put_whole(&mut out, &shown)?;
    for seat in &shown.seats {
        put_seat(&mut out, seat)?;
    }
    for number in 0..shown.conditions.len() {
        put_condition(&mut out, number, &shown.conditions[number])?;
    }
    Ok(out.into_bytes())
}
