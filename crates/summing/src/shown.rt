//! What is shown of a summary. Its text and its JSON object are written of this.

use crate::row::Row;
use crate::summary::Summary;
use crate::tally::ConditionTally;
use serde::Serialize;
use std::alloc::{AllocError, Global};

/// The longest queue, and the number of the entry after which it was so long.
#[derive(Drop, Serialize)]
pub(crate) struct Queue {
    pub(crate) longest: u16,
    pub(crate) at: Option<u64>,
}

/// A wait, and the number of the entry by which it began.
#[derive(Drop, Serialize)]
pub(crate) struct Longest {
    pub(crate) entries: u64,
    pub(crate) at: u64,
}

/// What is shown of a seat.
#[derive(Drop, Serialize)]
pub(crate) struct Seat {
    pub(crate) seat: u16,
    pub(crate) calls: u64,
    pub(crate) took: u64,
    pub(crate) waited: u64,
    pub(crate) longest: Option<Longest>,
    pub(crate) passed: u64,
    pub(crate) timeouts: u64,
    pub(crate) interrupts: u64,
    pub(crate) x: u128,
    pub(crate) s: u128,
}

/// What is shown of a condition.
#[derive(Drop, Serialize)]
pub(crate) struct Condition {
    pub(crate) awaits: u64,
    pub(crate) signals: u64,
    pub(crate) empty: u64,
}

/// What is shown of a history.
#[derive(Drop, Serialize)]
pub(crate) struct Shown {
    pub(crate) verdict: &'static str,
    /// The number of the first illegal entry, if there is one.
    #[serde(skip_serializing_if = "Option::is_none")]
    pub(crate) entry: Option<u64>,
    pub(crate) base: u64,
    pub(crate) entries: u64,
    pub(crate) handovers: u64,
    pub(crate) queue: Queue,
    pub(crate) seats: Vec<Seat>,
    pub(crate) conditions: Vec<Condition>,
}

/// Returns the number of an entry after this many folded ones.
fn number_at(folded: u64, place: u64) -> u64 {
    folded.saturating_add(place)
}

/// Returns what is shown of a seat.
fn seat_of(folded: u64, row: &Row) -> Seat {
    Seat {
        seat: row.seat,
        calls: row.calls,
        took: row.took,
        waited: row.queued,
        longest: match row.longest {
            None => None,
            Some(wait) => Some(Longest {
                entries: wait.entries,
                at: number_at(folded, wait.place),
            }),
        },
        passed: row.passed,
        timeouts: row.timeouts,
        interrupts: row.interrupts,
        x: row.exclusive,
        s: row.shared,
    }
}

/// Returns what is shown of the seats.
fn seats_of(alloc: Global, folded: u64, rows: &[Row]) -> Result<Vec<Seat>, AllocError> {
    let mut seats = Vec::new(alloc);
    for row in rows {
        seats.push(seat_of(folded, row))?;
    }
    Ok(seats)
}

/// Returns what is shown of the conditions.
fn conditions_of(alloc: Global, tallies: &[ConditionTally]) -> Result<Vec<Condition>, AllocError> {
    let mut conditions = Vec::new(alloc);
    for tally in tallies {
        conditions.push(Condition {
            awaits: tally.awaits,
            signals: tally.signals,
            empty: tally.empty,
        })?;
    }
    Ok(conditions)
}

/// Returns what is shown of a summary after this many folded entries. `wrong` is the number of the first
/// illegal entry, before which the summary ends.
pub(crate) fn shown_of(
    alloc: Global,
    folded: u64,
    wrong: Option<u64>,
    summary: &Summary,
) -> Result<Shown, AllocError> {
    Ok(Shown {
        verdict: match wrong {
            None => "legal",
            Some(_) => "not legal",
        },
        entry: wrong,
        base: folded,
        entries: number_at(folded, summary.entries),
        handovers: summary.grants,
        queue: Queue {
            longest: summary.peak.seats,
            at: match summary.peak.place {
                None => None,
                Some(place) => Some(number_at(folded, place)),
            },
        },
        seats: seats_of(alloc, folded, &summary.rows)?,
        conditions: conditions_of(alloc, &summary.conditions)?,
    })
}
