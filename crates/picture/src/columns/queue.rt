//! How many seats wait in the queue.

use crate::columns::spans::Spans;
use crate::columns::tables::{add, at};
use drawing::bar::Bar;
use drawing::kind::Kind;
use std::alloc::{AllocError, Global};

/// Returns for each column how many seats wait in the queue at most.
pub(crate) fn peaks_of(alloc: Global, spans: Spans, bars: &[Bar]) -> Result<Vec<u64>, AllocError> {
    let levels = levels_of(alloc, spans.entries, bars)?;
    let mut peaks = Vec::new(alloc);
    for column in 0..spans.count {
        let mut most = 0;
        for number in spans.first(column)..spans.end(column) {
            most = at(&levels, number).max(most);
        }
        peaks.push(most)?;
    }
    Ok(peaks)
}

/// Returns how many seats wait in the queue after each of this many entries.
fn levels_of(alloc: Global, entries: u64, bars: &[Bar]) -> Result<Vec<u64>, AllocError> {
    let mut begun = vec![in alloc; 0; entries as usize]?;
    let mut ended = vec![in alloc; 0; entries as usize]?;
    for bar in bars {
        if is_in_line(bar.kind) {
            add(&mut begun, bar.first, 1, u64::MAX);
            add(&mut ended, bar.last.saturating_add(1), 1, u64::MAX);
        }
    }
    let mut levels = Vec::new(alloc);
    let mut level: u64 = 0;
    for number in 0..entries {
        level = level
            .saturating_add(at(&begun, number))
            .saturating_sub(at(&ended, number));
        levels.push(level)?;
    }
    Ok(levels)
}

/// Returns whether a bar is a wait in the queue.
fn is_in_line(kind: Kind) -> bool {
    match kind {
        Kind::InLine => true,
        Kind::Exclusive | Kind::Shared | Kind::Asleep(_) => false,
    }
}
