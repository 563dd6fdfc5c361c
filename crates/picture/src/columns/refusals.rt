//! How many entries of each column are refused.

use crate::columns::spans::Spans;
use crate::columns::tables::add;
use drawing::mark::{Mark, Sign};
use std::alloc::{AllocError, Global};

/// Returns how many entries of each column are refused.
pub(crate) fn refusals_of(
    alloc: Global,
    spans: Spans,
    marks: &[Mark],
) -> Result<Vec<u64>, AllocError> {
    let mut table = vec![in alloc; 0; spans.count as usize]?;
    for mark in marks {
        if is_refusal(mark.sign) && mark.number < spans.entries {
            add(&mut table, spans.column_of(mark.number), 1, u64::MAX);
        }
    }
    Ok(table)
}

/// Returns whether a mark is that of a refusal.
fn is_refusal(sign: Sign) -> bool {
    match sign {
        Sign::Refused => true,
        _ => false,
    }
}
