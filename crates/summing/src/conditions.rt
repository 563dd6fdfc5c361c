//! The tallies of all conditions.

ghost use Rattle.std.specs.Prelude.{◌≡◌, ◌<◌, ◌^◌, ℕ, length, slice_index_or, IfOk};
ghost use Rattle.std.specs.List.{All};
ghost use Rattle.summing.specs.Tallies.{no_condition_tally};
ghost use Rattle.summing.specs.inner.Tables.{IsFewCondition, condition_noted};

use crate::tally::{ConditionTally, condition_after};
use crate::words::{is_await, is_signal};
use history::entry::Entry;
use std::alloc::{AllocError, Global};

/// Notes an await or a signal at its condition. Another entry changes nothing.
pub(crate) fn note_condition(conditions: &mut Vec<ConditionTally>, entry: Entry)
    requires { All IsFewCondition conditions.old.items }
    ensures { conditions.new.items ≡ condition_noted entry conditions.old.items }
{
    if !is_await(entry.word) && !is_signal(entry.word) {
        return;
    }
    let condition = entry.at as usize;
    if condition < conditions.len() {
        conditions[condition] = condition_after(entry, conditions[condition]);
    }
}

/// Returns tallies of this many conditions.
pub(crate) fn no_conditions(alloc: Global, count: u8) -> Result<Vec<ConditionTally>, AllocError>
    ensures long { IfOk result (λ tallies. length tallies.items ≡ count) }
    ensures none { IfOk result (λ tallies. (c : ℕ) → slice_index_or tallies.items c no_condition_tally
        ≡ no_condition_tally) }
{
    let none = ConditionTally {
        awaits: 0,
        signals: 0,
        empty: 0,
    };
    vec![in alloc; none; count as usize]
}
