//! Reading the lines of a base, one after another.

ghost use Rattle.std.specs.Prelude.{◌≡◌, ◌≤◌, false, true, length, IfOk, None};
ghost use Rattle.history.specs.Header.{IsInRange};
ghost use Rattle.history_text.specs.NextLine.{IsBaseAhead, IsEarly};

use crate::base_under_way::BaseUnderWay;
use crate::place::{Head, Place};
use history::base::Base;
use std::alloc::Global;
use streams::fault::ReadFault;

/// Reads the base lines after the first line of a text. Returns the base, the reader's position after it and
/// the number of bytes left. The base is None if the text has no such lines.
pub fn base_behind(
    alloc: Global,
    head: &Head,
    ahead: &[u8],
) -> Result<(Option<Base>, Place, usize), ReadFault>
    requires range { IsInRange head.now.header }
    ensures ahead { IsBaseAhead head.now ahead.now result }
    ensures early { IfOk result (λ r. IsEarly r.1 × (r.2 ≤ length ahead.now)) }
    ensures none { IfOk result (λ r. head.now.is_based ≡ false → r.0 ≡ None) }
{
    if head.is_based {
        return read_base(alloc, head, ahead);
    }
    let place = Place {
        lines: 0,
        folded: 0,
        count: 0,
        calls: 0,
    };
    Ok((None, place, ahead.len()))
}

fn read_base(
    alloc: Global,
    head: &Head,
    ahead: &[u8],
) -> Result<(Option<Base>, Place, usize), ReadFault>
    requires range { IsInRange head.now.header }
    requires based { head.now.is_based ≡ true }
    ensures ahead { IsBaseAhead head.now ahead.now result }
    ensures early { IfOk result (λ r. IsEarly r.1 × (r.2 ≤ length ahead.now)) }
{
    let Ok(mut base) = BaseUnderWay::open(alloc, &head.header) else {
        return Err(ReadFault::OutOfMemory);
    };
    let mut rest = ahead;
    while let Some(left) = base.take_next(rest)? {
        rest = &rest[rest.len() - left..];
    }
    let (base, place) = base.finish();
    Ok((Some(base), place, rest.len()))
}
