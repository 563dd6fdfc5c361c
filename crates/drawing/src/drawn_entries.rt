//! Drawing a list of entries.

ghost use Rattle.std.specs.Prelude.{◌≡◌, ◌<◌, ◌^◌, IfOk, length, reverse};
ghost use Rattle.drawing.specs.Below.{based, IsInRange, CanFold};
ghost use Rattle.drawing.specs.Bars.{bars};
ghost use Rattle.drawing.specs.Curve.{curve};
ghost use Rattle.drawing.specs.Marks.{marks};

use crate::drawing::{Drawing, Drawn};
use history::base::Base;
use history::entry::Entry;
use std::alloc::{AllocError, Global};

/// Returns the drawing of a legal history's entries after a base, the oldest first, from the entry of a
/// number on.
pub fn drawn_of(
    alloc: Global,
    base: &Base,
    from: u64,
    entries: &[Entry],
) -> Result<Drawn, AllocError>
    requires range { IsInRange base.now.header }
    requires can { CanFold base.now (reverse entries.now) }
    requires few { length entries.now < 2 ^ 32 }
    ensures bars { IfOk result (λ drawn.
        drawn.bars.items ≡ bars (based base.now) from (reverse entries.now)) }
    ensures marks { IfOk result (λ drawn.
        drawn.marks.items ≡ marks (based base.now) from (reverse entries.now)) }
    ensures curve { IfOk result (λ drawn.
        drawn.curve.items ≡ curve (based base.now) from (reverse entries.now)) }
{
    let mut drawing = Drawing::open(alloc, base, from)?;
    for entry in entries {
        drawing.follow(*entry)?;
    }
    drawing.finish()
}
