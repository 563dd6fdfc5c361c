//! Bars, and the stretches that become bars.

ghost use Rattle.std.specs.Prelude.{◌≡◌, ◌++◌, OnOk};
ghost use Rattle.drawing.specs.inner.Stretches.{bar_of};

use crate::kind::Kind;
use std::alloc::AllocError;

/// A bar: a seat, what it did, and the first and last entry of that stretch.
#[derive(Clone, Copy, Debug, PartialEq, Eq)]
pub struct Bar {
    pub seat: u16,
    pub kind: Kind,
    /// The number of the first entry of the stretch.
    pub first: u64,
    /// The number of the last entry of the stretch.
    pub last: u64,
    /// How many holds there were; 1 if the seat waits.
    pub holds: u128,
}

/// A seat's number of holds of a kind, and the number of the entry from which on it has been the same.
#[derive(Clone, Copy, Debug, PartialEq, Eq)]
pub(crate) struct Stretch {
    pub(crate) seat: u16,
    pub(crate) kind: Kind,
    pub(crate) first: u64,
    pub(crate) holds: u128,
}

/// Adds the bar of a stretch that ends before the entry of a number, if the stretch has holds.
pub(crate) fn put_bar(bars: &mut Vec<Bar>, stretch: Stretch, number: u64) -> Result<(), AllocError>
    ensures { OnOk result (bars.new.items ≡ bars.old.items ++ bar_of number stretch) }
{
    if stretch.holds > 0 {
        bars.push(Bar {
            seat: stretch.seat,
            kind: stretch.kind,
            first: stretch.first,
            last: number.saturating_sub(1),
            holds: stretch.holds,
        })?;
    }
    Ok(())
}
