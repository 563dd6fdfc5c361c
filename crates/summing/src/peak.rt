//! When the queue was longest.

ghost use Rattle.std.specs.Prelude.{◌≡◌};
ghost use Rattle.summing.specs.Peak.{higher};

/// The greatest length of the queue.
#[derive(Clone, Copy, Debug, Drop, PartialEq, Eq)]
pub struct Peak {
    /// How many seats were in the queue.
    pub seats: u16,
    /// The number of the entry after which they were, or none if they were before the first entry.
    pub place: Option<u64>,
}

/// Returns the longer queue of the one so far, and of one of this many seats after the entry of a number.
pub(crate) fn higher(seats: u16, number: u64, was: Peak) -> Peak
    ensures { result ≡ higher seats number was }
{
    if was.seats < seats {
        Peak {
            seats,
            place: Some(number),
        }
    } else {
        was
    }
}
