//! A place in the wait queue.

ghost use Rattle.std.specs.Prelude.{◌≡◌};
ghost use Rattle.history.specs.Line.{coming_back};

use crate::entry::Mode;

/// A waiter in the queue: its seat and what it asks for. A waiter that comes back from a condition asks for X
/// and 1.
#[derive(Clone, Copy, Debug, PartialEq, Eq)]
pub struct Arrival {
    pub seat: u16,
    pub mode: Mode,
    pub n: u32,
    /// Whether it comes back from a condition.
    pub back: bool,
}

/// Returns a waiter that comes back from a condition: it asks for X and 1.
pub fn coming_back(seat: u16) -> Arrival
    ensures { result ≡ coming_back seat }
{
    Arrival {
        seat,
        mode: Mode::X,
        n: 1,
        back: true,
    }
}
