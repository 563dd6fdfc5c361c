//! Arrivals in the wait queue.

ghost use Rattle.std.specs.Prelude.{◌≡◌, false};

use history::arrival::Arrival;
use history::entry::{Entry, Mode};

/// Returns the arrival of a new acquire.
pub fn queued(entry: Entry) -> Arrival
    ensures { result ≡ record { seat = entry.seat; mode = entry.mode; n = entry.n; back = false } }
{
    Arrival {
        seat: entry.seat,
        mode: entry.mode,
        n: entry.n,
        back: false,
    }
}
