//! The limits of a script. Contracts and definitions cite them by name.

use history::limits::MOST_SEATS;

/// The greatest number of objects.
pub const MOST_OBJECTS: usize = 64;

/// The greatest number of threads. Each has a seat at each object.
pub const MOST_THREADS: usize = MOST_SEATS as usize;

/// The greatest number of rounds of a thread.
pub const MOST_ROUNDS: u64 = 1_000_000;

/// The greatest number of calls in a round.
pub const MOST_CALLS: usize = 10_000;

/// The greatest number of bytes of a name.
pub const MOST_NAME_BYTES: usize = 32;

/// The greatest number of milliseconds of a timed call.
pub const MOST_MILLISECONDS: u64 = 4_294_967_295;
