//! The limits of a text of names. Contracts and definitions cite them by name.

use history::limits::MOST_SEATS;

/// The greatest number of a seat. Seats are numbered from 0.
pub const LAST_SEAT: u16 = MOST_SEATS - 1;

/// The most characters of a name. So many has the name of a thread under Linux.
pub const MOST_NAME_BYTES: usize = 15;
