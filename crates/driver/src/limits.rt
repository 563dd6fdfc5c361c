//! The limits of what is written. Contracts and definitions cite them by name.

/// No line has more bytes, with its break, so its length fits in a byte. An entry takes at most 108, and the
/// waiter that it names 27.
pub const LONGEST_LINE: usize = 255;

/// How many entries are drawn if none are chosen.
pub const UNCHOSEN: u64 = 2000;

/// How many entries before the first illegal one are drawn if none are chosen.
pub const UNCHOSEN_WRONG: u64 = 40;

/// A history with more entries than this is summed up in columns if none are chosen.
pub const UNSUMMED: u64 = 5000;
