//! The limits of an object's numbers. Contracts and definitions cite them by name.

/// The greatest number of holds of a lock.
pub const MOST_HOLDS: u32 = 2_147_483_647;

/// The greatest number of write holds of a read-write lock, and of read holds of all its seats.
pub const MOST_READ_WRITE_HOLDS: u32 = 65_535;

/// The greatest amount: of a request, of free permits, and of a latch's count.
pub const MOST_AMOUNT: u32 = 2_147_483_647;

/// [`MOST_AMOUNT`] as a number of free permits, which may be negative.
pub const MOST_PERMITS: i64 = MOST_AMOUNT as i64;

/// The greatest number of seats of an object.
pub const MOST_SEATS: u16 = 256;

/// The greatest number of conditions of a lock or read-write lock.
pub const MOST_CONDITIONS: u8 = 16;

/// The greatest number of a condition. Conditions are numbered from 0.
pub const LAST_CONDITION: u8 = MOST_CONDITIONS - 1;

/// The least cap of a history. The greatest is `u32::MAX`.
pub const LEAST_CAP: u32 = 16;

/// The greatest number of entries that may be folded.
pub const MOST_FOLDED: u128 = 1_000_000_000_000_000;

/// The greatest number of permits that a seat of a base holds, or that were released unheld in the folded
/// entries.
pub const MOST_BASE_PERMITS: u128 = 10_000_000_000_000_000_000_000_000;
