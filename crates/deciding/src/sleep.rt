//! A wait on a condition, as it is kept.

use history::entry::End;

/// What a seat gave up when it last began to wait on a condition, and how that wait ended.
#[derive(Clone, Copy, Debug, PartialEq, Eq)]
pub struct LastSleep {
    /// The condition at which it slept last; 0 if it never slept.
    pub condition: u8,
    /// The exclusive holds that it has again when it comes back.
    pub holds: u32,
    /// How the wait ended: `Signalled` from its beginning, until it lapses. `None` if it never slept.
    pub how: End,
}
