//! A waiter of a condition.

/// The condition that a seat waits on, and the holds that it gave up for that.
#[derive(Clone, Copy, Debug, PartialEq, Eq)]
pub struct Sleeper {
    pub condition: u8,
    pub holds: u32,
}
