//! How the threads of a run stand while it goes on.

/// What a thread holds of an object.
#[derive(Clone, Copy, Debug, PartialEq, Eq)]
pub struct Held {
    /// The object's place in the script, counted from 0.
    pub object: usize,
    pub exclusive: u64,
    pub shared: u64,
}

/// How a thread stands.
#[derive(Debug, Drop)]
pub struct Standing {
    /// How many of its calls have ended, over all rounds.
    pub ended: u64,
    /// Whether it is parked in the call after these.
    pub waits: bool,
    /// What it held after these calls, in the order of the script. An object of which it held nothing is left
    /// out. A thread that waits on a condition of a lock has released it since.
    pub held: Vec<Held>,
}
