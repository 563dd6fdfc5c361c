//! The form in which the answers of a replay are written.

/// The form in which the answers of a replay are written.
#[derive(Clone, Copy, Debug, PartialEq, Eq)]
pub enum Form {
    /// The replay text: a line for the answer to each step.
    Replay,
    /// The history text: a line for each entry that was recorded.
    History,
}
