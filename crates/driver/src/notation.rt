//! How an answer is written.

/// How an answer is written.
#[derive(Clone, Copy, Debug, PartialEq, Eq)]
pub enum Notation {
    /// In lines of words.
    Lines,
    /// As one JSON object, in one line.
    Json,
}
