//! Why names were not read.

use thiserror::Error;

/// Why names were not read.
#[derive(Clone, Copy, Debug, PartialEq, Eq, Error)]
pub enum NamesFault {
    /// This line, counted from 1, gives no name, or a second one, or it is the last and has no break.
    #[error("bad name {0}")]
    BadNaming(u64),
    /// Memory was lacking. That says nothing of the text.
    #[error("out of memory")]
    OutOfMemory,
}
