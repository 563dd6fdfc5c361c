//! Why a stream wrote no answer.

ghost use Rattle.std.specs.Prelude.{◌≡◌};
ghost use Rattle.streams.specs.declared.stream_fault.StreamFault.TheVariants.{Text, Memory};

use crate::fault::TextFault;
use std::alloc::{AllocError, AllocFailed};
use thiserror::Error;

/// Why a stream wrote no answer.
#[derive(Clone, Copy, Debug, PartialEq, Eq, Error)]
pub enum StreamFault {
    /// The text has this fault; nothing was written.
    #[error("{0}")]
    Text(TextFault),
    /// The reader has failed; nothing was written.
    #[error("read failed")]
    ReadFailed,
    /// The writer has failed; what was written is the beginning of the answer.
    #[error("write failed")]
    WriteFailed,
    /// An allocation failed; nothing was written.
    #[error("out of memory")]
    Memory,
}

impl From<TextFault> for StreamFault {
    ghost from_gives = { λ fault e. e ≡ Text fault };

    fn from(fault: TextFault) -> StreamFault {
        StreamFault::Text(fault)
    }
}

impl From<AllocError> for StreamFault {
    ghost from_gives = { λ _ e. e ≡ Memory };

    fn from(_e: AllocError) -> StreamFault {
        StreamFault::Memory
    }
}

impl<T: Drop> From<AllocFailed<T>> for StreamFault {
    ghost from_gives = { λ _ e. e ≡ Memory };

    fn from(_e: AllocFailed<T>) -> StreamFault {
        StreamFault::Memory
    }
}
