//! Why a text couldn't be read.

ghost use Rattle.std.specs.Prelude.{◌≡◌};
ghost use Rattle.streams.specs.declared.fault.ReadFault.TheVariants.{Text, OutOfMemory};

use std::alloc::{AllocError, AllocFailed};
use thiserror::Error;

/// The first fault of a text.
#[derive(Clone, Copy, Debug, PartialEq, Eq, Error)]
pub enum TextFault {
    /// The first line is no header of this form of text.
    #[error("bad header")]
    BadHeader,
    /// This line, counted from 1, is neither an item nor the end line, or it follows the end line.
    #[error("bad line {0}")]
    BadLine(u64),
    /// The text ends before its end line does.
    #[error("cut short")]
    CutShort,
}

/// Why a text was not read into memory.
#[derive(Clone, Copy, Debug, PartialEq, Eq, Error)]
pub enum ReadFault {
    /// The text has this fault.
    #[error("{0}")]
    Text(TextFault),
    /// Memory was lacking. That says nothing of the text.
    #[error("out of memory")]
    OutOfMemory,
}

impl From<TextFault> for ReadFault {
    ghost from_gives = { λ fault e. e ≡ Text fault };

    fn from(fault: TextFault) -> ReadFault {
        ReadFault::Text(fault)
    }
}

impl From<AllocError> for ReadFault {
    ghost from_gives = { λ _ e. e ≡ OutOfMemory };

    fn from(_e: AllocError) -> ReadFault {
        ReadFault::OutOfMemory
    }
}

impl<T: Drop> From<AllocFailed<T>> for ReadFault {
    ghost from_gives = { λ _ e. e ≡ OutOfMemory };

    fn from(_e: AllocFailed<T>) -> ReadFault {
        ReadFault::OutOfMemory
    }
}
