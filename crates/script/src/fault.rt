//! Why a script couldn't be read.

ghost use Rattle.std.specs.Prelude.{◌≡◌};
ghost use Rattle.script.specs.declared.fault.ScriptFault.TheVariants.{OutOfMemory};

use std::alloc::{AllocError, AllocFailed};
use thiserror::Error;

/// The first fault of a script. Its parts are checked in this order: the text, the top, each object, then
/// each thread with its calls.
///
/// Objects, threads and calls are counted from 0. The numbers with names are [`limits`](crate::limits).
#[derive(Clone, Copy, Debug, PartialEq, Eq, Error)]
pub enum ScriptFault {
    /// The bytes aren't the text of a JSON value.
    #[error("not JSON")]
    NotJson,
    /// The value isn't an object with exactly the keys `objects`, a list of 1 to `MOST_OBJECTS`, and
    /// `threads`, a list of 1 to `MOST_THREADS`.
    #[error("bad top")]
    BadTop,
    /// This member of `objects` isn't a new name and a header with as many seats as there are threads.
    #[error("bad object {0}")]
    BadObject(usize),
    /// This member of `threads` isn't an object with exactly the keys `repeat`, 1 to `MOST_ROUNDS`, and
    /// `calls`, a list of at most `MOST_CALLS`.
    #[error("bad thread {0}")]
    BadThread(usize),
    /// This member of `calls`, the second number, isn't a call. The first number is the thread's.
    #[error("bad call {0} {1}")]
    BadCall(usize, usize),
    /// An allocation failed; the script may be good.
    #[error("out of memory")]
    OutOfMemory,
}

impl From<AllocError> for ScriptFault {
    ghost from_gives = { λ _ e. e ≡ OutOfMemory };

    fn from(_e: AllocError) -> ScriptFault {
        ScriptFault::OutOfMemory
    }
}

impl<T: Drop> From<AllocFailed<T>> for ScriptFault {
    ghost from_gives = { λ _ e. e ≡ OutOfMemory };

    fn from(_e: AllocFailed<T>) -> ScriptFault {
        ScriptFault::OutOfMemory
    }
}
