//! Why a shift was not worked.

ghost use Rattle.std.specs.Prelude.{◌≡◌};
ghost use Rattle.history.specs.declared.fault.Fault.TheVariants.{OutOfMemory};
ghost use Rattle.example_guards.specs.declared.latch_workers.fault.ShiftFault.TheVariants.{Call};

use history::fault::Fault;
use std::alloc::{AllocError, AllocFailed};
use thiserror::Error;

/// Workers are counted from 0.
#[derive(Clone, Copy, Debug, PartialEq, Eq, Error)]
pub enum ShiftFault {
    /// A call of a latch returned this fault, or an allocation failed. No history is printed.
    #[error("{0}")]
    Call(Fault),
    /// The system refused the thread of this worker. Nobody worked.
    #[error("worker {0} not started")]
    NotStarted(u16),
}

impl From<Fault> for ShiftFault {
    ghost from_gives = { λ fault e. e ≡ Call fault };

    fn from(fault: Fault) -> ShiftFault {
        ShiftFault::Call(fault)
    }
}

impl From<AllocError> for ShiftFault {
    ghost from_gives = { λ _ e. e ≡ Call OutOfMemory };

    fn from(_e: AllocError) -> ShiftFault {
        ShiftFault::Call(Fault::OutOfMemory)
    }
}

impl<T: Drop> From<AllocFailed<T>> for ShiftFault {
    ghost from_gives = { λ _ e. e ≡ Call OutOfMemory };

    fn from(_e: AllocFailed<T>) -> ShiftFault {
        ShiftFault::Call(Fault::OutOfMemory)
    }
}
