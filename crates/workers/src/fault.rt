//! Why a run returned no report.

ghost use Rattle.std.specs.Prelude.{◌≡◌};
ghost use Rattle.workers.specs.declared.fault.RunFault.TheVariants.{Memory};

use std::alloc::{AllocError, AllocFailed};
use thiserror::Error;

/// Why a run returned no report. Workers are counted from 0.
#[derive(Clone, Copy, Debug, PartialEq, Eq, Error)]
pub enum RunFault {
    /// An allocation failed.
    #[error("out of memory")]
    Memory,
    /// The gate refused a call of this worker, and let all workers before it make all their calls.
    #[error("gate shut for worker {0}")]
    GateShut(u16),
    /// The system refused a thread, and no worker made a call. The code names the first worker by number whose
    /// thread was refused. The contract says only that this is one of the workers, and that a thread was refused.
    #[error("thread {0} not started")]
    NotStarted(u16),
}

impl From<AllocError> for RunFault {
    ghost from_gives = { λ _ e. e ≡ Memory };

    fn from(_e: AllocError) -> RunFault {
        RunFault::Memory
    }
}

impl<T: Drop> From<AllocFailed<T>> for RunFault {
    ghost from_gives = { λ _ e. e ≡ Memory };

    fn from(_e: AllocFailed<T>) -> RunFault {
        RunFault::Memory
    }
}
