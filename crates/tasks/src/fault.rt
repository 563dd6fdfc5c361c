//! Why the program stopped.

ghost use Rattle.std.specs.Prelude.{◌≡◌};
ghost use Rattle.tasks.specs.Fault.{status_of};
ghost use Rattle.tasks.specs.declared.fault.Fault.TheVariants.{Memory, Run, Script, Stream};

use script::ScriptFault;
use std::alloc::AllocError;
use streams::stream_fault::StreamFault;
use workers::RunFault;

/// An option of a run.
#[derive(Clone, Copy, Debug, PartialEq, Eq, thiserror::Error)]
pub enum RunOption {
    /// The name of the object whose history is written.
    #[error("object")]
    Object,
    /// The folder in which the histories are left.
    #[error("dir")]
    Dir,
    /// The milliseconds after which the run is late.
    #[error("timeout")]
    Timeout,
}

/// A fault, which the program prints in one line.
#[derive(Clone, Copy, Debug, PartialEq, Eq, thiserror::Error)]
pub enum Fault {
    /// The command line is none that the program knows. Help and the version are no exceptions.
    #[error("usage")]
    Usage,
    /// The first entry to draw is no number, or comes after the last.
    #[error("bad --from")]
    BadFrom,
    /// The last entry to draw is no number.
    #[error("bad --to")]
    BadTo,
    /// The entry to explain is no number.
    #[error("bad --at")]
    BadAt,
    /// An option of a run can't be met: no object has the name, or the folder has a file of an object's name,
    /// or is none, or the time is none.
    #[error("bad --{0}")]
    BadRunOption(RunOption),
    /// This line of the names of seats and conditions, counted from 1, is wrong.
    #[error("bad name {0}")]
    BadNaming(u64),
    #[error("out of memory")]
    Memory,
    #[error("{0}")]
    Stream(StreamFault),
    #[error("{0}")]
    Script(ScriptFault),
    #[error("{0}")]
    Run(RunFault),
}

impl Fault {
    /// Returns the exit status: 2 for the command line, 3 for a text, 4 for a device or a thread, 5 for
    /// memory.
    pub fn status(&self) -> u8
        ensures { result ≡ status_of self.now }
    {
        match self {
            Fault::Usage => 2,
            Fault::BadFrom | Fault::BadTo | Fault::BadAt => 2,
            Fault::BadRunOption(_) => 2,
            Fault::BadNaming(_) => 3,
            Fault::Stream(StreamFault::Memory)
            | Fault::Memory
            | Fault::Script(ScriptFault::OutOfMemory)
            | Fault::Run(RunFault::Memory) => 5,
            Fault::Stream(StreamFault::Text(_)) | Fault::Script(_) => 3,
            Fault::Stream(StreamFault::ReadFailed | StreamFault::WriteFailed) | Fault::Run(_) => 4,
        }
    }
}

impl From<AllocError> for Fault {
    ghost from_gives = { λ _ e. e ≡ Memory };

    fn from(_e: AllocError) -> Fault {
        Fault::Memory
    }
}

impl From<StreamFault> for Fault {
    ghost from_gives = { λ fault e. e ≡ Stream fault };

    fn from(fault: StreamFault) -> Fault {
        Fault::Stream(fault)
    }
}

impl From<ScriptFault> for Fault {
    ghost from_gives = { λ fault e. e ≡ Script fault };

    fn from(fault: ScriptFault) -> Fault {
        Fault::Script(fault)
    }
}

impl From<RunFault> for Fault {
    ghost from_gives = { λ fault e. e ≡ Run fault };

    fn from(fault: RunFault) -> Fault {
        Fault::Run(fault)
    }
}
