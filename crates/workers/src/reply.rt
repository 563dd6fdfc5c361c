//! What a call of a worker returns.
ghost use Rattle.std.specs.Prelude.{◌≡◌};
ghost use Rattle.workers.specs.Calls.{fault_of};

use history::entry::Entry;
use history::fault::Fault;

/// The result of a call of an object.
#[derive(Clone, Copy, Debug, Drop)]
pub(crate) enum Reply {
    /// A call of the seat: its last entry.
    Entered(Result<Entry, Fault>),
    /// A trim: how many entries it folded. No entry records it.
    Trimmed(Result<u64, Fault>),
}

impl Reply {
    /// Returns what isn't recorded: a fault alone.
    pub(crate) fn fault(&self) -> Option<Fault>
        ensures { result ≡ fault_of self.now }
    {
        match self {
            Reply::Entered(Ok(_)) => None,
            Reply::Entered(Err(fault)) => Some(*fault),
            Reply::Trimmed(Ok(_)) => None,
            Reply::Trimmed(Err(fault)) => Some(*fault),
        }
    }
}
