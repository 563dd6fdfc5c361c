//! What the opening of a lock or a pool may choose.
ghost use Rattle.std.specs.Prelude.{◌≡◌};
ghost use Rattle.history.specs.declared.header.Policy.TheVariants.{NonFair};
ghost use Rattle.monitor_fronts.specs.declared.room.WhenFull.TheVariants.{Trim};

use history::header::Policy;
use monitor_fronts::WhenFull;

// How many conditions a lock has if no number is chosen.
pub(crate) const CONDITIONS: u8 = 16;

// The most entries that a history keeps if no number is chosen.
pub(crate) const CAP: u32 = 4096;

/// The choices at an opening. `Options::new()` has the usual ones, and each method changes one, as in
/// `Options::new().policy(Policy::Fair).cap(1000)`.
#[derive(Clone, Copy, Debug, PartialEq, Eq)]
pub struct Options {
    /// Who goes first.
    pub policy: Policy,
    /// What a call does if it finds the history full.
    pub when_full: WhenFull,
    /// How many conditions there are, numbered from 0. A pool has none.
    pub conditions: u8,
    /// The most entries of the history, owed ones included.
    pub cap: u32,
}

impl Options {
    /// Not fair, trims a full history, has all 16 conditions, and keeps at most 4096 entries. These have room for
    /// 256 threads that each hold once and wait.
    pub fn new() -> Options
        ensures policy { result.policy ≡ NonFair }
        ensures when_full { result.when_full ≡ Trim }
        ensures conditions { result.conditions ≡ 16 }
        ensures cap { result.cap ≡ 4096 }
    {
        Options {
            policy: Policy::NonFair,
            when_full: WhenFull::Trim,
            conditions: CONDITIONS,
            cap: CAP,
        }
    }

    /// With this policy.
    pub fn policy(self, policy: Policy) -> Options
        ensures { result ≡ record self { policy = policy } }
    {
        Options { policy, ..self }
    }

    /// With this answer to a full history.
    pub fn when_full(self, when_full: WhenFull) -> Options
        ensures { result ≡ record self { when_full = when_full } }
    {
        Options { when_full, ..self }
    }

    /// With conditions 0 to `conditions - 1`.
    pub fn conditions(self, conditions: u8) -> Options
        ensures { result ≡ record self { conditions = conditions } }
    {
        Options { conditions, ..self }
    }

    /// With room for this many entries.
    pub fn cap(self, cap: u32) -> Options
        ensures { result ≡ record self { cap = cap } }
    {
        Options { cap, ..self }
    }
}
