//! The calls of one thread of a script.

ghost use Rattle.std.specs.Prelude.{◌≡◌};

use crate::call::Call;
use std::marker::Model;

/// The calls of one thread, and how often it repeats them.
#[derive(Debug, Drop)]
pub struct Worker {
    repeat: u32,
    calls: Vec<Call>,
}

impl Model for Worker {
    ghost use Rattle.script.specs.Script.{WorkerView};

    ghost Value = { WorkerView };

    ghost view = { λ w. record { repeat = w.repeat; calls = w.calls.items } };
}

impl Worker {
    /// Returns a worker with these rounds. [`Script::new`](crate::Script::new) looks at the limits.
    pub fn new(repeat: u32, calls: Vec<Call>) -> Self
        ensures { result ≡ record { repeat = repeat; calls = calls.items } }
    {
        Worker { repeat, calls }
    }

    /// Returns how often the thread makes its calls: in a script at least once, and at most
    /// [`MOST_ROUNDS`](crate::limits::MOST_ROUNDS) times.
    pub fn repeat(&self) -> u32
        ensures { result ≡ self.now.repeat }
    {
        self.repeat
    }

    /// Returns the calls of one round in their order: in a script at most
    /// [`MOST_CALLS`](crate::limits::MOST_CALLS).
    pub fn calls(&self) -> &[Call]
        ensures { result.now ≡ self.now.calls }
    {
        self.calls.as_slice()
    }
}
