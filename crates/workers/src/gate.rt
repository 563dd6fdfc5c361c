//! The gate around each call of a worker.
ghost use Rattle.std.specs.Prelude.{◌≡◌, true};

use std::sync::Wait;
use std::time::Clock;

/// What a worker asks before each call and notifies after it. Tests use it to hold threads up.
///
/// Calls are numbered from 0, over all rounds of a worker. A worker asks before each call in order, up to the
/// last call or to the first that it may not make.
pub trait Gate {
    ghost use Rattle.std.specs.Prelude.{ℕ, Bool};

    /// Whether the gate may return this to a worker before its call with this number.
    ghost answers: { Self → ℕ → ℕ → Bool → Type 0 };

    /// Returns whether the worker may make the call. If it may not, it makes no more calls.
    fn before<R: Wait + Clock>(&self, rt: &R, worker: u16, call: u64) -> bool
        ensures { answers self.now worker call result };

    /// Is called after the worker's call has returned.
    fn after<R: Wait + Clock>(&self, rt: &R, worker: u16, call: u64);
}

/// A gate that lets each call through at once.
#[derive(Clone, Copy, Debug, Drop)]
pub struct OpenGate;

impl Gate for OpenGate {
    ghost answers = { λ _ _ _ answer. answer ≡ true };

    fn before<R: Wait + Clock>(&self, _rt: &R, _worker: u16, _call: u64) -> bool {
        true
    }

    fn after<R: Wait + Clock>(&self, _rt: &R, _worker: u16, _call: u64) {}
}
