//! An object's totals.

ghost use Rattle.std.specs.Prelude.{◌≡◌, ◌<◌, ◌^◌, List};
ghost use Rattle.history.specs.Start.{Start};
ghost use Rattle.history.specs.declared.entry.Entry.{Entry};
ghost use Rattle.deciding.specs.Balance.{HasShortHistory, all_asleep, available, balance, held_by_all};

use crate::situation::ObjectState;
use history::entry::Mode;
use history::header::Object;

/// What all seats of an object hold together, how many wait, and what is free.
#[derive(Clone, Copy, Debug, Drop, PartialEq, Eq)]
pub struct Balance {
    /// The exclusive holds of all seats.
    pub exclusive: u128,
    /// The shared holds of all seats; for a semaphore the permits that they hold.
    pub shared: u128,
    /// How many seats are in the queue.
    pub line: u16,
    /// How many seats wait on conditions.
    pub sleepers: u32,
    /// The free permits of a semaphore, which may be negative; else 0.
    pub available: i64,
    /// The count of a latch; else 0.
    pub count: u32,
}

/// Returns the totals of a state over all seats and all conditions. It visits each of them, and allocates
/// nothing.
pub fn balance_of<T: ObjectState>(state: &T) -> Balance
    requires { HasShortHistory T.stands state.now }
    ensures balance { (s : Start) (h : List Entry) → T.stands s h state.now → result ≡ balance s h }
    ensures exclusive { result.exclusive < 2 ^ 126 }
    ensures shared { result.shared < 2 ^ 126 }
{
    Balance {
        exclusive: held_by_all(state, Mode::X),
        shared: held_by_all(state, Mode::S),
        line: state.queue_length(),
        sleepers: all_asleep(state),
        available: available(state),
        count: state.latch_count(),
    }
}

/// Returns the holds of all seats in a mode.
fn held_by_all<T: ObjectState>(state: &T, mode: Mode) -> u128
    requires { HasShortHistory T.stands state.now }
    ensures held { (s : Start) (h : List Entry) → T.stands s h state.now → result ≡ held_by_all s h mode }
    ensures few { result < 2 ^ 126 }
{
    let mut all = 0;
    for seat in 0..state.header().seats {
        all += state.held(seat, mode);
    }
    all
}

/// Returns how many seats wait, over all conditions.
fn all_asleep<T: ObjectState>(state: &T) -> u32
    ensures { (s : Start) (h : List Entry) → T.stands s h state.now → result ≡ all_asleep s h }
{
    let mut all = 0;
    for condition in 0..state.header().conditions {
        all += u32::from(state.waiters(condition));
    }
    all
}

/// Returns the free permits of a semaphore, else 0.
fn available<T: ObjectState>(state: &T) -> i64
    requires { HasShortHistory T.stands state.now }
    ensures { (s : Start) (h : List Entry) → T.stands s h state.now → result ≡ available s h }
{
    match state.header().object {
        Object::Semaphore(_, _) => state.free(),
        Object::Lock(_) | Object::ReadWrite(_) | Object::Latch(_) => 0,
    }
}
