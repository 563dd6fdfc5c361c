//! Locks that are opened and closed, one after another, by one thread.
//!
//! A close adds up what all seats hold. So the time of the processor shows how a close grows with the seats:
//! `checks/growth.py` compares it for 64 and 256 of them.

ghost use Rattle.std.specs.Prelude.{◌≡◌, ◌<◌, ◌≤◌, All};

use history::fault::Fault;
use history::header::Policy;
use monitor::{Monitor, Pass};
use reentrant::lock::LockHooks;
use std::alloc::Global;
use std::io;
use std::sync::Wait;

/// How many locks are closed, and their seats, if the command line names none.
const FEW: (u16, u64) = (256, 20);

/// The fewest entries that a history may have.
const CAP: u32 = 16;

/// Reads the seats and the number of closes. They are the words after the name.
fn asked(seats: Option<&str>, closes: Option<&str>) -> (u16, u64)
    ensures { (0 < result.0) × (result.0 ≤ 256) }
{
    let seats = seats.and_then(|word| word.parse::<u16>().ok());
    let closes = closes.and_then(|word| word.parse::<u64>().ok());
    match (seats, closes) {
        (Some(seats), Some(closes)) => (seats.clamp(1, 256), closes),
        _ => FEW,
    }
}

/// Closes a lock, and returns what all seats held.
fn close<R: Wait>(rt: &R, monitor: Monitor<LockHooks>, passes: Vec<Pass>) -> Result<u128, Fault>
    requires { All (λ p. p.lock ≡ monitor) passes.items }
{
    match monitor.close(rt, passes) {
        Ok(closed) => Ok(closed.balance.exclusive.max(closed.balance.shared)),
        Err(_) => Err(Fault::OutOfPhase),
    }
}

/// Opens a lock and closes it. Returns what all seats held.
fn open_and_close<R: Wait>(rt: &R, alloc: Global, seats: u16) -> Result<u128, Fault>
    requires { (0 < seats) × (seats ≤ 256) }
{
    let hooks = LockHooks::open(Policy::Fair);
    let (monitor, passes) = Monitor::open(alloc, hooks, seats, 0, CAP)?;
    close(rt, monitor, passes)
}

/// Opens and closes as many locks, and returns the most that the seats of one held.
fn most_held<R: Wait>(rt: &R, alloc: Global, seats: u16, closes: u64) -> Result<u128, Fault>
    requires { (0 < seats) × (seats ≤ 256) }
{
    let mut most = 0;
    for _ in 0..closes {
        most = open_and_close(rt, alloc, seats)?.max(most);
    }
    Ok(most)
}

/// Opens and closes locks as the words ask, and prints a line.
pub fn run<R: Print + AllocGlobal + Wait>(
    rt: &R,
    seats: Option<&str>,
    closes: Option<&str>,
) -> io::Result<()> {
    let (seats, closes) = asked(seats, closes);
    match most_held(rt, rt.alloc(), seats, closes) {
        Ok(most) => println!(rt; "{closes} locks of {seats} seats, which held {most} at most"),
        Err(_) => println!(rt; "{closes} locks of {seats} seats: out of memory"),
    }
}
