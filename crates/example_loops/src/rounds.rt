//! A number of rounds, and the lock in each of them.
ghost use Rattle.locks.specs.Calling.{CanLock};

use locks::{Fault, Mutex, Pass, ThreadParking};
use std::sync::Wait;
use std::time::Clock;

/// The condition on which a thread waits for a greater number.
pub const MORE: u8 = 0;

/// Adds 1 in each of the rounds, and says so to a thread that waits.
pub fn add_often<R: Wait + Clock>(
    rt: &R,
    parking: &ThreadParking,
    number: &Mutex<u64>,
    pass: &mut Pass,
    rounds: u64,
) -> Result<(), Fault>
    requires { CanLock number.now parking.now pass.old }
    ensures { CanLock number.now parking.now pass.new }
{
    for _ in 0..rounds {
        let mut guard = Mutex::lock(pass, number, rt, parking)?;
        let value = guard.value_mut();
        *value = value.saturating_add(1);
        guard.signal(MORE)?;
    }
    Ok(())
}
