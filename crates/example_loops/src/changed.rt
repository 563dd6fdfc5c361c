//! Until the value has changed.
ghost use Rattle.locks.specs.Calling.{CanLock};

use crate::rounds::MORE;
use locks::{Fault, Mutex, Pass, ThreadParking};
use std::sync::Wait;
use std::time::Clock;

/// The most milliseconds that a wait lasts before the thread looks at the number again.
const MOMENT: u32 = 100;

/// Waits until the number is at least `amount`, and takes that much from it.
fn take<R: Wait + Clock>(
    rt: &R,
    parking: &ThreadParking,
    number: &Mutex<u64>,
    pass: &mut Pass,
    amount: u64,
) -> Result<(), Fault>
    requires { CanLock number.now parking.now pass.old }
    ensures { CanLock number.now parking.now pass.new }
{
    let mut guard = Mutex::lock(pass, number, rt, parking)?;
    for _ in rt.forever() {
        if amount <= *guard.value() {
            *guard.value_mut() -= amount;
            return Ok(());
        }
        guard.wait_for(MORE, MOMENT)?;
    }
    unreachable!()
}

/// Takes one amount, and then another.
pub fn take_twice<R: Wait + Clock>(
    rt: &R,
    parking: &ThreadParking,
    number: &Mutex<u64>,
    pass: &mut Pass,
    first: u64,
    second: u64,
) -> Result<(), Fault>
    requires { CanLock number.now parking.now pass.old }
    ensures { CanLock number.now parking.now pass.new }
{
    take(rt, parking, number, pass, first)?;
    take(rt, parking, number, pass, second)
}
