//! What a thread tells the check by a sleep.

use std::thread;
use std::time::{Clock, Duration};

/// The number of a thread counts this much, and what came of its last call the rest.
const NUMBER: u64 = 16;

/// Sleeps for a time whose nanoseconds tell the number of a thread, and what came of its last call.
pub(crate) fn mark<R: Clock>(rt: &R, number: usize, came: u8) {
    let told = u64::from(came).saturating_add(1);
    let nanoseconds = (number as u64).saturating_mul(NUMBER).saturating_add(told);
    thread::sleep(rt, Duration::from_nanos(nanoseconds));
}
