//! The time until a moment.
ghost use Rattle.monitor_fronts.specs.FrontCalls.{AreLeft};

use permit::Parking;
use std::time::Clock;

/// The milliseconds that are left until a moment on the clock of the parking: 0 if it has come, and
/// 4294967295 if more are left.
pub fn milliseconds_left<P: Parking, R: Clock>(rt: &R, parking: &P, moment: u64) -> u32
    ensures { AreLeft (P.did parking.now) moment result }
{
    let now = parking.now(rt);
    moment.saturating_sub(now).min(u64::from(u32::MAX)) as u32
}
