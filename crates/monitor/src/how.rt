//! How long a call waits.
ghost use Rattle.std.specs.Prelude.{◌≡◌};
ghost use Rattle.monitor.specs.Acquire.{is_interruptible, moment_after};
ghost use Rattle.monitor.specs.Machine.{limits_from};
ghost use Rattle.monitor.specs.inner.Machine.{WasShown};

use crate::pass::Pass;
use crate::waiting::Limits;
use permit::Parking;
use std::time::Clock;

/// What ends a wait before its turn comes.
#[derive(Clone, Copy, Debug, PartialEq, Eq)]
pub enum How {
    /// Nothing does. An interrupt stays pending.
    Plain,
    /// An interrupt, before the call or while it waits.
    Interruptible,
    /// An interrupt, or the end of this number of milliseconds.
    Timed(u32),
}

pub(crate) fn is_interruptible(how: How) -> bool
    ensures { result ≡ is_interruptible how }
{
    match how {
        How::Plain => false,
        How::Interruptible => true,
        How::Timed(_) => true,
    }
}

/// Returns the moment that comes this number of milliseconds after another, or the last moment.
pub fn moment_after(moment: u64, milliseconds: u32) -> u64
    ensures { result ≡ moment_after moment milliseconds }
{
    moment.saturating_add(u64::from(milliseconds))
}

// How the parks of a call end: its time is counted from this moment.
pub(crate) fn limits_from(moment: u64, how: How) -> Limits
    ensures { result ≡ limits_from moment how }
{
    let until = match how {
        How::Timed(milliseconds) => Some(moment_after(moment, milliseconds)),
        How::Plain => None,
        How::Interruptible => None,
    };
    Limits {
        until,
        interruptible: is_interruptible(how),
    }
}

// What the clock shows, if the call is timed. Only the contract needs the pass: it tells when.
#[tactic(auto, using(crate::specs::Acquire::asked))]
pub(crate) fn moment<P: Parking, R: Clock>(rt: &R, parking: &P, pass: &Pass, how: How) -> u64
    ensures { WasShown (P.did parking.now) pass.now.seen how result }
{
    match how {
        How::Timed(_) => parking.now(rt),
        How::Plain => 0,
        How::Interruptible => 0,
    }
}
