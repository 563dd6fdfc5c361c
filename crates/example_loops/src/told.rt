//! Until another thread says that it is over.
ghost use Rattle.locks.specs.Calling.{CanLock};

use locks::{Fault, Mutex, Pass, ThreadParking};
use std::sync::Wait;
use std::time::Clock;

/// What the threads share: how many rounds were worked, and whether it is over.
#[derive(Drop)]
pub struct Desk {
    rounds: u64,
    is_over: bool,
}

impl Desk {
    pub fn new() -> Desk {
        Desk {
            rounds: 0,
            is_over: false,
        }
    }

    pub fn rounds(&self) -> u64 {
        self.rounds
    }
}

/// Works until it is over. Returns the number of rounds.
pub fn work<R: Wait + Clock>(
    rt: &R,
    parking: &ThreadParking,
    desk: &Mutex<Desk>,
    pass: &mut Pass,
) -> Result<u64, Fault>
    requires { CanLock desk.now parking.now pass.old }
    ensures { CanLock desk.now parking.now pass.new }
{
    let mut rounds = 0u64;
    for _ in rt.forever() {
        let mut guard = Mutex::lock(pass, desk, rt, parking)?;
        if guard.value().is_over {
            return Ok(rounds);
        }
        rounds = rounds.saturating_add(1);
        guard.value_mut().rounds = rounds;
    }
    unreachable!()
}

/// Says that it is over.
pub fn end<R: Wait + Clock>(
    rt: &R,
    parking: &ThreadParking,
    desk: &Mutex<Desk>,
    pass: &mut Pass,
) -> Result<(), Fault>
    requires { CanLock desk.now parking.now pass.old }
    ensures { CanLock desk.now parking.now pass.new }
{
    let mut guard = Mutex::lock(pass, desk, rt, parking)?;
    guard.value_mut().is_over = true;
    Ok(())
}
