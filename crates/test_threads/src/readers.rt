//! Readers of a guarded value: many at once and no writer, and each ends its share of it before its hold.
ghost use Rattle.std.specs.Prelude.{◌≡◌, ◌≤◌};
ghost use Rattle.guarded.specs.Guarding.{CanLock};
ghost use Rattle.monitor.specs.Stepping.{IsSame};
ghost use Rattle.monitor_fronts.specs.Holding.{holds};

use crate::noted::NotedParking;
use crate::storms::wait_for;
use guarded::{RwMutex, TryLockFault};
use history::fault::Fault;
use monitor::Pass;
use permit::{Parking, ThreadParking};
use std::process::Abort;
use std::sync::Wait;
use std::sync::atomic::{AtomicU64, Ordering};
use std::thread;
use std::time::Clock;

const SEATS: u16 = 3;

/// What the lock guards first.
const VALUE: u64 = 7;

/// How often a thread reads while others stay inside, and how often each writes after that.
const ROUNDS: u64 = 200;

/// Reads until the other thread waits to write, and lets it in.
fn read_first<R: Wait + Clock>(
    rt: &R,
    parking: &NotedParking,
    lock: &RwMutex<u64>,
    pass: &mut Pass,
    reads: &AtomicU64,
) -> Result<bool, Fault>
    requires { CanLock lock.now 256 pass.old }
{
    let guard = RwMutex::read(pass, lock, rt, parking)?;
    reads.fetch_add(1, Ordering::SeqCst);
    Ok(parking.wait_for_parks(rt, 1) && *guard.value() == VALUE)
}

/// Writes once the other thread has read.
fn write_then<R: Wait + Clock>(
    rt: &R,
    parking: &NotedParking,
    lock: &RwMutex<u64>,
    pass: &mut Pass,
    reads: &AtomicU64,
) -> Result<bool, Fault>
    requires { CanLock lock.now 256 pass.old }
{
    let came = wait_for(rt, reads, 1);
    let mut guard = RwMutex::write(pass, lock, rt, parking)?;
    *guard.value_mut() = VALUE;
    parking.keep_unparks(false);
    Ok(came)
}

#[test]
fn a_reader_ends_its_share_before_its_hold(rt: HostRuntime) {
    let parking = NotedParking::open(rt.alloc(), &[]).expect(&rt, "memory");
    parking.keep_unparks(true);
    let (lock, mut passes) = RwMutex::new(rt.alloc(), VALUE, SEATS).expect(&rt, "memory");
    let mut one = passes.pop().expect(&rt, "a pass");
    let mut other = passes.pop().expect(&rt, "a pass");
    let reads = AtomicU64::new(0);
    let (read, written) = thread::join_mut(
        &rt,
        &mut || read_first(&rt, &parking, &lock, &mut one, &reads),
        &mut || write_then(&rt, &parking, &lock, &mut other, &reads),
    );
    assert_eq!(rt; (read, written), (Ok(true), Ok(true)));
    assert!(rt; !parking.take_interrupt(0), "an unpark was kept to the end");
}

/// Stays inside until a third thread has read, and returns what it sees then.
fn stay<R: Wait + Clock>(
    rt: &R,
    parking: &ThreadParking,
    lock: &RwMutex<u64>,
    pass: &mut Pass,
    steps: &AtomicU64,
) -> Result<bool, Fault>
    requires { CanLock lock.now parking.now pass.old }
    ensures same { IsSame pass.old pass.new }
    ensures free { holds pass.new ≡ 0 }
{
    let guard = RwMutex::read(pass, lock, rt, parking)?;
    steps.fetch_add(1, Ordering::SeqCst);
    let read_beside = wait_for(rt, steps, 3);
    Ok(read_beside && *guard.value() == VALUE)
}

/// Whether it can't write now.
fn misses<R: Wait + Clock>(
    rt: &R,
    parking: &ThreadParking,
    lock: &RwMutex<u64>,
    pass: &mut Pass,
) -> bool
    requires { CanLock lock.now parking.now pass.old }
    ensures same { IsSame pass.old pass.new }
    ensures free { holds pass.new ≡ 0 }
{
    match RwMutex::try_write(pass, lock, rt, parking) {
        Ok(_guard) => false,
        Err(fault) => fault == TryLockFault::Missed,
    }
}

/// Reads once, and returns the value.
fn look<R: Wait + Clock>(
    rt: &R,
    parking: &ThreadParking,
    lock: &RwMutex<u64>,
    pass: &mut Pass,
) -> Result<u64, Fault>
    requires { CanLock lock.now parking.now pass.old }
    ensures same { IsSame pass.old pass.new }
    ensures free { holds pass.new ≡ 0 }
{
    let guard = RwMutex::read_interruptibly(pass, lock, rt, parking)?;
    Ok(*guard.value())
}

/// Adds one to the value.
fn add_one<R: Wait + Clock>(
    rt: &R,
    parking: &ThreadParking,
    lock: &RwMutex<u64>,
    pass: &mut Pass,
) -> Result<(), Fault>
    requires { CanLock lock.now parking.now pass.old }
    ensures same { IsSame pass.old pass.new }
    ensures free { holds pass.new ≡ 0 }
{
    let mut guard = RwMutex::write(pass, lock, rt, parking)?;
    let value = guard.value_mut();
    *value = value.saturating_add(1);
    Ok(())
}

/// Reads often beside the two that stay, and can't write meanwhile.
fn look_beside<R: Wait + Clock>(
    rt: &R,
    parking: &ThreadParking,
    lock: &RwMutex<u64>,
    pass: &mut Pass,
    steps: &AtomicU64,
) -> bool
    requires { CanLock lock.now parking.now pass.old }
    ensures same { IsSame pass.old pass.new }
    ensures free { holds pass.new ≡ 0 }
{
    let two_read = wait_for(rt, steps, 2);
    let mut good = misses(rt, parking, lock, pass) && two_read;
    for _ in 0..ROUNDS {
        good = look(rt, parking, lock, pass) == Ok(VALUE) && good;
    }
    steps.fetch_add(1, Ordering::SeqCst);
    good
}

/// The part of one thread: two stay inside at once, and the third reads beside them. Then all write.
fn play<R: Abort + Wait + Clock>(
    rt: &R,
    parking: &ThreadParking,
    lock: &RwMutex<u64>,
    pass: Pass,
    steps: &AtomicU64,
) -> Pass
    requires { CanLock lock.now parking.now pass }
    ensures same { IsSame pass result }
{
    let mut own = pass;
    let good = if own.seat() == 0 {
        look_beside(rt, parking, lock, &mut own, steps)
    } else {
        stay(rt, parking, lock, &mut own, steps) == Ok(true)
    };
    assert!(rt; good, "a reader was kept out, or a writer was not");
    for _ in 0..ROUNDS {
        assert!(rt; add_one(rt, parking, lock, &mut own).is_ok());
    }
    own
}

#[test]
fn two_readers_are_inside_at_once_and_no_writer(rt: HostRuntime) {
    let parking = ThreadParking::open(&rt, rt.alloc(), SEATS).expect(&rt, "memory");
    let (lock, passes) = RwMutex::new(rt.alloc(), VALUE, SEATS).expect(&rt, "memory");
    let steps = AtomicU64::new(0);
    let played = thread::map_vec(
        &rt,
        passes,
        &|pass: Pass| -> Pass
            requires { (pass.lock ≡ lock.lock) × (holds pass ≡ 0) × (lock.lock.header.seats ≤ parking) }
            ensures { result.lock ≡ lock.lock }
        { play(&rt, &parking, &lock, pass, &steps) },
    );
    match lock.close(&rt, played.expect(&rt, "memory")) {
        Ok((_closed, left)) => assert_eq!(rt; left, Some(VALUE + 3 * ROUNDS)),
        Err(_) => panic!(rt; "a pass is missing"),
    }
}
