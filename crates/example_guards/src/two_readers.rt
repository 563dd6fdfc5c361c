//! Two readers of one value are inside at the same time: each prints while the other one still holds.
//!
//! The lock keeps the invariant that both numbers are equal. The writer before them breaks it for a moment.
ghost use Rattle.std.specs.Prelude.{◌≡◌, IfOk, true};
ghost use Rattle.guarded.specs.Guarding.{CanLock};

use guarded::{Keeps, ReadGuard, RwMutex};
use history::fault::Fault;
use monitor::Pass;
use monitor_fronts::two_passes;
use permit::ThreadParking;
use std::alloc::Global;
use std::sync::Wait;
use std::sync::atomic::{AtomicU32, Ordering};
use std::thread::Threads;
use std::time::{Clock, Duration};
use std::{io, thread};

/// Two numbers.
#[derive(Drop)]
pub struct Pair {
    left: u64,
    right: u64,
}

/// Both are equal.
pub struct Equal;

impl Keeps<Pair> for Equal {
    ghost use Rattle.std.specs.Prelude.{◌≡◌};

    ghost invariant = { λ pair. pair.left ≡ pair.right };
}

/// How often a reader looks for the other one, once a millisecond.
const LOOKS: u32 = 30_000;

/// Waits until this many steps were made, and returns whether they were.
fn wait_for<R: Clock>(rt: &R, steps: &AtomicU32, least: u32) -> bool {
    for _ in 0..LOOKS {
        if least <= steps.load(Ordering::SeqCst) {
            return true;
        }
        thread::sleep(rt, Duration::from_millis(1));
    }
    false
}

/// Adds to both numbers, and goes on as a reader. Returns whether both are equal.
fn add<R: Wait + Clock>(
    rt: &R,
    parking: &ThreadParking,
    lock: &RwMutex<Pair, Equal>,
    pass: &mut Pass,
    more: u64,
) -> Result<bool, Fault>
    requires { CanLock lock.now parking.now pass.old }
    ensures can { CanLock lock.now parking.now pass.new }
    ensures equal { IfOk result (λ is_equal. is_equal ≡ true) }
{
    let mut guard = RwMutex::write(pass, lock, rt, parking)?;
    let pair = guard.value_mut();
    pair.left = pair.left.saturating_add(more);
    pair.right = pair.right.saturating_add(more);
    if !guard.read()? {
        return Ok(true);
    }
    guard.downgrade();
    let pair = ReadGuard::of(pass, lock, rt, parking);
    Ok(pair.left == pair.right)
}

/// Reads, and prints while the other reader is inside too. The steps: both come in, one prints, the other prints.
fn read<R: Print + Wait + Clock>(
    rt: &R,
    parking: &ThreadParking,
    lock: &RwMutex<Pair, Equal>,
    pass: &mut Pass,
    steps: &AtomicU32,
    turn: u32,
) -> Result<io::Result<()>, Fault>
    requires { CanLock lock.now parking.now pass.old }
{
    let pair = RwMutex::read(pass, lock, rt, parking)?;
    steps.fetch_add(1, Ordering::SeqCst);
    let beside = wait_for(rt, steps, 2) && wait_for(rt, steps, turn);
    let printed = println!(rt;
        "a reader sees {} and {}, beside another: {beside}",
        pair.left, pair.right
    );
    steps.fetch_add(1, Ordering::SeqCst);
    let _both = wait_for(rt, steps, 4);
    Ok(printed)
}

/// Opens a lock, and lets one thread write, and then two read.
fn read_both<R: Print + Threads + Wait + Clock + Sync>(
    rt: &R,
    alloc: Global,
) -> Result<io::Result<()>, Fault> {
    let parking = ThreadParking::open(rt, alloc, 2)?;
    let pair = Pair { left: 3, right: 3 };
    let (lock, passes) = RwMutex::<Pair, Equal>::new_keeping(alloc, pair, 2)?;
    let (mut one, mut two) = two_passes(passes);
    add(rt, &parking, &lock, &mut one, 4)?;
    let steps = AtomicU32::new(0);
    let (first, second) = thread::join_mut(
        rt,
        &mut || read(rt, &parking, &lock, &mut one, &steps, 2),
        &mut || read(rt, &parking, &lock, &mut two, &steps, 3),
    );
    Ok(first?.and(second?))
}

/// Runs the example.
pub fn run<R: Print + AllocGlobal + Threads + Wait + Clock + Sync>(rt: &R) -> io::Result<()> {
    match read_both(rt, rt.alloc()) {
        Ok(printed) => printed,
        Err(fault) => println!(rt; "not read: {fault}"),
    }
}
