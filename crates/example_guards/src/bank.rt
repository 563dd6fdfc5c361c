//! A bank with two accounts: two threads pay from one into the other, and back.
//!
//! The lock keeps the invariant that both accounts have 1000 together. Proved: that is what is found at the end,
//! whatever was paid. Prints it.
ghost use Rattle.std.specs.Prelude.{◌≡◌, IfOk};

use crate::accounts::{Accounts, Balanced, Side, pay_often, total};
use guarded::Mutex;
use history::fault::Fault;
use monitor_fronts::two_passes;
use permit::ThreadParking;
use std::alloc::Global;
use std::sync::Wait;
use std::thread::Threads;
use std::time::Clock;
use std::{io, thread};

/// What both accounts have together.
const SUM: u64 = 1_000;

/// What is paid at a time.
const AMOUNT: u64 = 3;

/// How often each thread pays.
const TIMES: u32 = 200;

/// Opens the accounts, lets two threads pay, and adds up what both accounts have then.
fn play<R: Threads + Wait + Clock + Sync>(rt: &R, alloc: Global) -> Result<u64, Fault>
    ensures { IfOk result (λ sum. sum ≡ 1000) }
{
    let parking = ThreadParking::open(rt, alloc, 2)?;
    let opening = Accounts::new(SUM);
    let (lock, passes) = Mutex::<Accounts, Balanced>::new_keeping(alloc, opening, 2)?;
    let (mut one, mut two) = two_passes(passes);
    let (paid, paid_back) = thread::join_mut(
        rt,
        &mut || pay_often(rt, &parking, &lock, &mut one, Side::Left, AMOUNT, TIMES),
        &mut || pay_often(rt, &parking, &lock, &mut two, Side::Right, AMOUNT, TIMES),
    );
    paid?;
    paid_back?;
    total(rt, &parking, &lock, &mut one)
}

/// Runs both threads, and prints what both accounts have together.
pub fn run<R: Print + AllocGlobal + Threads + Wait + Clock + Sync>(rt: &R) -> io::Result<()> {
    match play(rt, rt.alloc()) {
        Ok(sum) => println!(rt; "both accounts have {sum} together"),
        Err(fault) => println!(rt; "{fault}: the bank was given up"),
    }
}
