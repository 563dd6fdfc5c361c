//! The same sum, and a proof that it is 42: each thread has a share of what was added.
ghost use Rattle.std.specs.Prelude.{◌≡◌, ◌+◌, ◌≤◌, IfOk, OnOk};
ghost use Rattle.locks.specs.Calling.{CanLock};
ghost use Rattle.example_first.specs.Sums.{capped};

use crate::number::{IsSum, Number};
use locks::{Fault, Mutex, Pass, ThreadParking, two_passes};
use std::alloc::Global;
use std::marker::Brand;
use std::sync::Wait;
use std::sync::ledger::{Blank, Ledger, Share};
use std::thread;
use std::thread::Threads;
use std::time::Clock;

/// Adds to the number. The share of this thread then has as much more.
fn add<L: Ledger, R: Wait + Clock>(
    rt: &R,
    parking: &ThreadParking,
    number: &Mutex<Number<L>, IsSum>,
    pass: &mut Pass,
    share: &mut Share<L>,
    more: u64,
) -> Result<(), Fault>
    requires can { CanLock number.now parking.now pass.old }
    requires part { share.old.parts ≡ 1 }
    ensures can { CanLock number.now parking.now pass.new }
    ensures added { OnOk result (share.new.amount ≡ share.old.amount + more) }
    ensures part { share.new.parts ≡ 1 }
{
    let mut guard = Mutex::lock(pass, number, rt, parking)?;
    guard.value_mut().add(share, more);
    Ok(())
}

/// Reads the number, which only grows: it is at least what this thread has added, whatever the others did since.
fn look<L: Ledger, R: Wait + Clock>(
    rt: &R,
    parking: &ThreadParking,
    number: &Mutex<Number<L>, IsSum>,
    pass: &mut Pass,
    share: &mut Share<L>,
) -> Result<u64, Fault>
    requires can { CanLock number.now parking.now pass.old }
    ensures can { CanLock number.now parking.now pass.new }
    ensures least { IfOk result (λ n. capped share.old.amount ≤ n) }
    ensures whole { IfOk result (λ n. share.old.parts ≡ L.parts → n ≡ capped share.old.amount) }
    ensures share { (share.new.parts ≡ share.old.parts) × (share.new.amount ≡ share.old.amount) }
{
    let mut guard = Mutex::lock(pass, number, rt, parking)?;
    Ok(guard.value_mut().read(share))
}

/// Adds, lets the number go, and looks at it later.
fn add_and_look<L: Ledger, R: Wait + Clock>(
    rt: &R,
    parking: &ThreadParking,
    number: &Mutex<Number<L>, IsSum>,
    pass: &mut Pass,
    share: &mut Share<L>,
    more: u64,
) -> Result<u64, Fault>
    requires can { CanLock number.now parking.now pass.old }
    requires part { share.old.parts ≡ 1 }
    ensures can { CanLock number.now parking.now pass.new }
    ensures added { OnOk result (share.new.amount ≡ share.old.amount + more) }
    ensures least { IfOk result (λ n. capped (share.old.amount + more) ≤ n) }
    ensures part { share.new.parts ≡ 1 }
{
    add(rt, parking, number, pass, share, more)?;
    look(rt, parking, number, pass, share)
}

/// Two threads add, and the sum is read.
fn both<L: Ledger + Send + Sync, R: Threads + Wait + Clock + Sync>(
    rt: &R,
    alloc: Global,
    blank: Blank,
    a: u64,
    b: u64,
) -> Result<u64, Fault>
    requires { (blank.name ≡ L.name) × (blank.parts ≡ L.parts) × (blank.parts ≡ 2) }
    ensures { IfOk result (λ n. n ≡ capped (a + b)) }
{
    let parking = ThreadParking::open(rt, alloc, 2)?;
    let (book, mut first) = blank.open::<L>();
    let mut second = first.split_off(1, 0);
    let (number, passes) = Mutex::<Number<L>, IsSum>::new_keeping(
        alloc,
        Number { value: 0, book },
        2,
    )?;
    let (mut one, mut two) = two_passes(passes);
    let (x, y) = thread::join_mut(
        rt,
        &mut || add_and_look(rt, &parking, &number, &mut one, &mut first, a),
        &mut || add_and_look(rt, &parking, &number, &mut two, &mut second, b),
    );
    x?;
    y?;
    first.merge(second);
    look(rt, &parking, &number, &mut one, &mut first)
}

/// Two threads add 40 and 2.
pub fn sum<R: Threads + Wait + Clock + Sync>(rt: &R, alloc: Global) -> Result<u64, Fault>
    ensures { IfOk result (λ n. n ≡ 42) }
{
    both::<Brand, R>(rt, alloc, Blank::new(2), 40, 2)
}
