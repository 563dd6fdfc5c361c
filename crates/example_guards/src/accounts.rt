//! Two accounts, and payments from one into the other. The lock keeps an invariant: both have 1000 together.
//!
//! A payment takes from one account before it adds to the other. In between the invariant is broken, which no other
//! thread sees: whoever has the accounts must prove it again before it waits or unlocks.
ghost use Rattle.std.specs.Prelude.{◌≡◌, ◌<◌, ◌+◌, ◌^◌, IfOk, false, true};
ghost use Rattle.guarded.specs.Guarding.{CanLock};

use guarded::{Keeps, Mutex};
use history::fault::Fault;
use monitor::Pass;
use permit::Parking;
use std::sync::Wait;
use std::time::Clock;

/// The condition on which a thread waits for a payment.
const PAID: u8 = 0;

/// The most milliseconds that such a wait lasts.
const MOMENT: u32 = 100;

/// How often a thread looks whether there is enough.
const LOOKS: u32 = 10;

/// One of the two accounts.
#[derive(Clone, Copy)]
pub enum Side {
    Left,
    Right,
}

impl Side {
    fn other(self) -> Side {
        match self {
            Side::Left => Side::Right,
            Side::Right => Side::Left,
        }
    }
}

/// What each account has.
#[derive(Drop)]
pub struct Accounts {
    left: u64,
    right: u64,
}

impl Accounts {
    /// Opens both accounts, the right one with nothing.
    pub fn new(left: u64) -> Accounts
        ensures { result.left + result.right ≡ left }
    {
        Accounts { left, right: 0 }
    }

    /// Takes the amount from one account, or returns false if that has less.
    fn withdraw(&mut self, from: Side, amount: u64) -> bool
        ensures taken { result ≡ true → self.new.left + self.new.right + amount ≡ self.old.left +
            self.old.right }
        ensures not_taken { result ≡ false → self.new ≡ self.old }
    {
        match from {
            Side::Left if amount <= self.left => {
                self.left -= amount;
                true
            }
            Side::Right if amount <= self.right => {
                self.right -= amount;
                true
            }
            _ => false,
        }
    }

    /// Adds the amount to one account.
    fn deposit(&mut self, to: Side, amount: u64)
        requires fits { self.old.left + self.old.right + amount < 2 ^ 64 }
        ensures added { self.new.left + self.new.right ≡ self.old.left + self.old.right + amount }
    {
        match to {
            Side::Left => self.left += amount,
            Side::Right => self.right += amount,
        }
    }
}

/// Both accounts have 1000 together.
pub struct Balanced;

impl Keeps<Accounts> for Balanced {
    ghost invariant = { λ accounts. accounts.left + accounts.right ≡ 1000 };
}

/// Pays from one account into the other. If that has too little, it waits for a payment, a few times. Returns whether
/// it paid.
fn pay<P: Parking, R: Wait + Clock>(
    rt: &R,
    parking: &P,
    lock: &Mutex<Accounts, Balanced>,
    pass: &mut Pass,
    from: Side,
    amount: u64,
) -> Result<bool, Fault>
    requires { CanLock lock.now (P.seats parking.now) pass.old }
    ensures { CanLock lock.now (P.seats parking.now) pass.new }
{
    let mut guard = Mutex::lock(pass, lock, rt, parking)?;
    for _ in 0..LOOKS {
        let both = guard.value_mut();
        if both.withdraw(from, amount) {
            both.deposit(from.other(), amount);
            guard.signal_all(PAID)?;
            return Ok(true);
        }
        guard.wait_for(PAID, MOMENT)?;
    }
    Ok(false)
}

/// Pays this many times, each time if there is enough.
pub fn pay_often<P: Parking, R: Wait + Clock>(
    rt: &R,
    parking: &P,
    lock: &Mutex<Accounts, Balanced>,
    pass: &mut Pass,
    from: Side,
    amount: u64,
    times: u32,
) -> Result<(), Fault>
    requires { CanLock lock.now (P.seats parking.now) pass.old }
    ensures { CanLock lock.now (P.seats parking.now) pass.new }
{
    for _ in 0..times {
        pay(rt, parking, lock, pass, from, amount)?;
    }
    Ok(())
}

/// Adds up what both accounts have. That is 1000, and so the sum fits.
pub fn total<P: Parking, R: Wait + Clock>(
    rt: &R,
    parking: &P,
    lock: &Mutex<Accounts, Balanced>,
    pass: &mut Pass,
) -> Result<u64, Fault>
    requires { CanLock lock.now (P.seats parking.now) pass.old }
    ensures can { CanLock lock.now (P.seats parking.now) pass.new }
    ensures whole { IfOk result (λ sum. sum ≡ 1000) }
{
    let guard = Mutex::lock(pass, lock, rt, parking)?;
    let both = guard.value();
    Ok(both.left + both.right)
}
