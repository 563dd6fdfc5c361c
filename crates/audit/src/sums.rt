//! The totals of a history.

ghost use Rattle.std.specs.Prelude.{◌≡◌, ◌<◌, ◌^◌, List, pos, ◌+ℤ◌, ◌-ℤ◌};
ghost use Rattle.audit.specs.Below.{Start, Entry, balance, IsHistory};
ghost use Rattle.audit.specs.Ledger.{LedgerStand};
ghost use Rattle.audit.specs.inner.Ledger.{IsLedger};
ghost use Rattle.audit.specs.Totals.{no_totals, numbers_of, totals_of};

use crate::ledger::Ledger;
use deciding::balance::{Balance, balance_of};
use history::header::Object;

/// The totals after a history's last entry. Those that an object of the header's kind doesn't have are 0.
#[derive(Clone, Copy, Debug, Drop, PartialEq, Eq)]
pub struct Totals {
    /// The exclusive holds of all seats of a lock or read-write lock.
    pub x: i128,
    /// The shared holds of all seats of a lock or read-write lock.
    pub s: i128,
    /// How many seats are in the queue.
    pub line: i128,
    /// How many seats wait on conditions.
    pub sleepers: i128,
    /// The permits that all seats of a semaphore hold.
    pub held: i128,
    /// The free permits of a semaphore, which may be negative.
    pub free: i128,
    /// The permits with which a semaphore was opened, which may be negative.
    pub created: i128,
    /// The permits that were released by seats which didn't hold them.
    pub unheld: i128,
    /// The count of a latch.
    pub count: i128,
}

impl Totals {
    /// Returns the totals of an object of this kind. The unheld permits of a semaphore are those held and
    /// free, less those that it was opened with.
    pub fn of(object: Object, numbers: &Balance) -> Totals
        requires exclusive { numbers.now.exclusive < 2 ^ 126 }
        requires shared { numbers.now.shared < 2 ^ 126 }
        ensures is { result ≡ numbers_of object numbers.now }
        ensures adds { (s : Start) (h : List Entry) → IsHistory s h → s.header.object ≡ object →
            numbers.now ≡ balance s h → result ≡ totals_of s h }
    {
        let line = i128::from(numbers.line);
        match object {
            Object::Lock(_) | Object::ReadWrite(_) => Totals {
                x: whole(numbers.exclusive),
                s: whole(numbers.shared),
                line,
                sleepers: i128::from(numbers.sleepers),
                ..nothing()
            },
            Object::Semaphore(_, permits) => Totals {
                line,
                held: whole(numbers.shared),
                free: i128::from(numbers.available),
                created: i128::from(permits),
                unheld: unheld(numbers.shared, numbers.available, permits),
                ..nothing()
            },
            Object::Latch(_) => Totals {
                line,
                count: i128::from(numbers.count),
                ..nothing()
            },
        }
    }
}

impl Ledger {
    /// Returns the totals of the entries so far.
    pub(crate) fn add_up(&self) -> Totals
        requires { IsLedger self.now }
        ensures { (s : Start) (h : List Entry) → LedgerStand s h self.now → result ≡ totals_of s h }
    {
        Totals::of(self.header.object, &balance_of(self))
    }
}

/// Returns the permits held and free beyond those created.
fn unheld(held: u128, free: i64, created: i32) -> i128
    requires { held < 2 ^ 126 }
    ensures { result ≡ (pos held +ℤ free) -ℤ created }
{
    held as i128 + i128::from(free) - i128::from(created)
}

fn nothing() -> Totals
    ensures { result ≡ no_totals }
{
    Totals {
        x: 0,
        s: 0,
        line: 0,
        sleepers: 0,
        held: 0,
        free: 0,
        created: 0,
        unheld: 0,
        count: 0,
    }
}

fn whole(number: u128) -> i128
    requires { number < 2 ^ 127 }
    ensures { result ≡ pos number }
{
    number as i128
}
