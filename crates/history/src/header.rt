//! The header of a history: the object and its numbers.

ghost use Rattle.std.specs.Prelude.{◌↔◌, IsTrue};

use crate::limits::{LEAST_CAP, MOST_AMOUNT, MOST_CONDITIONS, MOST_SEATS};

/// Which new calls queue up while others wait. A reentrant call never does.
#[derive(Clone, Copy, Debug, PartialEq, Eq)]
pub enum Policy {
    /// Acquires, timed or not. An untimed try barges past the waiters, as in Java.
    Fair,
    /// None, except a read while the first waiter asks to write.
    NonFair,
    /// Acquires and tries: nobody barges. Java has no such policy.
    Strict,
}

impl Policy {
    ghost use Rattle.std.specs.Prelude.{◌≡◌};
    ghost use Rattle.history.specs.Object.{is_fair_policy, is_strict_policy};

    /// Returns whether a new acquire, timed or not, queues up while others wait, unless it is reentrant.
    #[inline(always)]
    pub fn is_fair(self) -> bool
        ensures { result ≡ is_fair_policy self }
    {
        match self {
            Policy::Fair | Policy::Strict => true,
            Policy::NonFair => false,
        }
    }

    /// Returns whether an untimed try fails while others wait.
    #[inline(always)]
    pub fn is_strict(self) -> bool
        ensures { result ≡ is_strict_policy self }
    {
        match self {
            Policy::Strict => true,
            Policy::Fair | Policy::NonFair => false,
        }
    }
}

/// A synchroniser with its opening number: a semaphore's permits, which may be negative, or a latch's count.
#[derive(Clone, Copy, Debug, PartialEq, Eq)]
pub enum Object {
    Lock(Policy),
    ReadWrite(Policy),
    Semaphore(Policy, i32),
    Latch(u32),
}

/// An object, the numbers of its seats and conditions, and the greatest number of entries of its history.
#[derive(Clone, Copy, Debug, PartialEq, Eq)]
pub struct Header {
    pub object: Object,
    /// 1 to `MOST_SEATS`.
    pub seats: u16,
    /// 0 to `MOST_CONDITIONS` for a lock or read-write lock, 0 for the others.
    pub conditions: u8,
    /// `LEAST_CAP` or more.
    pub cap: u32,
}

impl Object {
    ghost use Rattle.std.specs.Prelude.{◌≡◌};
    ghost use Rattle.history.specs.Object.{is_strict};

    /// Returns whether an untimed try fails while others wait. A latch has no policy, and no tries.
    #[inline(always)]
    pub fn is_strict(&self) -> bool
        ensures { result ≡ is_strict self.now }
    {
        match *self {
            Object::Lock(policy) | Object::ReadWrite(policy) | Object::Semaphore(policy, _) => {
                policy.is_strict()
            }
            Object::Latch(_count) => false,
        }
    }
}

impl Header {
    ghost use Rattle.history.specs.Header.{IsInRange};

    /// Returns whether each number is within the limits of the object.
    pub fn in_range(&self) -> bool
        ensures { IsTrue result ↔ IsInRange self.now }
    {
        let opening = match self.object {
            Object::Lock(_) | Object::ReadWrite(_) => self.conditions <= MOST_CONDITIONS,
            Object::Semaphore(_, _permits) => self.conditions == 0,
            Object::Latch(count) => self.conditions == 0 && count <= MOST_AMOUNT,
        };
        opening && 1 <= self.seats && self.seats <= MOST_SEATS && LEAST_CAP <= self.cap
    }
}
