//! What a seat could acquire, when it is at its limit, and when the queue holds it back.
//!
//! These rules stand here alone. The hooks of an object and the ledger of an audit keep their numbers in ways of
//! their own, and fill a [`Claim`] from them.

ghost use Rattle.std.specs.Prelude.{◌≡◌, ℕ, Option};
ghost use Rattle.history.specs.Could.{could, held_back, is_reentrant, limit, line_blocks};
ghost use Rattle.history.specs.Counts.{Counts};
ghost use Rattle.deciding.specs.Claim.{IsClaim};

use history::entry::Mode;
use history::header::Object;
use history::limits::{MOST_HOLDS, MOST_READ_WRITE_HOLDS};

/// The greatest number of holds of a lock.
const MAX_HOLDS: u128 = MOST_HOLDS as u128;

/// The greatest number of write holds of a read-write lock, and of read holds of all its seats.
const MAX_READ_WRITE_HOLDS: u128 = MOST_READ_WRITE_HOLDS as u128;

/// What decides whether one seat could acquire. A field that the object has no use for is ignored.
#[derive(Clone, Copy)]
pub struct Claim {
    /// The object, with its opening numbers.
    pub object: Object,
    /// Whether the seat is the owner of the lock.
    pub owns: bool,
    /// Whether the lock has no owner, or the seat is the owner.
    pub admitted: bool,
    /// The exclusive holds of the seat.
    pub own: u128,
    /// Whether the seat reads.
    pub reads: bool,
    /// The read holds of all seats.
    pub readers: u128,
    /// The free permits of a semaphore.
    pub free: i64,
    /// The count of a latch.
    pub count: u32,
}

impl Claim {
    /// Returns whether the seat could acquire `n` in a mode.
    #[inline(always)]
    pub fn could(&self, mode: Mode, n: u32) -> bool
        ensures { (k : Counts) (i : ℕ) → IsClaim k i self.now → result ≡ could k i mode n }
    {
        match (self.object, mode) {
            (Object::Lock(_), Mode::X) => self.admitted && self.own < MAX_HOLDS,
            (Object::ReadWrite(_), Mode::X) => {
                if self.owns {
                    self.own < MAX_READ_WRITE_HOLDS
                } else {
                    self.admitted && self.readers == 0
                }
            }
            (Object::ReadWrite(_), Mode::S) => self.admitted && self.readers < MAX_READ_WRITE_HOLDS,
            (Object::Semaphore(_, _), Mode::S) => self.free >= i64::from(n),
            (Object::Latch(_), Mode::S) => self.count == 0,
            _ => false,
        }
    }

    /// Returns whether the seat has the greatest number of holds.
    #[inline(always)]
    pub fn at_limit(&self, mode: Mode) -> bool
        ensures { (k : Counts) (i : ℕ) → IsClaim k i self.now → result ≡ limit k i mode }
    {
        match (self.object, mode) {
            (Object::Lock(_), Mode::X) => self.own == MAX_HOLDS,
            (Object::ReadWrite(_), Mode::X) => self.own == MAX_READ_WRITE_HOLDS,
            (Object::ReadWrite(_), Mode::S) => self.admitted
                && self.readers == MAX_READ_WRITE_HOLDS,
            _ => false,
        }
    }

    /// Returns whether the queue holds back a new call of the seat. `first` is the mode that the head of the queue
    /// asks for.
    #[inline(always)]
    pub fn holds_back(&self, mode: Mode, first: Option<Mode>) -> bool
        ensures { (k : Counts) (i : ℕ) → IsClaim k i self.now → result ≡ held_back k first i mode }
    {
        !self.is_reentrant(mode) && line_blocks(self.object, mode, first)
    }

    /// Returns whether the queue never holds this call back.
    #[inline(always)]
    fn is_reentrant(&self, mode: Mode) -> bool
        ensures { (k : Counts) (i : ℕ) → IsClaim k i self.now → result ≡ is_reentrant k i mode }
    {
        match self.object {
            Object::Lock(_) => self.owns,
            Object::ReadWrite(_) => self.owns || (matches!(mode, Mode::S) && self.reads),
            Object::Semaphore(_, _) | Object::Latch(_) => false,
        }
    }
}

/// Returns whether the queue holds back a new call that isn't reentrant.
#[inline(always)]
fn line_blocks(object: Object, mode: Mode, first: Option<Mode>) -> bool
    ensures { result ≡ line_blocks object mode first }
{
    let Some(first) = first else {
        return false;
    };
    match object {
        Object::Lock(policy) | Object::Semaphore(policy, _) => policy.is_fair(),
        Object::ReadWrite(policy) => policy.is_fair()
            || (matches!(mode, Mode::S) && matches!(first, Mode::X)),
        Object::Latch(_) => false,
    }
}
