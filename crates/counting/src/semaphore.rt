//! The free permits of a semaphore.

ghost use Rattle.std.specs.Prelude.{◌≡◌, ℕ};
ghost use Rattle.deciding.specs.Claim.{IsClaim};
ghost use Rattle.history.specs.Counts.{Counts};
ghost use Rattle.history.specs.declared.header.Object.TheVariants.{Semaphore};

use deciding::claim::Claim;
use frame::hooks::{Gave, Hooks, Line, Taken};
use history::entry::Mode;
use history::fault::Fault;
use history::header::{Object, Policy};
use history::limits::MOST_PERMITS;

/// The hooks of a semaphore. As in Java's Semaphore, the state is the number of free permits, which may be
/// negative at the opening. Who holds permits isn't kept.
#[derive(Drop)]
pub struct SemaphoreHooks {
    policy: Policy,
    /// The number at the opening.
    permits: i32,
    free: i32,
}

impl SemaphoreHooks {
    ghost use Rattle.counting.specs.Semaphore.{semaphore_of, IsOpened, Matches};

    /// Returns the hooks of a semaphore with all its permits free, for any number of seats.
    pub fn open(policy: Policy, permits: i32) -> SemaphoreHooks
        ensures object { semaphore_of result ≡ Semaphore policy permits }
        ensures opened { (seats : ℕ) → IsOpened result seats }
    {
        SemaphoreHooks {
            policy,
            permits,
            free: permits,
        }
    }

    /// Returns what decides whether a seat could acquire, which is the same for all.
    #[inline(always)]
    fn claim(&self) -> Claim
        ensures { (k : Counts) (who : ℕ) → Matches self.now k → IsClaim k who result }
    {
        Claim {
            object: self.object(),
            owns: false,
            admitted: false,
            own: 0,
            reads: false,
            readers: 0,
            free: i64::from(self.free),
            count: 0,
        }
    }
}

impl Hooks for SemaphoreHooks {
    ghost use Rattle.counting.specs.Semaphore.{Matches, semaphore_of, IsOpened, alike_so, opens_so, same_semaphore, some_counts};

    ghost agrees = { Matches };

    ghost object_of = { semaphore_of };

    ghost is_opened = { IsOpened };

    ghost opens = { opens_so };

    ghost same_object = { same_semaphore };

    ghost alike = { alike_so };

    ghost stands = { some_counts };

    fn could(&self, _who: u16, mode: Mode, n: u32) -> bool {
        self.claim().could(mode, n)
    }

    fn at_limit(&self, _who: u16, mode: Mode) -> bool {
        self.claim().at_limit(mode)
    }

    fn holds_back(&self, _who: u16, mode: Mode, line: Line) -> bool {
        self.claim().holds_back(mode, line.first())
    }

    fn strict(&self) -> bool {
        self.policy.is_strict()
    }

    // Never Last: a request for 0 could be granted even if no permit is free.
    fn take(&mut self, _who: u16, _mode: Mode, n: u32) -> Taken {
        let free = i64::from(self.free) - i64::from(n);
        self.free = free as i32;
        Taken::More
    }

    fn give(&mut self, _who: u16, _mode: Mode, n: u32) -> Result<Gave, Fault> {
        let free = i64::from(self.free) + i64::from(n);
        if free > MOST_PERMITS {
            return Err(Fault::TooManyPermits);
        }
        self.free = free as i32;
        Ok(Gave::Open)
    }

    fn let_go_all(&mut self, _who: u16) -> Result<u32, Fault> {
        Err(Fault::NotOwner)
    }

    fn restore(&mut self, _who: u16, _holds: u32)
        ensures same { self.new ≡ self.old }
    {
        // No seat of a semaphore sleeps, so none comes back with holds.
    }

    fn drain(&mut self) -> u32 {
        if self.free < 0 {
            return 0;
        }
        let free = self.free as u32;
        self.free = 0;
        free
    }

    fn as_opened(&self, _seats: u16) -> bool {
        self.free == self.permits
    }

    fn object(&self) -> Object {
        Object::Semaphore(self.policy, self.permits)
    }

    fn level(&self) -> i64 {
        i64::from(self.free)
    }
}
