//! The count of a latch.

ghost use Rattle.std.specs.Prelude.{◌≡◌, ℕ};
ghost use Rattle.deciding.specs.Claim.{IsClaim};
ghost use Rattle.history.specs.Counts.{Counts};
ghost use Rattle.history.specs.declared.header.Object.TheVariants.{Latch};

use deciding::claim::Claim;
use frame::hooks::{Gave, Hooks, Line, Taken};
use history::entry::Mode;
use history::fault::Fault;
use history::header::Object;

/// The hooks of a latch. As in CountDownLatch, the state is the count, and the gate is open at 0.
#[derive(Drop)]
pub struct LatchHooks {
    /// The count at the opening.
    opening: u32,
    count: u32,
}

impl LatchHooks {
    ghost use Rattle.counting.specs.Latch.{latch_of, IsOpened, Matches};

    /// Returns the hooks of a latch that was never counted down, for any number of seats.
    pub fn open(count: u32) -> LatchHooks
        ensures object { latch_of result ≡ Latch count }
        ensures opened { (seats : ℕ) → IsOpened result seats }
    {
        LatchHooks {
            opening: count,
            count,
        }
    }

    /// Returns what decides whether a seat could acquire, which is the same for all.
    #[inline(always)]
    fn claim(&self) -> Claim
        ensures { (k : Counts) (who : ℕ) → Matches self.now k → IsClaim k who result }
    {
        Claim {
            object: self.object(),
            owns: false,
            admitted: false,
            own: 0,
            reads: false,
            readers: 0,
            free: 0,
            count: self.count,
        }
    }
}

impl Hooks for LatchHooks {
    ghost use Rattle.counting.specs.Latch.{Matches, latch_of, IsOpened, alike_so, opens_so, same_latch, some_counts};

    ghost agrees = { Matches };

    ghost object_of = { latch_of };

    ghost is_opened = { IsOpened };

    ghost opens = { opens_so };

    ghost same_object = { same_latch };

    ghost alike = { alike_so };

    ghost stands = { some_counts };

    fn could(&self, _who: u16, mode: Mode, n: u32) -> bool {
        self.claim().could(mode, n)
    }

    fn at_limit(&self, _who: u16, mode: Mode) -> bool {
        self.claim().at_limit(mode)
    }

    fn holds_back(&self, _who: u16, mode: Mode, line: Line) -> bool {
        self.claim().holds_back(mode, line.first())
    }

    fn strict(&self) -> bool {
        false
    }

    fn take(&mut self, _who: u16, _mode: Mode, _n: u32) -> Taken {
        Taken::More
    }

    fn give(&mut self, _who: u16, _mode: Mode, _n: u32) -> Result<Gave, Fault> {
        let opens = self.count == 1;
        self.count = self.count.saturating_sub(1);
        Ok(if opens { Gave::Open } else { Gave::Kept })
    }

    fn let_go_all(&mut self, _who: u16) -> Result<u32, Fault> {
        Err(Fault::NotOwner)
    }

    fn restore(&mut self, _who: u16, _holds: u32)
        ensures same { self.new ≡ self.old }
    {
        // No seat of a latch sleeps, so none comes back with holds.
    }

    fn drain(&mut self) -> u32 {
        0
    }

    fn as_opened(&self, _seats: u16) -> bool {
        self.count == self.opening
    }

    fn object(&self) -> Object {
        Object::Latch(self.opening)
    }

    fn level(&self) -> i64 {
        i64::from(self.count)
    }
}
