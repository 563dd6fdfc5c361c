//! The owner of a lock, and its number of holds.

ghost use Rattle.std.specs.Prelude.{◌≡◌, ℕ, true};
ghost use Rattle.frame.specs.Owners.{holds_of, is_owned};
ghost use Rattle.deciding.specs.Claim.{IsClaim};
ghost use Rattle.history.specs.Could.{is_none_or, is_seat};
ghost use Rattle.history.specs.Counts.{Counts};
ghost use Rattle.history.specs.declared.limits.TheConstants.{MOST_HOLDS};
ghost use Rattle.history.specs.declared.header.Object.TheVariants.{Lock};

use deciding::claim::Claim;
use frame::hooks::{Gave, Hooks, Line, Taken};
use history::entry::Mode;
use history::fault::Fault;
use history::header::{Object, Policy};

/// The hooks of a lock. As in ReentrantLock, the state is the owner and its number of holds.
#[derive(Drop)]
pub struct LockHooks {
    policy: Policy,
    owner: Option<u16>,
    holds: u32,
    // An owner has at least one hold, and without an owner there is none.
    ghost owned: { is_owned MOST_HOLDS owner holds ≡ true },
}

impl LockHooks {
    ghost use Rattle.reentrant.specs.Lock.{lock_of, IsOpened, Matches};

    /// Returns the hooks of a lock that nobody owns, for any number of seats.
    pub fn open(policy: Policy) -> LockHooks
        ensures object { lock_of result ≡ Lock policy }
        ensures opened { (seats : ℕ) → IsOpened result seats }
    {
        LockHooks {
            policy,
            owner: None,
            holds: 0,
        }
    }

    fn owns(&self, who: u16) -> bool
        ensures { result ≡ is_seat self.now.owner who }
    {
        match self.owner {
            None => false,
            Some(owner) => owner == who,
        }
    }

    fn admits(&self, who: u16) -> bool
        ensures { result ≡ is_none_or self.now.owner who }
    {
        match self.owner {
            None => true,
            Some(owner) => owner == who,
        }
    }

    fn holds_of(&self, who: u16) -> u32
        ensures { result ≡ holds_of self.now.owner self.now.holds who }
    {
        if self.owns(who) { self.holds } else { 0 }
    }

    /// Returns what decides whether the seat could acquire.
    #[inline(always)]
    fn claim(&self, who: u16) -> Claim
        ensures { (k : Counts) → Matches self.now k → IsClaim k who result }
    {
        Claim {
            object: self.object(),
            owns: self.owns(who),
            admitted: self.admits(who),
            own: u128::from(self.holds_of(who)),
            reads: false,
            readers: 0,
            free: 0,
            count: 0,
        }
    }
}

impl Hooks for LockHooks {
    ghost use Rattle.reentrant.specs.Laws.{alike_so, opens_so, same_policy, some_counts};
    ghost use Rattle.reentrant.specs.Lock.{Matches, lock_of, IsOpened};

    ghost agrees = { Matches };

    ghost object_of = { lock_of };

    ghost is_opened = { IsOpened };

    ghost opens = { opens_so };

    ghost same_object = { same_policy };

    ghost alike = { alike_so };

    ghost stands = { some_counts };

    fn could(&self, who: u16, mode: Mode, n: u32) -> bool {
        self.claim(who).could(mode, n)
    }

    fn at_limit(&self, who: u16, mode: Mode) -> bool {
        self.claim(who).at_limit(mode)
    }

    fn holds_back(&self, who: u16, mode: Mode, line: Line) -> bool {
        self.claim(who).holds_back(mode, line.first())
    }

    fn strict(&self) -> bool {
        self.policy.is_strict()
    }

    fn take(&mut self, who: u16, _mode: Mode, _n: u32) -> Taken {
        self.owner = Some(who);
        self.holds += 1;
        Taken::Last
    }

    fn give(&mut self, who: u16, mode: Mode, _n: u32) -> Result<Gave, Fault> {
        match mode {
            Mode::X if self.owns(who) => {}
            Mode::X | Mode::S => return Err(Fault::NotOwner),
        }
        self.holds -= 1;
        if self.holds > 0 {
            return Ok(Gave::Kept);
        }
        self.owner = None;
        Ok(Gave::Open)
    }

    fn let_go_all(&mut self, who: u16) -> Result<u32, Fault> {
        if !self.owns(who) {
            return Err(Fault::NotOwner);
        }
        let holds = self.holds;
        self.owner = None;
        self.holds = 0;
        Ok(holds)
    }

    fn restore(&mut self, who: u16, holds: u32) {
        self.owner = Some(who);
        self.holds = holds;
    }

    fn drain(&mut self) -> u32 {
        0
    }

    fn as_opened(&self, _seats: u16) -> bool {
        self.owner.is_none()
    }

    fn object(&self) -> Object {
        Object::Lock(self.policy)
    }

    fn level(&self) -> i64 {
        0
    }
}
