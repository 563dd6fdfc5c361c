//! The writer and the readers of a read-write lock.

ghost use Rattle.std.specs.Prelude.{◌≡◌, ◌==◌, ◌||◌, length, slice_index, true, IfOk, OnErr, Err};
ghost use Rattle.frame.specs.Owners.{is_owned, is_owner_in};
ghost use Rattle.deciding.specs.Claim.{IsClaim};
ghost use Rattle.history.specs.Could.{is_none_or, is_seat};
ghost use Rattle.history.specs.declared.limits.TheConstants.{MOST_READ_WRITE_HOLDS};
ghost use Rattle.history.specs.Counts.{Counts, total};
ghost use Rattle.history.specs.declared.header.Object.TheVariants.{ReadWrite};

use deciding::claim::Claim;
use frame::hooks::{Gave, Hooks, Line, Taken};
use history::entry::Mode;
use history::fault::Fault;
use history::header::{Object, Policy};
use history::limits::MOST_READ_WRITE_HOLDS;
use std::alloc::Global;

/// The greatest number of write holds, and of read holds of all seats together.
const MAX_READ_WRITE_HOLDS: u16 = MOST_READ_WRITE_HOLDS as u16;

/// The hooks of a read-write lock. As in ReentrantReadWriteLock, the state is the owner's write holds, each
/// seat's read holds, and the sum of all read holds. An owner may read too, and so downgrade from writing to
/// reading.
#[derive(Drop)]
pub struct RwHooks {
    policy: Policy,
    owner: Option<u16>,
    writes: u16,
    /// The read holds of each seat.
    reads: Vec<u16>,
    /// Their sum, so that the seats needn't be searched.
    readers: u16,
    ghost owned: { is_owned MOST_READ_WRITE_HOLDS owner writes ≡ true },
    ghost seated: { is_owner_in (length reads.items) owner ≡ true },
    ghost summed: { readers ≡ total (length reads.items) (slice_index reads.items) },
}

impl RwHooks {
    ghost use Rattle.read_write.specs.State.{rw_of, state_of, holds_by, IsOpened};

    /// Returns the hooks of a lock that nobody writes or reads, for `seats` seats.
    ///
    /// # Errors
    ///
    /// [`Fault::OutOfMemory`] if the table of the seats can't be allocated.
    pub fn open(alloc: Global, policy: Policy, seats: u16) -> Result<RwHooks, Fault>
        ensures object { IfOk result (λ hooks. rw_of hooks ≡ ReadWrite policy) }
        ensures opened { IfOk result (λ hooks. IsOpened hooks seats) }
        ensures fault { OnErr result (result ≡ Err Fault.OutOfMemory) }
    {
        match vec![in alloc; 0; usize::from(seats)] {
            Err(_) => Err(Fault::OutOfMemory),
            Ok(reads) => Ok(RwHooks {
                policy,
                owner: None,
                writes: 0,
                reads,
                readers: 0,
            }),
        }
    }

    fn owns(&self, who: u16) -> bool
        ensures { result ≡ is_seat self.now.owner who }
    {
        matches!(self.owner, Some(owner) if owner == who)
    }

    fn admits(&self, who: u16) -> bool
        ensures { result ≡ is_none_or self.now.owner who }
    {
        !matches!(self.owner, Some(owner) if owner != who)
    }

    fn holds(&self, who: u16, mode: Mode) -> u16
        ensures { result ≡ holds_by (state_of self.now) who mode }
    {
        match mode {
            Mode::X => { if self.owns(who) { self.writes } else { 0 } }
            Mode::S => self.reads.get(usize::from(who)).copied().unwrap_or(0),
        }
    }
}

impl RwHooks {
    ghost use Rattle.read_write.specs.State.{Matches};

    /// Returns what decides whether the seat could acquire.
    #[inline(always)]
    fn claim(&self, who: u16) -> Claim
        ensures { (k : Counts) → Matches self.now k → IsClaim k who result }
    {
        Claim {
            object: self.object(),
            owns: self.owns(who),
            admitted: self.admits(who),
            own: u128::from(self.holds(who, Mode::X)),
            reads: self.holds(who, Mode::S) > 0,
            readers: u128::from(self.readers),
            free: 0,
            count: 0,
        }
    }

    /// Returns whether no other seat could read now: no read hold is left, or the reader writes too.
    fn is_last_read(&self, who: u16) -> bool
        ensures { result ≡ ((self.now.readers == MOST_READ_WRITE_HOLDS) || is_seat self.now.owner who) }
    {
        self.readers == MAX_READ_WRITE_HOLDS || self.owns(who)
    }

    /// Returns whether the release of a read hold lets another seat write, or read again.
    fn opens_by_read(&self) -> bool
        ensures { result ≡ ((self.now.readers == 1) || (self.now.readers == MOST_READ_WRITE_HOLDS)) }
    {
        self.readers == 1 || self.readers == MAX_READ_WRITE_HOLDS
    }
}

impl Hooks for RwHooks {
    ghost use Rattle.read_write.specs.Laws.{alike_so, opens_so, same_policy, some_counts};
    ghost use Rattle.read_write.specs.State.{Matches, rw_of, IsOpened};

    ghost agrees = { Matches };

    ghost object_of = { rw_of };

    ghost is_opened = { IsOpened };

    ghost opens = { opens_so };

    ghost same_object = { same_policy };

    ghost alike = { alike_so };

    ghost stands = { some_counts };

    fn could(&self, who: u16, mode: Mode, n: u32) -> bool {
        self.claim(who).could(mode, n)
    }

    fn at_limit(&self, who: u16, mode: Mode) -> bool {
        self.claim(who).at_limit(mode)
    }

    fn holds_back(&self, who: u16, mode: Mode, line: Line) -> bool {
        self.claim(who).holds_back(mode, line.first())
    }

    fn strict(&self) -> bool {
        self.policy.is_strict()
    }

    fn take(&mut self, who: u16, mode: Mode, _n: u32) -> Taken {
        match mode {
            Mode::X => {
                self.owner = Some(who);
                self.writes += 1;
                Taken::Last
            }
            Mode::S => {
                self.reads[usize::from(who)] += 1;
                self.readers += 1;
                if self.is_last_read(who) {
                    Taken::Last
                } else {
                    Taken::More
                }
            }
        }
    }

    fn give(&mut self, who: u16, mode: Mode, _n: u32) -> Result<Gave, Fault> {
        if self.holds(who, mode) == 0 {
            return Err(Fault::NotOwner);
        }
        match mode {
            Mode::X => {
                self.writes -= 1;
                if self.writes > 0 {
                    return Ok(Gave::Kept);
                }
                self.owner = None;
                Ok(Gave::Open)
            }
            Mode::S => {
                let opens = self.opens_by_read();
                self.reads[usize::from(who)] -= 1;
                self.readers -= 1;
                Ok(if opens { Gave::Open } else { Gave::Kept })
            }
        }
    }

    fn let_go_all(&mut self, who: u16) -> Result<u32, Fault> {
        if !self.owns(who) {
            return Err(Fault::NotOwner);
        }
        if self.holds(who, Mode::S) > 0 {
            return Err(Fault::HoldsRead);
        }
        let writes = self.writes;
        self.owner = None;
        self.writes = 0;
        Ok(u32::from(writes))
    }

    fn restore(&mut self, who: u16, holds: u32) {
        self.owner = Some(who);
        self.writes = holds as u16;
    }

    fn drain(&mut self) -> u32 {
        0
    }

    fn as_opened(&self, seats: u16) -> bool {
        self.owner.is_none() && self.readers == 0 && self.reads.len() == usize::from(seats)
    }

    fn object(&self) -> Object {
        Object::ReadWrite(self.policy)
    }

    fn level(&self) -> i64 {
        0
    }
}
