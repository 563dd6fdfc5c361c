//! The hooks of any object: one enum over the hooks of each kind.

ghost use Rattle.std.specs.Prelude.{◌≡◌, IfOk, OnErr, Err};
ghost use Rattle.any_object.specs.AnyObject.{object_of, IsOpened, IsReadWrite};

use counting::latch::LatchHooks;
use counting::semaphore::SemaphoreHooks;
use frame::hooks::{Gave, Hooks, Line, Taken};
use history::entry::Mode;
use history::fault::Fault;
use history::header::{Header, Object};
use read_write::hooks::RwHooks;
use reentrant::lock::LockHooks;
use std::alloc::Global;

/// The hooks of a lock, a read-write lock, a semaphore or a latch.
#[derive(Drop)]
pub enum AnyHooks {
    Lock(LockHooks),
    ReadWrite(RwHooks),
    Semaphore(SemaphoreHooks),
    Latch(LatchHooks),
}

impl AnyHooks {
    /// Returns the hooks of a header's object, as opened for its seats.
    ///
    /// # Errors
    ///
    /// [`Fault::OutOfMemory`] if the table of a read-write lock's seats can't be allocated. The hooks of the
    /// other objects allocate nothing.
    pub fn open(alloc: Global, header: &Header) -> Result<AnyHooks, Fault>
        ensures object { IfOk result (λ hooks. object_of hooks ≡ header.now.object) }
        ensures opened { IfOk result (λ hooks. IsOpened hooks header.now.seats) }
        ensures fault { OnErr result (result ≡ Err Fault.OutOfMemory) }
        ensures sure { OnErr result (IsReadWrite header.now.object) }
    {
        match header.object {
            Object::Lock(policy) => Ok(AnyHooks::Lock(LockHooks::open(policy))),
            Object::ReadWrite(policy) => {
                Ok(AnyHooks::ReadWrite(RwHooks::open(alloc, policy, header.seats)?))
            }
            Object::Semaphore(policy, permits) => {
                Ok(AnyHooks::Semaphore(SemaphoreHooks::open(policy, permits)))
            }
            Object::Latch(count) => Ok(AnyHooks::Latch(LatchHooks::open(count))),
        }
    }
}

impl Hooks for AnyHooks {
    ghost use Rattle.any_object.specs.AnyObject.{Matches, object_of, IsOpened, alike_so, opens_so, same_object, some_counts};

    ghost agrees = { Matches };

    ghost object_of = { object_of };

    ghost is_opened = { IsOpened };

    ghost opens = { opens_so };

    ghost same_object = { same_object };

    ghost alike = { alike_so };

    ghost stands = { some_counts };

    #[inline(always)]
    fn could(&self, who: u16, mode: Mode, n: u32) -> bool {
        match self {
            AnyHooks::Lock(hooks) => hooks.could(who, mode, n),
            AnyHooks::ReadWrite(hooks) => hooks.could(who, mode, n),
            AnyHooks::Semaphore(hooks) => hooks.could(who, mode, n),
            AnyHooks::Latch(hooks) => hooks.could(who, mode, n),
        }
    }

    #[inline(always)]
    fn at_limit(&self, who: u16, mode: Mode) -> bool {
        match self {
            AnyHooks::Lock(hooks) => hooks.at_limit(who, mode),
            AnyHooks::ReadWrite(hooks) => hooks.at_limit(who, mode),
            AnyHooks::Semaphore(hooks) => hooks.at_limit(who, mode),
            AnyHooks::Latch(hooks) => hooks.at_limit(who, mode),
        }
    }

    fn holds_back(&self, who: u16, mode: Mode, line: Line) -> bool {
        match self {
            AnyHooks::Lock(hooks) => hooks.holds_back(who, mode, line),
            AnyHooks::ReadWrite(hooks) => hooks.holds_back(who, mode, line),
            AnyHooks::Semaphore(hooks) => hooks.holds_back(who, mode, line),
            AnyHooks::Latch(hooks) => hooks.holds_back(who, mode, line),
        }
    }

    fn strict(&self) -> bool {
        match self {
            AnyHooks::Lock(hooks) => hooks.strict(),
            AnyHooks::ReadWrite(hooks) => hooks.strict(),
            AnyHooks::Semaphore(hooks) => hooks.strict(),
            AnyHooks::Latch(hooks) => hooks.strict(),
        }
    }

    #[inline(always)]
    fn take(&mut self, who: u16, mode: Mode, n: u32) -> Taken {
        match self {
            AnyHooks::Lock(hooks) => hooks.take(who, mode, n),
            AnyHooks::ReadWrite(hooks) => hooks.take(who, mode, n),
            AnyHooks::Semaphore(hooks) => hooks.take(who, mode, n),
            AnyHooks::Latch(hooks) => hooks.take(who, mode, n),
        }
    }

    #[inline(always)]
    fn give(&mut self, who: u16, mode: Mode, n: u32) -> Result<Gave, Fault> {
        match self {
            AnyHooks::Lock(hooks) => hooks.give(who, mode, n),
            AnyHooks::ReadWrite(hooks) => hooks.give(who, mode, n),
            AnyHooks::Semaphore(hooks) => hooks.give(who, mode, n),
            AnyHooks::Latch(hooks) => hooks.give(who, mode, n),
        }
    }

    fn let_go_all(&mut self, who: u16) -> Result<u32, Fault> {
        match self {
            AnyHooks::Lock(hooks) => hooks.let_go_all(who),
            AnyHooks::ReadWrite(hooks) => hooks.let_go_all(who),
            AnyHooks::Semaphore(hooks) => hooks.let_go_all(who),
            AnyHooks::Latch(hooks) => hooks.let_go_all(who),
        }
    }

    fn restore(&mut self, who: u16, holds: u32) {
        match self {
            AnyHooks::Lock(hooks) => hooks.restore(who, holds),
            AnyHooks::ReadWrite(hooks) => hooks.restore(who, holds),
            // No seat of these waits on a condition, so none comes back with holds.
            AnyHooks::Semaphore(hooks) => hooks.restore(who, holds),
            AnyHooks::Latch(hooks) => hooks.restore(who, holds),
        }
    }

    fn drain(&mut self) -> u32 {
        match self {
            AnyHooks::Lock(hooks) => hooks.drain(),
            AnyHooks::ReadWrite(hooks) => hooks.drain(),
            AnyHooks::Semaphore(hooks) => hooks.drain(),
            AnyHooks::Latch(hooks) => hooks.drain(),
        }
    }

    fn as_opened(&self, seats: u16) -> bool {
        match self {
            AnyHooks::Lock(hooks) => hooks.as_opened(seats),
            AnyHooks::ReadWrite(hooks) => hooks.as_opened(seats),
            AnyHooks::Semaphore(hooks) => hooks.as_opened(seats),
            AnyHooks::Latch(hooks) => hooks.as_opened(seats),
        }
    }

    fn object(&self) -> Object {
        match self {
            AnyHooks::Lock(hooks) => hooks.object(),
            AnyHooks::ReadWrite(hooks) => hooks.object(),
            AnyHooks::Semaphore(hooks) => hooks.object(),
            AnyHooks::Latch(hooks) => hooks.object(),
        }
    }

    fn level(&self) -> i64 {
        match self {
            AnyHooks::Lock(hooks) => hooks.level(),
            AnyHooks::ReadWrite(hooks) => hooks.level(),
            AnyHooks::Semaphore(hooks) => hooks.level(),
            AnyHooks::Latch(hooks) => hooks.level(),
        }
    }
}
