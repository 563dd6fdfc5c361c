//! Calls of the front types and of their monitors as data, and their results.
ghost use Rattle.std.specs.Prelude.{◌<◌};
ghost use Rattle.monitor.specs.Calling.{CanCall};
ghost use Rattle.monitor.specs.Stepping.{IsSame};

use counting::latch::LatchHooks;
use counting::semaphore::SemaphoreHooks;
use frame::hooks::Hooks;
use history::entry::{Mode, Word};
use history::fault::Fault;
use history::step::{Answer, Step};
use monitor::{Monitor, Pass};
use monitor_fronts::{Latch, ReadWriteLock, ReentrantLock, Semaphore};
use permit::Parking;
use read_write::hooks::RwHooks;
use reentrant::lock::LockHooks;
use std::sync::Wait;
use std::time::Clock;

/// A call with the pass of a seat. Conditions are numbers, and times are milliseconds.
#[derive(Clone, Copy)]
pub enum Ask {
    /// The calls of a lock, or of the write lock of a read-write lock.
    Lock,
    LockInterruptibly,
    TryLock,
    TryLockFor(u32),
    Unlock,
    Wait(u8),
    WaitUninterruptibly(u8),
    WaitFor(u8, u32),
    Signal(u8),
    SignalAll(u8),
    /// The calls of the read lock.
    Read,
    ReadInterruptibly,
    TryRead,
    TryReadFor(u32),
    EndRead,
    /// The calls of a semaphore, for this number of permits.
    Acquire(u32),
    AcquireUninterruptibly(u32),
    TryAcquire(u32),
    TryAcquireFor(u32, u32),
    Release(u32),
    DrainPermits,
    /// The calls of a latch.
    AwaitZero,
    AwaitZeroFor(u32),
    CountDown,
    /// A step of the monitor, and an unpark of the seat that it names.
    Step(Step),
    /// The monitor folds its entries.
    Trim,
    /// The observers of the monitor. The first and the third concern the pass's own seat.
    Holds(Mode),
    IsHeld,
    IsTold,
    QueueLength,
    Waiters(u8),
    Available,
    Count,
    /// The seat is interrupted.
    Interrupt,
    /// Seat 1 is interrupted, by whichever seat's pass.
    InterruptSecond,
    /// Seat 1 is interrupted when the clock is read next.
    InterruptLate,
    /// The pass is dropped. It is the last of the list.
    DropPass,
    /// The last two passes of the list meet.
    Meet,
    /// The next park ends, and the park after it is waited for.
    NextPark,
}

/// A result: a number, or a fault.
pub type Reply = Result<u32, Fault>;

pub const NO: Reply = Ok(0);

pub const YES: Reply = Ok(1);

/// The call has no other result.
pub const DONE: Reply = Ok(1);

pub const NOT_OWNER: Reply = Err(Fault::NotOwner);

pub const INTERRUPTED: Reply = Err(Fault::Interrupted);

fn done(answer: Result<(), Fault>) -> Reply {
    match answer {
        Ok(()) => DONE,
        Err(fault) => Err(fault),
    }
}

fn whether(answer: Result<bool, Fault>) -> Reply {
    match answer {
        Ok(answer) => Ok(u32::from(answer)),
        Err(fault) => Err(fault),
    }
}

/// What is added to a seat's number in the result of a step that names the seat.
pub const NAMES: u32 = 1000;

/// Returns whether an entry acquires or releases something. If not, its seat joined the queue, left it or
/// failed.
fn recorded(word: Word) -> Reply {
    match word {
        Word::Refused(fault) => Err(fault),
        Word::Queued => NO,
        Word::Missed => NO,
        Word::Left => NO,
        Word::Lapse => NO,
        _ => YES,
    }
}

fn stepped(answer: Result<Answer, Fault>) -> Reply {
    match answer {
        Ok(Answer::Recorded(entry, None)) => recorded(entry.word),
        Ok(Answer::Recorded(_, Some(seat))) => Ok(NAMES.saturating_add(u32::from(seat))),
        Ok(Answer::Sleep) => NO,
        Err(fault) => Err(fault),
    }
}

/// Hooks whose monitor has a front type.
pub trait Front: Hooks + Drop {
    /// Makes a call of the front type. If the type lacks the call, the result is `WrongMode`.
    fn ask<P: Parking, R: Wait + Clock>(
        rt: &R,
        monitor: &Monitor<Self>,
        parking: &P,
        pass: &mut Pass,
        ask: Ask,
    ) -> Reply
        requires can { CanCall monitor.now (P.seats parking.now) pass.old }
        ensures { IsSame pass.old pass.new };
}

impl Front for LockHooks {
    fn ask<P: Parking, R: Wait + Clock>(
        rt: &R,
        monitor: &Monitor<LockHooks>,
        parking: &P,
        pass: &mut Pass,
        ask: Ask,
    ) -> Reply {
        let lock = ReentrantLock::of(monitor);
        match ask {
            Ask::Lock => done(lock.lock(rt, parking, pass)),
            Ask::LockInterruptibly => done(lock.lock_interruptibly(rt, parking, pass)),
            Ask::TryLock => whether(lock.try_lock(rt, parking, pass)),
            Ask::TryLockFor(ms) => whether(lock.try_lock_for(rt, parking, pass, ms)),
            Ask::Unlock => done(lock.unlock(rt, parking, pass)),
            Ask::Wait(at) => done(lock.wait(rt, parking, pass, at)),
            Ask::WaitUninterruptibly(at) => done(lock.wait_uninterruptibly(rt, parking, pass, at)),
            Ask::WaitFor(at, ms) => whether(lock.wait_for(rt, parking, pass, at, ms)),
            Ask::Signal(at) => done(lock.signal(rt, parking, pass, at)),
            Ask::SignalAll(at) => done(lock.signal_all(rt, parking, pass, at)),
            _ => Err(Fault::WrongMode),
        }
    }
}

fn ask_to_read<P: Parking, R: Wait + Clock>(
    rt: &R,
    monitor: &Monitor<RwHooks>,
    parking: &P,
    pass: &mut Pass,
    ask: Ask,
) -> Reply
    requires can { CanCall monitor.now (P.seats parking.now) pass.old }
    ensures { IsSame pass.old pass.new }
{
    let lock = ReadWriteLock::of(monitor);
    match ask {
        Ask::Read => done(lock.read_lock(rt, parking, pass)),
        Ask::ReadInterruptibly => done(lock.read_lock_interruptibly(rt, parking, pass)),
        Ask::TryRead => whether(lock.read_try_lock(rt, parking, pass)),
        Ask::TryReadFor(ms) => whether(lock.read_try_lock_for(rt, parking, pass, ms)),
        Ask::EndRead => done(lock.read_unlock(rt, parking, pass)),
        _ => Err(Fault::WrongMode),
    }
}

impl Front for RwHooks {
    fn ask<P: Parking, R: Wait + Clock>(
        rt: &R,
        monitor: &Monitor<RwHooks>,
        parking: &P,
        pass: &mut Pass,
        ask: Ask,
    ) -> Reply {
        let lock = ReadWriteLock::of(monitor);
        match ask {
            Ask::Lock => done(lock.write_lock(rt, parking, pass)),
            Ask::LockInterruptibly => done(lock.write_lock_interruptibly(rt, parking, pass)),
            Ask::TryLock => whether(lock.write_try_lock(rt, parking, pass)),
            Ask::TryLockFor(ms) => whether(lock.write_try_lock_for(rt, parking, pass, ms)),
            Ask::Unlock => done(lock.write_unlock(rt, parking, pass)),
            Ask::Wait(at) => done(lock.write_wait(rt, parking, pass, at)),
            Ask::WaitUninterruptibly(at) => {
                done(lock.write_wait_uninterruptibly(rt, parking, pass, at))
            }
            Ask::WaitFor(at, ms) => whether(lock.write_wait_for(rt, parking, pass, at, ms)),
            Ask::Signal(at) => done(lock.write_signal(rt, parking, pass, at)),
            Ask::SignalAll(at) => done(lock.write_signal_all(rt, parking, pass, at)),
            _ => ask_to_read(rt, monitor, parking, pass, ask),
        }
    }
}

impl Front for SemaphoreHooks {
    fn ask<P: Parking, R: Wait + Clock>(
        rt: &R,
        monitor: &Monitor<SemaphoreHooks>,
        parking: &P,
        pass: &mut Pass,
        ask: Ask,
    ) -> Reply {
        let permits = Semaphore::of(monitor);
        match ask {
            Ask::Acquire(n) => done(permits.acquire(rt, parking, pass, n)),
            Ask::AcquireUninterruptibly(n) => {
                done(permits.acquire_uninterruptibly(rt, parking, pass, n))
            }
            Ask::TryAcquire(n) => whether(permits.try_acquire(rt, parking, pass, n)),
            Ask::TryAcquireFor(n, ms) => whether(permits.try_acquire_for(rt, parking, pass, n, ms)),
            Ask::Release(n) => done(permits.release(rt, parking, pass, n)),
            Ask::DrainPermits => permits.drain_permits(rt, parking, pass),
            _ => Err(Fault::WrongMode),
        }
    }
}

impl Front for LatchHooks {
    fn ask<P: Parking, R: Wait + Clock>(
        rt: &R,
        monitor: &Monitor<LatchHooks>,
        parking: &P,
        pass: &mut Pass,
        ask: Ask,
    ) -> Reply {
        let latch = Latch::of(monitor);
        match ask {
            Ask::AwaitZero => done(latch.await_zero(rt, parking, pass)),
            Ask::AwaitZeroFor(ms) => whether(latch.await_zero_for(rt, parking, pass, ms)),
            Ask::CountDown => done(latch.count_down(rt, parking, pass)),
            _ => Err(Fault::WrongMode),
        }
    }
}

/// A number that fits, or the greatest.
fn small(number: u128) -> Reply {
    match u32::try_from(number) {
        Ok(number) => Ok(number),
        Err(_) => Ok(u32::MAX),
    }
}

/// Returns the number, or `WrongMode` if it is negative.
fn not_negative(number: i64) -> Reply {
    match u32::try_from(number) {
        Ok(number) => Ok(number),
        Err(_) => Err(Fault::WrongMode),
    }
}

fn folded(count: Result<u64, Fault>) -> Reply {
    match count {
        Ok(count) => small(u128::from(count)),
        Err(fault) => Err(fault),
    }
}

/// Returns what an observer of the monitor returns, or a call of its front type.
fn observe_or_ask<H: Front, P: Parking, R: Wait + Clock>(
    rt: &R,
    monitor: &Monitor<H>,
    parking: &P,
    pass: &mut Pass,
    ask: Ask,
) -> Reply
    requires can { CanCall monitor.now (P.seats parking.now) pass.old }
    ensures { IsSame pass.old pass.new }
{
    pass.is_true();
    let own = pass.seat();
    match ask {
        Ask::Holds(mode) => small(monitor.holds(rt, pass, own, mode)),
        Ask::IsHeld => Ok(u32::from(monitor.is_held(rt, pass))),
        Ask::IsTold => Ok(u32::from(monitor.is_told(rt, pass, own))),
        Ask::QueueLength => Ok(u32::from(monitor.queue_length(rt, pass))),
        Ask::Waiters(condition) => Ok(u32::from(monitor.waiters(rt, pass, condition))),
        Ask::Available => not_negative(monitor.available(rt, pass)),
        Ask::Count => Ok(monitor.count(rt, pass)),
        _ => H::ask(rt, monitor, parking, pass, ask),
    }
}

/// Makes a call with the pass of a seat.
pub fn perform<H: Front, P: Parking, R: Wait + Clock>(
    rt: &R,
    monitor: &Monitor<H>,
    parking: &P,
    pass: &mut Pass,
    ask: Ask,
) -> Reply
    requires can { CanCall monitor.now (P.seats parking.now) pass.old }
    ensures { IsSame pass.old pass.new }
{
    pass.is_true();
    match ask {
        Ask::Step(step) => {
            let answer = monitor.step(rt, pass, step);
            if let Ok(Answer::Recorded(_, named)) = answer {
                pass.unpark(parking, named);
            }
            stepped(answer)
        }
        Ask::Trim => folded(monitor.trim(rt, pass)),
        Ask::Interrupt => {
            parking.interrupt(pass.seat());
            DONE
        }
        _ => observe_or_ask(rt, monitor, parking, pass, ask),
    }
}
