//! What each call of a front type returns, in one thread. A wait ends as the parking is scripted.
use crate::asks::{DONE, INTERRUPTED, NAMES, NO, NOT_OWNER, Reply, YES};
use crate::plays::{LOCK, TWO, Tale, play_all};
use crate::tales::{A_MINUTE, HEARS, INTERRUPTS, TIMED, WAKES};
use history::entry::Mode;
use history::fault::Fault;
use history::header::{Header, Object, Policy};
use history::step::Step;
use permit::{Call, Woke};

const NO_CONDITION: Reply = Err(Fault::NoSuchCondition);

const HOLDS_READ: Reply = Err(Fault::HoldsRead);

const WRONG: Reply = Err(Fault::WrongMode);

// The seat's own lapse makes it ready, so the look after it ends the await, and it doesn't park again.
const LOCKED: Tale = Tale {
    name: "a lock is reentrant, and a sleep that ends early gives all holds back",
    answers: &[
        Woke::Permit,
        Woke::Deadline,
        Woke::Interrupted,
        Woke::Interrupted,
        Woke::Permit,
        Woke::Deadline,
    ],
    rows: rows![
        0 Lock => DONE, 0 LockInterruptibly => DONE, 0 TryLock => YES, 0 TryLockFor(5) => YES,
        1 Trim => Ok(4), 1 TryLock => NO, 1 TryLockFor(0) => NO, 1 TryLockFor(A_MINUTE) => NO,
        1 LockInterruptibly => INTERRUPTED, 1 Unlock => NOT_OWNER, 1 Signal(0) => NOT_OWNER,
        1 SignalAll(0) => NOT_OWNER, 1 Wait(0) => NOT_OWNER, 1 WaitUninterruptibly(0) => NOT_OWNER,
        1 WaitFor(0, 5) => NOT_OWNER, 0 Signal(0) => DONE, 0 SignalAll(0) => DONE, 0 Unlock => DONE,
        0 Unlock => DONE, 0 Unlock => DONE, 0 Unlock => DONE, 0 Unlock => NOT_OWNER, 1 Lock => DONE,
        1 Lock => DONE, 1 Wait(0) => INTERRUPTED, 1 WaitFor(0, A_MINUTE) => NO, 1 WaitFor(0, 0) => NO,
        1 Wait(1) => NO_CONDITION, 1 WaitUninterruptibly(1) => NO_CONDITION, 1 WaitFor(1, 5) => NO_CONDITION,
        1 Signal(1) => NO_CONDITION, 1 SignalAll(1) => NO_CONDITION, 1 Unlock => DONE, 1 Unlock => DONE,
        1 Unlock => NOT_OWNER, 1 Read => WRONG,
    ],
    calls: 29,
    parked: &[TIMED, TIMED, HEARS, HEARS, TIMED, TIMED],
    ..LOCK
};

const OBSERVED: Tale = Tale {
    name: "who holds, waits and sleeps is observed, and who was told that it could go",
    rows: rows![
        0 Lock => DONE, 0 Lock => DONE, 1 Step(Step::Acquire(Mode::X, 1)) => NO, 1 Step(Step::Look) => NO,
        0 Holds(Mode::X) => Ok(2), 0 Holds(Mode::S) => Ok(0), 1 Holds(Mode::X) => Ok(0), 1 IsHeld => YES,
        1 QueueLength => Ok(1), 1 Waiters(0) => Ok(0), 1 IsTold => NO,
        0 Step(Step::Await(0)) => Ok(NAMES + 1), 0 Waiters(0) => Ok(1), 0 IsHeld => NO, 1 IsTold => YES,
        1 Step(Step::Look) => YES, 1 IsTold => NO, 1 QueueLength => Ok(0), 1 Signal(0) => DONE,
        1 QueueLength => Ok(1), 1 Available => Ok(0), 1 Count => Ok(0),
    ],
    calls: 4,
    parked: &[WAKES],
    ..LOCK
};

const READ_WRITE: Tale = Tale {
    header: Header {
        object: Object::ReadWrite(Policy::NonFair),
        ..TWO
    },
    ..LOCK
};

const WRITTEN: Tale = Tale {
    name: "a writer goes on as a reader, without a gap, and then shares the lock",
    answers: &[Woke::Deadline, Woke::Interrupted],
    rows: rows![
        0 Lock => DONE, 0 LockInterruptibly => DONE, 0 TryLock => YES, 0 TryLockFor(5) => YES,
        0 Signal(0) => DONE, 0 SignalAll(0) => DONE, 0 Read => DONE, 0 Wait(0) => HOLDS_READ,
        0 WaitUninterruptibly(0) => HOLDS_READ, 0 WaitFor(0, 5) => HOLDS_READ, 0 Unlock => DONE,
        0 Unlock => DONE, 0 Unlock => DONE, 1 TryRead => NO, 1 TryReadFor(A_MINUTE) => NO,
        1 ReadInterruptibly => INTERRUPTED, 1 EndRead => NOT_OWNER, 1 Unlock => NOT_OWNER,
        0 Unlock => DONE, 1 TryRead => YES, 1 TryReadFor(5) => YES, 1 ReadInterruptibly => DONE,
        1 TryLock => NO, 0 TryLock => NO, 0 EndRead => DONE, 0 EndRead => NOT_OWNER,
        0 Acquire(1) => WRONG,
    ],
    calls: 26,
    parked: &[TIMED, HEARS],
    ..READ_WRITE
};

const THREE: Header = Header {
    object: Object::Semaphore(Policy::NonFair, 3),
    conditions: 0,
    ..TWO
};

const PERMITS: Tale = Tale {
    name: "a semaphore holds back who asks for more than is free",
    header: THREE,
    answers: &[Woke::Permit, Woke::Deadline, Woke::Interrupted],
    rows: rows![
        0 Acquire(1) => DONE, 0 AcquireUninterruptibly(1) => DONE, 0 Available => Ok(1),
        0 Holds(Mode::S) => Ok(2), 0 TryAcquire(1) => YES, 1 TryAcquire(1) => NO,
        1 TryAcquireFor(1, 0) => NO, 1 TryAcquireFor(1, A_MINUTE) => NO, 1 Acquire(1) => INTERRUPTED,
        0 Release(2) => DONE, 1 TryAcquireFor(3, 0) => NO, 1 DrainPermits => Ok(2),
        1 DrainPermits => Ok(0), 1 Release(5) => DONE, 0 TryAcquireFor(5, 5) => YES, 0 Lock => WRONG,
    ],
    calls: 13,
    parked: &[TIMED, TIMED, HEARS],
    ..LOCK
};

/// An interrupt makes the call fail also at 0.
const COUNTED: Tale = Tale {
    name: "a latch is open from zero on, and a count down then changes nothing",
    header: Header {
        object: Object::Latch(2),
        ..THREE
    },
    answers: &[Woke::Deadline, Woke::Interrupted],
    rows: rows![
        1 AwaitZeroFor(0) => NO, 1 AwaitZeroFor(A_MINUTE) => NO, 1 AwaitZero => INTERRUPTED,
        0 CountDown => DONE, 0 Count => Ok(1), 1 AwaitZeroFor(0) => NO, 1 CountDown => DONE,
        1 AwaitZero => DONE, 1 CountDown => DONE, 0 Count => Ok(0), 0 AwaitZeroFor(0) => YES,
        1 Interrupt => DONE, 1 AwaitZero => INTERRUPTED, 1 AwaitZeroFor(5) => YES, 0 Lock => WRONG,
    ],
    calls: 11,
    parked: &[TIMED, HEARS, INTERRUPTS],
    ..LOCK
};

/// A tale of each object.
pub static OF_EACH: [Tale; 4] = [LOCKED, WRITTEN, PERMITS, COUNTED];

#[test]
fn each_call_of_each_front_type_and_each_observer_answers(rt: HostRuntime) {
    play_all(&rt, &OF_EACH);
    play_all(&rt, &[OBSERVED]);
}
