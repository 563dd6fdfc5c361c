//! Short lists of calls with each entry that they record, and each park, unpark and interrupt.
use crate::asks::{DONE, INTERRUPTED, NO, YES};
use crate::plays::{LOCK, TWO, Tale, play_all};
use crate::tales::{HEARS, INTERRUPTS, WAKES};
use history::header::{Header, Object, Policy};
use history::step::Step;
use permit::{Call, Woke};

const ONE_TIMED: Call = Call::Park {
    seat: 1,
    until: Some(5),
    interruptible: true,
};

const ZERO_TIMED: Call = Call::Park {
    seat: 0,
    until: Some(5),
    interruptible: true,
};

const TIMED_OUT: Tale = Tale {
    name: "permits that come early change nothing, and an await gives both holds back at its deadline",
    answers: &[
        Woke::Permit,
        Woke::Permit,
        Woke::Deadline,
        Woke::Permit,
        Woke::Deadline,
    ],
    rows: rows![0 Lock => DONE, 1 TryLockFor(5) => NO, 0 Lock => DONE, 0 WaitFor(0, 5) => NO],
    calls: 4,
    lines: "\n0 0 got x 1\n1 1 queued x 1\n2 1 left x 1 timeout\n3 0 got x 1\n4 0 await 0 2\n\
        5 0 lapse 0 timeout\n6 0 back 0 2 timeout\nend 7 4\n",
    parked: &[ONE_TIMED, ONE_TIMED, ONE_TIMED, ZERO_TIMED, ZERO_TIMED],
    ..LOCK
};

/// The interrupt that ends the await isn't set again: no call says so.
const INTERRUPTED_ONCE: Tale = Tale {
    name: "an interrupt ends an await and a timed acquire without time, once each",
    answers: &[Woke::Interrupted],
    rows: rows![
        0 Lock => DONE, 0 Lock => DONE, 0 Wait(0) => INTERRUPTED, 1 Interrupt => DONE,
        1 TryLockFor(0) => INTERRUPTED, 1 TryLockFor(0) => NO,
    ],
    calls: 5,
    lines: "\n0 0 got x 1\n1 0 got x 1\n2 0 await 0 2\n3 0 lapse 0 interrupt\n4 0 back 0 2 interrupt\n\
        5 1 refused x 1 Interrupted\n6 1 missed x 1\nend 7 5\n",
    parked: &[
        Call::Park {
            seat: 0,
            until: None,
            interruptible: true,
        },
        INTERRUPTS,
    ],
    ..LOCK
};

const INTERRUPTED_TWICE: Tale = Tale {
    name: "an interrupt that comes while another ends a wait is pending after it",
    answers: &[Woke::Interrupted],
    waiter: rows![1 Lock => DONE, 1 Wait(0) => INTERRUPTED, 1 TryLockFor(0) => INTERRUPTED],
    others: rows![0 InterruptSecond => DONE],
    calls: 3,
    lines: "\n0 1 got x 1\n1 1 await 0 1\n2 1 lapse 0 interrupt\n3 1 back 0 1 interrupt\n\
        4 1 refused x 1 Interrupted\nend 5 3\n",
    parked: &[HEARS, INTERRUPTS],
    ..LOCK
};

const INTERRUPTED_LATE: Tale = Tale {
    name: "an interrupt that comes while an acquire succeeds is pending after it",
    rows: rows![1 InterruptLate => DONE, 1 TryLockFor(5) => YES, 1 TryLockFor(0) => INTERRUPTED],
    calls: 2,
    lines: "\n0 1 got x 1\n1 1 refused x 1 Interrupted\nend 2 2\n",
    parked: &[INTERRUPTS],
    ..LOCK
};

/// They have changed places in the list after they met, so the try is of seat 1.
const MET: Tale = Tale {
    name: "a pass that met the owner's misses",
    rows: rows![0 Lock => DONE, 0 Meet => DONE, 0 TryLock => NO],
    calls: 2,
    lines: "\n0 0 got x 1\n1 1 missed x 1\nend 2 2\n",
    ..LOCK
};

const FOUR: Header = Header {
    object: Object::Lock(Policy::NonFair),
    seats: 4,
    conditions: 0,
    cap: 10_000,
};

const SHORT: Tale = Tale {
    name: "with three of four passes a lock isn't closed, and comes back with them",
    header: FOUR,
    rows: rows![3 DropPass => DONE, 0 Lock => DONE, 0 Unlock => DONE],
    behind: rows![2 TryLock => YES, 0 TryLock => NO],
    ..LOCK
};

const HANDED_OVER: Tale = Tale {
    name: "a non-fair lock unparks its waiter alone, and once, and an interrupt that comes then is pending",
    header: Header {
        seats: 2,
        cap: 64,
        ..FOUR
    },
    rows: rows![0 Lock => DONE],
    waiter: rows![1 LockInterruptibly => DONE, 1 TryLockFor(0) => INTERRUPTED],
    others: rows![0 InterruptSecond => DONE, 0 Unlock => DONE],
    calls: 4,
    lines: "\n1 1 queued x 1\n2 0 gave x 1\n3 1 granted x 1\n4 1 refused x 1 Interrupted\nend 5 4\n",
    parked: &[HEARS, INTERRUPTS, WAKES],
    ..LOCK
};

const ONE: Header = Header {
    seats: 1,
    cap: 16,
    ..TWO
};

const OF_A_LOCK: Tale = Tale {
    name: "a lock of one seat",
    header: ONE,
    rows: rows![0 Lock => DONE, 0 Signal(0) => DONE, 0 SignalAll(0) => DONE, 0 Unlock => DONE],
    calls: 4,
    lines: "\n0 0 got x 1\n1 0 signal 0 0\n2 0 signalall 0 0\n3 0 gave x 1\nend 4 4\n",
    ..LOCK
};

const OF_PERMITS: Tale = Tale {
    name: "a semaphore of one seat",
    header: Header {
        object: Object::Semaphore(Policy::Fair, 1),
        conditions: 0,
        ..ONE
    },
    rows: rows![
        0 TryAcquire(1) => YES, 0 Release(1) => DONE, 0 DrainPermits => Ok(1), 0 Step(Step::Drain) => YES,
    ],
    calls: 4,
    lines: "\n0 0 trygot s 1\n1 0 gave s 1\n2 0 drained s 1\n3 0 drained s 0\nend 4 4\n",
    ..LOCK
};

const OF_A_LATCH: Tale = Tale {
    name: "a latch of one seat",
    header: Header {
        object: Object::Latch(1),
        conditions: 0,
        ..ONE
    },
    rows: rows![0 CountDown => DONE, 0 AwaitZero => DONE],
    calls: 2,
    lines: "\n0 0 counted s 1\n1 0 got s 1\nend 2 2\n",
    ..LOCK
};

static KNOWN: [Tale; 10] = [
    TIMED_OUT,
    INTERRUPTED_ONCE,
    INTERRUPTED_TWICE,
    INTERRUPTED_LATE,
    MET,
    SHORT,
    HANDED_OVER,
    OF_A_LOCK,
    OF_PERMITS,
    OF_A_LATCH,
];

#[test]
fn each_call_records_these_entries_and_parks_so(rt: HostRuntime) {
    play_all(&rt, &KNOWN);
}
