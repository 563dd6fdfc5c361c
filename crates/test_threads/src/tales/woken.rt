//! A waiter in a thread of its own: where it parks, and who unparks it.
//!
//! The parking ends the waiter's parks after the other seats have acted, whether or not they unparked it. So
//! the list of calls shows, for each entry that names a seat, that exactly this seat was unparked.
use crate::asks::{DONE, INTERRUPTED, NO, YES};
use crate::plays::{LOCK, TWO, Tale, play_all};
use crate::tales::{A_MINUTE, HEARS, INTERRUPTS, PLAIN, TIMED, WAKES};
use history::entry::Mode;
use history::header::{Header, Object, Policy};
use history::step::Step;
use permit::{Call, Woke};

const SIGNALLED: Tale = Tale {
    name: "who sleeps parks once, and is unparked by the unlock behind its signal",
    waiter: rows![
        1 Lock => DONE, 1 Wait(0) => DONE, 1 WaitUninterruptibly(0) => DONE, 1 WaitFor(0, A_MINUTE) => YES,
        1 Unlock => DONE,
    ],
    others: rows![
        0 Lock => DONE, 0 Signal(0) => DONE, 0 Unlock => DONE, 0 NextPark => YES, 0 Lock => DONE,
        0 SignalAll(0) => DONE, 0 Unlock => DONE, 0 NextPark => YES, 0 Lock => DONE, 0 Signal(0) => DONE,
        0 Unlock => DONE,
    ],
    calls: 14,
    parked: &[HEARS, WAKES, PLAIN, WAKES, TIMED, WAKES],
    ..LOCK
};

const LAPSED: Tale = Tale {
    name: "who lapses waits for the lock without a time, and leaves an interrupt that comes then",
    answers: &[Woke::Deadline],
    waiter: rows![1 Lock => DONE, 1 WaitFor(0, A_MINUTE) => NO, 1 TryLockFor(0) => INTERRUPTED],
    others: rows![0 InterruptSecond => DONE, 0 Lock => DONE, 0 NextPark => YES, 0 Unlock => DONE],
    calls: 5,
    parked: &[TIMED, INTERRUPTS, PLAIN, WAKES],
    ..LOCK
};

const AWAITED: Tale = Tale {
    name: "who begins to sleep unparks the first in line",
    rows: rows![1 Lock => DONE, 0 Step(Step::Acquire(Mode::X, 1)) => NO],
    waiter: rows![1 Wait(0) => DONE, 1 Unlock => DONE],
    others: rows![0 Step(Step::Look) => YES, 0 Signal(0) => DONE, 0 Unlock => DONE],
    calls: 6,
    parked: &[Call::Unpark { seat: 0 }, HEARS, WAKES],
    ..LOCK
};

const READ_WRITE: Header = Header {
    object: Object::ReadWrite(Policy::Fair),
    ..TWO
};

const WRITER_SLEEPS: Tale = Tale {
    header: READ_WRITE,
    ..SIGNALLED
};

const GRANT_NAMES: Tale = Tale {
    name: "a reader that is granted the lock unparks the next reader",
    header: Header {
        seats: 3,
        ..READ_WRITE
    },
    rows: rows![0 Lock => DONE],
    waiter: rows![2 Read => DONE, 2 EndRead => DONE],
    others: rows![1 Step(Step::Acquire(Mode::S, 1)) => NO, 0 Unlock => DONE],
    calls: 4,
    parked: &[
        Call::Park {
            seat: 2,
            until: None,
            interruptible: false,
        },
        Call::Unpark { seat: 2 },
        WAKES,
    ],
    ..LOCK
};

const LEAVE_NAMES: Tale = Tale {
    name: "a writer that leaves at its deadline unparks the reader behind it",
    answers: &[Woke::Deadline],
    rows: rows![0 Read => DONE],
    waiter: rows![2 TryLockFor(A_MINUTE) => NO],
    others: rows![1 Step(Step::Acquire(Mode::S, 1)) => NO],
    calls: 2,
    parked: &[
        Call::Park {
            seat: 2,
            until: Some(60_000),
            interruptible: true,
        },
        WAKES,
    ],
    ..GRANT_NAMES
};

static WOKEN: [Tale; 6] = [
    SIGNALLED,
    LAPSED,
    AWAITED,
    WRITER_SLEEPS,
    GRANT_NAMES,
    LEAVE_NAMES,
];

#[test]
fn who_waits_parks_once_and_whom_an_entry_names_is_unparked_alone(rt: HostRuntime) {
    play_all(&rt, &WOKEN);
}
