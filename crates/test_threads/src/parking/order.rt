//! Parks, unparks and interrupts as data, and which result takes precedence.
ghost use Rattle.std.specs.Prelude.{◌≡◌, ◌≤◌, ◌<◌};

use crate::parking::lone_token;
use permit::{Call, Parking, ScriptedParking, ThreadParking, Woke};
use std::alloc::AllocGlobal;
use std::io;
use std::process::Abort;
use std::sync::Wait;
use std::sync::atomic::{AtomicU64, Ordering};
use std::thread::join;
use std::time::{Clock, Duration};
use word_lock::Token;

/// What is done at a seat.
#[derive(Clone, Copy)]
enum Deed {
    Unpark(u8),
    Interrupt(u8),
    /// The seat's flag is read and cleared.
    Take(u8),
    /// A park for this number of milliseconds, or without a timeout, that is interruptible or not.
    Park(u8, Option<u64>, bool),
}

/// What is done, and its result.
type Row = (Deed, u8);

/// Rows, each written `Deed => result`.
macro_rules! deeds {
    ($($deed:ident($($of:expr),*) => $told:expr),* $(,)?) => {
        [$((Deed::$deed($($of),*), $told)),*]
    };
}

/// The results. An unpark and an interrupt have none.
const NONE: u8 = 0;

const NOT_SET: u8 = 1;

const WAS_SET: u8 = 2;

const PERMIT: u8 = 3;

const DEADLINE: u8 = 4;

const INTERRUPTED: u8 = 5;

fn park<P: Parking, R: Wait + Clock>(
    rt: &R,
    parking: &P,
    seat: u16,
    time: Option<u64>,
    interruptible: bool,
) -> u8
    requires { seat < P.seats parking.now }
{
    let until = match time {
        Some(time) => Some(parking.now(rt).saturating_add(time)),
        None => None,
    };
    match parking.park(rt, seat, until, interruptible) {
        Woke::Permit => PERMIT,
        Woke::Deadline => DEADLINE,
        Woke::Interrupted => INTERRUPTED,
    }
}

fn answer<P: Parking, R: Wait + Clock>(rt: &R, parking: &P, token: &Token, deed: Deed) -> u8
    requires { 256 ≤ P.seats parking.now }
{
    match deed {
        Deed::Unpark(seat) => {
            parking.unpark(u16::from(seat), token);
            NONE
        }
        Deed::Interrupt(seat) => {
            parking.interrupt(u16::from(seat));
            NONE
        }
        Deed::Take(seat) => {
            if parking.take_interrupt(u16::from(seat)) {
                WAS_SET
            } else {
                NOT_SET
            }
        }
        Deed::Park(seat, time, interruptible) => {
            park(rt, parking, u16::from(seat), time, interruptible)
        }
    }
}

fn answer_all<P: Parking, R: Abort + Wait + Clock + AllocGlobal>(rt: &R, parking: &P, rows: &[Row])
    requires { 256 ≤ P.seats parking.now }
{
    let token = lone_token(rt);
    let mut number = 0u32;
    for (deed, told) in rows {
        let answer = answer(rt, parking, &token, *deed);
        assert_eq!(rt; answer, *told, "row {number}");
        number = number.saturating_add(1);
    }
}

/// An interrupt takes precedence over a permit, and a permit over a deadline. A permit doesn't count. Taking
/// a permit leaves an interrupt, and the other way round. Signals of a seat don't affect other seats.
static IN_ORDER: [Row; 31] = deeds![
    Interrupt(0) => NONE, Unpark(0) => NONE, Unpark(0) => NONE, Park(0, None, true) => INTERRUPTED,
    Take(0) => NOT_SET, Park(0, None, false) => PERMIT, Park(0, Some(1), false) => DEADLINE,
    Interrupt(0) => NONE, Park(0, Some(2), false) => DEADLINE, Park(0, Some(0), true) => INTERRUPTED,
    Interrupt(0) => NONE, Take(0) => WAS_SET, Take(0) => NOT_SET, Unpark(0) => NONE,
    Park(0, Some(0), true) => PERMIT, Park(0, Some(0), true) => DEADLINE,
    Interrupt(1) => NONE, Unpark(1) => NONE, Park(1, None, false) => PERMIT, Take(1) => WAS_SET,
    Interrupt(1) => NONE, Unpark(1) => NONE, Take(1) => WAS_SET, Park(1, Some(0), true) => PERMIT,
    Unpark(254) => NONE,
    Interrupt(254) => NONE, Park(253, Some(0), true) => DEADLINE, Park(255, Some(0), true) => DEADLINE,
    Take(255) => NOT_SET, Park(254, Some(0), true) => INTERRUPTED, Park(254, Some(0), true) => PERMIT,
];

#[test]
fn an_interrupt_comes_before_a_permit_and_a_permit_before_a_deadline(rt: HostRuntime) {
    let parking = ThreadParking::open(&rt, rt.alloc(), 256).expect(&rt, "memory");
    answer_all(&rt, &parking, &IN_ORDER);
    answer_all(&rt, &parking, &IN_ORDER);
}

static AT_ONCE: [Row; 3] = deeds![
    Park(0, Some(60_000), true) => DEADLINE, Unpark(0) => NONE, Park(0, Some(60_000), true) => PERMIT,
];

/// A clock that can't be read, beside a calendar that can.
struct NoClock;

impl Clock for NoClock {
    fn monotonic(&self) -> io::Result<Duration> {
        Err(io::Error::from(io::ErrorKind::Unsupported))
    }

    fn since_1970(&self) -> io::Result<Duration> {
        Ok(Duration::ZERO)
    }
}

#[test]
fn each_deadline_has_come_if_the_clock_cant_be_read(rt: HostRuntime) {
    let parking = ThreadParking::open(&NoClock, rt.alloc(), 256).expect(&rt, "memory");
    assert_eq!(rt; parking.now(&rt), u64::MAX);
    answer_all(&rt, &parking, &AT_ONCE);
    let parking = ThreadParking::open(&rt, rt.alloc(), 256).expect(&rt, "memory");
    assert_eq!(rt; parking.now(&NoClock), u64::MAX);
}

/// A clock at its start. Its calendar is half a minute behind that of `Ticking`.
struct Start;

impl Clock for Start {
    fn monotonic(&self) -> io::Result<Duration> {
        Ok(Duration::ZERO)
    }

    fn since_1970(&self) -> io::Result<Duration> {
        Ok(Duration::from_secs(30))
    }
}

/// A clock that goes on by a number of microseconds with each look. As it shows `at`, seat 0 is unparked.
#[derive(Drop)]
struct Ticking<'a, R: Wait> {
    rt: &'a R,
    parking: &'a ThreadParking,
    token: &'a Token,
    shows: AtomicU64,
    step: u64,
    at: u64,
    ghost has_seat: { 0 < parking.now },
}

impl<'a, R: Wait> Wait for Ticking<'a, R> {}

impl<'a, R: Wait> Clock for Ticking<'a, R> {
    fn monotonic(&self) -> io::Result<Duration> {
        let shown = self.shows.fetch_add(self.step, Ordering::SeqCst);
        if shown == self.at {
            self.parking.unpark(0, self.token);
        }
        Ok(Duration::from_micros(shown))
    }

    fn since_1970(&self) -> io::Result<Duration> {
        Ok(Duration::from_secs(60))
    }
}

/// Parks until a clock, which begins with `from`, shows 5 milliseconds. Returns how that ended, and what it showed last.
fn park_by<R: Abort + Wait + AllocGlobal>(rt: &R, from: u64, step: u64, at: u64) -> (Woke, u64) {
    let parking = ThreadParking::open(&Start, rt.alloc(), 1).expect(rt, "memory");
    let token = lone_token(rt);
    let clock = Ticking {
        rt,
        parking: &parking,
        token: &token,
        shows: AtomicU64::new(from),
        step,
        at,
    };
    let woke = parking.park(&clock, 0, Some(5), false);
    let last = clock.shows.load(Ordering::SeqCst).saturating_sub(step);
    (woke, last)
}

#[test]
fn a_park_ends_by_its_clock_and_takes_a_permit_that_came_by_then(rt: HostRuntime) {
    for (from, step, last) in [(0, 1_000, 5_000), (4_300, 350, 5_000), (4_999, 1, 5_000)] {
        let ended = park_by(&rt, from, step, u64::MAX);
        assert_eq!(rt; ended, (Woke::Deadline, last));
    }
    for (from, step, at) in [(5_000, 1, 5_000), (0, 5_000, 5_000), (4_000, 400, 5_200)] {
        let ended = park_by(&rt, from, step, at);
        assert_eq!(rt; ended, (Woke::Permit, at));
    }
}

/// A result that doesn't fit the call is used up: a deadline without a timeout, or an interrupt for a park
/// that isn't interruptible. When the list is empty each park returns `Permit`.
static SCRIPTED: [Row; 13] = deeds![
    Interrupt(1) => NONE, Interrupt(255) => NONE, Park(3, Some(5), true) => DEADLINE,
    Park(1, Some(5), true) => INTERRUPTED, Take(1) => NOT_SET, Park(3, Some(5), true) => PERMIT,
    Park(255, None, true) => PERMIT, Park(255, Some(1), false) => PERMIT,
    Park(255, Some(1), false) => DEADLINE, Unpark(7) => NONE, Take(255) => WAS_SET,
    Take(255) => NOT_SET, Park(3, Some(5), true) => PERMIT,
];

const ANSWERS: [Woke; 6] = [
    Woke::Deadline,
    Woke::Interrupted,
    Woke::Permit,
    Woke::Deadline,
    Woke::Interrupted,
    Woke::Deadline,
];

/// There are places for four calls.
const RECORDED: [Call; 4] = [
    Call::Interrupt { seat: 1 },
    Call::Interrupt { seat: 255 },
    Call::Park {
        seat: 3,
        until: Some(5),
        interruptible: true,
    },
    Call::Park {
        seat: 1,
        until: Some(5),
        interruptible: true,
    },
];

#[test]
fn a_script_answers_in_order_and_records_the_first_calls(rt: HostRuntime) {
    let answers = Vec::from_slice(rt.alloc(), &ANSWERS).expect(&rt, "memory");
    let parking = ScriptedParking::open(rt.alloc(), answers, 4).expect(&rt, "memory");
    assert_eq!(rt; parking.now(&rt), 0);
    answer_all(&rt, &parking, &SCRIPTED);
    let calls = parking.calls(rt.alloc()).expect(&rt, "memory");
    assert!(rt; calls.as_slice() == RECORDED.as_slice());
}

/// How many calls a thread makes beside another.
const MANY: u32 = 20_000;

fn interrupt_often(parking: &ScriptedParking) {
    for _ in 0..MANY {
        parking.interrupt(0);
    }
}

#[test]
fn each_call_of_two_threads_is_recorded(rt: HostRuntime) {
    let answers = Vec::new(rt.alloc());
    let parking = ScriptedParking::open(rt.alloc(), answers, 2 * MANY).expect(&rt, "memory");
    let ((), ()) = join(
        &rt,
        || { interrupt_often(&parking) },
        || { interrupt_often(&parking) },
    );
    let calls = parking.calls(rt.alloc()).expect(&rt, "memory");
    assert_eq!(rt; calls.len(), 2 * MANY as usize);
}
