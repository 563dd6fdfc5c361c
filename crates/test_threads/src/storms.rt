//! Storms: one list of 10,000 steps of four seats at a lock, taken in each way; and steps of each thread's own at
//! each object. After a storm the history is legal, and each of its calls was counted by a pass.
ghost use Rattle.std.specs.Prelude.{◌≡◌, ◌≤◌, All};
ghost use Rattle.monitor.specs.Calling.{CanCall};
ghost use Rattle.monitor.specs.Stepping.{IsSame};

mod each_object;

use crate::asks::Front;
use crate::chance::Chance;
use crate::plays::close_and_audit;
use history::entries::History;
use history::entry::{End, Word};
use history::fault::Fault;
use history::header::{Header, Object, Policy};
use history::step::{Answer, Step};
use monitor::{How, Monitor, Now, Pass};
use monitor_fronts::open_lock;
use permit::{ScriptedParking, Woke};
use reentrant::lock::LockHooks;
use std::process::Abort;
use std::sync::Wait;
use std::sync::atomic::{AtomicU32, AtomicU64, Ordering};
use std::thread;
use std::thread::Threads;
use std::time::{Clock, Duration};

/// How the list is taken.
#[derive(Clone, Copy, PartialEq, Eq)]
enum Way {
    /// One thread makes all steps, by `step_now`.
    Alone,
    /// Four threads do, each those of its seat.
    InTurns,
    /// The same, but the first thread waits while the monitor is busy, so that `step_now` must wake it.
    OneWaits,
    /// One thread makes calls. Each wait ends as its parking is scripted.
    Calls,
}

const LOCK: Header = Header {
    object: Object::Lock(Policy::Fair),
    seats: 4,
    conditions: 1,
    cap: 100_000,
};

const STEPS: u32 = 10_000;

/// At least this number of calls end.
const LEAST: u64 = 1000;

/// How often a thread retries at a busy monitor, or checks for another thread, once a millisecond.
pub const LOOKS: u32 = 10_000;

/// How long a wait takes that a deadline ends, in milliseconds of a clock that stays.
const TIME: u32 = 5;

pub fn rest<R: Clock>(rt: &R) {
    thread::sleep(rt, Duration::from_millis(1));
}

/// Waits until a number is this great, and returns whether it is.
pub fn wait_for<R: Clock>(rt: &R, number: &AtomicU64, least: u64) -> bool {
    for _ in 0..LOOKS {
        if least <= number.load(Ordering::SeqCst) {
            return true;
        }
        rest(rt);
    }
    false
}

/// Steps when the monitor isn't busy.
pub fn step_by_turn<H: Front, R: Abort + Clock>(
    rt: &R,
    monitor: &Monitor<H>,
    pass: &mut Pass,
    step: Step,
) -> Result<Answer, Fault>
    requires { pass.old.lock ≡ monitor.now }
    ensures { IsSame pass.old pass.new }
{
    for _ in 0..LOOKS {
        match monitor.step_now(pass, step) {
            Ok(Now::Done(answer)) => return Ok(answer),
            Ok(Now::Busy) => rest(rt),
            Err(fault) => return Err(fault),
        }
    }
    panic!(rt; "the monitor is always busy")
}

/// The work of a thread after all threads have started, or took too long to.
fn work<R: Abort + Wait + Clock>(
    rt: &R,
    monitor: &Monitor<LockHooks>,
    pass: Pass,
    way: Way,
    started: &AtomicU32,
) -> Pass
    requires { pass.lock ≡ monitor.now }
    ensures { IsSame pass result }
{
    let mut own = pass;
    start_together(rt, started, LOCK.seats);
    let mut list = Chance::of_list();
    for _ in 0..STEPS {
        let (seat, step) = list.listed_step();
        if seat == own.seat() {
            let _answer = if seat == 0 && way == Way::OneWaits {
                monitor.step(rt, &mut own, step)
            } else {
                step_by_turn(rt, monitor, &mut own, step)
            };
        }
    }
    own
}

/// Waits for a while until `threads` threads have started.
pub fn start_together<R: Clock>(rt: &R, started: &AtomicU32, threads: u16) {
    started.fetch_add(1, Ordering::SeqCst);
    for _ in 0..100 {
        if u32::from(threads) <= started.load(Ordering::SeqCst) {
            break;
        }
        rest(rt);
    }
}

/// Makes the call that stands for a step of the list. A wait for the lock or on the condition ends by a
/// deadline or an interrupt, and by an interrupt if it has no deadline.
fn call<R: Wait + Clock>(
    rt: &R,
    monitor: &Monitor<LockHooks>,
    parking: &ScriptedParking,
    pass: &mut Pass,
    step: Step,
) -> bool
    requires { CanCall monitor.now 256 pass.old }
    ensures { IsSame pass.old pass.new }
{
    let reply = match step {
        Step::Acquire(mode, n) => monitor.acquire(rt, parking, pass, mode, n, How::Timed(TIME)),
        Step::Give(mode, n) => monitor.release(rt, parking, pass, mode, n),
        Step::Expire => monitor.await_on(rt, parking, pass, 0, How::Timed(TIME)),
        Step::Interrupt => monitor.await_on(rt, parking, pass, 0, How::Interruptible),
        _ => monitor.signal_all(rt, parking, pass, 0),
    };
    reply.is_ok()
}

/// Makes a step or a call with the pass of a seat, and returns whether there was a reply.
fn take<R: Wait + Clock>(
    rt: &R,
    monitor: &Monitor<LockHooks>,
    parking: &ScriptedParking,
    passes: &mut Vec<Pass>,
    way: Way,
    listed: (u16, Step),
) -> bool
    requires own { All (λ p. p.lock ≡ monitor.now) passes.old.items }
    requires places { monitor.now.header.seats ≤ 256 }
    ensures { All (λ p. p.lock ≡ monitor.now) passes.new.items }
{
    let (seat, step) = listed;
    match passes.get_mut(usize::from(seat)) {
        Some(pass) if way == Way::Calls => call(rt, monitor, parking, pass, step),
        Some(pass) => !matches!(monitor.step_now(pass, step), Ok(Now::Busy)),
        None => false,
    }
}

/// Takes the list in one thread. No step finds the monitor busy, and no call a full history.
fn take_all<R: Abort + AllocGlobal + Wait + Clock>(
    rt: &R,
    monitor: &Monitor<LockHooks>,
    passes: &mut Vec<Pass>,
    way: Way,
)
    requires own { All (λ p. p.lock ≡ monitor.now) passes.old.items }
    requires places { monitor.now.header.seats ≤ 256 }
    ensures { All (λ p. p.lock ≡ monitor.now) passes.new.items }
{
    let ends = [Woke::Deadline, Woke::Interrupted, Woke::Interrupted];
    let ends = ends.repeat(rt.alloc(), STEPS as usize).expect(rt, "memory");
    let parking = ScriptedParking::open(rt.alloc(), ends, 0).expect(rt, "memory");
    let mut list = Chance::of_list();
    for _ in 0..STEPS {
        let is_taken = take(rt, monitor, &parking, passes, way, list.listed_step());
        assert!(rt; is_taken, "no reply");
    }
}

/// How waits end: by a deadline or an interrupt, in the queue or on the condition.
const ENDS: [(Word, End); 4] = [
    (Word::Left, End::Timeout),
    (Word::Left, End::Interrupt),
    (Word::Lapse, End::Timeout),
    (Word::Lapse, End::Interrupt),
];

/// Returns whether a history has an entry of this word and end.
fn has(history: &History, word: Word, end: End) -> bool {
    for number in 0..history.len() {
        match history.get(number) {
            Some(entry) if entry.word == word && entry.end == end => return true,
            _ => {}
        }
    }
    false
}

fn rage<R: Abort + AllocGlobal + Threads + Wait + Clock + Sync>(rt: &R, way: Way) {
    let opened = open_lock(
        rt.alloc(),
        Policy::Fair,
        LOCK.seats,
        LOCK.conditions,
        LOCK.cap,
    );
    let (monitor, mut passes) = opened.expect(rt, "memory");
    if matches!(way, Way::Alone | Way::Calls) {
        take_all(rt, &monitor, &mut passes, way);
    } else {
        let started = AtomicU32::new(0);
        let worked = thread::map_vec(
            rt,
            passes,
            &|pass: Pass| -> Pass
                requires { pass.lock ≡ monitor }
                ensures { result.lock ≡ monitor }
            { work(rt, &monitor, pass, way, &started) },
        );
        passes = worked.expect(rt, "memory");
    }
    let closed = close_and_audit(rt, monitor, &LOCK, passes, "");
    assert!(rt; LEAST <= closed.share, "{} calls", closed.share);
    for (word, end) in &ENDS {
        let is_known = way != Way::Calls || has(&closed.history, *word, *end);
        assert!(rt; is_known, "no wait ends so");
    }
}

#[test]
fn a_list_of_10_000_steps_is_taken_by_one_thread_and_by_four(rt: HostRuntime) {
    for way in [Way::Alone, Way::InTurns, Way::OneWaits] {
        rage(&rt, way);
    }
}

#[test]
fn a_list_of_10_000_calls_ends_by_deadlines_and_interrupts(rt: HostRuntime) {
    rage(&rt, Way::Calls);
}
