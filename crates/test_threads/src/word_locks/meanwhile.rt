//! Calls of a thread while another thread has taken the value: none of them waits for it.
//!
//! A thread waits at most some 10 seconds for another. A call that waited for the value would return too
//! late.
ghost use Rattle.std.specs.Prelude.{◌≡◌, true};
ghost use Rattle.word_lock.specs.Ready.{IsReady};

use crate::word_locks::notes::Notes;
use crate::word_locks::tokens::{count_now, last};
use std::process::Abort;
use std::sync::Wait;
use std::sync::atomic::{AtomicU64, Ordering};
use std::thread::{Threads, join, sleep};
use std::time::{Clock, Duration};
use word_lock::{Token, WordLock};

/// How often a thread checks how far the other is, once a millisecond.
const LOOKS: u32 = 10_000;

/// How far two threads are. 1: the value is taken. 2: the calls that may not wait have returned, or the
/// second thread is about to wait for the value. 3: the value was put back.
#[derive(Drop)]
struct Stage {
    reached: AtomicU64,
}

impl Stage {
    fn reach(&self, stage: u64) {
        self.reached.store(stage, Ordering::SeqCst);
    }

    /// Waits until this stage is reached, and returns whether it was reached in time.
    fn wait<R: Clock>(&self, rt: &R, stage: u64) -> bool {
        for _ in 0..LOOKS {
            if stage <= self.reached.load(Ordering::SeqCst) {
                return true;
            }
            sleep(rt, Duration::from_millis(1));
        }
        false
    }
}

/// This number of milliseconds after a thread was about to wait for the value, it sleeps.
const ASLEEP: u64 = 50;

/// Takes the value until the other thread has called. Returns whether that was in time.
fn hold<R: Wait + Clock>(
    rt: &R,
    lock: &WordLock<Notes>,
    token: Token,
    seat: u16,
    stage: &Stage,
) -> (Token, bool)
    requires { IsReady lock.now seat token }
    ensures { IsReady lock.now seat result.0 }
{
    let mut token = token;
    let held = lock.lock(rt, &mut token);
    stage.reach(1);
    let in_time = stage.wait(rt, 2);
    sleep(rt, Duration::from_millis(ASLEEP));
    lock.unlock(&mut token, held);
    stage.reach(3);
    (token, in_time)
}

/// Asks for the value, lets two tokens meet, and joins them. Returns whether the value was taken.
fn call_meanwhile<R: Clock>(
    rt: &R,
    lock: &WordLock<Notes>,
    one: Token,
    two: Token,
    stage: &Stage,
) -> (Token, bool)
    requires one { IsReady lock.now 0 one }
    requires two { IsReady lock.now 1 two }
    ensures { (result.0.lock ≡ lock.now) × (result.0.free ≡ true) }
{
    let mut one = one;
    let is_out = stage.wait(rt, 1);
    let count = count_now(lock, &mut one, 0, 0);
    let (one, two) = lock.meet(one, two);
    let both = lock.join(one, two);
    stage.reach(2);
    (both, is_out && count.is_none())
}

fn hold_and_call<R: Threads + Wait + Clock + Sync>(
    rt: &R,
    lock: &WordLock<Notes>,
    one: Token,
    two: Token,
    holder: Token,
) -> ((Token, bool), (Token, bool))
    requires one { IsReady lock.now 0 one }
    requires two { IsReady lock.now 1 two }
    requires holder { IsReady lock.now 2 holder }
    ensures { (result.1.0.lock ≡ lock.now) × (result.1.0.free ≡ true) }
{
    let shared = Stage {
        reached: AtomicU64::new(0),
    };
    let stage = &shared;
    join(
        rt,
        move || -> (Token, bool)
            requires { IsReady lock.now 2 holder }
            ensures { IsReady lock.entry.now 2 result.0 }
        { hold(rt, lock, holder, 2, stage) },
        move || -> (Token, bool)
            requires { IsReady lock.now 0 one × IsReady lock.now 1 two }
            ensures { (result.0.lock ≡ lock.entry.now) × (result.0.free ≡ true) }
        { call_meanwhile(rt, lock, one, two, stage) },
    )
}

#[test]
fn who_asks_now_meets_or_joins_doesnt_wait_for_the_value(rt: HostRuntime) {
    let notes = Notes::with_room(rt.alloc(), 0).expect(&rt, "memory");
    let Ok((lock, mut tokens)) = WordLock::open(rt.alloc(), notes, 3) else {
        panic!(rt; "memory")
    };
    let three = last(&lock, &mut tokens, 2);
    let two = last(&lock, &mut tokens, 1);
    let one = last(&lock, &mut tokens, 0);
    let ((_holder, in_time), (both, was_out)) = hold_and_call(&rt, &lock, one, two, three);
    assert!(rt; was_out, "the value was there");
    assert!(rt; in_time, "a call waited for the value");
    let notes = lock.close(&rt, both);
    assert_eq!(rt; notes.list.len(), 0);
}

/// Waits for the value, and keeps it until the other thread has put it back. Returns whether that was in
/// time.
fn take_over<R: Wait + Clock>(
    rt: &R,
    lock: &WordLock<Notes>,
    token: Token,
    seat: u16,
    stage: &Stage,
) -> (Token, bool)
    requires { IsReady lock.now seat token }
    ensures { IsReady lock.now seat result.0 }
{
    let mut token = token;
    let is_out = stage.wait(rt, 1);
    stage.reach(2);
    let held = lock.lock(rt, &mut token);
    let in_time = stage.wait(rt, 3);
    lock.unlock(&mut token, held);
    (token, is_out && in_time)
}

fn hand_over<R: Threads + Wait + Clock + Sync>(
    rt: &R,
    lock: &WordLock<Notes>,
    giver: Token,
    taker: Token,
) -> ((Token, bool), (Token, bool))
    requires giver { IsReady lock.now 0 giver }
    requires taker { IsReady lock.now 1 taker }
    ensures giver { IsReady lock.now 0 result.0.0 }
    ensures taker { IsReady lock.now 1 result.1.0 }
{
    let shared = Stage {
        reached: AtomicU64::new(0),
    };
    let stage = &shared;
    join(
        rt,
        move || -> (Token, bool)
            requires { IsReady lock.now 0 giver }
            ensures { IsReady lock.entry.now 0 result.0 }
        { hold(rt, lock, giver, 0, stage) },
        move || -> (Token, bool)
            requires { IsReady lock.now 1 taker }
            ensures { IsReady lock.entry.now 1 result.0 }
        { take_over(rt, lock, taker, 1, stage) },
    )
}

#[test]
fn who_gives_the_value_back_doesnt_wait_until_the_next_has_done(rt: HostRuntime) {
    let notes = Notes::with_room(rt.alloc(), 0).expect(&rt, "memory");
    let Ok((lock, mut tokens)) = WordLock::open(rt.alloc(), notes, 2) else {
        panic!(rt; "memory")
    };
    let taker = last(&lock, &mut tokens, 1);
    let giver = last(&lock, &mut tokens, 0);
    let ((giver, _), (taker, in_time)) = hand_over(&rt, &lock, giver, taker);
    assert!(rt; in_time, "an unlock waited for the value");
    let both = lock.join(giver, taker);
    let notes = lock.close(&rt, both);
    assert_eq!(rt; notes.list.len(), 0);
}
