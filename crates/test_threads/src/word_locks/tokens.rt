//! Tokens that add entries under the lock, in turns and in threads.
ghost use Rattle.std.specs.Prelude.{◌≡◌, ◌+◌, ◌<◌, true};
ghost use Rattle.history.specs.declared.point.Point.{Point};
ghost use Rattle.word_lock.specs.Ticket.{opening_tickets};
ghost use Rattle.word_lock.specs.Ready.{IsReady};

use crate::word_locks::notes::{Notes, got};
use std::process::Abort;
use std::sync::Wait;
use std::thread::{Threads, join, sleep};
use std::time::{Clock, CpuClock, Duration};
use word_lock::{Token, WordLock};

/// Returns the last of the tokens that `open` returned.
pub fn last(lock: &WordLock<Notes>, tokens: &mut Vec<Token>, left: u16) -> Token
    requires few { left < 100 }
    requires tokens { (p : Point) × (tokens.old.items ≡ opening_tickets lock.now p 0 (left + 1)) }
    ensures rest { (p : Point) × (tokens.new.items ≡ opening_tickets lock.now p 0 left) }
    ensures last { IsReady lock.now left result }
{
    match tokens.pop() {
        Some(token) => token,
        None => unreachable!(),
    }
}

/// What a thread does `count` times: it waits `before` milliseconds, and has the lock for `within`.
#[derive(Clone, Copy)]
struct Turns {
    count: u32,
    before: u64,
    within: u64,
}

fn wait_for<R: Clock>(rt: &R, milliseconds: u64) {
    if 0 < milliseconds {
        sleep(rt, Duration::from_millis(milliseconds));
    }
}

/// Adds an entry, and returns whether there was memory for it.
fn add<R: Wait + Clock>(
    rt: &R,
    lock: &WordLock<Notes>,
    token: &mut Token,
    seat: u16,
    turns: Turns,
) -> bool
    requires { IsReady lock.now seat token.old }
    ensures { IsReady lock.now seat token.new }
{
    wait_for(rt, turns.before);
    let mut held = lock.lock(rt, token);
    wait_for(rt, turns.within);
    let added = held.value.add(got(seat));
    lock.unlock(token, held);
    added.is_ok()
}

fn add_all<R: Abort + Wait + Clock>(
    rt: &R,
    lock: &WordLock<Notes>,
    token: Token,
    seat: u16,
    turns: Turns,
) -> Token
    requires { IsReady lock.now seat token }
    ensures { IsReady lock.now seat result }
{
    let mut token = token;
    for _ in 0..turns.count {
        assert!(rt; add(rt, lock, &mut token, seat, turns), "memory");
    }
    token
}

/// Returns how many entries the seat `of` has, if nobody has taken the value.
pub fn count_now(lock: &WordLock<Notes>, token: &mut Token, seat: u16, of: u16) -> Option<usize>
    requires { IsReady lock.now seat token.old }
    ensures { IsReady lock.now seat token.new }
{
    let held = lock.lock_now(token)?;
    let count = held.value.count_of(of);
    lock.unlock(token, held);
    Some(count)
}

/// Returns whether one token finds the value taken while the other, whose seat is 0, adds an entry.
pub fn is_refused_meanwhile<R: Wait>(
    rt: &R,
    lock: &WordLock<Notes>,
    zero: &mut Token,
    one: &mut Token,
) -> bool
    requires zero { IsReady lock.now 0 zero.old }
    requires one { IsReady lock.now 1 one.old }
    ensures zero { IsReady lock.now 0 zero.new }
    ensures one { IsReady lock.now 1 one.new }
{
    let mut held = lock.lock(rt, zero);
    let holds = !zero.is_free();
    let count = count_now(lock, one, 1, 0);
    let added = held.value.add(got(0));
    lock.unlock(zero, held);
    holds && zero.is_free() && count.is_none() && added.is_ok()
}

/// Two threads add entries, and their tokens are joined.
fn two_add<R: Abort + Threads + Wait + Clock + Sync>(
    rt: &R,
    lock: &WordLock<Notes>,
    a: Token,
    b: Token,
    turns: (Turns, Turns),
) -> Token
    requires one { IsReady lock.now 0 a }
    requires two { IsReady lock.now 1 b }
    ensures { (result.lock ≡ lock.now) × (result.free ≡ true) }
{
    let (first, second) = turns;
    let (x, y) = join(
        rt,
        move || -> Token
            requires { IsReady lock.now 0 a }
            ensures { IsReady lock.entry.now 0 result }
        { add_all(rt, lock, a, 0, first) },
        move || -> Token
            requires { IsReady lock.now 1 b }
            ensures { IsReady lock.entry.now 1 result }
        { add_all(rt, lock, b, 1, second) },
    );
    lock.join(x, y)
}

/// Two threads add entries while a third one does, and all tokens are joined.
fn three_add<R: Abort + Threads + Wait + Clock + Sync>(
    rt: &R,
    lock: &WordLock<Notes>,
    a: Token,
    b: Token,
    c: Token,
    turns: (Turns, Turns, Turns),
) -> Token
    requires one { IsReady lock.now 0 a }
    requires two { IsReady lock.now 1 b }
    requires three { IsReady lock.now 2 c }
    ensures { (result.lock ≡ lock.now) × (result.free ≡ true) }
{
    let (first, second, third) = turns;
    let (two, z) = join(
        rt,
        move || -> Token
            requires { IsReady lock.now 0 a × IsReady lock.now 1 b }
            ensures { (result.lock ≡ lock.entry.now) × (result.free ≡ true) }
        { two_add(rt, lock, a, b, (first, second)) },
        move || -> Token
            requires { IsReady lock.now 2 c }
            ensures { IsReady lock.entry.now 2 result }
        { add_all(rt, lock, c, 2, third) },
    );
    lock.join(two, z)
}

const MANY: Turns = Turns {
    count: 500,
    before: 0,
    within: 0,
};

/// Four threads add many entries each, and all tokens are joined.
fn four_add<R: Abort + Threads + Wait + Clock + Sync>(
    rt: &R,
    lock: &WordLock<Notes>,
    a: Token,
    b: Token,
    c: Token,
    d: Token,
) -> Token
    requires one { IsReady lock.now 0 a }
    requires two { IsReady lock.now 1 b }
    requires three { IsReady lock.now 2 c }
    requires four { IsReady lock.now 3 d }
    ensures { (result.lock ≡ lock.now) × (result.free ≡ true) }
{
    let (three, z) = join(
        rt,
        move || -> Token
            requires { IsReady lock.now 0 a × IsReady lock.now 1 b × IsReady lock.now 2 c }
            ensures { (result.lock ≡ lock.entry.now) × (result.free ≡ true) }
        { three_add(rt, lock, a, b, c, (MANY, MANY, MANY)) },
        move || -> Token
            requires { IsReady lock.now 3 d }
            ensures { IsReady lock.entry.now 3 result }
        { add_all(rt, lock, d, 3, MANY) },
    );
    lock.join(three, z)
}

#[test]
fn four_threads_add_500_entries_each(rt: HostRuntime) {
    let notes = Notes::with_room(rt.alloc(), 0).expect(&rt, "memory");
    let Ok((lock, mut tokens)) = WordLock::open(rt.alloc(), notes, 4) else {
        panic!(rt; "memory")
    };
    let d = last(&lock, &mut tokens, 3);
    let c = last(&lock, &mut tokens, 2);
    let b = last(&lock, &mut tokens, 1);
    let a = last(&lock, &mut tokens, 0);
    let token = four_add(&rt, &lock, a, b, c, d);
    let notes = lock.close(&rt, token);
    assert_eq!(rt; notes.list.len(), 2000);
    for seat in 0..4 {
        assert_eq!(rt; notes.count_of(seat), 500);
    }
}

/// One token finds the value taken while the other adds an entry, and then that entry.
#[test]
fn a_value_that_is_taken_is_not_taken_now(rt: HostRuntime) {
    let notes = Notes::with_room(rt.alloc(), 1).expect(&rt, "memory");
    let Ok((lock, mut tokens)) = WordLock::open(rt.alloc(), notes, 2) else {
        panic!(rt; "memory")
    };
    let mut one = last(&lock, &mut tokens, 1);
    let mut zero = last(&lock, &mut tokens, 0);
    assert!(rt; is_refused_meanwhile(&rt, &lock, &mut zero, &mut one));
    assert!(rt; count_now(&lock, &mut one, 1, 0) == Some(1));
}

/// Returns what two threads leave that add entries under a lock.
fn added<R: Abort + Threads + Wait + Clock + Sync + AllocGlobal>(
    rt: &R,
    first: Turns,
    second: Turns,
) -> Notes {
    let notes = Notes::with_room(rt.alloc(), 0).expect(rt, "memory");
    let Ok((lock, mut tokens)) = WordLock::open(rt.alloc(), notes, 2) else {
        panic!(rt; "memory")
    };
    let b = last(&lock, &mut tokens, 1);
    let a = last(&lock, &mut tokens, 0);
    let token = two_add(rt, &lock, a, b, (first, second));
    lock.close(rt, token)
}

/// One thread has the lock for this number of milliseconds, and the other comes meanwhile.
const HOLDS: Turns = Turns {
    count: 1,
    before: 0,
    within: 600,
};

const COMES: Turns = Turns {
    count: 1,
    before: 50,
    within: 0,
};

const COMES_LATER: Turns = Turns {
    count: 1,
    before: 150,
    within: 0,
};

/// Several times. The second thread sleeps again after wakes were sent.
const HOLDS_OFTEN: Turns = Turns {
    count: 3,
    before: 0,
    within: 200,
};

const COMES_OFTEN: Turns = Turns {
    count: 3,
    before: 50,
    within: 0,
};

/// The most processor time that threads use, in milliseconds. A thread that spins would use the processor
/// all the while.
const USED: u64 = 60;

fn used_so_far<R: Abort + CpuClock>(rt: &R) -> Duration {
    rt.process_cpu_time().expect(rt, "a clock")
}

/// Stops if the threads have used more of the processor since `before` than those that sleep may use.
fn expect_slept<R: Abort + CpuClock>(rt: &R, before: Duration) {
    let used = used_so_far(rt).saturating_sub(before);
    assert!(rt; used < Duration::from_millis(USED), "{used:?}");
}

// The second thread sleeps, and is woken.
#[test]
fn one_who_sleeps_is_woken(rt: HostRuntime) {
    let before = used_so_far(&rt);
    let notes = added(&rt, HOLDS, COMES);
    expect_slept(&rt, before);
    assert_eq!(rt; (notes.count_of(0), notes.count_of(1)), (1, 1));
}

#[test]
fn one_who_sleeps_again_is_woken_again(rt: HostRuntime) {
    let before = used_so_far(&rt);
    let notes = added(&rt, HOLDS_OFTEN, COMES_OFTEN);
    expect_slept(&rt, before);
    assert_eq!(rt; (notes.count_of(0), notes.count_of(1)), (3, 3));
}

/// Two threads sleep while a third one has the lock. The one that is woken first wakes the other.
#[test]
fn who_was_woken_wakes_the_next(rt: HostRuntime) {
    let notes = Notes::with_room(rt.alloc(), 0).expect(&rt, "memory");
    let Ok((lock, mut tokens)) = WordLock::open(rt.alloc(), notes, 3) else {
        panic!(rt; "memory")
    };
    let c = last(&lock, &mut tokens, 2);
    let b = last(&lock, &mut tokens, 1);
    let a = last(&lock, &mut tokens, 0);
    let before = used_so_far(&rt);
    let token = three_add(&rt, &lock, a, b, c, (HOLDS, COMES, COMES_LATER));
    expect_slept(&rt, before);
    let notes = lock.close(&rt, token);
    assert_eq!(rt; notes.list.len(), 3);
}

/// Opens a lock, which has a token for each seat.
fn open_for<R: Abort + AllocGlobal>(rt: &R, seats: u16) {
    if seats == 0 {
        return;
    }
    let notes = Notes::with_room(rt.alloc(), 0).expect(rt, "memory");
    let Ok((_lock, tokens)) = WordLock::open(rt.alloc(), notes, seats) else {
        panic!(rt; "no memory for {seats}")
    };
    assert_eq!(rt; tokens.len(), usize::from(seats));
}

/// Each possible number of seats, and the greatest number.
#[test]
fn a_lock_has_a_token_for_each_seat(rt: HostRuntime) {
    for seats in 1..=256 {
        open_for(&rt, seats);
    }
    open_for(&rt, 1000);
    open_for(&rt, 65_535);
}
