//! What is told of a run while its threads go on, and when it counts as ended.

use super::*;
use crate::post::Post;
use history::entry::End;
use history::header::Policy;
use permit::{Parking, ThreadParking};
use std::io;
use std::process::Abort;
use std::sync::Arc;
use std::sync::atomic::AtomicBool;
use std::thread::{Threads, join};

/// How long a thread makes calls while another one looks, in milliseconds, and how many between two looks at the clock.
const LONGEST: u64 = 1_000;

const CALLS: u64 = 100;

/// A clock that can't be read.
struct NoClock;

impl Clock for NoClock {
    fn monotonic(&self) -> io::Result<Duration> {
        Err(io::Error::from(io::ErrorKind::Unsupported))
    }

    fn since_1970(&self) -> io::Result<Duration> {
        Err(io::Error::from(io::ErrorKind::Unsupported))
    }
}

/// Notes of one thread, at one lock.
fn of_one<R: Abort + AllocGlobal>(rt: &R) -> Notes {
    let holds = Holds::of(Object::Lock(Policy::Fair));
    let holds = vec![in rt.alloc(); holds].expect(rt, "memory");
    let row = Row {
        word: AtomicU64::new(0),
        holds,
    };
    Notes {
        rows: vec![in rt.alloc(); row].expect(rt, "memory"),
        over: AtomicU64::new(GOING),
    }
}

#[test]
fn a_run_whose_end_came_has_ended_in_time_however_late_it_is_looked_for(rt: HostRuntime) {
    let notes = of_one(&rt);
    assert!(rt; !notes.ends_within(&rt, 0));
    notes.tell_end();
    assert!(rt; notes.ends_within(&rt, 0));
}

#[test]
fn no_time_is_left_if_the_clock_cant_be_read(rt: HostRuntime) {
    let limit = Duration::from_millis(60_000);
    let start = Instant::now(&rt).ok();
    assert!(rt; start.is_some() && !time_left(&rt, start, limit).is_zero());
    assert!(rt; time_left(&NoClock, start, limit).is_zero());
    assert!(rt; time_left(&rt, None, limit).is_zero());
}

fn of_lock(word: Word) -> Entry {
    Entry {
        n: 1,
        seat: 0,
        word,
        mode: Mode::X,
        at: 0,
        end: End::None,
    }
}

/// Takes a lock and gives it back. The thread parks before it has the lock, never with it.
fn take_and_give(notes: &Notes, call: u64) {
    notes.note_park(0, true);
    notes.note_park(0, false);
    notes.note_entry(0, 0, of_lock(Word::Granted));
    notes.note_end(0, call.saturating_mul(2));
    notes.note_entry(0, 0, of_lock(Word::Gave));
    notes.note_end(0, call.saturating_mul(2).saturating_add(1));
}

/// The same again and again.
fn take_and_give_often<R: Wait + Clock>(rt: &R, notes: &Notes, is_over: &AtomicBool) {
    let start = Instant::now(rt).ok();
    let mut call = 0u64;
    for _ in rt.forever() {
        for _ in 0..CALLS {
            take_and_give(notes, call);
            call = call.saturating_add(1);
        }
        if time_left(rt, start, Duration::from_millis(LONGEST)).is_zero() {
            break;
        }
    }
    is_over.store(true, Ordering::SeqCst);
}

/// Returns whether it is told that the thread waits with a hold.
fn is_told_to_wait<R: Abort + AllocGlobal>(rt: &R, notes: &Notes) -> bool {
    let all = notes.standings(rt.alloc()).expect(rt, "memory");
    all.iter()
        .any(|standing| standing.waits && !standing.held.is_empty())
}

/// Returns how often it is told that the thread waits with a hold.
fn look<R: Abort + Wait + AllocGlobal>(rt: &R, notes: &Notes, is_over: &AtomicBool) -> u64 {
    let mut told = 0u64;
    for _ in rt.forever() {
        if is_told_to_wait(rt, notes) {
            told = told.saturating_add(1);
        }
        if is_over.load(Ordering::SeqCst) {
            break;
        }
    }
    told
}

fn look_at_one<R: Abort + Threads + Wait + Clock + Sync + AllocGlobal>(
    rt: &R,
    notes: &Notes,
) -> u64 {
    let is_over = &AtomicBool::new(false);
    let ((), told) = join(
        rt,
        || { take_and_give_often(rt, notes, is_over) },
        || -> u64 { look(rt, notes, is_over) },
    );
    told
}

#[test]
fn a_thread_that_goes_on_meanwhile_is_not_told_to_wait_with_what_it_took_then(rt: HostRuntime) {
    let notes = of_one(&rt);
    assert_eq!(rt; look_at_one(&rt, &notes), 0);
}

#[test]
fn a_thread_that_was_woken_is_not_told_to_wait_though_its_call_goes_on(rt: HostRuntime) {
    let notes = Arc::new(rt.alloc(), of_one(&rt)).expect(&rt, "memory");
    let post = Post {
        parking: ThreadParking::open(&rt, rt.alloc(), 1).expect(&rt, "memory"),
        notes: Arc::try_clone(&notes).ok(),
    };
    post.interrupt(0);
    let _ = post.park(&rt, 0, None, true);
    let all = notes.standings(rt.alloc()).expect(&rt, "memory");
    assert!(rt; all.iter().all(|standing| !standing.waits));
}
