//! Memory: what a lock and a monitor allocate and keep, and a call whose allocation fails.
//!
//! A test takes all memory first, a part of it as adjacent pieces, and frees these one by one. So the
//! allocations really fail, one after another.
ghost use Rattle.std.specs.Prelude.{◌≡◌, ◌≤◌, true};
ghost use Rattle.monitor.specs.Calling.{CanCall};
ghost use Rattle.monitor.specs.Stepping.{IsSame};
ghost use Rattle.word_lock.specs.Ready.{IsReady};

use crate::noted::NotedParking;
use crate::plays::play_all;
use crate::tales::fronts::OF_EACH;
use crate::word_locks::notes::{HEADER, Notes};
use crate::word_locks::tokens::{count_now, is_refused_meanwhile, last};
use history::entry::{Mode, Word};
use history::fault::Fault;
use history::header::Policy;
use monitor::{How, Monitor, Pass};
use monitor_fronts::open_lock;
use permit::Parking;
use reentrant::lock::LockHooks;
use std::process::Abort;
use std::sync::Wait;
use std::time::Clock;
use test_support::memory::Memory;
use word_lock::{Token, WordLock};

/// The least size of a piece that a request of an opening takes.
const FINE: usize = 16;

/// More pieces than an opening takes.
const MOST: usize = 1024;

/// A lock allocates its tokens, its slot and its word. An opening that fails returns its value and frees its
/// memory; otherwise it would never succeed.
#[test]
fn a_lock_is_opened_whole_or_not_at_all(rt: HostRuntime) {
    let mut notes = Notes::with_room(rt.alloc(), 0).expect(&rt, "memory");
    let mut memory = Memory::take_all(rt.alloc(), FINE).expect(&rt, "memory");
    for refused in 0..MOST {
        match WordLock::open(rt.alloc(), notes, 4) {
            Ok((_lock, tokens)) => {
                assert!(rt;
                    tokens.len() == 4 && 3 <= refused,
                    "refused {refused} times"
                );
                return;
            }
            Err((back, fault)) => {
                assert!(rt; fault == Fault::OutOfMemory && back.header == HEADER);
                notes = back;
            }
        }
        let _was_left = memory.give_piece();
    }
    panic!(rt; "never opened")
}

/// A heap keeps each smaller block for requests of its size, even after it is freed. So whatever is cut from
/// such a piece is missed.
const PIECE: usize = 1040;

/// As many pieces are enough to open a lock.
const ENOUGH: usize = 16;

/// Two tokens meet and join while a third one has taken the value.
fn tie_meanwhile<R: Wait>(
    rt: &R,
    lock: &WordLock<Notes>,
    mut holder: Token,
    one: Token,
    two: Token,
) -> Token
    requires holder { IsReady lock.now 2 holder }
    requires one { IsReady lock.now 0 one }
    requires two { IsReady lock.now 1 two }
    ensures { (result.lock ≡ lock.now) × (result.free ≡ true) }
{
    let held = lock.lock(rt, &mut holder);
    let (one, two) = lock.meet(one, two);
    let both = lock.join(one, two);
    lock.unlock(&mut holder, held);
    both
}

/// Opens a lock, and makes each of its calls, none of which changes how many pieces are free. There is no
/// free memory except `left` pieces. One entry is added.
fn open_and_call<R: Abort + Wait + AllocGlobal>(rt: &R, memory: &mut Memory, left: Option<usize>) {
    let notes = Notes::with_room(rt.alloc(), 1).expect(rt, "memory");
    let Ok((lock, mut tokens)) = WordLock::open(rt.alloc(), notes, 3) else {
        panic!(rt; "memory")
    };
    let three = last(&lock, &mut tokens, 2);
    let mut two = last(&lock, &mut tokens, 1);
    let mut one = last(&lock, &mut tokens, 0);
    if let Some(pieces) = left {
        memory.take_pieces();
        memory.take_rest().expect(rt, "a place for each block");
        memory.give_pieces(pieces);
    }
    let free = memory.free_pieces();
    assert!(rt; is_refused_meanwhile(rt, &lock, &mut one, &mut two));
    assert!(rt; count_now(&lock, &mut two, 1, 0) == Some(1) && memory.free_pieces() == free);
    let both = tie_meanwhile(rt, &lock, three, one, two);
    assert_eq!(rt; memory.free_pieces(), free);
    let notes = lock.close(rt, both);
    assert_eq!(rt; notes.list.len(), 1);
}

/// First with no memory at all, then with one piece, from which nothing is cut.
#[test]
fn no_call_of_a_lock_but_open_takes_memory(rt: HostRuntime) {
    for left in 0..2 {
        let mut memory = Memory::take_all(rt.alloc(), PIECE).expect(&rt, "memory");
        memory.give_pieces(ENOUGH);
        open_and_call(&rt, &mut memory, Some(left));
    }
}

// After 16 times a heap keeps no more blocks back. If the smallest block were kept each time, more than a
// piece would be missed.
#[test]
fn a_lock_that_was_closed_keeps_no_memory(rt: HostRuntime) {
    let mut memory = Memory::take_all(rt.alloc(), PIECE).expect(&rt, "memory");
    memory.give_pieces(ENOUGH);
    for _ in 0..16 {
        open_and_call(&rt, &mut memory, None);
    }
    let free = memory.free_pieces();
    for _ in 0..100 {
        open_and_call(&rt, &mut memory, None);
    }
    assert_eq!(rt; memory.free_pieces(), free);
}

/// Whatever is kept fills such a piece when it is kept often enough.
const ROOM: usize = 16_384;

// If the smallest block were kept each time, two pieces or more would be missed. The heap sometimes cuts
// blocks that it keeps back from another piece.
#[test]
fn monitors_keep_no_memory(rt: HostRuntime) {
    let mut memory = Memory::take_all(rt.alloc(), ROOM).expect(&rt, "memory");
    memory.give_pieces(ENOUGH);
    for _ in 0..16 {
        play_all(&rt, &OF_EACH);
    }
    let free = memory.free_pieces();
    for _ in 0..2000 {
        play_all(&rt, &OF_EACH);
    }
    assert!(rt; free <= memory.free_pieces().saturating_add(1));
}

/// Returns how often the first acquire of a pass fails for lack of memory. An interrupt is pending each time.
fn refusals_of_acquire<R: Abort + AllocGlobal + Wait + Clock>(
    rt: &R,
    parking: &NotedParking,
    monitor: &Monitor<LockHooks>,
    pass: &mut Pass,
) -> usize
    requires { CanCall monitor.now 256 pass.old }
    ensures { IsSame pass.old pass.new }
{
    let mut memory = Memory::take_all(rt.alloc(), FINE).expect(rt, "memory");
    for refused in 0..MOST {
        match monitor.acquire(rt, parking, pass, Mode::X, 1, How::Interruptible) {
            Ok(entry) => {
                assert_eq!(rt; entry.word, Word::Refused(Fault::Interrupted));
                return refused;
            }
            Err(fault) => assert_eq!(rt; fault, Fault::OutOfMemory),
        }
        assert_eq!(rt; pass.share(), 0);
        let _was_left = memory.give_piece();
    }
    MOST
}

/// The first acquire of a pass takes the interrupt that is pending, if it does not lack memory.
#[test]
fn a_call_that_is_refused_memory_answers_later_as_if_it_came_first(rt: HostRuntime) {
    let parking = NotedParking::open(rt.alloc(), &[]).expect(&rt, "memory");
    let opened = open_lock(rt.alloc(), Policy::Fair, 1, 0, 16);
    let (monitor, mut passes) = opened.expect(&rt, "memory");
    let mut pass = passes.pop().expect(&rt, "a pass");
    parking.interrupt(0);
    let refused = refusals_of_acquire(&rt, &parking, &monitor, &mut pass);
    let is_taken = pass.share() == 1 && !parking.take_interrupt(0);
    let is_good = is_taken && 1 <= refused && refused < MOST;
    assert!(rt; is_good, "refused {refused} times");
}
