//! Openings of locks that guard data, and of a pool, while one allocation after another fails.
//!
//! An opening that fails returns what it was to guard, and frees its memory, or it would never succeed.

use guarded::{Mutex, Pool, RwMutex, Shared, WhenFull};
use history::fault::Fault;
use history::header::Policy;
use std::collections::LinkedList;
use std::process::Abort;
use std::sync::Wait;
use test_support::memory::Memory;

/// The least size of a piece that a request of an opening takes.
const FINE: usize = 16;

/// More pieces than an opening takes.
const MOST: usize = 2048;

/// What a lock guards here.
const VALUE: u64 = 7;

/// Returns how often a mutex with two threads and a condition is refused memory.
fn refusals_of_mutex<R: Abort + AllocGlobal>(rt: &R, memory: &mut Memory) -> usize {
    for refused in 0..MOST {
        match Mutex::open(rt.alloc(), VALUE, Policy::Fair, WhenFull::Trim, 2, 1, 16) {
            Ok((_lock, passes)) => {
                assert_eq!(rt; passes.len(), 2);
                return refused;
            }
            Err((back, fault)) => {
                assert!(rt; back == VALUE && fault == Fault::OutOfMemory);
            }
        }
        let _was_left = memory.give_piece();
    }
    MOST
}

/// Returns how often a read-write lock with two threads and a condition is refused memory.
fn refusals_of_rw_mutex<R: Abort + AllocGlobal + Wait>(rt: &R, memory: &mut Memory) -> usize {
    for refused in 0..MOST {
        let back = match Shared::new(rt.alloc(), VALUE) {
            Ok(shared) => {
                match RwMutex::open(rt.alloc(), shared, Policy::Fair, WhenFull::Trim, 2, 1, 16) {
                    Ok((_lock, passes)) => {
                        assert_eq!(rt; passes.len(), 2);
                        return refused;
                    }
                    Err((shared, fault)) => {
                        assert_eq!(rt; fault, Fault::OutOfMemory);
                        shared.into_value(rt)
                    }
                }
            }
            Err(back) => back,
        };
        assert_eq!(rt; back, VALUE);
        let _was_left = memory.give_piece();
    }
    MOST
}

/// Returns how often a pool of three items with two threads is refused memory.
fn refusals_of_pool<R: Abort + AllocGlobal>(
    rt: &R,
    items: LinkedList<u64>,
    memory: &mut Memory,
) -> usize {
    let mut items = items;
    for refused in 0..MOST {
        assert_eq!(rt; items.len(), 3);
        match Pool::open(rt.alloc(), items, Policy::Fair, WhenFull::Trim, 2, 16) {
            Ok((_pool, passes)) => {
                assert_eq!(rt; passes.len(), 2);
                return refused;
            }
            Err((back, fault)) => {
                assert!(rt; fault == Fault::OutOfMemory);
                items = back;
            }
        }
        let _was_left = memory.give_piece();
    }
    MOST
}

#[test]
fn a_mutex_is_opened_whole_or_gives_its_value_back(rt: HostRuntime) {
    let mut memory = Memory::take_all(rt.alloc(), FINE).expect(&rt, "memory");
    let refused = refusals_of_mutex(&rt, &mut memory);
    assert!(rt; 4 <= refused && refused < MOST, "refused {refused} times");
}

#[test]
fn a_read_write_mutex_is_opened_whole_or_gives_its_value_back(rt: HostRuntime) {
    let mut memory = Memory::take_all(rt.alloc(), FINE).expect(&rt, "memory");
    let refused = refusals_of_rw_mutex(&rt, &mut memory);
    assert!(rt; 4 <= refused && refused < MOST, "refused {refused} times");
}

#[test]
fn a_pool_is_opened_whole_or_gives_its_items_back(rt: HostRuntime) {
    let mut items = LinkedList::new(rt.alloc());
    for item in 0..3 {
        items.push_back(item).expect(&rt, "memory");
    }
    let mut memory = Memory::take_all(rt.alloc(), FINE).expect(&rt, "memory");
    let refused = refusals_of_pool(&rt, items, &mut memory);
    assert!(rt; 4 <= refused && refused < MOST, "refused {refused} times");
}
