//! Pairs under std's mutex.

use std::alloc::{AllocError, Global};
use std::sync::{Mutex, Wait};
use std::thread;
use std::thread::Threads;

/// Each thread adds one to a number, `pairs` times. Returns the number after that.
pub fn count_pairs<R: Threads + Wait + Sync>(
    rt: &R,
    alloc: Global,
    threads: u16,
    pairs: u64,
) -> Result<u64, AllocError> {
    let count = Mutex::new(0u64);
    thread::map_indices(rt, alloc, threads as usize, &|_| add(rt, &count, pairs))?;
    Ok(count.into_inner())
}

fn add<R: Wait>(rt: &R, count: &Mutex<u64>, pairs: u64) {
    for _ in 0..pairs {
        let mut guard = count.lock(rt);
        *guard = guard.wrapping_add(1);
    }
}
