//! Pairs of lock and unlock by 1 to 8 threads, under the word lock and under std's mutex.
//!
//! Each thread makes a few pairs, and the number of counted pairs is printed for each lock. With the word
//! `measure` each makes a million, and the thousands of pairs a second are printed.

mod mutex;
mod word;

ghost use Rattle.std.specs.Prelude.{◌<◌};

use std::io;
use std::sync::Wait;
use std::thread::Threads;
use std::time::{Clock, Duration, Instant};

const THREADS: [u16; 4] = [1, 2, 4, 8];

const FEW_PAIRS: u64 = 1000;

const MANY_PAIRS: u64 = 1_000_000;

/// How many pairs were made, and how long it took.
#[derive(Clone, Copy)]
struct Counted {
    pairs: u64,
    time: Duration,
}

impl Counted {
    fn thousands_a_second(&self) -> u128 {
        u128::from(self.pairs) / self.time.as_millis().max(1)
    }
}

/// Returns the pairs of `threads` threads under the word lock.
fn under_word_lock<R: AllocGlobal + Threads + Wait + Clock + Sync>(
    rt: &R,
    threads: u16,
    pairs: u64,
) -> io::Result<Counted>
    requires { threads < 256 }
{
    let start = Instant::now(rt)?;
    let pairs = word::count_pairs(rt, rt.alloc(), threads, pairs)?;
    let time = start.elapsed(rt)?;
    Ok(Counted { pairs, time })
}

/// Returns the pairs of `threads` threads under std's mutex.
fn under_mutex<R: AllocGlobal + Threads + Wait + Clock + Sync>(
    rt: &R,
    threads: u16,
    pairs: u64,
) -> io::Result<Counted> {
    let start = Instant::now(rt)?;
    let pairs = mutex::count_pairs(rt, rt.alloc(), threads, pairs)?;
    let time = start.elapsed(rt)?;
    Ok(Counted { pairs, time })
}

fn print_line<R: Print>(
    rt: &R,
    threads: u16,
    measure: bool,
    word_lock: Counted,
    mutex: Counted,
) -> io::Result<()> {
    if measure {
        let word_lock = word_lock.thousands_a_second();
        let mutex = mutex.thousands_a_second();
        return println!(rt;
            "threads {threads}: word lock {word_lock}, mutex {mutex} thousand pairs a second"
        );
    }
    println!(rt;
        "threads {threads}: word lock {}, mutex {} pairs",
        word_lock.pairs, mutex.pairs
    )
}

/// Makes the pairs, and prints a line for each number of threads.
pub fn run<R: Print + AllocGlobal + Threads + Wait + Clock + Sync>(
    rt: &R,
    measure: bool,
) -> io::Result<()> {
    let pairs = if measure { MANY_PAIRS } else { FEW_PAIRS };
    for threads in THREADS {
        let word_lock = under_word_lock(rt, threads, pairs)?;
        let mutex = under_mutex(rt, threads, pairs)?;
        print_line(rt, threads, measure, word_lock, mutex)?;
    }
    Ok(())
}
