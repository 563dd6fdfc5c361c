//! Pairs of acquire and release by 1 to 16 threads, counted or measured; and locks that are closed.
//!
//! - `lock_pairs`: pairs under the word lock, and under std's mutex.
//! - `monitor_pairs`: pairs at monitors of each kind.
//! - `closes`: locks that are opened and closed.
//! - `trims`: trims of a lock's core.
//!
//! `bench_pairs` makes a few of each, and `bench_pairs NAME` a few of one. `bench_pairs lock_pairs measure`
//! and `bench_pairs monitor_pairs measure MS` measure how many pairs the threads make. `bench_pairs closes
//! SEATS TIMES` closes this many locks of this many seats. `bench_pairs trims PAIRS TIMES` measures this many
//! trims, each behind as many pairs. With `cold` as a third word, 64 MB of other memory are written over before
//! each trim.
#![tactic(auto)]

mod closes;
mod lock_pairs;
mod monitor_pairs;
mod trims;

use std::sync::Wait;
use std::thread::Threads;
use std::time::Clock;
use std::{env, io};

/// Returns the word at a place, if there is one.
fn word_at(words: &[String], place: usize) -> Option<&str> {
    words.get(place).map(|word| word.as_str())
}

/// Makes the pairs or the closes that the words ask for.
fn run<R: Print + Eprint + AllocGlobal + Threads + Wait + Clock + Sync>(
    rt: &R,
    words: &[String],
) -> io::Result<()> {
    let measure = word_at(words, 1) == Some("measure");
    let milliseconds = word_at(words, 2).and_then(|word| word.parse::<u64>().ok());
    match word_at(words, 0) {
        None => {
            lock_pairs::run(rt, false)?;
            monitor_pairs::run(rt, false, None)?;
            closes::run(rt, None, None)?;
            trims::run(rt, None, None, false)
        }
        Some("lock_pairs") => lock_pairs::run(rt, measure),
        Some("monitor_pairs") => monitor_pairs::run(rt, measure, milliseconds),
        Some("closes") => closes::run(rt, word_at(words, 1), word_at(words, 2)),
        Some("trims") => {
            let cold = word_at(words, 3) == Some("cold");
            trims::run(rt, word_at(words, 1), word_at(words, 2), cold)
        }
        Some(other) => eprintln!(rt; "bench_pairs: no pairs {other}"),
    }
}

fn main(rt: HostRuntime) -> io::Result<()> {
    let words = env::args(&rt)?.skip(1).collect::<Vec<String>>(rt.alloc())?;
    run(&rt, &words)
}
