//! Pairs of acquire and release by 1 to 16 threads, on monitors of each kind.
//!
//! Each thread makes a few pairs, and pairs and calls are printed. With the words `measure MS` the threads of
//! a line make pairs for `MS` milliseconds, and the line has the pairs a second: `NAME hist THREADS
//! PAIRS_PER_SECOND`. The history keeps two entries of each pair, and more if the pair had to wait. A line `NAME
//! work ..` follows, of threads that work without the lock after each pair, for some 1.4 microseconds.

mod kind;
mod pairs;
mod race;

ghost use Rattle.std.specs.Prelude.{◌≤◌, ◌<◌};

use crate::monitor_pairs::kind::{ALL_KINDS, Kind, count_pairs};
use crate::monitor_pairs::pairs::Counted;
use crate::monitor_pairs::race::Limit;
use std::io;
use std::sync::Wait;
use std::thread::Threads;
use std::time::{Clock, Duration};

const THREADS: [u16; 5] = [1, 2, 4, 8, 16];

const FEW_PAIRS: u64 = 200;

/// How long the threads of a line make pairs by default.
const MILLISECONDS: u64 = 60;

/// The steps of work after a pair.
const WORK: u64 = 200;

/// Makes the pairs, and prints a line for each kind of monitor and each number of threads.
pub fn run<R: Print + AllocGlobal + Threads + Wait + Clock + Sync>(
    rt: &R,
    measure: bool,
    milliseconds: Option<u64>,
) -> io::Result<()> {
    let time = Duration::from_millis(milliseconds.unwrap_or(MILLISECONDS));
    for kind in ALL_KINDS {
        for threads in THREADS {
            if measure {
                print_pairs(rt, kind, threads, Limit::Time(time, 0))?;
                print_pairs(rt, kind, threads, Limit::Time(time, WORK))?;
            } else {
                print_pairs(rt, kind, threads, Limit::Pairs(FEW_PAIRS))?;
            }
        }
    }
    Ok(())
}

/// Makes the pairs of a line, and prints it.
fn print_pairs<R: Print + AllocGlobal + Threads + Wait + Clock + Sync>(
    rt: &R,
    kind: Kind,
    threads: u16,
    limit: Limit,
) -> io::Result<()>
    requires { (0 < threads) × (threads ≤ 256) }
{
    match count_pairs(rt, rt.alloc(), kind, threads, limit) {
        Ok(counted) => print_line(rt, kind.name(), threads, limit, counted),
        Err(_) => println!(rt; "{} {threads}: out of memory", kind.name()),
    }
}

fn print_line<R: Print>(
    rt: &R,
    name: &str,
    threads: u16,
    limit: Limit,
    counted: Counted,
) -> io::Result<()> {
    let Counted { pairs, calls, time } = counted;
    match limit {
        Limit::Pairs(_) => println!(rt; "{name} threads {threads}: {pairs} pairs, {calls} calls"),
        Limit::Time(_, work) => {
            let rate = u128::from(pairs).saturating_mul(1_000_000) / time.as_micros().max(1);
            let mode = if work == 0 { "hist" } else { "work" };
            println!(rt; "aqs:{name} {mode} {threads} {rate}")
        }
    }
}
