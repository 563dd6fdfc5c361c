//! Threads that call a word lock, or a place to park, over and over. `checks/stops.py` runs this program. It lets
//! one thread run at a time, and stops it between any two steps on the word that the threads share.
//!
//! - `test_stops locks ROUNDS`: four threads take a lock and put it back (`locks`).
//! - `test_stops seats ROUNDS`: each of nine threads makes one kind of call at a seat (`seats`).
//!
//! Before each call a thread sleeps for some nanoseconds. Their number tells the check which thread it is, and
//! what came of its last call (`marks`).
#![tactic(auto)]

mod locks;
mod marks;
mod seats;

use std::sync::Wait;
use std::thread::Threads;
use std::time::Clock;
use std::{env, io};

fn run<R: Eprint + AllocGlobal + Threads + Wait + Clock + Sync>(
    rt: &R,
    what: &str,
    rounds: u32,
) -> io::Result<()> {
    match what {
        "locks" => Ok(locks::run(rt, rt.alloc(), rounds)?),
        "seats" => Ok(seats::run(rt, rt.alloc(), rounds)?),
        _ => eprintln!(rt; "test_stops: no {what}"),
    }
}

fn main(rt: HostRuntime) -> io::Result<()> {
    let words = env::args(&rt)?.skip(1).collect::<Vec<String>>(rt.alloc())?;
    let [what, rounds] = words.as_slice() else {
        return Ok(());
    };
    run(&rt, what.as_str(), rounds.parse::<u32>().unwrap_or(0))
}
