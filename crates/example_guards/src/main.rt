//! Programs over locks, from a first lock to pools and workers.
//!
//! Locks that guard a value:
//!
//! - `buffer`: a queue with two places, which a lock guards. One thread puts, another takes.
//! - `two_readers`: two threads read at the same time, and print while both hold.
//! - `bank`: two accounts, between which two threads pay. The lock keeps the invariant that their sum is 1000.
//! - `fifo`: a queue. What one thread takes as number k is what a thread put at place k.
//! - `receipts`: a journal. Two threads write, and find their entries again as readers.
//! - `connection_pool`: clients that share connections of a pool.
//!
//! Locks, latches and monitors that guard none:
//!
//! - `first_lock`: a fair lock, and an acquire that gives up after 50 milliseconds.
//! - `bounded_buffer`: a monitor with two conditions between a thread that puts and a thread that takes.
//! - `endless_lock`: four threads at a lock that runs on past the cap of its history.
//! - `history_in_parts`: a lock whose history is printed in parts.
//! - `small_calls`: the callers of the pages `CALLING.md`, each called once.
//! - `latch_workers`: workers that start together at one latch. The foreman waits for them at another.
//!
//! `example_guards` runs these one after another, and `example_guards NAME` runs the one of this name. A
//! program that fails gives up what it holds, and says so.
#![tactic(auto)]

ghost use Rattle.std.specs.Prelude.{◌≡◌};
ghost use Rattle.example_guards.specs.declared.Failure.TheVariants.{Call};

mod accounts;
mod bank;
mod bounded;
mod bounded_buffer;
mod buffer;
mod connection_pool;
mod endless_lock;
mod fifo;
mod first_lock;
mod history_in_parts;
mod journal;
mod latch_workers;
mod receipts;
mod small_calls;
mod two_readers;
mod working;

use history::fault::Fault;
use std::sync::Wait;
use std::thread::Threads;
use std::time::Clock;
use std::{env, io};
use thiserror::Error;

/// Why a program gave up.
#[derive(Clone, Copy, Debug, PartialEq, Eq, Error)]
pub enum Failure {
    /// A call returned this fault, or an allocation failed.
    #[error("{0}")]
    Call(Fault),
    /// The system refused a thread. Nobody put or took.
    #[error("producer not started")]
    NotStarted,
    /// A pass is missing, so the lock stays open.
    #[error("lock not closed")]
    NotClosed,
}

impl From<Fault> for Failure {
    ghost from_gives = { λ fault e. e ≡ Call fault };

    fn from(fault: Fault) -> Failure {
        Failure::Call(fault)
    }
}

/// Runs all programs, one after another.
fn run_all<R: Print + Eprint + AllocGlobal + Threads + Wait + Clock + Sync>(
    rt: &R,
    words: &[String],
) -> io::Result<()> {
    buffer::run(rt)?;
    two_readers::run(rt)?;
    bank::run(rt)?;
    fifo::run(rt)?;
    receipts::run(rt)?;
    first_lock::run(rt)?;
    bounded_buffer::run(rt)?;
    endless_lock::run(rt, words)?;
    history_in_parts::run(rt, words)?;
    small_calls::run(rt)?;
    connection_pool::run(rt)?;
    latch_workers::run(rt)
}

/// Runs the program that the first word names, or all if there is no word.
fn run<R: Print + Eprint + AllocGlobal + Threads + Wait + Clock + Sync>(
    rt: &R,
    words: &[String],
) -> io::Result<()> {
    match words.first().map(|word| word.as_str()) {
        None => run_all(rt, words),
        Some("buffer") => buffer::run(rt),
        Some("two_readers") => two_readers::run(rt),
        Some("bank") => bank::run(rt),
        Some("fifo") => fifo::run(rt),
        Some("receipts") => receipts::run(rt),
        Some("first_lock") => first_lock::run(rt),
        Some("bounded_buffer") => bounded_buffer::run(rt),
        Some("endless_lock") => endless_lock::run(rt, words),
        Some("history_in_parts") => history_in_parts::run(rt, words),
        Some("small_calls") => small_calls::run(rt),
        Some("connection_pool") => connection_pool::run(rt),
        Some("latch_workers") => latch_workers::run(rt),
        Some(other) => eprintln!(rt; "example_guards: no program {other}"),
    }
}

fn main(rt: HostRuntime) -> io::Result<()> {
    let words = env::args(&rt)?.skip(1).collect::<Vec<String>>(rt.alloc())?;
    run(&rt, &words)
}
