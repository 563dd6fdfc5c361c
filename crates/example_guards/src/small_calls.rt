//! The callers of the pages `CALLING.md`, each called once: for a history, a core, an audit, both streams in
//! memory, and a script. Prints what each of them returns.

mod audits;
mod cores;
mod histories;
mod replays;
mod scripts;

use crate::small_calls::audits::totals_if_legal;
use crate::small_calls::cores::{acquire, fair_lock};
use crate::small_calls::histories::add_acquire;
use crate::small_calls::replays::{history_of, verdict_on};
use crate::small_calls::scripts::threads_of;
use audit::verdict::Verdict;
use history::entries::History;
use history::entry::{End, Entry, Mode, Word};
use history::header::{Header, Object, Policy};
use std::alloc::Global;
use std::io;
use std::io::Write;

const LOCK: Header = Header {
    object: Object::Lock(Policy::Fair),
    seats: 1,
    conditions: 0,
    cap: 16,
};

const ENTRY: Entry = Entry {
    seat: 0,
    word: Word::Got,
    mode: Mode::X,
    n: 1,
    at: 0,
    end: End::None,
};

const STEPS: &[u8] = b"aqs-steps 1 lock fair seats 1 conditions 0 cap 16\n0 acquire x 1\nend 1\n";

const LEGAL: &[u8] = b"aqs-history 1 lock fair seats 1 conditions 0 cap 16\n0 0 got x 1\nend 1 1\n";

const NOT_LEGAL: &[u8] =
    b"aqs-history 1 lock fair seats 1 conditions 0 cap 16\n0 0 gave x 1\nend 1 1\n";

const SCRIPT: &[u8] = br#"{"objects": [["a", "lock fair seats 2 conditions 0 cap 16"]],
 "threads": [{"repeat": 1, "calls": ["a acquire x 1"]}, {"repeat": 1, "calls": []}]}"#;

/// Returns how many entries a history has after an acquire, and for how many it has reserved room.
fn added(alloc: Global) -> (u64, u64) {
    let mut history = History::open(alloc, LOCK.cap);
    let _ = add_acquire(&mut history, ENTRY);
    (history.len(), history.owed())
}

/// Returns how many holds each of two threads has after both asked for a lock.
fn holds(alloc: Global) -> (u128, u128) {
    let Ok(mut core) = fair_lock(alloc, 2, 64) else {
        return (0, 0);
    };
    let first = acquire(&mut core, 0).unwrap_or(u128::MAX);
    let second = acquire(&mut core, 1).unwrap_or(u128::MAX);
    (first, second)
}

/// Returns whether the audit finds an empty history legal.
fn is_empty_legal(alloc: Global) -> bool {
    let history = History::open(alloc, LOCK.cap);
    matches!(totals_if_legal(alloc, &LOCK, &history), Ok(Some(_)))
}

/// Returns the verdict of the audit on a history text.
fn says(alloc: Global, text: &[u8]) -> &'static str {
    let Ok(text) = Vec::from_slice(alloc, text) else {
        return "out of memory";
    };
    match verdict_on(alloc, text) {
        Ok(Verdict::Legal) => "legal",
        Ok(Verdict::NotLegal(0)) => "not legal at 0",
        Ok(Verdict::NotLegal(_)) => "not legal",
        Err(_) => "no history",
    }
}

/// Writes the history text that a replay makes of the steps.
fn print_replay<R: Print + AllocGlobal>(rt: &R) -> io::Result<()> {
    let Ok(steps) = Vec::from_slice(rt.alloc(), STEPS) else {
        return println!(rt; "out of memory");
    };
    match history_of(rt.alloc(), steps, 256) {
        Ok(sink) => io::writer(rt).write_all(sink.bytes()),
        Err(fault) => println!(rt; "{fault}"),
    }
}

/// Makes the calls on histories and cores, and prints what they return.
fn print_histories<R: Print + AllocGlobal>(rt: &R) -> io::Result<()> {
    let (entries, reserved) = added(rt.alloc());
    let (first, second) = holds(rt.alloc());
    println!(rt;
        "entries {entries}, reserved {reserved}\n\
         holds of thread 0: {first}, of thread 1: {second}\n\
         an empty history is legal: {}",
        is_empty_legal(rt.alloc())
    )
}

/// Makes the calls on texts, and prints what they return.
fn print_texts<R: Print + AllocGlobal>(rt: &R) -> io::Result<()> {
    println!(rt;
        "this history is {}\n\
         one that begins with a release is {}\n\
         a script has {} threads",
        says(rt.alloc(), LEGAL),
        says(rt.alloc(), NOT_LEGAL),
        threads_of(rt.alloc(), SCRIPT).unwrap_or(0)
    )
}

/// Makes all calls, and prints what they return.
pub fn run<R: Print + AllocGlobal>(rt: &R) -> io::Result<()> {
    print_histories(rt)?;
    print_replay(rt)?;
    print_texts(rt)
}
