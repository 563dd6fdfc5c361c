//! A lock that runs on past the cap of its history, which is printed in parts.
//!
//! Two threads, as seats of a core, take turns at a lock, in rounds of four calls: seat 0 acquires, seat 1
//! joins the queue, seat 0 releases, seat 1 is granted and releases. Whenever the history has as many entries
//! as a part, its text is printed, and the entries are folded into the base. So the lock makes any number of
//! calls in the memory of one part. Each part is a history text, which `aqs audit` judges by itself: the
//! lines of its base are the state that the parts before it left.
//!
//! `example_guards history_in_parts` makes 12 rounds in parts of 17 entries. `example_guards history_in_parts
//! ROUNDS ENTRIES` chooses both numbers: `example_guards history_in_parts 25000000 1000000` makes 100,000,000
//! calls in 125 parts. `checks/parts.py` audits the parts one after the other.
//!
//! Proved for a writer whose bytes are known: if `play` returns without a failure, it has written exactly
//! five entries for each round. The parts are legal, and each part begins on the fold of those before it.

mod failure;
mod parts;

ghost use Rattle.std.specs.Prelude.{◌≤◌};

use crate::history_in_parts::parts::play;
use std::io;

/// The rounds and the entries of a part if the command line names none.
const FEW: (u64, u64) = (12, 17);

/// The fewest and the most entries of a part.
const FEWEST: u64 = 8;

const MOST: u64 = 4_000_000_000;

/// Reads the rounds and the entries of a part. They are the words after the name of the example.
fn asked(words: &[String]) -> (u64, u64)
    ensures { (8 ≤ result.1) × (result.1 ≤ 4000000000) }
{
    let rounds = words
        .get(1)
        .and_then(|word| word.as_str().parse::<u64>().ok());
    let entries = words
        .get(2)
        .and_then(|word| word.as_str().parse::<u64>().ok());
    match (rounds, entries) {
        (Some(rounds), Some(entries)) => (rounds, entries.clamp(FEWEST, MOST)),
        _ => FEW,
    }
}

/// Runs the lock as the words ask. The first word is the name of the example.
pub fn run<R: Print + Eprint + AllocGlobal>(rt: &R, words: &[String]) -> io::Result<()> {
    let (rounds, entries) = asked(words);
    let mut out = io::writer(rt);
    match play(rt.alloc(), rounds, entries, &mut out) {
        Ok(()) => Ok(()),
        Err(failure) => eprintln!(rt; "history_in_parts: {failure}"),
    }
}
