//! The rule that decides what a step makes, in a sentence with its heading in the specification.

use crate::way::Way;
use crate::why::Why;
use history::entry::{Entry, Word};
use history::fault::Fault;
use history::header::{Object, Policy};
use std::alloc::{AllocError, Global};

/// Returns what an entry's word tells of its seat.
fn told_by(word: Word) -> &'static str {
    match word {
        Word::Refused(Fault::NotOwner) => "has no such hold (Steps)",
        Word::Refused(Fault::TooManyHolds) => {
            "is at the limit of holds (What a seat could acquire)"
        }
        Word::Refused(Fault::TooManyPermits) => "would free more than 2147483647 permits (Steps)",
        Word::Refused(Fault::Interrupted) => "had an interrupt pending at entry (Steps)",
        Word::Refused(Fault::HoldsRead) => "owns and reads too (Steps)",
        Word::Refused(_) => "is refused (Faults)",
        Word::Gave => "may release (Steps)",
        Word::Await => "owns, and gives up all its exclusive holds (Steps)",
        Word::Signal => "owns, and moves the longest sleeper of the condition, if any (Steps)",
        Word::SignalAll => "owns, and moves all sleepers of the condition (Steps)",
        Word::Counted => "counts down, as any seat may (Steps)",
        Word::Drained => "takes all free permits (Steps)",
        Word::Left => "stops waiting in the queue (Steps)",
        Word::Lapse => "stops waiting on its condition (Steps)",
        Word::Got | Word::TryGot | Word::Queued | Word::Granted | Word::Missed | Word::Back =>
            "made it (Steps)",
    }
}

/// Returns what the rule says of a seat, if it names no other seat.
fn told(why: Why, made: Option<Entry>) -> &'static str {
    match why {
        Why::CouldNot => "could not acquire (What a seat could acquire)",
        Why::Again => "has holds, and could acquire again (What a seat could acquire)",
        Why::Could => "could acquire (What a seat could acquire)",
        Why::First => "is first in the queue, and could acquire what it waits for (Steps)",
        Why::Cannot => "is first in the queue, and could not acquire what it waits for (Steps)",
        Why::Asleep => "waits on a condition (Steps)",
        Why::HeldBack(_) | Why::Behind(_) | Why::Plain => match made {
            Some(entry) => told_by(entry.word),
            None => "waits on (Steps)",
        },
    }
}

/// Returns the sentence on a seat that the queue holds back. `first` is the queue's head.
fn held_back(alloc: Global, object: Object, seat: u16, first: u16) -> Result<String, AllocError> {
    let policy = match object {
        Object::Lock(policy) | Object::ReadWrite(policy) | Object::Semaphore(policy, _) => policy,
        Object::Latch(_) => Policy::NonFair,
    };
    let (held, asks) = match policy {
        Policy::Fair => ("is held back by a fair queue", ""),
        Policy::Strict => ("is held back by a strict queue", ""),
        Policy::NonFair => (
            "asks to read and is held back by the queue",
            " and asks to write",
        ),
    };
    format!(in alloc;
        "Seat {seat} {held}: seat {first} is first in it{asks} (What a seat could acquire)."
    )
}

/// Returns the sentence about what a seat's step makes.
pub(crate) fn rule_of(
    alloc: Global,
    object: Object,
    seat: u16,
    way: &Way,
) -> Result<String, AllocError> {
    match way.why {
        Why::HeldBack(first) => held_back(alloc, object, seat, first),
        Why::Behind(first) => format!(in alloc;
            "Seat {seat} is not first in the queue, since seat {first} is (Steps)."
        ),
        why => {
            let told = told(why, way.made);
            format!(in alloc; "Seat {seat} {told}.")
        }
    }
}
