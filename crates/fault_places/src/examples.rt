//! Examples of right lines, and what is expected where a line is wrong.

use crate::reader::{Ahead, Reader};
use crate::report::Kind;
use history_text::place::Place;
use std::alloc::{AllocError, Global};

/// Returns an object of each kind whose words differ, after these bytes.
fn objects(alloc: Global, front: &str, seats: u64) -> Result<String, AllocError> {
    format!(in alloc;
        "{front}lock fair seats {seats} conditions 1 cap 16\n\
         {front}semaphore fair seats {seats} permits 1 cap 16\n\
         {front}latch seats {seats} count 1 cap 16\n"
    )
}

/// Returns lines of a history text after the seats of its base: an end line, entries of seat 0, and if the line
/// may be that of a waiter, waiters of all seats.
fn of_history(
    alloc: Global,
    ahead: &Ahead<'_>,
    place: Place,
    line: &[u8],
) -> Result<String, AllocError> {
    let (number, calls) = (place.folded.saturating_add(place.count), place.calls);
    let mut lines = format!(in alloc;
        "{number} 0 got x 1\n{number} 0 left x 1 timeout\n{number} 0 refused x 1 NotOwner\n\
         {number} 0 await 1 1\n{number} 0 lapse 1 timeout\n{number} 0 back 1 1 signalled\n\
         {number} 0 counted s 1\n{number} 0 drained s 1\nend {number} {calls}\n"
    )?;
    if ahead.is_in_base() && (line.starts_with(b"line") || line.starts_with(b"sleeper")) {
        let last = ahead.head.header.conditions.saturating_sub(1);
        for seat in 0..ahead.head.header.seats {
            lines.push_str(&format!(in alloc;
                "line {seat} queued x 1\nline {seat} queued s 1\nline {seat} back 0 1 signalled\n\
                 sleeper {last} {seat} 1\n"
            )?)?;
        }
    }
    Ok(lines)
}

/// Returns lines of which some are right at the place of this one.
pub(crate) fn examples_of(
    alloc: Global,
    reader: &Reader<'_>,
    line: &[u8],
) -> Result<String, AllocError> {
    match reader {
        Reader::Head(Kind::History) => objects(alloc, "aqs-history 1 ", 1),
        Reader::Head(_) => objects(alloc, "aqs-steps 1 ", 1),
        Reader::Act(_, count) => {
            format!(in alloc; "0 acquire x 1\n0 await 1\n0 look\ntrim\nend {count}\n")
        }
        Reader::Line(ahead) => match ahead.place {
            Some(place) => of_history(alloc, ahead, place, line),
            None => format!(in alloc;
                "base 1\nbase 1 unheld 1\nbase 1 count 1\nseat {} calls 0 x 0 s 0\n",
                ahead.number.saturating_sub(3)
            ),
        },
        Reader::Object(threads) => objects(alloc, "", *threads),
        Reader::Call(calls) => {
            let (name, last) = (calls.name(0), calls.threads.saturating_sub(1));
            format!(in alloc;
                "{name} acquire x 1\n{name} acquire-timed x 1 1\n{name} await 1\n{name} await-timed 1 1\n\
                 {name} drain\ninterrupt {last}\n"
            )
        }
        Reader::End => Ok(String::new(alloc)),
    }
}

/// Returns what is expected where a reader refuses a line.
pub(crate) fn expected(reader: &Reader<'_>) -> &'static str {
    match reader {
        Reader::Head(Kind::Steps) =>
            "aqs-steps 1 or 2, and an object: lock, rw, semaphore or latch",
        Reader::Head(Kind::History) =>
            "aqs-history 1 or 2, and an object: lock, rw, semaphore or latch",
        Reader::Head(_) => "the first line of a steps text or of a history text, or a script",
        Reader::Act(_, _) => {
            "a step (acquire, try, tryfair, entryinterrupt, give, await, signal, signalall, look, expire, \
             interrupt, drain), trim or end"
        }
        Reader::Line(ahead) if ahead.place.is_none() => "base, or the line of the next seat",
        Reader::Line(ahead) if ahead.is_in_base() => "a waiter (line, sleeper), an entry or end",
        Reader::Line(_) => {
            "an entry (got, trygot, queued, granted, missed, gave, left, refused, await, signal, signalall, \
             lapse, back, counted, drained) or end"
        }
        Reader::Object(_) => "an object: lock, rw, semaphore or latch, with a seat for each thread",
        Reader::Call(_) => {
            "an object and a call (acquire, acquire-interruptible, acquire-timed, try, give, await, \
             await-interruptible, await-timed, signal, signalall, drain, trim), or interrupt and a thread"
        }
        Reader::End => "the end of the text",
    }
}
