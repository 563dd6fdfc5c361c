//! The words of entries and steps.

use history::entry::{Entry, Mode};
use history::step::Step;
use std::alloc::{AllocError, Global};

/// Appends the words of an entry, as a history text spells them. Of an entry that no history text has it
/// appends nothing.
pub fn put_entry(out: &mut Vec<u8>, entry: Entry) -> Result<(), AllocError> {
    if !entry.is_spelt() {
        return Ok(());
    }
    match entry.write_words(out) {
        Ok(()) => Ok(()),
        Err(_) => Err(AllocError),
    }
}

/// Returns the words of an entry.
pub(crate) fn entry_words(alloc: Global, entry: Entry) -> Result<String, AllocError> {
    let mut words = Vec::new(alloc);
    put_entry(&mut words, entry)?;
    String::from_utf8_lossy(alloc, &words)
}

/// Returns the words of a call that asks for an amount in a mode.
fn call_words(alloc: Global, name: &str, mode: Mode, n: u32) -> Result<String, AllocError> {
    match mode {
        Mode::X => format!(in alloc; "{name} x {n}"),
        Mode::S => format!(in alloc; "{name} s {n}"),
    }
}

/// Returns the words of a step, as a steps text spells them.
pub(crate) fn step_words(alloc: Global, step: Step) -> Result<String, AllocError> {
    match step {
        Step::Acquire(mode, n) => call_words(alloc, "acquire", mode, n),
        Step::Try(mode, n) => call_words(alloc, "try", mode, n),
        Step::TryFair(mode, n) => call_words(alloc, "tryfair", mode, n),
        Step::EntryInterrupt(mode, n) => call_words(alloc, "entryinterrupt", mode, n),
        Step::Give(mode, n) => call_words(alloc, "give", mode, n),
        Step::Await(condition) => format!(in alloc; "await {condition}"),
        Step::Signal(condition) => format!(in alloc; "signal {condition}"),
        Step::SignalAll(condition) => format!(in alloc; "signalall {condition}"),
        Step::Look => format!(in alloc; "look"),
        Step::Expire => format!(in alloc; "expire"),
        Step::Interrupt => format!(in alloc; "interrupt"),
        Step::Drain => format!(in alloc; "drain"),
    }
}
