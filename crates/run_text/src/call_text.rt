//! The words of a call.

ghost use Rattle.std.specs.Prelude.{◌≡◌, ◌∷◌, ◌++◌, [], OnOk, decimal, slice_get};
ghost use Rattle.run_text.specs.Below.{mode_word, line_of, action_words, named, Acquire, AwaitOn};
ghost use Rattle.run_text.specs.Lines.{call_words, name_by, numbered};

use history::entry::Mode;
use history::header::Header;
use history::number::put_number;
use indexmap::IndexMap;
use monitor::How;
use script::{Action, Call};
use std::alloc::AllocError;

/// Appends words and a number.
pub(crate) fn put(out: &mut Vec<u8>, words: &[u8], number: u64) -> Result<(), AllocError>
    ensures { OnOk result (out.new.items ≡ out.old.items ++ numbered words.now number) }
{
    out.extend_from_slice(words)?;
    put_number(out, number)?;
    Ok(())
}

/// Appends a word, a mode and an amount.
fn put_asked(out: &mut Vec<u8>, word: &[u8], mode: Mode, n: u32) -> Result<(), AllocError>
    ensures { OnOk result (out.new.items
        ≡ out.old.items ++ line_of (word.now ∷ mode_word mode ∷ decimal n ∷ [])) }
{
    out.extend_from_slice(word)?;
    match mode {
        Mode::X => put(out, b" x ", u64::from(n)),
        Mode::S => put(out, b" s ", u64::from(n)),
    }
}

/// Appends the words of an acquire.
fn put_acquire(out: &mut Vec<u8>, mode: Mode, n: u32, how: How) -> Result<(), AllocError>
    ensures { OnOk result (out.new.items
        ≡ out.old.items ++ line_of (action_words (Acquire mode n how))) }
{
    match how {
        How::Plain => put_asked(out, b"acquire", mode, n),
        How::Interruptible => put_asked(out, b"acquire-interruptible", mode, n),
        How::Timed(ms) => {
            put_asked(out, b"acquire-timed", mode, n)?;
            put(out, b" ", u64::from(ms))
        }
    }
}

/// Appends the words of an await.
fn put_await(out: &mut Vec<u8>, condition: u8, how: How) -> Result<(), AllocError>
    ensures { OnOk result (out.new.items
        ≡ out.old.items ++ line_of (action_words (AwaitOn condition how))) }
{
    match how {
        How::Plain => put(out, b"await ", u64::from(condition)),
        How::Interruptible => put(out, b"await-interruptible ", u64::from(condition)),
        How::Timed(ms) => {
            put(out, b"await-timed ", u64::from(condition))?;
            put(out, b" ", u64::from(ms))
        }
    }
}

/// Appends the words of a call of an object, without the object's name.
fn put_action(out: &mut Vec<u8>, action: Action) -> Result<(), AllocError>
    ensures { OnOk result (out.new.items ≡ out.old.items ++ line_of (action_words action)) }
{
    match action {
        Action::Acquire(mode, n, how) => put_acquire(out, mode, n, how),
        Action::TryAcquire(mode, n) => put_asked(out, b"try", mode, n),
        Action::Release(mode, n) => put_asked(out, b"give", mode, n),
        Action::AwaitOn(condition, how) => put_await(out, condition, how),
        Action::Signal(condition) => put(out, b"signal ", u64::from(condition)),
        Action::SignalAll(condition) => put(out, b"signalall ", u64::from(condition)),
        Action::Drain => out.extend_from_slice(b"drain"),
        Action::Trim => out.extend_from_slice(b"trim"),
    }
}

/// Appends the name of the object at a place.
pub(crate) fn put_name(
    out: &mut Vec<u8>,
    objects: &IndexMap<String, Header>,
    place: usize,
) -> Result<(), AllocError>
    ensures { OnOk result (out.new.items
        ≡ out.old.items ++ name_by (slice_get (named objects.now.entries) place)) }
{
    match objects.get_index(place) {
        Some((name, _)) => out.extend_from_slice(name.as_bytes()),
        None => Ok(()),
    }
}

/// Appends a call, as a script spells it. On an error only its first bytes may have been appended.
pub fn put_call(
    out: &mut Vec<u8>,
    objects: &IndexMap<String, Header>,
    call: Call,
) -> Result<(), AllocError>
    ensures { OnOk result (out.new.items
        ≡ out.old.items ++ line_of (call_words (named objects.now.entries) call)) }
{
    match call {
        Call::On(place, action) => {
            put_name(out, objects, place)?;
            out.extend_from_slice(b" ")?;
            put_action(out, action)
        }
        Call::Interrupt(thread) => put(out, b"interrupt ", u64::from(thread)),
    }
}
