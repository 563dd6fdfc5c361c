//! Tests on the word and the end of an entry.

ghost use Rattle.std.specs.Prelude.{◌≡◌};
ghost use Rattle.history.specs.Entry.{ends_call};
ghost use Rattle.summing.specs.Counting.{is_await, is_broken_off, is_grant, is_interrupt, is_interrupted, is_queued, is_refused_by_interrupt, is_signal, is_take, is_timeout, moves_nobody, times_out};

use history::entry::{End, Entry, Word};
use history::fault::Fault;

/// Returns whether a call ends by an entry of this word.
pub(crate) fn ends_call(word: Word) -> bool
    ensures { result ≡ ends_call word }
{
    match word {
        Word::Queued | Word::Await | Word::Lapse => false,
        _ => true,
    }
}

/// Returns whether an acquire took at once.
pub fn is_take(word: Word) -> bool
    ensures { result ≡ is_take word }
{
    matches!(word, Word::Got | Word::TryGot)
}

/// Returns whether an acquire began to wait in the queue.
pub fn is_queued(word: Word) -> bool
    ensures { result ≡ is_queued word }
{
    matches!(word, Word::Queued)
}

/// Returns whether the object was handed over to an acquire that waited.
pub(crate) fn is_grant(word: Word) -> bool
    ensures { result ≡ is_grant word }
{
    matches!(word, Word::Granted)
}

/// Returns whether a wait on a condition began.
pub(crate) fn is_await(word: Word) -> bool
    ensures { result ≡ is_await word }
{
    matches!(word, Word::Await)
}

/// Returns whether one waiter of a condition was signalled, or all.
pub fn is_signal(word: Word) -> bool
    ensures { result ≡ is_signal word }
{
    matches!(word, Word::Signal | Word::SignalAll)
}

fn is_timeout(end: End) -> bool
    ensures { result ≡ is_timeout end }
{
    matches!(end, End::Timeout)
}

fn is_interrupt(end: End) -> bool
    ensures { result ≡ is_interrupt end }
{
    matches!(end, End::Interrupt)
}

fn is_interrupted(fault: Fault) -> bool
    ensures { result ≡ is_interrupted fault }
{
    matches!(fault, Fault::Interrupted)
}

fn is_refused_by_interrupt(word: Word) -> bool
    ensures { result ≡ is_refused_by_interrupt word }
{
    match word {
        Word::Refused(fault) => is_interrupted(fault),
        _ => false,
    }
}

/// Returns whether a call ended by a timeout.
pub(crate) fn times_out(entry: Entry) -> bool
    ensures { result ≡ times_out entry }
{
    ends_call(entry.word) && is_timeout(entry.end)
}

/// Returns whether a call ended by an interrupt.
pub(crate) fn is_broken_off(entry: Entry) -> bool
    ensures { result ≡ is_broken_off entry }
{
    ends_call(entry.word) && (is_interrupt(entry.end) || is_refused_by_interrupt(entry.word))
}

/// Returns whether a signal found no waiter.
pub(crate) fn moves_nobody(entry: Entry) -> bool
    ensures { result ≡ moves_nobody entry }
{
    is_signal(entry.word) && entry.n == 0
}
