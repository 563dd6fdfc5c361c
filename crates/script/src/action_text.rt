//! The words of a call of an object, after the object's name.

ghost use Rattle.std.specs.Prelude.{◌≡◌, [], ◌∷◌, ◌++◌, ◌<◌, ◌^◌, ℕ, decimal, codes, IfSome};
ghost use Rattle.history.specs.EntryWords.{mode_word};
ghost use Rattle.history.specs.Reading.{with_rest};
ghost use Rattle.history.specs.Text.{line_of};
ghost use Rattle.monitor.specs.declared.how.How.TheVariants.{Timed};
ghost use Rattle.script.specs.declared.action.Action.{Action};
ghost use Rattle.script.specs.declared.action.Action.TheVariants.{Acquire, AwaitOn};
ghost use Rattle.script.specs.inner.CallReading.{timed_at, timed_acquire_at, timed_await_at, waiting_at, action_at};
ghost use Rattle.script.specs.CallText.{action_words, HasAmounts};

use crate::action::Action;
use crate::limits::MOST_MILLISECONDS;
use history::words::Words;
use monitor::How;
use steps::{asked, condition};

/// Reads milliseconds.
#[tactic(auto, unfolding(crate::specs::inner::CallReading::timed_at))]
fn timed(words: &mut Words<'_>) -> Option<How>
    ensures is { with_rest result words.new ≡ timed_at words.old }
    ensures found { IfSome result (λ how. (ms : ℕ) × (how ≡ Timed ms) × (ms < 2 ^ 32)
        × (words.old ≡ decimal ms ∷ words.new)) }
{
    Some(How::Timed(words.number(0, MOST_MILLISECONDS)? as u32))
}

/// Reads a mode, an amount and milliseconds.
#[tactic(auto, unfolding(crate::specs::inner::CallReading::timed_acquire_at))]
fn timed_acquire(words: &mut Words<'_>) -> Option<Action>
    ensures is { with_rest result words.new ≡ timed_acquire_at words.old }
    ensures found { IfSome result (λ a. HasAmounts a
        × (codes "acquire-timed" ∷ words.old ≡ action_words a ++ words.new)) }
{
    let (mode, n) = asked(words)?;
    Some(Action::Acquire(mode, n, timed(words)?))
}

/// Reads a condition and milliseconds.
#[tactic(auto, unfolding(crate::specs::inner::CallReading::timed_await_at))]
fn timed_await(words: &mut Words<'_>) -> Option<Action>
    ensures is { with_rest result words.new ≡ timed_await_at words.old }
    ensures found { IfSome result (λ a. HasAmounts a
        × (codes "await-timed" ∷ words.old ≡ action_words a ++ words.new)) }
{
    let condition = condition(words)?;
    Some(Action::AwaitOn(condition, timed(words)?))
}

/// Reads the rest of a call without an amount, by its name: one of a condition, or of none.
#[tactic(auto, unfolding(crate::specs::inner::CallReading::waiting_at))]
fn waiting(name: &[u8], words: &mut Words<'_>) -> Option<Action>
    ensures is { with_rest result words.new ≡ waiting_at name.now words.old }
    ensures found { IfSome result (λ a. HasAmounts a × (name.now ∷ words.old ≡ action_words a ++ words.new)) }
{
    if name == b"await".as_slice() {
        Some(Action::AwaitOn(condition(words)?, How::Plain))
    } else if name == b"await-interruptible".as_slice() {
        Some(Action::AwaitOn(condition(words)?, How::Interruptible))
    } else if name == b"await-timed".as_slice() {
        timed_await(words)
    } else if name == b"signal".as_slice() {
        Some(Action::Signal(condition(words)?))
    } else if name == b"signalall".as_slice() {
        Some(Action::SignalAll(condition(words)?))
    } else if name == b"drain".as_slice() {
        Some(Action::Drain)
    } else if name == b"trim".as_slice() {
        Some(Action::Trim)
    } else {
        None
    }
}

/// Reads a call of an object.
#[tactic(auto, unfolding(crate::specs::inner::CallReading::action_at))]
pub(crate) fn action(words: &mut Words<'_>) -> Option<Action>
    ensures is { with_rest result words.new ≡ action_at words.old }
    ensures found { IfSome result (λ a. HasAmounts a × (words.old ≡ action_words a ++ words.new)) }
{
    let name = words.next()?;
    if name == b"acquire".as_slice() {
        let (mode, n) = asked(words)?;
        Some(Action::Acquire(mode, n, How::Plain))
    } else if name == b"acquire-interruptible".as_slice() {
        let (mode, n) = asked(words)?;
        Some(Action::Acquire(mode, n, How::Interruptible))
    } else if name == b"acquire-timed".as_slice() {
        timed_acquire(words)
    } else if name == b"try".as_slice() {
        let (mode, n) = asked(words)?;
        Some(Action::TryAcquire(mode, n))
    } else if name == b"give".as_slice() {
        let (mode, n) = asked(words)?;
        Some(Action::Release(mode, n))
    } else {
        waiting(name, words)
    }
}
