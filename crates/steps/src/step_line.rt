//! A line of a steps text.

ghost use Rattle.std.specs.Prelude.{◌≡◌, ◌≢◌, [], ◌∷◌, ◌<◌, ◌≤◌, ◌^◌, ◌++◌, ℕ, decimal, IfSome, IfNone};
ghost use Rattle.history.specs.EntryWords.{mode_word};
ghost use Rattle.history.specs.Reading.{with_rest, Words};
ghost use Rattle.history.specs.declared.step.Step.{Step};
ghost use Rattle.steps.specs.StepLines.{step_words, step_line, IsStep, HasAmounts};
ghost use Rattle.steps.specs.StepReading.{asked_at, condition_at, alone_at, unasked_at, step_at, line_at};

use history::entry::Mode;
use history::step::Step;
use history::words::Words;

/// Takes a mode and an amount, if they come next.
#[tactic(auto, unfolding(crate::specs::StepReading::asked_at))]
#[inline(always)]
pub fn asked(words: &mut Words<'_>) -> Option<(Mode, u32)>
    ensures is { with_rest result words.new ≡ asked_at words.old }
    ensures found { IfSome result (λ a. (words.old ≡ mode_word a.0 ∷ decimal a.1 ∷ words.new)
        × (a.1 < 2 ^ 32)) }
{
    let mode = words.mode()?;
    let n = words.number(0, 4_294_967_295)?;
    Some((mode, n as u32))
}

/// Takes the number of a condition, if one comes next.
#[tactic(auto, unfolding(crate::specs::StepReading::condition_at))]
#[inline(always)]
pub fn condition(words: &mut Words<'_>) -> Option<u8>
    ensures is { with_rest result words.new ≡ condition_at words.old }
    ensures found { IfSome result (λ c. (words.old ≡ decimal c ∷ words.new) × (c < 2 ^ 8)) }
{
    Some(words.number(0, 255)? as u8)
}

/// Returns the step that is spelt by its name alone.
#[tactic(auto, unfolding(crate::specs::StepReading::alone_at))]
#[inline(always)]
fn alone(name: &[u8]) -> Option<Step>
    ensures is { (ws : Words) → with_rest result ws ≡ alone_at name.now ws }
    ensures found { IfSome result (λ s. HasAmounts s × (step_words s ≡ name.now ∷ [])) }
{
    if name == b"look".as_slice() {
        Some(Step::Look)
    } else if name == b"expire".as_slice() {
        Some(Step::Expire)
    } else if name == b"interrupt".as_slice() {
        Some(Step::Interrupt)
    } else if name == b"drain".as_slice() {
        Some(Step::Drain)
    } else {
        None
    }
}

/// Reads the rest of a step without an amount: one of a condition, or one that its name alone spells.
#[tactic(auto, unfolding(crate::specs::StepReading::unasked_at))]
#[inline(always)]
fn unasked(name: &[u8], words: &mut Words<'_>) -> Option<Step>
    ensures is { with_rest result words.new ≡ unasked_at name.now words.old }
    ensures found { IfSome result (λ s. HasAmounts s × (name.now ∷ words.old ≡ step_words s ++ words.new)) }
{
    if name == b"await".as_slice() {
        Some(Step::Await(condition(words)?))
    } else if name == b"signal".as_slice() {
        Some(Step::Signal(condition(words)?))
    } else if name == b"signalall".as_slice() {
        Some(Step::SignalAll(condition(words)?))
    } else {
        alone(name)
    }
}

/// Reads a step.
#[tactic(auto, unfolding(crate::specs::StepReading::step_at))]
#[inline(always)]
fn step(words: &mut Words<'_>) -> Option<Step>
    ensures is { with_rest result words.new ≡ step_at words.old }
    ensures found { IfSome result (λ s. HasAmounts s × (words.old ≡ step_words s ++ words.new)) }
{
    let name = words.next()?;
    if name == b"acquire".as_slice() {
        let (mode, n) = asked(words)?;
        Some(Step::Acquire(mode, n))
    } else if name == b"try".as_slice() {
        let (mode, n) = asked(words)?;
        Some(Step::Try(mode, n))
    } else if name == b"tryfair".as_slice() {
        let (mode, n) = asked(words)?;
        Some(Step::TryFair(mode, n))
    } else if name == b"entryinterrupt".as_slice() {
        let (mode, n) = asked(words)?;
        Some(Step::EntryInterrupt(mode, n))
    } else if name == b"give".as_slice() {
        let (mode, n) = asked(words)?;
        Some(Step::Give(mode, n))
    } else {
        unasked(name, words)
    }
}

#[inline(always)]
fn seat_and_step(words: &mut Words<'_>, seats: u16) -> Option<(u16, Step)>
    requires { 1 ≤ seats }
    ensures is { with_rest result words.new ≡ line_at seats words.old }
    ensures found { IfSome result (λ s. IsStep seats s
        × (words.old ≡ (decimal s.0 ∷ step_words s.1) ++ words.new)) }
{
    let seat = words.number(0, u64::from(seats - 1))?;
    let step = step(words)?;
    Some((seat as u16, step))
}

/// Returns the seat and the step that a line spells, for an object with `seats` seats.
#[inline(always)]
pub fn step_of(line: &[u8], seats: u16) -> Option<(u16, Step)>
    requires { 1 ≤ seats }
    ensures found { IfSome result (λ s. IsStep seats s × (line.now ≡ step_line s)) }
    ensures none { IfNone result ((s : ℕ × Step) → IsStep seats s → line.now ≢ step_line s) }
{
    let mut words = Words::of(line);
    let asked = seat_and_step(&mut words, seats)?;
    match words.next() {
        None => Some(asked),
        Some(_) => None,
    }
}
