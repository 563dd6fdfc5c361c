//! Reading the most frequent lines of a steps text without cutting them into words.

ghost use Rattle.std.specs.Prelude.{◌≡◌, ◌++◌, length, List, ℕ, IfSome};
ghost use Rattle.history.specs.Text.{ended};
ghost use Rattle.history.specs.declared.step.Step.{Step};
ghost use Rattle.steps.specs.CommonSteps.{step_of, stepped};
ghost use Rattle.steps.specs.StepLines.{IsStep, step_line};
ghost use Rattle.steps.specs.inner.StepLines.{BeginsWith};

use history::entry::Mode;
use history::step::Step;
use history::text::behind;
use streams::at_once::{behind_byte, behind_four};
use streams::seat::seat_of;

/// A step whose line is read at once. It asks for 1, if it asks for an amount.
///
/// It is a number in a register, while a [`Step`] is four bytes or more of memory.
#[derive(Clone, Copy, Debug, PartialEq, Eq)]
pub enum Common {
    Acquire,
    AcquireShared,
    Give,
    GiveShared,
    Look,
    Try,
    TryFair,
    EntryInterrupt,
    Expire,
    Interrupt,
}

impl Common {
    /// Returns the step.
    #[inline(always)]
    pub fn step(self) -> Step
        ensures { result ≡ step_of self }
    {
        match self {
            Common::Acquire => Step::Acquire(Mode::X, 1),
            Common::AcquireShared => Step::Acquire(Mode::S, 1),
            Common::Give => Step::Give(Mode::X, 1),
            Common::GiveShared => Step::Give(Mode::S, 1),
            Common::Look => Step::Look,
            Common::Try => Step::Try(Mode::X, 1),
            Common::TryFair => Step::TryFair(Mode::X, 1),
            Common::EntryInterrupt => Step::EntryInterrupt(Mode::X, 1),
            Common::Expire => Step::Expire,
            Common::Interrupt => Step::Interrupt,
        }
    }
}

/// Reads an acquire of 1 in X.
#[inline(always)]
fn acquire(text: &[u8]) -> Option<(Common, usize)>
    ensures { IfSome result (BeginsWith text.now) }
{
    // One test of the length instead of three.
    if text.len() < 12 {
        return None;
    }
    let name_end = behind_four(*b"acqu", text)?;
    let asked = behind_four(*b"ire ", name_end)?;
    let rest = behind_four(*b"x 1\n", asked)?;
    Some((Common::Acquire, rest.len()))
}

/// Reads a release of 1 in X.
#[inline(always)]
fn give(text: &[u8]) -> Option<(Common, usize)>
    ensures { IfSome result (BeginsWith text.now) }
{
    if text.len() < 9 {
        return None;
    }
    let name_end = behind_four(*b"give", text)?;
    let asked = behind_byte(b' ', name_end)?;
    let rest = behind_four(*b"x 1\n", asked)?;
    Some((Common::Give, rest.len()))
}

/// Reads an acquire or a release of 1 in S.
#[inline(always)]
fn shared(text: &[u8]) -> Option<(Common, usize)>
    ensures { IfSome result (BeginsWith text.now) }
{
    match behind(b"acquire s 1\n", text) {
        Some(rest) => Some((Common::AcquireShared, rest.len())),
        None => Some((Common::GiveShared, behind(b"give s 1\n", text)?.len())),
    }
}

/// Reads a retry.
#[inline(always)]
fn look(text: &[u8]) -> Option<(Common, usize)>
    ensures { IfSome result (BeginsWith text.now) }
{
    let name_end = behind_four(*b"look", text)?;
    let rest = behind_byte(b'\n', name_end)?;
    Some((Common::Look, rest.len()))
}

/// Reads a try of X: one that doesn't barge, or one that may.
#[inline(always)]
fn tries(text: &[u8]) -> Option<(Common, usize)>
    ensures { IfSome result (BeginsWith text.now) }
{
    match behind(b"try x 1\n", text) {
        Some(rest) => Some((Common::Try, rest.len())),
        None => Some((Common::TryFair, behind(b"tryfair x 1\n", text)?.len())),
    }
}

/// Reads a timeout, an interrupt, or an acquire with an interrupt pending.
#[inline(always)]
fn ends_wait(text: &[u8]) -> Option<(Common, usize)>
    ensures { IfSome result (BeginsWith text.now) }
{
    if let Some(rest) = behind(b"expire\n", text) {
        return Some((Common::Expire, rest.len()));
    }
    match behind(b"interrupt\n", text) {
        Some(rest) => Some((Common::Interrupt, rest.len())),
        None => Some((
            Common::EntryInterrupt,
            behind(b"entryinterrupt x 1\n", text)?.len(),
        )),
    }
}

/// Returns the step whose words and line break begin the text, if it is one of the most frequent, and how
/// many bytes follow.
#[inline(always)]
fn common_words(text: &[u8]) -> Option<(Common, usize)>
    ensures { IfSome result (BeginsWith text.now) }
{
    if let Some(found) = acquire(text) {
        return Some(found);
    }
    if let Some(found) = give(text) {
        return Some(found);
    }
    if let Some(found) = look(text) {
        return Some(found);
    }
    match text.first()? {
        b'a' | b'g' => shared(text),
        b't' => tries(text),
        b'e' | b'i' => ends_wait(text),
        _ => None,
    }
}

/// Returns the seat and the step whose line begins the text, if it is one of the most frequent, and how many
/// bytes follow.
///
/// All of it is numbers, which stay in registers.
#[inline(always)]
pub fn common_step(text: &[u8], seats: u16) -> Option<((u16, Common), usize)>
    ensures { IfSome result (λ r. IsStep seats (stepped r.0) × ((rest : List ℕ) ×
        (text.now ≡ ended (step_line (stepped r.0)) ++ rest) × (length rest ≡ r.1))) }
{
    let (seat, at) = seat_of(text)?;
    if u64::from(seats) <= seat {
        return None;
    }
    let (common, left) = common_words(&text[at..])?;
    Some(((seat as u16, common), left))
}
