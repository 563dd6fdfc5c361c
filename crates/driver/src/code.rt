//! The line of an answer in three bytes.

ghost use Rattle.std.specs.Prelude.{◌≡◌, ◌+◌, ◌<◌, [], get_or, IfSome, Ok, None};
ghost use Rattle.history.specs.declared.entry.Mode.TheVariants as mode;
ghost use Rattle.history.specs.declared.step.Answer.TheVariants.{Recorded};
ghost use Rattle.history.specs.Fault.{fault_name};
ghost use Rattle.driver.specs.inner.Codes.{IsCodeOf, IsKindOf, answer_words, end_part, ending, entries_in, entry_part, kept_in, rows};

use history::entry::{End, Entry, Mode, Word};
use history::fault::Fault;
use history::step::Answer;

/// The words of each kind: of entries in X, of the same in S, of a sleep and of faults.
pub(crate) const WORDS: [&[u8]; 23] = [
    b"got x 1",
    b"trygot x 1",
    b"queued x 1",
    b"granted x 1",
    b"missed x 1",
    b"gave x 1",
    b"left x 1 timeout",
    b"left x 1 interrupt",
    b"refused x 1 NotOwner",
    b"got s 1",
    b"trygot s 1",
    b"queued s 1",
    b"granted s 1",
    b"missed s 1",
    b"gave s 1",
    b"left s 1 timeout",
    b"left s 1 interrupt",
    b"refused s 1 NotOwner",
    b"sleep",
    b"OutOfPhase",
    b"NoSuchCondition",
    b"BadAmount",
    b"WrongMode",
];

/// The kind of a sleep. The kinds of entries are below.
pub(crate) const SLEEP: u8 = 18;
/// The kind of a line that is kept whole. All below have words.
pub(crate) const WHOLE: u8 = 23;
/// The kind of an entry's line that is kept whole.
pub(crate) const WHOLE_ENTRY: u8 = 24;
/// Nobody is named.
const NOBODY: u16 = 255;

/// A line in three bytes: whose it is, its kind, and whom it names. One that is kept whole has its length in
/// place of a seat.
#[derive(Clone, Copy, Debug)]
pub(crate) struct Code {
    pub(crate) seat: u8,
    pub(crate) kind: u8,
    pub(crate) named: u8,
}

/// Returns the kind in X of an entry's word with its end, for 1 and on no condition.
#[inline(always)]
fn word_kind(said: Word, ended: End) -> u8
    ensures { result < 9 → (get_or rows result [] ≡ entry_part mode.X said ended)
        × (get_or rows (result + 9) [] ≡ entry_part mode.S said ended) }
{
    match (said, ended) {
        (Word::Got, End::None) => 0,
        (Word::TryGot, End::None) => 1,
        (Word::Queued, End::None) => 2,
        (Word::Granted, End::None) => 3,
        (Word::Missed, End::None) => 4,
        (Word::Gave, End::None) => 5,
        (Word::Left, End::Timeout) => 6,
        (Word::Left, End::Interrupt) => 7,
        (Word::Refused(Fault::NotOwner), End::None) => 8,
        _ => WHOLE,
    }
}

/// Returns the kind of an entry.
#[inline(always)]
fn entry_kind(entry: &Entry) -> u8
    ensures { result < WHOLE → (result < 18)
        × (get_or rows result [] ≡ answer_words (Ok (Recorded entry.now None))) }
{
    if entry.n != 1 || entry.at != 0 {
        return WHOLE;
    }
    let kind = word_kind(entry.word, entry.end);
    if 9 <= kind {
        return WHOLE;
    }
    match entry.mode {
        Mode::X => kind,
        Mode::S => kind + 9,
    }
}

/// Returns the kind of a fault.
#[inline(always)]
fn fault_kind(fault: Fault) -> u8
    ensures { result < WHOLE → (18 < result) × (get_or rows result [] ≡ fault_name fault) }
{
    match fault {
        Fault::OutOfPhase => 19,
        Fault::NoSuchCondition => 20,
        Fault::BadAmount => 21,
        Fault::WrongMode => 22,
        _ => WHOLE,
    }
}

/// Returns the kind of an answer to a seat's step.
#[inline(always)]
fn kind_of(seat: u16, answer: &Result<Answer, Fault>) -> u8
    ensures { result < WHOLE → IsKindOf result seat answer.now }
{
    match answer {
        Ok(Answer::Recorded(entry, _)) if entry.seat == seat => entry_kind(entry),
        Ok(Answer::Recorded(_, _)) => WHOLE,
        Ok(Answer::Sleep) => SLEEP,
        Err(fault) => fault_kind(*fault),
    }
}

/// Returns whom an answer names, if anybody. A waiter that a byte can't name has a greater number.
#[inline(always)]
fn named_by(answer: &Result<Answer, Fault>) -> u16
    ensures { result < 256 → end_part result ≡ ending answer.now }
{
    match answer {
        Ok(Answer::Recorded(_, Some(waiter))) if *waiter < NOBODY => *waiter,
        Ok(Answer::Recorded(_, Some(_))) => 256,
        _ => NOBODY,
    }
}

impl Code {
    /// Returns the code of the answer to a seat's step, if it has one.
    #[inline(always)]
    pub(crate) fn of(seat: u16, answer: &Result<Answer, Fault>) -> Option<Code>
        ensures { IfSome result (λ code. IsCodeOf code seat answer.now) }
    {
        if 256 <= seat {
            return None;
        }
        let kind = kind_of(seat, answer);
        let named = named_by(answer);
        if 256 <= named || WHOLE <= kind {
            return None;
        }
        Some(Code {
            seat: seat as u8,
            kind,
            named: named as u8,
        })
    }

    /// Returns how many entries were added.
    #[inline(always)]
    pub(crate) fn entries(&self) -> u64
        ensures { result ≡ entries_in self.now }
    {
        u64::from(self.kind < SLEEP || self.kind == WHOLE_ENTRY)
    }

    /// Returns how many bytes of a line that is kept whole it stands for.
    #[inline(always)]
    pub(crate) fn kept(&self) -> usize
        ensures { result ≡ kept_in self.now }
    {
        if self.kind < WHOLE {
            0
        } else {
            self.seat as usize
        }
    }
}
