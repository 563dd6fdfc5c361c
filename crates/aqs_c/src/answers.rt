//! Answers as numbers.
ghost use Rattle.std.specs.Prelude.{◌≡◌, false};
ghost use Rattle.history.specs.Fault.{fault_number};
ghost use Rattle.aqs_c.specs.Codes.{IsAnswerOf, IsEntry, IsNamed, IsNextOf, IsParkOf, IsQuiet, done_number, fault_in, word_number};

use history::entry::{Entry, Word};
use history::fault::Fault;
use history::step::Answer;
use monitor::{Contention, Limits, Next, Now, Turn};

/// What a call returns.
///
/// `kind` says what the other numbers are about:
///
/// | kind | | |
/// |---|---|---|
/// | 0 | an entry, which ended the call | `n`, `seat`, `word`, `mode`, `at`, `end`, and `fault` of a refusal |
/// | 1 | the seat waits on | |
/// | 2 | a fault, and nothing was recorded | `fault` |
/// | 3 | another call had the object, and nothing has changed | |
/// | 4 | the numbers of no step, call or park | |
/// | 5 | the pass is empty | |
/// | 6 | there is no such entry | |
/// | 7 | the call waits: its seat parks if `parks`, until `until` if `has_until`, and `interruptible` or not | |
/// | 8 | the seat is in a call that waits | |
/// | 9 | the seat is in no call that waits | |
///
/// If `has_wakes`, the seat `wakes` has to be unparked. If `again`, the seat's interrupt has to be set again.
#[repr(C)]
#[derive(Clone, Copy)]
pub struct AqsAnswer {
    pub until: u64,
    pub n: u32,
    pub seat: u16,
    pub wakes: u16,
    pub kind: u8,
    pub word: u8,
    pub mode: u8,
    pub at: u8,
    pub end: u8,
    pub fault: u8,
    pub has_wakes: bool,
    pub again: bool,
    pub parks: bool,
    pub has_until: bool,
    pub interruptible: bool,
}

/// Whether an object is owned, how many seats are in its queue, and how many wait in all.
#[repr(C)]
#[derive(Clone, Copy)]
pub struct AqsContention {
    pub waiting: u64,
    pub queue_length: u16,
    pub is_held: bool,
}

pub(crate) const ENTRY: u8 = 0;

pub(crate) const SLEEP: u8 = 1;

pub(crate) const FAULT: u8 = 2;

pub(crate) const BUSY: u8 = 3;

pub(crate) const NO_CODE: u8 = 4;

pub(crate) const NO_PASS: u8 = 5;

pub(crate) const NO_ENTRY: u8 = 6;

pub(crate) const WAITS: u8 = 7;

pub(crate) const IN_CALL: u8 = 8;

pub(crate) const IN_NO_CALL: u8 = 9;

pub(crate) const NOT_DONE: u32 = 0;

const DONE: u32 = 1;

const DONE_WAKES: u32 = 2;

/// A step that was done at once, and the seat that it named; or one that wasn't.
#[inline(always)]
pub(crate) fn done_number(done: Option<Option<u16>>) -> u32
    ensures { result ≡ done_number done }
{
    match done {
        None => NOT_DONE,
        Some(None) => DONE,
        Some(Some(seat)) => DONE_WAKES + u32::from(seat),
    }
}

fn word_number(word: Word) -> u8
    ensures { result ≡ word_number word }
{
    match word {
        Word::Got => 0,
        Word::TryGot => 1,
        Word::Queued => 2,
        Word::Granted => 3,
        Word::Missed => 4,
        Word::Left => 5,
        Word::Gave => 6,
        Word::Refused(_) => 7,
        Word::Await => 8,
        Word::Lapse => 9,
        Word::Signal => 10,
        Word::SignalAll => 11,
        Word::Back => 12,
        Word::Counted => 13,
        Word::Drained => 14,
    }
}

// The number of the fault of a refusal, or 0.
fn fault_in(word: Word) -> u8
    ensures { result ≡ fault_in word }
{
    match word {
        Word::Refused(fault) => fault.number(),
        _ => 0,
    }
}

/// An answer that is no entry, and after which nothing has to be done.
pub(crate) fn nothing(kind: u8, fault: u8) -> AqsAnswer
    ensures kind { (result.kind ≡ kind) × (result.fault ≡ fault) }
    ensures quiet { IsQuiet result }
{
    AqsAnswer {
        until: 0,
        n: 0,
        seat: 0,
        wakes: 0,
        kind,
        word: 0,
        mode: 0,
        at: 0,
        end: 0,
        fault,
        has_wakes: false,
        again: false,
        parks: false,
        has_until: false,
        interruptible: false,
    }
}

/// An entry, the seat that it names, and whether an interrupt has to be set again.
pub(crate) fn entry_answer(entry: Entry, named: Option<u16>, again: bool) -> AqsAnswer
    ensures entry { IsEntry entry result }
    ensures named { IsNamed named result }
    ensures again { (result.again ≡ again) × (result.parks ≡ false) }
{
    AqsAnswer {
        until: 0,
        n: entry.n,
        seat: entry.seat,
        wakes: named.unwrap_or(0),
        kind: ENTRY,
        word: word_number(entry.word),
        mode: entry.mode as u8,
        at: entry.at,
        end: entry.end as u8,
        fault: fault_in(entry.word),
        has_wakes: named.is_some(),
        again,
        parks: false,
        has_until: false,
        interruptible: false,
    }
}

/// The answer to a step.
pub(crate) fn answer_of(reply: Result<Now, Fault>) -> AqsAnswer
    ensures { IsAnswerOf reply result }
{
    match reply {
        Ok(Now::Done(Answer::Recorded(entry, named))) => entry_answer(entry, named, false),
        Ok(Now::Done(Answer::Sleep)) => nothing(SLEEP, 0),
        Ok(Now::Busy) => nothing(BUSY, 0),
        Err(fault) => nothing(FAULT, fault.number()),
    }
}

// An answer that says how a call that waits parks, if it parks.
fn park_answer(limits: Option<Limits>) -> AqsAnswer
    ensures kind { (result.kind ≡ 7) × (result.again ≡ false) }
    ensures park { IsParkOf limits result }
{
    let mut answer = nothing(WAITS, 0);
    if let Some(limits) = limits {
        answer.parks = true;
        answer.has_until = limits.until.is_some();
        answer.until = limits.until.unwrap_or(0);
        answer.interruptible = limits.interruptible;
    }
    answer
}

// A call that ended with a fault.
fn fault_answer(fault: Fault, again: bool) -> AqsAnswer
    ensures fault { (result.kind ≡ 2) × (result.fault ≡ fault_number fault) }
    ensures again { result.again ≡ again }
{
    let mut answer = nothing(FAULT, fault.number());
    answer.again = again;
    answer
}

/// The answer to a turn of a call.
pub(crate) fn turn_answer(turn: Turn) -> AqsAnswer
    ensures next { IsNextOf turn.next result }
    ensures named { IsNamed turn.named result }
{
    let mut answer = match turn.next {
        Next::Ends { reply, again } => match reply {
            Ok(entry) => entry_answer(entry, None, again),
            Err(fault) => fault_answer(fault, again),
        },
        Next::Waits(waiting) => park_answer(waiting.limits()),
    };
    answer.has_wakes = turn.named.is_some();
    answer.wakes = turn.named.unwrap_or(0);
    answer
}

/// Whether an object is owned, and how many wait for it.
pub(crate) fn contention_answer(found: Contention) -> AqsContention
    ensures waiting { result.waiting ≡ found.waiting }
    ensures queue { result.queue_length ≡ found.queue_length }
    ensures held { result.is_held ≡ found.is_held }
{
    AqsContention {
        waiting: found.waiting,
        queue_length: found.queue_length,
        is_held: found.is_held,
    }
}
