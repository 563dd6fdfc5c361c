//! Reading a line of a base.

ghost use Rattle.std.specs.Prelude.{◌≡◌, ◌≢◌, ◌≤◌, ◌∷◌, ◌++◌, codes, decimal, IfSome, IfNone};
ghost use Rattle.history.specs.declared.limits.TheConstants.{MOST_FOLDED};
ghost use Rattle.history.specs.Reading.{with_rest};
ghost use Rattle.history_text.specs.declared.base_line.BaseLine.{BaseLine};
ghost use Rattle.history_text.specs.BaseLineLimits.{IsBaseLine};
ghost use Rattle.history_text.specs.BaseLines.{base_line, base_words};
ghost use Rattle.history_text.specs.BaseReading.{base_line_at, beside_at, folded_at};
ghost use Rattle.history_text.specs.BaseReading.{has_at, sleeps_at, standing_of, stands_at};

use crate::base_line::{BaseLine, LAST_SEAT};
use history::arrival::Arrival;
use history::base::{LinePlace, SeatBase, Sleeper};
use history::entry::{End, Entry, Mode, Word};
use history::limits::{LAST_CONDITION, MOST_AMOUNT, MOST_BASE_PERMITS, MOST_FOLDED, MOST_HOLDS};
use history::words::Words;

/// Reads what follows the number of folded entries.
#[tactic(auto, unfolding(crate::specs::BaseReading::beside_at))]
fn beside(words: &mut Words<'_>, entries: u128) -> Option<BaseLine>
    requires { (1 ≤ entries) × (entries ≤ MOST_FOLDED) }
    ensures is { with_rest result words.new ≡ beside_at entries words.old }
    ensures found { IfSome result (λ x. IsBaseLine x
        × (codes "base" ∷ decimal entries ∷ words.old ≡ base_words x ++ words.new)) }
{
    let Some(word) = words.next() else {
        return Some(BaseLine::Folded(entries));
    };
    if word == b"unheld".as_slice() {
        let unheld = words.wide(0, MOST_BASE_PERMITS)?;
        Some(BaseLine::Released(entries, unheld))
    } else if word == b"count".as_slice() {
        let count = words.number(0, MOST_AMOUNT as u64)?;
        Some(BaseLine::CountedDown(entries, count as u32))
    } else {
        None
    }
}

#[tactic(auto, unfolding(crate::specs::BaseReading::folded_at))]
fn folded(words: &mut Words<'_>) -> Option<BaseLine>
    ensures is { with_rest result words.new ≡ folded_at words.old }
    ensures found { IfSome result (λ x.
        IsBaseLine x × (codes "base" ∷ words.old ≡ base_words x ++ words.new)) }
{
    let entries = words.wide(1, MOST_FOLDED)?;
    beside(words, entries)
}

#[tactic(auto, unfolding(crate::specs::BaseReading::has_at))]
fn has(words: &mut Words<'_>) -> Option<BaseLine>
    ensures is { with_rest result words.new ≡ has_at words.old }
    ensures found { IfSome result (λ x.
        IsBaseLine x × (codes "seat" ∷ words.old ≡ base_words x ++ words.new)) }
{
    let seat = words.number(0, LAST_SEAT as u64)?;
    words.expect(b"calls")?;
    let calls = words.number(0, MOST_FOLDED as u64)?;
    words.expect(b"x")?;
    let exclusive = words.number(0, MOST_HOLDS as u64)?;
    words.expect(b"s")?;
    let shared = words.wide(0, MOST_BASE_PERMITS)?;
    let has = SeatBase {
        calls,
        exclusive: exclusive as u32,
        shared,
    };
    Some(BaseLine::Seat(seat as u16, has))
}

/// Returns the waiter in the queue, from the entry whose words spell what it waits for.
fn standing_of(entry: &Entry) -> Option<LinePlace>
    ensures { result ≡ standing_of entry.now.word entry.now }
{
    match entry.word {
        Word::Queued => Some(LinePlace {
            who: Arrival {
                seat: entry.seat,
                mode: entry.mode,
                n: entry.n,
                back: false,
            },
            condition: 0,
            holds: 0,
            how: End::None,
        }),
        Word::Back => Some(LinePlace {
            who: Arrival {
                seat: entry.seat,
                mode: Mode::X,
                n: 1,
                back: true,
            },
            condition: entry.at,
            holds: entry.n,
            how: entry.end,
        }),
        _ => None,
    }
}

#[tactic(auto, unfolding(crate::specs::BaseReading::stands_at))]
fn stands(words: &mut Words<'_>) -> Option<BaseLine>
    ensures is { with_rest result words.new ≡ stands_at words.old }
    ensures found { IfSome result (λ x.
        IsBaseLine x × (codes "line" ∷ words.old ≡ base_words x ++ words.new)) }
{
    let seat = words.number(0, LAST_SEAT as u64)?;
    let entry = words.entry(seat as u16)?;
    let standing = standing_of(&entry)?;
    Some(BaseLine::Stands(standing))
}

#[tactic(auto, unfolding(crate::specs::BaseReading::sleeps_at))]
fn sleeps(words: &mut Words<'_>) -> Option<BaseLine>
    ensures is { with_rest result words.new ≡ sleeps_at words.old }
    ensures found { IfSome result (λ x. IsBaseLine x
        × (codes "sleeper" ∷ words.old ≡ base_words x ++ words.new)) }
{
    let condition = words.number(0, LAST_CONDITION as u64)?;
    let seat = words.number(0, LAST_SEAT as u64)?;
    let holds = words.number(0, MOST_HOLDS as u64)?;
    let sleeper = Sleeper {
        seat: seat as u16,
        holds: holds as u32,
    };
    Some(BaseLine::Sleeps(condition as u8, sleeper))
}

/// Takes the words of a line of a base, if they come next.
#[tactic(auto, unfolding(crate::specs::BaseReading::base_line_at))]
fn base_line(words: &mut Words<'_>) -> Option<BaseLine>
    ensures is { with_rest result words.new ≡ base_line_at words.old }
    ensures found { IfSome result (λ x. IsBaseLine x × (words.old ≡ base_words x ++ words.new)) }
{
    let name = words.next()?;
    if name == b"base".as_slice() {
        folded(words)
    } else if name == b"seat".as_slice() {
        has(words)
    } else if name == b"line".as_slice() {
        stands(words)
    } else if name == b"sleeper".as_slice() {
        sleeps(words)
    } else {
        None
    }
}

/// Returns the line of a base that these bytes spell.
pub(crate) fn base_line_of(line: &[u8]) -> Option<BaseLine>
    ensures found { IfSome result (λ x. IsBaseLine x × (line.now ≡ base_line x)) }
    ensures none { IfNone result ((x : BaseLine) → IsBaseLine x → line.now ≢ base_line x) }
{
    let mut words = Words::of(line);
    let told = base_line(&mut words)?;
    match words.next() {
        None => Some(told),
        Some(_) => None,
    }
}
