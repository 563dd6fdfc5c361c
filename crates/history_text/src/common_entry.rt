//! Reading the most frequent lines of entries without cutting them into words.

ghost use Rattle.std.specs.Prelude.{◌≡◌, ◌∷◌, ◌++◌, IfSome};
ghost use Rattle.history.specs.inner.EntryWords.{IsAsked};
ghost use Rattle.history_text.specs.CommonEntry.{IsLineAhead, once};
ghost use Rattle.history_text.specs.inner.CommonEntry.{BeginsWith, asked_name};

use crate::spelt_number::SpeltNumber;
use history::entry::{End, Entry, Mode, Word};
use history::fault::Fault;
use history::text::behind;
use streams::at_once::{behind_byte, behind_four, behind_three};
use streams::once::mode_of_once;
use streams::seat::seat_of;

/// Returns the word that begins the text, and what follows it and a space, if a mode and an amount follow
/// such a word.
#[inline(always)]
fn asked_word(text: &[u8]) -> Option<(Word, &[u8])>
    ensures { IfSome result (λ r. IsAsked r.0 × (text.now ≡ asked_name r.0 ++ 32 ∷ r.1.now)) }
{
    if let Some(rest) = behind_four(*b"gave", text) {
        return Some((Word::Gave, behind_byte(b' ', rest)?));
    }
    if let Some(rest) = behind_four(*b"got ", text) {
        return Some((Word::Got, rest));
    }
    if let Some(rest) = behind_four(*b"gran", text) {
        return Some((Word::Granted, behind_four(*b"ted ", rest)?));
    }
    if let Some(rest) = behind_four(*b"queu", text) {
        return Some((Word::Queued, behind_three(*b"ed ", rest)?));
    }
    if let Some(rest) = behind_four(*b"miss", text) {
        return Some((Word::Missed, behind_three(*b"ed ", rest)?));
    }
    let rest = behind_four(*b"tryg", text)?;
    Some((Word::TryGot, behind_three(*b"ot ", rest)?))
}

/// Returns an entry with amount 1 that concerns no condition.
#[inline(always)]
fn once(seat: u16, word: Word, mode: Mode, end: End) -> Entry
    ensures { result ≡ once seat word mode end }
{
    Entry {
        seat,
        word,
        mode,
        n: 1,
        at: 0,
        end,
    }
}

/// Reads the words of an acquire that gave up or was interrupted at its start. No mode and amount end them.
#[inline(always)]
fn gone_without(text: &[u8], seat: u16) -> Option<(Entry, usize)>
    ensures seat { IfSome result (λ r. r.0.seat ≡ seat) }
    ensures begins { IfSome result (BeginsWith text.now) }
{
    if let Some(rest) = behind(b"left x 1 timeout\n", text) {
        return Some((once(seat, Word::Left, Mode::X, End::Timeout), rest.len()));
    }
    if let Some(rest) = behind(b"left x 1 interrupt\n", text) {
        return Some((once(seat, Word::Left, Mode::X, End::Interrupt), rest.len()));
    }
    let rest = behind(b"refused x 1 Interrupted\n", text)?;
    Some((
        once(seat, Word::Refused(Fault::Interrupted), Mode::X, End::None),
        rest.len(),
    ))
}

/// Returns the entry of this seat whose words and line break begin the text, if it is one of the most
/// frequent, and how many bytes follow.
#[inline(always)]
fn common_words(text: &[u8], seat: u16) -> Option<(Entry, usize)>
    ensures seat { IfSome result (λ r. r.0.seat ≡ seat) }
    ensures begins { IfSome result (BeginsWith text.now) }
{
    if let Some((word, rest)) = asked_word(text) {
        let (mode, left) = mode_of_once(rest)?;
        return Some((once(seat, word, mode, End::None), left));
    }
    gone_without(text, seat)
}

/// Returns the entry whose line begins the text, if it has this number and is one of the most frequent, and
/// how many bytes follow.
///
/// The rest is returned as a number of bytes, which stays in a register.
#[inline(always)]
pub fn common_entry(
    text: &[u8],
    spelt: &mut SpeltNumber,
    number: u64,
    seats: u16,
) -> Option<(Entry, usize)>
    ensures { IfSome result (IsLineAhead seats number text.now) }
{
    let seat_at = spelt.behind(number, text)?;
    let from_seat = &text[seat_at..];
    let (seat, words_at) = seat_of(from_seat)?;
    if u64::from(seats) <= seat {
        return None;
    }
    let (entry, left) = common_words(&from_seat[words_at..], seat as u16)?;
    Some((entry, left))
}
