//! Reading entries from the words of a line.

ghost use Rattle.std.specs.Prelude.{◌≡◌, ◌≤◌, ◌∷◌, ◌++◌, [], ℕ, List, codes, decimal, bytes_eq, false, IfSome, IfNone, MatchOption};
ghost use Rattle.history.specs.declared.entry.End.TheVariants as end;
ghost use Rattle.history.specs.declared.entry.Entry.{Entry};
ghost use Rattle.history.specs.declared.entry.Mode.{Mode};
ghost use Rattle.history.specs.declared.entry.Mode.TheVariants.{X, S};
ghost use Rattle.history.specs.declared.limits.TheConstants.{LAST_CONDITION, MOST_AMOUNT};
ghost use Rattle.history.specs.EntryReading.{given_up_at, come_back_at, recorded_at, asked_at, condition_at, sleepers_at, left_at, refused_at, lapse_at, back_at, shared_at, named_entry_at, entry_at, in_mode, on_condition, asking, waking};
ghost use Rattle.history.specs.EntryWords.{
  mode_word,
  end_word,
  entry_words,
  spelt,
  GaveUp,
  CameBack,
  HasWords,
  IsWritten,
};
ghost use Rattle.history.specs.Fault.{fault_name, IsRecorded};
ghost use Rattle.history.specs.Reading.{Words, with_rest};

use crate::entry::{End, Entry, Mode, Word};
use crate::fault::Fault;
use crate::limits::{LAST_CONDITION, MOST_AMOUNT};
use crate::words::Words;

/// Reads how an acquire gave up.
#[inline(always)]
fn given_up(words: &mut Words<'_>) -> Option<End>
    ensures is { with_rest result words.new ≡ given_up_at words.old }
    ensures found { IfSome result (λ e. GaveUp e × (words.old ≡ end_word e ∷ words.new)) }
{
    let word = words.next()?;
    if word == b"timeout".as_slice() {
        Some(End::Timeout)
    } else if word == b"interrupt".as_slice() {
        Some(End::Interrupt)
    } else {
        None
    }
}

/// Reads how an await ended.
#[inline(always)]
fn come_back(words: &mut Words<'_>) -> Option<End>
    ensures is { with_rest result words.new ≡ come_back_at words.old }
    ensures found { IfSome result (λ e. CameBack e × (words.old ≡ end_word e ∷ words.new)) }
{
    let word = words.next()?;
    if word == b"signalled".as_slice() {
        Some(End::Signalled)
    } else if word == b"timeout".as_slice() {
        Some(End::Timeout)
    } else if word == b"interrupt".as_slice() {
        Some(End::Interrupt)
    } else {
        None
    }
}

/// Reads a fault that is recorded.
fn recorded(words: &mut Words<'_>) -> Option<Fault>
    ensures is { with_rest result words.new ≡ recorded_at words.old }
    ensures found { IfSome result (λ f. IsRecorded f × (words.old ≡ fault_name f ∷ words.new)) }
{
    let word = words.next()?;
    if word == b"NotOwner".as_slice() {
        Some(Fault::NotOwner)
    } else if word == b"TooManyHolds".as_slice() {
        Some(Fault::TooManyHolds)
    } else if word == b"TooManyPermits".as_slice() {
        Some(Fault::TooManyPermits)
    } else if word == b"Interrupted".as_slice() {
        Some(Fault::Interrupted)
    } else if word == b"HoldsRead".as_slice() {
        Some(Fault::HoldsRead)
    } else {
        None
    }
}

/// Reads a mode and an amount.
#[tactic(auto, unfolding(crate::specs::EntryReading::asked_at))]
#[inline(always)]
fn asked(words: &mut Words<'_>) -> Option<(Mode, u32)>
    ensures is { with_rest result words.new ≡ asked_at words.old }
    ensures found { IfSome result (λ a. (words.old ≡ mode_word a.0 ∷ decimal a.1 ∷ words.new)
        × (a.1 ≤ MOST_AMOUNT)) }
{
    let mode = words.mode()?;
    let n = words.number(0, MOST_AMOUNT as u64)?;
    Some((mode, n as u32))
}

#[tactic(auto, unfolding(crate::specs::EntryReading::condition_at))]
#[inline(always)]
fn condition(words: &mut Words<'_>) -> Option<u8>
    ensures is { with_rest result words.new ≡ condition_at words.old }
    ensures found { IfSome result (λ c. (words.old ≡ decimal c ∷ words.new) × (c ≤ LAST_CONDITION)) }
{
    Some(words.number(0, LAST_CONDITION as u64)? as u8)
}

/// Reads a condition and an amount.
#[tactic(auto, unfolding(crate::specs::EntryReading::sleepers_at))]
#[inline(always)]
fn sleepers(words: &mut Words<'_>) -> Option<(u8, u32)>
    ensures is { with_rest result words.new ≡ sleepers_at words.old }
    ensures found { IfSome result (λ s. (words.old ≡ decimal s.0 ∷ decimal s.1 ∷ words.new) × (s.0 ≤ LAST_CONDITION)
        × (s.1 ≤ MOST_AMOUNT)) }
{
    let at = condition(words)?;
    let n = words.number(0, MOST_AMOUNT as u64)?;
    Some((at, n as u32))
}

/// Returns the entry with this mode and amount.
#[inline(always)]
fn in_mode(seat: u16, word: Word, asked: (Mode, u32)) -> Entry
    ensures { result ≡ in_mode seat word asked }
{
    let (mode, n) = asked;
    Entry {
        seat,
        word,
        mode,
        n,
        at: 0,
        end: End::None,
    }
}

/// Returns the entry with this condition and amount.
#[inline(always)]
fn on_condition(seat: u16, word: Word, slept: (u8, u32)) -> Entry
    ensures { result ≡ on_condition seat word slept }
{
    let (at, n) = slept;
    Entry {
        seat,
        word,
        mode: Mode::X,
        n,
        at,
        end: End::None,
    }
}

#[tactic(auto, unfolding(crate::specs::EntryReading::left_at))]
fn left(words: &mut Words<'_>, seat: u16) -> Option<Entry>
    ensures is { with_rest result words.new ≡ left_at seat words.old }
    ensures found { IfSome result (λ e. IsWritten e × (e.seat ≡ seat)
        × (codes "left" ∷ words.old ≡ entry_words e ++ words.new)) }
{
    let (mode, n) = asked(words)?;
    let end = given_up(words)?;
    Some(Entry {
        seat,
        word: Word::Left,
        mode,
        n,
        at: 0,
        end,
    })
}

#[tactic(auto, unfolding(crate::specs::EntryReading::refused_at))]
fn refused(words: &mut Words<'_>, seat: u16) -> Option<Entry>
    ensures is { with_rest result words.new ≡ refused_at seat words.old }
    ensures found { IfSome result (λ e. IsWritten e × (e.seat ≡ seat)
        × (codes "refused" ∷ words.old ≡ entry_words e ++ words.new)) }
{
    let asked = asked(words)?;
    let fault = recorded(words)?;
    Some(in_mode(seat, Word::Refused(fault), asked))
}

#[tactic(auto, unfolding(crate::specs::EntryReading::lapse_at))]
fn lapse(words: &mut Words<'_>, seat: u16) -> Option<Entry>
    ensures is { with_rest result words.new ≡ lapse_at seat words.old }
    ensures found { IfSome result (λ e. IsWritten e × (e.seat ≡ seat)
        × (codes "lapse" ∷ words.old ≡ entry_words e ++ words.new)) }
{
    let at = condition(words)?;
    let end = given_up(words)?;
    Some(Entry {
        seat,
        word: Word::Lapse,
        mode: Mode::X,
        n: 0,
        at,
        end,
    })
}

#[tactic(auto, unfolding(crate::specs::EntryReading::back_at))]
fn back(words: &mut Words<'_>, seat: u16) -> Option<Entry>
    ensures is { with_rest result words.new ≡ back_at seat words.old }
    ensures found { IfSome result (λ e. IsWritten e × (e.seat ≡ seat)
        × (codes "back" ∷ words.old ≡ entry_words e ++ words.new)) }
{
    let (at, n) = sleepers(words)?;
    let end = come_back(words)?;
    Some(Entry {
        seat,
        word: Word::Back,
        mode: Mode::X,
        n,
        at,
        end,
    })
}

/// Reads an entry of an object that has shared mode alone, with an amount in this range.
#[tactic(auto, unfolding(crate::specs::EntryReading::shared_at))]
fn shared(words: &mut Words<'_>, seat: u16, word: Word, least: u64, most: u64) -> Option<Entry>
    requires { most ≤ MOST_AMOUNT }
    ensures is { with_rest result words.new ≡ shared_at seat word least most words.old }
    ensures found { IfSome result (λ e. (e ≡ in_mode seat word (S, e.n)) × (least ≤ e.n) × (e.n ≤ most)
        × (words.old ≡ mode_word S ∷ decimal e.n ∷ words.new)) }
{
    words.expect(b"s")?;
    let n = words.number(least, most)?;
    Some(in_mode(seat, word, (Mode::S, n as u32)))
}

/// Returns the word that this name spells, if a condition and an amount follow that word.
#[tactic(auto, unfolding(crate::specs::EntryReading::named_entry_at))]
#[inline(always)]
fn waking(name: &[u8]) -> Option<Word>
    ensures is { IfSome result (λ word. (seat : ℕ) (ws : Words) →
        named_entry_at seat name.now ws ≡ waking seat word ws) }
    ensures found { IfSome result (λ word. (n at : ℕ) → HasWords word X n at end.None
        × (spelt word X n at end.None ≡ name.now ∷ decimal at ∷ decimal n ∷ [])) }
    ensures none { IfNone result ((bytes_eq name.now (codes "await") ≡ false)
        × (bytes_eq name.now (codes "signal") ≡ false) × (bytes_eq name.now (codes "signalall") ≡ false)) }
{
    if name == b"await".as_slice() {
        Some(Word::Await)
    } else if name == b"signal".as_slice() {
        Some(Word::Signal)
    } else if name == b"signalall".as_slice() {
        Some(Word::SignalAll)
    } else {
        None
    }
}

/// Reads the rest of an entry after its name, for the words with a form of their own.
#[tactic(auto, unfolding(crate::specs::EntryReading::named_entry_at))]
fn named_entry(words: &mut Words<'_>, seat: u16, name: &[u8]) -> Option<Entry>
    ensures is { with_rest result words.new ≡ named_entry_at seat name.now words.old }
    ensures found { IfSome result (λ e. IsWritten e × (e.seat ≡ seat)
        × (name.now ∷ words.old ≡ entry_words e ++ words.new)) }
{
    if let Some(word) = waking(name) {
        return Some(on_condition(seat, word, sleepers(words)?));
    }
    if name == b"left".as_slice() {
        left(words, seat)
    } else if name == b"refused".as_slice() {
        refused(words, seat)
    } else if name == b"lapse".as_slice() {
        lapse(words, seat)
    } else if name == b"back".as_slice() {
        back(words, seat)
    } else if name == b"counted".as_slice() {
        shared(words, seat, Word::Counted, 1, 1)
    } else if name == b"drained".as_slice() {
        shared(words, seat, Word::Drained, 0, MOST_AMOUNT as u64)
    } else {
        None
    }
}

/// Returns the word that this name spells, if a mode and an amount follow that word.
#[tactic(auto, unfolding(crate::specs::EntryReading::entry_at))]
#[inline(always)]
fn asking(name: &[u8]) -> Option<Word>
    ensures is { MatchOption result
        ((seat : ℕ) (ws : Words) → entry_at seat (name.now ∷ ws) ≡ named_entry_at seat name.now ws)
        (λ word. (seat : ℕ) (ws : Words) → entry_at seat (name.now ∷ ws) ≡ asking seat word ws) }
    ensures found { IfSome result (λ word. (m : Mode) (n : ℕ) → HasWords word m n 0 end.None
        × (spelt word m n 0 end.None ≡ name.now ∷ mode_word m ∷ decimal n ∷ [])) }
{
    if name == b"got".as_slice() {
        Some(Word::Got)
    } else if name == b"trygot".as_slice() {
        Some(Word::TryGot)
    } else if name == b"queued".as_slice() {
        Some(Word::Queued)
    } else if name == b"granted".as_slice() {
        Some(Word::Granted)
    } else if name == b"missed".as_slice() {
        Some(Word::Missed)
    } else if name == b"gave".as_slice() {
        Some(Word::Gave)
    } else {
        None
    }
}

impl<'a> Words<'a> {
    ghost use Rattle.std.specs.Prelude.{◌≡◌, ◌++◌, IfSome};
    ghost use Rattle.history.specs.EntryReading.{entry_at};
    ghost use Rattle.history.specs.EntryWords.{entry_words, IsWritten};
    ghost use Rattle.history.specs.Reading.{with_rest};

    /// Takes the words of an entry of this seat, if they come next.
    #[tactic(auto, unfolding(crate::specs::EntryReading::entry_at))]
    pub fn entry(&mut self, seat: u16) -> Option<Entry>
        ensures is { with_rest result self.new ≡ entry_at seat self.old }
        ensures found { IfSome result (λ e. IsWritten e × (e.seat ≡ seat)
            × (self.old ≡ entry_words e ++ self.new)) }
    {
        let name = self.next()?;
        match asking(name) {
            Some(word) => Some(in_mode(seat, word, asked(self)?)),
            None => named_entry(self, seat, name),
        }
    }
}

impl Entry {
    ghost use Rattle.std.specs.Prelude.{◌≡◌, ◌≢◌, IfSome, IfNone};
    ghost use Rattle.history.specs.declared.entry.Entry.{Entry};
    ghost use Rattle.history.specs.EntryWords.{entry_words, IsWritten};
    ghost use Rattle.history.specs.Text.{line_of};

    /// Returns the entry of this seat that the bytes spell.
    pub fn read_words(seat: u16, bytes: &[u8]) -> Option<Entry>
        ensures found { IfSome result (λ e. IsWritten e × (e.seat ≡ seat)
            × (bytes.now ≡ line_of (entry_words e))) }
        ensures none { IfNone result ((e : Entry) → IsWritten e → e.seat ≡ seat →
            bytes.now ≢ line_of (entry_words e)) }
    {
        let mut words = Words::of(bytes);
        let entry = words.entry(seat)?;
        match words.next() {
            None => Some(entry),
            Some(_) => None,
        }
    }
}
