//! Writing the words of an entry.

ghost use Rattle.std.specs.Prelude.{◌≡◌, ◌+◌, ◌≤◌, ◌∷◌, ◌++◌, [], take, drop, length, codes, decimal};
ghost use Rattle.history.specs.Text.{line_of};
ghost use Rattle.history.specs.EntryWords.{mode_word};

use crate::entry::{End, Entry, Mode, Word};
use crate::fault::Fault;
use crate::limits::{LAST_CONDITION, MOST_AMOUNT};
use crate::number::spell;
use crate::pieces::{put_byte, put_bytes};

/// The most bytes that the words of an entry have.
const MOST_WORDS: usize = 64;

impl Mode {
    ghost use Rattle.std.specs.Prelude.{◌≡◌, ◌∷◌, ◌++◌, [], ◌↔◌, IsTrue, false};
    ghost use Rattle.history.specs.declared.entry.Mode.TheVariants.{X, S};
    ghost use Rattle.history.specs.EntryWords.{mode_word};

    fn is_exclusive(self) -> bool
        ensures x { IsTrue result ↔ (self ≡ X) }
        ensures s { (result ≡ false) ↔ (self ≡ S) }
    {
        matches!(self, Mode::X)
    }

    /// Returns its word in a text, with a space on either side.
    #[inline(always)]
    fn spaced(self) -> &'static [u8]
        ensures { result.now ≡ 32 ∷ mode_word self ++ 32 ∷ [] }
    {
        match self {
            Mode::X => b" x ",
            Mode::S => b" s ",
        }
    }
}

impl End {
    ghost use Rattle.std.specs.Prelude.{◌≡◌, ◌∷◌, ◌↔◌, IsTrue};
    ghost use Rattle.history.specs.declared.entry.End.TheVariants as end;
    ghost use Rattle.history.specs.EntryWords.{end_word, GaveUp, CameBack};

    fn is_none(self) -> bool
        ensures { IsTrue result ↔ (self ≡ end.None) }
    {
        matches!(self, End::None)
    }

    /// Returns whether an acquire can give up in this way.
    fn gave_up(self) -> bool
        ensures { IsTrue result ↔ GaveUp self }
    {
        matches!(self, End::Timeout | End::Interrupt)
    }

    /// Returns whether an await can end in this way.
    fn came_back(self) -> bool
        ensures { IsTrue result ↔ CameBack self }
    {
        !matches!(self, End::None)
    }

    /// Returns its word in a text, with a space before it.
    #[inline(always)]
    fn behind_space(self) -> &'static [u8]
        ensures { result.now ≡ 32 ∷ end_word self }
    {
        match self {
            End::None => b" ",
            End::Timeout => b" timeout",
            End::Interrupt => b" interrupt",
            End::Signalled => b" signalled",
        }
    }
}

impl Entry {
    ghost use Rattle.std.specs.Prelude.{◌≡◌, ◌+◌, ◌≤◌, ◌++◌, ◌↔◌, IsTrue, OnOk, OnErr, IsOkUnless, take, drop, length};
    ghost use Rattle.history.specs.Text.{line_of};
    ghost use Rattle.history.specs.EntryWords.{entry_words, IsSpelt, IsWritten};
    ghost use Rattle.history.specs.inner.EntryWords.{IsAsked, IsOfCondition};

    /// Returns whether the words of an entry spell it: each field that they leave out has the value that a
    /// reader gives it.
    pub fn is_spelt(&self) -> bool
        ensures { IsTrue result ↔ IsSpelt self.now }
    {
        let Entry {
            seat: _,
            word,
            mode,
            n,
            at,
            end,
        } = *self;
        match word {
            Word::Got | Word::TryGot | Word::Queued | Word::Granted | Word::Missed | Word::Gave => {
                at == 0 && end.is_none()
            }
            Word::Left => at == 0 && end.gave_up(),
            Word::Refused(fault) => at == 0 && end.is_none() && fault.number() <= 5,
            Word::Await | Word::Signal | Word::SignalAll => mode.is_exclusive() && end.is_none(),
            Word::Lapse => mode.is_exclusive() && n == 0 && end.gave_up(),
            Word::Back => mode.is_exclusive() && end.came_back(),
            Word::Counted => !mode.is_exclusive() && n == 1 && at == 0 && end.is_none(),
            Word::Drained => !mode.is_exclusive() && at == 0 && end.is_none(),
        }
    }

    /// Returns whether a history text may have it: words spell it, and its amount and condition are within
    /// the limits.
    pub fn is_written(&self) -> bool
        ensures { IsTrue result ↔ IsWritten self.now }
    {
        self.is_spelt() && self.n <= MOST_AMOUNT && self.at <= LAST_CONDITION
    }

    /// Appends the words that follow the seat.
    pub fn write_words(&self, out: &mut Vec<u8>) -> Result<(), Fault>
        requires { IsSpelt self.now }
        ensures ok { OnOk result (out.new.items ≡ out.old.items ++ line_of (entry_words self.now)) }
        ensures err { OnErr result (out.new.items ≡ out.old.items) }
        ensures unless { IsOkUnless result Fault.OutOfMemory }
    {
        let at = out.len();
        match out.extend_from_slice(&[0; MOST_WORDS]) {
            Ok(()) => {
                let end = self.spell_words(out.as_mut_slice(), at);
                out.truncate(end);
                Ok(())
            }
            Err(_) => Err(Fault::OutOfMemory),
        }
    }

    /// Writes the words that follow the seat, from position `at` on. Returns the position after them.
    #[tactic(auto, using(crate::proofs::PieceFronts::rest_behind))]
    #[inline(always)]
    pub fn spell_words(&self, line: &mut [u8], at: usize) -> usize
        requires spelt { IsSpelt self.now }
        requires room { at + 64 ≤ length line.old }
        ensures end { result ≤ at + 64 }
        ensures words { take result line.new ≡ take at line.old ++ line_of (entry_words self.now) }
        ensures rest { drop (at + 64) line.new ≡ drop (at + 64) line.old }
    {
        let Entry {
            seat: _,
            word,
            mode,
            n,
            at: _,
            end,
        } = *self;
        match word {
            Word::Got | Word::TryGot | Word::Queued | Word::Granted | Word::Missed | Word::Gave => {
                self.spell_asked(line, at)
            }
            Word::Left => {
                let end_at = put_asked(line, at, b"left", b"left x 1", mode, n);
                put_bytes(line, end_at, end.behind_space())
            }
            Word::Refused(fault) => {
                let space_at = put_asked(line, at, b"refused", b"refused x 1", mode, n);
                let name_at = put_byte(line, space_at, b' ');
                put_bytes(line, name_at, fault.name().as_bytes())
            }
            Word::Await | Word::Lapse | Word::Signal | Word::SignalAll | Word::Back => {
                self.spell_slept(line, at)
            }
            Word::Counted => put_amount(line, at, b"counted", mode, n),
            Word::Drained => put_amount(line, at, b"drained", mode, n),
        }
    }

    /// As `spell_words`, for the words with a mode and an amount.
    #[tactic(auto, using(crate::proofs::PieceFronts::rest_behind))]
    #[inline(always)]
    fn spell_asked(&self, line: &mut [u8], at: usize) -> usize
        requires asked { IsAsked self.now.word }
        requires room { at + 64 ≤ length line.old }
        ensures end { result ≤ at + 64 }
        ensures words { take result line.new ≡ take at line.old ++ line_of (entry_words self.now) }
        ensures rest { drop (at + 64) line.new ≡ drop (at + 64) line.old }
    {
        let mode = self.mode;
        let n = self.n;
        match self.word {
            Word::Got => put_asked(line, at, b"got", b"got x 1", mode, n),
            Word::TryGot => put_asked(line, at, b"trygot", b"trygot x 1", mode, n),
            Word::Queued => put_asked(line, at, b"queued", b"queued x 1", mode, n),
            Word::Granted => put_asked(line, at, b"granted", b"granted x 1", mode, n),
            Word::Missed => put_asked(line, at, b"missed", b"missed x 1", mode, n),
            Word::Gave => put_asked(line, at, b"gave", b"gave x 1", mode, n),
            _ => unreachable!(),
        }
    }

    /// As `spell_words`, for the words with a condition and an amount.
    #[tactic(auto, using(crate::proofs::PieceFronts::rest_behind))]
    #[inline(always)]
    fn spell_slept(&self, line: &mut [u8], at: usize) -> usize
        requires slept { IsOfCondition self.now.word }
        requires room { at + 64 ≤ length line.old }
        ensures end { result ≤ at + 64 }
        ensures words { take result line.new ≡ take at line.old ++ line_of (entry_words self.now) }
        ensures rest { drop (at + 64) line.new ≡ drop (at + 64) line.old }
    {
        let condition = self.at;
        let n = self.n;
        match self.word {
            Word::Await => put_at(line, at, b"await ", condition, n),
            Word::Signal => put_at(line, at, b"signal ", condition, n),
            Word::SignalAll => put_at(line, at, b"signalall ", condition, n),
            Word::Back => {
                let end_at = put_at(line, at, b"back ", condition, n);
                put_bytes(line, end_at, self.end.behind_space())
            }
            Word::Lapse => {
                let condition_at = put_bytes(line, at, b"lapse ");
                let end_at = spell(line, condition_at, u64::from(condition));
                put_bytes(line, end_at, self.end.behind_space())
            }
            _ => unreachable!(),
        }
    }
}

/// Writes a name, a mode and an amount from position `at` on. The most frequent case, X and 1, is written in
/// one piece.
#[tactic(auto, using(crate::proofs::PieceFronts::rest_behind))]
#[inline(always)]
fn put_asked(line: &mut [u8], at: usize, name: &[u8], once: &[u8], mode: Mode, n: u32) -> usize
    requires once { once.now ≡ name.now ++ codes " x 1" }
    requires room { at + length name.now + 23 ≤ length line.old }
    ensures end { result ≤ at + length name.now + 23 }
    ensures words { take result line.new ≡ take at line.old
        ++ line_of (name.now ∷ mode_word mode ∷ decimal n ∷ []) }
    ensures rest { drop (at + length name.now + 23) line.new ≡ drop (at + length name.now + 23) line.old }
{
    if n == 1 && mode.is_exclusive() {
        return put_bytes(line, at, once);
    }
    put_amount(line, at, name, mode, n)
}

/// Writes a name, a mode and an amount from position `at` on, one after another.
#[tactic(auto, using(crate::proofs::PieceFronts::rest_behind))]
#[inline(never)]
fn put_amount(line: &mut [u8], at: usize, name: &[u8], mode: Mode, n: u32) -> usize
    requires { at + length name.now + 23 ≤ length line.old }
    ensures end { result ≤ at + length name.now + 23 }
    ensures words { take result line.new ≡ take at line.old
        ++ line_of (name.now ∷ mode_word mode ∷ decimal n ∷ []) }
    ensures rest { drop (at + length name.now + 23) line.new ≡ drop (at + length name.now + 23) line.old }
{
    let mode_at = put_bytes(line, at, name);
    let amount_at = put_bytes(line, mode_at, mode.spaced());
    spell(line, amount_at, u64::from(n))
}

/// Writes a name with its space, a condition and an amount from position `at` on.
#[tactic(auto, using(crate::proofs::PieceFronts::rest_behind))]
#[inline(never)]
fn put_at(line: &mut [u8], at: usize, name: &[u8], condition: u8, n: u32) -> usize
    requires { at + length name.now + 41 ≤ length line.old }
    ensures end { result ≤ at + length name.now + 41 }
    ensures words { take result line.new ≡ take at line.old ++ name.now
        ++ line_of (decimal condition ∷ decimal n ∷ []) }
    ensures rest { drop (at + length name.now + 41) line.new ≡ drop (at + length name.now + 41) line.old }
{
    let condition_at = put_bytes(line, at, name);
    let space_at = spell(line, condition_at, u64::from(condition));
    let amount_at = put_byte(line, space_at, b' ');
    spell(line, amount_at, u64::from(n))
}
