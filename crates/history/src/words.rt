//! The words of a line, read from left to right.

ghost use Rattle.std.specs.Prelude.{◌≡◌, [], ◌∷◌, ◌≤◌, decimal, MatchOption, IfSome, FitsSigned};
ghost use Rattle.std.specs.Int.{w32};
ghost use Rattle.std.specs.Fmt.{signed_decimal};
ghost use Rattle.history.specs.Text.{words_of};
ghost use Rattle.history.specs.Spelling.{policy_word};
ghost use Rattle.history.specs.EntryWords.{mode_word};
ghost use Rattle.history.specs.inner.HeaderReading.{policy_at, permits_at};
ghost use Rattle.history.specs.Reading.{with_rest, word_at, keyword_at, number_from, number_at, wide_at, mode_at, named_at};

use crate::entry::Mode;
use crate::header::Policy;
use crate::number::{number_of, permits_of, wide_of};
use crate::text::position_of;
use std::marker::Model;

/// The words of a line that are still to be read.
///
/// A call that returns None has refused the line. How many words are left then is not specified.
#[derive(Drop)]
pub struct Words<'a> {
    rest: Option<&'a [u8]>,
}

impl<'a> Model for Words<'a> {
    ghost use Rattle.std.specs.Prelude.{List, ℕ};
    ghost use Rattle.history.specs.Text.{words_left};

    ghost Value = { List (List ℕ) };

    ghost view = { λ w. words_left w.rest };
}

impl<'a> Words<'a> {
    /// Returns the words of a line, cut at each space. Two spaces together have an empty word between them.
    #[inline(always)]
    pub fn of(line: &'a [u8]) -> Self
        ensures { result ≡ words_of line.now }
    {
        Words { rest: Some(line) }
    }

    /// Takes the next word, or returns None if no word is left.
    #[inline(always)]
    pub fn next(&mut self) -> Option<&'a [u8]>
        ensures { MatchOption result (self.old ≡ [] × self.new ≡ [])
            (λ word. self.old ≡ word.now ∷ self.new) }
    {
        let rest = self.rest?;
        match position_of(b' ', rest) {
            Some(at) => {
                self.rest = Some(&rest[at + 1..]);
                Some(&rest[..at])
            }
            None => {
                self.rest = None;
                Some(rest)
            }
        }
    }

    /// Takes this word, if it comes next.
    #[inline(always)]
    pub fn expect(&mut self, word: &[u8]) -> Option<()>
        ensures is { with_rest result self.new ≡ keyword_at word.now self.old }
        ensures found { IfSome result (λ _. self.old ≡ word.now ∷ self.new) }
    {
        if self.next()? == word { Some(()) } else { None }
    }

    /// Takes a number within these limits, if one comes next.
    #[inline(always)]
    pub fn number(&mut self, least: u64, most: u64) -> Option<u64>
        ensures is { with_rest result self.new ≡ number_at least most self.old }
        ensures found { IfSome result (λ n. (self.old ≡ decimal n ∷ self.new) × (least ≤ n) × (n ≤ most)) }
    {
        let number = number_of(self.next()?)?;
        if least <= number && number <= most {
            Some(number)
        } else {
            None
        }
    }

    /// Takes a number of 128 bits within these limits, if one comes next.
    pub fn wide(&mut self, least: u128, most: u128) -> Option<u128>
        ensures is { with_rest result self.new ≡ wide_at least most self.old }
        ensures found { IfSome result (λ n. (self.old ≡ decimal n ∷ self.new) × (least ≤ n) × (n ≤ most)) }
    {
        let wide = wide_of(self.next()?)?;
        if least <= wide && wide <= most {
            Some(wide)
        } else {
            None
        }
    }

    /// Takes a policy, if one comes next.
    pub(crate) fn policy(&mut self) -> Option<Policy>
        ensures is { with_rest result self.new ≡ policy_at self.old }
        ensures found { IfSome result (λ p. self.old ≡ policy_word p ∷ self.new) }
    {
        let word = self.next()?;
        if word == b"fair".as_slice() {
            Some(Policy::Fair)
        } else if word == b"nonfair".as_slice() {
            Some(Policy::NonFair)
        } else if word == b"strict".as_slice() {
            Some(Policy::Strict)
        } else {
            None
        }
    }

    /// Takes a mode, if one comes next.
    #[inline(always)]
    pub fn mode(&mut self) -> Option<Mode>
        ensures is { with_rest result self.new ≡ mode_at self.old }
        ensures found { IfSome result (λ m. self.old ≡ mode_word m ∷ self.new) }
    {
        let word = self.next()?;
        if word == b"x".as_slice() {
            Some(Mode::X)
        } else if word == b"s".as_slice() {
            Some(Mode::S)
        } else {
            None
        }
    }

    /// Takes this name and a number, if they come next.
    pub fn named(&mut self, name: &[u8], least: u64, most: u64) -> Option<u64>
        ensures is { with_rest result self.new ≡ named_at name.now least most self.old }
        ensures found { IfSome result (λ n. (self.old ≡ name.now ∷ decimal n ∷ self.new) × (least ≤ n)
            × (n ≤ most)) }
    {
        self.expect(name)?;
        self.number(least, most)
    }

    /// Takes a number of permits, if one comes next.
    pub(crate) fn permits(&mut self) -> Option<i32>
        ensures is { with_rest result self.new ≡ permits_at self.old }
        ensures found { IfSome result (λ z. (self.old ≡ signed_decimal z ∷ self.new) × FitsSigned w32 z) }
    {
        let permits = permits_of(self.next()?)?;
        Some(permits)
    }
}
