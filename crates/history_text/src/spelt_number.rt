//! A number and its spelling, to be compared with what begins a line.

ghost use Rattle.std.specs.Prelude.{◌≡◌, ◌≤◌, ◌∷◌, ◌++◌, drop, length, IfSome, decimal};

use history::number::spell;
use history::pieces::put_byte;
use history::text::behind;
use std::marker::Model;

/// The most bytes of a number below 2^64 and a space, and a few more.
const MOST_BYTES: usize = 24;

/// A number that mostly counts up by one. It is kept as a line spells it, with the space after it. So mostly one
/// digit changes.
#[derive(Debug, Drop)]
pub struct SpeltNumber {
    number: u64,
    /// The digits and the space, and bytes that mean nothing.
    text: [u8; MOST_BYTES],
    /// How many bytes the digits and the space are.
    len: usize,
}

impl Model for SpeltNumber {
    ghost use Rattle.std.specs.Prelude.{◌≡◌, ◌≤◌, ◌∷◌, [], ◌++◌, decimal, length, take};
    ghost use Rattle.history_text.specs.SpeltNumber.{Spelt};

    ghost Value = { Spelt };

    ghost view = { λ a. record { number = a.number } };

    ghost invariant = { λ a. (length a.text ≡ 24) × (2 ≤ a.len) × (a.len ≤ 21)
        × (take a.len a.text ≡ decimal a.number ++ 32 ∷ []) };
}

impl SpeltNumber {
    /// Returns the number 0.
    pub fn new() -> Self
        ensures { result ≡ record { number = 0 } }
    {
        let mut text = [b' '; MOST_BYTES];
        text[0] = b'0';
        SpeltNumber {
            number: 0,
            text,
            len: 2,
        }
    }

    /// Returns the position after this number and a space, if the text begins with them. Then the next number is
    /// made ready.
    #[inline(always)]
    pub(crate) fn behind(&mut self, number: u64, text: &[u8]) -> Option<usize>
        ensures number { IfSome result (λ at. text.now ≡ decimal number ++ 32 ∷ drop at text.now) }
        ensures inside { IfSome result (λ at. at ≤ length text.now) }
    {
        if self.number != number {
            self.find(number);
        }
        let end = self.len;
        let _rest = behind(&self.text[..end], text)?;
        self.count_up();
        Some(end)
    }

    /// Makes this the next number, if that differs in the last digit alone.
    ///
    /// A digit that is written long before the text is compared costs the comparison no time.
    #[inline(always)]
    fn count_up(&mut self) {
        let last_at = self.len - 2;
        let last = self.text[last_at];
        if last < b'9' && self.number < u64::MAX {
            self.number += 1;
            self.text[last_at] = last + 1;
        }
    }

    /// Makes this the number, and spells all of it.
    #[inline(never)]
    fn find(&mut self, number: u64)
        ensures { self.new.number ≡ number }
    {
        let mut text = [b' '; MOST_BYTES];
        let space_at = spell(&mut text, 0, number);
        self.len = put_byte(&mut text, space_at, b' ');
        self.number = number;
        self.text = text;
    }
}
