//! Numbers in decimal. Each number has one spelling.

ghost use Rattle.history.specs.inner.HeaderReading.{permits_from};
ghost use Rattle.history.specs.Reading.{number_from, wide_from};
ghost use Rattle.std.specs.Int.{w32};
ghost use Rattle.std.specs.Fmt.{signed_decimal};
ghost use Rattle.std.specs.Prelude.{FitsSigned, drop};
ghost use Rattle.std.specs.Prelude.{◌≡◌, ◌≢◌, ℕ, ◌+◌, ◌<◌, ◌≤◌, ◌^◌, ◌++◌, IfSome, IfNone, OnOk, OnErr, decimal, length, take};

use crate::limits::MOST_AMOUNT;
use crate::pieces::{put_byte, put_bytes};
use itoa::Buffer;
use std::alloc::AllocError;
use std::marker::Model;
use std::str::from_utf8;

/// The most digits of a number below 2^64.
const MOST_DIGITS: usize = 20;

/// Returns the number below 2^64 that the bytes spell.
#[inline(always)]
fn decimal_value(bytes: &[u8]) -> Option<u64>
    ensures found { IfSome result (λ n. (bytes.now ≡ decimal n) × (n < 2 ^ 64)) }
    ensures none { IfNone result ((n : ℕ) → n < 2 ^ 64 → bytes.now ≢ decimal n) }
{
    if bytes.is_empty() {
        return None;
    }
    if bytes.len() > 1 && bytes[0] == b'0' {
        return None;
    }
    let mut number: u64 = 0;
    for byte in bytes {
        if !byte.is_ascii_digit() {
            return None;
        }
        number = number
            .checked_mul(10)?
            .checked_add(u64::from(*byte - b'0'))?;
    }
    Some(number)
}

/// Returns the number below 2^64 that the bytes spell: digits alone, with no leading 0.
#[inline(always)]
pub fn number_of(bytes: &[u8]) -> Option<u64>
    ensures is { result ≡ number_from bytes.now }
    ensures found { IfSome result (λ n. bytes.now ≡ decimal n) }
    ensures none { IfNone result ((n : ℕ) → n < 2 ^ 64 → bytes.now ≢ decimal n) }
{
    decimal_value(bytes)
}

/// Returns the number of 32 bits that the bytes spell, with a minus sign if it is negative.
#[tactic(auto, unfolding(crate::specs::inner::HeaderReading::permits_from))]
pub(crate) fn permits_of(bytes: &[u8]) -> Option<i32>
    ensures is { result ≡ permits_from bytes.now }
    ensures found { IfSome result (λ z. (bytes.now ≡ signed_decimal z) × FitsSigned w32 z) }
{
    match bytes {
        [] => None,
        [b'-', digits @ ..] => {
            let number = number_of(digits)?;
            if 1 <= number && number <= 2_147_483_648 {
                Some((-(number as i64)) as i32)
            } else {
                None
            }
        }
        _ => {
            let number = number_of(bytes)?;
            if number <= MOST_AMOUNT as u64 {
                Some(number as i32)
            } else {
                None
            }
        }
    }
}

/// Returns the number below 2^128 that the bytes spell: digits alone, with no leading 0.
pub fn wide_of(bytes: &[u8]) -> Option<u128>
    ensures is { result ≡ wide_from bytes.now }
    ensures found { IfSome result (λ n. bytes.now ≡ decimal n) }
    ensures none { IfNone result ((n : ℕ) → n < 2 ^ 128 → bytes.now ≢ decimal n) }
{
    wide_value(bytes)
}

/// Returns the number below 2^128 that the bytes spell. The bytes are compared with that number's one
/// spelling.
fn wide_value(bytes: &[u8]) -> Option<u128>
    ensures found { IfSome result (λ n. (bytes.now ≡ decimal n) × (n < 2 ^ 128)) }
    ensures none { IfNone result ((n : ℕ) → n < 2 ^ 128 → bytes.now ≢ decimal n) }
{
    let Ok(text) = from_utf8(bytes) else {
        return None;
    };
    let Ok(number) = text.parse::<u128>() else {
        return None;
    };
    let mut buffer = Buffer::new();
    if buffer.format(number).as_bytes() == bytes {
        Some(number)
    } else {
        None
    }
}

/// Appends a number of 128 bits. On an error only its first digits may have been appended.
pub fn put_wide(out: &mut Vec<u8>, number: u128) -> Result<(), AllocError>
    ensures ok { OnOk result (out.new.items ≡ out.old.items ++ decimal number) }
    ensures err { OnErr result (out.new.items ≡ out.old.items) }
{
    let mut buffer = Buffer::new();
    out.extend_from_slice(buffer.format(number).as_bytes())
}

/// Appends the number.
pub fn put_number(out: &mut Vec<u8>, number: u64) -> Result<(), AllocError>
    ensures ok { OnOk result (out.new.items ≡ out.old.items ++ decimal number) }
    ensures err { OnErr result (out.new.items ≡ out.old.items) }
{
    let at = out.len();
    out.extend_from_slice(&[0; MOST_DIGITS])?;
    let end = spell(out.as_mut_slice(), at, number);
    out.truncate(end);
    Ok(())
}

/// Writes the number from position `at` on, and returns the position after it.
#[tactic(auto, using(crate::proofs::PieceFronts::rest_behind))]
#[inline(always)]
pub fn spell(line: &mut [u8], at: usize, number: u64) -> usize
    requires { at + 20 ≤ length line.old }
    ensures end { (at < result) × (result ≤ at + 20) }
    ensures bytes { take result line.new ≡ take at line.old ++ decimal number }
    ensures rest { drop (at + 20) line.new ≡ drop (at + 20) line.old }
{
    if number < 10 {
        return put_byte(line, at, b'0' + number as u8);
    }
    if number < 100 {
        let last = put_byte(line, at, b'0' + (number / 10) as u8);
        return put_byte(line, last, b'0' + (number % 10) as u8);
    }
    spell_long(line, at, number)
}

/// As `spell`, for a number with three digits or more.
#[tactic(auto, using(crate::proofs::PieceFronts::rest_behind))]
#[inline(never)]
fn spell_long(line: &mut [u8], at: usize, number: u64) -> usize
    requires { at + 20 ≤ length line.old }
    ensures end { (at < result) × (result ≤ at + 20) }
    ensures bytes { take result line.new ≡ take at line.old ++ decimal number }
    ensures rest { drop (at + 20) line.new ≡ drop (at + 20) line.old }
{
    let mut buffer = Buffer::new();
    put_bytes(line, at, buffer.format(number).as_bytes())
}

/// Spells numbers that mostly differ in their last two digits: the digits before these are kept.
#[derive(Debug, Drop)]
pub struct Numbering {
    hundreds: u64,
    front: [u8; MOST_DIGITS],
    digits: usize,
}

impl Model for Numbering {
    ghost use Rattle.std.specs.Prelude.{◌≡◌, ◌≤◌, decimal, take};
    ghost use Rattle.history.specs.Numbering.{Kept};

    ghost Value = { Kept };

    ghost view = { λ a. record { hundreds = a.hundreds } };

    ghost invariant = { λ a. (a.digits ≤ 20) × (take a.digits a.front ≡ decimal a.hundreds) };
}

impl Numbering {
    /// Returns a new one, which keeps the digits of 0.
    pub fn new() -> Self
        ensures { result ≡ record { hundreds = 0 } }
    {
        Numbering {
            hundreds: 0,
            front: [b'0'; MOST_DIGITS],
            digits: 1,
        }
    }

    /// Writes the number from position `at` on, and returns the position after it.
    #[tactic(auto, using(crate::proofs::PieceFronts::rest_behind))]
    #[inline(always)]
    pub fn spell(&mut self, line: &mut [u8], at: usize, number: u64) -> usize
        requires { at + 22 ≤ length line.old }
        ensures end { result ≤ at + 22 }
        ensures bytes { take result line.new ≡ take at line.old ++ decimal number }
        ensures rest { drop (at + 22) line.new ≡ drop (at + 22) line.old }
    {
        let hundreds = number / 100;
        if hundreds == 0 {
            return spell(line, at, number);
        }
        self.keep(hundreds);
        // A copy of its own: it can't alias the line, so it is moved at once, not byte by byte.
        let front = self.front;
        put_bytes(line, at, &front);
        let last_two = (number % 100) as u8;
        let last_at = put_byte(line, at + self.digits, b'0' + last_two / 10);
        put_byte(line, last_at, b'0' + last_two % 10)
    }

    /// Keeps the digits before the last two, unless they are kept already.
    #[inline(always)]
    fn keep(&mut self, hundreds: u64)
        ensures { self.new.hundreds ≡ hundreds }
    {
        if hundreds != self.hundreds {
            self.find(hundreds);
        }
    }

    #[inline(never)]
    fn find(&mut self, hundreds: u64)
        ensures { self.new.hundreds ≡ hundreds }
    {
        let mut front = [b'0'; MOST_DIGITS];
        let digits = spell(&mut front, 0, hundreds);
        self.hundreds = hundreds;
        self.front = front;
        self.digits = digits;
    }
}

/// Appends a number of 32 bits, with a minus sign if it is negative. On an error only its first bytes may
/// have been appended.
pub fn put_permits(out: &mut Vec<u8>, permits: i32) -> Result<(), AllocError>
    ensures ok { OnOk result (out.new.items ≡ out.old.items ++ signed_decimal permits) }
    ensures err { OnErr result (out.new.items ≡ out.old.items) }
{
    let mut buffer = Buffer::new();
    out.extend_from_slice(buffer.format(permits).as_bytes())
}
