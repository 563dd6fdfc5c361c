//! Reading the seat that begins a line, without cutting the line into words.

ghost use Rattle.std.specs.Prelude.{◌≡◌, ◌≢◌, ◌+◌, ◌*◌, ◌<◌, ◌≤◌, ◌^◌, ◌∷◌, [], ◌++◌, List, ℕ, drop, length, IfSome, IfNone, decimal};

use history::number::number_of;
use history::text::position_of;

/// Returns the value of a digit, or None for another byte.
#[inline(always)]
fn digit_of(byte: u8) -> Option<u64>
    ensures found { IfSome result (λ digit. (digit < 10) × (byte ≡ 48 + digit)) }
    ensures none { IfNone result ((digit : ℕ) → digit < 10 → byte ≢ 48 + digit) }
{
    if byte.is_ascii_digit() {
        Some(u64::from(byte - b'0'))
    } else {
        None
    }
}

/// Returns the one byte before the first space.
#[inline(always)]
fn one_byte(text: &[u8]) -> Option<u8>
    ensures seat { IfSome result (λ byte. text.now ≡ byte ∷ 32 ∷ drop 2 text.now) }
    ensures inside { IfSome result (λ byte. 2 ≤ length text.now) }
    ensures none { IfNone result ((byte : ℕ) (rest : List ℕ) → text.now ≢ byte ∷ 32 ∷ rest) }
{
    match text {
        [byte, b' ', ..] => Some(*byte),
        _ => None,
    }
}

/// Returns the two bytes before the first space.
#[inline(always)]
fn two_bytes(text: &[u8]) -> Option<(u8, u8)>
    ensures seat { IfSome result (λ r. text.now ≡ r.0 ∷ r.1 ∷ 32 ∷ drop 3 text.now) }
    ensures inside { IfSome result (λ r. 3 ≤ length text.now) }
    ensures none { IfNone result ((first second : ℕ) (rest : List ℕ) →
        text.now ≢ first ∷ second ∷ 32 ∷ rest) }
{
    match text {
        [first, second, b' ', ..] => Some((*first, *second)),
        _ => None,
    }
}

/// Returns the number that two digits spell.
#[inline(always)]
fn number_of_two(first: u8, second: u8) -> Option<u64>
    ensures found { IfSome result (λ number. decimal number ≡ first ∷ second ∷ []) }
    ensures none { IfNone result ((number : ℕ) → number < 2 ^ 64 → first ∷ second ∷ [] ≢ decimal number) }
{
    let tens = digit_of(first)?;
    let ones = digit_of(second)?;
    if tens == 0 {
        return None;
    }
    Some(10 * tens + ones)
}

/// Returns the number before the first space, and the position after the space, or None if no such number
/// begins the text. Most seats have one or two digits.
#[inline(always)]
pub fn seat_of(text: &[u8]) -> Option<(u64, usize)>
    ensures seat { IfSome result (λ r. text.now ≡ decimal r.0 ++ 32 ∷ drop r.1 text.now) }
    ensures inside { IfSome result (λ r. r.1 ≤ length text.now) }
    ensures none { IfNone result ((seat : ℕ) (rest : List ℕ) → seat < 2 ^ 64 →
        text.now ≢ decimal seat ++ 32 ∷ rest) }
{
    if let Some(byte) = one_byte(text) {
        return Some((digit_of(byte)?, 2));
    }
    if let Some((first, second)) = two_bytes(text) {
        return Some((number_of_two(first, second)?, 3));
    }
    let at = position_of(b' ', text)?;
    Some((number_of(&text[..at])?, at + 1))
}
