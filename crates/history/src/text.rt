//! Finding the end of a line or of a word.

ghost use Rattle.std.specs.Prelude.{◌≡◌, ◌≢◌, ◌==◌, ◌∷◌, ◌++◌, List, ℕ, MatchOption, position};
ghost use Rattle.history.specs.Text.{HasNoBreak};

use memchr::memchr;

/// Returns the first position of the byte. It is meant for short texts, as a word; for long ones use
/// `memchr`.
#[inline(always)]
pub fn position_of(byte: u8, bytes: &[u8]) -> Option<usize>
    ensures { result ≡ position (λ b. b == byte) bytes.now }
{
    bytes.iter().position(|b| *b == byte)
}

/// Returns the first line without its break, and the text after the break. Returns None if the text has no
/// break.
#[inline(always)]
pub fn first_line(text: &[u8]) -> Option<(&[u8], &[u8])>
    ensures { MatchOption result (HasNoBreak text.now) (λ r. (text.now ≡ r.0.now ++ 10 ∷ r.1.now)
        × HasNoBreak r.0.now) }
{
    let at = memchr(b'\n', text)?;
    Some((&text[..at], &text[at + 1..]))
}

/// Returns the rest of the line after this beginning, or None if the line begins otherwise.
#[inline(always)]
pub fn behind<'a>(beginning: &[u8], line: &'a [u8]) -> Option<&'a [u8]>
    ensures { MatchOption result ((more : List ℕ) → line.entry.now ≢ beginning.now ++ more)
        (λ rest. line.entry.now ≡ beginning.now ++ rest.now) }
{
    line.strip_prefix(beginning)
}
