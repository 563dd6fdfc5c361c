//! Four bytes of a text as one number, to compare them at once.

ghost use Rattle.std.specs.Prelude.{◌≡◌, ◌<◌, ◌∷◌, [], ◌++◌, MatchOption, length};
ghost use Rattle.std.specs.Int.{w32, to_le_bytes};
ghost use Rattle.streams.specs.AtOnce.{BeginsOtherwise};

/// Returns four bytes as a number. The first is the lowest.
#[inline(always)]
pub(crate) fn four(bytes: [u8; 4]) -> u32
    ensures { to_le_bytes w32 result ≡ bytes }
{
    u32::from_le_bytes(bytes)
}

/// Returns the first four bytes of a text, and what follows them, or None if it has fewer.
#[inline(always)]
pub(crate) fn first_four(text: &[u8]) -> Option<(u32, &[u8])>
    ensures { MatchOption result (length text.now < 4) (λ r. text.now ≡ to_le_bytes w32 r.0 ++ r.1.now) }
{
    match text {
        [a, b, c, d, rest @ ..] => Some((four([*a, *b, *c, *d]), rest)),
        _ => None,
    }
}

/// Returns what follows these four bytes, or None if the text begins otherwise.
#[inline(always)]
pub fn behind_four(beginning: [u8; 4], text: &[u8]) -> Option<&[u8]>
    ensures { MatchOption result (BeginsOtherwise beginning text.now)
        (λ rest. text.now ≡ beginning ++ rest.now) }
{
    let (bytes, rest) = first_four(text)?;
    if bytes == four(beginning) {
        Some(rest)
    } else {
        None
    }
}

/// Returns what follows this byte, or None if the text begins otherwise.
#[inline(always)]
pub fn behind_byte(byte: u8, text: &[u8]) -> Option<&[u8]>
    ensures { MatchOption result (BeginsOtherwise (byte ∷ []) text.now) (λ rest. text.now ≡ byte ∷ rest.now) }
{
    match text {
        [first, rest @ ..] if *first == byte => Some(rest),
        _ => None,
    }
}

/// Returns what follows these three bytes, or None if the text begins otherwise.
#[inline(always)]
pub fn behind_three(beginning: [u8; 3], text: &[u8]) -> Option<&[u8]>
    ensures { MatchOption result (BeginsOtherwise beginning text.now)
        (λ rest. text.now ≡ beginning ++ rest.now) }
{
    let [first, second, third] = beginning;
    let behind_first = behind_byte(first, text)?;
    let behind_second = behind_byte(second, behind_first)?;
    behind_byte(third, behind_second)
}
