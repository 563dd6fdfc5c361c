//! The end of a line that asks for 1: a mode, the amount and the line break.

ghost use Rattle.std.specs.Prelude.{◌≡◌, ◌≢◌, ◌∷◌, [], ◌++◌, ℕ, IfSome, IfNone, codes};
ghost use Rattle.std.specs.Int.{w32, to_le_bytes};
ghost use Rattle.history.specs.declared.entry.Mode.{Mode};
ghost use Rattle.streams.specs.Once.{AsksOnce, asking_once};

use crate::at_once::{first_four, four};
use history::entry::Mode;

/// Returns the mode that these four bytes spell, if they spell one.
#[inline(always)]
fn mode_of_four(bytes: u32) -> Option<Mode>
    ensures found { IfSome result (λ mode. to_le_bytes w32 bytes ≡ asking_once mode) }
    ensures none { IfNone result ((mode : Mode) → to_le_bytes w32 bytes ≢ asking_once mode) }
{
    if bytes == four(*b"x 1\n") {
        Some(Mode::X)
    } else if bytes == four(*b"s 1\n") {
        Some(Mode::S)
    } else {
        None
    }
}

/// Returns the mode that begins the text, if 1 and a line break follow it, and how many bytes follow those.
#[inline(always)]
pub fn mode_of_once(text: &[u8]) -> Option<(Mode, usize)>
    ensures found { IfSome result (AsksOnce text.now) }
    ensures none { IfNone result ((found : Mode × ℕ) → AsksOnce text.now found → ⊥) }
{
    let (bytes, rest) = first_four(text)?;
    Some((mode_of_four(bytes)?, rest.len()))
}
