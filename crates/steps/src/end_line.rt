//! The last line of a steps text.

ghost use Rattle.std.specs.Prelude.{◌≡◌, ◌↔◌, ◌<◌, ◌^◌, IsTrue};
ghost use Rattle.steps.specs.StepLines.{end_line};

use history::number::number_of;
use history::text::behind;

/// The greatest number of acts of a text.
pub const MOST_ACTS: u64 = 4_294_967_295;

/// Returns whether the line ends a text of `count` steps.
#[inline(always)]
pub fn is_end(line: &[u8], count: u64) -> bool
    ensures { IsTrue result ↔ ((count < 2 ^ 32) × (line.now ≡ end_line count)) }
{
    if count > MOST_ACTS {
        return false;
    }
    let Some(number) = behind(b"end ", line) else {
        return false;
    };
    match number_of(number) {
        Some(found) => found == count,
        None => false,
    }
}
