//! The holds of a seat after one of its entries. A base may have more of them than fit in 64 bits.

ghost use Rattle.std.specs.Prelude.{◌≡◌, ◌<◌, ◌^◌};
ghost use Rattle.history.specs.Counts.{holds_after};
ghost use Rattle.history.specs.Object.{in_holds};

use crate::entry::{Entry, Word};
use crate::header::Object;

/// Returns the holds of the entry's seat in the entry's mode, after the entry. Before it they were `had`.
#[inline(always)]
pub fn holds_after(object: Object, entry: Entry, had: u128) -> u128
    requires { holds_after object entry.word entry.n had < 2 ^ 128 }
    ensures { result ≡ holds_after object entry.word entry.n had }
{
    match entry.word {
        Word::Got | Word::TryGot | Word::Granted => had + in_holds(object, entry.n),
        Word::Drained | Word::Back => had + u128::from(entry.n),
        Word::Gave => had.saturating_sub(in_holds(object, entry.n)),
        Word::Await => 0,
        _ => had,
    }
}

/// Returns how many holds a request for `n` is.
#[inline(always)]
fn in_holds(object: Object, n: u32) -> u128
    ensures { result ≡ in_holds object n }
{
    match object {
        Object::Lock(_) | Object::ReadWrite(_) => 1,
        Object::Semaphore(_, _) => u128::from(n),
        Object::Latch(_) => 0,
    }
}
