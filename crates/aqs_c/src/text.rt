//! A history as a text, and a text in memory that C owns.
ghost use Rattle.std.specs.Prelude.{◌≡◌, Some, IfOk};
ghost use Rattle.std.specs.Option.{IsSomeAnd};
ghost use Rattle.history_text.specs.Pieces.{history_text};
ghost use Rattle.aqs_c.specs.Calls.{IsPut};
ghost use Rattle.aqs_c.specs.inner.Texts.{IsTextOf};

use history::entries::History;
use history::fault::Fault;
use history_text::{fits, write_text};
use std::alloc::Global;

/// The text of a history on a base. The history of an object always has a base and fits its header. This is
/// checked, since the writer asks for it.
pub(crate) fn text_of(alloc: Global, history: &History) -> Result<Vec<u8>, Fault>
    ensures { IfOk result (λ text. IsTextOf history.now text.items) }
{
    let Some(base) = history.base() else {
        return Err(Fault::OutOfPhase);
    };
    if !base.header.in_range() || !fits(&base.header, history) {
        return Err(Fault::OutOfPhase);
    }
    write_text(alloc, &base.header, history)
}

/// Writes the text if it fits, and nothing otherwise.
pub(crate) fn put_text(out: &mut [u8], text: &[u8])
    ensures { IsPut text.now out.old out.new }
{
    if text.len() <= out.len() {
        out[..text.len()].copy_from_slice(text);
    }
}
