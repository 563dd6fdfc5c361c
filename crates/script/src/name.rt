//! Names of objects.

ghost use Rattle.std.specs.Prelude.{◌≡◌, ◌≢◌, ◌↔◌, All, IfSome, IfNone, IsTrue, Some, slice_get};
ghost use Rattle.history.specs.declared.header.Header.{Header};
ghost use Rattle.script.specs.Name.{IsName, is_name_byte};
ghost use Rattle.script.specs.Script.{named};

use crate::limits::MOST_NAME_BYTES;
use history::header::Header;
use indexmap::IndexMap;

/// The word that begins a call without a name.
pub(crate) const INTERRUPT: &str = "interrupt";

fn is_name_byte(byte: u8) -> bool
    ensures { result ≡ is_name_byte byte }
{
    byte.is_ascii_lowercase() || byte.is_ascii_digit() || byte == b'-'
}

/// Returns whether an object may have this name.
pub(crate) fn is_name(name: &str) -> bool
    ensures { IsTrue result ↔ IsName name.now }
{
    1 <= name.len()
        && name.len() <= MOST_NAME_BYTES
        && name.as_bytes().iter().all(|byte| is_name_byte(*byte))
        && name != INTERRUPT
}

/// Returns the place of the object with this name.
pub(crate) fn position_of(name: &str, objects: &IndexMap<String, Header>) -> Option<usize>
    ensures found { IfSome result (λ i. (h : Header)
        × (slice_get (named objects.now.entries) i ≡ Some (name.now, h))) }
    ensures none { IfNone result (All (λ o. o.0 ≢ name.now) (named objects.now.entries)) }
{
    objects.get_index_of(name)
}
