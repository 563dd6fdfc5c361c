//! Reading a history text.

ghost use Rattle.std.specs.Prelude.{◌≡◌, [], None};
ghost use Rattle.history.specs.Entries.{or_opening};
ghost use Rattle.history.specs.Header.{IsInRange};
ghost use Rattle.history_text.specs.HistoryText.{Reads};
ghost use Rattle.history_text.specs.NextLine.{IsEarly};
ghost use Rattle.history_text.specs.inner.NextLine.{AreAllRead};

use crate::base_text::base_behind;
use crate::next_entry::{head_of, next_entry};
use crate::place::{Head, Place};
use crate::spelt_number::SpeltNumber;
use history::base::Base;
use history::entries::History;
use history::header::Header;
use std::alloc::Global;
use streams::fault::ReadFault;

/// Returns the header and the history that a text spells, or its first fault, or lack of memory.
///
/// No room is owed in what is read. It fits its header (`what_is_read_fits`) and needn't be legal. From a
/// text of format 1 it has no base.
pub fn read_text(alloc: Global, text: &[u8]) -> Result<(Header, History), ReadFault>
    ensures { Reads text.now result }
{
    let (head, after) = head_of(text)?;
    let (base, place, left) = base_behind(alloc, &head, after)?;
    let rest = &after[after.len() - left..];
    match read_entries(empty_on(alloc, head.header.cap, base), rest, &head, place) {
        Ok(history) => Ok((head.header, history)),
        Err(fault) => Err(fault),
    }
}

/// Returns an empty history on a base, or on none.
fn empty_on(alloc: Global, cap: u32, base: Option<Base>) -> History
    ensures { result ≡ record { cap = cap; base = base; entries = []; owed = 0; places = 0 } }
{
    match base {
        Some(base) => History::open_on(cap, base),
        None => History::open(alloc, cap),
    }
}

/// Reads the entries of a text from a position on, into an empty history.
fn read_entries(
    empty: History,
    ahead: &[u8],
    head: &Head,
    place: Place,
) -> Result<History, ReadFault>
    requires range { IsInRange head.now.header }
    requires empty { (empty.entries ≡ []) × (empty.owed ≡ 0) × (empty.cap ≡ head.now.header.cap) }
    requires places { empty.places ≡ 0 }
    requires none { (or_opening head.now.header empty.base).entries ≡ 0 → empty.base ≡ None }
    requires place { IsEarly place }
    ensures { AreAllRead head.now empty.base ahead.now place result }
{
    let mut history = empty;
    let mut place = place;
    let mut rest = ahead;
    let mut spelt = SpeltNumber::new();
    while let Some((entry, left)) = next_entry(rest, &head.header, &mut spelt, place)? {
        match history.make_room(1) {
            Ok(()) => {}
            Err(_) => return Err(ReadFault::OutOfMemory),
        }
        history.add(entry, 0);
        place = place.behind(&entry);
        prove!(place.count <= history.len());
        rest = &rest[rest.len() - left..];
    }
    Ok(history)
}
