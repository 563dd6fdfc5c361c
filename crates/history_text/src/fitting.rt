//! Which histories have a text.

ghost use Rattle.std.specs.Prelude.{◌≡◌, ◌↔◌, IsTrue};
ghost use Rattle.std.specs.Option.{option_copied};
ghost use Rattle.history.specs.Entries.{or_opening};
ghost use Rattle.history_text.specs.EntryLines.{HasLine};
ghost use Rattle.history_text.specs.HistoryText.{Fits, HasBaseText};

use crate::base_fitting::{is_good, is_opening};
use history::base::Base;
use history::entries::History;
use history::entry::Entry;
use history::header::Header;

/// Returns whether the cap is the header's, the base is its opening one or a good one, and each entry is of
/// one of its seats and can be written in a history text.
pub fn fits(header: &Header, history: &History) -> bool
    ensures { IsTrue result ↔ Fits header.now history.now }
{
    if history.cap() != header.cap || !has_base_text(header, history.base()) {
        return false;
    }
    for number in 0..history.len() {
        let Some(entry) = history.get(number) else {
            return false;
        };
        if !has_line(header, &entry) {
            return false;
        }
    }
    true
}

fn has_base_text(header: &Header, base: Option<&Base>) -> bool
    ensures { IsTrue result ↔ HasBaseText header.now (or_opening header.now (option_copied base.entry)) }
{
    match base {
        None => true,
        Some(base) => has_lines(header, base),
    }
}

/// Returns whether the base is the header's opening one, or a good one and the header is in range.
fn has_lines(header: &Header, base: &Base) -> bool
    ensures { IsTrue result ↔ HasBaseText header.now base.now }
{
    if base.header != *header {
        return false;
    }
    if is_opening(base) {
        return true;
    }
    base.header.in_range() && is_good(base)
}

fn has_line(header: &Header, entry: &Entry) -> bool
    ensures { IsTrue result ↔ HasLine header.now entry.now }
{
    entry.seat < header.seats && entry.is_written()
}
