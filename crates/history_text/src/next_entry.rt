//! Reading the lines of a history text after its base, one after another.

ghost use Rattle.std.specs.Prelude.{◌≡◌, ◌+◌, ◌<◌, ◌≤◌, ◌^◌, [], codes, Err, length, IfOk, IfSome, IfErr, IsErrOf};
ghost use Rattle.history_text.specs.Below.{MOST_FOLDED, IsInRange, HasNoBreak, Begins, IsReading, TextFault, CutShort, LacksHeader};
ghost use Rattle.history_text.specs.HistoryText.{history_form};
ghost use Rattle.history_text.specs.NextLine.{IsEntryBehind};

use crate::common_entry::common_entry;
use crate::end_line::is_end;
use crate::entry_reading::entry_of;
use crate::place::{Head, Place};
use crate::spelt_number::SpeltNumber;
use history::entry::Entry;
use history::header::Header;
use history::text::first_line;
use streams::fault::TextFault;
use streams::header_line::first_header;

/// Reads the first line of a text, and returns it with what follows.
pub fn head_of(text: &[u8]) -> Result<(Head, &[u8]), TextFault>
    ensures ok { IfOk result (λ r. Begins history_form text.now r.0 [] r.1.now) }
    ensures err { IfErr result (λ fault. IsReading history_form text.now (Err fault)) }
    ensures cut { IsErrOf result CutShort → HasNoBreak text.now }
    ensures shorter { IfOk result (λ r. length r.1.now ≤ length text.now) }
    ensures range { IfOk result (λ r. IsInRange r.0.header) }
{
    match first_header(b"aqs-history 1 ", text) {
        Ok((header, rest)) => Ok((
            Head {
                is_based: false,
                header,
            },
            rest,
        )),
        Err(_) => based_head(text),
    }
}

/// As `head_of`, for a text whose first line isn't of format 1.
fn based_head(text: &[u8]) -> Result<(Head, &[u8]), TextFault>
    requires { (fault : TextFault) × LacksHeader (codes "aqs-history 1 ") text.now fault }
    ensures ok { IfOk result (λ r. Begins history_form text.now r.0 [] r.1.now) }
    ensures err { IfErr result (λ fault. IsReading history_form text.now (Err fault)) }
    ensures cut { IsErrOf result CutShort → HasNoBreak text.now }
    ensures shorter { IfOk result (λ r. length r.1.now ≤ length text.now) }
    ensures range { IfOk result (λ r. IsInRange r.0.header) }
{
    match first_header(b"aqs-history 2 ", text) {
        Ok((header, rest)) => Ok((
            Head {
                is_based: true,
                header,
            },
            rest,
        )),
        Err(fault) => Err(fault),
    }
}

/// As `next_entry`, word by word.
#[inline(never)]
fn entry_by_words(
    rest: &[u8],
    header: &Header,
    place: Place,
) -> Result<Option<(Entry, usize)>, TextFault>
    requires range { IsInRange header.now }
    requires folded { place.folded ≤ MOST_FOLDED }
    requires few { place.count ≤ header.now.cap }
    requires lines { place.lines + place.count + 3 < 2 ^ 64 }
    ensures line { IsEntryBehind header.now place rest.now result }
    ensures cut { IsErrOf result CutShort → HasNoBreak rest.now }
    ensures shorter { IfOk result (λ next. IfSome next (λ r. r.1 < length rest.now)) }
    ensures seated { IfOk result (λ next. IfSome next (λ r. r.0.seat < header.now.seats)) }
    ensures within { IfOk result (λ next. IfSome next (λ _. place.count < header.now.cap)) }
{
    let lines = place.lines + place.count;
    let number = place.folded + place.count;
    let Some((line, after)) = first_line(rest) else {
        return Err(TextFault::CutShort);
    };
    if is_end(line, number, place.calls) {
        if after.is_empty() {
            return Ok(None);
        }
        return Err(TextFault::BadLine(lines + 3));
    }
    if place.count >= u64::from(header.cap) {
        return Err(TextFault::BadLine(lines + 2));
    }
    match entry_of(line, number, header) {
        Some(entry) => Ok(Some((entry, after.len()))),
        None => Err(TextFault::BadLine(lines + 2)),
    }
}

/// Returns the entry of the next line, and how many bytes follow it. Returns None if that is the end line,
/// and nothing follows it.
#[inline(always)]
pub fn next_entry(
    rest: &[u8],
    header: &Header,
    spelt: &mut SpeltNumber,
    place: Place,
) -> Result<Option<(Entry, usize)>, TextFault>
    requires range { IsInRange header.now }
    requires folded { place.folded ≤ MOST_FOLDED }
    requires few { place.count ≤ header.now.cap }
    requires lines { place.lines + place.count + 3 < 2 ^ 64 }
    ensures line { IsEntryBehind header.now place rest.now result }
    ensures cut { IsErrOf result CutShort → HasNoBreak rest.now }
    ensures shorter { IfOk result (λ next. IfSome next (λ r. r.1 < length rest.now)) }
    ensures seated { IfOk result (λ next. IfSome next (λ r. r.0.seat < header.now.seats)) }
    ensures within { IfOk result (λ next. IfSome next (λ _. place.count < header.now.cap)) }
{
    if place.count < u64::from(header.cap) {
        let number = place.folded + place.count;
        if let Some((entry, left)) = common_entry(rest, spelt, number, header.seats) {
            return Ok(Some((entry, left)));
        }
    }
    entry_by_words(rest, header, place)
}
