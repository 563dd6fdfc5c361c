//! Where a steps text or a history text is wrong.

ghost use Rattle.std.specs.Prelude.{IfOk};
ghost use Rattle.fault_places.specs.Reports.{IsReportOf};
ghost use Rattle.fault_places.specs.declared.report.Kind.TheVariants as kinds;

use crate::lines::{begin_of, follows_end, line_at, number_of};
use crate::reader::{Ahead, Reader, entry_ahead};
use crate::report::Kind;
use crate::wrong::{Wrong, wrong_line};
use history::header::Header;
use history_text::base_text::base_behind;
use history_text::next_entry::head_of;
use history_text::place::Place;
use history_text::{ReadFault, read_text};
use std::alloc::{AllocError, Global};
use steps::header::header_on;
use steps::read_steps;

/// Returns what reads the line of this number of a steps text.
fn steps_reader(text: &[u8], number: u64) -> Reader<'_> {
    match header_on(line_at(text, 1).0) {
        Some(_) if follows_end(text, number) => Reader::End,
        Some(header) if number >= 2 => Reader::Act(header, number - 2),
        _ => Reader::Head(Kind::Steps),
    }
}

/// Returns the position after the entries that are right.
fn behind_entries(header: &Header, from: Place, ahead: &[u8]) -> Place {
    let (mut place, mut rest) = (from, ahead);
    for _ in 0..header.cap {
        let Some(Some((next, after))) = entry_ahead(rest, header, place) else {
            return place;
        };
        place = next;
        rest = after;
    }
    place
}

/// Returns what reads the line of this number of a history text.
fn history_reader(alloc: Global, text: &[u8], number: u64) -> Result<Reader<'_>, AllocError> {
    let head = match head_of(text) {
        Ok((head, _)) if number >= 2 => head,
        _ => return Ok(Reader::Head(Kind::History)),
    };
    if follows_end(text, number) {
        return Ok(Reader::End);
    }
    let front = &text[..begin_of(text, number)];
    let mut ahead = Vec::from_slice(alloc, &front[begin_of(front, 2)..])?;
    ahead.push(b'\n')?;
    let place = match base_behind(alloc, &head, &ahead) {
        Ok((_, place, left)) => Some(behind_entries(
            &head.header,
            place,
            &ahead[ahead.len() - left..],
        )),
        Err(ReadFault::Text(_)) => None,
        Err(ReadFault::OutOfMemory) => return Err(AllocError),
    };
    Ok(Reader::Line(Ahead {
        head,
        front,
        number,
        place,
    }))
}

/// Returns what is wrong with a steps text, or None if it is right.
pub(crate) fn wrong_in_steps(alloc: Global, text: &[u8]) -> Result<Option<Wrong>, AllocError>
    ensures { IfOk result (IsReportOf kinds.Steps text.now) }
{
    match read_steps(alloc, text) {
        Ok(_) => Ok(None),
        Err(ReadFault::OutOfMemory) => Err(AllocError),
        Err(ReadFault::Text(fault)) => {
            let number = number_of(text, fault);
            Ok(Some(wrong_line(alloc, text, number, &steps_reader(text, number))?))
        }
    }
}

/// Returns what is wrong with a history text, or None if it is right.
pub(crate) fn wrong_in_history(alloc: Global, text: &[u8]) -> Result<Option<Wrong>, AllocError>
    ensures { IfOk result (IsReportOf kinds.History text.now) }
{
    match read_text(alloc, text) {
        Ok(_) => Ok(None),
        Err(ReadFault::OutOfMemory) => Err(AllocError),
        Err(ReadFault::Text(fault)) => {
            let number = number_of(text, fault);
            let reader = history_reader(alloc, text, number)?;
            Ok(Some(wrong_line(alloc, text, number, &reader)?))
        }
    }
}
