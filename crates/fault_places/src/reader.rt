//! What reads a line at its place in a text.

use crate::report::Kind;
use history::header::Header;
use history::limits::MOST_FOLDED;
use history_text::next_entry::{head_of, next_entry};
use history_text::place::{Head, Place};
use history_text::spelt_number::SpeltNumber;
use history_text::{ReadFault, TextFault, read_text};
use script::{ScriptFault, read_script};
use serde_json::Value;
use std::alloc::{AllocError, Global};
use steps::header::{StepsHeader, header_on};
use steps::next_line::next_line;

/// The most lines that are read before a line.
const MOST_LINES: u64 = 1 << 62;

/// What reads a line, or the words of a part of a script.
#[derive(Clone, Copy)]
pub(crate) enum Reader<'a> {
    /// The first line of a text of this kind.
    Head(Kind),
    /// A line of a steps text, after this number of acts.
    Act(StepsHeader, u64),
    /// A line of a history text.
    Line(Ahead<'a>),
    /// The object part of a script with this number of threads.
    Object(u64),
    /// A call of a script.
    Call(Calls<'a>),
    /// No line is right after the end line.
    End,
}

/// The place of a line of a history text.
#[derive(Clone, Copy)]
pub(crate) struct Ahead<'a> {
    pub head: Head,
    /// The lines before.
    pub front: &'a [u8],
    /// The line's number.
    pub number: u64,
    /// The position after the lines of all seats, if they are there.
    pub place: Option<Place>,
}

/// The objects of a script, and how many threads it has.
#[derive(Clone, Copy)]
pub(crate) struct Calls<'a> {
    pub objects: &'a [Value],
    pub threads: u64,
}

/// Returns the position after the next entry and what follows it, or None inside at the end line. Returns None
/// if the line is another.
pub(crate) fn entry_ahead<'a>(
    ahead: &'a [u8],
    header: &Header,
    place: Place,
) -> Option<Option<(Place, &'a [u8])>> {
    if !header.in_range()
        || place.folded > MOST_FOLDED as u64
        || place.count > u64::from(header.cap)
        || place.lines > MOST_LINES
        || place.calls > MOST_LINES
    {
        return None;
    }
    match next_entry(ahead, header, &mut SpeltNumber::new(), place) {
        Ok(Some((entry, left))) => Some(Some((place.behind(&entry), &ahead[ahead.len() - left..]))),
        Ok(None) => Some(None),
        Err(_) => None,
    }
}

impl Ahead<'_> {
    /// Returns whether a line of a base may come.
    pub(crate) fn is_in_base(&self) -> bool {
        self.head.is_based && self.place.is_none_or(|place| place.count == 0)
    }

    /// Returns whether a line with its break is right after those before.
    fn reads(&self, alloc: Global, line: &[u8]) -> Result<bool, AllocError> {
        if let Some(place) = self.place
            && !self.is_in_base()
        {
            return Ok(entry_ahead(line, &self.head.header, place).is_some());
        }
        let mut text = Vec::from_slice(alloc, self.front)?;
        text.extend_from_slice(line)?;
        match read_text(alloc, &text) {
            Ok(_) | Err(ReadFault::Text(TextFault::CutShort)) => Ok(true),
            Err(ReadFault::Text(_)) => Ok(false),
            Err(ReadFault::OutOfMemory) => Err(AllocError),
        }
    }
}

impl Calls<'_> {
    /// Returns the name of an object, or an empty one.
    pub(crate) fn name(&self, place: usize) -> &str {
        match self.objects.get(place).and_then(Value::as_array) {
            Some(pair) => pair.get(0).and_then(Value::as_str).unwrap_or(""),
            None => "",
        }
    }

    /// Returns whether a script is right that has latches of the first names, and one call or none.
    pub(crate) fn reads(
        &self,
        alloc: Global,
        count: usize,
        call: Option<&[u8]>,
    ) -> Result<bool, AllocError> {
        let mut text = String::from_str(alloc, "{\"objects\":[")?;
        for place in 0..count {
            text.push_str(if place > 0 { ",[" } else { "[" })?;
            let (name, threads) = (self.name(place), self.threads);
            text.push_str(&format!(in alloc;
                "{name:?},\"latch seats {threads} count 1 cap 16\"]"
            )?)?;
        }
        text.push_str("],\"threads\":[{\"repeat\":1,\"calls\":[")?;
        if let Some(call) = call {
            text.push_str(&format!(in alloc; "{:?}", String::from_utf8_lossy(alloc, call)?)?)?;
        }
        for _ in 1..self.threads {
            text.push_str("]},{\"repeat\":1,\"calls\":[")?;
        }
        text.push_str("]}]}")?;
        match read_script(alloc, text.as_bytes()) {
            Ok(_) => Ok(true),
            Err(ScriptFault::OutOfMemory) => Err(AllocError),
            Err(_) => Ok(false),
        }
    }
}

impl Reader<'_> {
    /// Returns whether a line is right at its place.
    pub(crate) fn reads(&self, alloc: Global, line: &[u8]) -> Result<bool, AllocError> {
        let mut text = Vec::from_slice(alloc, line)?;
        text.push(b'\n')?;
        match self {
            Reader::Head(_) => Ok(header_on(line).is_some() || head_of(&text).is_ok()),
            Reader::Act(header, count) => Ok(
                1 <= header.header.seats
                    && *count < MOST_LINES
                    && next_line(&text, header, *count).is_ok(),
            ),
            Reader::Line(ahead) => ahead.reads(alloc, &text),
            Reader::Object(threads) => {
                Ok(Header::read_part(line).is_some_and(|it| u64::from(it.seats) == *threads))
            }
            Reader::Call(calls) => calls.reads(alloc, calls.objects.len(), Some(line)),
            Reader::End => Ok(false),
        }
    }
}
