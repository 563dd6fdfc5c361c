//! What is said of a text.

ghost use Rattle.std.specs.Prelude.{◌≡◌, IfOk};
ghost use Rattle.fault_places.specs.Reports.{IsReport, IsReportOf, begins_script, is_blank, kind_of};

use crate::in_script::wrong_in_script;
use crate::in_text::{wrong_in_history, wrong_in_steps};
use crate::reader::Reader;
use crate::wrong::{Wrong, wrong_line};
use std::alloc::{AllocError, Global};

/// Which of the texts one is, by its beginning.
#[derive(Clone, Copy, Debug, PartialEq, Eq)]
pub enum Kind {
    Steps,
    History,
    Script,
    /// None of them.
    Other,
}

/// What is said of a text.
#[derive(Debug, Drop)]
pub enum Report {
    /// It is a right history text.
    History,
    /// It is a right text of another kind.
    Right(Kind),
    Wrong(Wrong),
}

impl Kind {
    /// Returns what is said of a right text that is no history text.
    pub fn right(self) -> &'static [u8] {
        match self {
            Kind::Steps => b"a right steps text, which aqs replay answers\n",
            _ => b"a right script, which aqs run runs\n",
        }
    }

    /// Returns what a right text is called that is no history text.
    pub fn name(self) -> &'static str {
        match self {
            Kind::Steps => "steps text",
            _ => "script",
        }
    }
}

/// Returns whether the byte may stand between the parts of a JSON text.
fn is_blank(byte: u8) -> bool
    ensures { result ≡ is_blank byte }
{
    matches!(byte, b' ' | b'\n' | b'\r' | b'\t')
}

/// Returns whether the first byte that isn't blank begins a JSON object.
fn begins_script(text: &[u8]) -> bool
    ensures { result ≡ begins_script text.now }
{
    for byte in text {
        if !is_blank(*byte) {
            return *byte == b'{';
        }
    }
    false
}

/// Returns which of the texts this is.
fn kind_of(text: &[u8]) -> Kind
    ensures { result ≡ kind_of text.now }
{
    if text.starts_with(b"aqs-steps") {
        Kind::Steps
    } else if text.starts_with(b"aqs-history") {
        Kind::History
    } else if begins_script(text) {
        Kind::Script
    } else {
        Kind::Other
    }
}

/// Returns what is wrong with a text of this kind, or None if it is right.
fn wrong_in(alloc: Global, kind: Kind, text: &[u8]) -> Result<Option<Wrong>, AllocError>
    ensures { IfOk result (IsReportOf kind text.now) }
{
    match kind {
        Kind::Steps => wrong_in_steps(alloc, text),
        Kind::History => wrong_in_history(alloc, text),
        Kind::Script => wrong_in_script(alloc, text),
        Kind::Other => Ok(Some(wrong_line(alloc, text, 1, &Reader::Head(Kind::Other))?)),
    }
}

/// Returns what is said of a text.
pub fn report_of(alloc: Global, text: &[u8]) -> Result<Report, AllocError>
    ensures { IfOk result (IsReport text.now) }
{
    let kind = kind_of(text);
    match wrong_in(alloc, kind, text)? {
        Some(wrong) => Ok(Report::Wrong(wrong)),
        None => match kind {
            Kind::History => Ok(Report::History),
            _ => Ok(Report::Right(kind)),
        },
    }
}
