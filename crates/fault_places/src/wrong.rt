//! What is said of a wrong text.

ghost use Rattle.std.specs.Prelude.{IfOk, length};
ghost use Rattle.fault_places.specs.Reports.{IsAt, IsWithin};

use crate::examples::{examples_of, expected};
use crate::lines::{end_of, line_at};
use crate::reader::Reader;
use history::text::first_line;
use history::words::Words;
use script::ScriptFault;
use std::alloc::{AllocError, Global};

/// How many bytes of the text are shown.
const SHOWN: usize = 60;

/// Which part of a text is wrong.
#[derive(Clone, Copy, Debug, PartialEq, Eq)]
pub enum Part {
    /// The line of this number, from 1.
    Line(u64),
    /// The part of a script that has this fault, and in it the member of an object's list.
    Script(ScriptFault, Option<u8>),
}

/// What is said of a part that is wrong.
#[derive(Debug, Drop)]
pub struct Said {
    /// From 1.
    pub column: Option<u64>,
    /// What stands there.
    pub found: Option<String>,
    pub expected: &'static str,
    /// A right line.
    pub example: Option<String>,
}

/// What is said of a wrong text.
#[derive(Debug, Drop)]
pub struct Wrong {
    pub part: Part,
    pub said: Said,
}

/// What is said of a wrong text, if no allocation fails.
pub(crate) type Told = Result<Wrong, AllocError>;

/// What follows the last word of a line: a break, the end of the text, or the end of a script's part.
#[derive(Clone, Copy)]
pub(crate) enum Ending {
    Break,
    Text,
    Part,
}

impl Part {
    /// Returns the name of the part.
    pub fn name(&self, alloc: Global) -> Result<String, AllocError> {
        let (fault, member) = match self {
            Part::Line(line) => return format!(in alloc; "line {line}"),
            Part::Script(fault, member) => (fault, member),
        };
        let name = match fault {
            ScriptFault::BadObject(object) => format!(in alloc; "objects[{object}]")?,
            ScriptFault::BadThread(thread) => format!(in alloc; "threads[{thread}]")?,
            ScriptFault::BadCall(thread, call) => format!(in alloc;
                "threads[{thread}].calls[{call}]"
            )?,
            _ => String::from_str(alloc, "the top")?,
        };
        match member {
            Some(member) => format!(in alloc; "{name}[{member}]"),
            None => Ok(name),
        }
    }
}

impl Wrong {
    /// Returns the lines that say it.
    pub fn lines(&self, alloc: Global) -> Result<String, AllocError> {
        let mut told = format!(in alloc; "wrong at {}", self.part.name(alloc)?)?;
        if let Some(column) = self.said.column {
            told.push_str(&format!(in alloc; " column {column}")?)?;
        }
        if let Some(found) = &self.said.found {
            told.push_str(&format!(in alloc; "\nfound {found}")?)?;
        }
        told.push_str(&format!(in alloc; "\nexpected {}\n", self.said.expected)?)?;
        if let Some(example) = &self.said.example {
            told.push_str(&format!(in alloc; "example {example}\n")?)?;
        }
        Ok(told)
    }
}

/// Returns the first [`SHOWN`] bytes between quotes. A byte that isn't plain is written as `\x` and two
/// digits.
pub(crate) fn quoted(alloc: Global, bytes: &[u8]) -> Result<String, AllocError> {
    let mut out = String::from_str(alloc, "\"")?;
    for byte in bytes.iter().take(SHOWN) {
        if (b' '..127).contains(byte) && *byte != b'"' && *byte != b'\\' {
            out.push(char::from(*byte))?;
        } else {
            out.push_str(&format!(in alloc; "\\x{byte:02x}")?)?;
        }
    }
    out.push_str(if SHOWN < bytes.len() { "..\"" } else { "\"" })?;
    Ok(out)
}

/// Returns what stands in a line after this number of words.
fn found(alloc: Global, line: &[u8], words: usize, ending: Ending) -> Result<String, AllocError> {
    let mut rest = Words::of(line);
    for _ in 0..words {
        let _ = rest.next();
    }
    let word = rest.next();
    let is_cut = matches!(ending, Ending::Text) && rest.next().is_none();
    let end = match ending {
        Ending::Break => "the end of the line",
        Ending::Text | Ending::Part => "the end of the text",
    };
    match word {
        Some(word) if !is_cut => quoted(alloc, word),
        Some(word) if !word.is_empty() => format!(in alloc; "{} and {end}", quoted(alloc, word)?),
        _ => String::from_str(alloc, end),
    }
}

/// How many first words of a line begin a right line, and the right line that an example's end makes of them.
type Reach = Option<(usize, Vec<u8>)>;

/// Returns how far the words of a line are right, or None if no example is right at its place.
fn reach_of(alloc: Global, reader: &Reader<'_>, line: &[u8]) -> Result<Reach, AllocError> {
    let examples = examples_of(alloc, reader, line)?;
    let mut best: Reach = None;
    let mut left = examples.as_bytes();
    for _ in 0..examples.len() {
        let Some((example, after)) = first_line(left) else {
            break;
        };
        left = after;
        for words in 0..example.len().saturating_add(2) {
            let (Some(end), Some(rest)) = (end_of(line, words), end_of(example, words)) else {
                break;
            };
            let mut text = Vec::from_slice(alloc, &line[..end])?;
            text.extend_from_slice(&example[rest..])?;
            let is_further = best.as_ref().is_none_or(|best| best.0 < words);
            if is_further && reader.reads(alloc, &text)? {
                best = Some((words, text));
            }
        }
    }
    Ok(best)
}

/// Returns what is said of words that this reader refuses.
pub(crate) fn wrong_words(
    alloc: Global,
    reader: &Reader<'_>,
    line: &[u8],
    ending: Ending,
) -> Result<Said, AllocError>
    ensures { IfOk result (IsWithin (length line.now)) }
{
    let Some((words, example)) = reach_of(alloc, reader, line)? else {
        return Ok(Said {
            column: Some(1),
            found: Some(quoted(alloc, line)?),
            expected: expected(reader),
            example: None,
        });
    };
    let end = end_of(line, words).unwrap_or(0);
    let space = usize::from(words > 0);
    let is_line = end_of(&example, words) == Some(example.len());
    Ok(Said {
        column: Some(end.saturating_add(space).min(line.len()) as u64 + 1),
        found: Some(found(alloc, line, words, ending)?),
        expected: match is_line {
            true if line == example.as_slice() => "a line break",
            true => "the end of the line",
            false => expected(reader),
        },
        example: Some(String::from_utf8_lossy(alloc, &example)?),
    })
}

/// Returns what is wrong with the line of this number.
pub(crate) fn wrong_line(alloc: Global, text: &[u8], number: u64, reader: &Reader<'_>) -> Told
    ensures { IfOk result (IsAt number (length text.now)) }
{
    let (line, is_ended) = line_at(text, number);
    let ending = if is_ended {
        Ending::Break
    } else {
        Ending::Text
    };
    let said = wrong_words(alloc, reader, line, ending)?;
    let part = Part::Line(number);
    Ok(Wrong { part, said })
}
