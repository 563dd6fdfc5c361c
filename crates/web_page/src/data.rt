//! The data of a page, as JSON.

ghost use Rattle.history.specs.Header.{IsInRange};

use drawing::bar::Bar;
use drawing::kind::Kind;
use drawing::mark::{Mark, Sign};
use explaining::words::put_entry;
use history::base::{Base, LinePlace};
use history::entry::Entry;
use history::header::Header;
use picture::naming::{Names, Whom};
use picture::picture::Picture;
use serde::Serialize;
use serde_json::{Value, json};
use std::alloc::{AllocError, Global};

/// All that a page shows. A list begins with the words for the columns of its rows. A number that a script
/// would not read exactly is a string.
#[derive(Drop, Serialize)]
pub(crate) struct Data {
    header: String,
    folded: String,
    entries: String,
    from: u64,
    to: u64,
    cut: bool,
    wrong: Option<String>,
    #[serde(skip_serializing_if = "Option::is_none")]
    why: Option<String>,
    stretches: Vec<Value>,
    marks: Vec<Value>,
    amounts: Vec<Value>,
    entries_shown: Vec<Value>,
    start: Value,
    #[serde(skip_serializing_if = "Option::is_none")]
    names: Option<Value>,
}

impl Data {
    /// Returns the data of a picture, of the entries that it shows, and of who waits before them.
    pub(crate) fn of(
        alloc: Global,
        names: &Names,
        picture: &Picture,
        entries: &[Entry],
        start: Value,
    ) -> Result<Self, AllocError>
        requires { IsInRange picture.now.header }
    {
        let mut header = Vec::new(alloc);
        if picture.header.write_part(&mut header).is_err() {
            return Err(AllocError);
        }
        Ok(Data {
            header: text_of(alloc, &header)?,
            folded: format!(in alloc; "{}", picture.folded)?,
            entries: format!(in alloc; "{}", picture.entries)?,
            from: picture.from.min(picture.to),
            to: picture.to,
            cut: picture.is_cut,
            wrong: match picture.wrong {
                Some(number) => Some(format!(in alloc; "{number}")?),
                None => None,
            },
            why: match picture.why.is_empty() {
                true => None,
                false => Some(text_of(alloc, &picture.why)?),
            },
            stretches: stretches_of(alloc, &picture.drawn.bars)?,
            marks: marks_of(alloc, &picture.drawn.marks)?,
            amounts: amounts_of(alloc, &picture.drawn.curve)?,
            entries_shown: shown_of(alloc, entries)?,
            start,
            names: names_of(alloc, names, picture.header)?,
        })
    }
}

/// Returns the text of some bytes of ASCII.
fn text_of(alloc: Global, bytes: &[u8]) -> Result<String, AllocError> {
    let mut text = String::new(alloc);
    for byte in bytes {
        text.push(char::from(*byte))?;
    }
    Ok(text)
}

/// Returns what each stretch shows, by the letters of the classes in the SVG document, its seat, its first
/// and its last entry, and how many holds.
fn stretches_of(alloc: Global, bars: &[Bar]) -> Result<Vec<Value>, AllocError> {
    let mut rows = Vec::new(alloc);
    rows.push(json!(in alloc; ["kind", "seat", "first", "last", "holds"])?)?;
    for bar in bars {
        let kind = match bar.kind {
            Kind::Exclusive => format!(in alloc; "x")?,
            Kind::Shared => format!(in alloc; "s")?,
            Kind::InLine => format!(in alloc; "w")?,
            Kind::Asleep(condition) => format!(in alloc; "z{condition}")?,
        };
        let holds = format!(in alloc; "{}", bar.holds)?;
        rows.push(json!(in alloc; [kind, bar.seat, bar.first, bar.last, holds])?)?;
    }
    Ok(rows)
}

/// Returns what each mark shows, its seat and its entry.
fn marks_of(alloc: Global, marks: &[Mark]) -> Result<Vec<Value>, AllocError> {
    let mut rows = Vec::new(alloc);
    rows.push(json!(in alloc; ["sign", "seat", "entry"])?)?;
    for mark in marks {
        rows.push(json!(in alloc; [word_of(mark.sign), mark.seat, mark.number])?)?;
    }
    Ok(rows)
}

/// Returns the word of a sign.
fn word_of(sign: Sign) -> &'static str {
    match sign {
        Sign::Missed => "missed",
        Sign::Refused => "refused",
        Sign::Signal => "signal",
        Sign::Drained => "drained",
        Sign::Counted => "counted",
        Sign::Granted => "granted",
        Sign::TimedOut => "timeout",
        Sign::Interrupted => "interrupt",
        Sign::Barged => "barged",
    }
}

/// Returns the free permits, or the count, after each entry.
fn amounts_of(alloc: Global, amounts: &[i128]) -> Result<Vec<Value>, AllocError> {
    let mut rows = Vec::new(alloc);
    rows.push(Value::try_from_str(alloc, "amount")?)?;
    for amount in amounts {
        rows.push(Value::String(format!(in alloc; "{amount}")?))?;
    }
    Ok(rows)
}

/// Returns the seat and the words of each entry.
fn shown_of(alloc: Global, entries: &[Entry]) -> Result<Vec<Value>, AllocError> {
    let mut rows = Vec::new(alloc);
    rows.push(json!(in alloc; ["seat", "words"])?)?;
    for entry in entries {
        let mut words = Vec::new(alloc);
        put_entry(&mut words, *entry)?;
        rows.push(json!(in alloc; [entry.seat, text_of(alloc, &words)?])?)?;
    }
    Ok(rows)
}

/// Returns who waits in a state: in the queue, and on each condition.
pub fn start_of(alloc: Global, state: &Base) -> Result<Value, AllocError> {
    let mut line = Vec::new(alloc);
    line.push(Value::try_from_str(alloc, "seat")?)?;
    let places: &[LinePlace] = &state.line;
    for place in places {
        line.push(Value::from(place.who.seat))?;
    }
    let mut sleepers = Vec::new(alloc);
    sleepers.push(json!(in alloc; ["condition", "seat"])?)?;
    for condition in 0..state.header.conditions {
        for sleeper in state.sleepers_of(condition) {
            sleepers.push(json!(in alloc; [condition, sleeper.seat])?)?;
        }
    }
    json!(in alloc; {"line": line, "sleepers": sleepers})
}

/// Returns the names of an object's seats and conditions, if any has one.
fn names_of(alloc: Global, names: &Names, header: Header) -> Result<Option<Value>, AllocError> {
    let mut rows = Vec::new(alloc);
    rows.push(json!(in alloc; ["of", "name"])?)?;
    for seat in 0..header.seats {
        let name = names.of(Whom::Seat(seat));
        if name.len() > 0 {
            let seat = format!(in alloc; "seat {seat}")?;
            rows.push(json!(in alloc; [seat, text_of(alloc, name)?])?)?;
        }
    }
    for condition in 0..header.conditions {
        let name = names.of(Whom::Condition(condition));
        if name.len() > 0 {
            let condition = format!(in alloc; "condition {condition}")?;
            rows.push(json!(in alloc; [condition, text_of(alloc, name)?])?)?;
        }
    }
    if rows.len() == 1 {
        return Ok(None);
    }
    Ok(Some(Value::Array(rows)))
}
