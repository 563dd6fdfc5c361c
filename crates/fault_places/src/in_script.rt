//! Where a script is wrong.

ghost use Rattle.std.specs.Prelude.{IfOk};
ghost use Rattle.fault_places.specs.Reports.{IsPartOf, IsReportOf};
ghost use Rattle.fault_places.specs.declared.report.Kind.TheVariants as kinds;
ghost use Rattle.script.specs.declared.fault.ScriptFault.TheVariants.{NotJson};

use crate::lines::{begin_of, line_at};
use crate::reader::{Calls, Reader};
use crate::wrong::{Ending, Part, Said, Told, Wrong, quoted, wrong_words};
use script::{ScriptFault, read_script};
use serde_json::{Error, Value};
use std::alloc::{AllocError, Global};

/// A script with one object and one thread.
const SCRIPT: &str = "{\"objects\": [[\"door\", \"lock fair seats 1 conditions 0 cap 16\"]], \
    \"threads\": [{\"repeat\": 1, \"calls\": [\"door acquire x 1\", \"door give x 1\"]}]}";

const TOP: &str =
    "an object with the keys objects and threads alone: lists with 1 to 64 and 1 to 256 members";

const THREAD: &str =
    "an object with the keys repeat and calls alone: a whole number from 1 to 1000000, \
    and a list of at most 10000 texts";

const CALLS: &str = "{\"repeat\": 1, \"calls\": [\"door acquire x 1\", \"door give x 1\"]}";

const OBJECT: &str = "a list of two texts: a name and an object";

const KNOWN: &str = "a name that no object before has";

const NAME: &str = "a name of 1 to 32 characters of a to z, 0 to 9 and -, other than interrupt";

/// Returns what is said of a part that has another form.
fn instead(alloc: Global, fault: ScriptFault, expected: &'static str, example: &str) -> Told
    ensures { IfOk result (λ wrong. IsPartOf fault wrong.part) }
{
    let said = Said {
        column: None,
        found: None,
        expected,
        example: Some(String::from_str(alloc, example)?),
    };
    let part = Part::Script(fault, None);
    Ok(Wrong { part, said })
}

/// Returns the members of a list that a key of a value has.
fn list_of<'a>(value: &'a Value, key: &str) -> &'a [Value] {
    match value.get(key).and_then(Value::as_array) {
        Some(list) => list.as_slice(),
        None => &[],
    }
}

/// Returns the object part of a script's object, if that is a list of two texts.
fn object_of(member: Option<&Value>) -> Option<&str> {
    match member?.as_array()?.as_slice() {
        [name, part] if name.is_string() => part.as_str(),
        _ => None,
    }
}

/// Returns what is said of a name, with one that none of the objects before has.
fn wrong_name(alloc: Global, fault: ScriptFault, calls: &Calls<'_>, place: usize) -> Told
    ensures { IfOk result (λ wrong. IsPartOf fault wrong.part) }
{
    let name = calls.name(place);
    let is_known = (0..place).any(|other| calls.name(other) == name);
    let mut example = String::new(alloc);
    for number in 0..=place {
        example = format!(in alloc; "object-{number}")?;
        if !(0..place).any(|other| calls.name(other) == example.as_str()) {
            break;
        }
    }
    let said = Said {
        column: Some(1),
        found: Some(quoted(alloc, name.as_bytes())?),
        expected: if is_known { KNOWN } else { NAME },
        example: Some(example),
    };
    let part = Part::Script(fault, Some(0));
    Ok(Wrong { part, said })
}

/// Returns what is said of an object.
fn wrong_object(alloc: Global, fault: ScriptFault, calls: &Calls<'_>, place: usize) -> Told
    ensures { IfOk result (λ wrong. IsPartOf fault wrong.part) }
{
    let threads = calls.threads;
    let Some(text) = object_of(calls.objects.get(place)) else {
        let example = format!(in alloc;
            "[\"door\", \"lock fair seats {threads} conditions 0 cap 16\"]"
        )?;
        return instead(alloc, fault, OBJECT, &example);
    };
    if !calls.reads(alloc, place.saturating_add(1), None)? {
        return wrong_name(alloc, fault, calls, place);
    }
    let said = wrong_words(
        alloc,
        &Reader::Object(threads),
        text.as_bytes(),
        Ending::Part,
    )?;
    let part = Part::Script(fault, Some(1));
    Ok(Wrong { part, said })
}

/// Returns what is said of a call.
fn wrong_call(alloc: Global, fault: ScriptFault, calls: Calls<'_>, call: Option<&Value>) -> Told
    ensures { IfOk result (λ wrong. IsPartOf fault wrong.part) }
{
    let Some(text) = call.and_then(Value::as_str) else {
        let example = format!(in alloc; "\"{} acquire x 1\"", calls.name(0))?;
        return instead(alloc, fault, "a text", &example);
    };
    let said = wrong_words(alloc, &Reader::Call(calls), text.as_bytes(), Ending::Part)?;
    let part = Part::Script(fault, None);
    Ok(Wrong { part, said })
}

/// Returns in which line and column a text stops to be JSON, and what stands there.
fn not_json(alloc: Global, text: &[u8], error: &Error) -> Told
    ensures { IfOk result (λ wrong. IsPartOf NotJson wrong.part) }
{
    let (line, column) = (error.line().max(1) as u64, error.column().max(1));
    let begun = &text[begin_of(text, line)..];
    let rest = &begun[(column - 1).min(begun.len())..];
    let found = if error.is_eof() || rest.is_empty() {
        String::from_str(alloc, "the end of the text")?
    } else {
        quoted(alloc, line_at(rest, 1).0)?
    };
    let said = Said {
        column: Some(column as u64),
        found: Some(found),
        expected: "a script, which is a JSON text",
        example: Some(String::from_str(alloc, SCRIPT)?),
    };
    let part = Part::Line(line);
    Ok(Wrong { part, said })
}

/// Returns what is wrong with a script that has this fault.
fn wrong_with(alloc: Global, text: &[u8], fault: ScriptFault) -> Told
    ensures { IfOk result (λ wrong. IsPartOf fault wrong.part) }
{
    let value = match Value::from_slice(alloc, text) {
        Ok(value) => value,
        Err(error) if error.is_memory() => return Err(AllocError),
        Err(error) if fault == ScriptFault::NotJson => return not_json(alloc, text, &error),
        Err(_) => Value::Null,
    };
    let threads = list_of(&value, "threads");
    let calls = Calls {
        objects: list_of(&value, "objects"),
        threads: threads.len() as u64,
    };
    match fault {
        ScriptFault::BadObject(object) => wrong_object(alloc, fault, &calls, object),
        ScriptFault::BadThread(_) => instead(alloc, fault, THREAD, CALLS),
        ScriptFault::BadCall(thread, call) => {
            let listed = threads
                .get(thread)
                .and_then(|it| list_of(it, "calls").get(call));
            wrong_call(alloc, fault, calls, listed)
        }
        _ => instead(alloc, fault, TOP, SCRIPT),
    }
}

/// Returns what is wrong with a script, or None if it is right.
pub(crate) fn wrong_in_script(alloc: Global, text: &[u8]) -> Result<Option<Wrong>, AllocError>
    ensures { IfOk result (IsReportOf kinds.Script text.now) }
{
    match read_script(alloc, text) {
        Ok(_) => Ok(None),
        Err(ScriptFault::OutOfMemory) => Err(AllocError),
        Err(fault) => Ok(Some(wrong_with(alloc, text, fault)?)),
    }
}
