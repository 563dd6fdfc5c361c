//! The objects of a script.

ghost use Rattle.std.specs.Prelude.{◌≡◌, [], map, IfOk, IfErr, IfSome, IfNone};
ghost use Rattle.serde_json.specs.View.{view};
ghost use Rattle.script.specs.Reading.{IsObjectsFault, SaysNoObject};
ghost use Rattle.script.specs.Saying.{Say, SaysObject, object_value};
ghost use Rattle.script.specs.Script.{Named, named, IsObject};

use crate::fault::ScriptFault;
use crate::json::{list_of, text_of};
use crate::name::{is_name, position_of};
use history::header::Header;
use indexmap::IndexMap;
use serde_json::Value;
use std::alloc::Global;

/// Reads the name and the header of an object with as many seats as there are threads.
fn named_header(value: &Value, threads: usize) -> Option<(&str, Header)>
    ensures found { IfSome result (λ o. IsObject threads (o.0.now, o.1)
        × (view value.entry.now ≡ object_value (o.0.now, o.1))) }
    ensures none { IfNone result ((o : Named) → IsObject threads o
        → ¬ (view value.entry.now ≡ object_value o)) }
{
    let [name, part] = list_of(value, 2, 2)? else {
        return None;
    };
    let name = text_of(name)?;
    let header = Header::read_part(text_of(part)?.as_bytes())?;
    if is_name(name) && usize::from(header.seats) == threads {
        Some((name, header))
    } else {
        None
    }
}

/// As `named_header`, but refuses a name that one of these objects has.
fn new_object<'a>(
    value: &'a Value,
    threads: usize,
    objects: &IndexMap<String, Header>,
) -> Option<(&'a str, Header)>
    ensures found { IfSome result (λ o. SaysObject threads (named objects.entry.now.entries)
        (view value.entry.now) (o.0.now, o.1)) }
    ensures none { IfNone result (SaysNoObject threads (named objects.entry.now.entries)
        (view value.entry.now)) }
{
    let (name, header) = named_header(value, threads)?;
    match position_of(name, objects) {
        None => Some((name, header)),
        Some(_) => None,
    }
}

/// Returns the objects of a list, or a fault for the first member that is no object.
pub(crate) fn objects_of(
    alloc: Global,
    values: &[Value],
    threads: usize,
) -> Result<IndexMap<String, Header>, ScriptFault>
    ensures ok { IfOk result (λ m. Say (SaysObject threads) [] (map view values.now) (named m.entries)) }
    ensures err { IfErr result (IsObjectsFault threads (map view values.now)) }
{
    let mut objects = IndexMap::new(alloc);
    for (place, value) in values.iter().enumerate() {
        let Some((name, header)) = new_object(value, threads, &objects) else {
            return Err(ScriptFault::BadObject(place));
        };
        objects.insert(String::from_str(alloc, name)?, header)?;
    }
    Ok(objects)
}
