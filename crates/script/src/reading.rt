//! Reading a script from its text.

ghost use Rattle.std.specs.Prelude.{◌≡◌, ◌≢◌, List, map, IfOk, IfErr, IfSome, IfNone};
ghost use Rattle.serde_json.specs.Data.{Data};
ghost use Rattle.serde_json.specs.View.{view};
ghost use Rattle.script.specs.Reading.{IsJson, Reads};
ghost use Rattle.script.specs.Saying.{IsTop};
ghost use Rattle.script.specs.declared.fault.ScriptFault.TheVariants.{NotJson, OutOfMemory};
ghost use Rattle.std.specs.Prelude.{◌⊎◌};

use crate::fault::ScriptFault;
use crate::json::{list_of, members_of};
use crate::limits::{MOST_OBJECTS, MOST_THREADS};
use crate::objects::objects_of;
use crate::script::Script;
use crate::workers::workers_of;
use serde_json::Value;
use std::alloc::Global;

/// The lists of a script.
#[derive(Clone, Copy)]
struct Top<'a> {
    objects: &'a [Value],
    threads: &'a [Value],
}

/// Returns the JSON value whose text the bytes are.
fn value_of(alloc: Global, text: &[u8]) -> Result<Value, ScriptFault>
    ensures ok { IfOk result (λ v. IsJson text.now (view v)) }
    ensures err { IfErr result (λ f. (f ≡ OutOfMemory) ⊎ ((f ≡ NotJson)
        × ((v : Data) → ¬ IsJson text.now v))) }
{
    match Value::from_slice(alloc, text) {
        Ok(value) => Ok(value),
        Err(error) if error.is_memory() => Err(ScriptFault::OutOfMemory),
        Err(_) => Err(ScriptFault::NotJson),
    }
}

/// Returns the lists of objects and of threads that a value has.
fn top_of(value: &Value) -> Option<Top<'_>>
    ensures found { IfSome result (λ t. IsTop (view value.entry.now) (map view t.objects.now)
        (map view t.threads.now)) }
    ensures none { IfNone result ((objects threads : List Data) →
        ¬ IsTop (view value.entry.now) objects threads) }
{
    let (objects, threads) = members_of(value, "objects", "threads")?;
    Some(Top {
        objects: list_of(objects, 1, MOST_OBJECTS)?,
        threads: list_of(threads, 1, MOST_THREADS)?,
    })
}

/// Returns the script that a text spells, or its first fault.
///
/// The text is a JSON object with two keys, and meets the [`limits`](crate::limits):
///
/// - `objects` has a list of 1 to `MOST_OBJECTS` pairs: a name, and the object part of a header, with as many
///   seats as there are threads. A name has 1 to `MOST_NAME_BYTES` characters of `a` to `z`, `0` to `9` and
///   `-`, isn't `interrupt`, and is there once.
/// - `threads` has a list of 1 to `MOST_THREADS` objects with two keys each: `repeat`, a whole number from 1
///   to `MOST_ROUNDS` without fraction and exponent, and `calls`, a list of at most `MOST_CALLS` texts. Each
///   text spells an [`Action`](crate::Action) of an object, or an interrupt.
///
/// If a key is in an object twice, its last value counts, as in `serde_json`. Time and memory grow linearly
/// with the text.
///
/// # Errors
///
/// The first of these that applies:
///
/// - [`ScriptFault::NotJson`] if the text isn't JSON, nests deeper than 127 levels, or has a number too large
///   for a float.
/// - [`ScriptFault::BadTop`] if the value doesn't have exactly those two keys, with lists of those lengths.
/// - [`ScriptFault::BadObject`] for the first object that isn't such a pair.
/// - [`ScriptFault::BadThread`] or [`ScriptFault::BadCall`] for the first thread that isn't such an object,
///   or that has a call which is neither one of those objects' nor an interrupt of one of those threads.
///
/// [`ScriptFault::OutOfMemory`] may be returned in place of any of them if an allocation fails, and never
/// otherwise.
pub fn read_script(alloc: Global, text: &[u8]) -> Result<Script, ScriptFault>
    ensures { Reads text.now result }
{
    let value = value_of(alloc, text)?;
    let Some(top) = top_of(&value) else {
        return Err(ScriptFault::BadTop);
    };
    let objects = objects_of(alloc, top.objects, top.threads.len())?;
    let workers = workers_of(alloc, top.threads, &objects)?;
    Ok(Script::of_good(objects, workers))
}
