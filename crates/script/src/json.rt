//! Parts of a JSON value.

ghost use Rattle.std.specs.Prelude.{◌≡◌, ℕ, List, map, IfSome, IfNone};
ghost use Rattle.serde_json.specs.Data.{Data, number, string, unsigned};
ghost use Rattle.serde_json.specs.View.{view};
ghost use Rattle.script.specs.Saying.{HasMembers, IsList};

use serde_json::Value;

/// Returns the two values of an object with exactly these two keys.
pub(crate) fn members_of<'a>(
    value: &'a Value,
    first: &str,
    second: &str,
) -> Option<(&'a Value, &'a Value)>
    ensures found { IfSome result (λ m. HasMembers (view value.entry.now) first.entry.now (view m.0.now)
        second.entry.now (view m.1.now)) }
    ensures none { IfNone result ((a b : Data) →
        ¬ HasMembers (view value.entry.now) first.entry.now a second.entry.now b) }
{
    if value.as_object()?.len() != 2 {
        return None;
    }
    Some((value.get(first)?, value.get(second)?))
}

/// Returns the values of a list with `least` to `most` members.
pub(crate) fn list_of(value: &Value, least: usize, most: usize) -> Option<&[Value]>
    ensures found { IfSome result (λ vs. IsList least most (view value.now) (map view vs.now)) }
    ensures none { IfNone result ((vs : List Data) → ¬ IsList least most (view value.now) vs) }
{
    let list = value.as_array()?;
    if list.len() < least || most < list.len() {
        return None;
    }
    Some(list.as_slice())
}

/// Returns the text that a value is.
pub(crate) fn text_of(value: &Value) -> Option<&str>
    ensures found { IfSome result (λ text. view value.now ≡ string text.now) }
    ensures none { IfNone result ((text : List ℕ) → ¬ (view value.now ≡ string text)) }
{
    value.as_str()
}

/// Returns the number that a value is, if it is a whole number from 0 on, written without fraction and
/// exponent.
pub(crate) fn number_of(value: &Value) -> Option<u64>
    ensures found { IfSome result (λ n. view value.now ≡ number (unsigned n)) }
    ensures none { IfNone result ((n : ℕ) → ¬ (view value.now ≡ number (unsigned n))) }
{
    value.as_u64()
}
