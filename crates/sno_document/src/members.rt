//! Members of a JSON object.
ghost use Rattle.std.specs.Prelude.{◌≡◌, map, Some, is_some};
ghost use Rattle.std.specs.Option.{option_map};
ghost use Rattle.serde_json.specs.Find.{get, as_array, as_bool, as_object, as_str};
ghost use Rattle.sno_document.specs.Json.{elements, string_at, string_or_none, optional_string_at, optional_bool_at, number_or_none, optional_number_at};
ghost use Rattle.sno_document.specs.Trees.{tree_seen, number_seen};

use json::Value;

/// Whether this is an object.
pub(crate) fn is_object(value: &Value<'_>) -> bool
    ensures { result ≡ is_some (as_object (tree_seen value.now)) }
{
    matches!(value, Value::Object(_))
}

/// Returns the member of an object with this key; the last one if there are several, and none if it isn't an object.
#[tactic(auto, using(crate::proofs::TreeLemmas::member_found))]
pub fn member<'v, 't>(value: &'v Value<'t>, key: &str) -> Option<&'v Value<'t>>
    ensures { option_map (λ v. tree_seen v.now) result ≡ get key.now (tree_seen value.now) }
{
    value.get(key)
}

/// The elements of an array. `None` for another kind.
pub(crate) fn elements<'v, 't>(value: &'v Value<'t>) -> Option<&'v [Value<'t>]>
    ensures { option_map (λ s. map tree_seen s.now) result ≡ option_map elements (as_array (tree_seen value.now)) }
{
    match value {
        Value::Array(list) => Some(list.as_slice()),
        _ => None,
    }
}

/// The characters of a string.
#[tactic(auto, using(crate::proofs::TreeLemmas::string_seen))]
fn text_of<'t>(value: &Value<'t>) -> Option<&'t str>
    ensures { option_map (λ s. s.now) result ≡ as_str (tree_seen value.now) }
{
    value.as_str()
}

/// True or false.
#[tactic(auto, using(crate::proofs::TreeLemmas::bool_seen))]
fn bool_of(value: &Value<'_>) -> Option<bool>
    ensures { result ≡ as_bool (tree_seen value.now) }
{
    value.as_bool()
}

/// A string. `None` if the member is missing or of another kind.
pub(crate) fn string_at<'t>(value: &Value<'t>, key: &str) -> Option<&'t str>
    ensures { option_map (λ s. s.now) result ≡ string_at key.now (tree_seen value.now) }
{
    match member(value, key) {
        None => None,
        Some(member) => text_of(member),
    }
}

/// A string, or `Some(None)` for null. `None` for another kind.
fn string_or_none<'t>(value: &Value<'t>) -> Option<Option<&'t str>>
    ensures { option_map (λ o. option_map (λ s. s.now) o) result ≡ string_or_none (Some (tree_seen value.now)) }
{
    match value {
        Value::Null => Some(None),
        Value::String(text) => Some(Some(*text)),
        _ => None,
    }
}

/// A string, or `Some(None)` if the member is missing or null. `None` if it is of another kind.
pub(crate) fn optional_string_at<'t>(value: &Value<'t>, key: &str) -> Option<Option<&'t str>>
    ensures { option_map (λ o. option_map (λ s. s.now) o) result ≡ optional_string_at key.now (tree_seen value.now) }
{
    match member(value, key) {
        None => Some(None),
        Some(member) => string_or_none(member),
    }
}

/// True or false, or `Some(None)` if the member is missing. `None` if it is of another kind.
pub(crate) fn optional_bool_at(value: &Value<'_>, key: &str) -> Option<Option<bool>>
    ensures { result ≡ optional_bool_at key.now (tree_seen value.now) }
{
    match member(value, key) {
        None => Some(None),
        Some(member) => bool_of(member).map(Some),
    }
}

/// The text of a number, or `Some(None)` for null. `None` for another kind.
fn number_or_none<'t>(value: &Value<'t>) -> Option<Option<&'t str>>
    ensures { option_map (λ o. option_map (λ s. number_seen s.now) o) result ≡ number_or_none (Some (tree_seen value.now)) }
{
    match value {
        Value::Null => Some(None),
        Value::Number(text) => Some(Some(*text)),
        _ => None,
    }
}

/// The text of a number, or `Some(None)` if the member is missing or null. `None` if it is of another kind.
pub(crate) fn optional_number_at<'t>(value: &Value<'t>, key: &str) -> Option<Option<&'t str>>
    ensures { option_map (λ o. option_map (λ s. number_seen s.now) o) result ≡ optional_number_at key.now (tree_seen value.now) }
{
    match member(value, key) {
        None => Some(None),
        Some(member) => number_or_none(member),
    }
}
