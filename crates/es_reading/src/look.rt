// What stands at the members of an object.

ghost use Rattle.std.specs.Prelude.{◌≡◌, Some, option_map, is_some, true};
ghost use Rattle.es_base.specs.Carried.{span_of};
ghost use Rattle.es_reading.specs.Look.{string_at, boolean_at, array_at, is_this, is_string_at, type_at, is_node_at, is_true_at, is_null, is_there, u32_at, span_at};
ghost use Rattle.serde_json.specs.Find.{get};
ghost use Rattle.borrowed_json.specs.View.{view, items_view};

use borrowed_json::value::Value;
use es_base::ids::Span;

/// The string at a member.
pub fn string_at<'a>(value: &Value<'a>, name: &str) -> Option<&'a str>
    ensures { option_map (λ s. s.now) result ≡ string_at name.now (view value.now) }
{
    match value.get(name) {
        None => None,
        Some(found) => found.as_str(),
    }
}

/// The boolean at a member.
pub fn boolean_at(value: &Value<'_>, name: &str) -> Option<bool>
    ensures { result ≡ boolean_at name.now (view value.now) }
{
    match value.get(name) {
        None => None,
        Some(found) => found.as_bool(),
    }
}

/// The list at a member.
pub fn array_at<'v, 'a>(value: &'v Value<'a>, name: &str) -> Option<&'v Vec<Value<'a>>>
    ensures { option_map (λ v. items_view v.now.items) result ≡ array_at name.now (view value.now) }
{
    match value.get(name) {
        None => None,
        Some(found) => found.as_array(),
    }
}

/// The value at a member that is there.
pub fn value_at<'v, 'a>(value: &'v Value<'a>, name: &str) -> &'v Value<'a>
    requires { is_some (get name.now (view value.now)) ≡ true }
    ensures { get name.now (view value.now) ≡ Some (view result.now) }
{
    match value.get(name) {
        None => unreachable!(),
        Some(found) => found,
    }
}

/// The items of the list at a member that is there.
pub fn items_at<'v, 'a>(value: &'v Value<'a>, name: &str) -> &'v [Value<'a>]
    requires { is_some (array_at name.now (view value.now)) ≡ true }
    ensures { array_at name.now (view value.now) ≡ Some (items_view result.now) }
{
    match array_at(value, name) {
        None => unreachable!(),
        Some(items) => items.as_slice(),
    }
}

/// Whether a member is true.
pub fn is_true_at(value: &Value<'_>, name: &str) -> bool
    ensures { result ≡ is_true_at name.now (view value.now) }
{
    match boolean_at(value, name) {
        None => false,
        Some(boolean) => boolean,
    }
}

/// Whether a member is this string.
pub fn is_string_at(value: &Value<'_>, name: &str, word: &str) -> bool
    ensures { result ≡ is_string_at name.now word.now (view value.now) }
{
    match string_at(value, name) {
        None => false,
        Some(string) => word == string,
    }
}

/// Whether a member is a node of this type.
pub fn is_node_at(value: &Value<'_>, name: &str, kind: &str) -> bool
    ensures { result ≡ is_node_at name.now kind.now (view value.now) }
{
    match value.get(name) {
        None => false,
        Some(found) => is_string_at(found, "type", kind),
    }
}

/// Whether a member is neither absent nor null.
pub fn is_there(value: &Value<'_>, name: &str) -> bool
    ensures { result ≡ is_there (get name.now (view value.now)) }
{
    match value.get(name) {
        None => false,
        Some(found) => !found.is_null(),
    }
}

/// The whole number of u32 at a member.
pub fn u32_at(value: &Value<'_>, name: &str) -> Option<u32>
    ensures { result ≡ u32_at name.now (view value.now) }
{
    match value.get(name) {
        None => None,
        Some(found) => match found.as_u64() {
            None => None,
            Some(n) => { if n < 4294967296 { Some(n as u32) } else { None } }
        },
    }
}

/// Where a node stands in its source (ESTree's `start` and `end`), if both are whole numbers of u32.
pub fn span_at(value: &Value<'_>) -> Option<Span>
    ensures { span_of result ≡ span_at (view value.now) }
{
    match u32_at(value, "start") {
        None => None,
        Some(start) => match u32_at(value, "end") {
            None => None,
            Some(end) => Some(Span { start, end }),
        },
    }
}
