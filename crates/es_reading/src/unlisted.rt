// What else an object holds: floats, and members of TypeScript, JSX and import attributes.

ghost use Rattle.std.specs.Prelude.{◌≡◌, ◌&&◌, [], ◌∷◌, map, not, option_map, codes};
ghost use Rattle.std.specs.Str.{chars};
ghost use Rattle.es_base.specs.Conforms.{is_among, begins_with};
ghost use Rattle.es_base.specs.Table.{field_of, members_of};
ghost use Rattle.es_reading.specs.Unlisted.{holds_nodes, is_node_member, floats_in, floats_of, is_field, is_listed, is_foreign_type, is_foreign_object, any_foreign, is_foreign_value, foreign_among, foreign_of, has_options, is_foreign_node};
ghost use Rattle.borrowed_json.specs.View.{view, items_view, members_view};
ghost use Rattle.serde_json.specs.Written.{has_float, items_have_float, members_have_float};

use crate::look::is_there;
use borrowed_json::value::Value;
use es_base::kind::Kind;
use es_base::strings::{begins_with, is_among};
use es_base::table::{Member, Sort, members};

/// Whether a number below is held as a float, in a member that holds no nodes.
pub fn floats_of(members: &[Member], value: &Value<'_>) -> bool
    ensures { result ≡ floats_of (map field_of members.now) (view value.now) }
{
    match value {
        Value::Object(object) => floats_in(members, object.as_slice()),
        _ => false,
    }
}

fn floats_in(members: &[Member], object: &[(&str, Value<'_>)]) -> bool
    ensures { result ≡ floats_in (map field_of members.now) (members_view object.now) }
{
    for entry in object {
        if is_float_member(members, entry.0, &entry.1) {
            return true;
        }
    }
    false
}

/// Whether a member holds no nodes, by its name, and has a float. The name is looked up where the value leaves it open.
fn is_float_member(members: &[Member], key: &str, value: &Value<'_>) -> bool
    ensures { result ≡ (not (is_node_member (map field_of members.now) key.now) && has_float (view value.now)) }
{
    match value {
        Value::Null | Value::Bool(_) | Value::String(_) => false,
        Value::Number(number) => number.is_f64() && !is_node_member(members, key),
        Value::Array(_) | Value::Object(_) => !is_node_member(members, key) && has_float(value),
    }
}

/// Whether the member of this name holds nodes.
fn is_node_member(members: &[Member], key: &str) -> bool
    ensures { result ≡ is_node_member (map field_of members.now) key.now }
{
    for member in members {
        if member.name == key && holds_nodes(member.sort) {
            return true;
        }
    }
    false
}

fn holds_nodes(sort: Sort) -> bool
    ensures { result ≡ holds_nodes sort }
{
    matches!(
        sort,
        Sort::Child(_)
            | Sort::Key(_)
            | Sort::Nullable(_)
            | Sort::List(_)
            | Sort::NonEmptyList(_)
            | Sort::ListWithHoles(_)
    )
}

/// Whether a number is held as a float, at any depth.
#[cycle(float)]
fn has_float(value: &Value<'_>) -> bool
    ensures { result ≡ has_float (view value.now) }
{
    match value {
        Value::Number(number) => number.is_f64(),
        Value::Array(items) => any_has_float(items.as_slice()),
        Value::Object(members) => member_has_float(members.as_slice()),
        Value::Null | Value::Bool(_) | Value::String(_) => false,
    }
}

#[cycle(float)]
fn any_has_float(items: &[Value<'_>]) -> bool
    ensures { result ≡ items_have_float (items_view items.now) }
{
    for item in items {
        if has_float(item) {
            return true;
        }
    }
    false
}

#[cycle(float)]
fn member_has_float(members: &[(&str, Value<'_>)]) -> bool
    ensures { result ≡ members_have_float (members_view members.now) }
{
    for entry in members {
        if has_float(&entry.1) {
            return true;
        }
    }
    false
}

/// Whether a node of the table has a member of TypeScript, JSX or import attributes.
pub fn is_foreign_node(kind: Kind, value: &Value<'_>) -> bool
    ensures { result ≡ is_foreign_node kind (view value.now) }
{
    match kind {
        Kind::Foreign => false,
        _ => foreign_of(kind, value) || has_options(kind, value),
    }
}

fn foreign_of(kind: Kind, value: &Value<'_>) -> bool
    ensures { result ≡ foreign_of kind (view value.now) }
{
    match value {
        Value::Object(object) => foreign_among(kind, object.as_slice()),
        _ => false,
    }
}

fn foreign_among(kind: Kind, object: &[(&str, Value<'_>)]) -> bool
    ensures { result ≡ foreign_among kind (members_view object.now) }
{
    for entry in object {
        if is_foreign_value(&entry.1) && !is_listed(kind, entry.0) {
            return true;
        }
    }
    false
}

/// Whether the member is one of the kind's in JSON.
fn is_listed(kind: Kind, key: &str) -> bool
    ensures { result ≡ is_listed kind key.now }
{
    match kind {
        Kind::Literal => is_among(key, &["value", "raw", "regex", "bigint"]),
        Kind::TemplateElement => is_among(key, &["value", "tail"]),
        _ => is_field(members(kind), key),
    }
}

fn is_field(members: &[Member], key: &str) -> bool
    ensures { result ≡ is_field (map field_of members.now) key.now }
{
    for member in members {
        if member.name == key {
            return true;
        }
    }
    false
}

/// Whether it is an object of TypeScript, JSX or an import attribute, or a list that holds one.
fn is_foreign_value(value: &Value<'_>) -> bool
    ensures { result ≡ is_foreign_value (view value.now) }
{
    match value {
        Value::Array(items) => any_foreign(items.as_slice()),
        Value::Object(_) => is_foreign_object(value),
        _ => false,
    }
}

fn any_foreign(items: &[Value<'_>]) -> bool
    ensures { result ≡ any_foreign (items_view items.now) }
{
    for item in items {
        if is_foreign_object(item) {
            return true;
        }
    }
    false
}

fn is_foreign_object(value: &Value<'_>) -> bool
    ensures { result ≡ is_foreign_object (view value.now) }
{
    match value.get("type") {
        None => false,
        Some(found) => is_foreign_type(found.as_str()),
    }
}

fn is_foreign_type(name: Option<&str>) -> bool
    ensures { result ≡ is_foreign_type (option_map (λ s. chars s.now) name.entry) }
{
    match name {
        None => false,
        Some(name) => {
            begins_with(name, "TS") || begins_with(name, "JSX") || is_foreign_word(name)
        }
    }
}

fn is_foreign_word(name: &str) -> bool
    ensures { result ≡ is_among (chars name.now) (codes "Decorator" ∷ codes "ImportAttribute" ∷ []) }
{
    is_among(name, &["Decorator", "ImportAttribute"])
}

/// Whether an import has options.
fn has_options(kind: Kind, value: &Value<'_>) -> bool
    ensures { result ≡ has_options kind (view value.now) }
{
    match kind {
        Kind::ImportExpression => is_there(value, "options"),
        _ => false,
    }
}
