// How many values a value holds.

ghost use Rattle.std.specs.Prelude.{◌≡◌, ◌+◌, ◌-◌, ◌^◌, min, nat_lt};
ghost use Rattle.es_reading.specs.Told.{values, values_of_items, values_of_members};
ghost use Rattle.serde_json.specs.View.{view, items_view, members_view};

use serde_json::{Map, Value};

/// Whether a value holds fewer than 2^32 - 1 values, itself and those at every depth counted. Takes no
/// memory.
pub fn is_countable(value: &Value) -> bool
    ensures { result ≡ nat_lt (values (view value.now) + 1) (2 ^ 32) }
{
    count_value(value) < u32::MAX
}

/// The number of values, or the greatest u32 where it is greater.
#[cycle(count)]
fn count_value(value: &Value) -> u32
    ensures { result ≡ min (values (view value.now)) (2 ^ 32 - 1) }
{
    match value {
        Value::Array(items) => count_items(items.as_slice()).saturating_add(1),
        Value::Object(members) => count_members(members).saturating_add(1),
        Value::Null | Value::Bool(_) | Value::Number(_) | Value::String(_) => 1,
    }
}

#[cycle(count)]
fn count_items(items: &[Value]) -> u32
    ensures { result ≡ min (values_of_items (items_view items.now)) (2 ^ 32 - 1) }
{
    let mut count: u32 = 0;
    for item in items {
        count = count.saturating_add(count_value(item));
    }
    count
}

#[cycle(count)]
fn count_members(members: &Map<String, Value>) -> u32
    ensures { result ≡ min (values_of_members (members_view members.now.entries)) (2 ^ 32 - 1) }
{
    let mut count: u32 = 0;
    for (_key, member) in members.iter() {
        count = count.saturating_add(count_value(member));
    }
    count
}
