// A value of `serde_json` as a value that borrows its strings.

ghost use Rattle.std.specs.Prelude.{◌≡◌, IfOk};
ghost use Rattle.borrowed_json.specs.View.{items_view, members_view, view};
ghost use Rattle.serde_json.specs.View.{items_view as owned_items, members_view as owned_members, view as owned_view};

use crate::value::{Member, Value};
use serde_json::{Map, Value as OwnedValue};
use std::alloc::{AllocError, Global};

/// The same value, with the strings of the value that is given. Fails on allocation failure alone.
#[cycle(borrowed)]
pub fn borrowed<'a>(alloc: Global, value: &'a OwnedValue) -> Result<Value<'a>, AllocError>
    ensures { IfOk result (λ v. view v ≡ owned_view value.now) }
{
    match value {
        OwnedValue::Null => Ok(Value::Null),
        OwnedValue::Bool(boolean) => Ok(Value::Bool(*boolean)),
        OwnedValue::Number(number) => Ok(Value::Number(*number)),
        OwnedValue::String(string) => Ok(Value::String(string.as_str())),
        OwnedValue::Array(items) => Ok(Value::Array(borrowed_items(alloc, items.as_slice())?)),
        OwnedValue::Object(members) => Ok(Value::Object(borrowed_members(alloc, members)?)),
    }
}

#[cycle(borrowed)]
fn borrowed_items<'a>(alloc: Global, items: &'a [OwnedValue]) -> Result<Vec<Value<'a>>, AllocError>
    ensures { IfOk result (λ v. items_view v.items ≡ owned_items items.now) }
{
    let mut found = Vec::with_capacity(alloc, items.len())?;
    for item in items {
        found.push(borrowed(alloc, item)?)?;
    }
    Ok(found)
}

#[cycle(borrowed)]
fn borrowed_members<'a>(
    alloc: Global,
    members: &'a Map<String, OwnedValue>,
) -> Result<Vec<Member<'a>>, AllocError>
    ensures { IfOk result (λ v. members_view v.items ≡ owned_members members.now.entries) }
{
    let mut found = Vec::with_capacity(alloc, members.len())?;
    for (key, member) in members.iter() {
        found.push((key.as_str(), borrowed(alloc, member)?))?;
    }
    Ok(found)
}
