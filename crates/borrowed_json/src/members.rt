// The members of an object, put in the order of their keys.

ghost use Rattle.std.specs.Prelude.{◌≡◌, ◌<◌, ◌≤◌, IfOk, IfErr, OnOk, length, get_or, set};
ghost use Rattle.std.specs.BTreeMap.{insert_entry};
ghost use Rattle.std.specs.List.{insert};
ghost use Rattle.borrowed_json.specs.Members.{key_cmp, put_all};
ghost use Rattle.borrowed_json.specs.View.{members_view};
ghost use Rattle.borrowed_json.specs.declared.value.Value.{Value};
ghost use Rattle.serde_json.specs.Data.{no_members};

use crate::value::{Member, Value};
use std::alloc::{AllocError, Global};
use std::cmp::Ordering;
use std::collections::BTreeMap;

/// The members that were read, in the order of their keys; of a key that is repeated the last value stands.
/// Takes time in the square of their number.
pub fn in_order<'a>(alloc: Global, read: Vec<Member<'a>>) -> Result<Vec<Member<'a>>, AllocError>
    ensures { IfOk result (λ m. members_view m.items ≡ put_all read.entry.items no_members) }
{
    let mut members = Vec::with_capacity(alloc, read.len())?;
    for (key, value) in read {
        put(&mut members, key, value)?;
    }
    Ok(members)
}

/// Puts a member in its place, where a value of the same key gives way.
fn put<'a>(members: &mut Vec<Member<'a>>, key: &'a str, value: Value<'a>) -> Result<(), AllocError>
    ensures { OnOk result (members.new.items ≡ insert_entry key_cmp members.old.items key.entry value.entry) }
{
    match place_of(members.as_slice(), key) {
        Ok(place) => members[place].1 = value,
        Err(place) => members.insert(place, (key, value))?,
    }
    Ok(())
}

/// Where the member of this key stands (`Ok`), or before which member it is to go (`Err`).
fn place_of(members: &[Member<'_>], key: &str) -> Result<usize, usize>
    ensures ok_within { IfOk result (λ i. i < length members.now) }
    ensures ok { IfOk result (λ i. (v : Value) → insert_entry key_cmp members.now key.entry v ≡ set members.now i ((get_or members.now i (key.entry, v)).0, v)) }
    ensures err_within { IfErr result (λ i. i ≤ length members.now) }
    ensures err { IfErr result (λ i. (v : Value) → insert_entry key_cmp members.now key.entry v ≡ insert members.now i (key.entry, v)) }
{
    for i in 0..members.len() {
        match key.cmp(members[i].0) {
            Ordering::Less => return Err(i),
            Ordering::Equal => return Ok(i),
            Ordering::Greater => {}
        }
    }
    Err(members.len())
}

/// The members that were read as a map; of a key that is repeated the last value stands.
pub fn to_map<'a>(
    alloc: Global,
    read: Vec<Member<'a>>,
) -> Result<BTreeMap<&'a str, Value<'a>>, AllocError>
    ensures { IfOk result (λ m. members_view m.entries ≡ put_all read.entry.items no_members) }
{
    let mut map = BTreeMap::new(alloc);
    for (key, value) in read {
        drop(map.insert(key, value)?);
    }
    Ok(map)
}

/// The members of a map, with no room for more.
pub fn of_map<'a>(
    alloc: Global,
    map: BTreeMap<&'a str, Value<'a>>,
) -> Result<Vec<Member<'a>>, AllocError>
    ensures { IfOk result (λ m. m.items ≡ map.entry.entries) }
{
    let mut members = Vec::with_capacity(alloc, map.len())?;
    for member in map {
        members.push(member)?;
    }
    Ok(members)
}
