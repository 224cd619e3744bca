// The generated names.

ghost use Rattle.std.specs.Prelude.{◌≡◌, ◌<◌, ◌^◌, IfOk, OnOk, map, string_bytes, true};
ghost use Rattle.std.specs.Str.{encode_utf8_all};
ghost use Rattle.es_writing.specs.Lowered.{NamesFit, WritesInOrder, entry_cmp, entry_value, is_private, kind_word, number_entries, number_in, written_name};
ghost use Rattle.es_writing.specs.Kept.{IsString};
ghost use Rattle.es_writing.specs.Writing.{Puts, string_of};
ghost use Rattle.serde_json.specs.View.{view};

use crate::entries::{put_number, put_str, put_value, string_of};
use crate::order::{arranged, number_in};
use es_base::ledger::{GeneratedKind, LedgerEntry};
use serde_json::{Map, Value};
use std::alloc::{AllocError, Global};

/// The list of the values of the names, in order (our own). Fails on allocation failure alone.
pub fn write_names(alloc: Global, entries: &[LedgerEntry]) -> Result<Value, AllocError>
    ensures { IfOk result (WritesInOrder entry_cmp entry_value NamesFit entries.now) }
{
    let names = arranged(alloc, entries)?;
    visit_names(names.as_slice());
    let mut items = Vec::new(alloc);
    for entry in &names {
        items.push(entry_value(alloc, entry)?)?;
    }
    Ok(Value::from(items))
}

/// Visits each name and its number: JSON can hold them all. Takes no memory.
pub fn visit_names(entries: &[&LedgerEntry])
    ensures { NamesFit (map (λ e. e.now) entries.now) }
{
    for entry in entries {
        visit_entry(entry);
    }
}

#[tactic(auto, using(crate::proofs::Comparing::written_kept))]
fn visit_entry(entry: &LedgerEntry)
    ensures string { IsString (written_name entry.now) }
    ensures number { number_in entry.now.kind < 2 ^ 32 }
{
    let _string = entry.name.as_str();
    let _number = number_in(entry.kind);
}

/// The value of a name: its string, what it stands for, and the number of the class or of the private name
/// that it stands for.
fn entry_value(alloc: Global, entry: &LedgerEntry) -> Result<Value, AllocError>
    ensures { IfOk result (λ v. view v ≡ entry_value entry.now) }
{
    let mut object = Map::new(alloc);
    put_value(&mut object, alloc, "name", written_name(alloc, entry)?)?;
    put_str(&mut object, alloc, "kind", kind_word(entry.kind))?;
    put_kind_number(&mut object, alloc, entry.kind)?;
    Ok(Value::from(object))
}

/// The string of a name; that of a private name begins with `#`.
fn written_name(alloc: Global, entry: &LedgerEntry) -> Result<Value, AllocError>
    ensures { IfOk result (λ v. view v ≡ string_of (written_name entry.now)) }
{
    match entry.kind {
        GeneratedKind::Private(_) => Ok(Value::from(signed_name(alloc, entry)?)),
        _ => string_of(alloc, &entry.name),
    }
}

/// The string of a private name, with its `#`.
pub fn signed_name(alloc: Global, entry: &LedgerEntry) -> Result<String, AllocError>
    requires { is_private entry.now.kind ≡ true }
    ensures { IfOk result (λ s. string_bytes s ≡ encode_utf8_all (written_name entry.now)) }
{
    let mut string = String::from_str(alloc, "#")?;
    string.push_str(entry.name.as_str())?;
    Ok(string)
}

/// The word for what a name stands for.
pub fn kind_word(kind: GeneratedKind) -> &'static str
    ensures { result.now ≡ kind_word kind }
{
    match kind {
        GeneratedKind::Temp => "temp",
        GeneratedKind::Param => "param",
        GeneratedKind::ClassTemp(_) => "class",
        GeneratedKind::WeakMap(_) => "weakmap",
        GeneratedKind::StaticField(_) => "static",
        GeneratedKind::Brand(_) => "brand",
        GeneratedKind::Method(_) => "method",
        GeneratedKind::LooseKey(_) => "loose",
        GeneratedKind::SuperFn(_) => "super",
        GeneratedKind::Args => "args",
        GeneratedKind::Closure => "closure",
        GeneratedKind::Private(_) => "private",
    }
}

/// Puts in the number of the class, as `class`, or of the private name, as `member`.
fn put_kind_number(
    object: &mut Map<String, Value>,
    alloc: Global,
    kind: GeneratedKind,
) -> Result<(), AllocError>
    ensures { OnOk result (Puts object.old.entries object.new.entries (number_entries kind)) }
{
    match kind {
        GeneratedKind::ClassTemp(id)
        | GeneratedKind::Brand(id)
        | GeneratedKind::SuperFn(id)
        | GeneratedKind::Private(id) => put_number(object, alloc, "class", id.0),
        GeneratedKind::WeakMap(id)
        | GeneratedKind::StaticField(id)
        | GeneratedKind::Method(id)
        | GeneratedKind::LooseKey(id) => put_number(object, alloc, "member", id.0),
        GeneratedKind::Temp | GeneratedKind::Param | GeneratedKind::Args | GeneratedKind::Closure =>
            Ok(()),
    }
}
