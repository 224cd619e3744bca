// One generated name.

ghost use Rattle.std.specs.Prelude.{◌≡◌, IfErr, IfOk, None, Some, option_map};
ghost use Rattle.es_ledger.specs.Ledger.{behind_sign, entry_in, kind_by, kind_in, name_by};
ghost use Rattle.borrowed_json.specs.View.{view};
ghost use Rattle.es_ledger.specs.declared.ledger.LedgerError.{LedgerError};

use crate::ledger::LedgerError;
use borrowed_json::value::Value;
use es_base::ids::NodeId;
use es_base::ledger::{GeneratedKind, LedgerEntry};
use es_base::name::Name;
use es_reading::look::{string_at, u32_at};
use std::alloc::Global;

// { "name": "_C", "kind": "class", "class": 1 }
pub fn read_entry(alloc: Global, value: &Value<'_>) -> Result<LedgerEntry, LedgerError>
    ensures ok { IfOk result (λ e. entry_in (view value.now) ≡ Some e) }
    ensures err { IfErr result (λ e. e ≡ LedgerError.BadLedger → entry_in (view value.now) ≡ None) }
{
    let kind = kind_in(value).ok_or(LedgerError::BadLedger)?;
    let written = string_at(value, "name").ok_or(LedgerError::BadLedger)?;
    let name = name_by(kind, written).ok_or(LedgerError::BadLedger)?;
    Ok(LedgerEntry {
        name: Name::new(alloc, name)?,
        kind,
    })
}

/// The name of this kind that is written so: that of a private name stands behind `#`.
fn name_by(kind: GeneratedKind, written: &str) -> Option<&str>
    ensures { option_map (λ s. s.now) result ≡ name_by kind written.now }
{
    match kind {
        GeneratedKind::Private(_) => behind_sign(written),
        _ => Some(written),
    }
}

fn behind_sign(written: &str) -> Option<&str>
    ensures { option_map (λ s. s.now) result ≡ behind_sign written.now }
{
    written.strip_prefix('#')
}

fn kind_in(value: &Value<'_>) -> Option<GeneratedKind>
    ensures { result ≡ kind_in (view value.now) }
{
    match string_at(value, "kind") {
        Some(word) => kind_by(word, u32_at(value, "class"), u32_at(value, "member")),
        None => None,
    }
}

/// The kind that this word says, with the number of a class or of a private name where it carries one.
fn kind_by(word: &str, class: Option<u32>, member: Option<u32>) -> Option<GeneratedKind>
    ensures { result ≡ kind_by word.now class member }
{
    match word {
        "temp" => Some(GeneratedKind::Temp),
        "param" => Some(GeneratedKind::Param),
        "class" => Some(GeneratedKind::ClassTemp(NodeId(class?))),
        "weakmap" => Some(GeneratedKind::WeakMap(NodeId(member?))),
        "static" => Some(GeneratedKind::StaticField(NodeId(member?))),
        "brand" => Some(GeneratedKind::Brand(NodeId(class?))),
        "method" => Some(GeneratedKind::Method(NodeId(member?))),
        "loose" => Some(GeneratedKind::LooseKey(NodeId(member?))),
        "super" => Some(GeneratedKind::SuperFn(NodeId(class?))),
        "args" => Some(GeneratedKind::Args),
        "closure" => Some(GeneratedKind::Closure),
        "private" => Some(GeneratedKind::Private(NodeId(class?))),
        _ => None,
    }
}
