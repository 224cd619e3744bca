// Lists of generated names, and what is no such list.

use crate::ledger::{LedgerError, read_ledger};
use borrowed_json::parse::parse;
use es_base::ids::NodeId;
use es_base::ledger::{GeneratedKind, LedgerEntry};
use json::Scratch;
use std::alloc::Global;
use std::test::Fail;

fn is_entry(entry: Option<&LedgerEntry>, name: &str, kind: GeneratedKind) -> bool {
    match entry {
        Some(entry) => entry.name.as_str() == name && entry.kind == kind,
        None => false,
    }
}

#[test]
fn names_of_each_form(rt: HostRuntime) -> Result<(), Fail> {
    let alloc = rt.alloc();
    let text =
        "{\"type\":\"Program\",\"generated\":[{\"class\":1,\"kind\":\"private\",\"name\":\"#_\"},{\"kind\":\"temp\",\"name\":\"_a\"},{\"kind\":\"weakmap\",\"member\":4,\"name\":\"_x\"}]}";
    let mut scratch = Scratch::new(alloc);
    let Ok(value) = parse(alloc, text.as_bytes(), &mut scratch) else {
        return Err(Fail::new("no JSON"));
    };
    let Ok(ledger) = read_ledger(alloc, &value) else {
        return Err(Fail::new("no names"));
    };
    let mut entries = ledger.entries.as_slice().iter();
    assert!(rt; is_entry(entries.next(), "_", GeneratedKind::Private(NodeId(1))));
    assert!(rt; is_entry(entries.next(), "_a", GeneratedKind::Temp));
    assert!(rt; is_entry(entries.next(), "_x", GeneratedKind::WeakMap(NodeId(4))));
    assert!(rt; entries.next().is_none());
    Ok(())
}

fn is_bad(alloc: Global, text: &str) -> Result<bool, Fail> {
    let mut scratch = Scratch::new(alloc);
    let Ok(value) = parse(alloc, text.as_bytes(), &mut scratch) else {
        return Err(Fail::new("no JSON"));
    };
    Ok(matches!(read_ledger(alloc, &value), Err(LedgerError::BadLedger)))
}

#[test]
fn no_lists_of_names(rt: HostRuntime) -> Result<(), Fail> {
    let alloc = rt.alloc();
    for text in [
        "{}",
        "{\"generated\":{}}",
        "{\"generated\":[1]}",
        "{\"generated\":[{\"kind\":\"temp\"}]}",
        "{\"generated\":[{\"kind\":\"name\",\"name\":\"_a\"}]}",
        "{\"generated\":[{\"kind\":\"class\",\"name\":\"_A\"}]}",
        "{\"generated\":[{\"kind\":\"class\",\"class\":-1,\"name\":\"_A\"}]}",
        "{\"generated\":[{\"kind\":\"private\",\"class\":1,\"name\":\"_\"}]}",
    ] {
        assert!(rt; is_bad(alloc, text)?);
    }
    Ok(())
}
