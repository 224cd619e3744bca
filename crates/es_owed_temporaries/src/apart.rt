// Private elements that were generated, in classes of one another: one is not read in its class where a class around has one of
// its name.

ghost use Rattle.std.specs.Prelude.{◌≡◌, ◌&&◌, not, bytes_eq, IfOk};
ghost use Rattle.std.specs.Str.{chars};
ghost use Rattle.es_binding_faults.specs.Seen.{seen};
ghost use Rattle.es_lowered.specs.Temporaries as spec;
ghost use Rattle.es_owed_temporaries.specs.Apart.{private_read};

use es_base::kind::Kind;
use es_base::ledger::{GeneratedKind, LedgerEntry};
use es_base::strings::is_word;
use es_node::node::Node;
use es_owed::listed::Listed;
use es_owed_initialized::inner::nodes_of_class;
use es_owed_initialized::kinds::is_class;
use es_seen_names::parts::name_at;
use std::alloc::{AllocError, Global};

/// Whether no private name that was generated is read in its class where a class around it has one of that name. Fails on
/// allocation failure alone.
pub fn all_apart(
    alloc: Global,
    lowered: &Listed,
    ledger: &[LedgerEntry],
    entries: &[LedgerEntry],
) -> Result<bool, AllocError>
    ensures { IfOk result (λ holds. holds ≡ spec.all_apart (seen lowered.now.nodes.items) ledger.now entries.now) }
{
    for entry in entries {
        if !is_apart(alloc, lowered, ledger, entry)? {
            return Ok(false);
        }
    }
    Ok(true)
}

fn is_apart(
    alloc: Global,
    lowered: &Listed,
    ledger: &[LedgerEntry],
    entry: &LedgerEntry,
) -> Result<bool, AllocError>
    ensures { IfOk result (λ holds. holds ≡ spec.is_apart (seen lowered.now.nodes.items) ledger.now entry.now.name entry.now.kind) }
{
    match entry.kind {
        GeneratedKind::Private(class) => {
            is_private_apart(alloc, lowered, ledger, class.0, entry.name.as_str())
        }
        _ => Ok(true),
    }
}

/// Whether a private name of this class is not read in it, as most are not, or no class around has one of that spelling. Fails on
/// allocation failure alone.
#[tactic(auto, using(crate::proofs::PrivateReads::apart_unread, crate::proofs::PrivateReads::apart_read))]
fn is_private_apart(
    alloc: Global,
    lowered: &Listed,
    ledger: &[LedgerEntry],
    class: u32,
    name: &str,
) -> Result<bool, AllocError>
    ensures { IfOk result (λ holds. holds ≡ not (spec.has_name_around (seen lowered.now.nodes.items) class (chars name.now) ledger.now && spec.reads_private (chars name.now) (spec.nodes_of_class class (seen lowered.now.nodes.items)))) }
{
    let inside = inside_class(alloc, class, lowered)?;
    if !reads_private(name, inside.as_slice()) {
        return Ok(true);
    }
    let is_around = has_name_around(alloc, lowered, class, name, ledger)?;
    Ok(!is_around)
}

/// Whether a class around this one has a private name of this spelling. Fails on allocation failure alone.
fn has_name_around(
    alloc: Global,
    lowered: &Listed,
    class: u32,
    name: &str,
    ledger: &[LedgerEntry],
) -> Result<bool, AllocError>
    ensures { IfOk result (λ r. r ≡ spec.has_name_around (seen lowered.now.nodes.items) class (chars name.now) ledger.now) }
{
    for entry in ledger {
        if is_name_around(alloc, lowered, class, name, entry)? {
            return Ok(true);
        }
    }
    Ok(false)
}

fn is_name_around(
    alloc: Global,
    lowered: &Listed,
    class: u32,
    name: &str,
    entry: &LedgerEntry,
) -> Result<bool, AllocError>
    ensures { IfOk result (λ r. r ≡ (bytes_eq (chars name.now) entry.now.name && spec.is_around (seen lowered.now.nodes.items) class entry.now.kind)) }
{
    if is_word(entry.name.as_str(), name) {
        is_around(alloc, lowered, class, entry.kind)
    } else {
        Ok(false)
    }
}

/// Whether it is a private name of a class around this one. Fails on allocation failure alone.
fn is_around(
    alloc: Global,
    lowered: &Listed,
    class: u32,
    kind: GeneratedKind,
) -> Result<bool, AllocError>
    ensures { IfOk result (λ r. r ≡ spec.is_around (seen lowered.now.nodes.items) class kind) }
{
    match kind {
        GeneratedKind::Private(outer) => {
            let inside = inside_class(alloc, outer.0, lowered)?;
            Ok(holds_class(class, inside.as_slice()))
        }
        _ => Ok(false),
    }
}

/// The nodes in the classes of this number. Fails on allocation failure alone.
fn inside_class<'a>(
    alloc: Global,
    class: u32,
    lowered: &Listed<'a>,
) -> Result<Vec<&'a Node>, AllocError>
    ensures { IfOk result (λ r. seen r.items ≡ spec.nodes_of_class class (seen lowered.now.nodes.items)) }
{
    let inside = nodes_of_class(alloc, class, lowered.numbered(class))?;
    Ok(inside)
}

/// Whether this class is among these nodes.
#[tactic(auto, using(crate::proofs::PrivateReads::class_more))]
fn holds_class(class: u32, nodes: &[&Node]) -> bool
    ensures { result ≡ spec.holds_class class (seen nodes.now) }
{
    for node in nodes {
        if is_class(node.kind()) && class == node.node_id().0 {
            return true;
        }
    }
    false
}

/// Whether a private name of this spelling is read or written by one of these nodes.
#[tactic(auto, using(crate::proofs::PrivateReads::read_more))]
fn reads_private(name: &str, nodes: &[&Node]) -> bool
    ensures { result ≡ spec.reads_private (chars name.now) (seen nodes.now) }
{
    for node in nodes {
        if is_private_field(name, node) {
            return true;
        }
    }
    false
}

#[tactic(auto, using(crate::proofs::PrivateReads::read_by_field, crate::proofs::PrivateReads::read_by_none, crate::proofs::PrivateReads::name_of_part))]
fn is_private_field(name: &str, node: &Node) -> bool
    ensures { result ≡ private_read (chars name.now) node.now }
{
    match node.kind() {
        // a.#b
        Kind::PrivateField => is_word(name_at(node.parts(), 1), name),
        _ => false,
    }
}
