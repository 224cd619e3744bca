// The declarations of generated names.

ghost use Rattle.std.specs.Prelude.{◌≡◌, ◌||◌, ◌++◌, bytes_eq, not, IfOk, OnOk};
ghost use Rattle.std.specs.Str.{chars};
ghost use Rattle.es_base.specs.Preorder.{preorder};
ghost use Rattle.es_base.specs.Tree.{child, trees};
ghost use Rattle.es_binding_faults.specs.Seen.{seen};
ghost use Rattle.es_lowered.specs.Lowered as spec;
ghost use Rattle.es_steps.specs.References.{resolve};
ghost use Rattle.es_owed_names.specs.Keys.{is_one_meant, key_at, part_or_absent};
ghost use Rattle.es_owed_names.specs.Single.{all_declared};
ghost use Rattle.es_references.specs.References.{reference_of, references_of};

use crate::single::are_single;
use es_base::kind::Kind;
use es_base::ledger::{GeneratedKind, LedgerEntry};
use es_base::strings::is_word;
use es_binding_faults::bound::is_binding_identifier;
use es_binding_faults::hoisted::part_at;
use es_binding_faults::leasts::Leasts;
use es_generated::ledger::Ledger;
use es_generated::numbers::is_new;
use es_node::node::{Node, Part};
use es_owed::listed::Listed;
use es_references::references::Reference;
use es_seen_names::parts::string_at;
use es_spelled::names::Names;
use es_spelled::spellings::spellings;
use es_tree::class::ClassBodyRef;
use std::alloc::{AllocError, Global};

/// Whether each generated name begins with `_`, is the only one of what it stands for, and has one declaration, which is new
/// and which all references of that spelling mean: a private name in the body of its class, each other in a scope. Fails on
/// allocation failure alone.
pub fn names_declared(
    alloc: Global,
    first: u32,
    ledger: &Ledger,
    lowered: &Listed,
) -> Result<bool, AllocError>
    ensures { IfOk result (λ holds. holds ≡ spec.names_declared first ledger.now lowered.now.program.now) }
{
    let entries = ledger.entries();
    let spellings = spellings(alloc, lowered.nodes.as_slice())?;
    if all_declared(alloc, first, entries, &spellings, lowered)? {
        are_single(alloc, entries, &spellings)
    } else {
        Ok(false)
    }
}

/// Whether each of these names has one declaration in the lowered program. Fails on allocation failure alone.
fn all_declared(
    alloc: Global,
    first: u32,
    ledger: &[LedgerEntry],
    spellings: &Leasts,
    lowered: &Listed,
) -> Result<bool, AllocError>
    ensures { IfOk result (λ holds. holds ≡ all_declared first lowered.now.program.now ledger.now) }
{
    let references = lowered.references.list.as_slice();
    let nodes = lowered.nodes.as_slice();
    let names = Names::of(alloc, spellings, nodes, references)?;
    for entry in ledger {
        if !is_declared(alloc, first, entry, lowered, &names)? {
            return Ok(false);
        }
    }
    Ok(true)
}

// ---- one declaration

/// Whether the name has one declaration in a program, whose names are looked up. Fails on allocation failure alone.
#[tactic(auto, using(crate::proofs::Declarations::one_meant))]
fn is_declared(
    alloc: Global,
    first: u32,
    entry: &LedgerEntry,
    lowered: &Listed,
    names: &Names,
) -> Result<bool, AllocError>
    requires nodes { seen names.now.nodes.now ≡ preorder lowered.now.program.now }
    requires references { references_of names.now.references.now ≡ resolve lowered.now.program.now }
    ensures { IfOk result (λ holds. holds ≡ spec.declared_by_kind first lowered.now.program.now entry.now.name entry.now.kind) }
{
    let name = entry.name.as_str();
    match entry.kind {
        GeneratedKind::Private(class) => {
            let keys = keys_in_class(alloc, first, class.0, name, lowered)?;
            Ok(is_one(first, keys.as_slice()))
        }
        _ => {
            let numbers = declaring_identifiers(alloc, name, names)?;
            Ok(is_one_new(first, name, numbers.as_slice(), names))
        }
    }
}

/// Whether there is one number, and a new one.
fn is_one(first: u32, numbers: &[u32]) -> bool
    ensures { result ≡ spec.is_one first numbers.now }
{
    match numbers {
        [number] => is_new(first, *number),
        _ => false,
    }
}

/// Whether there is one number, and a new one, which all references of the name mean.
fn is_one_new(first: u32, name: &str, numbers: &[u32], names: &Names) -> bool
    ensures { result ≡ is_one_meant first (chars name.now) (references_of names.now.references.now) numbers.now }
{
    match numbers {
        [number] => is_new(first, *number) && is_meant(name, *number, names),
        _ => false,
    }
}

/// Whether all references of the name mean this declaration.
fn is_meant(name: &str, number: u32, names: &Names) -> bool
    ensures { result ≡ spec.all_mean (chars name.now) number (references_of names.now.references.now) }
{
    all_mean(name, number, names.referring(name))
}

fn all_mean(name: &str, number: u32, references: &[Reference]) -> bool
    ensures { result ≡ spec.all_mean (chars name.now) number (references_of references.now) }
{
    for reference in references {
        if !means(name, number, *reference) {
            return false;
        }
    }
    true
}

/// Whether a reference means this declaration, if it has the name.
fn means(name: &str, number: u32, reference: Reference) -> bool
    ensures { result ≡ (not (bytes_eq (chars name.now) (reference_of reference.entry).spelling) || spec.is_bound_to number (reference_of reference.entry).to) }
{
    !is_word(reference.name, name) || is_bound_to(number, reference)
}

fn is_bound_to(number: u32, reference: Reference) -> bool
    ensures { result ≡ spec.is_bound_to number (reference_of reference.entry).to }
{
    match reference.binding {
        Some(binding) => number == binding.0,
        None => false,
    }
}

/// The identifiers that declare this name. Fails on allocation failure alone.
fn declaring_identifiers(alloc: Global, name: &str, names: &Names) -> Result<Vec<u32>, AllocError>
    ensures { IfOk result (λ numbers. numbers.items ≡ spec.declaring_numbers (chars name.now) (seen names.now.nodes.now)) }
{
    declaring_numbers(alloc, name, names.declaring(name))
}

/// Those among these nodes. Fails on allocation failure alone.
#[tactic(auto, using(crate::proofs::Declarations::declaring_node))]
fn declaring_numbers(alloc: Global, name: &str, nodes: &[&Node]) -> Result<Vec<u32>, AllocError>
    ensures { IfOk result (λ numbers. numbers.items ≡ spec.declaring_numbers (chars name.now) (seen nodes.now)) }
{
    let mut numbers = Vec::new(alloc);
    for node in nodes {
        add_declaring(name, node, &mut numbers)?;
    }
    Ok(numbers)
}

#[tactic(auto, using(crate::proofs::Declarations::declaring_node))]
fn add_declaring(name: &str, node: &Node, numbers: &mut Vec<u32>) -> Result<(), AllocError>
    ensures { OnOk result (numbers.new.items ≡ numbers.old.items ++ spec.declaring_number (chars name.now) node.now) }
{
    if is_binding_identifier(node) && is_word(string_at(node.parts(), 0), name) {
        numbers.push(node.node_id().0)?;
    }
    Ok(())
}

// ---- private names

/// The private identifiers of this name that are keys in the body of this class. Fails on allocation failure alone.
fn keys_in_class(
    alloc: Global,
    first: u32,
    class: u32,
    name: &str,
    lowered: &Listed,
) -> Result<Vec<u32>, AllocError>
    ensures { IfOk result (λ keys. keys.items ≡ spec.keys_in first class (chars name.now) (seen lowered.now.nodes.items)) }
{
    keys_in(alloc, first, class, name, lowered.numbered(class))
}

/// Those among these nodes. Fails on allocation failure alone.
fn keys_in(
    alloc: Global,
    first: u32,
    class: u32,
    name: &str,
    nodes: &[&Node],
) -> Result<Vec<u32>, AllocError>
    ensures { IfOk result (λ keys. keys.items ≡ spec.keys_in first class (chars name.now) (seen nodes.now)) }
{
    let mut keys = Vec::new(alloc);
    for node in nodes {
        add_keys_of_class(first, class, name, node, &mut keys)?;
    }
    Ok(keys)
}

#[tactic(auto, using(crate::proofs::Declarations::class_node))]
fn add_keys_of_class(
    first: u32,
    class: u32,
    name: &str,
    node: &Node,
    keys: &mut Vec<u32>,
) -> Result<(), AllocError>
    ensures { OnOk result (keys.new.items ≡ keys.old.items ++ spec.keys_of_class first class (chars name.now) node.now) }
{
    if class == node.node_id().0 {
        add_keys_of_body(first, name, part_at(node.parts(), 2), keys)
    } else {
        Ok(())
    }
}

fn add_keys_of_body(
    first: u32,
    name: &str,
    body: Option<&Part>,
    keys: &mut Vec<u32>,
) -> Result<(), AllocError>
    ensures { OnOk result (keys.new.items ≡ keys.old.items ++ spec.keys_of_body first (chars name.now) (part_or_absent body.entry)) }
{
    match body {
        Some(Part::Child(body)) => add_keys(first, name, body, keys),
        _ => Ok(()),
    }
}

#[tactic(auto, using(crate::proofs::Declarations::no_body))]
fn add_keys(first: u32, name: &str, body: &Node, keys: &mut Vec<u32>) -> Result<(), AllocError>
    ensures { OnOk result (keys.new.items ≡ keys.old.items ++ spec.keys_of_body first (chars name.now) (child body.now)) }
{
    match body.kind() {
        Kind::ClassBody => { add_keys_among(first, name, ClassBodyRef::from_node(body).body, keys) }
        _ => Ok(()),
    }
}

fn add_keys_among(
    first: u32,
    name: &str,
    elements: &[Node],
    keys: &mut Vec<u32>,
) -> Result<(), AllocError>
    ensures { OnOk result (keys.new.items ≡ keys.old.items ++ spec.private_keys first (chars name.now) (trees elements.now)) }
{
    for element in elements {
        add_key(first, name, element, keys)?;
    }
    Ok(())
}

/// Adds the key of an element, if it is a private identifier of this name. Fails on allocation failure alone.
#[tactic(auto, using(crate::proofs::Declarations::key_element))]
fn add_key(first: u32, name: &str, element: &Node, keys: &mut Vec<u32>) -> Result<(), AllocError>
    ensures { OnOk result (keys.new.items ≡ keys.old.items ++ spec.private_key first (chars name.now) (child element.now)) }
{
    match part_at(element.parts(), 0) {
        Some(Part::Child(key)) => add_if_named(name, key, keys),
        _ => Ok(()),
    }
}

#[tactic(auto, using(crate::proofs::Declarations::no_key, crate::proofs::Declarations::key_node))]
fn add_if_named(name: &str, key: &Node, keys: &mut Vec<u32>) -> Result<(), AllocError>
    ensures { OnOk result (keys.new.items ≡ keys.old.items ++ key_at (chars name.now) (child key.now)) }
{
    match key.kind() {
        Kind::PrivateIdentifier if is_word(string_at(key.parts(), 0), name) => {
            keys.push(key.node_id().0)?;
            Ok(())
        }
        _ => Ok(()),
    }
}
