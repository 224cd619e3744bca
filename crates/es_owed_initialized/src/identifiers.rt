// The identifiers that declare classes.

ghost use Rattle.std.specs.Prelude.{◌≡◌, ◌++◌, ℕ, Some, IfOk, OnOk};
ghost use Rattle.es_base.specs.Tree.{child};
ghost use Rattle.es_binding_faults.specs.Seen.{seen};
ghost use Rattle.es_by_number.specs.Numbered.{pairs};
ghost use Rattle.es_grouped.specs.Groups.{group};
ghost use Rattle.es_lowered.specs.Definitions as spec;
ghost use Rattle.es_node.specs.View.{kind_of, number_in, parts_in, parts_of};
ghost use Rattle.es_owed_initialized.specs.Identifiers.{declared_class, identified, is_old, turned, with_class};
ghost use Rattle.es_steps.specs.Parts.{at};
ghost use Rattle.es_steps.specs.References.{has_number};

use es_base::kind::Kind;
use es_binding_faults::bound::is_binding_identifier;
use es_binding_faults::hoisted::part_at;
use es_by_number::numbered::Numbered;
use es_generated::numbers::is_new;
use es_grouped::Grouped;
use es_node::node::{Node, Part};
use es_owed::classes::class_at;
use std::alloc::{AllocError, Global};

/// Of each class the identifiers that declare it: its own, and that of the source in a new declarator which it gives a value.
/// Fails on allocation failure alone.
pub fn class_identifiers(
    alloc: Global,
    first: u32,
    nodes: &[&Node],
) -> Result<Grouped<u32>, AllocError>
    ensures { IfOk result (λ g. (n : ℕ) → group n g ≡ spec.class_identifiers first n (seen nodes.now)) }
{
    let identifiers = identified(alloc, first, nodes)?;
    Grouped::of(alloc, identifiers)
}

/// Of each identifier the classes that it declares. Fails on allocation failure alone.
pub fn declared_classes(
    alloc: Global,
    first: u32,
    nodes: &[&Node],
) -> Result<Grouped<u32>, AllocError>
    ensures { IfOk result (λ g. (b : ℕ) (n : ℕ) → has_number n (group b g) ≡ has_number b (spec.class_identifiers first n (seen nodes.now))) }
{
    let identifiers = identified(alloc, first, nodes)?;
    let classes = by_identifier(alloc, identifiers.as_slice())?;
    Grouped::of(alloc, classes)
}

/// The classes of these identifiers, each with its identifier. Fails on allocation failure alone.
fn by_identifier(
    alloc: Global,
    identifiers: &[Numbered<u32>],
) -> Result<Vec<Numbered<u32>>, AllocError>
    ensures { IfOk result (λ r. pairs r.items ≡ turned (pairs identifiers.now)) }
{
    let mut classes = Vec::new(alloc);
    for identifier in identifiers {
        classes.push(Numbered {
            number: identifier.value,
            value: identifier.number,
        })?;
    }
    Ok(classes)
}

/// The identifiers that declare a class, each with that. Fails on allocation failure alone.
#[tactic(auto, using(crate::proofs::ClassIdentifiers::identified_more))]
fn identified(alloc: Global, first: u32, nodes: &[&Node]) -> Result<Vec<Numbered<u32>>, AllocError>
    ensures { IfOk result (λ r. pairs r.items ≡ identified first (seen nodes.now)) }
{
    let mut identifiers = Vec::new(alloc);
    for node in nodes {
        let class = declared_class(alloc, first, node)?;
        add_if_declared(class, node.parts(), &mut identifiers)?;
    }
    Ok(identifiers)
}

/// The class that the node declares, if its first part is an identifier. Fails on allocation failure alone.
#[tactic(auto, using(crate::proofs::ClassIdentifiers::declared_here, crate::proofs::ClassIdentifiers::expressed_here, crate::proofs::ClassIdentifiers::given_here, crate::proofs::ClassIdentifiers::declared_nowhere))]
fn declared_class(alloc: Global, first: u32, node: &Node) -> Result<Option<u32>, AllocError>
    ensures { IfOk result (λ c. c ≡ declared_class first (kind_of node.now) (number_in node.now) (parts_in node.now)) }
{
    match node.kind() {
        // class A {}
        Kind::ClassDeclaration => Ok(Some(node.node_id().0)),
        // (class A {})
        Kind::ClassExpression => Ok(Some(node.node_id().0)),
        // let A = class {};
        Kind::VariableDeclarator => {
            if is_new(first, node.node_id().0) && is_old_identifier(first, node.parts()) {
                class_at(alloc, node.parts(), 1)
            } else {
                Ok(None)
            }
        }
        _ => Ok(None),
    }
}

/// Whether the first of these parts is no identifier, or one of the source.
#[tactic(auto, using(crate::proofs::ClassIdentifiers::old_node))]
fn is_old_identifier(first: u32, parts: &[Part]) -> bool
    ensures { result ≡ is_old first (spec.identifier_in (at 0 (parts_of parts.now))) }
{
    match part_at(parts, 0) {
        Some(Part::Child(node)) => {
            !is_binding_identifier(node) || !is_new(first, node.node_id().0)
        }
        _ => true,
    }
}

/// Adds the identifier that is the first of these parts, with the class, if there is one. Fails on allocation failure alone.
fn add_if_declared(
    class: Option<u32>,
    parts: &[Part],
    identifiers: &mut Vec<Numbered<u32>>,
) -> Result<(), AllocError>
    ensures { OnOk result (pairs identifiers.new.items ≡ pairs identifiers.old.items ++ with_class class (spec.identifier_in (at 0 (parts_of parts.now)))) }
{
    match class {
        Some(class) => add_identifier(class, parts, identifiers),
        None => Ok(()),
    }
}

/// Adds the identifier that is the first of these parts, with the class. Fails on allocation failure alone.
fn add_identifier(
    class: u32,
    parts: &[Part],
    identifiers: &mut Vec<Numbered<u32>>,
) -> Result<(), AllocError>
    ensures { OnOk result (pairs identifiers.new.items ≡ pairs identifiers.old.items ++ with_class (Some class) (spec.identifier_in (at 0 (parts_of parts.now)))) }
{
    match part_at(parts, 0) {
        Some(Part::Child(node)) => add_if_identifier(class, node, identifiers),
        _ => Ok(()),
    }
}

#[tactic(auto, using(crate::proofs::ClassNames::identifier_of))]
fn add_if_identifier(
    class: u32,
    node: &Node,
    identifiers: &mut Vec<Numbered<u32>>,
) -> Result<(), AllocError>
    ensures { OnOk result (pairs identifiers.new.items ≡ pairs identifiers.old.items ++ with_class (Some class) (spec.identifier_in (child node.now))) }
{
    if is_binding_identifier(node) {
        identifiers.push(Numbered {
            number: class,
            value: node.node_id().0,
        })?;
    }
    Ok(())
}
