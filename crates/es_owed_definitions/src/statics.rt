// The definitions that are on classes, by their classes.

ghost use Rattle.std.specs.Prelude.{◌≡◌, ◌++◌, Some, ℕ, option_map, IfOk, OnOk};
ghost use Rattle.std.specs.Option.{option_to_list};
ghost use Rattle.es_base.specs.Tree.{child};
ghost use Rattle.es_binding_faults.specs.Seen.{seen};
ghost use Rattle.es_by_number.specs.Numbered.{pairs};
ghost use Rattle.es_grouped.specs.Groups.{group};
ghost use Rattle.es_lowered.specs.Definitions as spec;
ghost use Rattle.es_references.specs.References.{reference_of, references_of};
ghost use Rattle.es_referents.specs.Meanings.{referent_in};
ghost use Rattle.es_seen_names.specs.PrivateMembers.{private_member_of, private_members_of};
ghost use Rattle.es_owed_definitions.specs.Statics.{bound_classes, classes_on, key_class, member_class, named_classes, static_class, static_pairs, temporary_class, with_classes};
ghost use Rattle.es_owed_definitions.specs.Views.{definition_view, definition_views, key_view};

use crate::definition::{DefinedKey, FieldDefinition};
use crate::terms::Terms;
use es_base::kind::Kind;
use es_base::ledger::GeneratedKind;
use es_by_number::numbered::Numbered;
use es_generated::ledger::Ledger;
use es_generated::numbers::has_number;
use es_grouped::Grouped;
use es_node::node::Node;
use es_owed_initialized::identifiers::declared_classes;
use es_owed_initialized::numbers::add_numbers;
use es_references::references::Reference;
use es_referents::Referents;
use es_seen_names::parts::string_at;
use es_seen_names::private_member::{PrivateMember, member_at};
use std::alloc::{AllocError, Global};

/// What tells the classes that definitions are on.
#[derive(Clone, Copy)]
struct Owners<'r, 'a> {
    /// The generated names.
    ledger: &'r Ledger<'r>,
    /// The private members of the source.
    members: &'r [PrivateMember<'r>],
    /// The references of what it was lowered to.
    references: &'r Referents<'a>,
    /// Of each identifier the classes that it declares.
    declared: &'r Grouped<u32>,
}

/// Of each class those of these definitions that are on a name of it, or of one of its static private fields. Fails on allocation
/// failure alone.
pub fn definitions_by_class<'a>(
    alloc: Global,
    terms: &Terms,
    members: &[PrivateMember],
    references: &Referents,
    nodes: &[&Node],
    definitions: &[FieldDefinition<'a>],
) -> Result<Grouped<FieldDefinition<'a>>, AllocError>
    ensures { IfOk result (λ g. (n : ℕ) → definition_views (group n g) ≡ spec.statics_of (spec.is_static_of n terms.now.ledger.now (private_members_of members.now) (references_of references.now.list.items) (spec.class_identifiers terms.now.first n (seen nodes.now))) (definition_views definitions.now)) }
{
    let declared = declared_classes(alloc, terms.first, nodes)?;
    let owners = Owners {
        ledger: terms.ledger,
        members,
        references,
        declared: &declared,
    };
    let items = all_with_classes(alloc, &owners, definitions)?;
    Grouped::of(alloc, items)
}

/// These definitions, each with the classes that it is on. Fails on allocation failure alone.
fn all_with_classes<'a>(
    alloc: Global,
    owners: &Owners,
    definitions: &[FieldDefinition<'a>],
) -> Result<Vec<Numbered<FieldDefinition<'a>>>, AllocError>
    ensures { IfOk result (λ r. pairs r.items ≡ static_pairs owners.now.ledger.now (private_members_of owners.now.members.now) (references_of owners.now.references.now.list.items) owners.now.declared.now definitions.now) }
{
    let mut items = Vec::new(alloc);
    for definition in definitions {
        add_with_classes(alloc, owners, *definition, &mut items)?;
    }
    Ok(items)
}

fn add_with_classes<'a>(
    alloc: Global,
    owners: &Owners,
    definition: FieldDefinition<'a>,
    items: &mut Vec<Numbered<FieldDefinition<'a>>>,
) -> Result<(), AllocError>
    ensures { OnOk result (pairs items.new.items ≡ pairs items.old.items ++ with_classes (classes_on owners.now.ledger.now (private_members_of owners.now.members.now) (references_of owners.now.references.now.list.items) owners.now.declared.now (definition_view definition.entry)) definition.entry) }
{
    let mut classes = Vec::new(alloc);
    add_classes_on(owners, definition, &mut classes)?;
    add_to_each(classes.as_slice(), definition, items)
}

/// Adds the definition with each of these classes, once where one stands twice. Fails on allocation failure alone.
#[tactic(auto, using(crate::proofs::StaticClasses::with_more))]
fn add_to_each<'a>(
    classes: &[u32],
    definition: FieldDefinition<'a>,
    items: &mut Vec<Numbered<FieldDefinition<'a>>>,
) -> Result<(), AllocError>
    ensures { OnOk result (pairs items.new.items ≡ pairs items.old.items ++ with_classes classes.now definition.entry) }
{
    for (i, class) in classes.iter().enumerate() {
        let others = &classes[i + 1..];
        if !has_number(*class, others) {
            items.push(Numbered {
                number: *class,
                value: definition,
            })?;
        }
    }
    Ok(())
}

// ---- the classes of a definition

/// Adds the classes that the definition is on. Fails on allocation failure alone.
fn add_classes_on(
    owners: &Owners,
    definition: FieldDefinition,
    classes: &mut Vec<u32>,
) -> Result<(), AllocError>
    ensures { OnOk result (classes.new.items ≡ classes.old.items ++ classes_on owners.now.ledger.now (private_members_of owners.now.members.now) (references_of owners.now.references.now.list.items) owners.now.declared.now (definition_view definition.entry)) }
{
    match definition.object {
        Some(object) => add_named_classes(owners, object, classes),
        None => add_some(key_class(owners, definition.key), classes),
    }
}

/// Adds the classes that the node names: that of a class temporary, and those of what it means. Fails on allocation failure
/// alone.
#[tactic(auto, using(crate::proofs::StaticClasses::named_reference, crate::proofs::StaticClasses::names_nothing))]
fn add_named_classes(owners: &Owners, node: &Node, classes: &mut Vec<u32>) -> Result<(), AllocError>
    ensures { OnOk result (classes.new.items ≡ classes.old.items ++ named_classes owners.now.ledger.now (private_members_of owners.now.members.now) (references_of owners.now.references.now.list.items) owners.now.declared.now (child node.now)) }
{
    match node.kind() {
        // A
        Kind::IdentifierReference => {
            let generated = owners.ledger.generated_as(string_at(node.parts(), 0));
            add_some(temporary_class(generated), classes)?;
            let reference = owners.references.at(node.node_id().0);
            add_numbers(bound_classes(owners.declared, reference), classes)
        }
        _ => Ok(()),
    }
}

/// The class of a class temporary.
fn temporary_class(generated: Option<GeneratedKind>) -> Option<u32>
    ensures { option_to_list result ≡ temporary_class generated }
{
    match generated {
        Some(GeneratedKind::ClassTemp(class)) => Some(class.0),
        _ => None,
    }
}

/// The classes that what the reference means declares.
fn bound_classes<'r>(declared: &'r Grouped<u32>, reference: Option<Reference>) -> &'r [u32]
    ensures { result.now ≡ bound_classes declared.now (referent_in reference.entry) }
{
    match reference {
        Some(reference) => classes_bound(declared, reference),
        None => &[],
    }
}

fn classes_bound<'r>(declared: &'r Grouped<u32>, reference: Reference) -> &'r [u32]
    ensures { result.now ≡ bound_classes declared.now (Some (reference_of reference.entry).to) }
{
    match reference.binding {
        Some(binding) => declared.get(binding.0),
        None => &[],
    }
}

/// The class of the static private field that the key is.
fn key_class(owners: &Owners, key: DefinedKey) -> Option<u32>
    ensures { option_to_list result ≡ key_class owners.now.ledger.now (private_members_of owners.now.members.now) (key_view key.entry) }
{
    match key {
        DefinedKey::Private(name) => {
            static_class(owners.ledger.generated_as(name), owners.members)
        }
        _ => None,
    }
}

fn static_class(generated: Option<GeneratedKind>, members: &[PrivateMember]) -> Option<u32>
    ensures { option_to_list result ≡ static_class generated (private_members_of members.now) }
{
    match generated {
        Some(GeneratedKind::StaticField(member)) => member_class(member_at(member.0, members)),
        _ => None,
    }
}

fn member_class(member: Option<PrivateMember>) -> Option<u32>
    ensures { option_to_list result ≡ member_class (option_map private_member_of member.entry) }
{
    match member {
        Some(member) => Some(member.class),
        None => None,
    }
}

/// Adds the number, if there is one. Fails on allocation failure alone.
fn add_some(number: Option<u32>, numbers: &mut Vec<u32>) -> Result<(), AllocError>
    ensures { OnOk result (numbers.new.items ≡ numbers.old.items ++ option_to_list number) }
{
    if let Some(number) = number {
        numbers.push(number)?;
    }
    Ok(())
}
