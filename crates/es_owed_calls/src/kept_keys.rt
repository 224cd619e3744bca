// The computed keys of a source that are in what it was lowered to what they were.

ghost use Rattle.std.specs.Prelude.{◌≡◌, ◌&&◌, ◌||◌, ℕ, Some, IfOk};
ghost use Rattle.es_base.specs.Preorder.{preorder};
ghost use Rattle.es_binding_faults.specs.Seen.{seen};
ghost use Rattle.es_lowered.specs.ClassNames as names;
ghost use Rattle.es_lowered.specs.Definitions as definitions;
ghost use Rattle.es_lowered.specs.KeptKeys as spec;
ghost use Rattle.es_references.specs.References.{reference_of, references_of};
ghost use Rattle.es_referents.specs.Meanings.{referent_in};
ghost use Rattle.es_steps.specs.LoweredClasses.{referent_of};
ghost use Rattle.es_steps.specs.References.{has_number, resolve};
ghost use Rattle.es_owed_calls.specs.KeptKeys.{any_class, any_named, declared_by, is_name, naming_in, names_both};

use crate::computed_keys::computed_keys;
use crate::lowering::Lowering;
use es_base::strings::{is_word, spells};
use es_generated::ledger::Ledger;
use es_grouped::Grouped;
use es_node::node::Node;
use es_owed::listed::Listed;
use es_owed_initialized::class_names::names_class;
use es_owed_initialized::kinds::is_class;
use es_references::references::Reference;
use es_referents::Referents;
use std::alloc::{AllocError, Global};

/// The numbers of the computed keys of the source that are what they were in what it was lowered to: what was a name means what
/// it meant, or is one of the same class. Fails on allocation failure alone.
pub fn keys_that_stay(
    alloc: Global,
    first: u32,
    ledger: &Ledger,
    source: &Listed,
    lowered: &Listed,
) -> Result<Vec<u32>, AllocError>
    ensures { IfOk result (λ keys. keys.items ≡ spec.keys_that_stay first ledger.now source.now.program.now lowered.now.program.now) }
{
    let keys = computed_keys(alloc, source.nodes.as_slice())?;
    let lowering = Lowering::of(alloc, first, ledger, source, lowered)?;
    which_stay(alloc, &lowering, keys.as_slice())
}

// ---- keys

fn which_stay(alloc: Global, lowering: &Lowering, keys: &[u32]) -> Result<Vec<u32>, AllocError>
    ensures { IfOk result (λ r. r.items ≡ spec.which_stay lowering.now.first lowering.now.ledger.now lowering.now.source.now.program.now lowering.now.lowered.now.program.now (resolve lowering.now.source.now.program.now) (resolve lowering.now.lowered.now.program.now) keys.now) }
{
    let mut staying = Vec::new(alloc);
    for key in keys {
        if stays(lowering, *key) {
            staying.push(*key)?;
        }
    }
    Ok(staying)
}

/// Whether the number is none of a name, or of one that means what it meant, or of one of a class.
fn stays(lowering: &Lowering, key: u32) -> bool
    ensures { result ≡ (spec.means_the_same (referent_of key (resolve lowering.now.source.now.program.now)) (referent_of key (resolve lowering.now.lowered.now.program.now))
        || spec.names_one_class lowering.now.first lowering.now.ledger.now lowering.now.source.now.program.now lowering.now.lowered.now.program.now (names.class_numbers (preorder lowering.now.source.now.program.now)) key) }
{
    still_means(lowering, key) || names_one_class(lowering, key)
}

/// Whether the number is none of a name, or of one that means what it meant.
fn still_means(lowering: &Lowering, key: u32) -> bool
    ensures { result ≡ spec.means_the_same (referent_of key (resolve lowering.now.source.now.program.now)) (referent_of key (resolve lowering.now.lowered.now.program.now)) }
{
    means_the_same(
        lowering.source.references.at(key),
        lowering.lowered.references.at(key),
    )
}

/// What was no name is none; a free `arguments` may be that of another function.
fn means_the_same(there: Option<Reference>, found: Option<Reference>) -> bool
    ensures { result ≡ spec.means_the_same (referent_in there.entry) (referent_in found.entry) }
{
    match there {
        Some(there) => match found {
            Some(found) => means(there, found),
            None => false,
        },
        None => found.is_none(),
    }
}

fn means(there: Reference, found: Reference) -> bool
    ensures { result ≡ spec.means_the_same (Some (reference_of there.entry).to) (Some (reference_of found.entry).to) }
{
    match there.binding {
        Some(binding) => match found.binding {
            Some(other) => binding.0 == other.0,
            None => false,
        },
        None => {
            found.binding.is_none()
                && (is_word(found.name, there.name) && !spells(there.name, "arguments"))
        }
    }
}

// ---- names of classes

/// Whether nodes of this number are names of one class in both programs: of the source, that is one of those that the identifier
/// which a reference of this number means declares.
fn names_one_class(lowering: &Lowering, number: u32) -> bool
    ensures { result ≡ spec.names_one_class lowering.now.first lowering.now.ledger.now lowering.now.source.now.program.now lowering.now.lowered.now.program.now (names.class_numbers (preorder lowering.now.source.now.program.now)) number }
{
    any_names(lowering, classes_meant(lowering, number), number)
}

/// The classes of the source that what a reference of this number means declares.
fn classes_meant<'l>(lowering: &'l Lowering, number: u32) -> &'l [u32]
    ensures { (n : ℕ) → has_number n result.now ≡ definitions.is_bound_among (definitions.class_identifiers lowering.now.first n (preorder lowering.now.source.now.program.now)) (referent_of number (resolve lowering.now.source.now.program.now)) }
{
    declared_by(
        &lowering.source_classes,
        lowering.source.references.at(number),
    )
}

/// The classes that what the reference means declares.
fn declared_by<'l>(classes: &'l Grouped<u32>, reference: Option<Reference>) -> &'l [u32]
    ensures { result.now ≡ declared_by classes.now (referent_in reference.entry) }
{
    match reference {
        Some(reference) => bound_to(classes, reference),
        None => &[],
    }
}

fn bound_to<'l>(classes: &'l Grouped<u32>, reference: Reference) -> &'l [u32]
    ensures { result.now ≡ declared_by classes.now (Some (reference_of reference.entry).to) }
{
    match reference.binding {
        Some(binding) => classes.get(binding.0),
        None => &[],
    }
}

/// Whether one of these is a class of the source, and nodes of this number are names of it in both programs.
fn any_names(lowering: &Lowering, classes: &[u32], number: u32) -> bool
    ensures { result ≡ any_named lowering.now.first lowering.now.ledger.now lowering.now.source.now.program.now lowering.now.lowered.now.program.now classes.now number }
{
    for class in classes {
        if is_source_class(lowering, *class) && names_both(lowering, *class, number) {
            return true;
        }
    }
    false
}

/// Whether this is the number of a class of the source.
fn is_source_class(lowering: &Lowering, class: u32) -> bool
    ensures { result ≡ has_number class (names.class_numbers (preorder lowering.now.source.now.program.now)) }
{
    any_class(lowering.source.numbered(class))
}

/// Whether one of these nodes is a class.
#[tactic(auto, using(crate::proofs::SourceClasses::class_more))]
fn any_class(nodes: &[&Node]) -> bool
    ensures { result ≡ any_class (seen nodes.now) }
{
    for node in nodes {
        if is_class(node.kind()) {
            return true;
        }
    }
    false
}

/// Whether nodes of this number are names of this class in both programs.
fn names_both(lowering: &Lowering, class: u32, number: u32) -> bool
    ensures { result ≡ names_both lowering.now.first lowering.now.ledger.now lowering.now.source.now.program.now lowering.now.lowered.now.program.now class number }
{
    names_in_source(lowering, class, number) && names_in_lowered(lowering, class, number)
}

/// Whether a node of the source of this number is a name of this class that is not written.
fn names_in_source(lowering: &Lowering, class: u32, number: u32) -> bool
    ensures { result ≡ has_number number (names.naming_in_source lowering.now.first class lowering.now.source.now.program.now) }
{
    let source = Resolved {
        ledger: &lowering.source_ledger,
        references: &lowering.source.references,
        identifiers: lowering.source_identifiers.get(class),
    };
    is_naming(source, class, number, lowering.source.numbered(number))
}

/// The same in what that was lowered to.
fn names_in_lowered(lowering: &Lowering, class: u32, number: u32) -> bool
    ensures { result ≡ has_number number (naming_in lowering.now.first lowering.now.ledger.now lowering.now.lowered.now.program.now class) }
{
    let lowered = Resolved {
        ledger: lowering.ledger,
        references: &lowering.lowered.references,
        identifiers: lowering.lowered_identifiers.get(class),
    };
    is_naming(lowered, class, number, lowering.lowered.numbered(number))
}

/// The references of a program, and the names by which it has a class.
#[derive(Clone, Copy)]
struct Resolved<'r, 'a> {
    ledger: &'r Ledger<'r>,
    references: &'r Referents<'a>,
    identifiers: &'r [u32],
}

/// Whether one of these nodes has this number, and is a name of the class that is not written.
#[tactic(auto, using(crate::proofs::KeyNames::naming_more))]
fn is_naming(program: Resolved, class: u32, number: u32, nodes: &[&Node]) -> bool
    ensures { result ≡ has_number number (names.naming class program.entry.ledger.now (references_of program.entry.references.now.list.items) program.entry.identifiers.now (seen nodes.now)) }
{
    for node in nodes {
        if is_name(program, class, number, node) {
            return true;
        }
    }
    false
}

#[tactic(auto, using(es_owed::proofs::Nodes::number_of_node))]
fn is_name(program: Resolved, class: u32, number: u32, node: &Node) -> bool
    ensures { result ≡ is_name number class program.entry.ledger.now (references_of program.entry.references.now.list.items) program.entry.identifiers.now node.now }
{
    number == node.node_id().0
        && (names_class(
            class,
            program.ledger,
            program.references,
            program.identifiers,
            node,
        ) && !program.references.is_written_at(number))
}
