// References to the names of classes.

ghost use Rattle.std.specs.Prelude.{◌≡◌, ◌++◌, ◌∷◌, [], ℕ, cond, true, IfOk, OnOk, Some};
ghost use Rattle.std.specs.Str.{chars};
ghost use Rattle.es_base.specs.Preorder.{preorder};
ghost use Rattle.es_binding_faults.specs.Seen.{seen};
ghost use Rattle.es_by_number.specs.Numbered.{pairs};
ghost use Rattle.es_grouped.specs.Groups.{group, having};
ghost use Rattle.es_lowered.specs.ClassNames as spec;
ghost use Rattle.es_lowered.specs.Definitions.{class_identifiers};
ghost use Rattle.es_owed_class_names.specs.NamedClasses.{bound_classes, declared, declared_by, each, meant, named, named_at, temporary_class};
ghost use Rattle.es_references.specs.References.{reference_of, references_of};
ghost use Rattle.es_referents.specs.Meanings.{referent_in};
ghost use Rattle.es_steps.specs.References.{has_number};

use crate::inside::{head_numbers, numbers_of_class};
use crate::lists::{common, without};
use es_base::kind::Kind;
use es_base::ledger::GeneratedKind;
use es_by_number::numbered::Numbered;
use es_generated::ledger::Ledger;
use es_generated::numbers::has_number;
use es_grouped::Grouped;
use es_node::node::Node;
use es_owed::listed::Listed;
use es_owed_initialized::identifiers::class_identifiers;
use es_owed_initialized::numbers::add_numbers;
use es_references::references::Reference;
use es_referents::Referents;
use es_seen_names::parts::string_at;
use std::alloc::{AllocError, Global};

/// Of each of these classes the references of a program of these nodes that mean it by a name of it, and write none. Fails on
/// allocation failure alone.
pub fn names_by_class(
    alloc: Global,
    first: u32,
    ledger: &Ledger,
    classes: &[u32],
    references: &Referents,
    nodes: &[&Node],
) -> Result<Grouped<u32>, AllocError>
    ensures { IfOk result (λ g. (n : ℕ) → has_number n classes.now ≡ true → group n g ≡ spec.naming n ledger.now (references_of references.now.list.items) (class_identifiers first n (seen nodes.now)) (seen nodes.now)) }
{
    let identifiers = class_identifiers(alloc, first, nodes)?;
    let declared = classes_by_identifier(alloc, classes, &identifiers)?;
    let named = named(alloc, ledger, references, &declared, nodes)?;
    Grouped::of(alloc, named)
}

// ---- the classes that identifiers declare

/// Of each identifier those of these classes that it declares. Fails on allocation failure alone.
fn classes_by_identifier(
    alloc: Global,
    classes: &[u32],
    identifiers: &Grouped<u32>,
) -> Result<Grouped<u32>, AllocError>
    ensures { IfOk result (λ g. (b : ℕ) → group b g ≡ having b (declared (λ n. group n identifiers.now) classes.now)) }
{
    let items = declared(alloc, classes, identifiers)?;
    Grouped::of(alloc, items)
}

fn declared(
    alloc: Global,
    classes: &[u32],
    identifiers: &Grouped<u32>,
) -> Result<Vec<Numbered<u32>>, AllocError>
    ensures { IfOk result (λ r. pairs r.items ≡ declared (λ n. group n identifiers.now) classes.now) }
{
    let mut items = Vec::new(alloc);
    for class in classes {
        add_declared(*class, identifiers.get(*class), &mut items)?;
    }
    Ok(items)
}

fn add_declared(
    class: u32,
    identifiers: &[u32],
    items: &mut Vec<Numbered<u32>>,
) -> Result<(), AllocError>
    ensures { OnOk result (pairs items.new.items ≡ pairs items.old.items ++ declared_by class identifiers.now) }
{
    for identifier in identifiers {
        items.push(Numbered {
            number: *identifier,
            value: class,
        })?;
    }
    Ok(())
}

// ---- the classes that references name

/// The references among these nodes that write nothing, each with the classes that it names. Fails on allocation failure alone.
fn named(
    alloc: Global,
    ledger: &Ledger,
    references: &Referents,
    classes: &Grouped<u32>,
    nodes: &[&Node],
) -> Result<Vec<Numbered<u32>>, AllocError>
    ensures { IfOk result (λ r. pairs r.items ≡ named ledger.now (references_of references.now.list.items) (λ b. group b classes.now) (seen nodes.now)) }
{
    let mut items = Vec::new(alloc);
    for node in nodes {
        add_named(alloc, ledger, references, classes, node, &mut items)?;
    }
    Ok(items)
}

#[tactic(auto, using(crate::proofs::NamedClasses::at_reference, crate::proofs::NamedClasses::at_other))]
fn add_named(
    alloc: Global,
    ledger: &Ledger,
    references: &Referents,
    classes: &Grouped<u32>,
    node: &Node,
    items: &mut Vec<Numbered<u32>>,
) -> Result<(), AllocError>
    ensures { OnOk result (pairs items.new.items ≡ pairs items.old.items ++ named_at ledger.now (references_of references.now.list.items) (λ b. group b classes.now) node.now) }
{
    match node.kind() {
        // A
        Kind::IdentifierReference => {
            let number = node.node_id().0;
            if references.is_written_at(number) {
                return Ok(());
            }
            let name = string_at(node.parts(), 0);
            let meant = meant(alloc, ledger, references, classes, number, name)?;
            add_each(meant.as_slice(), number, items)
        }
        _ => Ok(()),
    }
}

/// The class whose temporary has this name, and those that are declared by what the reference of this number means. Fails on
/// allocation failure alone.
fn meant(
    alloc: Global,
    ledger: &Ledger,
    references: &Referents,
    classes: &Grouped<u32>,
    number: u32,
    name: &str,
) -> Result<Vec<u32>, AllocError>
    ensures { IfOk result (λ r. r.items ≡ meant ledger.now (references_of references.now.list.items) (λ b. group b classes.now) number (chars name.now)) }
{
    let mut meant = Vec::new(alloc);
    add_temporary(ledger.generated_as(name), &mut meant)?;
    add_numbers(bound_classes(classes, references.at(number)), &mut meant)?;
    Ok(meant)
}

/// Adds the class whose temporary a name of this kind is. Fails on allocation failure alone.
fn add_temporary(kind: Option<GeneratedKind>, classes: &mut Vec<u32>) -> Result<(), AllocError>
    ensures { OnOk result (classes.new.items ≡ classes.old.items ++ temporary_class kind) }
{
    match kind {
        Some(GeneratedKind::ClassTemp(class)) => {
            classes.push(class.0)?;
            Ok(())
        }
        _ => Ok(()),
    }
}

/// The classes that are declared by what a reference means.
fn bound_classes<'g>(classes: &'g Grouped<u32>, reference: Option<Reference>) -> &'g [u32]
    ensures { result.now ≡ bound_classes (λ b. group b classes.now) (referent_in reference.entry) }
{
    match reference {
        Some(reference) => classes_of(classes, reference),
        None => &[],
    }
}

fn classes_of<'g>(classes: &'g Grouped<u32>, reference: Reference) -> &'g [u32]
    ensures { result.now ≡ bound_classes (λ b. group b classes.now) (Some (reference_of reference.entry).to) }
{
    match reference.binding {
        Some(binding) => classes.get(binding.0),
        None => &[],
    }
}

/// Adds this number with each of these classes, once. Fails on allocation failure alone.
fn add_each(classes: &[u32], number: u32, items: &mut Vec<Numbered<u32>>) -> Result<(), AllocError>
    ensures { OnOk result (pairs items.new.items ≡ pairs items.old.items ++ each classes.now number) }
{
    for (i, class) in classes.iter().enumerate() {
        let stands_behind = has_number(*class, &classes[i + 1..]);
        add_unless(stands_behind, *class, number, items)?;
    }
    Ok(())
}

fn add_unless(
    stands_behind: bool,
    class: u32,
    number: u32,
    items: &mut Vec<Numbered<u32>>,
) -> Result<(), AllocError>
    ensures { OnOk result (pairs items.new.items ≡ pairs items.old.items ++ cond stands_behind [] ((class, number) ∷ [])) }
{
    if !stands_behind {
        items.push(Numbered {
            number: class,
            value: number,
        })?;
    }
    Ok(())
}

// ---- those that may stand where they stand

/// Of these names of a class of a source those that may stand where they stand in what that was lowered to: outside of the class
/// in the source; or in its heritage and keys, where they stay there, or no element runs with the class. Fails on allocation
/// failure alone.
pub fn free_naming(
    alloc: Global,
    runs: bool,
    class: u32,
    source: &Listed,
    lowered: &Listed,
    names: &[u32],
) -> Result<Vec<u32>, AllocError>
    ensures { IfOk result (λ r. r.items ≡ spec.free_naming runs class (preorder source.now.program.now) (preorder lowered.now.program.now) names.now) }
{
    let all = numbers_of_class(alloc, class, source)?;
    let mut free = without(alloc, all.as_slice(), names)?;
    let head = head_numbers(alloc, class, source)?;
    let in_head = common(alloc, head.as_slice(), names)?;
    let staying = staying(alloc, runs, class, lowered, names, in_head.as_slice())?;
    add_numbers(staying.as_slice(), &mut free)?;
    Ok(free)
}

/// Of these names in the heritage and keys of the class those that stay there, if elements run with the class, and else all of
/// them that are names. Fails on allocation failure alone.
fn staying(
    alloc: Global,
    runs: bool,
    class: u32,
    lowered: &Listed,
    names: &[u32],
    in_head: &[u32],
) -> Result<Vec<u32>, AllocError>
    ensures { IfOk result (λ r. r.items ≡ spec.common (cond runs (spec.head_numbers class (preorder lowered.now.program.now)) names.now) in_head.now) }
{
    if runs {
        let head = head_numbers(alloc, class, lowered)?;
        common(alloc, head.as_slice(), in_head)
    } else {
        common(alloc, names, in_head)
    }
}
