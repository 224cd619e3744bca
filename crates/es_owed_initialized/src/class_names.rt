// The names of a class in a lowered program.

ghost use Rattle.std.specs.Prelude.{◌≡◌, ◌++◌, [], cond, IfOk, OnOk};
ghost use Rattle.es_base.specs.Tree.{child};
ghost use Rattle.es_binding_faults.specs.Seen.{seen};
ghost use Rattle.es_node.specs.View.{kind_of, number_in, parts_in, parts_of};
ghost use Rattle.es_references.specs.References.{reference_of, references_of};
ghost use Rattle.es_lowered.specs.Definitions as spec;
ghost use Rattle.es_lowered.specs.OwnNames as names;
ghost use Rattle.es_steps.specs.LoweredClasses.{referent_of};
ghost use Rattle.es_steps.specs.Parts.{at};

use es_base::kind::Kind;
use es_base::ledger::GeneratedKind;
use es_binding_faults::bound::is_binding_identifier;
use es_binding_faults::hoisted::part_at;
use es_generated::ledger::Ledger;
use es_generated::numbers::{has_number, is_new};
use es_node::node::{Node, Part};
use es_owed::classes::class_at;
use es_references::references::Reference;
use es_referents::Referents;
use es_seen_names::parts::string_at;
use std::alloc::{AllocError, Global};

/// Whether the node is a reference to a name of this class, also where that is written: the class temporary, or what one of
/// these identifiers declares.
#[tactic(auto, using(crate::proofs::ClassNames::named_reference, crate::proofs::ClassNames::names_nothing))]
pub fn names_class(
    class: u32,
    ledger: &Ledger,
    references: &Referents,
    identifiers: &[u32],
    node: &Node,
) -> bool
    ensures { result ≡ spec.names_class class ledger.now (references_of references.now.list.items) identifiers.now (child node.now) }
{
    match node.kind() {
        // A
        Kind::IdentifierReference => {
            is_class_temporary(class, ledger.generated_as(string_at(node.parts(), 0)))
                || means_one(identifiers, node.node_id().0, references)
        }
        _ => false,
    }
}

fn is_class_temporary(class: u32, kind: Option<GeneratedKind>) -> bool
    ensures { result ≡ spec.is_class_temporary class kind }
{
    match kind {
        Some(GeneratedKind::ClassTemp(other)) => class == other.0,
        _ => false,
    }
}

/// Whether the reference of this number means one of these identifiers.
#[tactic(auto, using(crate::proofs::ClassNames::among))]
pub fn means_one(identifiers: &[u32], number: u32, references: &Referents) -> bool
    ensures { result ≡ spec.is_bound_among identifiers.now (referent_of number (references_of references.now.list.items)) }
{
    match references.at(number) {
        Some(reference) => is_bound_among(identifiers, reference),
        None => false,
    }
}

/// Whether the reference means one of these identifiers.
fn is_bound_among(identifiers: &[u32], reference: Reference) -> bool
    ensures { result ≡ names.is_bound_among identifiers.now (reference_of reference.entry).to }
{
    match reference.binding {
        Some(binding) => has_number(binding.0, identifiers),
        None => false,
    }
}
