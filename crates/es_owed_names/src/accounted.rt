// New declarations are accounted for.

ghost use Rattle.std.specs.Prelude.{◌≡◌, IfOk};
ghost use Rattle.es_base.specs.Tree.{trees};
ghost use Rattle.es_binding_faults.specs.Seen.{seen};
ghost use Rattle.es_lowered.specs.Lowered as spec;
ghost use Rattle.es_lowered.specs.Lowered.{all_accounted, has_new_declarator, is_accounted, is_new_const};

use crate::own_names::own_name_numbers;
use es_base::kind::Kind;
use es_binding_faults::bound::is_binding_identifier;
use es_binding_faults::numbers::Numbers;
use es_generated::ledger::Ledger;
use es_generated::numbers::is_new;
use es_node::node::Node;
use es_owed::listed::Listed;
use es_owed::numbers::set_of;
use es_seen_names::parts::string_at;
use es_tree::statement::VariableDeclarationRef;
use std::alloc::{AllocError, Global};

/// Whether each new identifier that declares has a generated name, or is the own name of a class that may have it; and no
/// `const` is new or has a new declarator. Fails on allocation failure alone.
#[tactic(auto, using(crate::proofs::Accounts::same_accounted))]
pub fn declarations_accounted(
    alloc: Global,
    first: u32,
    ledger: &Ledger,
    source: &Listed,
    lowered: &Listed,
) -> Result<bool, AllocError>
    ensures { IfOk result (λ holds. holds ≡ spec.declarations_accounted first ledger.now source.now.program.now lowered.now.program.now) }
{
    let references = lowered.references.list.as_slice();
    let nodes = lowered.nodes.as_slice();
    let own = own_name_numbers(alloc, source, references, nodes)?;
    let own_set = set_of(alloc, own.as_slice())?;
    Ok(all_accounted(first, ledger, &own_set, nodes))
}

fn all_accounted(first: u32, ledger: &Ledger, own: &Numbers, nodes: &[&Node]) -> bool
    ensures { result ≡ all_accounted first ledger.now own.now (seen nodes.now) }
{
    for node in nodes {
        if is_new_const(first, node) || !is_accounted(first, ledger, own, node) {
            return false;
        }
    }
    true
}

/// Whether the node declares nothing new, or a generated name, or one of these own names.
#[tactic(auto, using(crate::proofs::Accounts::accounted_node))]
fn is_accounted(first: u32, ledger: &Ledger, own: &Numbers, node: &Node) -> bool
    ensures { result ≡ is_accounted first ledger.now own.now node.now }
{
    let is_new_name = is_binding_identifier(node) && is_new(first, node.node_id().0);
    !is_new_name || (ledger.is_generated(string_at(node.parts(), 0)) || own.has(node.node_id()))
}

/// Whether the node is a `const` that is new, or has a new declarator.
#[tactic(auto, using(crate::proofs::Accounts::no_variables))]
fn is_new_const(first: u32, node: &Node) -> bool
    ensures { result ≡ is_new_const first node.now }
{
    match node.kind() {
        // const x = 1;
        Kind::VariableDeclaration => {
            let variables = VariableDeclarationRef::from_node(node);
            (is_new(first, variables.node_id.0)
                || has_new_declarator(first, variables.declarations))
                && variables.kind.is_const()
        }
        _ => false,
    }
}

#[tactic(auto, using(es_owed::proofs::Nodes::number_of_node))]
fn has_new_declarator(first: u32, declarators: &[Node]) -> bool
    ensures { result ≡ has_new_declarator first (trees declarators.now) }
{
    for declarator in declarators {
        if is_new(first, declarator.node_id().0) {
            return true;
        }
    }
    false
}
