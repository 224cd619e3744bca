// The nodes that give names values, looked up by the names.

ghost use Rattle.std.specs.Prelude.{◌≡◌, ℕ, IfOk};
ghost use Rattle.std.specs.Str.{chars};
ghost use Rattle.es_by_number.specs.Numbered.{pairs};
ghost use Rattle.es_grouped.specs.Groups.{group, having};
ghost use Rattle.es_node.specs.View.{kind_of, parts_in};
ghost use Rattle.es_owed_initialized.specs.Givers.{may_give, name_given, numbered_givers};

use crate::spelling::spelling_at;
use es_base::kind::Kind;
use es_binding_faults::leasts::Leasts;
use es_by_number::numbered::Numbered;
use es_generated::spellings::spelling_number;
use es_grouped::Grouped;
use es_node::node::Node;
use std::alloc::{AllocError, Global};

/// Those of these nodes that may give a name a value, by the numbers of the spellings of these names. Fails on allocation failure
/// alone.
pub fn givers<'a>(
    alloc: Global,
    spellings: &Leasts,
    nodes: &[&'a Node],
) -> Result<Grouped<&'a Node>, AllocError>
    ensures { IfOk result (λ g. (m : ℕ) → group m g ≡ having m (numbered_givers spellings.now nodes.now)) }
{
    let items = givers_with_numbers(alloc, spellings, nodes)?;
    Grouped::of(alloc, items)
}

/// The same, each with the number of the spelling. Fails on allocation failure alone.
fn givers_with_numbers<'a>(
    alloc: Global,
    spellings: &Leasts,
    nodes: &[&'a Node],
) -> Result<Vec<Numbered<&'a Node>>, AllocError>
    ensures { IfOk result (λ r. pairs r.items ≡ numbered_givers spellings.now nodes.now) }
{
    let mut items = Vec::new(alloc);
    for node in nodes {
        if may_give(node.kind()) {
            items.push(Numbered {
                number: spelling_number(name_given(node), spellings),
                value: *node,
            })?;
        }
    }
    Ok(items)
}

/// Whether a node of this kind may give a name a value.
fn may_give(kind: Kind) -> bool
    ensures { result ≡ may_give kind }
{
    matches!(
        kind,
        Kind::AssignmentExpression
            | Kind::VariableDeclarator
            | Kind::FunctionDeclaration
            | Kind::ClassDeclaration
            | Kind::ClassExpression
            | Kind::FunctionExpression
    )
}

/// The name that the node gives a value, if it gives one a value.
#[tactic(auto, using(crate::proofs::GivenNames::assigned_name, crate::proofs::GivenNames::declared_name))]
fn name_given(node: &Node) -> &str
    ensures { chars result.now ≡ name_given (kind_of node.now) (parts_in node.now) }
{
    match node.kind() {
        // _m = function () {}
        Kind::AssignmentExpression => spelling_at(node.parts(), 1),
        // let _w = new WeakMap();
        _ => spelling_at(node.parts(), 0),
    }
}
