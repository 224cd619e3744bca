// The class in an initializer.

ghost use Rattle.std.specs.Prelude.{◌≡◌, IfOk};
ghost use Rattle.es_binding_faults.specs.Seen.{seen};
ghost use Rattle.es_node.specs.View.{kind_of, part_of};
ghost use Rattle.es_steps.specs.Scopes as spec;

use es_base::kind::Kind;
use es_binding_faults::preorder::preorder;
use es_node::node::{Node, Part};
use std::alloc::{AllocError, Global};

/// The number of the first class expression in a part, in preorder. Fails on allocation failure alone.
pub fn class_in(alloc: Global, part: &Part) -> Result<Option<u32>, AllocError>
    ensures { IfOk result (λ n. n ≡ spec.class_in (part_of part.now)) }
{
    match part {
        Part::Child(node) => {
            let nodes = preorder(alloc, node)?;
            Ok(first_class(nodes.as_slice()))
        }
        _ => Ok(None),
    }
}

/// The number of the first class expression among these nodes.
fn first_class(nodes: &[&Node]) -> Option<u32>
    ensures { result ≡ spec.first_class (seen nodes.now) }
{
    for node in nodes {
        if is_class_expression(node) {
            return Some(node.node_id().0);
        }
    }
    None
}

fn is_class_expression(node: &Node) -> bool
    ensures { result ≡ spec.is_class_expression (kind_of node.now) }
{
    matches!(node.kind(), Kind::ClassExpression)
}
