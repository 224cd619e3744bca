// Copies of expressions that are written again.

ghost use Rattle.std.specs.Prelude.{◌≡◌, IfOk, map, replicate};
ghost use Rattle.es_base.specs.declared.kind.Kind.{Kind};
ghost use Rattle.es_duplicates.specs.Copies.{copy_of, without_number};
ghost use Rattle.es_node.specs.View.{kind_of};

use es_base::ids::NodeId;
use es_base::kind::Kind;
use es_base::list::List;
use es_node::node::Node;
use es_tree::expression::TemplateLiteral;
use std::alloc::{AllocError, Global};

/// As many copies of an expression as are asked for, without numbers. Fails on allocation failure alone, as the
/// calls below do.
#[tactic(auto, using(std::proofs::lemmas::List::replicate_more))]
pub(crate) fn copies(
    alloc: Global,
    expression: &Node,
    count: usize,
) -> Result<List<Node>, AllocError>
    ensures { IfOk result (λ ts. ts ≡ replicate count (copy_of expression.now)) }
{
    let mut copies = List::new(alloc);
    while copies.len() < count {
        copies.push(copy(alloc, expression)?)?;
    }
    Ok(copies)
}

/// A copy of an expression that is written again, without numbers. Fails on allocation failure alone, as the calls below do.
pub fn copy(alloc: Global, expression: &Node) -> Result<Node, AllocError>
    ensures { IfOk result (λ t. t ≡ copy_of expression.now) }
{
    match expression.kind() {
        Kind::TemplateLiteral => copy_template(alloc, expression),
        _ => copy_node(alloc, expression),
    }
}

// `a`
fn copy_template(alloc: Global, template: &Node) -> Result<Node, AllocError>
    requires { kind_of template.now ≡ Kind.TemplateLiteral }
    ensures { IfOk result (λ t. t ≡ copy_of template.now) }
{
    let mut template = TemplateLiteral::from_node(template.clone_tree(alloc)?);
    template.node_id = NodeId::DUMMY;
    template.quasis = copy_nodes(alloc, template.quasis.as_slice())?;
    Ok(template.into_node())
}

fn copy_nodes(alloc: Global, nodes: &[Node]) -> Result<List<Node>, AllocError>
    ensures { IfOk result (λ ts. ts ≡ map without_number nodes.now) }
{
    let mut copies = List::new(alloc);
    for node in nodes {
        copies.push(copy_node(alloc, node)?)?;
    }
    Ok(copies)
}

/// A copy that has no number itself.
fn copy_node(alloc: Global, node: &Node) -> Result<Node, AllocError>
    ensures { IfOk result (λ t. t ≡ without_number node.now) }
{
    let mut contents = node.clone_tree(alloc)?.into_contents();
    contents.node_id = NodeId::DUMMY;
    Ok(Node::new(node.kind(), contents))
}
