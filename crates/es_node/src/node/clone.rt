// Copies of trees.

ghost use Rattle.std.specs.Prelude.{◌≡◌, IfOk};

use super::{Node, Part};
use es_base::list::List;
use std::alloc::{AllocError, Global};

impl Node {
    /// A copy of the whole tree, with its numbers and spans. Fails on allocation failure alone.
    pub fn clone_tree(&self, alloc: Global) -> Result<Node, AllocError>
        ensures { IfOk result (λ t. t ≡ self.now) }
    {
        clone_node(self, alloc)
    }
}

#[cycle(clone)]
#[tactic(auto, using(crate::proofs::Below::nodes_in))]
fn clone_node(node: &Node, alloc: Global) -> Result<Node, AllocError>
    ensures { IfOk result (λ t. t ≡ node.now) }
{
    Ok(Node {
        kind: node.kind,
        node_id: node.node_id,
        span: node.span,
        semantic_id: node.semantic_id,
        parts: clone_parts(node.parts.as_slice(), alloc)?,
    })
}

#[cycle(clone)]
fn clone_parts(parts: &[Part], alloc: Global) -> Result<List<Part>, AllocError>
    ensures { IfOk result (λ ps. ps ≡ parts.now) }
{
    let mut clones = List::new(alloc);
    for part in parts {
        clones.push(clone_part(part, alloc)?)?;
    }
    Ok(clones)
}

#[cycle(clone)]
fn clone_part(part: &Part, alloc: Global) -> Result<Part, AllocError>
    ensures { IfOk result (λ p. p ≡ part.now) }
{
    match part {
        Part::Child(node) => Ok(Part::Child(clone_node(node, alloc)?)),
        Part::Absent => Ok(Part::Absent),
        Part::List(nodes) => Ok(Part::List(clone_list(nodes.as_slice(), alloc)?)),
        Part::Holes(nodes) => Ok(Part::Holes(clone_list_with_holes(nodes.as_slice(), alloc)?)),
        Part::String(name) => Ok(Part::String(name.try_clone(alloc)?)),
        Part::NoString => Ok(Part::NoString),
        Part::Word(word) => Ok(Part::Word(*word)),
        Part::Boolean(value) => Ok(Part::Boolean(*value)),
        Part::Literal(value) => Ok(Part::Literal(value.try_clone(alloc)?)),
    }
}

#[cycle(clone)]
fn clone_list(nodes: &[Node], alloc: Global) -> Result<List<Node>, AllocError>
    ensures { IfOk result (λ ts. ts ≡ nodes.now) }
{
    let mut clones = List::new(alloc);
    for node in nodes {
        clones.push(clone_node(node, alloc)?)?;
    }
    Ok(clones)
}

#[cycle(clone)]
fn clone_list_with_holes(
    nodes: &[Option<Node>],
    alloc: Global,
) -> Result<List<Option<Node>>, AllocError>
    ensures { IfOk result (λ ts. ts ≡ nodes.now) }
{
    let mut clones = List::new(alloc);
    for node in nodes {
        clones.push(clone_hole(node, alloc)?)?;
    }
    Ok(clones)
}

#[cycle(clone)]
fn clone_hole(node: &Option<Node>, alloc: Global) -> Result<Option<Node>, AllocError>
    ensures { IfOk result (λ t. t ≡ node.now) }
{
    match node {
        Some(node) => Ok(Some(clone_node(node, alloc)?)),
        None => Ok(None),
    }
}
