// Printed by tools/tree.py from tools/kinds.py.
// What the trees here do not describe. Each kind has a struct of its members, which keeps the emptied
// list of its node's parts, the same borrowed, and a maker.

ghost use Rattle.std.specs.Prelude.{◌≡◌, IfOk, None, length};
ghost use Rattle.es_base.specs.Carried.{span_of};
ghost use Rattle.es_base.specs.Numbered.{unnumbered};
ghost use Rattle.es_base.specs.declared.kind.Kind.{Kind};
ghost use Rattle.es_node.specs.View.{kind_of};
ghost use Rattle.es_tree.specs.Foreign.{foreign};

use es_base::ids::{NodeId, Span};
use es_base::kind::Kind;
use es_base::list::List;
use es_base::name::Name;
use es_node::node::{Contents, Node, Part};
use es_node::room::{put_one, take_one};
use std::alloc::{AllocError, Global};

/// A node of TypeScript, JSX, a decorator or an accessor property, of which only the string of
/// `type` is kept.
#[derive(Drop)]
pub struct Foreign {
    pub node_id: NodeId,
    pub span: Option<Span>,
    pub kind: Name,
    emptied_parts: List<Part>,
    ghost part_count: { length emptied_parts ≡ 1 },
}

impl Foreign {
    /// Takes a node of this kind apart.
    pub fn from_node(node: Node) -> Foreign
        requires { kind_of node ≡ Kind.Foreign }
        ensures { node ≡ foreign result.node_id.0 (span_of result.span) result.kind }
    {
        let contents = node.into_contents();
        let mut emptied_parts = contents.parts;
        let kind = take_one(&mut emptied_parts);
        Foreign {
            node_id: contents.node_id,
            span: contents.span,
            kind: kind.into_string(),
            emptied_parts,
        }
    }

    /// Puts the node together again. Takes no memory.
    pub fn into_node(self) -> Node
        ensures { result ≡ foreign self.node_id.0 (span_of self.span) self.kind }
    {
        let mut parts = self.emptied_parts;
        put_one(&mut parts, Part::String(self.kind));
        Node::new(
            Kind::Foreign,
            Contents {
                node_id: self.node_id,
                span: self.span,
                semantic_id: None,
                parts,
            },
        )
    }
}

/// `Foreign`, borrowed.
#[derive(Clone, Copy)]
pub struct ForeignRef<'a> {
    pub node_id: NodeId,
    pub span: Option<Span>,
    pub kind: &'a Name,
}

impl<'a> ForeignRef<'a> {
    /// Reads a node of this kind.
    pub fn from_node(node: &'a Node) -> ForeignRef<'a>
        requires { kind_of node.now ≡ Kind.Foreign }
        ensures { node.now ≡ foreign result.node_id.0 (span_of result.span) result.kind.now }
    {
        match node.parts() {
            [kind] => ForeignRef {
                node_id: node.node_id(),
                span: node.span(),
                kind: kind.as_string(),
            },
            _ => unreachable!(),
        }
    }
}

/// Makes a node of this kind, which has no number yet: a node of TypeScript, JSX, a decorator or an
/// accessor property, of which only the string of `type` is kept. Fails on allocation failure
/// alone.
pub fn make_foreign(alloc: Global, kind: Name) -> Result<Node, AllocError>
    ensures { IfOk result (λ t. t ≡ foreign unnumbered None kind) }
{
    let parts = vec![in alloc; Part::String(kind)]?;
    Ok(Node::new(
        Kind::Foreign,
        Contents {
            node_id: NodeId::DUMMY,
            span: None,
            semantic_id: None,
            parts: List::from_vec(parts),
        },
    ))
}
