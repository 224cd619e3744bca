// Printed by tools/tree.py from tools/kinds.py.
// Literals. Each kind has a struct of its members, which keeps the emptied list of its node's parts,
// the same borrowed, and a maker.

ghost use Rattle.std.specs.Prelude.{◌≡◌, IfOk, None, length};
ghost use Rattle.es_base.specs.Carried.{span_of};
ghost use Rattle.es_base.specs.Numbered.{unnumbered};
ghost use Rattle.es_base.specs.declared.kind.Kind.{Kind};
ghost use Rattle.es_node.specs.View.{kind_of};
ghost use Rattle.es_expression.specs.Literal.{literal};

use es_base::ids::{NodeId, Span};
use es_base::kind::Kind;
use es_base::list::List;
use es_base::literal::LiteralValue;
use es_node::node::{Contents, Node, Part};
use es_node::room::{put_one, take_one};
use std::alloc::{AllocError, Global};

/// A literal (ECMA-262, 12.8 and 13.2.3).
#[derive(Drop)]
pub struct Literal {
    pub node_id: NodeId,
    pub span: Option<Span>,
    pub value: LiteralValue,
    emptied_parts: List<Part>,
    ghost part_count: { length emptied_parts ≡ 1 },
}

impl Literal {
    /// Takes a node of this kind apart.
    pub fn from_node(node: Node) -> Literal
        requires { kind_of node ≡ Kind.Literal }
        ensures { node ≡ literal result.node_id.0 (span_of result.span) result.value }
    {
        let contents = node.into_contents();
        let mut emptied_parts = contents.parts;
        let value = take_one(&mut emptied_parts);
        Literal {
            node_id: contents.node_id,
            span: contents.span,
            value: value.into_literal(),
            emptied_parts,
        }
    }

    /// Puts the node together again. Takes no memory.
    pub fn into_node(self) -> Node
        ensures { result ≡ literal self.node_id.0 (span_of self.span) self.value }
    {
        let mut parts = self.emptied_parts;
        put_one(&mut parts, Part::Literal(self.value));
        Node::new(
            Kind::Literal,
            Contents {
                node_id: self.node_id,
                span: self.span,
                semantic_id: None,
                parts,
            },
        )
    }
}

/// `Literal`, borrowed.
#[derive(Clone, Copy)]
pub struct LiteralRef<'a> {
    pub node_id: NodeId,
    pub span: Option<Span>,
    pub value: &'a LiteralValue,
}

impl<'a> LiteralRef<'a> {
    /// Reads a node of this kind.
    pub fn from_node(node: &'a Node) -> LiteralRef<'a>
        requires { kind_of node.now ≡ Kind.Literal }
        ensures { node.now ≡ literal result.node_id.0 (span_of result.span) result.value.now }
    {
        match node.parts() {
            [value] => LiteralRef {
                node_id: node.node_id(),
                span: node.span(),
                value: value.as_literal(),
            },
            _ => unreachable!(),
        }
    }
}

/// Makes a node of this kind, which has no number yet: a literal (ECMA-262, 12.8 and 13.2.3). Fails
/// on allocation failure alone.
pub fn make_literal(alloc: Global, value: LiteralValue) -> Result<Node, AllocError>
    ensures { IfOk result (λ t. t ≡ literal unnumbered None value) }
{
    let parts = vec![in alloc; Part::Literal(value)]?;
    Ok(Node::new(
        Kind::Literal,
        Contents {
            node_id: NodeId::DUMMY,
            span: None,
            semantic_id: None,
            parts: List::from_vec(parts),
        },
    ))
}
