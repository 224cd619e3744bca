// Printed by tools/tree.py from tools/kinds.py.
// The root. Each kind has a struct of its members, which keeps the emptied list of its node's parts,
// the same borrowed, and a maker.

ghost use Rattle.std.specs.Prelude.{◌≡◌, IfOk, None, length};
ghost use Rattle.es_base.specs.Carried.{span_of, scope_number};
ghost use Rattle.es_base.specs.Numbered.{unnumbered};
ghost use Rattle.es_base.specs.declared.kind.Kind.{Kind};
ghost use Rattle.es_node.specs.View.{kind_of};
ghost use Rattle.es_tree.specs.Program.{program};

use es_base::ids::{NodeId, ScopeId, Span};
use es_base::kind::Kind;
use es_base::list::List;
use es_base::operator::{SourceType, Word};
use es_node::node::{Contents, Node, Part};
use es_node::room::{put_two, take_two};
use es_node::semantic_ids::{scope_id_of, scope_number};
use std::alloc::{AllocError, Global};

/// A script or a module (ECMA-262, 16).
#[derive(Drop)]
pub struct Program {
    pub node_id: NodeId,
    pub span: Option<Span>,
    pub scope_id: Option<ScopeId>,
    pub source_type: SourceType,
    pub body: List<Node>,
    /// The numbers of its foreign nodes.
    pub foreign: List<NodeId>,
    emptied_parts: List<Part>,
    ghost part_count: { length emptied_parts ≡ 2 },
}

impl Program {
    /// Takes a node of this kind apart; `foreign` has the numbers of its foreign nodes.
    pub fn from_node(node: Node, foreign: List<NodeId>) -> Program
        requires { kind_of node ≡ Kind.Program }
        ensures tree { node ≡ program result.node_id.0 (span_of result.span)
            (scope_number result.scope_id) result.source_type result.body }
        ensures foreign { result.foreign ≡ foreign }
    {
        let contents = node.into_contents();
        let mut emptied_parts = contents.parts;
        let (source_type, body) = take_two(&mut emptied_parts);
        Program {
            node_id: contents.node_id,
            span: contents.span,
            scope_id: scope_id_of(contents.semantic_id),
            source_type: source_type.into_source_type(),
            body: body.into_list(),
            foreign,
            emptied_parts,
        }
    }

    /// Puts the node together again, with the numbers of its foreign nodes. Takes no memory.
    pub fn into_node(self) -> (Node, List<NodeId>)
        ensures tree { result.0 ≡ program self.node_id.0 (span_of self.span)
            (scope_number self.scope_id) self.source_type self.body }
        ensures foreign { result.1 ≡ self.foreign }
    {
        let mut parts = self.emptied_parts;
        put_two(
            &mut parts,
            Part::Word(Word::SourceType(self.source_type)),
            Part::List(self.body),
        );
        (
            Node::new(
                Kind::Program,
                Contents {
                    node_id: self.node_id,
                    span: self.span,
                    semantic_id: scope_number(self.scope_id),
                    parts,
                },
            ),
            self.foreign,
        )
    }
}

/// `Program`, borrowed.
#[derive(Clone, Copy)]
pub struct ProgramRef<'a> {
    pub node_id: NodeId,
    pub span: Option<Span>,
    pub scope_id: Option<ScopeId>,
    pub source_type: SourceType,
    pub body: &'a [Node],
    /// The numbers of its foreign nodes.
    pub foreign: &'a [NodeId],
}

impl<'a> ProgramRef<'a> {
    /// Reads a node of this kind.
    pub fn from_node(node: &'a Node, foreign: &'a [NodeId]) -> ProgramRef<'a>
        requires { kind_of node.now ≡ Kind.Program }
        ensures tree { node.now ≡ program result.node_id.0 (span_of result.span)
            (scope_number result.scope_id) result.source_type result.body.now }
        ensures foreign { result.foreign.now ≡ foreign.now }
    {
        match node.parts() {
            [source_type, body] => ProgramRef {
                node_id: node.node_id(),
                span: node.span(),
                scope_id: scope_id_of(node.semantic_id()),
                source_type: source_type.as_source_type(),
                body: body.as_list(),
                foreign,
            },
            _ => unreachable!(),
        }
    }
}

/// Makes a node of this kind, which has no number yet: a script or a module (ECMA-262, 16). Fails
/// on allocation failure alone.
pub fn make_program(
    alloc: Global,
    source_type: SourceType,
    body: List<Node>,
) -> Result<Node, AllocError>
    ensures { IfOk result (λ t. t ≡ program unnumbered None None source_type body) }
{
    let parts = vec![in alloc; Part::Word(Word::SourceType(source_type)), Part::List(body)]?;
    Ok(Node::new(
        Kind::Program,
        Contents {
            node_id: NodeId::DUMMY,
            span: None,
            semantic_id: None,
            parts: List::from_vec(parts),
        },
    ))
}
