// A node of a syntax tree.

use es_base::ids::{NodeId, Span};
use es_base::kind::Kind;
use es_base::list::List;
use es_base::literal::LiteralValue;
use es_base::name::Name;
use es_base::operator::Word;
use std::marker::Model;
use std::mem;

mod clone;
mod conforms;
mod count;
mod number;
mod rules;

/// A node of a syntax tree (ESTree up to ES2022), which contracts see as a tree of the definitions. What
/// stands at its members has the shapes that the table of kinds says, and it has a semantic id only where
/// its kind bears one.
#[cycle(node)]
#[derive(Drop)]
pub struct Node {
    kind: Kind,
    node_id: NodeId,
    span: Option<Span>,
    semantic_id: Option<u32>,
    parts: List<Part>,
}

/// What stands at a member.
#[cycle(node)]
#[derive(Drop)]
pub enum Part {
    /// A node.
    Child(Node),
    /// No node.
    Absent,
    /// A list of nodes.
    List(List<Node>),
    /// A list of nodes that may have holes.
    Holes(List<Option<Node>>),
    /// A string.
    String(Name),
    /// No string.
    NoString,
    /// A word of the table.
    Word(Word),
    /// A boolean.
    Boolean(bool),
    /// The value of a literal.
    Literal(LiteralValue),
}

impl Model for Node {
    ghost use Rattle.es_base.specs.Tree.{Tree};
    ghost use Rattle.std.specs.Coded.{codes};
    ghost use Rattle.es_node.specs.Stored.{tree_code};
    ghost use Rattle.es_base.specs.contracts.kind.Kind as kinds;
    ghost use Rattle.es_base.specs.contracts.literal.LiteralValue as literals;

    ghost Value = { Tree };

    ghost coded = { tree_code (Prim.hlevel (codes, kinds.the_row.coded, literals.the_row.coded)) };

    ghost use Rattle.std.specs.Prelude.{IsTrue};
    ghost use Rattle.es_base.specs.Tree.{Node};
    ghost use Rattle.es_base.specs.Preorder.{nodes};
    ghost use Rattle.es_base.specs.Carried.{span_of};
    ghost use Rattle.es_node.specs.View.{parts_of, is_shaped};

    ghost view = { λ n. Node n.kind n.node_id.0 (span_of n.span) n.semantic_id (parts_of n.parts) };

    ghost invariant = { λ n. IsTrue (is_shaped n.kind n.semantic_id n.parts) };

    ghost size = { nodes };

    ghost use Rattle.std.proofs.Common.{arith};
    ghost use Rattle.es_node.specs.Falls.{fall};

    ghost size_decreases = { λ n h. omega (arith, fall n.parts) };
}

/// What a node has beside its kind.
#[derive(Drop)]
pub struct Contents {
    pub node_id: NodeId,
    pub span: Option<Span>,
    pub semantic_id: Option<u32>,
    pub parts: List<Part>,
}

impl Node {
    ghost use Rattle.std.specs.Prelude.{◌≡◌, length, IsTrue, true, None, []};
    ghost use Rattle.es_base.specs.Numbered.{unnumbered};
    ghost use Rattle.es_base.specs.declared.kind.Kind.{Kind};
    ghost use Rattle.es_base.specs.Table.{members_of};
    ghost use Rattle.es_base.specs.Carried.{span_of};
    ghost use Rattle.es_node.specs.Bearing.{semantic_id_fits};
    ghost use Rattle.es_node.specs.View.{kind_of, number_in, span_in, semantic_id_in, parts_of, parts_in, node_of, have_shapes, EachHasShape, is_shaped};

    /// The node of this kind with these contents, whose parts have the shapes of the kind's members.
    pub fn new(kind: Kind, contents: Contents) -> Node
        requires { IsTrue (is_shaped kind contents.semantic_id contents.parts) }
        ensures { result ≡ node_of kind contents.node_id.0 (span_of contents.span) contents.semantic_id contents.parts }
    {
        let Contents {
            node_id,
            span,
            semantic_id,
            parts,
        } = contents;
        Node {
            kind,
            node_id,
            span,
            semantic_id,
            parts,
        }
    }

    /// Takes the node apart; its parts have the shapes of its kind's members.
    #[tactic(auto, using(crate::proofs::Shapes::borne, crate::proofs::Shapes::shaped, crate::proofs::Shapes::each_shaped, crate::proofs::Shapes::counted))]
    pub fn into_contents(self) -> Contents
        ensures view { self ≡ node_of (kind_of self) result.node_id.0 (span_of result.span) result.semantic_id result.parts }
        ensures semantic_id { semantic_id_fits (kind_of self) result.semantic_id ≡ true }
        ensures shapes { have_shapes (members_of (kind_of self)) result.parts ≡ true }
        ensures each { EachHasShape (members_of (kind_of self)) result.parts }
        ensures count { length result.parts ≡ length (members_of (kind_of self)) }
    {
        Contents {
            node_id: self.node_id,
            span: self.span,
            semantic_id: self.semantic_id,
            parts: self.parts,
        }
    }

    /// Takes the tree out of its place, and leaves a placeholder there: an empty statement with no
    /// number and no span. Allocates nothing.
    pub fn take(&mut self) -> Node
        ensures taken { result ≡ self.old }
        ensures placeholder { self.new ≡ node_of Kind.EmptyStatement unnumbered None None [] }
    {
        let placeholder = Node {
            kind: Kind::EmptyStatement,
            node_id: NodeId::DUMMY,
            span: None,
            semantic_id: None,
            parts: self.parts.empty_list(),
        };
        mem::replace(self, placeholder)
    }

    /// What it is.
    pub fn kind(&self) -> Kind
        ensures { result ≡ kind_of self.now }
    {
        self.kind
    }

    /// Its number.
    pub fn node_id(&self) -> NodeId
        ensures { result.0 ≡ number_in self.now }
    {
        self.node_id
    }

    /// Where it stands in its source.
    pub fn span(&self) -> Option<Span>
        ensures { span_of result ≡ span_in self.now }
    {
        self.span
    }

    /// The number of its scope, symbol or reference.
    pub fn semantic_id(&self) -> Option<u32>
        ensures { result ≡ semantic_id_in self.now }
    {
        self.semantic_id
    }

    /// What stands at its members, in the order of the table of kinds.
    #[tactic(auto, using(crate::proofs::Shapes::borne, crate::proofs::Shapes::shaped, crate::proofs::Shapes::each_shaped))]
    pub fn parts(&self) -> &[Part]
        ensures shapes { have_shapes (members_of (kind_of self.now)) result.now ≡ true }
        ensures each { EachHasShape (members_of (kind_of self.now)) result.now }
        ensures semantic_id { semantic_id_fits (kind_of self.now) (semantic_id_in self.now) ≡ true }
        ensures list { parts_in self.now ≡ parts_of result.now }
    {
        self.parts.as_slice()
    }
}
