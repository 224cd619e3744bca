// Printed by tools/tree.py from tools/kinds.py.
// Identifiers. Each kind has a struct of its members, which keeps the emptied list of its node's
// parts, the same borrowed, and a maker.

ghost use Rattle.std.specs.Prelude.{◌≡◌, IfOk, None, length};
ghost use Rattle.es_base.specs.Carried.{span_of, symbol_number, reference_number};
ghost use Rattle.es_base.specs.Numbered.{unnumbered};
ghost use Rattle.es_base.specs.declared.kind.Kind.{Kind};
ghost use Rattle.es_node.specs.View.{kind_of};
ghost use Rattle.es_expression.specs.Identifier.{private_identifier, identifier_reference, binding_identifier, identifier_name};

use es_base::ids::{NodeId, ReferenceId, Span, SymbolId};
use es_base::kind::Kind;
use es_base::list::List;
use es_base::name::Name;
use es_node::node::{Contents, Node, Part};
use es_node::room::{put_one, take_one};
use es_node::semantic_ids::{reference_id_of, reference_number, symbol_id_of, symbol_number};
use std::alloc::{AllocError, Global};

/// `#name`, whose string has no `#` (ECMA-262, 12.7).
#[derive(Drop)]
pub struct PrivateIdentifier {
    pub node_id: NodeId,
    pub span: Option<Span>,
    pub name: Name,
    emptied_parts: List<Part>,
    ghost part_count: { length emptied_parts ≡ 1 },
}

impl PrivateIdentifier {
    /// Takes a node of this kind apart.
    pub fn from_node(node: Node) -> PrivateIdentifier
        requires { kind_of node ≡ Kind.PrivateIdentifier }
        ensures { node ≡ private_identifier result.node_id.0 (span_of result.span) result.name }
    {
        let contents = node.into_contents();
        let mut emptied_parts = contents.parts;
        let name = take_one(&mut emptied_parts);
        PrivateIdentifier {
            node_id: contents.node_id,
            span: contents.span,
            name: name.into_string(),
            emptied_parts,
        }
    }

    /// Puts the node together again. Takes no memory.
    pub fn into_node(self) -> Node
        ensures { result ≡ private_identifier self.node_id.0 (span_of self.span) self.name }
    {
        let mut parts = self.emptied_parts;
        put_one(&mut parts, Part::String(self.name));
        Node::new(
            Kind::PrivateIdentifier,
            Contents {
                node_id: self.node_id,
                span: self.span,
                semantic_id: None,
                parts,
            },
        )
    }
}

/// `PrivateIdentifier`, borrowed.
#[derive(Clone, Copy)]
pub struct PrivateIdentifierRef<'a> {
    pub node_id: NodeId,
    pub span: Option<Span>,
    pub name: &'a Name,
}

impl<'a> PrivateIdentifierRef<'a> {
    /// Reads a node of this kind.
    pub fn from_node(node: &'a Node) -> PrivateIdentifierRef<'a>
        requires { kind_of node.now ≡ Kind.PrivateIdentifier }
        ensures { node.now ≡ private_identifier result.node_id.0 (span_of result.span)
            result.name.now }
    {
        match node.parts() {
            [name] => PrivateIdentifierRef {
                node_id: node.node_id(),
                span: node.span(),
                name: name.as_string(),
            },
            _ => unreachable!(),
        }
    }
}

/// Makes a node of this kind, which has no number yet: `#name`, whose string has no `#` (ECMA-262,
/// 12.7). Fails on allocation failure alone.
pub fn make_private_identifier(alloc: Global, name: Name) -> Result<Node, AllocError>
    ensures { IfOk result (λ t. t ≡ private_identifier unnumbered None name) }
{
    let parts = vec![in alloc; Part::String(name)]?;
    Ok(Node::new(
        Kind::PrivateIdentifier,
        Contents {
            node_id: NodeId::DUMMY,
            span: None,
            semantic_id: None,
            parts: List::from_vec(parts),
        },
    ))
}

/// An identifier that is read or written (ECMA-262, 13.1).
#[derive(Drop)]
pub struct IdentifierReference {
    pub node_id: NodeId,
    pub span: Option<Span>,
    pub reference_id: Option<ReferenceId>,
    pub name: Name,
    emptied_parts: List<Part>,
    ghost part_count: { length emptied_parts ≡ 1 },
}

impl IdentifierReference {
    /// Takes a node of this kind apart.
    pub fn from_node(node: Node) -> IdentifierReference
        requires { kind_of node ≡ Kind.IdentifierReference }
        ensures { node ≡ identifier_reference result.node_id.0 (span_of result.span)
            (reference_number result.reference_id) result.name }
    {
        let contents = node.into_contents();
        let mut emptied_parts = contents.parts;
        let name = take_one(&mut emptied_parts);
        IdentifierReference {
            node_id: contents.node_id,
            span: contents.span,
            reference_id: reference_id_of(contents.semantic_id),
            name: name.into_string(),
            emptied_parts,
        }
    }

    /// Puts the node together again. Takes no memory.
    pub fn into_node(self) -> Node
        ensures { result ≡ identifier_reference self.node_id.0 (span_of self.span)
            (reference_number self.reference_id) self.name }
    {
        let mut parts = self.emptied_parts;
        put_one(&mut parts, Part::String(self.name));
        Node::new(
            Kind::IdentifierReference,
            Contents {
                node_id: self.node_id,
                span: self.span,
                semantic_id: reference_number(self.reference_id),
                parts,
            },
        )
    }
}

/// `IdentifierReference`, borrowed.
#[derive(Clone, Copy)]
pub struct IdentifierReferenceRef<'a> {
    pub node_id: NodeId,
    pub span: Option<Span>,
    pub reference_id: Option<ReferenceId>,
    pub name: &'a Name,
}

impl<'a> IdentifierReferenceRef<'a> {
    /// Reads a node of this kind.
    pub fn from_node(node: &'a Node) -> IdentifierReferenceRef<'a>
        requires { kind_of node.now ≡ Kind.IdentifierReference }
        ensures { node.now ≡ identifier_reference result.node_id.0 (span_of result.span)
            (reference_number result.reference_id) result.name.now }
    {
        match node.parts() {
            [name] => IdentifierReferenceRef {
                node_id: node.node_id(),
                span: node.span(),
                reference_id: reference_id_of(node.semantic_id()),
                name: name.as_string(),
            },
            _ => unreachable!(),
        }
    }
}

/// Makes a node of this kind, which has no number yet: an identifier that is read or written
/// (ECMA-262, 13.1). Fails on allocation failure alone.
pub fn make_identifier_reference(alloc: Global, name: Name) -> Result<Node, AllocError>
    ensures { IfOk result (λ t. t ≡ identifier_reference unnumbered None None name) }
{
    let parts = vec![in alloc; Part::String(name)]?;
    Ok(Node::new(
        Kind::IdentifierReference,
        Contents {
            node_id: NodeId::DUMMY,
            span: None,
            semantic_id: None,
            parts: List::from_vec(parts),
        },
    ))
}

/// An identifier that declares (ECMA-262, 13.1).
#[derive(Drop)]
pub struct BindingIdentifier {
    pub node_id: NodeId,
    pub span: Option<Span>,
    pub symbol_id: Option<SymbolId>,
    pub name: Name,
    emptied_parts: List<Part>,
    ghost part_count: { length emptied_parts ≡ 1 },
}

impl BindingIdentifier {
    /// Takes a node of this kind apart.
    pub fn from_node(node: Node) -> BindingIdentifier
        requires { kind_of node ≡ Kind.BindingIdentifier }
        ensures { node ≡ binding_identifier result.node_id.0 (span_of result.span)
            (symbol_number result.symbol_id) result.name }
    {
        let contents = node.into_contents();
        let mut emptied_parts = contents.parts;
        let name = take_one(&mut emptied_parts);
        BindingIdentifier {
            node_id: contents.node_id,
            span: contents.span,
            symbol_id: symbol_id_of(contents.semantic_id),
            name: name.into_string(),
            emptied_parts,
        }
    }

    /// Puts the node together again. Takes no memory.
    pub fn into_node(self) -> Node
        ensures { result ≡ binding_identifier self.node_id.0 (span_of self.span)
            (symbol_number self.symbol_id) self.name }
    {
        let mut parts = self.emptied_parts;
        put_one(&mut parts, Part::String(self.name));
        Node::new(
            Kind::BindingIdentifier,
            Contents {
                node_id: self.node_id,
                span: self.span,
                semantic_id: symbol_number(self.symbol_id),
                parts,
            },
        )
    }
}

/// `BindingIdentifier`, borrowed.
#[derive(Clone, Copy)]
pub struct BindingIdentifierRef<'a> {
    pub node_id: NodeId,
    pub span: Option<Span>,
    pub symbol_id: Option<SymbolId>,
    pub name: &'a Name,
}

impl<'a> BindingIdentifierRef<'a> {
    /// Reads a node of this kind.
    pub fn from_node(node: &'a Node) -> BindingIdentifierRef<'a>
        requires { kind_of node.now ≡ Kind.BindingIdentifier }
        ensures { node.now ≡ binding_identifier result.node_id.0 (span_of result.span)
            (symbol_number result.symbol_id) result.name.now }
    {
        match node.parts() {
            [name] => BindingIdentifierRef {
                node_id: node.node_id(),
                span: node.span(),
                symbol_id: symbol_id_of(node.semantic_id()),
                name: name.as_string(),
            },
            _ => unreachable!(),
        }
    }
}

/// Makes a node of this kind, which has no number yet: an identifier that declares (ECMA-262,
/// 13.1). Fails on allocation failure alone.
pub fn make_binding_identifier(alloc: Global, name: Name) -> Result<Node, AllocError>
    ensures { IfOk result (λ t. t ≡ binding_identifier unnumbered None None name) }
{
    let parts = vec![in alloc; Part::String(name)]?;
    Ok(Node::new(
        Kind::BindingIdentifier,
        Contents {
            node_id: NodeId::DUMMY,
            span: None,
            semantic_id: None,
            parts: List::from_vec(parts),
        },
    ))
}

/// An identifier that is a mere name, as a label or an uncomputed key (ECMA-262, 12.7).
#[derive(Drop)]
pub struct IdentifierName {
    pub node_id: NodeId,
    pub span: Option<Span>,
    pub name: Name,
    emptied_parts: List<Part>,
    ghost part_count: { length emptied_parts ≡ 1 },
}

impl IdentifierName {
    /// Takes a node of this kind apart.
    pub fn from_node(node: Node) -> IdentifierName
        requires { kind_of node ≡ Kind.IdentifierName }
        ensures { node ≡ identifier_name result.node_id.0 (span_of result.span) result.name }
    {
        let contents = node.into_contents();
        let mut emptied_parts = contents.parts;
        let name = take_one(&mut emptied_parts);
        IdentifierName {
            node_id: contents.node_id,
            span: contents.span,
            name: name.into_string(),
            emptied_parts,
        }
    }

    /// Puts the node together again. Takes no memory.
    pub fn into_node(self) -> Node
        ensures { result ≡ identifier_name self.node_id.0 (span_of self.span) self.name }
    {
        let mut parts = self.emptied_parts;
        put_one(&mut parts, Part::String(self.name));
        Node::new(
            Kind::IdentifierName,
            Contents {
                node_id: self.node_id,
                span: self.span,
                semantic_id: None,
                parts,
            },
        )
    }
}

/// `IdentifierName`, borrowed.
#[derive(Clone, Copy)]
pub struct IdentifierNameRef<'a> {
    pub node_id: NodeId,
    pub span: Option<Span>,
    pub name: &'a Name,
}

impl<'a> IdentifierNameRef<'a> {
    /// Reads a node of this kind.
    pub fn from_node(node: &'a Node) -> IdentifierNameRef<'a>
        requires { kind_of node.now ≡ Kind.IdentifierName }
        ensures { node.now ≡ identifier_name result.node_id.0 (span_of result.span)
            result.name.now }
    {
        match node.parts() {
            [name] => IdentifierNameRef {
                node_id: node.node_id(),
                span: node.span(),
                name: name.as_string(),
            },
            _ => unreachable!(),
        }
    }
}

/// Makes a node of this kind, which has no number yet: an identifier that is a mere name, as a
/// label or an uncomputed key (ECMA-262, 12.7). Fails on allocation failure alone.
pub fn make_identifier_name(alloc: Global, name: Name) -> Result<Node, AllocError>
    ensures { IfOk result (λ t. t ≡ identifier_name unnumbered None name) }
{
    let parts = vec![in alloc; Part::String(name)]?;
    Ok(Node::new(
        Kind::IdentifierName,
        Contents {
            node_id: NodeId::DUMMY,
            span: None,
            semantic_id: None,
            parts: List::from_vec(parts),
        },
    ))
}
