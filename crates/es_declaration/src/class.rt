// Printed by tools/tree.py from tools/kinds.py.
// Classes and their elements. Each kind has a struct of its members, which keeps the emptied list of
// its node's parts, the same borrowed, and a maker.

ghost use Rattle.std.specs.Prelude.{◌≡◌, IfOk, None, length, option_map};
ghost use Rattle.es_base.specs.Carried.{span_of, scope_number};
ghost use Rattle.es_base.specs.Numbered.{unnumbered};
ghost use Rattle.es_base.specs.Tree.{of_kind};
ghost use Rattle.es_base.specs.declared.kind.Kind.{Kind};
ghost use Rattle.es_node.specs.View.{kind_of};
ghost use Rattle.es_declaration.specs.Class.{class_declaration, class_expression, class_body, method_definition, property_definition, static_block};

use es_base::ids::{NodeId, ScopeId, Span};
use es_base::kind::Kind;
use es_base::list::List;
use es_base::operator::{MethodDefinitionKind, Word};
use es_node::node::{Contents, Node, Part};
use es_node::parts::nullable_part;
use es_node::room::{
    put_five, put_four, put_one, put_three, take_five, take_four, take_one, take_three,
};
use es_node::semantic_ids::{scope_id_of, scope_number};
use std::alloc::{AllocError, Global};

/// `class id extends superClass body` (ECMA-262, 15.7).
#[derive(Drop)]
pub struct ClassDeclaration {
    pub node_id: NodeId,
    pub span: Option<Span>,
    pub scope_id: Option<ScopeId>,
    pub id: Option<Node>,
    pub super_class: Option<Node>,
    pub body: Node,
    emptied_parts: List<Part>,
    ghost part_count: { length emptied_parts ≡ 3 },
}

impl ClassDeclaration {
    /// Takes a node of this kind apart.
    pub fn from_node(node: Node) -> ClassDeclaration
        requires { kind_of node ≡ Kind.ClassDeclaration }
        ensures { node ≡ class_declaration result.node_id.0 (span_of result.span)
            (scope_number result.scope_id) result.id result.super_class result.body }
    {
        let contents = node.into_contents();
        let mut emptied_parts = contents.parts;
        let (id, super_class, body) = take_three(&mut emptied_parts);
        ClassDeclaration {
            node_id: contents.node_id,
            span: contents.span,
            scope_id: scope_id_of(contents.semantic_id),
            id: id.into_nullable(),
            super_class: super_class.into_nullable(),
            body: body.into_child(),
            emptied_parts,
        }
    }

    /// Puts the node together again. Takes no memory.
    pub fn into_node(self) -> Node
        ensures { result ≡ class_declaration self.node_id.0 (span_of self.span)
            (scope_number self.scope_id) self.id self.super_class self.body }
    {
        let mut parts = self.emptied_parts;
        put_three(
            &mut parts,
            nullable_part(self.id),
            nullable_part(self.super_class),
            Part::Child(self.body),
        );
        Node::new(
            Kind::ClassDeclaration,
            Contents {
                node_id: self.node_id,
                span: self.span,
                semantic_id: scope_number(self.scope_id),
                parts,
            },
        )
    }

    /// The same as an expression: the kind alone changes.
    pub fn into_expression(self) -> ClassExpression
        ensures { class_expression result.node_id.0 (span_of result.span)
            (scope_number result.scope_id) result.id result.super_class result.body
            ≡ of_kind Kind.ClassExpression (class_declaration self.node_id.0 (span_of self.span)
            (scope_number self.scope_id) self.id self.super_class self.body) }
    {
        ClassExpression {
            node_id: self.node_id,
            span: self.span,
            scope_id: self.scope_id,
            id: self.id,
            super_class: self.super_class,
            body: self.body,
            emptied_parts: self.emptied_parts,
        }
    }
}

/// `ClassDeclaration`, borrowed.
#[derive(Clone, Copy)]
pub struct ClassDeclarationRef<'a> {
    pub node_id: NodeId,
    pub span: Option<Span>,
    pub scope_id: Option<ScopeId>,
    pub id: Option<&'a Node>,
    pub super_class: Option<&'a Node>,
    pub body: &'a Node,
}

impl<'a> ClassDeclarationRef<'a> {
    /// Reads a node of this kind.
    pub fn from_node(node: &'a Node) -> ClassDeclarationRef<'a>
        requires { kind_of node.now ≡ Kind.ClassDeclaration }
        ensures { node.now ≡ class_declaration result.node_id.0 (span_of result.span)
            (scope_number result.scope_id) (option_map (λ x. x.now) result.id)
            (option_map (λ x. x.now) result.super_class) result.body.now }
    {
        match node.parts() {
            [id, super_class, body] => ClassDeclarationRef {
                node_id: node.node_id(),
                span: node.span(),
                scope_id: scope_id_of(node.semantic_id()),
                id: id.as_nullable(),
                super_class: super_class.as_nullable(),
                body: body.as_child(),
            },
            _ => unreachable!(),
        }
    }
}

/// Makes a node of this kind, which has no number yet: `class id extends superClass body`
/// (ECMA-262, 15.7). Fails on allocation failure alone.
pub fn make_class_declaration(
    alloc: Global,
    id: Option<Node>,
    super_class: Option<Node>,
    body: Node,
) -> Result<Node, AllocError>
    ensures { IfOk result (λ t. t ≡ class_declaration unnumbered None None id super_class body) }
{
    let parts = vec![in alloc;
        nullable_part(id),
        nullable_part(super_class),
        Part::Child(body),
    ]?;
    Ok(Node::new(
        Kind::ClassDeclaration,
        Contents {
            node_id: NodeId::DUMMY,
            span: None,
            semantic_id: None,
            parts: List::from_vec(parts),
        },
    ))
}

/// `class id extends superClass body` (ECMA-262, 15.7).
#[derive(Drop)]
pub struct ClassExpression {
    pub node_id: NodeId,
    pub span: Option<Span>,
    pub scope_id: Option<ScopeId>,
    pub id: Option<Node>,
    pub super_class: Option<Node>,
    pub body: Node,
    emptied_parts: List<Part>,
    ghost part_count: { length emptied_parts ≡ 3 },
}

impl ClassExpression {
    /// Takes a node of this kind apart.
    pub fn from_node(node: Node) -> ClassExpression
        requires { kind_of node ≡ Kind.ClassExpression }
        ensures { node ≡ class_expression result.node_id.0 (span_of result.span)
            (scope_number result.scope_id) result.id result.super_class result.body }
    {
        let contents = node.into_contents();
        let mut emptied_parts = contents.parts;
        let (id, super_class, body) = take_three(&mut emptied_parts);
        ClassExpression {
            node_id: contents.node_id,
            span: contents.span,
            scope_id: scope_id_of(contents.semantic_id),
            id: id.into_nullable(),
            super_class: super_class.into_nullable(),
            body: body.into_child(),
            emptied_parts,
        }
    }

    /// Puts the node together again. Takes no memory.
    pub fn into_node(self) -> Node
        ensures { result ≡ class_expression self.node_id.0 (span_of self.span)
            (scope_number self.scope_id) self.id self.super_class self.body }
    {
        let mut parts = self.emptied_parts;
        put_three(
            &mut parts,
            nullable_part(self.id),
            nullable_part(self.super_class),
            Part::Child(self.body),
        );
        Node::new(
            Kind::ClassExpression,
            Contents {
                node_id: self.node_id,
                span: self.span,
                semantic_id: scope_number(self.scope_id),
                parts,
            },
        )
    }
}

/// `ClassExpression`, borrowed.
#[derive(Clone, Copy)]
pub struct ClassExpressionRef<'a> {
    pub node_id: NodeId,
    pub span: Option<Span>,
    pub scope_id: Option<ScopeId>,
    pub id: Option<&'a Node>,
    pub super_class: Option<&'a Node>,
    pub body: &'a Node,
}

impl<'a> ClassExpressionRef<'a> {
    /// Reads a node of this kind.
    pub fn from_node(node: &'a Node) -> ClassExpressionRef<'a>
        requires { kind_of node.now ≡ Kind.ClassExpression }
        ensures { node.now ≡ class_expression result.node_id.0 (span_of result.span)
            (scope_number result.scope_id) (option_map (λ x. x.now) result.id)
            (option_map (λ x. x.now) result.super_class) result.body.now }
    {
        match node.parts() {
            [id, super_class, body] => ClassExpressionRef {
                node_id: node.node_id(),
                span: node.span(),
                scope_id: scope_id_of(node.semantic_id()),
                id: id.as_nullable(),
                super_class: super_class.as_nullable(),
                body: body.as_child(),
            },
            _ => unreachable!(),
        }
    }
}

/// Makes a node of this kind, which has no number yet: `class id extends superClass body`
/// (ECMA-262, 15.7). Fails on allocation failure alone.
pub fn make_class_expression(
    alloc: Global,
    id: Option<Node>,
    super_class: Option<Node>,
    body: Node,
) -> Result<Node, AllocError>
    ensures { IfOk result (λ t. t ≡ class_expression unnumbered None None id super_class body) }
{
    let parts = vec![in alloc;
        nullable_part(id),
        nullable_part(super_class),
        Part::Child(body),
    ]?;
    Ok(Node::new(
        Kind::ClassExpression,
        Contents {
            node_id: NodeId::DUMMY,
            span: None,
            semantic_id: None,
            parts: List::from_vec(parts),
        },
    ))
}

/// The elements of a class, in braces (ECMA-262, 15.7).
#[derive(Drop)]
pub struct ClassBody {
    pub node_id: NodeId,
    pub span: Option<Span>,
    pub body: List<Node>,
    emptied_parts: List<Part>,
    ghost part_count: { length emptied_parts ≡ 1 },
}

impl ClassBody {
    /// Takes a node of this kind apart.
    pub fn from_node(node: Node) -> ClassBody
        requires { kind_of node ≡ Kind.ClassBody }
        ensures { node ≡ class_body result.node_id.0 (span_of result.span) result.body }
    {
        let contents = node.into_contents();
        let mut emptied_parts = contents.parts;
        let body = take_one(&mut emptied_parts);
        ClassBody {
            node_id: contents.node_id,
            span: contents.span,
            body: body.into_list(),
            emptied_parts,
        }
    }

    /// Puts the node together again. Takes no memory.
    pub fn into_node(self) -> Node
        ensures { result ≡ class_body self.node_id.0 (span_of self.span) self.body }
    {
        let mut parts = self.emptied_parts;
        put_one(&mut parts, Part::List(self.body));
        Node::new(
            Kind::ClassBody,
            Contents {
                node_id: self.node_id,
                span: self.span,
                semantic_id: None,
                parts,
            },
        )
    }
}

/// `ClassBody`, borrowed.
#[derive(Clone, Copy)]
pub struct ClassBodyRef<'a> {
    pub node_id: NodeId,
    pub span: Option<Span>,
    pub body: &'a [Node],
}

impl<'a> ClassBodyRef<'a> {
    /// Reads a node of this kind.
    pub fn from_node(node: &'a Node) -> ClassBodyRef<'a>
        requires { kind_of node.now ≡ Kind.ClassBody }
        ensures { node.now ≡ class_body result.node_id.0 (span_of result.span) result.body.now }
    {
        match node.parts() {
            [body] => ClassBodyRef {
                node_id: node.node_id(),
                span: node.span(),
                body: body.as_list(),
            },
            _ => unreachable!(),
        }
    }
}

/// Makes a node of this kind, which has no number yet: the elements of a class, in braces
/// (ECMA-262, 15.7). Fails on allocation failure alone.
pub fn make_class_body(alloc: Global, body: List<Node>) -> Result<Node, AllocError>
    ensures { IfOk result (λ t. t ≡ class_body unnumbered None body) }
{
    let parts = vec![in alloc; Part::List(body)]?;
    Ok(Node::new(
        Kind::ClassBody,
        Contents {
            node_id: NodeId::DUMMY,
            span: None,
            semantic_id: None,
            parts: List::from_vec(parts),
        },
    ))
}

/// A method, an accessor or the constructor of a class (ECMA-262, 15.4 and 15.7).
#[derive(Drop)]
pub struct MethodDefinition {
    pub node_id: NodeId,
    pub span: Option<Span>,
    pub key: Node,
    pub value: Node,
    pub kind: MethodDefinitionKind,
    pub computed: bool,
    pub is_static: bool,
    emptied_parts: List<Part>,
    ghost part_count: { length emptied_parts ≡ 5 },
}

impl MethodDefinition {
    /// Takes a node of this kind apart.
    pub fn from_node(node: Node) -> MethodDefinition
        requires { kind_of node ≡ Kind.MethodDefinition }
        ensures { node ≡ method_definition result.node_id.0 (span_of result.span) result.key
            result.value result.kind result.computed result.is_static }
    {
        let contents = node.into_contents();
        let mut emptied_parts = contents.parts;
        let (key, value, kind, computed, is_static) = take_five(&mut emptied_parts);
        MethodDefinition {
            node_id: contents.node_id,
            span: contents.span,
            key: key.into_child(),
            value: value.into_child(),
            kind: kind.into_method_definition_kind(),
            computed: computed.into_boolean(),
            is_static: is_static.into_boolean(),
            emptied_parts,
        }
    }

    /// Puts the node together again. Takes no memory.
    pub fn into_node(self) -> Node
        ensures { result ≡ method_definition self.node_id.0 (span_of self.span) self.key self.value
            self.kind self.computed self.is_static }
    {
        let mut parts = self.emptied_parts;
        put_five(
            &mut parts,
            Part::Child(self.key),
            Part::Child(self.value),
            Part::Word(Word::MethodDefinitionKind(self.kind)),
            Part::Boolean(self.computed),
            Part::Boolean(self.is_static),
        );
        Node::new(
            Kind::MethodDefinition,
            Contents {
                node_id: self.node_id,
                span: self.span,
                semantic_id: None,
                parts,
            },
        )
    }
}

/// `MethodDefinition`, borrowed.
#[derive(Clone, Copy)]
pub struct MethodDefinitionRef<'a> {
    pub node_id: NodeId,
    pub span: Option<Span>,
    pub key: &'a Node,
    pub value: &'a Node,
    pub kind: MethodDefinitionKind,
    pub computed: bool,
    pub is_static: bool,
}

impl<'a> MethodDefinitionRef<'a> {
    /// Reads a node of this kind.
    pub fn from_node(node: &'a Node) -> MethodDefinitionRef<'a>
        requires { kind_of node.now ≡ Kind.MethodDefinition }
        ensures { node.now ≡ method_definition result.node_id.0 (span_of result.span) result.key.now
            result.value.now result.kind result.computed result.is_static }
    {
        match node.parts() {
            [key, value, kind, computed, is_static] => MethodDefinitionRef {
                node_id: node.node_id(),
                span: node.span(),
                key: key.as_child(),
                value: value.as_child(),
                kind: kind.as_method_definition_kind(),
                computed: computed.as_boolean(),
                is_static: is_static.as_boolean(),
            },
            _ => unreachable!(),
        }
    }
}

/// Makes a node of this kind, which has no number yet: a method, an accessor or the constructor of
/// a class (ECMA-262, 15.4 and 15.7). Fails on allocation failure alone.
pub fn make_method_definition(
    alloc: Global,
    key: Node,
    value: Node,
    kind: MethodDefinitionKind,
    computed: bool,
    is_static: bool,
) -> Result<Node, AllocError>
    ensures { IfOk result (λ t. t ≡ method_definition unnumbered None key value kind computed
        is_static) }
{
    let parts = vec![in alloc;
        Part::Child(key),
        Part::Child(value),
        Part::Word(Word::MethodDefinitionKind(kind)),
        Part::Boolean(computed),
        Part::Boolean(is_static),
    ]?;
    Ok(Node::new(
        Kind::MethodDefinition,
        Contents {
            node_id: NodeId::DUMMY,
            span: None,
            semantic_id: None,
            parts: List::from_vec(parts),
        },
    ))
}

/// A field of a class (ECMA-262, 15.7, FieldDefinition).
#[derive(Drop)]
pub struct PropertyDefinition {
    pub node_id: NodeId,
    pub span: Option<Span>,
    pub key: Node,
    pub value: Option<Node>,
    pub computed: bool,
    pub is_static: bool,
    emptied_parts: List<Part>,
    ghost part_count: { length emptied_parts ≡ 4 },
}

impl PropertyDefinition {
    /// Takes a node of this kind apart.
    pub fn from_node(node: Node) -> PropertyDefinition
        requires { kind_of node ≡ Kind.PropertyDefinition }
        ensures { node ≡ property_definition result.node_id.0 (span_of result.span) result.key
            result.value result.computed result.is_static }
    {
        let contents = node.into_contents();
        let mut emptied_parts = contents.parts;
        let (key, value, computed, is_static) = take_four(&mut emptied_parts);
        PropertyDefinition {
            node_id: contents.node_id,
            span: contents.span,
            key: key.into_child(),
            value: value.into_nullable(),
            computed: computed.into_boolean(),
            is_static: is_static.into_boolean(),
            emptied_parts,
        }
    }

    /// Puts the node together again. Takes no memory.
    pub fn into_node(self) -> Node
        ensures { result ≡ property_definition self.node_id.0 (span_of self.span) self.key
            self.value self.computed self.is_static }
    {
        let mut parts = self.emptied_parts;
        put_four(
            &mut parts,
            Part::Child(self.key),
            nullable_part(self.value),
            Part::Boolean(self.computed),
            Part::Boolean(self.is_static),
        );
        Node::new(
            Kind::PropertyDefinition,
            Contents {
                node_id: self.node_id,
                span: self.span,
                semantic_id: None,
                parts,
            },
        )
    }
}

/// `PropertyDefinition`, borrowed.
#[derive(Clone, Copy)]
pub struct PropertyDefinitionRef<'a> {
    pub node_id: NodeId,
    pub span: Option<Span>,
    pub key: &'a Node,
    pub value: Option<&'a Node>,
    pub computed: bool,
    pub is_static: bool,
}

impl<'a> PropertyDefinitionRef<'a> {
    /// Reads a node of this kind.
    pub fn from_node(node: &'a Node) -> PropertyDefinitionRef<'a>
        requires { kind_of node.now ≡ Kind.PropertyDefinition }
        ensures { node.now ≡ property_definition result.node_id.0 (span_of result.span)
            result.key.now (option_map (λ x. x.now) result.value) result.computed result.is_static }
    {
        match node.parts() {
            [key, value, computed, is_static] => PropertyDefinitionRef {
                node_id: node.node_id(),
                span: node.span(),
                key: key.as_child(),
                value: value.as_nullable(),
                computed: computed.as_boolean(),
                is_static: is_static.as_boolean(),
            },
            _ => unreachable!(),
        }
    }
}

/// Makes a node of this kind, which has no number yet: a field of a class (ECMA-262, 15.7,
/// FieldDefinition). Fails on allocation failure alone.
pub fn make_property_definition(
    alloc: Global,
    key: Node,
    value: Option<Node>,
    computed: bool,
    is_static: bool,
) -> Result<Node, AllocError>
    ensures { IfOk result (λ t. t ≡ property_definition unnumbered None key value computed
        is_static) }
{
    let parts = vec![in alloc;
        Part::Child(key),
        nullable_part(value),
        Part::Boolean(computed),
        Part::Boolean(is_static),
    ]?;
    Ok(Node::new(
        Kind::PropertyDefinition,
        Contents {
            node_id: NodeId::DUMMY,
            span: None,
            semantic_id: None,
            parts: List::from_vec(parts),
        },
    ))
}

/// `static { body }` (ECMA-262, 15.7, ClassStaticBlock).
#[derive(Drop)]
pub struct StaticBlock {
    pub node_id: NodeId,
    pub span: Option<Span>,
    pub scope_id: Option<ScopeId>,
    pub body: List<Node>,
    emptied_parts: List<Part>,
    ghost part_count: { length emptied_parts ≡ 1 },
}

impl StaticBlock {
    /// Takes a node of this kind apart.
    pub fn from_node(node: Node) -> StaticBlock
        requires { kind_of node ≡ Kind.StaticBlock }
        ensures { node ≡ static_block result.node_id.0 (span_of result.span)
            (scope_number result.scope_id) result.body }
    {
        let contents = node.into_contents();
        let mut emptied_parts = contents.parts;
        let body = take_one(&mut emptied_parts);
        StaticBlock {
            node_id: contents.node_id,
            span: contents.span,
            scope_id: scope_id_of(contents.semantic_id),
            body: body.into_list(),
            emptied_parts,
        }
    }

    /// Puts the node together again. Takes no memory.
    pub fn into_node(self) -> Node
        ensures { result ≡ static_block self.node_id.0 (span_of self.span)
            (scope_number self.scope_id) self.body }
    {
        let mut parts = self.emptied_parts;
        put_one(&mut parts, Part::List(self.body));
        Node::new(
            Kind::StaticBlock,
            Contents {
                node_id: self.node_id,
                span: self.span,
                semantic_id: scope_number(self.scope_id),
                parts,
            },
        )
    }
}

/// `StaticBlock`, borrowed.
#[derive(Clone, Copy)]
pub struct StaticBlockRef<'a> {
    pub node_id: NodeId,
    pub span: Option<Span>,
    pub scope_id: Option<ScopeId>,
    pub body: &'a [Node],
}

impl<'a> StaticBlockRef<'a> {
    /// Reads a node of this kind.
    pub fn from_node(node: &'a Node) -> StaticBlockRef<'a>
        requires { kind_of node.now ≡ Kind.StaticBlock }
        ensures { node.now ≡ static_block result.node_id.0 (span_of result.span)
            (scope_number result.scope_id) result.body.now }
    {
        match node.parts() {
            [body] => StaticBlockRef {
                node_id: node.node_id(),
                span: node.span(),
                scope_id: scope_id_of(node.semantic_id()),
                body: body.as_list(),
            },
            _ => unreachable!(),
        }
    }
}

/// Makes a node of this kind, which has no number yet: `static { body }` (ECMA-262, 15.7,
/// ClassStaticBlock). Fails on allocation failure alone.
pub fn make_static_block(alloc: Global, body: List<Node>) -> Result<Node, AllocError>
    ensures { IfOk result (λ t. t ≡ static_block unnumbered None None body) }
{
    let parts = vec![in alloc; Part::List(body)]?;
    Ok(Node::new(
        Kind::StaticBlock,
        Contents {
            node_id: NodeId::DUMMY,
            span: None,
            semantic_id: None,
            parts: List::from_vec(parts),
        },
    ))
}
