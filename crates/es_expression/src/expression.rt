// Printed by tools/tree.py from tools/kinds.py.
// Expressions. Each kind has a struct of its members, which keeps the emptied list of its node's
// parts, the same borrowed, and a maker.

ghost use Rattle.std.specs.Prelude.{◌≡◌, IfOk, None, length, option_map};
ghost use Rattle.es_base.specs.Carried.{span_of};
ghost use Rattle.es_base.specs.Numbered.{unnumbered};
ghost use Rattle.es_base.specs.declared.kind.Kind.{Kind};
ghost use Rattle.es_node.specs.View.{kind_of};
ghost use Rattle.es_expression.specs.Expression.{this_expression, super, array_expression, object_expression, property, spread_element, template_literal, template_element, tagged_template_expression, member_expression, private_field, unary_expression, update_expression, binary_expression, private_in, logical_expression, assignment_expression, conditional_expression, call_expression, new_expression, sequence_expression, yield_expression, await_expression, import_expression, meta_property, chain_expression};

use es_base::ids::{NodeId, Span};
use es_base::kind::Kind;
use es_base::list::List;
use es_base::name::Name;
use es_base::operator::{
    AssignmentOperator, BinaryOperator, LogicalOperator, PropertyKind, UnaryOperator,
    UpdateOperator, Word,
};
use es_node::node::{Contents, Node, Part};
use es_node::parts::{nullable_part, nullable_string_part};
use es_node::room::{
    put_four, put_one, put_six, put_three, put_two, take_four, take_one, take_six, take_three,
    take_two,
};
use std::alloc::{AllocError, Global};

/// Makes a node of this kind, which has no number yet: `this` (ECMA-262, 13.2.1). Fails on
/// allocation failure alone.
pub fn make_this_expression(alloc: Global) -> Result<Node, AllocError>
    ensures { IfOk result (λ t. t ≡ this_expression unnumbered None) }
{
    let parts = Vec::new(alloc);
    Ok(Node::new(
        Kind::ThisExpression,
        Contents {
            node_id: NodeId::DUMMY,
            span: None,
            semantic_id: None,
            parts: List::from_vec(parts),
        },
    ))
}

/// Makes a node of this kind, which has no number yet: `super`, as an object or a callee (ECMA-262,
/// 13.3.7). Fails on allocation failure alone.
pub fn make_super(alloc: Global) -> Result<Node, AllocError>
    ensures { IfOk result (λ t. t ≡ super unnumbered None) }
{
    let parts = Vec::new(alloc);
    Ok(Node::new(
        Kind::Super,
        Contents {
            node_id: NodeId::DUMMY,
            span: None,
            semantic_id: None,
            parts: List::from_vec(parts),
        },
    ))
}

/// `[elements]`, which may have holes (ECMA-262, 13.2.4).
#[derive(Drop)]
pub struct ArrayExpression {
    pub node_id: NodeId,
    pub span: Option<Span>,
    pub elements: List<Option<Node>>,
    emptied_parts: List<Part>,
    ghost part_count: { length emptied_parts ≡ 1 },
}

impl ArrayExpression {
    /// Takes a node of this kind apart.
    pub fn from_node(node: Node) -> ArrayExpression
        requires { kind_of node ≡ Kind.ArrayExpression }
        ensures { node ≡ array_expression result.node_id.0 (span_of result.span) result.elements }
    {
        let contents = node.into_contents();
        let mut emptied_parts = contents.parts;
        let elements = take_one(&mut emptied_parts);
        ArrayExpression {
            node_id: contents.node_id,
            span: contents.span,
            elements: elements.into_list_with_holes(),
            emptied_parts,
        }
    }

    /// Puts the node together again. Takes no memory.
    pub fn into_node(self) -> Node
        ensures { result ≡ array_expression self.node_id.0 (span_of self.span) self.elements }
    {
        let mut parts = self.emptied_parts;
        put_one(&mut parts, Part::Holes(self.elements));
        Node::new(
            Kind::ArrayExpression,
            Contents {
                node_id: self.node_id,
                span: self.span,
                semantic_id: None,
                parts,
            },
        )
    }
}

/// `ArrayExpression`, borrowed.
#[derive(Clone, Copy)]
pub struct ArrayExpressionRef<'a> {
    pub node_id: NodeId,
    pub span: Option<Span>,
    pub elements: &'a [Option<Node>],
}

impl<'a> ArrayExpressionRef<'a> {
    /// Reads a node of this kind.
    pub fn from_node(node: &'a Node) -> ArrayExpressionRef<'a>
        requires { kind_of node.now ≡ Kind.ArrayExpression }
        ensures { node.now ≡ array_expression result.node_id.0 (span_of result.span)
            result.elements.now }
    {
        match node.parts() {
            [elements] => ArrayExpressionRef {
                node_id: node.node_id(),
                span: node.span(),
                elements: elements.as_list_with_holes(),
            },
            _ => unreachable!(),
        }
    }
}

/// Makes a node of this kind, which has no number yet: `[elements]`, which may have holes
/// (ECMA-262, 13.2.4). Fails on allocation failure alone.
pub fn make_array_expression(
    alloc: Global,
    elements: List<Option<Node>>,
) -> Result<Node, AllocError>
    ensures { IfOk result (λ t. t ≡ array_expression unnumbered None elements) }
{
    let parts = vec![in alloc; Part::Holes(elements)]?;
    Ok(Node::new(
        Kind::ArrayExpression,
        Contents {
            node_id: NodeId::DUMMY,
            span: None,
            semantic_id: None,
            parts: List::from_vec(parts),
        },
    ))
}

/// `{ properties }` (ECMA-262, 13.2.5).
#[derive(Drop)]
pub struct ObjectExpression {
    pub node_id: NodeId,
    pub span: Option<Span>,
    pub properties: List<Node>,
    emptied_parts: List<Part>,
    ghost part_count: { length emptied_parts ≡ 1 },
}

impl ObjectExpression {
    /// Takes a node of this kind apart.
    pub fn from_node(node: Node) -> ObjectExpression
        requires { kind_of node ≡ Kind.ObjectExpression }
        ensures { node ≡ object_expression result.node_id.0 (span_of result.span)
            result.properties }
    {
        let contents = node.into_contents();
        let mut emptied_parts = contents.parts;
        let properties = take_one(&mut emptied_parts);
        ObjectExpression {
            node_id: contents.node_id,
            span: contents.span,
            properties: properties.into_list(),
            emptied_parts,
        }
    }

    /// Puts the node together again. Takes no memory.
    pub fn into_node(self) -> Node
        ensures { result ≡ object_expression self.node_id.0 (span_of self.span) self.properties }
    {
        let mut parts = self.emptied_parts;
        put_one(&mut parts, Part::List(self.properties));
        Node::new(
            Kind::ObjectExpression,
            Contents {
                node_id: self.node_id,
                span: self.span,
                semantic_id: None,
                parts,
            },
        )
    }
}

/// `ObjectExpression`, borrowed.
#[derive(Clone, Copy)]
pub struct ObjectExpressionRef<'a> {
    pub node_id: NodeId,
    pub span: Option<Span>,
    pub properties: &'a [Node],
}

impl<'a> ObjectExpressionRef<'a> {
    /// Reads a node of this kind.
    pub fn from_node(node: &'a Node) -> ObjectExpressionRef<'a>
        requires { kind_of node.now ≡ Kind.ObjectExpression }
        ensures { node.now ≡ object_expression result.node_id.0 (span_of result.span)
            result.properties.now }
    {
        match node.parts() {
            [properties] => ObjectExpressionRef {
                node_id: node.node_id(),
                span: node.span(),
                properties: properties.as_list(),
            },
            _ => unreachable!(),
        }
    }
}

/// Makes a node of this kind, which has no number yet: `{ properties }` (ECMA-262, 13.2.5). Fails
/// on allocation failure alone.
pub fn make_object_expression(alloc: Global, properties: List<Node>) -> Result<Node, AllocError>
    ensures { IfOk result (λ t. t ≡ object_expression unnumbered None properties) }
{
    let parts = vec![in alloc; Part::List(properties)]?;
    Ok(Node::new(
        Kind::ObjectExpression,
        Contents {
            node_id: NodeId::DUMMY,
            span: None,
            semantic_id: None,
            parts: List::from_vec(parts),
        },
    ))
}

/// A property, a method or an accessor of an object literal (ECMA-262, 13.2.5).
#[derive(Drop)]
pub struct Property {
    pub node_id: NodeId,
    pub span: Option<Span>,
    pub key: Node,
    pub value: Node,
    pub kind: PropertyKind,
    pub method: bool,
    pub shorthand: bool,
    pub computed: bool,
    emptied_parts: List<Part>,
    ghost part_count: { length emptied_parts ≡ 6 },
}

impl Property {
    /// Takes a node of this kind apart.
    pub fn from_node(node: Node) -> Property
        requires { kind_of node ≡ Kind.Property }
        ensures { node ≡ property result.node_id.0 (span_of result.span) result.key result.value
            result.kind result.method result.shorthand result.computed }
    {
        let contents = node.into_contents();
        let mut emptied_parts = contents.parts;
        let (key, value, kind, method, shorthand, computed) = take_six(&mut emptied_parts);
        Property {
            node_id: contents.node_id,
            span: contents.span,
            key: key.into_child(),
            value: value.into_child(),
            kind: kind.into_property_kind(),
            method: method.into_boolean(),
            shorthand: shorthand.into_boolean(),
            computed: computed.into_boolean(),
            emptied_parts,
        }
    }

    /// Puts the node together again. Takes no memory.
    pub fn into_node(self) -> Node
        ensures { result ≡ property self.node_id.0 (span_of self.span) self.key self.value self.kind
            self.method self.shorthand self.computed }
    {
        let mut parts = self.emptied_parts;
        put_six(
            &mut parts,
            Part::Child(self.key),
            Part::Child(self.value),
            Part::Word(Word::PropertyKind(self.kind)),
            Part::Boolean(self.method),
            Part::Boolean(self.shorthand),
            Part::Boolean(self.computed),
        );
        Node::new(
            Kind::Property,
            Contents {
                node_id: self.node_id,
                span: self.span,
                semantic_id: None,
                parts,
            },
        )
    }
}

/// `Property`, borrowed.
#[derive(Clone, Copy)]
pub struct PropertyRef<'a> {
    pub node_id: NodeId,
    pub span: Option<Span>,
    pub key: &'a Node,
    pub value: &'a Node,
    pub kind: PropertyKind,
    pub method: bool,
    pub shorthand: bool,
    pub computed: bool,
}

impl<'a> PropertyRef<'a> {
    /// Reads a node of this kind.
    pub fn from_node(node: &'a Node) -> PropertyRef<'a>
        requires { kind_of node.now ≡ Kind.Property }
        ensures { node.now ≡ property result.node_id.0 (span_of result.span) result.key.now
            result.value.now result.kind result.method result.shorthand result.computed }
    {
        match node.parts() {
            [key, value, kind, method, shorthand, computed] => PropertyRef {
                node_id: node.node_id(),
                span: node.span(),
                key: key.as_child(),
                value: value.as_child(),
                kind: kind.as_property_kind(),
                method: method.as_boolean(),
                shorthand: shorthand.as_boolean(),
                computed: computed.as_boolean(),
            },
            _ => unreachable!(),
        }
    }
}

/// Makes a node of this kind, which has no number yet: a property, a method or an accessor of an
/// object literal (ECMA-262, 13.2.5). Fails on allocation failure alone.
pub fn make_property(
    alloc: Global,
    key: Node,
    value: Node,
    kind: PropertyKind,
    method: bool,
    shorthand: bool,
    computed: bool,
) -> Result<Node, AllocError>
    ensures { IfOk result (λ t. t ≡ property unnumbered None key value kind method shorthand
        computed) }
{
    let parts = vec![in alloc;
        Part::Child(key),
        Part::Child(value),
        Part::Word(Word::PropertyKind(kind)),
        Part::Boolean(method),
        Part::Boolean(shorthand),
        Part::Boolean(computed),
    ]?;
    Ok(Node::new(
        Kind::Property,
        Contents {
            node_id: NodeId::DUMMY,
            span: None,
            semantic_id: None,
            parts: List::from_vec(parts),
        },
    ))
}

/// `...argument` in an array, an object or a call (ECMA-262, 13.2.4, 13.2.5 and 13.3.8).
#[derive(Drop)]
pub struct SpreadElement {
    pub node_id: NodeId,
    pub span: Option<Span>,
    pub argument: Node,
    emptied_parts: List<Part>,
    ghost part_count: { length emptied_parts ≡ 1 },
}

impl SpreadElement {
    /// Takes a node of this kind apart.
    pub fn from_node(node: Node) -> SpreadElement
        requires { kind_of node ≡ Kind.SpreadElement }
        ensures { node ≡ spread_element result.node_id.0 (span_of result.span) result.argument }
    {
        let contents = node.into_contents();
        let mut emptied_parts = contents.parts;
        let argument = take_one(&mut emptied_parts);
        SpreadElement {
            node_id: contents.node_id,
            span: contents.span,
            argument: argument.into_child(),
            emptied_parts,
        }
    }

    /// Puts the node together again. Takes no memory.
    pub fn into_node(self) -> Node
        ensures { result ≡ spread_element self.node_id.0 (span_of self.span) self.argument }
    {
        let mut parts = self.emptied_parts;
        put_one(&mut parts, Part::Child(self.argument));
        Node::new(
            Kind::SpreadElement,
            Contents {
                node_id: self.node_id,
                span: self.span,
                semantic_id: None,
                parts,
            },
        )
    }
}

/// `SpreadElement`, borrowed.
#[derive(Clone, Copy)]
pub struct SpreadElementRef<'a> {
    pub node_id: NodeId,
    pub span: Option<Span>,
    pub argument: &'a Node,
}

impl<'a> SpreadElementRef<'a> {
    /// Reads a node of this kind.
    pub fn from_node(node: &'a Node) -> SpreadElementRef<'a>
        requires { kind_of node.now ≡ Kind.SpreadElement }
        ensures { node.now ≡ spread_element result.node_id.0 (span_of result.span)
            result.argument.now }
    {
        match node.parts() {
            [argument] => SpreadElementRef {
                node_id: node.node_id(),
                span: node.span(),
                argument: argument.as_child(),
            },
            _ => unreachable!(),
        }
    }
}

/// Makes a node of this kind, which has no number yet: `...argument` in an array, an object or a
/// call (ECMA-262, 13.2.4, 13.2.5 and 13.3.8). Fails on allocation failure alone.
pub fn make_spread_element(alloc: Global, argument: Node) -> Result<Node, AllocError>
    ensures { IfOk result (λ t. t ≡ spread_element unnumbered None argument) }
{
    let parts = vec![in alloc; Part::Child(argument)]?;
    Ok(Node::new(
        Kind::SpreadElement,
        Contents {
            node_id: NodeId::DUMMY,
            span: None,
            semantic_id: None,
            parts: List::from_vec(parts),
        },
    ))
}

/// A template: its strings, and the expressions between them (ECMA-262, 13.2.8).
#[derive(Drop)]
pub struct TemplateLiteral {
    pub node_id: NodeId,
    pub span: Option<Span>,
    pub quasis: List<Node>,
    pub expressions: List<Node>,
    emptied_parts: List<Part>,
    ghost part_count: { length emptied_parts ≡ 2 },
}

impl TemplateLiteral {
    /// Takes a node of this kind apart.
    pub fn from_node(node: Node) -> TemplateLiteral
        requires { kind_of node ≡ Kind.TemplateLiteral }
        ensures { node ≡ template_literal result.node_id.0 (span_of result.span) result.quasis
            result.expressions }
    {
        let contents = node.into_contents();
        let mut emptied_parts = contents.parts;
        let (quasis, expressions) = take_two(&mut emptied_parts);
        TemplateLiteral {
            node_id: contents.node_id,
            span: contents.span,
            quasis: quasis.into_list(),
            expressions: expressions.into_list(),
            emptied_parts,
        }
    }

    /// Puts the node together again. Takes no memory.
    pub fn into_node(self) -> Node
        ensures { result ≡ template_literal self.node_id.0 (span_of self.span) self.quasis
            self.expressions }
    {
        let mut parts = self.emptied_parts;
        put_two(
            &mut parts,
            Part::List(self.quasis),
            Part::List(self.expressions),
        );
        Node::new(
            Kind::TemplateLiteral,
            Contents {
                node_id: self.node_id,
                span: self.span,
                semantic_id: None,
                parts,
            },
        )
    }
}

/// `TemplateLiteral`, borrowed.
#[derive(Clone, Copy)]
pub struct TemplateLiteralRef<'a> {
    pub node_id: NodeId,
    pub span: Option<Span>,
    pub quasis: &'a [Node],
    pub expressions: &'a [Node],
}

impl<'a> TemplateLiteralRef<'a> {
    /// Reads a node of this kind.
    pub fn from_node(node: &'a Node) -> TemplateLiteralRef<'a>
        requires { kind_of node.now ≡ Kind.TemplateLiteral }
        ensures { node.now ≡ template_literal result.node_id.0 (span_of result.span)
            result.quasis.now result.expressions.now }
    {
        match node.parts() {
            [quasis, expressions] => TemplateLiteralRef {
                node_id: node.node_id(),
                span: node.span(),
                quasis: quasis.as_list(),
                expressions: expressions.as_list(),
            },
            _ => unreachable!(),
        }
    }
}

/// Makes a node of this kind, which has no number yet: a template: its strings, and the expressions
/// between them (ECMA-262, 13.2.8). Fails on allocation failure alone.
pub fn make_template_literal(
    alloc: Global,
    quasis: List<Node>,
    expressions: List<Node>,
) -> Result<Node, AllocError>
    ensures { IfOk result (λ t. t ≡ template_literal unnumbered None quasis expressions) }
{
    let parts = vec![in alloc; Part::List(quasis), Part::List(expressions)]?;
    Ok(Node::new(
        Kind::TemplateLiteral,
        Contents {
            node_id: NodeId::DUMMY,
            span: None,
            semantic_id: None,
            parts: List::from_vec(parts),
        },
    ))
}

/// A string of a template; `cooked` is absent where an escape is not valid (ECMA-262, 12.8.6).
#[derive(Drop)]
pub struct TemplateElement {
    pub node_id: NodeId,
    pub span: Option<Span>,
    pub raw: Name,
    pub cooked: Option<Name>,
    pub tail: bool,
    emptied_parts: List<Part>,
    ghost part_count: { length emptied_parts ≡ 3 },
}

impl TemplateElement {
    /// Takes a node of this kind apart.
    pub fn from_node(node: Node) -> TemplateElement
        requires { kind_of node ≡ Kind.TemplateElement }
        ensures { node ≡ template_element result.node_id.0 (span_of result.span) result.raw
            result.cooked result.tail }
    {
        let contents = node.into_contents();
        let mut emptied_parts = contents.parts;
        let (raw, cooked, tail) = take_three(&mut emptied_parts);
        TemplateElement {
            node_id: contents.node_id,
            span: contents.span,
            raw: raw.into_string(),
            cooked: cooked.into_nullable_string(),
            tail: tail.into_boolean(),
            emptied_parts,
        }
    }

    /// Puts the node together again. Takes no memory.
    pub fn into_node(self) -> Node
        ensures { result ≡ template_element self.node_id.0 (span_of self.span) self.raw self.cooked
            self.tail }
    {
        let mut parts = self.emptied_parts;
        put_three(
            &mut parts,
            Part::String(self.raw),
            nullable_string_part(self.cooked),
            Part::Boolean(self.tail),
        );
        Node::new(
            Kind::TemplateElement,
            Contents {
                node_id: self.node_id,
                span: self.span,
                semantic_id: None,
                parts,
            },
        )
    }
}

/// `TemplateElement`, borrowed.
#[derive(Clone, Copy)]
pub struct TemplateElementRef<'a> {
    pub node_id: NodeId,
    pub span: Option<Span>,
    pub raw: &'a Name,
    pub cooked: Option<&'a Name>,
    pub tail: bool,
}

impl<'a> TemplateElementRef<'a> {
    /// Reads a node of this kind.
    pub fn from_node(node: &'a Node) -> TemplateElementRef<'a>
        requires { kind_of node.now ≡ Kind.TemplateElement }
        ensures { node.now ≡ template_element result.node_id.0 (span_of result.span) result.raw.now
            (option_map (λ x. x.now) result.cooked) result.tail }
    {
        match node.parts() {
            [raw, cooked, tail] => TemplateElementRef {
                node_id: node.node_id(),
                span: node.span(),
                raw: raw.as_string(),
                cooked: cooked.as_nullable_string(),
                tail: tail.as_boolean(),
            },
            _ => unreachable!(),
        }
    }
}

/// Makes a node of this kind, which has no number yet: a string of a template; `cooked` is absent
/// where an escape is not valid (ECMA-262, 12.8.6). Fails on allocation failure alone.
pub fn make_template_element(
    alloc: Global,
    raw: Name,
    cooked: Option<Name>,
    tail: bool,
) -> Result<Node, AllocError>
    ensures { IfOk result (λ t. t ≡ template_element unnumbered None raw cooked tail) }
{
    let parts = vec![in alloc;
        Part::String(raw),
        nullable_string_part(cooked),
        Part::Boolean(tail),
    ]?;
    Ok(Node::new(
        Kind::TemplateElement,
        Contents {
            node_id: NodeId::DUMMY,
            span: None,
            semantic_id: None,
            parts: List::from_vec(parts),
        },
    ))
}

/// `tag` before a template (ECMA-262, 13.3.11).
#[derive(Drop)]
pub struct TaggedTemplateExpression {
    pub node_id: NodeId,
    pub span: Option<Span>,
    pub tag: Node,
    pub quasi: Node,
    emptied_parts: List<Part>,
    ghost part_count: { length emptied_parts ≡ 2 },
}

impl TaggedTemplateExpression {
    /// Takes a node of this kind apart.
    pub fn from_node(node: Node) -> TaggedTemplateExpression
        requires { kind_of node ≡ Kind.TaggedTemplateExpression }
        ensures { node ≡ tagged_template_expression result.node_id.0 (span_of result.span)
            result.tag result.quasi }
    {
        let contents = node.into_contents();
        let mut emptied_parts = contents.parts;
        let (tag, quasi) = take_two(&mut emptied_parts);
        TaggedTemplateExpression {
            node_id: contents.node_id,
            span: contents.span,
            tag: tag.into_child(),
            quasi: quasi.into_child(),
            emptied_parts,
        }
    }

    /// Puts the node together again. Takes no memory.
    pub fn into_node(self) -> Node
        ensures { result ≡ tagged_template_expression self.node_id.0 (span_of self.span) self.tag
            self.quasi }
    {
        let mut parts = self.emptied_parts;
        put_two(&mut parts, Part::Child(self.tag), Part::Child(self.quasi));
        Node::new(
            Kind::TaggedTemplateExpression,
            Contents {
                node_id: self.node_id,
                span: self.span,
                semantic_id: None,
                parts,
            },
        )
    }
}

/// `TaggedTemplateExpression`, borrowed.
#[derive(Clone, Copy)]
pub struct TaggedTemplateExpressionRef<'a> {
    pub node_id: NodeId,
    pub span: Option<Span>,
    pub tag: &'a Node,
    pub quasi: &'a Node,
}

impl<'a> TaggedTemplateExpressionRef<'a> {
    /// Reads a node of this kind.
    pub fn from_node(node: &'a Node) -> TaggedTemplateExpressionRef<'a>
        requires { kind_of node.now ≡ Kind.TaggedTemplateExpression }
        ensures { node.now ≡ tagged_template_expression result.node_id.0 (span_of result.span)
            result.tag.now result.quasi.now }
    {
        match node.parts() {
            [tag, quasi] => TaggedTemplateExpressionRef {
                node_id: node.node_id(),
                span: node.span(),
                tag: tag.as_child(),
                quasi: quasi.as_child(),
            },
            _ => unreachable!(),
        }
    }
}

/// Makes a node of this kind, which has no number yet: `tag` before a template (ECMA-262, 13.3.11).
/// Fails on allocation failure alone.
pub fn make_tagged_template_expression(
    alloc: Global,
    tag: Node,
    quasi: Node,
) -> Result<Node, AllocError>
    ensures { IfOk result (λ t. t ≡ tagged_template_expression unnumbered None tag quasi) }
{
    let parts = vec![in alloc; Part::Child(tag), Part::Child(quasi)]?;
    Ok(Node::new(
        Kind::TaggedTemplateExpression,
        Contents {
            node_id: NodeId::DUMMY,
            span: None,
            semantic_id: None,
            parts: List::from_vec(parts),
        },
    ))
}

/// `object.property` or `object[property]` (ECMA-262, 13.3.2 and 13.3.9).
#[derive(Drop)]
pub struct MemberExpression {
    pub node_id: NodeId,
    pub span: Option<Span>,
    pub object: Node,
    pub property: Node,
    pub computed: bool,
    pub optional: bool,
    emptied_parts: List<Part>,
    ghost part_count: { length emptied_parts ≡ 4 },
}

impl MemberExpression {
    /// Takes a node of this kind apart.
    pub fn from_node(node: Node) -> MemberExpression
        requires { kind_of node ≡ Kind.MemberExpression }
        ensures { node ≡ member_expression result.node_id.0 (span_of result.span) result.object
            result.property result.computed result.optional }
    {
        let contents = node.into_contents();
        let mut emptied_parts = contents.parts;
        let (object, property, computed, optional) = take_four(&mut emptied_parts);
        MemberExpression {
            node_id: contents.node_id,
            span: contents.span,
            object: object.into_child(),
            property: property.into_child(),
            computed: computed.into_boolean(),
            optional: optional.into_boolean(),
            emptied_parts,
        }
    }

    /// Puts the node together again. Takes no memory.
    pub fn into_node(self) -> Node
        ensures { result ≡ member_expression self.node_id.0 (span_of self.span) self.object
            self.property self.computed self.optional }
    {
        let mut parts = self.emptied_parts;
        put_four(
            &mut parts,
            Part::Child(self.object),
            Part::Child(self.property),
            Part::Boolean(self.computed),
            Part::Boolean(self.optional),
        );
        Node::new(
            Kind::MemberExpression,
            Contents {
                node_id: self.node_id,
                span: self.span,
                semantic_id: None,
                parts,
            },
        )
    }
}

/// `MemberExpression`, borrowed.
#[derive(Clone, Copy)]
pub struct MemberExpressionRef<'a> {
    pub node_id: NodeId,
    pub span: Option<Span>,
    pub object: &'a Node,
    pub property: &'a Node,
    pub computed: bool,
    pub optional: bool,
}

impl<'a> MemberExpressionRef<'a> {
    /// Reads a node of this kind.
    pub fn from_node(node: &'a Node) -> MemberExpressionRef<'a>
        requires { kind_of node.now ≡ Kind.MemberExpression }
        ensures { node.now ≡ member_expression result.node_id.0 (span_of result.span)
            result.object.now result.property.now result.computed result.optional }
    {
        match node.parts() {
            [object, property, computed, optional] => MemberExpressionRef {
                node_id: node.node_id(),
                span: node.span(),
                object: object.as_child(),
                property: property.as_child(),
                computed: computed.as_boolean(),
                optional: optional.as_boolean(),
            },
            _ => unreachable!(),
        }
    }
}

/// Makes a node of this kind, which has no number yet: `object.property` or `object[property]`
/// (ECMA-262, 13.3.2 and 13.3.9). Fails on allocation failure alone.
pub fn make_member_expression(
    alloc: Global,
    object: Node,
    property: Node,
    computed: bool,
    optional: bool,
) -> Result<Node, AllocError>
    ensures { IfOk result (λ t. t ≡ member_expression unnumbered None object property computed
        optional) }
{
    let parts = vec![in alloc;
        Part::Child(object),
        Part::Child(property),
        Part::Boolean(computed),
        Part::Boolean(optional),
    ]?;
    Ok(Node::new(
        Kind::MemberExpression,
        Contents {
            node_id: NodeId::DUMMY,
            span: None,
            semantic_id: None,
            parts: List::from_vec(parts),
        },
    ))
}

/// `object.#property` (ECMA-262, 13.3.2 and 13.3.9).
#[derive(Drop)]
pub struct PrivateField {
    pub node_id: NodeId,
    pub span: Option<Span>,
    pub object: Node,
    pub property: Node,
    pub optional: bool,
    emptied_parts: List<Part>,
    ghost part_count: { length emptied_parts ≡ 4 },
}

impl PrivateField {
    /// Takes a node of this kind apart.
    pub fn from_node(node: Node) -> PrivateField
        requires { kind_of node ≡ Kind.PrivateField }
        ensures { node ≡ private_field result.node_id.0 (span_of result.span) result.object
            result.property result.optional }
    {
        let contents = node.into_contents();
        let mut emptied_parts = contents.parts;
        let (object, property, computed, optional) = take_four(&mut emptied_parts);
        computed.into_false();
        PrivateField {
            node_id: contents.node_id,
            span: contents.span,
            object: object.into_child(),
            property: property.into_child(),
            optional: optional.into_boolean(),
            emptied_parts,
        }
    }

    /// Puts the node together again. Takes no memory.
    pub fn into_node(self) -> Node
        ensures { result ≡ private_field self.node_id.0 (span_of self.span) self.object
            self.property self.optional }
    {
        let mut parts = self.emptied_parts;
        put_four(
            &mut parts,
            Part::Child(self.object),
            Part::Child(self.property),
            Part::Boolean(false),
            Part::Boolean(self.optional),
        );
        Node::new(
            Kind::PrivateField,
            Contents {
                node_id: self.node_id,
                span: self.span,
                semantic_id: None,
                parts,
            },
        )
    }
}

/// `PrivateField`, borrowed.
#[derive(Clone, Copy)]
pub struct PrivateFieldRef<'a> {
    pub node_id: NodeId,
    pub span: Option<Span>,
    pub object: &'a Node,
    pub property: &'a Node,
    pub optional: bool,
}

impl<'a> PrivateFieldRef<'a> {
    /// Reads a node of this kind.
    pub fn from_node(node: &'a Node) -> PrivateFieldRef<'a>
        requires { kind_of node.now ≡ Kind.PrivateField }
        ensures { node.now ≡ private_field result.node_id.0 (span_of result.span) result.object.now
            result.property.now result.optional }
    {
        match node.parts() {
            [object, property, computed, optional] => {
                computed.as_false();
                PrivateFieldRef {
                    node_id: node.node_id(),
                    span: node.span(),
                    object: object.as_child(),
                    property: property.as_child(),
                    optional: optional.as_boolean(),
                }
            },
            _ => unreachable!(),
        }
    }
}

/// Makes a node of this kind, which has no number yet: `object.#property` (ECMA-262, 13.3.2 and
/// 13.3.9). Fails on allocation failure alone.
pub fn make_private_field(
    alloc: Global,
    object: Node,
    property: Node,
    optional: bool,
) -> Result<Node, AllocError>
    ensures { IfOk result (λ t. t ≡ private_field unnumbered None object property optional) }
{
    let parts = vec![in alloc;
        Part::Child(object),
        Part::Child(property),
        Part::Boolean(false),
        Part::Boolean(optional),
    ]?;
    Ok(Node::new(
        Kind::PrivateField,
        Contents {
            node_id: NodeId::DUMMY,
            span: None,
            semantic_id: None,
            parts: List::from_vec(parts),
        },
    ))
}

/// An operator before its operand (ECMA-262, 13.5).
#[derive(Drop)]
pub struct UnaryExpression {
    pub node_id: NodeId,
    pub span: Option<Span>,
    pub operator: UnaryOperator,
    pub argument: Node,
    emptied_parts: List<Part>,
    ghost part_count: { length emptied_parts ≡ 2 },
}

impl UnaryExpression {
    /// Takes a node of this kind apart.
    pub fn from_node(node: Node) -> UnaryExpression
        requires { kind_of node ≡ Kind.UnaryExpression }
        ensures { node ≡ unary_expression result.node_id.0 (span_of result.span) result.operator
            result.argument }
    {
        let contents = node.into_contents();
        let mut emptied_parts = contents.parts;
        let (operator, argument) = take_two(&mut emptied_parts);
        UnaryExpression {
            node_id: contents.node_id,
            span: contents.span,
            operator: operator.into_unary_operator(),
            argument: argument.into_child(),
            emptied_parts,
        }
    }

    /// Puts the node together again. Takes no memory.
    pub fn into_node(self) -> Node
        ensures { result ≡ unary_expression self.node_id.0 (span_of self.span) self.operator
            self.argument }
    {
        let mut parts = self.emptied_parts;
        put_two(
            &mut parts,
            Part::Word(Word::UnaryOperator(self.operator)),
            Part::Child(self.argument),
        );
        Node::new(
            Kind::UnaryExpression,
            Contents {
                node_id: self.node_id,
                span: self.span,
                semantic_id: None,
                parts,
            },
        )
    }
}

/// `UnaryExpression`, borrowed.
#[derive(Clone, Copy)]
pub struct UnaryExpressionRef<'a> {
    pub node_id: NodeId,
    pub span: Option<Span>,
    pub operator: UnaryOperator,
    pub argument: &'a Node,
}

impl<'a> UnaryExpressionRef<'a> {
    /// Reads a node of this kind.
    pub fn from_node(node: &'a Node) -> UnaryExpressionRef<'a>
        requires { kind_of node.now ≡ Kind.UnaryExpression }
        ensures { node.now ≡ unary_expression result.node_id.0 (span_of result.span) result.operator
            result.argument.now }
    {
        match node.parts() {
            [operator, argument] => UnaryExpressionRef {
                node_id: node.node_id(),
                span: node.span(),
                operator: operator.as_unary_operator(),
                argument: argument.as_child(),
            },
            _ => unreachable!(),
        }
    }
}

/// Makes a node of this kind, which has no number yet: an operator before its operand (ECMA-262,
/// 13.5). Fails on allocation failure alone.
pub fn make_unary_expression(
    alloc: Global,
    operator: UnaryOperator,
    argument: Node,
) -> Result<Node, AllocError>
    ensures { IfOk result (λ t. t ≡ unary_expression unnumbered None operator argument) }
{
    let parts = vec![in alloc;
        Part::Word(Word::UnaryOperator(operator)),
        Part::Child(argument),
    ]?;
    Ok(Node::new(
        Kind::UnaryExpression,
        Contents {
            node_id: NodeId::DUMMY,
            span: None,
            semantic_id: None,
            parts: List::from_vec(parts),
        },
    ))
}

/// `++` or `--`, before or after its target (ECMA-262, 13.4).
#[derive(Drop)]
pub struct UpdateExpression {
    pub node_id: NodeId,
    pub span: Option<Span>,
    pub operator: UpdateOperator,
    pub argument: Node,
    pub prefix: bool,
    emptied_parts: List<Part>,
    ghost part_count: { length emptied_parts ≡ 3 },
}

impl UpdateExpression {
    /// Takes a node of this kind apart.
    pub fn from_node(node: Node) -> UpdateExpression
        requires { kind_of node ≡ Kind.UpdateExpression }
        ensures { node ≡ update_expression result.node_id.0 (span_of result.span) result.operator
            result.argument result.prefix }
    {
        let contents = node.into_contents();
        let mut emptied_parts = contents.parts;
        let (operator, argument, prefix) = take_three(&mut emptied_parts);
        UpdateExpression {
            node_id: contents.node_id,
            span: contents.span,
            operator: operator.into_update_operator(),
            argument: argument.into_child(),
            prefix: prefix.into_boolean(),
            emptied_parts,
        }
    }

    /// Puts the node together again. Takes no memory.
    pub fn into_node(self) -> Node
        ensures { result ≡ update_expression self.node_id.0 (span_of self.span) self.operator
            self.argument self.prefix }
    {
        let mut parts = self.emptied_parts;
        put_three(
            &mut parts,
            Part::Word(Word::UpdateOperator(self.operator)),
            Part::Child(self.argument),
            Part::Boolean(self.prefix),
        );
        Node::new(
            Kind::UpdateExpression,
            Contents {
                node_id: self.node_id,
                span: self.span,
                semantic_id: None,
                parts,
            },
        )
    }
}

/// `UpdateExpression`, borrowed.
#[derive(Clone, Copy)]
pub struct UpdateExpressionRef<'a> {
    pub node_id: NodeId,
    pub span: Option<Span>,
    pub operator: UpdateOperator,
    pub argument: &'a Node,
    pub prefix: bool,
}

impl<'a> UpdateExpressionRef<'a> {
    /// Reads a node of this kind.
    pub fn from_node(node: &'a Node) -> UpdateExpressionRef<'a>
        requires { kind_of node.now ≡ Kind.UpdateExpression }
        ensures { node.now ≡ update_expression result.node_id.0 (span_of result.span)
            result.operator result.argument.now result.prefix }
    {
        match node.parts() {
            [operator, argument, prefix] => UpdateExpressionRef {
                node_id: node.node_id(),
                span: node.span(),
                operator: operator.as_update_operator(),
                argument: argument.as_child(),
                prefix: prefix.as_boolean(),
            },
            _ => unreachable!(),
        }
    }
}

/// Makes a node of this kind, which has no number yet: `++` or `--`, before or after its target
/// (ECMA-262, 13.4). Fails on allocation failure alone.
pub fn make_update_expression(
    alloc: Global,
    operator: UpdateOperator,
    argument: Node,
    prefix: bool,
) -> Result<Node, AllocError>
    ensures { IfOk result (λ t. t ≡ update_expression unnumbered None operator argument prefix) }
{
    let parts = vec![in alloc;
        Part::Word(Word::UpdateOperator(operator)),
        Part::Child(argument),
        Part::Boolean(prefix),
    ]?;
    Ok(Node::new(
        Kind::UpdateExpression,
        Contents {
            node_id: NodeId::DUMMY,
            span: None,
            semantic_id: None,
            parts: List::from_vec(parts),
        },
    ))
}

/// An operator between two operands (ECMA-262, 13.6 to 13.12).
#[derive(Drop)]
pub struct BinaryExpression {
    pub node_id: NodeId,
    pub span: Option<Span>,
    pub operator: BinaryOperator,
    pub left: Node,
    pub right: Node,
    emptied_parts: List<Part>,
    ghost part_count: { length emptied_parts ≡ 3 },
}

impl BinaryExpression {
    /// Takes a node of this kind apart.
    pub fn from_node(node: Node) -> BinaryExpression
        requires { kind_of node ≡ Kind.BinaryExpression }
        ensures { node ≡ binary_expression result.node_id.0 (span_of result.span) result.operator
            result.left result.right }
    {
        let contents = node.into_contents();
        let mut emptied_parts = contents.parts;
        let (operator, left, right) = take_three(&mut emptied_parts);
        BinaryExpression {
            node_id: contents.node_id,
            span: contents.span,
            operator: operator.into_binary_operator(),
            left: left.into_child(),
            right: right.into_child(),
            emptied_parts,
        }
    }

    /// Puts the node together again. Takes no memory.
    pub fn into_node(self) -> Node
        ensures { result ≡ binary_expression self.node_id.0 (span_of self.span) self.operator
            self.left self.right }
    {
        let mut parts = self.emptied_parts;
        put_three(
            &mut parts,
            Part::Word(Word::BinaryOperator(self.operator)),
            Part::Child(self.left),
            Part::Child(self.right),
        );
        Node::new(
            Kind::BinaryExpression,
            Contents {
                node_id: self.node_id,
                span: self.span,
                semantic_id: None,
                parts,
            },
        )
    }
}

/// `BinaryExpression`, borrowed.
#[derive(Clone, Copy)]
pub struct BinaryExpressionRef<'a> {
    pub node_id: NodeId,
    pub span: Option<Span>,
    pub operator: BinaryOperator,
    pub left: &'a Node,
    pub right: &'a Node,
}

impl<'a> BinaryExpressionRef<'a> {
    /// Reads a node of this kind.
    pub fn from_node(node: &'a Node) -> BinaryExpressionRef<'a>
        requires { kind_of node.now ≡ Kind.BinaryExpression }
        ensures { node.now ≡ binary_expression result.node_id.0 (span_of result.span)
            result.operator result.left.now result.right.now }
    {
        match node.parts() {
            [operator, left, right] => BinaryExpressionRef {
                node_id: node.node_id(),
                span: node.span(),
                operator: operator.as_binary_operator(),
                left: left.as_child(),
                right: right.as_child(),
            },
            _ => unreachable!(),
        }
    }
}

/// Makes a node of this kind, which has no number yet: an operator between two operands (ECMA-262,
/// 13.6 to 13.12). Fails on allocation failure alone.
pub fn make_binary_expression(
    alloc: Global,
    operator: BinaryOperator,
    left: Node,
    right: Node,
) -> Result<Node, AllocError>
    ensures { IfOk result (λ t. t ≡ binary_expression unnumbered None operator left right) }
{
    let parts = vec![in alloc;
        Part::Word(Word::BinaryOperator(operator)),
        Part::Child(left),
        Part::Child(right),
    ]?;
    Ok(Node::new(
        Kind::BinaryExpression,
        Contents {
            node_id: NodeId::DUMMY,
            span: None,
            semantic_id: None,
            parts: List::from_vec(parts),
        },
    ))
}

/// `#left in right` (ECMA-262, 13.10).
#[derive(Drop)]
pub struct PrivateIn {
    pub node_id: NodeId,
    pub span: Option<Span>,
    pub left: Node,
    pub right: Node,
    emptied_parts: List<Part>,
    ghost part_count: { length emptied_parts ≡ 3 },
}

impl PrivateIn {
    /// Takes a node of this kind apart.
    pub fn from_node(node: Node) -> PrivateIn
        requires { kind_of node ≡ Kind.PrivateIn }
        ensures { node ≡ private_in result.node_id.0 (span_of result.span) result.left
            result.right }
    {
        let contents = node.into_contents();
        let mut emptied_parts = contents.parts;
        let (operator, left, right) = take_three(&mut emptied_parts);
        operator.into_in();
        PrivateIn {
            node_id: contents.node_id,
            span: contents.span,
            left: left.into_child(),
            right: right.into_child(),
            emptied_parts,
        }
    }

    /// Puts the node together again. Takes no memory.
    pub fn into_node(self) -> Node
        ensures { result ≡ private_in self.node_id.0 (span_of self.span) self.left self.right }
    {
        let mut parts = self.emptied_parts;
        put_three(
            &mut parts,
            Part::Word(Word::In),
            Part::Child(self.left),
            Part::Child(self.right),
        );
        Node::new(
            Kind::PrivateIn,
            Contents {
                node_id: self.node_id,
                span: self.span,
                semantic_id: None,
                parts,
            },
        )
    }
}

/// `PrivateIn`, borrowed.
#[derive(Clone, Copy)]
pub struct PrivateInRef<'a> {
    pub node_id: NodeId,
    pub span: Option<Span>,
    pub left: &'a Node,
    pub right: &'a Node,
}

impl<'a> PrivateInRef<'a> {
    /// Reads a node of this kind.
    pub fn from_node(node: &'a Node) -> PrivateInRef<'a>
        requires { kind_of node.now ≡ Kind.PrivateIn }
        ensures { node.now ≡ private_in result.node_id.0 (span_of result.span) result.left.now
            result.right.now }
    {
        match node.parts() {
            [operator, left, right] => {
                operator.as_in();
                PrivateInRef {
                    node_id: node.node_id(),
                    span: node.span(),
                    left: left.as_child(),
                    right: right.as_child(),
                }
            },
            _ => unreachable!(),
        }
    }
}

/// Makes a node of this kind, which has no number yet: `#left in right` (ECMA-262, 13.10). Fails on
/// allocation failure alone.
pub fn make_private_in(alloc: Global, left: Node, right: Node) -> Result<Node, AllocError>
    ensures { IfOk result (λ t. t ≡ private_in unnumbered None left right) }
{
    let parts = vec![in alloc; Part::Word(Word::In), Part::Child(left), Part::Child(right)]?;
    Ok(Node::new(
        Kind::PrivateIn,
        Contents {
            node_id: NodeId::DUMMY,
            span: None,
            semantic_id: None,
            parts: List::from_vec(parts),
        },
    ))
}

/// `||`, `&&` or `??` between two operands (ECMA-262, 13.13).
#[derive(Drop)]
pub struct LogicalExpression {
    pub node_id: NodeId,
    pub span: Option<Span>,
    pub operator: LogicalOperator,
    pub left: Node,
    pub right: Node,
    emptied_parts: List<Part>,
    ghost part_count: { length emptied_parts ≡ 3 },
}

impl LogicalExpression {
    /// Takes a node of this kind apart.
    pub fn from_node(node: Node) -> LogicalExpression
        requires { kind_of node ≡ Kind.LogicalExpression }
        ensures { node ≡ logical_expression result.node_id.0 (span_of result.span) result.operator
            result.left result.right }
    {
        let contents = node.into_contents();
        let mut emptied_parts = contents.parts;
        let (operator, left, right) = take_three(&mut emptied_parts);
        LogicalExpression {
            node_id: contents.node_id,
            span: contents.span,
            operator: operator.into_logical_operator(),
            left: left.into_child(),
            right: right.into_child(),
            emptied_parts,
        }
    }

    /// Puts the node together again. Takes no memory.
    pub fn into_node(self) -> Node
        ensures { result ≡ logical_expression self.node_id.0 (span_of self.span) self.operator
            self.left self.right }
    {
        let mut parts = self.emptied_parts;
        put_three(
            &mut parts,
            Part::Word(Word::LogicalOperator(self.operator)),
            Part::Child(self.left),
            Part::Child(self.right),
        );
        Node::new(
            Kind::LogicalExpression,
            Contents {
                node_id: self.node_id,
                span: self.span,
                semantic_id: None,
                parts,
            },
        )
    }
}

/// `LogicalExpression`, borrowed.
#[derive(Clone, Copy)]
pub struct LogicalExpressionRef<'a> {
    pub node_id: NodeId,
    pub span: Option<Span>,
    pub operator: LogicalOperator,
    pub left: &'a Node,
    pub right: &'a Node,
}

impl<'a> LogicalExpressionRef<'a> {
    /// Reads a node of this kind.
    pub fn from_node(node: &'a Node) -> LogicalExpressionRef<'a>
        requires { kind_of node.now ≡ Kind.LogicalExpression }
        ensures { node.now ≡ logical_expression result.node_id.0 (span_of result.span)
            result.operator result.left.now result.right.now }
    {
        match node.parts() {
            [operator, left, right] => LogicalExpressionRef {
                node_id: node.node_id(),
                span: node.span(),
                operator: operator.as_logical_operator(),
                left: left.as_child(),
                right: right.as_child(),
            },
            _ => unreachable!(),
        }
    }
}

/// Makes a node of this kind, which has no number yet: `||`, `&&` or `??` between two operands
/// (ECMA-262, 13.13). Fails on allocation failure alone.
pub fn make_logical_expression(
    alloc: Global,
    operator: LogicalOperator,
    left: Node,
    right: Node,
) -> Result<Node, AllocError>
    ensures { IfOk result (λ t. t ≡ logical_expression unnumbered None operator left right) }
{
    let parts = vec![in alloc;
        Part::Word(Word::LogicalOperator(operator)),
        Part::Child(left),
        Part::Child(right),
    ]?;
    Ok(Node::new(
        Kind::LogicalExpression,
        Contents {
            node_id: NodeId::DUMMY,
            span: None,
            semantic_id: None,
            parts: List::from_vec(parts),
        },
    ))
}

/// `left = right`, or with another operator (ECMA-262, 13.15).
#[derive(Drop)]
pub struct AssignmentExpression {
    pub node_id: NodeId,
    pub span: Option<Span>,
    pub operator: AssignmentOperator,
    pub left: Node,
    pub right: Node,
    emptied_parts: List<Part>,
    ghost part_count: { length emptied_parts ≡ 3 },
}

impl AssignmentExpression {
    /// Takes a node of this kind apart.
    pub fn from_node(node: Node) -> AssignmentExpression
        requires { kind_of node ≡ Kind.AssignmentExpression }
        ensures { node ≡ assignment_expression result.node_id.0 (span_of result.span)
            result.operator result.left result.right }
    {
        let contents = node.into_contents();
        let mut emptied_parts = contents.parts;
        let (operator, left, right) = take_three(&mut emptied_parts);
        AssignmentExpression {
            node_id: contents.node_id,
            span: contents.span,
            operator: operator.into_assignment_operator(),
            left: left.into_child(),
            right: right.into_child(),
            emptied_parts,
        }
    }

    /// Puts the node together again. Takes no memory.
    pub fn into_node(self) -> Node
        ensures { result ≡ assignment_expression self.node_id.0 (span_of self.span) self.operator
            self.left self.right }
    {
        let mut parts = self.emptied_parts;
        put_three(
            &mut parts,
            Part::Word(Word::AssignmentOperator(self.operator)),
            Part::Child(self.left),
            Part::Child(self.right),
        );
        Node::new(
            Kind::AssignmentExpression,
            Contents {
                node_id: self.node_id,
                span: self.span,
                semantic_id: None,
                parts,
            },
        )
    }
}

/// `AssignmentExpression`, borrowed.
#[derive(Clone, Copy)]
pub struct AssignmentExpressionRef<'a> {
    pub node_id: NodeId,
    pub span: Option<Span>,
    pub operator: AssignmentOperator,
    pub left: &'a Node,
    pub right: &'a Node,
}

impl<'a> AssignmentExpressionRef<'a> {
    /// Reads a node of this kind.
    pub fn from_node(node: &'a Node) -> AssignmentExpressionRef<'a>
        requires { kind_of node.now ≡ Kind.AssignmentExpression }
        ensures { node.now ≡ assignment_expression result.node_id.0 (span_of result.span)
            result.operator result.left.now result.right.now }
    {
        match node.parts() {
            [operator, left, right] => AssignmentExpressionRef {
                node_id: node.node_id(),
                span: node.span(),
                operator: operator.as_assignment_operator(),
                left: left.as_child(),
                right: right.as_child(),
            },
            _ => unreachable!(),
        }
    }
}

/// Makes a node of this kind, which has no number yet: `left = right`, or with another operator
/// (ECMA-262, 13.15). Fails on allocation failure alone.
pub fn make_assignment_expression(
    alloc: Global,
    operator: AssignmentOperator,
    left: Node,
    right: Node,
) -> Result<Node, AllocError>
    ensures { IfOk result (λ t. t ≡ assignment_expression unnumbered None operator left right) }
{
    let parts = vec![in alloc;
        Part::Word(Word::AssignmentOperator(operator)),
        Part::Child(left),
        Part::Child(right),
    ]?;
    Ok(Node::new(
        Kind::AssignmentExpression,
        Contents {
            node_id: NodeId::DUMMY,
            span: None,
            semantic_id: None,
            parts: List::from_vec(parts),
        },
    ))
}

/// `test ? consequent : alternate` (ECMA-262, 13.14).
#[derive(Drop)]
pub struct ConditionalExpression {
    pub node_id: NodeId,
    pub span: Option<Span>,
    pub test: Node,
    pub consequent: Node,
    pub alternate: Node,
    emptied_parts: List<Part>,
    ghost part_count: { length emptied_parts ≡ 3 },
}

impl ConditionalExpression {
    /// Takes a node of this kind apart.
    pub fn from_node(node: Node) -> ConditionalExpression
        requires { kind_of node ≡ Kind.ConditionalExpression }
        ensures { node ≡ conditional_expression result.node_id.0 (span_of result.span) result.test
            result.consequent result.alternate }
    {
        let contents = node.into_contents();
        let mut emptied_parts = contents.parts;
        let (test, consequent, alternate) = take_three(&mut emptied_parts);
        ConditionalExpression {
            node_id: contents.node_id,
            span: contents.span,
            test: test.into_child(),
            consequent: consequent.into_child(),
            alternate: alternate.into_child(),
            emptied_parts,
        }
    }

    /// Puts the node together again. Takes no memory.
    pub fn into_node(self) -> Node
        ensures { result ≡ conditional_expression self.node_id.0 (span_of self.span) self.test
            self.consequent self.alternate }
    {
        let mut parts = self.emptied_parts;
        put_three(
            &mut parts,
            Part::Child(self.test),
            Part::Child(self.consequent),
            Part::Child(self.alternate),
        );
        Node::new(
            Kind::ConditionalExpression,
            Contents {
                node_id: self.node_id,
                span: self.span,
                semantic_id: None,
                parts,
            },
        )
    }
}

/// `ConditionalExpression`, borrowed.
#[derive(Clone, Copy)]
pub struct ConditionalExpressionRef<'a> {
    pub node_id: NodeId,
    pub span: Option<Span>,
    pub test: &'a Node,
    pub consequent: &'a Node,
    pub alternate: &'a Node,
}

impl<'a> ConditionalExpressionRef<'a> {
    /// Reads a node of this kind.
    pub fn from_node(node: &'a Node) -> ConditionalExpressionRef<'a>
        requires { kind_of node.now ≡ Kind.ConditionalExpression }
        ensures { node.now ≡ conditional_expression result.node_id.0 (span_of result.span)
            result.test.now result.consequent.now result.alternate.now }
    {
        match node.parts() {
            [test, consequent, alternate] => ConditionalExpressionRef {
                node_id: node.node_id(),
                span: node.span(),
                test: test.as_child(),
                consequent: consequent.as_child(),
                alternate: alternate.as_child(),
            },
            _ => unreachable!(),
        }
    }
}

/// Makes a node of this kind, which has no number yet: `test ? consequent : alternate` (ECMA-262,
/// 13.14). Fails on allocation failure alone.
pub fn make_conditional_expression(
    alloc: Global,
    test: Node,
    consequent: Node,
    alternate: Node,
) -> Result<Node, AllocError>
    ensures { IfOk result (λ t. t ≡ conditional_expression unnumbered None test consequent
        alternate) }
{
    let parts = vec![in alloc;
        Part::Child(test),
        Part::Child(consequent),
        Part::Child(alternate),
    ]?;
    Ok(Node::new(
        Kind::ConditionalExpression,
        Contents {
            node_id: NodeId::DUMMY,
            span: None,
            semantic_id: None,
            parts: List::from_vec(parts),
        },
    ))
}

/// `callee(arguments)` (ECMA-262, 13.3.6, 13.3.7 and 13.3.9).
#[derive(Drop)]
pub struct CallExpression {
    pub node_id: NodeId,
    pub span: Option<Span>,
    pub callee: Node,
    pub arguments: List<Node>,
    pub optional: bool,
    emptied_parts: List<Part>,
    ghost part_count: { length emptied_parts ≡ 3 },
}

impl CallExpression {
    /// Takes a node of this kind apart.
    pub fn from_node(node: Node) -> CallExpression
        requires { kind_of node ≡ Kind.CallExpression }
        ensures { node ≡ call_expression result.node_id.0 (span_of result.span) result.callee
            result.arguments result.optional }
    {
        let contents = node.into_contents();
        let mut emptied_parts = contents.parts;
        let (callee, arguments, optional) = take_three(&mut emptied_parts);
        CallExpression {
            node_id: contents.node_id,
            span: contents.span,
            callee: callee.into_child(),
            arguments: arguments.into_list(),
            optional: optional.into_boolean(),
            emptied_parts,
        }
    }

    /// Puts the node together again. Takes no memory.
    pub fn into_node(self) -> Node
        ensures { result ≡ call_expression self.node_id.0 (span_of self.span) self.callee
            self.arguments self.optional }
    {
        let mut parts = self.emptied_parts;
        put_three(
            &mut parts,
            Part::Child(self.callee),
            Part::List(self.arguments),
            Part::Boolean(self.optional),
        );
        Node::new(
            Kind::CallExpression,
            Contents {
                node_id: self.node_id,
                span: self.span,
                semantic_id: None,
                parts,
            },
        )
    }
}

/// `CallExpression`, borrowed.
#[derive(Clone, Copy)]
pub struct CallExpressionRef<'a> {
    pub node_id: NodeId,
    pub span: Option<Span>,
    pub callee: &'a Node,
    pub arguments: &'a [Node],
    pub optional: bool,
}

impl<'a> CallExpressionRef<'a> {
    /// Reads a node of this kind.
    pub fn from_node(node: &'a Node) -> CallExpressionRef<'a>
        requires { kind_of node.now ≡ Kind.CallExpression }
        ensures { node.now ≡ call_expression result.node_id.0 (span_of result.span)
            result.callee.now result.arguments.now result.optional }
    {
        match node.parts() {
            [callee, arguments, optional] => CallExpressionRef {
                node_id: node.node_id(),
                span: node.span(),
                callee: callee.as_child(),
                arguments: arguments.as_list(),
                optional: optional.as_boolean(),
            },
            _ => unreachable!(),
        }
    }
}

/// Makes a node of this kind, which has no number yet: `callee(arguments)` (ECMA-262, 13.3.6,
/// 13.3.7 and 13.3.9). Fails on allocation failure alone.
pub fn make_call_expression(
    alloc: Global,
    callee: Node,
    arguments: List<Node>,
    optional: bool,
) -> Result<Node, AllocError>
    ensures { IfOk result (λ t. t ≡ call_expression unnumbered None callee arguments optional) }
{
    let parts = vec![in alloc;
        Part::Child(callee),
        Part::List(arguments),
        Part::Boolean(optional),
    ]?;
    Ok(Node::new(
        Kind::CallExpression,
        Contents {
            node_id: NodeId::DUMMY,
            span: None,
            semantic_id: None,
            parts: List::from_vec(parts),
        },
    ))
}

/// `new callee(arguments)` (ECMA-262, 13.3.5).
#[derive(Drop)]
pub struct NewExpression {
    pub node_id: NodeId,
    pub span: Option<Span>,
    pub callee: Node,
    pub arguments: List<Node>,
    emptied_parts: List<Part>,
    ghost part_count: { length emptied_parts ≡ 2 },
}

impl NewExpression {
    /// Takes a node of this kind apart.
    pub fn from_node(node: Node) -> NewExpression
        requires { kind_of node ≡ Kind.NewExpression }
        ensures { node ≡ new_expression result.node_id.0 (span_of result.span) result.callee
            result.arguments }
    {
        let contents = node.into_contents();
        let mut emptied_parts = contents.parts;
        let (callee, arguments) = take_two(&mut emptied_parts);
        NewExpression {
            node_id: contents.node_id,
            span: contents.span,
            callee: callee.into_child(),
            arguments: arguments.into_list(),
            emptied_parts,
        }
    }

    /// Puts the node together again. Takes no memory.
    pub fn into_node(self) -> Node
        ensures { result ≡ new_expression self.node_id.0 (span_of self.span) self.callee
            self.arguments }
    {
        let mut parts = self.emptied_parts;
        put_two(
            &mut parts,
            Part::Child(self.callee),
            Part::List(self.arguments),
        );
        Node::new(
            Kind::NewExpression,
            Contents {
                node_id: self.node_id,
                span: self.span,
                semantic_id: None,
                parts,
            },
        )
    }
}

/// `NewExpression`, borrowed.
#[derive(Clone, Copy)]
pub struct NewExpressionRef<'a> {
    pub node_id: NodeId,
    pub span: Option<Span>,
    pub callee: &'a Node,
    pub arguments: &'a [Node],
}

impl<'a> NewExpressionRef<'a> {
    /// Reads a node of this kind.
    pub fn from_node(node: &'a Node) -> NewExpressionRef<'a>
        requires { kind_of node.now ≡ Kind.NewExpression }
        ensures { node.now ≡ new_expression result.node_id.0 (span_of result.span) result.callee.now
            result.arguments.now }
    {
        match node.parts() {
            [callee, arguments] => NewExpressionRef {
                node_id: node.node_id(),
                span: node.span(),
                callee: callee.as_child(),
                arguments: arguments.as_list(),
            },
            _ => unreachable!(),
        }
    }
}

/// Makes a node of this kind, which has no number yet: `new callee(arguments)` (ECMA-262, 13.3.5).
/// Fails on allocation failure alone.
pub fn make_new_expression(
    alloc: Global,
    callee: Node,
    arguments: List<Node>,
) -> Result<Node, AllocError>
    ensures { IfOk result (λ t. t ≡ new_expression unnumbered None callee arguments) }
{
    let parts = vec![in alloc; Part::Child(callee), Part::List(arguments)]?;
    Ok(Node::new(
        Kind::NewExpression,
        Contents {
            node_id: NodeId::DUMMY,
            span: None,
            semantic_id: None,
            parts: List::from_vec(parts),
        },
    ))
}

/// Expressions with commas between them; there is at least one (ECMA-262, 13.16).
#[derive(Drop)]
pub struct SequenceExpression {
    pub node_id: NodeId,
    pub span: Option<Span>,
    pub expressions: List<Node>,
    emptied_parts: List<Part>,
    ghost part_count: { length emptied_parts ≡ 1 },
}

impl SequenceExpression {
    /// Takes a node of this kind apart.
    pub fn from_node(node: Node) -> SequenceExpression
        requires { kind_of node ≡ Kind.SequenceExpression }
        ensures { node ≡ sequence_expression result.node_id.0 (span_of result.span)
            result.expressions }
    {
        let contents = node.into_contents();
        let mut emptied_parts = contents.parts;
        let expressions = take_one(&mut emptied_parts);
        SequenceExpression {
            node_id: contents.node_id,
            span: contents.span,
            expressions: expressions.into_list(),
            emptied_parts,
        }
    }

    /// Puts the node together again. Takes no memory.
    pub fn into_node(self) -> Node
        ensures { result ≡ sequence_expression self.node_id.0 (span_of self.span) self.expressions }
    {
        let mut parts = self.emptied_parts;
        put_one(&mut parts, Part::List(self.expressions));
        Node::new(
            Kind::SequenceExpression,
            Contents {
                node_id: self.node_id,
                span: self.span,
                semantic_id: None,
                parts,
            },
        )
    }
}

/// `SequenceExpression`, borrowed.
#[derive(Clone, Copy)]
pub struct SequenceExpressionRef<'a> {
    pub node_id: NodeId,
    pub span: Option<Span>,
    pub expressions: &'a [Node],
}

impl<'a> SequenceExpressionRef<'a> {
    /// Reads a node of this kind.
    pub fn from_node(node: &'a Node) -> SequenceExpressionRef<'a>
        requires { kind_of node.now ≡ Kind.SequenceExpression }
        ensures { node.now ≡ sequence_expression result.node_id.0 (span_of result.span)
            result.expressions.now }
    {
        match node.parts() {
            [expressions] => SequenceExpressionRef {
                node_id: node.node_id(),
                span: node.span(),
                expressions: expressions.as_list(),
            },
            _ => unreachable!(),
        }
    }
}

/// Makes a node of this kind, which has no number yet: expressions with commas between them; there
/// is at least one (ECMA-262, 13.16). Fails on allocation failure alone.
pub fn make_sequence_expression(alloc: Global, expressions: List<Node>) -> Result<Node, AllocError>
    ensures { IfOk result (λ t. t ≡ sequence_expression unnumbered None expressions) }
{
    let parts = vec![in alloc; Part::List(expressions)]?;
    Ok(Node::new(
        Kind::SequenceExpression,
        Contents {
            node_id: NodeId::DUMMY,
            span: None,
            semantic_id: None,
            parts: List::from_vec(parts),
        },
    ))
}

/// `yield argument` or `yield* argument` (ECMA-262, 15.5).
#[derive(Drop)]
pub struct YieldExpression {
    pub node_id: NodeId,
    pub span: Option<Span>,
    pub argument: Option<Node>,
    pub delegate: bool,
    emptied_parts: List<Part>,
    ghost part_count: { length emptied_parts ≡ 2 },
}

impl YieldExpression {
    /// Takes a node of this kind apart.
    pub fn from_node(node: Node) -> YieldExpression
        requires { kind_of node ≡ Kind.YieldExpression }
        ensures { node ≡ yield_expression result.node_id.0 (span_of result.span) result.argument
            result.delegate }
    {
        let contents = node.into_contents();
        let mut emptied_parts = contents.parts;
        let (argument, delegate) = take_two(&mut emptied_parts);
        YieldExpression {
            node_id: contents.node_id,
            span: contents.span,
            argument: argument.into_nullable(),
            delegate: delegate.into_boolean(),
            emptied_parts,
        }
    }

    /// Puts the node together again. Takes no memory.
    pub fn into_node(self) -> Node
        ensures { result ≡ yield_expression self.node_id.0 (span_of self.span) self.argument
            self.delegate }
    {
        let mut parts = self.emptied_parts;
        put_two(
            &mut parts,
            nullable_part(self.argument),
            Part::Boolean(self.delegate),
        );
        Node::new(
            Kind::YieldExpression,
            Contents {
                node_id: self.node_id,
                span: self.span,
                semantic_id: None,
                parts,
            },
        )
    }
}

/// `YieldExpression`, borrowed.
#[derive(Clone, Copy)]
pub struct YieldExpressionRef<'a> {
    pub node_id: NodeId,
    pub span: Option<Span>,
    pub argument: Option<&'a Node>,
    pub delegate: bool,
}

impl<'a> YieldExpressionRef<'a> {
    /// Reads a node of this kind.
    pub fn from_node(node: &'a Node) -> YieldExpressionRef<'a>
        requires { kind_of node.now ≡ Kind.YieldExpression }
        ensures { node.now ≡ yield_expression result.node_id.0 (span_of result.span)
            (option_map (λ x. x.now) result.argument) result.delegate }
    {
        match node.parts() {
            [argument, delegate] => YieldExpressionRef {
                node_id: node.node_id(),
                span: node.span(),
                argument: argument.as_nullable(),
                delegate: delegate.as_boolean(),
            },
            _ => unreachable!(),
        }
    }
}

/// Makes a node of this kind, which has no number yet: `yield argument` or `yield* argument`
/// (ECMA-262, 15.5). Fails on allocation failure alone.
pub fn make_yield_expression(
    alloc: Global,
    argument: Option<Node>,
    delegate: bool,
) -> Result<Node, AllocError>
    ensures { IfOk result (λ t. t ≡ yield_expression unnumbered None argument delegate) }
{
    let parts = vec![in alloc; nullable_part(argument), Part::Boolean(delegate)]?;
    Ok(Node::new(
        Kind::YieldExpression,
        Contents {
            node_id: NodeId::DUMMY,
            span: None,
            semantic_id: None,
            parts: List::from_vec(parts),
        },
    ))
}

/// `await argument` (ECMA-262, 15.8).
#[derive(Drop)]
pub struct AwaitExpression {
    pub node_id: NodeId,
    pub span: Option<Span>,
    pub argument: Node,
    emptied_parts: List<Part>,
    ghost part_count: { length emptied_parts ≡ 1 },
}

impl AwaitExpression {
    /// Takes a node of this kind apart.
    pub fn from_node(node: Node) -> AwaitExpression
        requires { kind_of node ≡ Kind.AwaitExpression }
        ensures { node ≡ await_expression result.node_id.0 (span_of result.span) result.argument }
    {
        let contents = node.into_contents();
        let mut emptied_parts = contents.parts;
        let argument = take_one(&mut emptied_parts);
        AwaitExpression {
            node_id: contents.node_id,
            span: contents.span,
            argument: argument.into_child(),
            emptied_parts,
        }
    }

    /// Puts the node together again. Takes no memory.
    pub fn into_node(self) -> Node
        ensures { result ≡ await_expression self.node_id.0 (span_of self.span) self.argument }
    {
        let mut parts = self.emptied_parts;
        put_one(&mut parts, Part::Child(self.argument));
        Node::new(
            Kind::AwaitExpression,
            Contents {
                node_id: self.node_id,
                span: self.span,
                semantic_id: None,
                parts,
            },
        )
    }
}

/// `AwaitExpression`, borrowed.
#[derive(Clone, Copy)]
pub struct AwaitExpressionRef<'a> {
    pub node_id: NodeId,
    pub span: Option<Span>,
    pub argument: &'a Node,
}

impl<'a> AwaitExpressionRef<'a> {
    /// Reads a node of this kind.
    pub fn from_node(node: &'a Node) -> AwaitExpressionRef<'a>
        requires { kind_of node.now ≡ Kind.AwaitExpression }
        ensures { node.now ≡ await_expression result.node_id.0 (span_of result.span)
            result.argument.now }
    {
        match node.parts() {
            [argument] => AwaitExpressionRef {
                node_id: node.node_id(),
                span: node.span(),
                argument: argument.as_child(),
            },
            _ => unreachable!(),
        }
    }
}

/// Makes a node of this kind, which has no number yet: `await argument` (ECMA-262, 15.8). Fails on
/// allocation failure alone.
pub fn make_await_expression(alloc: Global, argument: Node) -> Result<Node, AllocError>
    ensures { IfOk result (λ t. t ≡ await_expression unnumbered None argument) }
{
    let parts = vec![in alloc; Part::Child(argument)]?;
    Ok(Node::new(
        Kind::AwaitExpression,
        Contents {
            node_id: NodeId::DUMMY,
            span: None,
            semantic_id: None,
            parts: List::from_vec(parts),
        },
    ))
}

/// `import(source)` (ECMA-262, 13.3.10).
#[derive(Drop)]
pub struct ImportExpression {
    pub node_id: NodeId,
    pub span: Option<Span>,
    pub source: Node,
    emptied_parts: List<Part>,
    ghost part_count: { length emptied_parts ≡ 1 },
}

impl ImportExpression {
    /// Takes a node of this kind apart.
    pub fn from_node(node: Node) -> ImportExpression
        requires { kind_of node ≡ Kind.ImportExpression }
        ensures { node ≡ import_expression result.node_id.0 (span_of result.span) result.source }
    {
        let contents = node.into_contents();
        let mut emptied_parts = contents.parts;
        let source = take_one(&mut emptied_parts);
        ImportExpression {
            node_id: contents.node_id,
            span: contents.span,
            source: source.into_child(),
            emptied_parts,
        }
    }

    /// Puts the node together again. Takes no memory.
    pub fn into_node(self) -> Node
        ensures { result ≡ import_expression self.node_id.0 (span_of self.span) self.source }
    {
        let mut parts = self.emptied_parts;
        put_one(&mut parts, Part::Child(self.source));
        Node::new(
            Kind::ImportExpression,
            Contents {
                node_id: self.node_id,
                span: self.span,
                semantic_id: None,
                parts,
            },
        )
    }
}

/// `ImportExpression`, borrowed.
#[derive(Clone, Copy)]
pub struct ImportExpressionRef<'a> {
    pub node_id: NodeId,
    pub span: Option<Span>,
    pub source: &'a Node,
}

impl<'a> ImportExpressionRef<'a> {
    /// Reads a node of this kind.
    pub fn from_node(node: &'a Node) -> ImportExpressionRef<'a>
        requires { kind_of node.now ≡ Kind.ImportExpression }
        ensures { node.now ≡ import_expression result.node_id.0 (span_of result.span)
            result.source.now }
    {
        match node.parts() {
            [source] => ImportExpressionRef {
                node_id: node.node_id(),
                span: node.span(),
                source: source.as_child(),
            },
            _ => unreachable!(),
        }
    }
}

/// Makes a node of this kind, which has no number yet: `import(source)` (ECMA-262, 13.3.10). Fails
/// on allocation failure alone.
pub fn make_import_expression(alloc: Global, source: Node) -> Result<Node, AllocError>
    ensures { IfOk result (λ t. t ≡ import_expression unnumbered None source) }
{
    let parts = vec![in alloc; Part::Child(source)]?;
    Ok(Node::new(
        Kind::ImportExpression,
        Contents {
            node_id: NodeId::DUMMY,
            span: None,
            semantic_id: None,
            parts: List::from_vec(parts),
        },
    ))
}

/// `new.target` or `import.meta` (ECMA-262, 13.3.12).
#[derive(Drop)]
pub struct MetaProperty {
    pub node_id: NodeId,
    pub span: Option<Span>,
    pub meta: Node,
    pub property: Node,
    emptied_parts: List<Part>,
    ghost part_count: { length emptied_parts ≡ 2 },
}

impl MetaProperty {
    /// Takes a node of this kind apart.
    pub fn from_node(node: Node) -> MetaProperty
        requires { kind_of node ≡ Kind.MetaProperty }
        ensures { node ≡ meta_property result.node_id.0 (span_of result.span) result.meta
            result.property }
    {
        let contents = node.into_contents();
        let mut emptied_parts = contents.parts;
        let (meta, property) = take_two(&mut emptied_parts);
        MetaProperty {
            node_id: contents.node_id,
            span: contents.span,
            meta: meta.into_child(),
            property: property.into_child(),
            emptied_parts,
        }
    }

    /// Puts the node together again. Takes no memory.
    pub fn into_node(self) -> Node
        ensures { result ≡ meta_property self.node_id.0 (span_of self.span) self.meta
            self.property }
    {
        let mut parts = self.emptied_parts;
        put_two(
            &mut parts,
            Part::Child(self.meta),
            Part::Child(self.property),
        );
        Node::new(
            Kind::MetaProperty,
            Contents {
                node_id: self.node_id,
                span: self.span,
                semantic_id: None,
                parts,
            },
        )
    }
}

/// `MetaProperty`, borrowed.
#[derive(Clone, Copy)]
pub struct MetaPropertyRef<'a> {
    pub node_id: NodeId,
    pub span: Option<Span>,
    pub meta: &'a Node,
    pub property: &'a Node,
}

impl<'a> MetaPropertyRef<'a> {
    /// Reads a node of this kind.
    pub fn from_node(node: &'a Node) -> MetaPropertyRef<'a>
        requires { kind_of node.now ≡ Kind.MetaProperty }
        ensures { node.now ≡ meta_property result.node_id.0 (span_of result.span) result.meta.now
            result.property.now }
    {
        match node.parts() {
            [meta, property] => MetaPropertyRef {
                node_id: node.node_id(),
                span: node.span(),
                meta: meta.as_child(),
                property: property.as_child(),
            },
            _ => unreachable!(),
        }
    }
}

/// Makes a node of this kind, which has no number yet: `new.target` or `import.meta` (ECMA-262,
/// 13.3.12). Fails on allocation failure alone.
pub fn make_meta_property(alloc: Global, meta: Node, property: Node) -> Result<Node, AllocError>
    ensures { IfOk result (λ t. t ≡ meta_property unnumbered None meta property) }
{
    let parts = vec![in alloc; Part::Child(meta), Part::Child(property)]?;
    Ok(Node::new(
        Kind::MetaProperty,
        Contents {
            node_id: NodeId::DUMMY,
            span: None,
            semantic_id: None,
            parts: List::from_vec(parts),
        },
    ))
}

/// A chain of members and calls with `?.` in it, whole (ECMA-262, 13.3.9).
#[derive(Drop)]
pub struct ChainExpression {
    pub node_id: NodeId,
    pub span: Option<Span>,
    pub expression: Node,
    emptied_parts: List<Part>,
    ghost part_count: { length emptied_parts ≡ 1 },
}

impl ChainExpression {
    /// Takes a node of this kind apart.
    pub fn from_node(node: Node) -> ChainExpression
        requires { kind_of node ≡ Kind.ChainExpression }
        ensures { node ≡ chain_expression result.node_id.0 (span_of result.span) result.expression }
    {
        let contents = node.into_contents();
        let mut emptied_parts = contents.parts;
        let expression = take_one(&mut emptied_parts);
        ChainExpression {
            node_id: contents.node_id,
            span: contents.span,
            expression: expression.into_child(),
            emptied_parts,
        }
    }

    /// Puts the node together again. Takes no memory.
    pub fn into_node(self) -> Node
        ensures { result ≡ chain_expression self.node_id.0 (span_of self.span) self.expression }
    {
        let mut parts = self.emptied_parts;
        put_one(&mut parts, Part::Child(self.expression));
        Node::new(
            Kind::ChainExpression,
            Contents {
                node_id: self.node_id,
                span: self.span,
                semantic_id: None,
                parts,
            },
        )
    }
}

/// `ChainExpression`, borrowed.
#[derive(Clone, Copy)]
pub struct ChainExpressionRef<'a> {
    pub node_id: NodeId,
    pub span: Option<Span>,
    pub expression: &'a Node,
}

impl<'a> ChainExpressionRef<'a> {
    /// Reads a node of this kind.
    pub fn from_node(node: &'a Node) -> ChainExpressionRef<'a>
        requires { kind_of node.now ≡ Kind.ChainExpression }
        ensures { node.now ≡ chain_expression result.node_id.0 (span_of result.span)
            result.expression.now }
    {
        match node.parts() {
            [expression] => ChainExpressionRef {
                node_id: node.node_id(),
                span: node.span(),
                expression: expression.as_child(),
            },
            _ => unreachable!(),
        }
    }
}

/// Makes a node of this kind, which has no number yet: a chain of members and calls with `?.` in
/// it, whole (ECMA-262, 13.3.9). Fails on allocation failure alone.
pub fn make_chain_expression(alloc: Global, expression: Node) -> Result<Node, AllocError>
    ensures { IfOk result (λ t. t ≡ chain_expression unnumbered None expression) }
{
    let parts = vec![in alloc; Part::Child(expression)]?;
    Ok(Node::new(
        Kind::ChainExpression,
        Contents {
            node_id: NodeId::DUMMY,
            span: None,
            semantic_id: None,
            parts: List::from_vec(parts),
        },
    ))
}
