// Printed by tools/tree.py from tools/kinds.py.
// Patterns that declare, and patterns that are assigned to. Each kind has a struct of its members,
// which keeps the emptied list of its node's parts, the same borrowed, and a maker.

ghost use Rattle.std.specs.Prelude.{◌≡◌, IfOk, None, length};
ghost use Rattle.es_base.specs.Carried.{span_of};
ghost use Rattle.es_base.specs.Numbered.{unnumbered};
ghost use Rattle.es_base.specs.declared.kind.Kind.{Kind};
ghost use Rattle.es_node.specs.View.{kind_of};
ghost use Rattle.es_declaration.specs.Pattern.{object_pattern, binding_property, array_pattern, assignment_pattern, rest_element, object_assignment_target, assignment_target_property, array_assignment_target, assignment_target_with_default, assignment_target_rest};

use es_base::ids::{NodeId, Span};
use es_base::kind::Kind;
use es_base::list::List;
use es_base::operator::Word;
use es_node::node::{Contents, Node, Part};
use es_node::room::{put_one, put_six, put_two, take_one, take_six, take_two};
use std::alloc::{AllocError, Global};

/// `{ properties }` that declares (ECMA-262, 14.3.3).
#[derive(Drop)]
pub struct ObjectPattern {
    pub node_id: NodeId,
    pub span: Option<Span>,
    pub properties: List<Node>,
    emptied_parts: List<Part>,
    ghost part_count: { length emptied_parts ≡ 1 },
}

impl ObjectPattern {
    /// Takes a node of this kind apart.
    pub fn from_node(node: Node) -> ObjectPattern
        requires { kind_of node ≡ Kind.ObjectPattern }
        ensures { node ≡ object_pattern result.node_id.0 (span_of result.span) result.properties }
    {
        let contents = node.into_contents();
        let mut emptied_parts = contents.parts;
        let properties = take_one(&mut emptied_parts);
        ObjectPattern {
            node_id: contents.node_id,
            span: contents.span,
            properties: properties.into_list(),
            emptied_parts,
        }
    }

    /// Puts the node together again. Takes no memory.
    pub fn into_node(self) -> Node
        ensures { result ≡ object_pattern self.node_id.0 (span_of self.span) self.properties }
    {
        let mut parts = self.emptied_parts;
        put_one(&mut parts, Part::List(self.properties));
        Node::new(
            Kind::ObjectPattern,
            Contents {
                node_id: self.node_id,
                span: self.span,
                semantic_id: None,
                parts,
            },
        )
    }
}

/// `ObjectPattern`, borrowed.
#[derive(Clone, Copy)]
pub struct ObjectPatternRef<'a> {
    pub node_id: NodeId,
    pub span: Option<Span>,
    pub properties: &'a [Node],
}

impl<'a> ObjectPatternRef<'a> {
    /// Reads a node of this kind.
    pub fn from_node(node: &'a Node) -> ObjectPatternRef<'a>
        requires { kind_of node.now ≡ Kind.ObjectPattern }
        ensures { node.now ≡ object_pattern result.node_id.0 (span_of result.span)
            result.properties.now }
    {
        match node.parts() {
            [properties] => ObjectPatternRef {
                node_id: node.node_id(),
                span: node.span(),
                properties: properties.as_list(),
            },
            _ => unreachable!(),
        }
    }
}

/// Makes a node of this kind, which has no number yet: `{ properties }` that declares (ECMA-262,
/// 14.3.3). Fails on allocation failure alone.
pub fn make_object_pattern(alloc: Global, properties: List<Node>) -> Result<Node, AllocError>
    ensures { IfOk result (λ t. t ≡ object_pattern unnumbered None properties) }
{
    let parts = vec![in alloc; Part::List(properties)]?;
    Ok(Node::new(
        Kind::ObjectPattern,
        Contents {
            node_id: NodeId::DUMMY,
            span: None,
            semantic_id: None,
            parts: List::from_vec(parts),
        },
    ))
}

/// `key: value` in an object pattern that declares (ECMA-262, 14.3.3).
#[derive(Drop)]
pub struct BindingProperty {
    pub node_id: NodeId,
    pub span: Option<Span>,
    pub key: Node,
    pub value: Node,
    pub shorthand: bool,
    pub computed: bool,
    emptied_parts: List<Part>,
    ghost part_count: { length emptied_parts ≡ 6 },
}

impl BindingProperty {
    /// Takes a node of this kind apart.
    pub fn from_node(node: Node) -> BindingProperty
        requires { kind_of node ≡ Kind.BindingProperty }
        ensures { node ≡ binding_property result.node_id.0 (span_of result.span) result.key
            result.value result.shorthand result.computed }
    {
        let contents = node.into_contents();
        let mut emptied_parts = contents.parts;
        let (key, value, kind, method, shorthand, computed) = take_six(&mut emptied_parts);
        kind.into_init();
        method.into_false();
        BindingProperty {
            node_id: contents.node_id,
            span: contents.span,
            key: key.into_child(),
            value: value.into_child(),
            shorthand: shorthand.into_boolean(),
            computed: computed.into_boolean(),
            emptied_parts,
        }
    }

    /// Puts the node together again. Takes no memory.
    pub fn into_node(self) -> Node
        ensures { result ≡ binding_property self.node_id.0 (span_of self.span) self.key self.value
            self.shorthand self.computed }
    {
        let mut parts = self.emptied_parts;
        put_six(
            &mut parts,
            Part::Child(self.key),
            Part::Child(self.value),
            Part::Word(Word::Init),
            Part::Boolean(false),
            Part::Boolean(self.shorthand),
            Part::Boolean(self.computed),
        );
        Node::new(
            Kind::BindingProperty,
            Contents {
                node_id: self.node_id,
                span: self.span,
                semantic_id: None,
                parts,
            },
        )
    }
}

/// `BindingProperty`, borrowed.
#[derive(Clone, Copy)]
pub struct BindingPropertyRef<'a> {
    pub node_id: NodeId,
    pub span: Option<Span>,
    pub key: &'a Node,
    pub value: &'a Node,
    pub shorthand: bool,
    pub computed: bool,
}

impl<'a> BindingPropertyRef<'a> {
    /// Reads a node of this kind.
    pub fn from_node(node: &'a Node) -> BindingPropertyRef<'a>
        requires { kind_of node.now ≡ Kind.BindingProperty }
        ensures { node.now ≡ binding_property result.node_id.0 (span_of result.span) result.key.now
            result.value.now result.shorthand result.computed }
    {
        match node.parts() {
            [key, value, kind, method, shorthand, computed] => {
                kind.as_init();
                method.as_false();
                BindingPropertyRef {
                    node_id: node.node_id(),
                    span: node.span(),
                    key: key.as_child(),
                    value: value.as_child(),
                    shorthand: shorthand.as_boolean(),
                    computed: computed.as_boolean(),
                }
            },
            _ => unreachable!(),
        }
    }
}

/// Makes a node of this kind, which has no number yet: `key: value` in an object pattern that
/// declares (ECMA-262, 14.3.3). Fails on allocation failure alone.
pub fn make_binding_property(
    alloc: Global,
    key: Node,
    value: Node,
    shorthand: bool,
    computed: bool,
) -> Result<Node, AllocError>
    ensures { IfOk result (λ t. t ≡ binding_property unnumbered None key value shorthand computed) }
{
    let parts = vec![in alloc;
        Part::Child(key),
        Part::Child(value),
        Part::Word(Word::Init),
        Part::Boolean(false),
        Part::Boolean(shorthand),
        Part::Boolean(computed),
    ]?;
    Ok(Node::new(
        Kind::BindingProperty,
        Contents {
            node_id: NodeId::DUMMY,
            span: None,
            semantic_id: None,
            parts: List::from_vec(parts),
        },
    ))
}

/// `[elements]` that declares (ECMA-262, 14.3.3).
#[derive(Drop)]
pub struct ArrayPattern {
    pub node_id: NodeId,
    pub span: Option<Span>,
    pub elements: List<Option<Node>>,
    emptied_parts: List<Part>,
    ghost part_count: { length emptied_parts ≡ 1 },
}

impl ArrayPattern {
    /// Takes a node of this kind apart.
    pub fn from_node(node: Node) -> ArrayPattern
        requires { kind_of node ≡ Kind.ArrayPattern }
        ensures { node ≡ array_pattern result.node_id.0 (span_of result.span) result.elements }
    {
        let contents = node.into_contents();
        let mut emptied_parts = contents.parts;
        let elements = take_one(&mut emptied_parts);
        ArrayPattern {
            node_id: contents.node_id,
            span: contents.span,
            elements: elements.into_list_with_holes(),
            emptied_parts,
        }
    }

    /// Puts the node together again. Takes no memory.
    pub fn into_node(self) -> Node
        ensures { result ≡ array_pattern self.node_id.0 (span_of self.span) self.elements }
    {
        let mut parts = self.emptied_parts;
        put_one(&mut parts, Part::Holes(self.elements));
        Node::new(
            Kind::ArrayPattern,
            Contents {
                node_id: self.node_id,
                span: self.span,
                semantic_id: None,
                parts,
            },
        )
    }
}

/// `ArrayPattern`, borrowed.
#[derive(Clone, Copy)]
pub struct ArrayPatternRef<'a> {
    pub node_id: NodeId,
    pub span: Option<Span>,
    pub elements: &'a [Option<Node>],
}

impl<'a> ArrayPatternRef<'a> {
    /// Reads a node of this kind.
    pub fn from_node(node: &'a Node) -> ArrayPatternRef<'a>
        requires { kind_of node.now ≡ Kind.ArrayPattern }
        ensures { node.now ≡ array_pattern result.node_id.0 (span_of result.span)
            result.elements.now }
    {
        match node.parts() {
            [elements] => ArrayPatternRef {
                node_id: node.node_id(),
                span: node.span(),
                elements: elements.as_list_with_holes(),
            },
            _ => unreachable!(),
        }
    }
}

/// Makes a node of this kind, which has no number yet: `[elements]` that declares (ECMA-262,
/// 14.3.3). Fails on allocation failure alone.
pub fn make_array_pattern(alloc: Global, elements: List<Option<Node>>) -> Result<Node, AllocError>
    ensures { IfOk result (λ t. t ≡ array_pattern unnumbered None elements) }
{
    let parts = vec![in alloc; Part::Holes(elements)]?;
    Ok(Node::new(
        Kind::ArrayPattern,
        Contents {
            node_id: NodeId::DUMMY,
            span: None,
            semantic_id: None,
            parts: List::from_vec(parts),
        },
    ))
}

/// `left = right` in a pattern that declares: a default value (ECMA-262, 14.3.3).
#[derive(Drop)]
pub struct AssignmentPattern {
    pub node_id: NodeId,
    pub span: Option<Span>,
    pub left: Node,
    pub right: Node,
    emptied_parts: List<Part>,
    ghost part_count: { length emptied_parts ≡ 2 },
}

impl AssignmentPattern {
    /// Takes a node of this kind apart.
    pub fn from_node(node: Node) -> AssignmentPattern
        requires { kind_of node ≡ Kind.AssignmentPattern }
        ensures { node ≡ assignment_pattern result.node_id.0 (span_of result.span) result.left
            result.right }
    {
        let contents = node.into_contents();
        let mut emptied_parts = contents.parts;
        let (left, right) = take_two(&mut emptied_parts);
        AssignmentPattern {
            node_id: contents.node_id,
            span: contents.span,
            left: left.into_child(),
            right: right.into_child(),
            emptied_parts,
        }
    }

    /// Puts the node together again. Takes no memory.
    pub fn into_node(self) -> Node
        ensures { result ≡ assignment_pattern self.node_id.0 (span_of self.span) self.left
            self.right }
    {
        let mut parts = self.emptied_parts;
        put_two(&mut parts, Part::Child(self.left), Part::Child(self.right));
        Node::new(
            Kind::AssignmentPattern,
            Contents {
                node_id: self.node_id,
                span: self.span,
                semantic_id: None,
                parts,
            },
        )
    }
}

/// `AssignmentPattern`, borrowed.
#[derive(Clone, Copy)]
pub struct AssignmentPatternRef<'a> {
    pub node_id: NodeId,
    pub span: Option<Span>,
    pub left: &'a Node,
    pub right: &'a Node,
}

impl<'a> AssignmentPatternRef<'a> {
    /// Reads a node of this kind.
    pub fn from_node(node: &'a Node) -> AssignmentPatternRef<'a>
        requires { kind_of node.now ≡ Kind.AssignmentPattern }
        ensures { node.now ≡ assignment_pattern result.node_id.0 (span_of result.span)
            result.left.now result.right.now }
    {
        match node.parts() {
            [left, right] => AssignmentPatternRef {
                node_id: node.node_id(),
                span: node.span(),
                left: left.as_child(),
                right: right.as_child(),
            },
            _ => unreachable!(),
        }
    }
}

/// Makes a node of this kind, which has no number yet: `left = right` in a pattern that declares: a
/// default value (ECMA-262, 14.3.3). Fails on allocation failure alone.
pub fn make_assignment_pattern(alloc: Global, left: Node, right: Node) -> Result<Node, AllocError>
    ensures { IfOk result (λ t. t ≡ assignment_pattern unnumbered None left right) }
{
    let parts = vec![in alloc; Part::Child(left), Part::Child(right)]?;
    Ok(Node::new(
        Kind::AssignmentPattern,
        Contents {
            node_id: NodeId::DUMMY,
            span: None,
            semantic_id: None,
            parts: List::from_vec(parts),
        },
    ))
}

/// `...argument` in a pattern that declares, or the last parameter (ECMA-262, 14.3.3 and 15.1).
#[derive(Drop)]
pub struct RestElement {
    pub node_id: NodeId,
    pub span: Option<Span>,
    pub argument: Node,
    emptied_parts: List<Part>,
    ghost part_count: { length emptied_parts ≡ 1 },
}

impl RestElement {
    /// Takes a node of this kind apart.
    pub fn from_node(node: Node) -> RestElement
        requires { kind_of node ≡ Kind.RestElement }
        ensures { node ≡ rest_element result.node_id.0 (span_of result.span) result.argument }
    {
        let contents = node.into_contents();
        let mut emptied_parts = contents.parts;
        let argument = take_one(&mut emptied_parts);
        RestElement {
            node_id: contents.node_id,
            span: contents.span,
            argument: argument.into_child(),
            emptied_parts,
        }
    }

    /// Puts the node together again. Takes no memory.
    pub fn into_node(self) -> Node
        ensures { result ≡ rest_element self.node_id.0 (span_of self.span) self.argument }
    {
        let mut parts = self.emptied_parts;
        put_one(&mut parts, Part::Child(self.argument));
        Node::new(
            Kind::RestElement,
            Contents {
                node_id: self.node_id,
                span: self.span,
                semantic_id: None,
                parts,
            },
        )
    }
}

/// `RestElement`, borrowed.
#[derive(Clone, Copy)]
pub struct RestElementRef<'a> {
    pub node_id: NodeId,
    pub span: Option<Span>,
    pub argument: &'a Node,
}

impl<'a> RestElementRef<'a> {
    /// Reads a node of this kind.
    pub fn from_node(node: &'a Node) -> RestElementRef<'a>
        requires { kind_of node.now ≡ Kind.RestElement }
        ensures { node.now ≡ rest_element result.node_id.0 (span_of result.span)
            result.argument.now }
    {
        match node.parts() {
            [argument] => RestElementRef {
                node_id: node.node_id(),
                span: node.span(),
                argument: argument.as_child(),
            },
            _ => unreachable!(),
        }
    }
}

/// Makes a node of this kind, which has no number yet: `...argument` in a pattern that declares, or
/// the last parameter (ECMA-262, 14.3.3 and 15.1). Fails on allocation failure alone.
pub fn make_rest_element(alloc: Global, argument: Node) -> Result<Node, AllocError>
    ensures { IfOk result (λ t. t ≡ rest_element unnumbered None argument) }
{
    let parts = vec![in alloc; Part::Child(argument)]?;
    Ok(Node::new(
        Kind::RestElement,
        Contents {
            node_id: NodeId::DUMMY,
            span: None,
            semantic_id: None,
            parts: List::from_vec(parts),
        },
    ))
}

/// `{ properties }` that is assigned to (ECMA-262, 13.15.5).
#[derive(Drop)]
pub struct ObjectAssignmentTarget {
    pub node_id: NodeId,
    pub span: Option<Span>,
    pub properties: List<Node>,
    emptied_parts: List<Part>,
    ghost part_count: { length emptied_parts ≡ 1 },
}

impl ObjectAssignmentTarget {
    /// Takes a node of this kind apart.
    pub fn from_node(node: Node) -> ObjectAssignmentTarget
        requires { kind_of node ≡ Kind.ObjectAssignmentTarget }
        ensures { node ≡ object_assignment_target result.node_id.0 (span_of result.span)
            result.properties }
    {
        let contents = node.into_contents();
        let mut emptied_parts = contents.parts;
        let properties = take_one(&mut emptied_parts);
        ObjectAssignmentTarget {
            node_id: contents.node_id,
            span: contents.span,
            properties: properties.into_list(),
            emptied_parts,
        }
    }

    /// Puts the node together again. Takes no memory.
    pub fn into_node(self) -> Node
        ensures { result ≡ object_assignment_target self.node_id.0 (span_of self.span)
            self.properties }
    {
        let mut parts = self.emptied_parts;
        put_one(&mut parts, Part::List(self.properties));
        Node::new(
            Kind::ObjectAssignmentTarget,
            Contents {
                node_id: self.node_id,
                span: self.span,
                semantic_id: None,
                parts,
            },
        )
    }
}

/// `ObjectAssignmentTarget`, borrowed.
#[derive(Clone, Copy)]
pub struct ObjectAssignmentTargetRef<'a> {
    pub node_id: NodeId,
    pub span: Option<Span>,
    pub properties: &'a [Node],
}

impl<'a> ObjectAssignmentTargetRef<'a> {
    /// Reads a node of this kind.
    pub fn from_node(node: &'a Node) -> ObjectAssignmentTargetRef<'a>
        requires { kind_of node.now ≡ Kind.ObjectAssignmentTarget }
        ensures { node.now ≡ object_assignment_target result.node_id.0 (span_of result.span)
            result.properties.now }
    {
        match node.parts() {
            [properties] => ObjectAssignmentTargetRef {
                node_id: node.node_id(),
                span: node.span(),
                properties: properties.as_list(),
            },
            _ => unreachable!(),
        }
    }
}

/// Makes a node of this kind, which has no number yet: `{ properties }` that is assigned to
/// (ECMA-262, 13.15.5). Fails on allocation failure alone.
pub fn make_object_assignment_target(
    alloc: Global,
    properties: List<Node>,
) -> Result<Node, AllocError>
    ensures { IfOk result (λ t. t ≡ object_assignment_target unnumbered None properties) }
{
    let parts = vec![in alloc; Part::List(properties)]?;
    Ok(Node::new(
        Kind::ObjectAssignmentTarget,
        Contents {
            node_id: NodeId::DUMMY,
            span: None,
            semantic_id: None,
            parts: List::from_vec(parts),
        },
    ))
}

/// `key: value` in an object pattern that is assigned to (ECMA-262, 13.15.5).
#[derive(Drop)]
pub struct AssignmentTargetProperty {
    pub node_id: NodeId,
    pub span: Option<Span>,
    pub key: Node,
    pub value: Node,
    pub shorthand: bool,
    pub computed: bool,
    emptied_parts: List<Part>,
    ghost part_count: { length emptied_parts ≡ 6 },
}

impl AssignmentTargetProperty {
    /// Takes a node of this kind apart.
    pub fn from_node(node: Node) -> AssignmentTargetProperty
        requires { kind_of node ≡ Kind.AssignmentTargetProperty }
        ensures { node ≡ assignment_target_property result.node_id.0 (span_of result.span)
            result.key result.value result.shorthand result.computed }
    {
        let contents = node.into_contents();
        let mut emptied_parts = contents.parts;
        let (key, value, kind, method, shorthand, computed) = take_six(&mut emptied_parts);
        kind.into_init();
        method.into_false();
        AssignmentTargetProperty {
            node_id: contents.node_id,
            span: contents.span,
            key: key.into_child(),
            value: value.into_child(),
            shorthand: shorthand.into_boolean(),
            computed: computed.into_boolean(),
            emptied_parts,
        }
    }

    /// Puts the node together again. Takes no memory.
    pub fn into_node(self) -> Node
        ensures { result ≡ assignment_target_property self.node_id.0 (span_of self.span) self.key
            self.value self.shorthand self.computed }
    {
        let mut parts = self.emptied_parts;
        put_six(
            &mut parts,
            Part::Child(self.key),
            Part::Child(self.value),
            Part::Word(Word::Init),
            Part::Boolean(false),
            Part::Boolean(self.shorthand),
            Part::Boolean(self.computed),
        );
        Node::new(
            Kind::AssignmentTargetProperty,
            Contents {
                node_id: self.node_id,
                span: self.span,
                semantic_id: None,
                parts,
            },
        )
    }
}

/// `AssignmentTargetProperty`, borrowed.
#[derive(Clone, Copy)]
pub struct AssignmentTargetPropertyRef<'a> {
    pub node_id: NodeId,
    pub span: Option<Span>,
    pub key: &'a Node,
    pub value: &'a Node,
    pub shorthand: bool,
    pub computed: bool,
}

impl<'a> AssignmentTargetPropertyRef<'a> {
    /// Reads a node of this kind.
    pub fn from_node(node: &'a Node) -> AssignmentTargetPropertyRef<'a>
        requires { kind_of node.now ≡ Kind.AssignmentTargetProperty }
        ensures { node.now ≡ assignment_target_property result.node_id.0 (span_of result.span)
            result.key.now result.value.now result.shorthand result.computed }
    {
        match node.parts() {
            [key, value, kind, method, shorthand, computed] => {
                kind.as_init();
                method.as_false();
                AssignmentTargetPropertyRef {
                    node_id: node.node_id(),
                    span: node.span(),
                    key: key.as_child(),
                    value: value.as_child(),
                    shorthand: shorthand.as_boolean(),
                    computed: computed.as_boolean(),
                }
            },
            _ => unreachable!(),
        }
    }
}

/// Makes a node of this kind, which has no number yet: `key: value` in an object pattern that is
/// assigned to (ECMA-262, 13.15.5). Fails on allocation failure alone.
pub fn make_assignment_target_property(
    alloc: Global,
    key: Node,
    value: Node,
    shorthand: bool,
    computed: bool,
) -> Result<Node, AllocError>
    ensures { IfOk result (λ t. t ≡ assignment_target_property unnumbered None key value shorthand
        computed) }
{
    let parts = vec![in alloc;
        Part::Child(key),
        Part::Child(value),
        Part::Word(Word::Init),
        Part::Boolean(false),
        Part::Boolean(shorthand),
        Part::Boolean(computed),
    ]?;
    Ok(Node::new(
        Kind::AssignmentTargetProperty,
        Contents {
            node_id: NodeId::DUMMY,
            span: None,
            semantic_id: None,
            parts: List::from_vec(parts),
        },
    ))
}

/// `[elements]` that is assigned to (ECMA-262, 13.15.5).
#[derive(Drop)]
pub struct ArrayAssignmentTarget {
    pub node_id: NodeId,
    pub span: Option<Span>,
    pub elements: List<Option<Node>>,
    emptied_parts: List<Part>,
    ghost part_count: { length emptied_parts ≡ 1 },
}

impl ArrayAssignmentTarget {
    /// Takes a node of this kind apart.
    pub fn from_node(node: Node) -> ArrayAssignmentTarget
        requires { kind_of node ≡ Kind.ArrayAssignmentTarget }
        ensures { node ≡ array_assignment_target result.node_id.0 (span_of result.span)
            result.elements }
    {
        let contents = node.into_contents();
        let mut emptied_parts = contents.parts;
        let elements = take_one(&mut emptied_parts);
        ArrayAssignmentTarget {
            node_id: contents.node_id,
            span: contents.span,
            elements: elements.into_list_with_holes(),
            emptied_parts,
        }
    }

    /// Puts the node together again. Takes no memory.
    pub fn into_node(self) -> Node
        ensures { result ≡ array_assignment_target self.node_id.0 (span_of self.span)
            self.elements }
    {
        let mut parts = self.emptied_parts;
        put_one(&mut parts, Part::Holes(self.elements));
        Node::new(
            Kind::ArrayAssignmentTarget,
            Contents {
                node_id: self.node_id,
                span: self.span,
                semantic_id: None,
                parts,
            },
        )
    }
}

/// `ArrayAssignmentTarget`, borrowed.
#[derive(Clone, Copy)]
pub struct ArrayAssignmentTargetRef<'a> {
    pub node_id: NodeId,
    pub span: Option<Span>,
    pub elements: &'a [Option<Node>],
}

impl<'a> ArrayAssignmentTargetRef<'a> {
    /// Reads a node of this kind.
    pub fn from_node(node: &'a Node) -> ArrayAssignmentTargetRef<'a>
        requires { kind_of node.now ≡ Kind.ArrayAssignmentTarget }
        ensures { node.now ≡ array_assignment_target result.node_id.0 (span_of result.span)
            result.elements.now }
    {
        match node.parts() {
            [elements] => ArrayAssignmentTargetRef {
                node_id: node.node_id(),
                span: node.span(),
                elements: elements.as_list_with_holes(),
            },
            _ => unreachable!(),
        }
    }
}

/// Makes a node of this kind, which has no number yet: `[elements]` that is assigned to (ECMA-262,
/// 13.15.5). Fails on allocation failure alone.
pub fn make_array_assignment_target(
    alloc: Global,
    elements: List<Option<Node>>,
) -> Result<Node, AllocError>
    ensures { IfOk result (λ t. t ≡ array_assignment_target unnumbered None elements) }
{
    let parts = vec![in alloc; Part::Holes(elements)]?;
    Ok(Node::new(
        Kind::ArrayAssignmentTarget,
        Contents {
            node_id: NodeId::DUMMY,
            span: None,
            semantic_id: None,
            parts: List::from_vec(parts),
        },
    ))
}

/// `left = right` in a pattern that is assigned to: a default value (ECMA-262, 13.15.5).
#[derive(Drop)]
pub struct AssignmentTargetWithDefault {
    pub node_id: NodeId,
    pub span: Option<Span>,
    pub left: Node,
    pub right: Node,
    emptied_parts: List<Part>,
    ghost part_count: { length emptied_parts ≡ 2 },
}

impl AssignmentTargetWithDefault {
    /// Takes a node of this kind apart.
    pub fn from_node(node: Node) -> AssignmentTargetWithDefault
        requires { kind_of node ≡ Kind.AssignmentTargetWithDefault }
        ensures { node ≡ assignment_target_with_default result.node_id.0 (span_of result.span)
            result.left result.right }
    {
        let contents = node.into_contents();
        let mut emptied_parts = contents.parts;
        let (left, right) = take_two(&mut emptied_parts);
        AssignmentTargetWithDefault {
            node_id: contents.node_id,
            span: contents.span,
            left: left.into_child(),
            right: right.into_child(),
            emptied_parts,
        }
    }

    /// Puts the node together again. Takes no memory.
    pub fn into_node(self) -> Node
        ensures { result ≡ assignment_target_with_default self.node_id.0 (span_of self.span)
            self.left self.right }
    {
        let mut parts = self.emptied_parts;
        put_two(&mut parts, Part::Child(self.left), Part::Child(self.right));
        Node::new(
            Kind::AssignmentTargetWithDefault,
            Contents {
                node_id: self.node_id,
                span: self.span,
                semantic_id: None,
                parts,
            },
        )
    }
}

/// `AssignmentTargetWithDefault`, borrowed.
#[derive(Clone, Copy)]
pub struct AssignmentTargetWithDefaultRef<'a> {
    pub node_id: NodeId,
    pub span: Option<Span>,
    pub left: &'a Node,
    pub right: &'a Node,
}

impl<'a> AssignmentTargetWithDefaultRef<'a> {
    /// Reads a node of this kind.
    pub fn from_node(node: &'a Node) -> AssignmentTargetWithDefaultRef<'a>
        requires { kind_of node.now ≡ Kind.AssignmentTargetWithDefault }
        ensures { node.now ≡ assignment_target_with_default result.node_id.0 (span_of result.span)
            result.left.now result.right.now }
    {
        match node.parts() {
            [left, right] => AssignmentTargetWithDefaultRef {
                node_id: node.node_id(),
                span: node.span(),
                left: left.as_child(),
                right: right.as_child(),
            },
            _ => unreachable!(),
        }
    }
}

/// Makes a node of this kind, which has no number yet: `left = right` in a pattern that is assigned
/// to: a default value (ECMA-262, 13.15.5). Fails on allocation failure alone.
pub fn make_assignment_target_with_default(
    alloc: Global,
    left: Node,
    right: Node,
) -> Result<Node, AllocError>
    ensures { IfOk result (λ t. t ≡ assignment_target_with_default unnumbered None left right) }
{
    let parts = vec![in alloc; Part::Child(left), Part::Child(right)]?;
    Ok(Node::new(
        Kind::AssignmentTargetWithDefault,
        Contents {
            node_id: NodeId::DUMMY,
            span: None,
            semantic_id: None,
            parts: List::from_vec(parts),
        },
    ))
}

/// `...argument` in a pattern that is assigned to (ECMA-262, 13.15.5).
#[derive(Drop)]
pub struct AssignmentTargetRest {
    pub node_id: NodeId,
    pub span: Option<Span>,
    pub argument: Node,
    emptied_parts: List<Part>,
    ghost part_count: { length emptied_parts ≡ 1 },
}

impl AssignmentTargetRest {
    /// Takes a node of this kind apart.
    pub fn from_node(node: Node) -> AssignmentTargetRest
        requires { kind_of node ≡ Kind.AssignmentTargetRest }
        ensures { node ≡ assignment_target_rest result.node_id.0 (span_of result.span)
            result.argument }
    {
        let contents = node.into_contents();
        let mut emptied_parts = contents.parts;
        let argument = take_one(&mut emptied_parts);
        AssignmentTargetRest {
            node_id: contents.node_id,
            span: contents.span,
            argument: argument.into_child(),
            emptied_parts,
        }
    }

    /// Puts the node together again. Takes no memory.
    pub fn into_node(self) -> Node
        ensures { result ≡ assignment_target_rest self.node_id.0 (span_of self.span) self.argument }
    {
        let mut parts = self.emptied_parts;
        put_one(&mut parts, Part::Child(self.argument));
        Node::new(
            Kind::AssignmentTargetRest,
            Contents {
                node_id: self.node_id,
                span: self.span,
                semantic_id: None,
                parts,
            },
        )
    }
}

/// `AssignmentTargetRest`, borrowed.
#[derive(Clone, Copy)]
pub struct AssignmentTargetRestRef<'a> {
    pub node_id: NodeId,
    pub span: Option<Span>,
    pub argument: &'a Node,
}

impl<'a> AssignmentTargetRestRef<'a> {
    /// Reads a node of this kind.
    pub fn from_node(node: &'a Node) -> AssignmentTargetRestRef<'a>
        requires { kind_of node.now ≡ Kind.AssignmentTargetRest }
        ensures { node.now ≡ assignment_target_rest result.node_id.0 (span_of result.span)
            result.argument.now }
    {
        match node.parts() {
            [argument] => AssignmentTargetRestRef {
                node_id: node.node_id(),
                span: node.span(),
                argument: argument.as_child(),
            },
            _ => unreachable!(),
        }
    }
}

/// Makes a node of this kind, which has no number yet: `...argument` in a pattern that is assigned
/// to (ECMA-262, 13.15.5). Fails on allocation failure alone.
pub fn make_assignment_target_rest(alloc: Global, argument: Node) -> Result<Node, AllocError>
    ensures { IfOk result (λ t. t ≡ assignment_target_rest unnumbered None argument) }
{
    let parts = vec![in alloc; Part::Child(argument)]?;
    Ok(Node::new(
        Kind::AssignmentTargetRest,
        Contents {
            node_id: NodeId::DUMMY,
            span: None,
            semantic_id: None,
            parts: List::from_vec(parts),
        },
    ))
}
