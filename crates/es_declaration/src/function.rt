// Printed by tools/tree.py from tools/kinds.py.
// Functions. Each kind has a struct of its members, which keeps the emptied list of its node's parts,
// the same borrowed, and a maker.

ghost use Rattle.std.specs.Prelude.{◌≡◌, IfOk, None, length, option_map};
ghost use Rattle.es_base.specs.Carried.{span_of, scope_number};
ghost use Rattle.es_base.specs.Numbered.{unnumbered};
ghost use Rattle.es_base.specs.Tree.{of_kind};
ghost use Rattle.es_base.specs.declared.kind.Kind.{Kind};
ghost use Rattle.es_node.specs.View.{kind_of};
ghost use Rattle.es_declaration.specs.Function.{function_declaration, function_expression, arrow_function_expression};

use es_base::ids::{NodeId, ScopeId, Span};
use es_base::kind::Kind;
use es_base::list::List;
use es_node::node::{Contents, Node, Part};
use es_node::parts::nullable_part;
use es_node::room::{put_five, put_three, take_five, take_three};
use es_node::semantic_ids::{scope_id_of, scope_number};
use std::alloc::{AllocError, Global};

/// A function that is no arrow, and the value of a method (ECMA-262, 15.2, 15.4 to 15.6 and 15.8).
#[derive(Drop)]
pub struct FunctionDeclaration {
    pub node_id: NodeId,
    pub span: Option<Span>,
    pub scope_id: Option<ScopeId>,
    pub id: Option<Node>,
    pub params: List<Node>,
    pub body: Node,
    pub is_async: bool,
    pub generator: bool,
    emptied_parts: List<Part>,
    ghost part_count: { length emptied_parts ≡ 5 },
}

impl FunctionDeclaration {
    /// Takes a node of this kind apart.
    pub fn from_node(node: Node) -> FunctionDeclaration
        requires { kind_of node ≡ Kind.FunctionDeclaration }
        ensures { node ≡ function_declaration result.node_id.0 (span_of result.span)
            (scope_number result.scope_id) result.id result.params result.body result.is_async
            result.generator }
    {
        let contents = node.into_contents();
        let mut emptied_parts = contents.parts;
        let (id, params, body, is_async, generator) = take_five(&mut emptied_parts);
        FunctionDeclaration {
            node_id: contents.node_id,
            span: contents.span,
            scope_id: scope_id_of(contents.semantic_id),
            id: id.into_nullable(),
            params: params.into_list(),
            body: body.into_child(),
            is_async: is_async.into_boolean(),
            generator: generator.into_boolean(),
            emptied_parts,
        }
    }

    /// Puts the node together again. Takes no memory.
    pub fn into_node(self) -> Node
        ensures { result ≡ function_declaration self.node_id.0 (span_of self.span)
            (scope_number self.scope_id) self.id self.params self.body self.is_async
            self.generator }
    {
        let mut parts = self.emptied_parts;
        put_five(
            &mut parts,
            nullable_part(self.id),
            Part::List(self.params),
            Part::Child(self.body),
            Part::Boolean(self.is_async),
            Part::Boolean(self.generator),
        );
        Node::new(
            Kind::FunctionDeclaration,
            Contents {
                node_id: self.node_id,
                span: self.span,
                semantic_id: scope_number(self.scope_id),
                parts,
            },
        )
    }

    /// The same as an expression: the kind alone changes.
    pub fn into_expression(self) -> FunctionExpression
        ensures { function_expression result.node_id.0 (span_of result.span)
            (scope_number result.scope_id) result.id result.params result.body result.is_async
            result.generator ≡ of_kind Kind.FunctionExpression (function_declaration self.node_id.0
            (span_of self.span) (scope_number self.scope_id) self.id self.params self.body
            self.is_async self.generator) }
    {
        FunctionExpression {
            node_id: self.node_id,
            span: self.span,
            scope_id: self.scope_id,
            id: self.id,
            params: self.params,
            body: self.body,
            is_async: self.is_async,
            generator: self.generator,
            emptied_parts: self.emptied_parts,
        }
    }
}

/// `FunctionDeclaration`, borrowed.
#[derive(Clone, Copy)]
pub struct FunctionDeclarationRef<'a> {
    pub node_id: NodeId,
    pub span: Option<Span>,
    pub scope_id: Option<ScopeId>,
    pub id: Option<&'a Node>,
    pub params: &'a [Node],
    pub body: &'a Node,
    pub is_async: bool,
    pub generator: bool,
}

impl<'a> FunctionDeclarationRef<'a> {
    /// Reads a node of this kind.
    pub fn from_node(node: &'a Node) -> FunctionDeclarationRef<'a>
        requires { kind_of node.now ≡ Kind.FunctionDeclaration }
        ensures { node.now ≡ function_declaration result.node_id.0 (span_of result.span)
            (scope_number result.scope_id) (option_map (λ x. x.now) result.id) result.params.now
            result.body.now result.is_async result.generator }
    {
        match node.parts() {
            [id, params, body, is_async, generator] => FunctionDeclarationRef {
                node_id: node.node_id(),
                span: node.span(),
                scope_id: scope_id_of(node.semantic_id()),
                id: id.as_nullable(),
                params: params.as_list(),
                body: body.as_child(),
                is_async: is_async.as_boolean(),
                generator: generator.as_boolean(),
            },
            _ => unreachable!(),
        }
    }
}

/// Makes a node of this kind, which has no number yet: a function that is no arrow, and the value
/// of a method (ECMA-262, 15.2, 15.4 to 15.6 and 15.8). Fails on allocation failure alone.
pub fn make_function_declaration(
    alloc: Global,
    id: Option<Node>,
    params: List<Node>,
    body: Node,
    is_async: bool,
    generator: bool,
) -> Result<Node, AllocError>
    ensures { IfOk result (λ t. t ≡ function_declaration unnumbered None None id params body
        is_async generator) }
{
    let parts = vec![in alloc;
        nullable_part(id),
        Part::List(params),
        Part::Child(body),
        Part::Boolean(is_async),
        Part::Boolean(generator),
    ]?;
    Ok(Node::new(
        Kind::FunctionDeclaration,
        Contents {
            node_id: NodeId::DUMMY,
            span: None,
            semantic_id: None,
            parts: List::from_vec(parts),
        },
    ))
}

/// A function that is no arrow, and the value of a method (ECMA-262, 15.2, 15.4 to 15.6 and 15.8).
#[derive(Drop)]
pub struct FunctionExpression {
    pub node_id: NodeId,
    pub span: Option<Span>,
    pub scope_id: Option<ScopeId>,
    pub id: Option<Node>,
    pub params: List<Node>,
    pub body: Node,
    pub is_async: bool,
    pub generator: bool,
    emptied_parts: List<Part>,
    ghost part_count: { length emptied_parts ≡ 5 },
}

impl FunctionExpression {
    /// Takes a node of this kind apart.
    pub fn from_node(node: Node) -> FunctionExpression
        requires { kind_of node ≡ Kind.FunctionExpression }
        ensures { node ≡ function_expression result.node_id.0 (span_of result.span)
            (scope_number result.scope_id) result.id result.params result.body result.is_async
            result.generator }
    {
        let contents = node.into_contents();
        let mut emptied_parts = contents.parts;
        let (id, params, body, is_async, generator) = take_five(&mut emptied_parts);
        FunctionExpression {
            node_id: contents.node_id,
            span: contents.span,
            scope_id: scope_id_of(contents.semantic_id),
            id: id.into_nullable(),
            params: params.into_list(),
            body: body.into_child(),
            is_async: is_async.into_boolean(),
            generator: generator.into_boolean(),
            emptied_parts,
        }
    }

    /// Puts the node together again. Takes no memory.
    pub fn into_node(self) -> Node
        ensures { result ≡ function_expression self.node_id.0 (span_of self.span)
            (scope_number self.scope_id) self.id self.params self.body self.is_async
            self.generator }
    {
        let mut parts = self.emptied_parts;
        put_five(
            &mut parts,
            nullable_part(self.id),
            Part::List(self.params),
            Part::Child(self.body),
            Part::Boolean(self.is_async),
            Part::Boolean(self.generator),
        );
        Node::new(
            Kind::FunctionExpression,
            Contents {
                node_id: self.node_id,
                span: self.span,
                semantic_id: scope_number(self.scope_id),
                parts,
            },
        )
    }
}

/// `FunctionExpression`, borrowed.
#[derive(Clone, Copy)]
pub struct FunctionExpressionRef<'a> {
    pub node_id: NodeId,
    pub span: Option<Span>,
    pub scope_id: Option<ScopeId>,
    pub id: Option<&'a Node>,
    pub params: &'a [Node],
    pub body: &'a Node,
    pub is_async: bool,
    pub generator: bool,
}

impl<'a> FunctionExpressionRef<'a> {
    /// Reads a node of this kind.
    pub fn from_node(node: &'a Node) -> FunctionExpressionRef<'a>
        requires { kind_of node.now ≡ Kind.FunctionExpression }
        ensures { node.now ≡ function_expression result.node_id.0 (span_of result.span)
            (scope_number result.scope_id) (option_map (λ x. x.now) result.id) result.params.now
            result.body.now result.is_async result.generator }
    {
        match node.parts() {
            [id, params, body, is_async, generator] => FunctionExpressionRef {
                node_id: node.node_id(),
                span: node.span(),
                scope_id: scope_id_of(node.semantic_id()),
                id: id.as_nullable(),
                params: params.as_list(),
                body: body.as_child(),
                is_async: is_async.as_boolean(),
                generator: generator.as_boolean(),
            },
            _ => unreachable!(),
        }
    }
}

/// Makes a node of this kind, which has no number yet: a function that is no arrow, and the value
/// of a method (ECMA-262, 15.2, 15.4 to 15.6 and 15.8). Fails on allocation failure alone.
pub fn make_function_expression(
    alloc: Global,
    id: Option<Node>,
    params: List<Node>,
    body: Node,
    is_async: bool,
    generator: bool,
) -> Result<Node, AllocError>
    ensures { IfOk result (λ t. t ≡ function_expression unnumbered None None id params body is_async
        generator) }
{
    let parts = vec![in alloc;
        nullable_part(id),
        Part::List(params),
        Part::Child(body),
        Part::Boolean(is_async),
        Part::Boolean(generator),
    ]?;
    Ok(Node::new(
        Kind::FunctionExpression,
        Contents {
            node_id: NodeId::DUMMY,
            span: None,
            semantic_id: None,
            parts: List::from_vec(parts),
        },
    ))
}

/// `(params) => body` (ECMA-262, 15.3 and 15.9).
#[derive(Drop)]
pub struct ArrowFunctionExpression {
    pub node_id: NodeId,
    pub span: Option<Span>,
    pub scope_id: Option<ScopeId>,
    pub params: List<Node>,
    pub body: Node,
    pub is_async: bool,
    emptied_parts: List<Part>,
    ghost part_count: { length emptied_parts ≡ 3 },
}

impl ArrowFunctionExpression {
    /// Takes a node of this kind apart.
    pub fn from_node(node: Node) -> ArrowFunctionExpression
        requires { kind_of node ≡ Kind.ArrowFunctionExpression }
        ensures { node ≡ arrow_function_expression result.node_id.0 (span_of result.span)
            (scope_number result.scope_id) result.params result.body result.is_async }
    {
        let contents = node.into_contents();
        let mut emptied_parts = contents.parts;
        let (params, body, is_async) = take_three(&mut emptied_parts);
        ArrowFunctionExpression {
            node_id: contents.node_id,
            span: contents.span,
            scope_id: scope_id_of(contents.semantic_id),
            params: params.into_list(),
            body: body.into_child(),
            is_async: is_async.into_boolean(),
            emptied_parts,
        }
    }

    /// Puts the node together again. Takes no memory.
    pub fn into_node(self) -> Node
        ensures { result ≡ arrow_function_expression self.node_id.0 (span_of self.span)
            (scope_number self.scope_id) self.params self.body self.is_async }
    {
        let mut parts = self.emptied_parts;
        put_three(
            &mut parts,
            Part::List(self.params),
            Part::Child(self.body),
            Part::Boolean(self.is_async),
        );
        Node::new(
            Kind::ArrowFunctionExpression,
            Contents {
                node_id: self.node_id,
                span: self.span,
                semantic_id: scope_number(self.scope_id),
                parts,
            },
        )
    }
}

/// `ArrowFunctionExpression`, borrowed.
#[derive(Clone, Copy)]
pub struct ArrowFunctionExpressionRef<'a> {
    pub node_id: NodeId,
    pub span: Option<Span>,
    pub scope_id: Option<ScopeId>,
    pub params: &'a [Node],
    pub body: &'a Node,
    pub is_async: bool,
}

impl<'a> ArrowFunctionExpressionRef<'a> {
    /// Reads a node of this kind.
    pub fn from_node(node: &'a Node) -> ArrowFunctionExpressionRef<'a>
        requires { kind_of node.now ≡ Kind.ArrowFunctionExpression }
        ensures { node.now ≡ arrow_function_expression result.node_id.0 (span_of result.span)
            (scope_number result.scope_id) result.params.now result.body.now result.is_async }
    {
        match node.parts() {
            [params, body, is_async] => ArrowFunctionExpressionRef {
                node_id: node.node_id(),
                span: node.span(),
                scope_id: scope_id_of(node.semantic_id()),
                params: params.as_list(),
                body: body.as_child(),
                is_async: is_async.as_boolean(),
            },
            _ => unreachable!(),
        }
    }
}

/// Makes a node of this kind, which has no number yet: `(params) => body` (ECMA-262, 15.3 and
/// 15.9). Fails on allocation failure alone.
pub fn make_arrow_function_expression(
    alloc: Global,
    params: List<Node>,
    body: Node,
    is_async: bool,
) -> Result<Node, AllocError>
    ensures { IfOk result (λ t. t ≡ arrow_function_expression unnumbered None None params body
        is_async) }
{
    let parts = vec![in alloc;
        Part::List(params),
        Part::Child(body),
        Part::Boolean(is_async),
    ]?;
    Ok(Node::new(
        Kind::ArrowFunctionExpression,
        Contents {
            node_id: NodeId::DUMMY,
            span: None,
            semantic_id: None,
            parts: List::from_vec(parts),
        },
    ))
}
