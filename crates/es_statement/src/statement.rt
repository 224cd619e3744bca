// Printed by tools/tree.py from tools/kinds.py.
// Statements. Each kind has a struct of its members, which keeps the emptied list of its node's parts,
// the same borrowed, and a maker.

ghost use Rattle.std.specs.Prelude.{◌≡◌, IfOk, None, length, option_map};
ghost use Rattle.es_base.specs.Carried.{span_of, scope_number};
ghost use Rattle.es_base.specs.Numbered.{unnumbered};
ghost use Rattle.es_base.specs.declared.kind.Kind.{Kind};
ghost use Rattle.es_node.specs.View.{kind_of};
ghost use Rattle.es_statement.specs.Statement.{expression_statement, block_statement, empty_statement, debugger_statement, with_statement, return_statement, throw_statement, labeled_statement, break_statement, continue_statement, if_statement, switch_statement, switch_case, try_statement, catch_clause, while_statement, do_while_statement, for_statement, for_in_statement, for_of_statement, variable_declaration, variable_declarator};

use es_base::ids::{NodeId, ScopeId, Span};
use es_base::kind::Kind;
use es_base::list::List;
use es_base::name::Name;
use es_base::operator::{VariableDeclarationKind, Word};
use es_node::node::{Contents, Node, Part};
use es_node::parts::{nullable_part, nullable_string_part};
use es_node::room::{
    put_four, put_one, put_three, put_two, take_four, take_one, take_three, take_two,
};
use es_node::semantic_ids::{scope_id_of, scope_number};
use std::alloc::{AllocError, Global};

/// `expression;`, with the raw string of a directive (ECMA-262, 14.5 and 11.2.1).
#[derive(Drop)]
pub struct ExpressionStatement {
    pub node_id: NodeId,
    pub span: Option<Span>,
    pub expression: Node,
    pub directive: Option<Name>,
    emptied_parts: List<Part>,
    ghost part_count: { length emptied_parts ≡ 2 },
}

impl ExpressionStatement {
    /// Takes a node of this kind apart.
    pub fn from_node(node: Node) -> ExpressionStatement
        requires { kind_of node ≡ Kind.ExpressionStatement }
        ensures { node ≡ expression_statement result.node_id.0 (span_of result.span)
            result.expression result.directive }
    {
        let contents = node.into_contents();
        let mut emptied_parts = contents.parts;
        let (expression, directive) = take_two(&mut emptied_parts);
        ExpressionStatement {
            node_id: contents.node_id,
            span: contents.span,
            expression: expression.into_child(),
            directive: directive.into_nullable_string(),
            emptied_parts,
        }
    }

    /// Puts the node together again. Takes no memory.
    pub fn into_node(self) -> Node
        ensures { result ≡ expression_statement self.node_id.0 (span_of self.span) self.expression
            self.directive }
    {
        let mut parts = self.emptied_parts;
        put_two(
            &mut parts,
            Part::Child(self.expression),
            nullable_string_part(self.directive),
        );
        Node::new(
            Kind::ExpressionStatement,
            Contents {
                node_id: self.node_id,
                span: self.span,
                semantic_id: None,
                parts,
            },
        )
    }
}

/// `ExpressionStatement`, borrowed.
#[derive(Clone, Copy)]
pub struct ExpressionStatementRef<'a> {
    pub node_id: NodeId,
    pub span: Option<Span>,
    pub expression: &'a Node,
    pub directive: Option<&'a Name>,
}

impl<'a> ExpressionStatementRef<'a> {
    /// Reads a node of this kind.
    pub fn from_node(node: &'a Node) -> ExpressionStatementRef<'a>
        requires { kind_of node.now ≡ Kind.ExpressionStatement }
        ensures { node.now ≡ expression_statement result.node_id.0 (span_of result.span)
            result.expression.now (option_map (λ x. x.now) result.directive) }
    {
        match node.parts() {
            [expression, directive] => ExpressionStatementRef {
                node_id: node.node_id(),
                span: node.span(),
                expression: expression.as_child(),
                directive: directive.as_nullable_string(),
            },
            _ => unreachable!(),
        }
    }
}

/// Makes a node of this kind, which has no number yet: `expression;`, with the raw string of a
/// directive (ECMA-262, 14.5 and 11.2.1). Fails on allocation failure alone.
pub fn make_expression_statement(
    alloc: Global,
    expression: Node,
    directive: Option<Name>,
) -> Result<Node, AllocError>
    ensures { IfOk result (λ t. t ≡ expression_statement unnumbered None expression directive) }
{
    let parts = vec![in alloc; Part::Child(expression), nullable_string_part(directive)]?;
    Ok(Node::new(
        Kind::ExpressionStatement,
        Contents {
            node_id: NodeId::DUMMY,
            span: None,
            semantic_id: None,
            parts: List::from_vec(parts),
        },
    ))
}

/// `{ body }`, a block or the body of a function (ECMA-262, 14.2).
#[derive(Drop)]
pub struct BlockStatement {
    pub node_id: NodeId,
    pub span: Option<Span>,
    pub scope_id: Option<ScopeId>,
    pub body: List<Node>,
    emptied_parts: List<Part>,
    ghost part_count: { length emptied_parts ≡ 1 },
}

impl BlockStatement {
    /// Takes a node of this kind apart.
    pub fn from_node(node: Node) -> BlockStatement
        requires { kind_of node ≡ Kind.BlockStatement }
        ensures { node ≡ block_statement result.node_id.0 (span_of result.span)
            (scope_number result.scope_id) result.body }
    {
        let contents = node.into_contents();
        let mut emptied_parts = contents.parts;
        let body = take_one(&mut emptied_parts);
        BlockStatement {
            node_id: contents.node_id,
            span: contents.span,
            scope_id: scope_id_of(contents.semantic_id),
            body: body.into_list(),
            emptied_parts,
        }
    }

    /// Puts the node together again. Takes no memory.
    pub fn into_node(self) -> Node
        ensures { result ≡ block_statement self.node_id.0 (span_of self.span)
            (scope_number self.scope_id) self.body }
    {
        let mut parts = self.emptied_parts;
        put_one(&mut parts, Part::List(self.body));
        Node::new(
            Kind::BlockStatement,
            Contents {
                node_id: self.node_id,
                span: self.span,
                semantic_id: scope_number(self.scope_id),
                parts,
            },
        )
    }
}

/// `BlockStatement`, borrowed.
#[derive(Clone, Copy)]
pub struct BlockStatementRef<'a> {
    pub node_id: NodeId,
    pub span: Option<Span>,
    pub scope_id: Option<ScopeId>,
    pub body: &'a [Node],
}

impl<'a> BlockStatementRef<'a> {
    /// Reads a node of this kind.
    pub fn from_node(node: &'a Node) -> BlockStatementRef<'a>
        requires { kind_of node.now ≡ Kind.BlockStatement }
        ensures { node.now ≡ block_statement result.node_id.0 (span_of result.span)
            (scope_number result.scope_id) result.body.now }
    {
        match node.parts() {
            [body] => BlockStatementRef {
                node_id: node.node_id(),
                span: node.span(),
                scope_id: scope_id_of(node.semantic_id()),
                body: body.as_list(),
            },
            _ => unreachable!(),
        }
    }
}

/// Makes a node of this kind, which has no number yet: `{ body }`, a block or the body of a
/// function (ECMA-262, 14.2). Fails on allocation failure alone.
pub fn make_block_statement(alloc: Global, body: List<Node>) -> Result<Node, AllocError>
    ensures { IfOk result (λ t. t ≡ block_statement unnumbered None None body) }
{
    let parts = vec![in alloc; Part::List(body)]?;
    Ok(Node::new(
        Kind::BlockStatement,
        Contents {
            node_id: NodeId::DUMMY,
            span: None,
            semantic_id: None,
            parts: List::from_vec(parts),
        },
    ))
}

/// Makes a node of this kind, which has no number yet: `;` (ECMA-262, 14.4). Fails on allocation
/// failure alone.
pub fn make_empty_statement(alloc: Global) -> Result<Node, AllocError>
    ensures { IfOk result (λ t. t ≡ empty_statement unnumbered None) }
{
    let parts = Vec::new(alloc);
    Ok(Node::new(
        Kind::EmptyStatement,
        Contents {
            node_id: NodeId::DUMMY,
            span: None,
            semantic_id: None,
            parts: List::from_vec(parts),
        },
    ))
}

/// Makes a node of this kind, which has no number yet: `debugger;` (ECMA-262, 14.16). Fails on
/// allocation failure alone.
pub fn make_debugger_statement(alloc: Global) -> Result<Node, AllocError>
    ensures { IfOk result (λ t. t ≡ debugger_statement unnumbered None) }
{
    let parts = Vec::new(alloc);
    Ok(Node::new(
        Kind::DebuggerStatement,
        Contents {
            node_id: NodeId::DUMMY,
            span: None,
            semantic_id: None,
            parts: List::from_vec(parts),
        },
    ))
}

/// `with (object) body` (ECMA-262, 14.11).
#[derive(Drop)]
pub struct WithStatement {
    pub node_id: NodeId,
    pub span: Option<Span>,
    pub object: Node,
    pub body: Node,
    emptied_parts: List<Part>,
    ghost part_count: { length emptied_parts ≡ 2 },
}

impl WithStatement {
    /// Takes a node of this kind apart.
    pub fn from_node(node: Node) -> WithStatement
        requires { kind_of node ≡ Kind.WithStatement }
        ensures { node ≡ with_statement result.node_id.0 (span_of result.span) result.object
            result.body }
    {
        let contents = node.into_contents();
        let mut emptied_parts = contents.parts;
        let (object, body) = take_two(&mut emptied_parts);
        WithStatement {
            node_id: contents.node_id,
            span: contents.span,
            object: object.into_child(),
            body: body.into_child(),
            emptied_parts,
        }
    }

    /// Puts the node together again. Takes no memory.
    pub fn into_node(self) -> Node
        ensures { result ≡ with_statement self.node_id.0 (span_of self.span) self.object self.body }
    {
        let mut parts = self.emptied_parts;
        put_two(&mut parts, Part::Child(self.object), Part::Child(self.body));
        Node::new(
            Kind::WithStatement,
            Contents {
                node_id: self.node_id,
                span: self.span,
                semantic_id: None,
                parts,
            },
        )
    }
}

/// `WithStatement`, borrowed.
#[derive(Clone, Copy)]
pub struct WithStatementRef<'a> {
    pub node_id: NodeId,
    pub span: Option<Span>,
    pub object: &'a Node,
    pub body: &'a Node,
}

impl<'a> WithStatementRef<'a> {
    /// Reads a node of this kind.
    pub fn from_node(node: &'a Node) -> WithStatementRef<'a>
        requires { kind_of node.now ≡ Kind.WithStatement }
        ensures { node.now ≡ with_statement result.node_id.0 (span_of result.span) result.object.now
            result.body.now }
    {
        match node.parts() {
            [object, body] => WithStatementRef {
                node_id: node.node_id(),
                span: node.span(),
                object: object.as_child(),
                body: body.as_child(),
            },
            _ => unreachable!(),
        }
    }
}

/// Makes a node of this kind, which has no number yet: `with (object) body` (ECMA-262, 14.11).
/// Fails on allocation failure alone.
pub fn make_with_statement(alloc: Global, object: Node, body: Node) -> Result<Node, AllocError>
    ensures { IfOk result (λ t. t ≡ with_statement unnumbered None object body) }
{
    let parts = vec![in alloc; Part::Child(object), Part::Child(body)]?;
    Ok(Node::new(
        Kind::WithStatement,
        Contents {
            node_id: NodeId::DUMMY,
            span: None,
            semantic_id: None,
            parts: List::from_vec(parts),
        },
    ))
}

/// `return argument;` (ECMA-262, 14.10).
#[derive(Drop)]
pub struct ReturnStatement {
    pub node_id: NodeId,
    pub span: Option<Span>,
    pub argument: Option<Node>,
    emptied_parts: List<Part>,
    ghost part_count: { length emptied_parts ≡ 1 },
}

impl ReturnStatement {
    /// Takes a node of this kind apart.
    pub fn from_node(node: Node) -> ReturnStatement
        requires { kind_of node ≡ Kind.ReturnStatement }
        ensures { node ≡ return_statement result.node_id.0 (span_of result.span) result.argument }
    {
        let contents = node.into_contents();
        let mut emptied_parts = contents.parts;
        let argument = take_one(&mut emptied_parts);
        ReturnStatement {
            node_id: contents.node_id,
            span: contents.span,
            argument: argument.into_nullable(),
            emptied_parts,
        }
    }

    /// Puts the node together again. Takes no memory.
    pub fn into_node(self) -> Node
        ensures { result ≡ return_statement self.node_id.0 (span_of self.span) self.argument }
    {
        let mut parts = self.emptied_parts;
        put_one(&mut parts, nullable_part(self.argument));
        Node::new(
            Kind::ReturnStatement,
            Contents {
                node_id: self.node_id,
                span: self.span,
                semantic_id: None,
                parts,
            },
        )
    }
}

/// `ReturnStatement`, borrowed.
#[derive(Clone, Copy)]
pub struct ReturnStatementRef<'a> {
    pub node_id: NodeId,
    pub span: Option<Span>,
    pub argument: Option<&'a Node>,
}

impl<'a> ReturnStatementRef<'a> {
    /// Reads a node of this kind.
    pub fn from_node(node: &'a Node) -> ReturnStatementRef<'a>
        requires { kind_of node.now ≡ Kind.ReturnStatement }
        ensures { node.now ≡ return_statement result.node_id.0 (span_of result.span)
            (option_map (λ x. x.now) result.argument) }
    {
        match node.parts() {
            [argument] => ReturnStatementRef {
                node_id: node.node_id(),
                span: node.span(),
                argument: argument.as_nullable(),
            },
            _ => unreachable!(),
        }
    }
}

/// Makes a node of this kind, which has no number yet: `return argument;` (ECMA-262, 14.10). Fails
/// on allocation failure alone.
pub fn make_return_statement(alloc: Global, argument: Option<Node>) -> Result<Node, AllocError>
    ensures { IfOk result (λ t. t ≡ return_statement unnumbered None argument) }
{
    let parts = vec![in alloc; nullable_part(argument)]?;
    Ok(Node::new(
        Kind::ReturnStatement,
        Contents {
            node_id: NodeId::DUMMY,
            span: None,
            semantic_id: None,
            parts: List::from_vec(parts),
        },
    ))
}

/// `throw argument;` (ECMA-262, 14.14).
#[derive(Drop)]
pub struct ThrowStatement {
    pub node_id: NodeId,
    pub span: Option<Span>,
    pub argument: Node,
    emptied_parts: List<Part>,
    ghost part_count: { length emptied_parts ≡ 1 },
}

impl ThrowStatement {
    /// Takes a node of this kind apart.
    pub fn from_node(node: Node) -> ThrowStatement
        requires { kind_of node ≡ Kind.ThrowStatement }
        ensures { node ≡ throw_statement result.node_id.0 (span_of result.span) result.argument }
    {
        let contents = node.into_contents();
        let mut emptied_parts = contents.parts;
        let argument = take_one(&mut emptied_parts);
        ThrowStatement {
            node_id: contents.node_id,
            span: contents.span,
            argument: argument.into_child(),
            emptied_parts,
        }
    }

    /// Puts the node together again. Takes no memory.
    pub fn into_node(self) -> Node
        ensures { result ≡ throw_statement self.node_id.0 (span_of self.span) self.argument }
    {
        let mut parts = self.emptied_parts;
        put_one(&mut parts, Part::Child(self.argument));
        Node::new(
            Kind::ThrowStatement,
            Contents {
                node_id: self.node_id,
                span: self.span,
                semantic_id: None,
                parts,
            },
        )
    }
}

/// `ThrowStatement`, borrowed.
#[derive(Clone, Copy)]
pub struct ThrowStatementRef<'a> {
    pub node_id: NodeId,
    pub span: Option<Span>,
    pub argument: &'a Node,
}

impl<'a> ThrowStatementRef<'a> {
    /// Reads a node of this kind.
    pub fn from_node(node: &'a Node) -> ThrowStatementRef<'a>
        requires { kind_of node.now ≡ Kind.ThrowStatement }
        ensures { node.now ≡ throw_statement result.node_id.0 (span_of result.span)
            result.argument.now }
    {
        match node.parts() {
            [argument] => ThrowStatementRef {
                node_id: node.node_id(),
                span: node.span(),
                argument: argument.as_child(),
            },
            _ => unreachable!(),
        }
    }
}

/// Makes a node of this kind, which has no number yet: `throw argument;` (ECMA-262, 14.14). Fails
/// on allocation failure alone.
pub fn make_throw_statement(alloc: Global, argument: Node) -> Result<Node, AllocError>
    ensures { IfOk result (λ t. t ≡ throw_statement unnumbered None argument) }
{
    let parts = vec![in alloc; Part::Child(argument)]?;
    Ok(Node::new(
        Kind::ThrowStatement,
        Contents {
            node_id: NodeId::DUMMY,
            span: None,
            semantic_id: None,
            parts: List::from_vec(parts),
        },
    ))
}

/// `label: body` (ECMA-262, 14.13).
#[derive(Drop)]
pub struct LabeledStatement {
    pub node_id: NodeId,
    pub span: Option<Span>,
    pub label: Node,
    pub body: Node,
    emptied_parts: List<Part>,
    ghost part_count: { length emptied_parts ≡ 2 },
}

impl LabeledStatement {
    /// Takes a node of this kind apart.
    pub fn from_node(node: Node) -> LabeledStatement
        requires { kind_of node ≡ Kind.LabeledStatement }
        ensures { node ≡ labeled_statement result.node_id.0 (span_of result.span) result.label
            result.body }
    {
        let contents = node.into_contents();
        let mut emptied_parts = contents.parts;
        let (label, body) = take_two(&mut emptied_parts);
        LabeledStatement {
            node_id: contents.node_id,
            span: contents.span,
            label: label.into_child(),
            body: body.into_child(),
            emptied_parts,
        }
    }

    /// Puts the node together again. Takes no memory.
    pub fn into_node(self) -> Node
        ensures { result ≡ labeled_statement self.node_id.0 (span_of self.span) self.label
            self.body }
    {
        let mut parts = self.emptied_parts;
        put_two(&mut parts, Part::Child(self.label), Part::Child(self.body));
        Node::new(
            Kind::LabeledStatement,
            Contents {
                node_id: self.node_id,
                span: self.span,
                semantic_id: None,
                parts,
            },
        )
    }
}

/// `LabeledStatement`, borrowed.
#[derive(Clone, Copy)]
pub struct LabeledStatementRef<'a> {
    pub node_id: NodeId,
    pub span: Option<Span>,
    pub label: &'a Node,
    pub body: &'a Node,
}

impl<'a> LabeledStatementRef<'a> {
    /// Reads a node of this kind.
    pub fn from_node(node: &'a Node) -> LabeledStatementRef<'a>
        requires { kind_of node.now ≡ Kind.LabeledStatement }
        ensures { node.now ≡ labeled_statement result.node_id.0 (span_of result.span)
            result.label.now result.body.now }
    {
        match node.parts() {
            [label, body] => LabeledStatementRef {
                node_id: node.node_id(),
                span: node.span(),
                label: label.as_child(),
                body: body.as_child(),
            },
            _ => unreachable!(),
        }
    }
}

/// Makes a node of this kind, which has no number yet: `label: body` (ECMA-262, 14.13). Fails on
/// allocation failure alone.
pub fn make_labeled_statement(alloc: Global, label: Node, body: Node) -> Result<Node, AllocError>
    ensures { IfOk result (λ t. t ≡ labeled_statement unnumbered None label body) }
{
    let parts = vec![in alloc; Part::Child(label), Part::Child(body)]?;
    Ok(Node::new(
        Kind::LabeledStatement,
        Contents {
            node_id: NodeId::DUMMY,
            span: None,
            semantic_id: None,
            parts: List::from_vec(parts),
        },
    ))
}

/// `break label;` (ECMA-262, 14.9).
#[derive(Drop)]
pub struct BreakStatement {
    pub node_id: NodeId,
    pub span: Option<Span>,
    pub label: Option<Node>,
    emptied_parts: List<Part>,
    ghost part_count: { length emptied_parts ≡ 1 },
}

impl BreakStatement {
    /// Takes a node of this kind apart.
    pub fn from_node(node: Node) -> BreakStatement
        requires { kind_of node ≡ Kind.BreakStatement }
        ensures { node ≡ break_statement result.node_id.0 (span_of result.span) result.label }
    {
        let contents = node.into_contents();
        let mut emptied_parts = contents.parts;
        let label = take_one(&mut emptied_parts);
        BreakStatement {
            node_id: contents.node_id,
            span: contents.span,
            label: label.into_nullable(),
            emptied_parts,
        }
    }

    /// Puts the node together again. Takes no memory.
    pub fn into_node(self) -> Node
        ensures { result ≡ break_statement self.node_id.0 (span_of self.span) self.label }
    {
        let mut parts = self.emptied_parts;
        put_one(&mut parts, nullable_part(self.label));
        Node::new(
            Kind::BreakStatement,
            Contents {
                node_id: self.node_id,
                span: self.span,
                semantic_id: None,
                parts,
            },
        )
    }
}

/// `BreakStatement`, borrowed.
#[derive(Clone, Copy)]
pub struct BreakStatementRef<'a> {
    pub node_id: NodeId,
    pub span: Option<Span>,
    pub label: Option<&'a Node>,
}

impl<'a> BreakStatementRef<'a> {
    /// Reads a node of this kind.
    pub fn from_node(node: &'a Node) -> BreakStatementRef<'a>
        requires { kind_of node.now ≡ Kind.BreakStatement }
        ensures { node.now ≡ break_statement result.node_id.0 (span_of result.span)
            (option_map (λ x. x.now) result.label) }
    {
        match node.parts() {
            [label] => BreakStatementRef {
                node_id: node.node_id(),
                span: node.span(),
                label: label.as_nullable(),
            },
            _ => unreachable!(),
        }
    }
}

/// Makes a node of this kind, which has no number yet: `break label;` (ECMA-262, 14.9). Fails on
/// allocation failure alone.
pub fn make_break_statement(alloc: Global, label: Option<Node>) -> Result<Node, AllocError>
    ensures { IfOk result (λ t. t ≡ break_statement unnumbered None label) }
{
    let parts = vec![in alloc; nullable_part(label)]?;
    Ok(Node::new(
        Kind::BreakStatement,
        Contents {
            node_id: NodeId::DUMMY,
            span: None,
            semantic_id: None,
            parts: List::from_vec(parts),
        },
    ))
}

/// `continue label;` (ECMA-262, 14.8).
#[derive(Drop)]
pub struct ContinueStatement {
    pub node_id: NodeId,
    pub span: Option<Span>,
    pub label: Option<Node>,
    emptied_parts: List<Part>,
    ghost part_count: { length emptied_parts ≡ 1 },
}

impl ContinueStatement {
    /// Takes a node of this kind apart.
    pub fn from_node(node: Node) -> ContinueStatement
        requires { kind_of node ≡ Kind.ContinueStatement }
        ensures { node ≡ continue_statement result.node_id.0 (span_of result.span) result.label }
    {
        let contents = node.into_contents();
        let mut emptied_parts = contents.parts;
        let label = take_one(&mut emptied_parts);
        ContinueStatement {
            node_id: contents.node_id,
            span: contents.span,
            label: label.into_nullable(),
            emptied_parts,
        }
    }

    /// Puts the node together again. Takes no memory.
    pub fn into_node(self) -> Node
        ensures { result ≡ continue_statement self.node_id.0 (span_of self.span) self.label }
    {
        let mut parts = self.emptied_parts;
        put_one(&mut parts, nullable_part(self.label));
        Node::new(
            Kind::ContinueStatement,
            Contents {
                node_id: self.node_id,
                span: self.span,
                semantic_id: None,
                parts,
            },
        )
    }
}

/// `ContinueStatement`, borrowed.
#[derive(Clone, Copy)]
pub struct ContinueStatementRef<'a> {
    pub node_id: NodeId,
    pub span: Option<Span>,
    pub label: Option<&'a Node>,
}

impl<'a> ContinueStatementRef<'a> {
    /// Reads a node of this kind.
    pub fn from_node(node: &'a Node) -> ContinueStatementRef<'a>
        requires { kind_of node.now ≡ Kind.ContinueStatement }
        ensures { node.now ≡ continue_statement result.node_id.0 (span_of result.span)
            (option_map (λ x. x.now) result.label) }
    {
        match node.parts() {
            [label] => ContinueStatementRef {
                node_id: node.node_id(),
                span: node.span(),
                label: label.as_nullable(),
            },
            _ => unreachable!(),
        }
    }
}

/// Makes a node of this kind, which has no number yet: `continue label;` (ECMA-262, 14.8). Fails on
/// allocation failure alone.
pub fn make_continue_statement(alloc: Global, label: Option<Node>) -> Result<Node, AllocError>
    ensures { IfOk result (λ t. t ≡ continue_statement unnumbered None label) }
{
    let parts = vec![in alloc; nullable_part(label)]?;
    Ok(Node::new(
        Kind::ContinueStatement,
        Contents {
            node_id: NodeId::DUMMY,
            span: None,
            semantic_id: None,
            parts: List::from_vec(parts),
        },
    ))
}

/// `if (test) consequent else alternate` (ECMA-262, 14.6).
#[derive(Drop)]
pub struct IfStatement {
    pub node_id: NodeId,
    pub span: Option<Span>,
    pub test: Node,
    pub consequent: Node,
    pub alternate: Option<Node>,
    emptied_parts: List<Part>,
    ghost part_count: { length emptied_parts ≡ 3 },
}

impl IfStatement {
    /// Takes a node of this kind apart.
    pub fn from_node(node: Node) -> IfStatement
        requires { kind_of node ≡ Kind.IfStatement }
        ensures { node ≡ if_statement result.node_id.0 (span_of result.span) result.test
            result.consequent result.alternate }
    {
        let contents = node.into_contents();
        let mut emptied_parts = contents.parts;
        let (test, consequent, alternate) = take_three(&mut emptied_parts);
        IfStatement {
            node_id: contents.node_id,
            span: contents.span,
            test: test.into_child(),
            consequent: consequent.into_child(),
            alternate: alternate.into_nullable(),
            emptied_parts,
        }
    }

    /// Puts the node together again. Takes no memory.
    pub fn into_node(self) -> Node
        ensures { result ≡ if_statement self.node_id.0 (span_of self.span) self.test self.consequent
            self.alternate }
    {
        let mut parts = self.emptied_parts;
        put_three(
            &mut parts,
            Part::Child(self.test),
            Part::Child(self.consequent),
            nullable_part(self.alternate),
        );
        Node::new(
            Kind::IfStatement,
            Contents {
                node_id: self.node_id,
                span: self.span,
                semantic_id: None,
                parts,
            },
        )
    }
}

/// `IfStatement`, borrowed.
#[derive(Clone, Copy)]
pub struct IfStatementRef<'a> {
    pub node_id: NodeId,
    pub span: Option<Span>,
    pub test: &'a Node,
    pub consequent: &'a Node,
    pub alternate: Option<&'a Node>,
}

impl<'a> IfStatementRef<'a> {
    /// Reads a node of this kind.
    pub fn from_node(node: &'a Node) -> IfStatementRef<'a>
        requires { kind_of node.now ≡ Kind.IfStatement }
        ensures { node.now ≡ if_statement result.node_id.0 (span_of result.span) result.test.now
            result.consequent.now (option_map (λ x. x.now) result.alternate) }
    {
        match node.parts() {
            [test, consequent, alternate] => IfStatementRef {
                node_id: node.node_id(),
                span: node.span(),
                test: test.as_child(),
                consequent: consequent.as_child(),
                alternate: alternate.as_nullable(),
            },
            _ => unreachable!(),
        }
    }
}

/// Makes a node of this kind, which has no number yet: `if (test) consequent else alternate`
/// (ECMA-262, 14.6). Fails on allocation failure alone.
pub fn make_if_statement(
    alloc: Global,
    test: Node,
    consequent: Node,
    alternate: Option<Node>,
) -> Result<Node, AllocError>
    ensures { IfOk result (λ t. t ≡ if_statement unnumbered None test consequent alternate) }
{
    let parts = vec![in alloc;
        Part::Child(test),
        Part::Child(consequent),
        nullable_part(alternate),
    ]?;
    Ok(Node::new(
        Kind::IfStatement,
        Contents {
            node_id: NodeId::DUMMY,
            span: None,
            semantic_id: None,
            parts: List::from_vec(parts),
        },
    ))
}

/// `switch (discriminant) { cases }` (ECMA-262, 14.12).
#[derive(Drop)]
pub struct SwitchStatement {
    pub node_id: NodeId,
    pub span: Option<Span>,
    pub scope_id: Option<ScopeId>,
    pub discriminant: Node,
    pub cases: List<Node>,
    emptied_parts: List<Part>,
    ghost part_count: { length emptied_parts ≡ 2 },
}

impl SwitchStatement {
    /// Takes a node of this kind apart.
    pub fn from_node(node: Node) -> SwitchStatement
        requires { kind_of node ≡ Kind.SwitchStatement }
        ensures { node ≡ switch_statement result.node_id.0 (span_of result.span)
            (scope_number result.scope_id) result.discriminant result.cases }
    {
        let contents = node.into_contents();
        let mut emptied_parts = contents.parts;
        let (discriminant, cases) = take_two(&mut emptied_parts);
        SwitchStatement {
            node_id: contents.node_id,
            span: contents.span,
            scope_id: scope_id_of(contents.semantic_id),
            discriminant: discriminant.into_child(),
            cases: cases.into_list(),
            emptied_parts,
        }
    }

    /// Puts the node together again. Takes no memory.
    pub fn into_node(self) -> Node
        ensures { result ≡ switch_statement self.node_id.0 (span_of self.span)
            (scope_number self.scope_id) self.discriminant self.cases }
    {
        let mut parts = self.emptied_parts;
        put_two(
            &mut parts,
            Part::Child(self.discriminant),
            Part::List(self.cases),
        );
        Node::new(
            Kind::SwitchStatement,
            Contents {
                node_id: self.node_id,
                span: self.span,
                semantic_id: scope_number(self.scope_id),
                parts,
            },
        )
    }
}

/// `SwitchStatement`, borrowed.
#[derive(Clone, Copy)]
pub struct SwitchStatementRef<'a> {
    pub node_id: NodeId,
    pub span: Option<Span>,
    pub scope_id: Option<ScopeId>,
    pub discriminant: &'a Node,
    pub cases: &'a [Node],
}

impl<'a> SwitchStatementRef<'a> {
    /// Reads a node of this kind.
    pub fn from_node(node: &'a Node) -> SwitchStatementRef<'a>
        requires { kind_of node.now ≡ Kind.SwitchStatement }
        ensures { node.now ≡ switch_statement result.node_id.0 (span_of result.span)
            (scope_number result.scope_id) result.discriminant.now result.cases.now }
    {
        match node.parts() {
            [discriminant, cases] => SwitchStatementRef {
                node_id: node.node_id(),
                span: node.span(),
                scope_id: scope_id_of(node.semantic_id()),
                discriminant: discriminant.as_child(),
                cases: cases.as_list(),
            },
            _ => unreachable!(),
        }
    }
}

/// Makes a node of this kind, which has no number yet: `switch (discriminant) { cases }` (ECMA-262,
/// 14.12). Fails on allocation failure alone.
pub fn make_switch_statement(
    alloc: Global,
    discriminant: Node,
    cases: List<Node>,
) -> Result<Node, AllocError>
    ensures { IfOk result (λ t. t ≡ switch_statement unnumbered None None discriminant cases) }
{
    let parts = vec![in alloc; Part::Child(discriminant), Part::List(cases)]?;
    Ok(Node::new(
        Kind::SwitchStatement,
        Contents {
            node_id: NodeId::DUMMY,
            span: None,
            semantic_id: None,
            parts: List::from_vec(parts),
        },
    ))
}

/// `case test: consequent`, or `default: consequent` without a test (ECMA-262, 14.12).
#[derive(Drop)]
pub struct SwitchCase {
    pub node_id: NodeId,
    pub span: Option<Span>,
    pub test: Option<Node>,
    pub consequent: List<Node>,
    emptied_parts: List<Part>,
    ghost part_count: { length emptied_parts ≡ 2 },
}

impl SwitchCase {
    /// Takes a node of this kind apart.
    pub fn from_node(node: Node) -> SwitchCase
        requires { kind_of node ≡ Kind.SwitchCase }
        ensures { node ≡ switch_case result.node_id.0 (span_of result.span) result.test
            result.consequent }
    {
        let contents = node.into_contents();
        let mut emptied_parts = contents.parts;
        let (test, consequent) = take_two(&mut emptied_parts);
        SwitchCase {
            node_id: contents.node_id,
            span: contents.span,
            test: test.into_nullable(),
            consequent: consequent.into_list(),
            emptied_parts,
        }
    }

    /// Puts the node together again. Takes no memory.
    pub fn into_node(self) -> Node
        ensures { result ≡ switch_case self.node_id.0 (span_of self.span) self.test
            self.consequent }
    {
        let mut parts = self.emptied_parts;
        put_two(
            &mut parts,
            nullable_part(self.test),
            Part::List(self.consequent),
        );
        Node::new(
            Kind::SwitchCase,
            Contents {
                node_id: self.node_id,
                span: self.span,
                semantic_id: None,
                parts,
            },
        )
    }
}

/// `SwitchCase`, borrowed.
#[derive(Clone, Copy)]
pub struct SwitchCaseRef<'a> {
    pub node_id: NodeId,
    pub span: Option<Span>,
    pub test: Option<&'a Node>,
    pub consequent: &'a [Node],
}

impl<'a> SwitchCaseRef<'a> {
    /// Reads a node of this kind.
    pub fn from_node(node: &'a Node) -> SwitchCaseRef<'a>
        requires { kind_of node.now ≡ Kind.SwitchCase }
        ensures { node.now ≡ switch_case result.node_id.0 (span_of result.span)
            (option_map (λ x. x.now) result.test) result.consequent.now }
    {
        match node.parts() {
            [test, consequent] => SwitchCaseRef {
                node_id: node.node_id(),
                span: node.span(),
                test: test.as_nullable(),
                consequent: consequent.as_list(),
            },
            _ => unreachable!(),
        }
    }
}

/// Makes a node of this kind, which has no number yet: `case test: consequent`, or `default:
/// consequent` without a test (ECMA-262, 14.12). Fails on allocation failure alone.
pub fn make_switch_case(
    alloc: Global,
    test: Option<Node>,
    consequent: List<Node>,
) -> Result<Node, AllocError>
    ensures { IfOk result (λ t. t ≡ switch_case unnumbered None test consequent) }
{
    let parts = vec![in alloc; nullable_part(test), Part::List(consequent)]?;
    Ok(Node::new(
        Kind::SwitchCase,
        Contents {
            node_id: NodeId::DUMMY,
            span: None,
            semantic_id: None,
            parts: List::from_vec(parts),
        },
    ))
}

/// `try block catch .. finally finalizer` (ECMA-262, 14.15).
#[derive(Drop)]
pub struct TryStatement {
    pub node_id: NodeId,
    pub span: Option<Span>,
    pub block: Node,
    pub handler: Option<Node>,
    pub finalizer: Option<Node>,
    emptied_parts: List<Part>,
    ghost part_count: { length emptied_parts ≡ 3 },
}

impl TryStatement {
    /// Takes a node of this kind apart.
    pub fn from_node(node: Node) -> TryStatement
        requires { kind_of node ≡ Kind.TryStatement }
        ensures { node ≡ try_statement result.node_id.0 (span_of result.span) result.block
            result.handler result.finalizer }
    {
        let contents = node.into_contents();
        let mut emptied_parts = contents.parts;
        let (block, handler, finalizer) = take_three(&mut emptied_parts);
        TryStatement {
            node_id: contents.node_id,
            span: contents.span,
            block: block.into_child(),
            handler: handler.into_nullable(),
            finalizer: finalizer.into_nullable(),
            emptied_parts,
        }
    }

    /// Puts the node together again. Takes no memory.
    pub fn into_node(self) -> Node
        ensures { result ≡ try_statement self.node_id.0 (span_of self.span) self.block self.handler
            self.finalizer }
    {
        let mut parts = self.emptied_parts;
        put_three(
            &mut parts,
            Part::Child(self.block),
            nullable_part(self.handler),
            nullable_part(self.finalizer),
        );
        Node::new(
            Kind::TryStatement,
            Contents {
                node_id: self.node_id,
                span: self.span,
                semantic_id: None,
                parts,
            },
        )
    }
}

/// `TryStatement`, borrowed.
#[derive(Clone, Copy)]
pub struct TryStatementRef<'a> {
    pub node_id: NodeId,
    pub span: Option<Span>,
    pub block: &'a Node,
    pub handler: Option<&'a Node>,
    pub finalizer: Option<&'a Node>,
}

impl<'a> TryStatementRef<'a> {
    /// Reads a node of this kind.
    pub fn from_node(node: &'a Node) -> TryStatementRef<'a>
        requires { kind_of node.now ≡ Kind.TryStatement }
        ensures { node.now ≡ try_statement result.node_id.0 (span_of result.span) result.block.now
            (option_map (λ x. x.now) result.handler) (option_map (λ x. x.now) result.finalizer) }
    {
        match node.parts() {
            [block, handler, finalizer] => TryStatementRef {
                node_id: node.node_id(),
                span: node.span(),
                block: block.as_child(),
                handler: handler.as_nullable(),
                finalizer: finalizer.as_nullable(),
            },
            _ => unreachable!(),
        }
    }
}

/// Makes a node of this kind, which has no number yet: `try block catch .. finally finalizer`
/// (ECMA-262, 14.15). Fails on allocation failure alone.
pub fn make_try_statement(
    alloc: Global,
    block: Node,
    handler: Option<Node>,
    finalizer: Option<Node>,
) -> Result<Node, AllocError>
    ensures { IfOk result (λ t. t ≡ try_statement unnumbered None block handler finalizer) }
{
    let parts = vec![in alloc;
        Part::Child(block),
        nullable_part(handler),
        nullable_part(finalizer),
    ]?;
    Ok(Node::new(
        Kind::TryStatement,
        Contents {
            node_id: NodeId::DUMMY,
            span: None,
            semantic_id: None,
            parts: List::from_vec(parts),
        },
    ))
}

/// `catch (param) body` (ECMA-262, 14.15).
#[derive(Drop)]
pub struct CatchClause {
    pub node_id: NodeId,
    pub span: Option<Span>,
    pub scope_id: Option<ScopeId>,
    pub param: Option<Node>,
    pub body: Node,
    emptied_parts: List<Part>,
    ghost part_count: { length emptied_parts ≡ 2 },
}

impl CatchClause {
    /// Takes a node of this kind apart.
    pub fn from_node(node: Node) -> CatchClause
        requires { kind_of node ≡ Kind.CatchClause }
        ensures { node ≡ catch_clause result.node_id.0 (span_of result.span)
            (scope_number result.scope_id) result.param result.body }
    {
        let contents = node.into_contents();
        let mut emptied_parts = contents.parts;
        let (param, body) = take_two(&mut emptied_parts);
        CatchClause {
            node_id: contents.node_id,
            span: contents.span,
            scope_id: scope_id_of(contents.semantic_id),
            param: param.into_nullable(),
            body: body.into_child(),
            emptied_parts,
        }
    }

    /// Puts the node together again. Takes no memory.
    pub fn into_node(self) -> Node
        ensures { result ≡ catch_clause self.node_id.0 (span_of self.span)
            (scope_number self.scope_id) self.param self.body }
    {
        let mut parts = self.emptied_parts;
        put_two(
            &mut parts,
            nullable_part(self.param),
            Part::Child(self.body),
        );
        Node::new(
            Kind::CatchClause,
            Contents {
                node_id: self.node_id,
                span: self.span,
                semantic_id: scope_number(self.scope_id),
                parts,
            },
        )
    }
}

/// `CatchClause`, borrowed.
#[derive(Clone, Copy)]
pub struct CatchClauseRef<'a> {
    pub node_id: NodeId,
    pub span: Option<Span>,
    pub scope_id: Option<ScopeId>,
    pub param: Option<&'a Node>,
    pub body: &'a Node,
}

impl<'a> CatchClauseRef<'a> {
    /// Reads a node of this kind.
    pub fn from_node(node: &'a Node) -> CatchClauseRef<'a>
        requires { kind_of node.now ≡ Kind.CatchClause }
        ensures { node.now ≡ catch_clause result.node_id.0 (span_of result.span)
            (scope_number result.scope_id) (option_map (λ x. x.now) result.param) result.body.now }
    {
        match node.parts() {
            [param, body] => CatchClauseRef {
                node_id: node.node_id(),
                span: node.span(),
                scope_id: scope_id_of(node.semantic_id()),
                param: param.as_nullable(),
                body: body.as_child(),
            },
            _ => unreachable!(),
        }
    }
}

/// Makes a node of this kind, which has no number yet: `catch (param) body` (ECMA-262, 14.15).
/// Fails on allocation failure alone.
pub fn make_catch_clause(alloc: Global, param: Option<Node>, body: Node) -> Result<Node, AllocError>
    ensures { IfOk result (λ t. t ≡ catch_clause unnumbered None None param body) }
{
    let parts = vec![in alloc; nullable_part(param), Part::Child(body)]?;
    Ok(Node::new(
        Kind::CatchClause,
        Contents {
            node_id: NodeId::DUMMY,
            span: None,
            semantic_id: None,
            parts: List::from_vec(parts),
        },
    ))
}

/// `while (test) body` (ECMA-262, 14.7.3).
#[derive(Drop)]
pub struct WhileStatement {
    pub node_id: NodeId,
    pub span: Option<Span>,
    pub test: Node,
    pub body: Node,
    emptied_parts: List<Part>,
    ghost part_count: { length emptied_parts ≡ 2 },
}

impl WhileStatement {
    /// Takes a node of this kind apart.
    pub fn from_node(node: Node) -> WhileStatement
        requires { kind_of node ≡ Kind.WhileStatement }
        ensures { node ≡ while_statement result.node_id.0 (span_of result.span) result.test
            result.body }
    {
        let contents = node.into_contents();
        let mut emptied_parts = contents.parts;
        let (test, body) = take_two(&mut emptied_parts);
        WhileStatement {
            node_id: contents.node_id,
            span: contents.span,
            test: test.into_child(),
            body: body.into_child(),
            emptied_parts,
        }
    }

    /// Puts the node together again. Takes no memory.
    pub fn into_node(self) -> Node
        ensures { result ≡ while_statement self.node_id.0 (span_of self.span) self.test self.body }
    {
        let mut parts = self.emptied_parts;
        put_two(&mut parts, Part::Child(self.test), Part::Child(self.body));
        Node::new(
            Kind::WhileStatement,
            Contents {
                node_id: self.node_id,
                span: self.span,
                semantic_id: None,
                parts,
            },
        )
    }
}

/// `WhileStatement`, borrowed.
#[derive(Clone, Copy)]
pub struct WhileStatementRef<'a> {
    pub node_id: NodeId,
    pub span: Option<Span>,
    pub test: &'a Node,
    pub body: &'a Node,
}

impl<'a> WhileStatementRef<'a> {
    /// Reads a node of this kind.
    pub fn from_node(node: &'a Node) -> WhileStatementRef<'a>
        requires { kind_of node.now ≡ Kind.WhileStatement }
        ensures { node.now ≡ while_statement result.node_id.0 (span_of result.span) result.test.now
            result.body.now }
    {
        match node.parts() {
            [test, body] => WhileStatementRef {
                node_id: node.node_id(),
                span: node.span(),
                test: test.as_child(),
                body: body.as_child(),
            },
            _ => unreachable!(),
        }
    }
}

/// Makes a node of this kind, which has no number yet: `while (test) body` (ECMA-262, 14.7.3).
/// Fails on allocation failure alone.
pub fn make_while_statement(alloc: Global, test: Node, body: Node) -> Result<Node, AllocError>
    ensures { IfOk result (λ t. t ≡ while_statement unnumbered None test body) }
{
    let parts = vec![in alloc; Part::Child(test), Part::Child(body)]?;
    Ok(Node::new(
        Kind::WhileStatement,
        Contents {
            node_id: NodeId::DUMMY,
            span: None,
            semantic_id: None,
            parts: List::from_vec(parts),
        },
    ))
}

/// `do body while (test);` (ECMA-262, 14.7.2).
#[derive(Drop)]
pub struct DoWhileStatement {
    pub node_id: NodeId,
    pub span: Option<Span>,
    pub body: Node,
    pub test: Node,
    emptied_parts: List<Part>,
    ghost part_count: { length emptied_parts ≡ 2 },
}

impl DoWhileStatement {
    /// Takes a node of this kind apart.
    pub fn from_node(node: Node) -> DoWhileStatement
        requires { kind_of node ≡ Kind.DoWhileStatement }
        ensures { node ≡ do_while_statement result.node_id.0 (span_of result.span) result.body
            result.test }
    {
        let contents = node.into_contents();
        let mut emptied_parts = contents.parts;
        let (body, test) = take_two(&mut emptied_parts);
        DoWhileStatement {
            node_id: contents.node_id,
            span: contents.span,
            body: body.into_child(),
            test: test.into_child(),
            emptied_parts,
        }
    }

    /// Puts the node together again. Takes no memory.
    pub fn into_node(self) -> Node
        ensures { result ≡ do_while_statement self.node_id.0 (span_of self.span) self.body
            self.test }
    {
        let mut parts = self.emptied_parts;
        put_two(&mut parts, Part::Child(self.body), Part::Child(self.test));
        Node::new(
            Kind::DoWhileStatement,
            Contents {
                node_id: self.node_id,
                span: self.span,
                semantic_id: None,
                parts,
            },
        )
    }
}

/// `DoWhileStatement`, borrowed.
#[derive(Clone, Copy)]
pub struct DoWhileStatementRef<'a> {
    pub node_id: NodeId,
    pub span: Option<Span>,
    pub body: &'a Node,
    pub test: &'a Node,
}

impl<'a> DoWhileStatementRef<'a> {
    /// Reads a node of this kind.
    pub fn from_node(node: &'a Node) -> DoWhileStatementRef<'a>
        requires { kind_of node.now ≡ Kind.DoWhileStatement }
        ensures { node.now ≡ do_while_statement result.node_id.0 (span_of result.span)
            result.body.now result.test.now }
    {
        match node.parts() {
            [body, test] => DoWhileStatementRef {
                node_id: node.node_id(),
                span: node.span(),
                body: body.as_child(),
                test: test.as_child(),
            },
            _ => unreachable!(),
        }
    }
}

/// Makes a node of this kind, which has no number yet: `do body while (test);` (ECMA-262, 14.7.2).
/// Fails on allocation failure alone.
pub fn make_do_while_statement(alloc: Global, body: Node, test: Node) -> Result<Node, AllocError>
    ensures { IfOk result (λ t. t ≡ do_while_statement unnumbered None body test) }
{
    let parts = vec![in alloc; Part::Child(body), Part::Child(test)]?;
    Ok(Node::new(
        Kind::DoWhileStatement,
        Contents {
            node_id: NodeId::DUMMY,
            span: None,
            semantic_id: None,
            parts: List::from_vec(parts),
        },
    ))
}

/// `for (init; test; update) body` (ECMA-262, 14.7.4).
#[derive(Drop)]
pub struct ForStatement {
    pub node_id: NodeId,
    pub span: Option<Span>,
    pub scope_id: Option<ScopeId>,
    pub init: Option<Node>,
    pub test: Option<Node>,
    pub update: Option<Node>,
    pub body: Node,
    emptied_parts: List<Part>,
    ghost part_count: { length emptied_parts ≡ 4 },
}

impl ForStatement {
    /// Takes a node of this kind apart.
    pub fn from_node(node: Node) -> ForStatement
        requires { kind_of node ≡ Kind.ForStatement }
        ensures { node ≡ for_statement result.node_id.0 (span_of result.span)
            (scope_number result.scope_id) result.init result.test result.update result.body }
    {
        let contents = node.into_contents();
        let mut emptied_parts = contents.parts;
        let (init, test, update, body) = take_four(&mut emptied_parts);
        ForStatement {
            node_id: contents.node_id,
            span: contents.span,
            scope_id: scope_id_of(contents.semantic_id),
            init: init.into_nullable(),
            test: test.into_nullable(),
            update: update.into_nullable(),
            body: body.into_child(),
            emptied_parts,
        }
    }

    /// Puts the node together again. Takes no memory.
    pub fn into_node(self) -> Node
        ensures { result ≡ for_statement self.node_id.0 (span_of self.span)
            (scope_number self.scope_id) self.init self.test self.update self.body }
    {
        let mut parts = self.emptied_parts;
        put_four(
            &mut parts,
            nullable_part(self.init),
            nullable_part(self.test),
            nullable_part(self.update),
            Part::Child(self.body),
        );
        Node::new(
            Kind::ForStatement,
            Contents {
                node_id: self.node_id,
                span: self.span,
                semantic_id: scope_number(self.scope_id),
                parts,
            },
        )
    }
}

/// `ForStatement`, borrowed.
#[derive(Clone, Copy)]
pub struct ForStatementRef<'a> {
    pub node_id: NodeId,
    pub span: Option<Span>,
    pub scope_id: Option<ScopeId>,
    pub init: Option<&'a Node>,
    pub test: Option<&'a Node>,
    pub update: Option<&'a Node>,
    pub body: &'a Node,
}

impl<'a> ForStatementRef<'a> {
    /// Reads a node of this kind.
    pub fn from_node(node: &'a Node) -> ForStatementRef<'a>
        requires { kind_of node.now ≡ Kind.ForStatement }
        ensures { node.now ≡ for_statement result.node_id.0 (span_of result.span)
            (scope_number result.scope_id) (option_map (λ x. x.now) result.init)
            (option_map (λ x. x.now) result.test) (option_map (λ x. x.now) result.update)
            result.body.now }
    {
        match node.parts() {
            [init, test, update, body] => ForStatementRef {
                node_id: node.node_id(),
                span: node.span(),
                scope_id: scope_id_of(node.semantic_id()),
                init: init.as_nullable(),
                test: test.as_nullable(),
                update: update.as_nullable(),
                body: body.as_child(),
            },
            _ => unreachable!(),
        }
    }
}

/// Makes a node of this kind, which has no number yet: `for (init; test; update) body` (ECMA-262,
/// 14.7.4). Fails on allocation failure alone.
pub fn make_for_statement(
    alloc: Global,
    init: Option<Node>,
    test: Option<Node>,
    update: Option<Node>,
    body: Node,
) -> Result<Node, AllocError>
    ensures { IfOk result (λ t. t ≡ for_statement unnumbered None None init test update body) }
{
    let parts = vec![in alloc;
        nullable_part(init),
        nullable_part(test),
        nullable_part(update),
        Part::Child(body),
    ]?;
    Ok(Node::new(
        Kind::ForStatement,
        Contents {
            node_id: NodeId::DUMMY,
            span: None,
            semantic_id: None,
            parts: List::from_vec(parts),
        },
    ))
}

/// `for (left in right) body` (ECMA-262, 14.7.5).
#[derive(Drop)]
pub struct ForInStatement {
    pub node_id: NodeId,
    pub span: Option<Span>,
    pub scope_id: Option<ScopeId>,
    pub left: Node,
    pub right: Node,
    pub body: Node,
    emptied_parts: List<Part>,
    ghost part_count: { length emptied_parts ≡ 3 },
}

impl ForInStatement {
    /// Takes a node of this kind apart.
    pub fn from_node(node: Node) -> ForInStatement
        requires { kind_of node ≡ Kind.ForInStatement }
        ensures { node ≡ for_in_statement result.node_id.0 (span_of result.span)
            (scope_number result.scope_id) result.left result.right result.body }
    {
        let contents = node.into_contents();
        let mut emptied_parts = contents.parts;
        let (left, right, body) = take_three(&mut emptied_parts);
        ForInStatement {
            node_id: contents.node_id,
            span: contents.span,
            scope_id: scope_id_of(contents.semantic_id),
            left: left.into_child(),
            right: right.into_child(),
            body: body.into_child(),
            emptied_parts,
        }
    }

    /// Puts the node together again. Takes no memory.
    pub fn into_node(self) -> Node
        ensures { result ≡ for_in_statement self.node_id.0 (span_of self.span)
            (scope_number self.scope_id) self.left self.right self.body }
    {
        let mut parts = self.emptied_parts;
        put_three(
            &mut parts,
            Part::Child(self.left),
            Part::Child(self.right),
            Part::Child(self.body),
        );
        Node::new(
            Kind::ForInStatement,
            Contents {
                node_id: self.node_id,
                span: self.span,
                semantic_id: scope_number(self.scope_id),
                parts,
            },
        )
    }
}

/// `ForInStatement`, borrowed.
#[derive(Clone, Copy)]
pub struct ForInStatementRef<'a> {
    pub node_id: NodeId,
    pub span: Option<Span>,
    pub scope_id: Option<ScopeId>,
    pub left: &'a Node,
    pub right: &'a Node,
    pub body: &'a Node,
}

impl<'a> ForInStatementRef<'a> {
    /// Reads a node of this kind.
    pub fn from_node(node: &'a Node) -> ForInStatementRef<'a>
        requires { kind_of node.now ≡ Kind.ForInStatement }
        ensures { node.now ≡ for_in_statement result.node_id.0 (span_of result.span)
            (scope_number result.scope_id) result.left.now result.right.now result.body.now }
    {
        match node.parts() {
            [left, right, body] => ForInStatementRef {
                node_id: node.node_id(),
                span: node.span(),
                scope_id: scope_id_of(node.semantic_id()),
                left: left.as_child(),
                right: right.as_child(),
                body: body.as_child(),
            },
            _ => unreachable!(),
        }
    }
}

/// Makes a node of this kind, which has no number yet: `for (left in right) body` (ECMA-262,
/// 14.7.5). Fails on allocation failure alone.
pub fn make_for_in_statement(
    alloc: Global,
    left: Node,
    right: Node,
    body: Node,
) -> Result<Node, AllocError>
    ensures { IfOk result (λ t. t ≡ for_in_statement unnumbered None None left right body) }
{
    let parts = vec![in alloc; Part::Child(left), Part::Child(right), Part::Child(body)]?;
    Ok(Node::new(
        Kind::ForInStatement,
        Contents {
            node_id: NodeId::DUMMY,
            span: None,
            semantic_id: None,
            parts: List::from_vec(parts),
        },
    ))
}

/// `for (left of right) body` or `for await (left of right) body` (ECMA-262, 14.7.5).
#[derive(Drop)]
pub struct ForOfStatement {
    pub node_id: NodeId,
    pub span: Option<Span>,
    pub scope_id: Option<ScopeId>,
    pub left: Node,
    pub right: Node,
    pub body: Node,
    pub is_await: bool,
    emptied_parts: List<Part>,
    ghost part_count: { length emptied_parts ≡ 4 },
}

impl ForOfStatement {
    /// Takes a node of this kind apart.
    pub fn from_node(node: Node) -> ForOfStatement
        requires { kind_of node ≡ Kind.ForOfStatement }
        ensures { node ≡ for_of_statement result.node_id.0 (span_of result.span)
            (scope_number result.scope_id) result.left result.right result.body result.is_await }
    {
        let contents = node.into_contents();
        let mut emptied_parts = contents.parts;
        let (left, right, body, is_await) = take_four(&mut emptied_parts);
        ForOfStatement {
            node_id: contents.node_id,
            span: contents.span,
            scope_id: scope_id_of(contents.semantic_id),
            left: left.into_child(),
            right: right.into_child(),
            body: body.into_child(),
            is_await: is_await.into_boolean(),
            emptied_parts,
        }
    }

    /// Puts the node together again. Takes no memory.
    pub fn into_node(self) -> Node
        ensures { result ≡ for_of_statement self.node_id.0 (span_of self.span)
            (scope_number self.scope_id) self.left self.right self.body self.is_await }
    {
        let mut parts = self.emptied_parts;
        put_four(
            &mut parts,
            Part::Child(self.left),
            Part::Child(self.right),
            Part::Child(self.body),
            Part::Boolean(self.is_await),
        );
        Node::new(
            Kind::ForOfStatement,
            Contents {
                node_id: self.node_id,
                span: self.span,
                semantic_id: scope_number(self.scope_id),
                parts,
            },
        )
    }
}

/// `ForOfStatement`, borrowed.
#[derive(Clone, Copy)]
pub struct ForOfStatementRef<'a> {
    pub node_id: NodeId,
    pub span: Option<Span>,
    pub scope_id: Option<ScopeId>,
    pub left: &'a Node,
    pub right: &'a Node,
    pub body: &'a Node,
    pub is_await: bool,
}

impl<'a> ForOfStatementRef<'a> {
    /// Reads a node of this kind.
    pub fn from_node(node: &'a Node) -> ForOfStatementRef<'a>
        requires { kind_of node.now ≡ Kind.ForOfStatement }
        ensures { node.now ≡ for_of_statement result.node_id.0 (span_of result.span)
            (scope_number result.scope_id) result.left.now result.right.now result.body.now
            result.is_await }
    {
        match node.parts() {
            [left, right, body, is_await] => ForOfStatementRef {
                node_id: node.node_id(),
                span: node.span(),
                scope_id: scope_id_of(node.semantic_id()),
                left: left.as_child(),
                right: right.as_child(),
                body: body.as_child(),
                is_await: is_await.as_boolean(),
            },
            _ => unreachable!(),
        }
    }
}

/// Makes a node of this kind, which has no number yet: `for (left of right) body` or `for await
/// (left of right) body` (ECMA-262, 14.7.5). Fails on allocation failure alone.
pub fn make_for_of_statement(
    alloc: Global,
    left: Node,
    right: Node,
    body: Node,
    is_await: bool,
) -> Result<Node, AllocError>
    ensures { IfOk result (λ t. t ≡ for_of_statement unnumbered None None left right body
        is_await) }
{
    let parts = vec![in alloc;
        Part::Child(left),
        Part::Child(right),
        Part::Child(body),
        Part::Boolean(is_await),
    ]?;
    Ok(Node::new(
        Kind::ForOfStatement,
        Contents {
            node_id: NodeId::DUMMY,
            span: None,
            semantic_id: None,
            parts: List::from_vec(parts),
        },
    ))
}

/// `var`, `let` or `const` with its declarators (ECMA-262, 14.3).
#[derive(Drop)]
pub struct VariableDeclaration {
    pub node_id: NodeId,
    pub span: Option<Span>,
    pub kind: VariableDeclarationKind,
    pub declarations: List<Node>,
    emptied_parts: List<Part>,
    ghost part_count: { length emptied_parts ≡ 2 },
}

impl VariableDeclaration {
    /// Takes a node of this kind apart.
    pub fn from_node(node: Node) -> VariableDeclaration
        requires { kind_of node ≡ Kind.VariableDeclaration }
        ensures { node ≡ variable_declaration result.node_id.0 (span_of result.span) result.kind
            result.declarations }
    {
        let contents = node.into_contents();
        let mut emptied_parts = contents.parts;
        let (kind, declarations) = take_two(&mut emptied_parts);
        VariableDeclaration {
            node_id: contents.node_id,
            span: contents.span,
            kind: kind.into_variable_declaration_kind(),
            declarations: declarations.into_list(),
            emptied_parts,
        }
    }

    /// Puts the node together again. Takes no memory.
    pub fn into_node(self) -> Node
        ensures { result ≡ variable_declaration self.node_id.0 (span_of self.span) self.kind
            self.declarations }
    {
        let mut parts = self.emptied_parts;
        put_two(
            &mut parts,
            Part::Word(Word::VariableDeclarationKind(self.kind)),
            Part::List(self.declarations),
        );
        Node::new(
            Kind::VariableDeclaration,
            Contents {
                node_id: self.node_id,
                span: self.span,
                semantic_id: None,
                parts,
            },
        )
    }
}

/// `VariableDeclaration`, borrowed.
#[derive(Clone, Copy)]
pub struct VariableDeclarationRef<'a> {
    pub node_id: NodeId,
    pub span: Option<Span>,
    pub kind: VariableDeclarationKind,
    pub declarations: &'a [Node],
}

impl<'a> VariableDeclarationRef<'a> {
    /// Reads a node of this kind.
    pub fn from_node(node: &'a Node) -> VariableDeclarationRef<'a>
        requires { kind_of node.now ≡ Kind.VariableDeclaration }
        ensures { node.now ≡ variable_declaration result.node_id.0 (span_of result.span) result.kind
            result.declarations.now }
    {
        match node.parts() {
            [kind, declarations] => VariableDeclarationRef {
                node_id: node.node_id(),
                span: node.span(),
                kind: kind.as_variable_declaration_kind(),
                declarations: declarations.as_list(),
            },
            _ => unreachable!(),
        }
    }
}

/// Makes a node of this kind, which has no number yet: `var`, `let` or `const` with its declarators
/// (ECMA-262, 14.3). Fails on allocation failure alone.
pub fn make_variable_declaration(
    alloc: Global,
    kind: VariableDeclarationKind,
    declarations: List<Node>,
) -> Result<Node, AllocError>
    ensures { IfOk result (λ t. t ≡ variable_declaration unnumbered None kind declarations) }
{
    let parts = vec![in alloc;
        Part::Word(Word::VariableDeclarationKind(kind)),
        Part::List(declarations),
    ]?;
    Ok(Node::new(
        Kind::VariableDeclaration,
        Contents {
            node_id: NodeId::DUMMY,
            span: None,
            semantic_id: None,
            parts: List::from_vec(parts),
        },
    ))
}

/// `id = init` in a variable declaration (ECMA-262, 14.3).
#[derive(Drop)]
pub struct VariableDeclarator {
    pub node_id: NodeId,
    pub span: Option<Span>,
    pub id: Node,
    pub init: Option<Node>,
    emptied_parts: List<Part>,
    ghost part_count: { length emptied_parts ≡ 2 },
}

impl VariableDeclarator {
    /// Takes a node of this kind apart.
    pub fn from_node(node: Node) -> VariableDeclarator
        requires { kind_of node ≡ Kind.VariableDeclarator }
        ensures { node ≡ variable_declarator result.node_id.0 (span_of result.span) result.id
            result.init }
    {
        let contents = node.into_contents();
        let mut emptied_parts = contents.parts;
        let (id, init) = take_two(&mut emptied_parts);
        VariableDeclarator {
            node_id: contents.node_id,
            span: contents.span,
            id: id.into_child(),
            init: init.into_nullable(),
            emptied_parts,
        }
    }

    /// Puts the node together again. Takes no memory.
    pub fn into_node(self) -> Node
        ensures { result ≡ variable_declarator self.node_id.0 (span_of self.span) self.id
            self.init }
    {
        let mut parts = self.emptied_parts;
        put_two(&mut parts, Part::Child(self.id), nullable_part(self.init));
        Node::new(
            Kind::VariableDeclarator,
            Contents {
                node_id: self.node_id,
                span: self.span,
                semantic_id: None,
                parts,
            },
        )
    }
}

/// `VariableDeclarator`, borrowed.
#[derive(Clone, Copy)]
pub struct VariableDeclaratorRef<'a> {
    pub node_id: NodeId,
    pub span: Option<Span>,
    pub id: &'a Node,
    pub init: Option<&'a Node>,
}

impl<'a> VariableDeclaratorRef<'a> {
    /// Reads a node of this kind.
    pub fn from_node(node: &'a Node) -> VariableDeclaratorRef<'a>
        requires { kind_of node.now ≡ Kind.VariableDeclarator }
        ensures { node.now ≡ variable_declarator result.node_id.0 (span_of result.span)
            result.id.now (option_map (λ x. x.now) result.init) }
    {
        match node.parts() {
            [id, init] => VariableDeclaratorRef {
                node_id: node.node_id(),
                span: node.span(),
                id: id.as_child(),
                init: init.as_nullable(),
            },
            _ => unreachable!(),
        }
    }
}

/// Makes a node of this kind, which has no number yet: `id = init` in a variable declaration
/// (ECMA-262, 14.3). Fails on allocation failure alone.
pub fn make_variable_declarator(
    alloc: Global,
    id: Node,
    init: Option<Node>,
) -> Result<Node, AllocError>
    ensures { IfOk result (λ t. t ≡ variable_declarator unnumbered None id init) }
{
    let parts = vec![in alloc; Part::Child(id), nullable_part(init)]?;
    Ok(Node::new(
        Kind::VariableDeclarator,
        Contents {
            node_id: NodeId::DUMMY,
            span: None,
            semantic_id: None,
            parts: List::from_vec(parts),
        },
    ))
}
