// Constructors, which get the initializers of instance fields.

use crate::builders::{create_binding, create_declarator, create_reference, create_statement};
use crate::instance_prop_init::rename_clashing_symbols;
use crate::names::Naming;
use crate::rewrite::{Rewriter, rewrite_statements, with_number};
use crate::static_block_and_prop_init::has_outer_this;
use crate::utils::{append, directive_count, exprs_into_stmts, with_nodes_at};
use es_base::ids::{NodeId, ScopeId};
use es_base::kind::Kind;
use es_base::ledger::GeneratedKind;
use es_base::list::List;
use es_base::name::Name;
use es_base::operator::{MethodDefinitionKind, VariableDeclarationKind};
use es_builders::builders::create_call_call;
use es_node::node::Node;
use es_tree::class::{MethodDefinition, MethodDefinitionRef, make_method_definition};
use es_tree::expression::{
    CallExpression, CallExpressionRef, make_call_expression, make_sequence_expression,
    make_spread_element, make_super, make_this_expression,
};
use es_tree::function::{
    FunctionExpression, FunctionExpressionRef, make_arrow_function_expression,
    make_function_expression,
};
use es_tree::identifier::make_identifier_name;
use es_tree::pattern::make_rest_element;
use es_tree::statement::{
    BlockStatement, ExpressionStatementRef, make_block_statement, make_variable_declaration,
};
use es_visit::roles::Role;
use es_visit::visit::{Visit, walk_node};
use std::alloc::{AllocError, Global};
use std::mem;

/// The elements of a class, whose constructor does what these initializers do: in a base class in front of all else, in a derived
/// one behind `super(..)`. A class without a constructor gets one, as its first element.
pub fn insert_instance_inits(
    names: &mut Naming,
    class: NodeId,
    has_super_class: bool,
    elements: List<Node>,
    inits: List<Node>,
) -> Result<List<Node>, AllocError> {
    let alloc = names.alloc;
    let mut inits = inits;
    let mut kept = List::new(alloc);
    let mut has_constructor = false;
    for element in elements.into_vec() {
        if is_constructor(&element) {
            has_constructor = true;
            let inits = mem::replace(&mut inits, List::new(alloc));
            kept.push(insert_into(names, class, has_super_class, element, inits)?)?;
        } else {
            kept.push(element)?;
        }
    }
    if !has_constructor {
        kept.insert(0, create_constructor(names, has_super_class, inits)?)?;
    }
    Ok(kept)
}

fn is_constructor(element: &Node) -> bool {
    match element.kind() {
        Kind::MethodDefinition => {
            MethodDefinitionRef::from_node(element).kind == MethodDefinitionKind::Constructor
        }
        _ => false,
    }
}

/// `constructor() { inits }`, and in a derived class `constructor(..._args) { super(..._args); inits }`
fn create_constructor(
    names: &mut Naming,
    has_super_class: bool,
    inits: List<Node>,
) -> Result<Node, AllocError> {
    let alloc = names.alloc;
    let mut params = List::new(alloc);
    let mut statements = List::new(alloc);
    if has_super_class {
        let args = names.generate("args", GeneratedKind::Args)?;
        params.push(make_rest_element(alloc, create_binding(alloc, &args)?)?)?;
        let call = create_super_call(alloc, &args)?;
        statements.push(create_statement(alloc, call)?)?;
    }
    append(&mut statements, exprs_into_stmts(alloc, inits)?)?;
    let key = make_identifier_name(alloc, Name::from_ascii(alloc, "constructor")?)?;
    let body = make_block_statement(alloc, statements)?;
    let function = make_function_expression(alloc, None, params, body, false, false)?;
    let kind = MethodDefinitionKind::Constructor;
    make_method_definition(alloc, key, function, kind, false, false)
}

/// `super(..._args)`
fn create_super_call(alloc: Global, args: &Name) -> Result<Node, AllocError> {
    let spread = make_spread_element(alloc, create_reference(alloc, args)?)?;
    let arguments = List::from_vec(vec![in alloc; spread]?);
    make_call_expression(alloc, make_super(alloc)?, arguments, false)
}

/// Whether a class has a constructor that calls `super` in its parameters.
pub fn calls_super_in_parameters(elements: &[Node]) -> bool {
    for element in elements {
        if is_constructor(element) && has_super_in_parameters(element) {
            return true;
        }
    }
    false
}

// constructor(a = super(..)) {}
fn has_super_in_parameters(constructor: &Node) -> bool {
    match constructor.kind() {
        Kind::MethodDefinition => {
            let function = MethodDefinitionRef::from_node(constructor).value;
            match function.kind() {
                Kind::FunctionExpression => {
                    let params = FunctionExpressionRef::from_node(function).params;
                    calls_super(Role::Other, params)
                }
                _ => false,
            }
        }
        _ => false,
    }
}

/// A constructor with these initializers.
fn insert_into(
    names: &mut Naming,
    class: NodeId,
    has_super_class: bool,
    constructor: Node,
    inits: List<Node>,
) -> Result<Node, AllocError> {
    match constructor.kind() {
        Kind::MethodDefinition => {
            let mut method = MethodDefinition::from_node(constructor);
            let mut inits = inits;
            let scope = scope_of(&method.value);
            method.value = rename_clashing_symbols(names, method.value, scope, &mut inits)?;
            method.value = insert_into_function(
                names,
                class,
                has_super_class,
                method.value,
                inits,
            )?;
            Ok(method.into_node())
        }
        _ => Ok(constructor),
    }
}

/// The scope of a function.
fn scope_of(function: &Node) -> Option<ScopeId> {
    match function.kind() {
        Kind::FunctionExpression => FunctionExpressionRef::from_node(function).scope_id,
        _ => None,
    }
}

fn insert_into_function(
    names: &mut Naming,
    class: NodeId,
    has_super_class: bool,
    function: Node,
    inits: List<Node>,
) -> Result<Node, AllocError> {
    match function.kind() {
        Kind::FunctionExpression => {
            let mut function = FunctionExpression::from_node(function);
            function.body = insert_into_body(names, class, has_super_class, function.body, inits)?;
            Ok(function.into_node())
        }
        _ => Ok(function),
    }
}

fn insert_into_body(
    names: &mut Naming,
    class: NodeId,
    has_super_class: bool,
    body: Node,
    inits: List<Node>,
) -> Result<Node, AllocError> {
    match body.kind() {
        Kind::BlockStatement => {
            let mut body = BlockStatement::from_node(body);
            body.body = insert_into_statements(names, class, has_super_class, body.body, inits)?;
            Ok(body.into_node())
        }
        _ => Ok(body),
    }
}

fn insert_into_statements(
    names: &mut Naming,
    class: NodeId,
    has_super_class: bool,
    statements: List<Node>,
    inits: List<Node>,
) -> Result<List<Node>, AllocError> {
    let alloc = names.alloc;
    if !has_super_class {
        let place = directive_count(statements.as_slice());
        return with_nodes_at(alloc, statements, place, exprs_into_stmts(alloc, inits)?);
    }
    match place_behind_super(statements.as_slice()) {
        Some(place) => with_nodes_at(alloc, statements, place, exprs_into_stmts(alloc, inits)?),
        None => insert_super_function(names, class, statements, inits),
    }
}

/// The place behind the first statement `super(..);`, where nothing in front of it or in its arguments calls `super`.
fn place_behind_super(statements: &[Node]) -> Option<usize> {
    for (place, statement) in statements.iter().enumerate() {
        if is_super_statement(statement) {
            return Some(place + 1);
        }
        if calls_super_in(statement) {
            return None;
        }
    }
    None
}

// super(..);
fn is_super_statement(statement: &Node) -> bool {
    match statement.kind() {
        Kind::ExpressionStatement => {
            is_plain_super_call(ExpressionStatementRef::from_node(statement).expression)
        }
        _ => false,
    }
}

// super(..), whose arguments call no super
fn is_plain_super_call(expression: &Node) -> bool {
    match expression.kind() {
        Kind::CallExpression => {
            let call = CallExpressionRef::from_node(expression);
            call.callee.kind() == Kind::Super && !calls_super(Role::Expression, call.arguments)
        }
        _ => false,
    }
}

// super(..)
fn is_call_of_super(node: &Node) -> bool {
    match node.kind() {
        Kind::CallExpression => CallExpressionRef::from_node(node).callee.kind() == Kind::Super,
        _ => false,
    }
}

/// `var _super = (..._args) => (super(..._args), inits, this);` in front of the statements, in which `super(..)` becomes
/// `_super(..)`.
fn insert_super_function(
    names: &mut Naming,
    class: NodeId,
    statements: List<Node>,
    inits: List<Node>,
) -> Result<List<Node>, AllocError> {
    let alloc = names.alloc;
    let name = names.generate("super", GeneratedKind::SuperFn(class))?;
    let args = names.generate("args", GeneratedKind::Args)?;
    let mut expressions = List::new(alloc);
    expressions.push(create_super_call(alloc, &args)?)?;
    append(&mut expressions, inits)?;
    expressions.push(make_this_expression(alloc)?)?;
    let body = make_sequence_expression(alloc, expressions)?;
    let rest = make_rest_element(alloc, create_binding(alloc, &args)?)?;
    let params = List::from_vec(vec![in alloc; rest]?);
    let arrow = make_arrow_function_expression(alloc, params, body, false)?;
    let declarator = create_declarator(alloc, &name, Some(arrow))?;
    let declarators = List::from_vec(vec![in alloc; declarator]?);
    let declaration = make_variable_declaration(alloc, VariableDeclarationKind::Var, declarators)?;
    let mut statements = statements;
    let mut rewriter = SuperRewriter {
        alloc,
        name,
        is_outside: false,
    };
    rewrite_statements(&mut rewriter, &mut statements)?;
    let place = directive_count(statements.as_slice());
    let declarations = List::from_vec(vec![in alloc; declaration]?);
    with_nodes_at(alloc, statements, place, declarations)
}

/// `super(..)` becomes `_super(..)`, and `_super.call(super(..))` where that is a function outside of the class.
#[derive(Drop)]
pub struct SuperRewriter {
    pub alloc: Global,
    pub name: Name,
    pub is_outside: bool,
}

impl Rewriter for SuperRewriter {
    fn goes_into(&mut self, node: &Node) -> Result<bool, AllocError> {
        Ok(has_outer_this(node))
    }

    fn rewrite_expression(&mut self, node: &mut Node) -> Result<(), AllocError> {
        if !is_call_of_super(node) {
            return Ok(());
        }
        let function = create_reference(self.alloc, &self.name)?;
        if self.is_outside {
            return wrap(self.alloc, function, node);
        }
        *node = with_callee(node.take(), function);
        Ok(())
    }

    fn rewrite_reference(&mut self, _node: &mut Node) -> Result<(), AllocError> {
        Ok(())
    }

    fn rewrite_binding(&mut self, _node: &mut Node) -> Result<(), AllocError> {
        Ok(())
    }
}

/// A call of another function.
fn with_callee(call: Node, function: Node) -> Node {
    match call.kind() {
        Kind::CallExpression => {
            let mut call = CallExpression::from_node(call);
            call.callee = function;
            call.into_node()
        }
        _ => call,
    }
}

/// `super(..)` becomes `_super.call(super(..))`, which takes its number.
fn wrap(alloc: Global, function: Node, node: &mut Node) -> Result<(), AllocError> {
    let (number, span) = (node.node_id(), node.span());
    let call = with_number(node.take(), NodeId::DUMMY, None);
    let wrapped = create_call_call(alloc, function, call)?;
    *node = with_number(wrapped, number, span);
    Ok(())
}

/// Whether a statement calls `super`.
fn calls_super_in(statement: &Node) -> bool {
    let mut search = SuperSearch { is_found: false };
    walk_node(&mut search, Role::Statement, statement);
    search.is_found
}

/// Whether one of these nodes, which stand in this role, calls `super`.
fn calls_super(role: Role, nodes: &[Node]) -> bool {
    let mut search = SuperSearch { is_found: false };
    for node in nodes {
        walk_node(&mut search, role, node);
    }
    search.is_found
}

/// Whether `super(..)` was met.
#[derive(Clone, Copy)]
struct SuperSearch {
    is_found: bool,
}

impl Visit for SuperSearch {
    ghost use Rattle.es2022.specs.Searched.{outside_functions};

    ghost goes = { outside_functions };

    ghost leads = { λ s entries e. Unit {0} };

    // super(..)
    fn visit_expression(&mut self, node: &Node) -> bool {
        if is_call_of_super(node) {
            self.is_found = true;
        }
        true
    }

    fn visit_class(&mut self, _node: &Node) -> bool {
        true
    }

    fn visit_function(&mut self, _node: &Node) -> bool {
        false
    }

    fn visit_arrow(&mut self, _node: &Node) -> bool {
        true
    }

    fn visit_identifier_reference(&mut self, _node: &Node) -> bool {
        true
    }

    fn visit_await(&mut self, _node: &Node) -> bool {
        true
    }

    fn visit_yield(&mut self, _node: &Node) -> bool {
        true
    }
}
