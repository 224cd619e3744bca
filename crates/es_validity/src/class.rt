// What is asked of a class.

ghost use Rattle.std.specs.Prelude.{◌≡◌, MatchOption};
ghost use Rattle.es_base.specs.Tree.{Parts, more, child, trees, nullable, nullable_trees};
ghost use Rattle.es_base.specs.Words.{method_definition_kind_string};
ghost use Rattle.es_base.specs.declared.kind.Kind.{Kind};
ghost use Rattle.es_node.specs.View.{kind_of, parts_in, part_of, parts_of};
ghost use Rattle.es_steps.specs.Context.{is_constructor, is_super_call, holds_super, part_holds_super, parts_hold_super};
ghost use Rattle.es_steps.specs.LoweredClasses.{constructor_function, constructor_in};
ghost use Rattle.es_validity.specs.Around.{parameters_hold_super};

use crate::parts::is_super;
use es_base::kind::Kind;
use es_base::operator::MethodDefinitionKind;
use es_node::node::{Node, Part};
use es_tree::class::{ClassBodyRef, MethodDefinitionRef};
use es_tree::expression::CallExpressionRef;
use es_tree::function::FunctionExpressionRef;

/// Whether a method is a constructor.
pub fn is_constructor(kind: MethodDefinitionKind) -> bool
    ensures { result ≡ is_constructor (method_definition_kind_string kind) }
{
    match kind {
        MethodDefinitionKind::Constructor => true,
        MethodDefinitionKind::Method | MethodDefinitionKind::Get | MethodDefinitionKind::Set =>
            false,
    }
}

/// Whether the constructor of a class with this body has `super()` in its parameters.
#[tactic(auto, using(crate::proofs::OfKinds::no_class_body))]
pub fn constructor_holds_super(body: &Node) -> bool
    ensures { result ≡ parameters_hold_super (constructor_in (child body.now)) }
{
    match body.kind() {
        Kind::ClassBody => elements_hold_super(ClassBodyRef::from_node(body).body),
        _ => false,
    }
}

/// The same of these elements.
fn elements_hold_super(elements: &[Node]) -> bool
    ensures { result ≡ parameters_hold_super (constructor_function (trees elements.now)) }
{
    for element in elements {
        if let Some(function) = constructor_function(element) {
            return parameters_hold_super(function);
        }
    }
    false
}

/// The function of a constructor; nothing for any other element.
#[tactic(auto, using(crate::proofs::OfKinds::no_constructor))]
fn constructor_function(element: &Node) -> Option<&Node>
    ensures { MatchOption result
        ((rest : Parts) → constructor_function (more (child element.now) rest) ≡ constructor_function rest)
        (λ f. (rest : Parts) → constructor_function (more (child element.now) rest) ≡ child f.now) }
{
    match element.kind() {
        Kind::MethodDefinition => {
            let method = MethodDefinitionRef::from_node(element);
            if is_constructor(method.kind) {
                Some(method.value)
            } else {
                None
            }
        }
        _ => None,
    }
}

/// Whether `super()` stands in the parameters of a function.
#[tactic(auto, using(crate::proofs::OfKinds::no_function))]
fn parameters_hold_super(function: &Node) -> bool
    ensures { result ≡ parameters_hold_super (child function.now) }
{
    match function.kind() {
        Kind::FunctionExpression => {
            list_holds_super(FunctionExpressionRef::from_node(function).params)
        }
        _ => false,
    }
}

/// `super(..)`.
#[tactic(auto, using(crate::proofs::OfKinds::super_call_part, crate::proofs::OfKinds::no_super_call))]
pub fn is_super_call(node: &Node) -> bool
    ensures { result ≡ is_super_call (kind_of node.now) (parts_in node.now) }
{
    match node.kind() {
        Kind::CallExpression => is_super(CallExpressionRef::from_node(node).callee),
        _ => false,
    }
}

/// Whether a `super(..)` is or stands in the node, outside functions that are no arrows.
#[cycle(holds_super)]
#[tactic(auto, using(crate::proofs::OfKinds::holds_elsewhere, es_node::proofs::Below::nodes_in))]
pub fn node_holds_super(node: &Node) -> bool
    ensures { result ≡ holds_super node.now }
{
    if is_super_call(node) {
        return true;
    }
    match node.kind() {
        Kind::FunctionDeclaration | Kind::FunctionExpression => false,
        _ => parts_hold_super(node.parts()),
    }
}

#[cycle(holds_super)]
fn parts_hold_super(parts: &[Part]) -> bool
    ensures { result ≡ parts_hold_super (parts_of parts.now) }
{
    for part in parts {
        if part_holds_super(part) {
            return true;
        }
    }
    false
}

/// The same of a part.
#[cycle(holds_super)]
pub fn part_holds_super(part: &Part) -> bool
    ensures { result ≡ part_holds_super (part_of part.now) }
{
    match part {
        Part::Child(node) => node_holds_super(node),
        Part::List(nodes) => list_holds_super(nodes.as_slice()),
        Part::Holes(nodes) => list_with_holes_holds_super(nodes.as_slice()),
        _ => false,
    }
}

/// The same of the nodes of a list.
#[cycle(holds_super)]
pub fn list_holds_super(nodes: &[Node]) -> bool
    ensures { result ≡ parts_hold_super (trees nodes.now) }
{
    for node in nodes {
        if node_holds_super(node) {
            return true;
        }
    }
    false
}

#[cycle(holds_super)]
fn list_with_holes_holds_super(nodes: &[Option<Node>]) -> bool
    ensures { result ≡ parts_hold_super (nullable_trees nodes.now) }
{
    for node in nodes {
        if hole_holds_super(node) {
            return true;
        }
    }
    false
}

#[cycle(holds_super)]
fn hole_holds_super(node: &Option<Node>) -> bool
    ensures { result ≡ part_holds_super (nullable node.now) }
{
    match node {
        Some(node) => node_holds_super(node),
        None => false,
    }
}
