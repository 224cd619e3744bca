// What gives generated names their values.

ghost use Rattle.std.specs.Prelude.{◌≡◌, ◌++◌, ◌∷◌, [], cond, IfOk, OnOk, option_map};
ghost use Rattle.std.specs.Str.{chars};
ghost use Rattle.es_base.specs.Tree.{child, nullable};
ghost use Rattle.es_binding_faults.specs.Seen.{seen};
ghost use Rattle.es_node.specs.View.{kind_of, number_in, parts_in};
ghost use Rattle.es_owed_initialized.specs.Initial.{pairs_in, pairs_of};
ghost use Rattle.es_lowered.specs.Lowered as spec;

use crate::class_names::names_class;
use crate::forms::{
    has_field_value, is_function_value, is_key_call, is_new_weak_map, is_new_weak_set,
};
use crate::generated::Generated;
use crate::spelling::spelling_of;
use es_base::kind::Kind;
use es_base::ledger::GeneratedKind;
use es_base::strings::is_word;
use es_node::node::Node;
use es_tree::class::{ClassDeclarationRef, ClassExpressionRef};
use es_tree::expression::AssignmentExpressionRef;
use es_tree::function::{FunctionDeclarationRef, FunctionExpressionRef};
use es_tree::statement::VariableDeclaratorRef;
use std::alloc::{AllocError, Global};

/// A node that gives a name a value, and whether that has the form of what the name stands for.
#[derive(Debug, Clone, Copy)]
pub struct Initialization {
    pub number: u32,
    pub is_right: bool,
}

/// What gives a name of this kind a value in the lowered program. Fails on allocation failure alone.
pub fn initializations(
    alloc: Global,
    names: &Generated,
    name: &str,
    kind: GeneratedKind,
) -> Result<Vec<Initialization>, AllocError>
    ensures { IfOk result (λ r. pairs_of r.items ≡ spec.initializations names.now.first names.now.ledger.now names.now.lowered.now.program.now (chars name.now) kind (seen names.now.lowered.now.nodes.items)) }
{
    initializations_among(alloc, names, name, kind, names.giving(name))
}

/// The same among these nodes. Fails on allocation failure alone.
#[tactic(auto, using(crate::proofs::GivenValues::more_initializations))]
fn initializations_among(
    alloc: Global,
    names: &Generated,
    name: &str,
    kind: GeneratedKind,
    nodes: &[&Node],
) -> Result<Vec<Initialization>, AllocError>
    ensures { IfOk result (λ r. pairs_of r.items ≡ spec.initializations names.now.first names.now.ledger.now names.now.lowered.now.program.now (chars name.now) kind (seen nodes.now)) }
{
    let mut found = Vec::new(alloc);
    for node in nodes {
        add_some(initialization_at(names, name, kind, node), &mut found)?;
    }
    Ok(found)
}

fn add_some(one: Option<Initialization>, found: &mut Vec<Initialization>) -> Result<(), AllocError>
    ensures { OnOk result (pairs_of found.new.items ≡ pairs_of found.old.items ++ pairs_in one) }
{
    if let Some(one) = one {
        found.push(one)?;
    }
    Ok(())
}

/// Whether and how the node gives a name of this kind a value.
#[tactic(auto, using(crate::proofs::GivenValues::by_assignment, crate::proofs::GivenValues::by_declarator, crate::proofs::GivenValues::by_empty_declarator, crate::proofs::GivenValues::by_function, crate::proofs::GivenValues::by_class, crate::proofs::GivenValues::by_class_expression, crate::proofs::GivenValues::by_own_name, crate::proofs::GivenValues::by_none))]
fn initialization_at(
    names: &Generated,
    name: &str,
    kind: GeneratedKind,
    node: &Node,
) -> Option<Initialization>
    ensures { pairs_in result ≡ spec.initialization_at names.now.first names.now.ledger.now names.now.lowered.now.program.now (chars name.now) kind (kind_of node.now) (number_in node.now) (parts_in node.now) }
{
    match node.kind() {
        // _m = function () {}
        Kind::AssignmentExpression => {
            let assignment = AssignmentExpressionRef::from_node(node);
            let is_given = is_spelled(name, Some(assignment.left));
            given(names, kind, is_given, node, assignment.right)
        }
        // let _w = new WeakMap();
        Kind::VariableDeclarator => {
            let declarator = VariableDeclaratorRef::from_node(node);
            match declarator.init {
                Some(value) => {
                    let is_given = is_spelled(name, Some(declarator.id));
                    given(names, kind, is_given, node, value)
                }
                None => None,
            }
        }
        // function _m() {}
        Kind::FunctionDeclaration => {
            let id = FunctionDeclarationRef::from_node(node).id;
            declared(node, is_spelled(name, id), is_method(kind))
        }
        // class A {}
        Kind::ClassDeclaration => {
            let id = ClassDeclarationRef::from_node(node).id;
            let is_right = is_class_temporary(node.node_id().0, kind);
            declared(node, is_spelled(name, id), is_right)
        }
        // (class A {})
        Kind::ClassExpression => {
            let id = ClassExpressionRef::from_node(node).id;
            let is_right = is_class_temporary(node.node_id().0, kind);
            declared(node, is_spelled(name, id), is_right)
        }
        // (function f() {}): the name is constant
        Kind::FunctionExpression => {
            let id = FunctionExpressionRef::from_node(node).id;
            declared(node, is_spelled(name, id), false)
        }
        _ => None,
    }
}

/// Whether the node is an identifier of this name.
fn is_spelled(name: &str, node: Option<&Node>) -> bool
    ensures { result ≡ spec.spelled_as (chars name.now) (nullable (option_map (λ x. x.now) node.entry)) }
{
    is_word(spelling_of(node), name)
}

/// A node that declares a name, if it does.
fn declared(node: &Node, is_declared: bool, is_right: bool) -> Option<Initialization>
    ensures { pairs_in result ≡ cond is_declared ((number_in node.now, is_right) ∷ []) [] }
{
    if is_declared {
        Some(Initialization {
            number: node.node_id().0,
            is_right,
        })
    } else {
        None
    }
}

/// A node that gives a name of this kind the value, if it does.
fn given(
    names: &Generated,
    kind: GeneratedKind,
    is_given: bool,
    node: &Node,
    value: &Node,
) -> Option<Initialization>
    ensures { pairs_in result ≡ cond is_given ((number_in node.now, spec.is_initial names.now.first names.now.ledger.now names.now.lowered.now.program.now (number_in node.now) kind (child value.now)) ∷ []) [] }
{
    if is_given {
        let number = node.node_id().0;
        let is_right = is_initial(names, number, kind, value);
        Some(Initialization { number, is_right })
    } else {
        None
    }
}

fn is_method(kind: GeneratedKind) -> bool
    ensures { result ≡ spec.is_method_kind kind }
{
    matches!(kind, GeneratedKind::Method(_))
}

fn is_class_temporary(class: u32, kind: GeneratedKind) -> bool
    ensures { result ≡ spec.is_class_kind class kind }
{
    match kind {
        GeneratedKind::ClassTemp(other) => class == other.0,
        _ => false,
    }
}

// ---- forms

/// Whether the value has the form that a name of this kind is given by this node.
fn is_initial(names: &Generated, number: u32, kind: GeneratedKind, value: &Node) -> bool
    ensures { result ≡ spec.is_initial names.now.first names.now.ledger.now names.now.lowered.now.program.now number kind (child value.now) }
{
    match kind {
        // new WeakMap()
        GeneratedKind::WeakMap(_) => is_new_weak_map(value),
        // { _: 1 }
        GeneratedKind::StaticField(_) => has_field_value(value),
        // new WeakSet()
        GeneratedKind::Brand(_) => is_new_weak_set(value),
        // babelHelpers.classPrivateFieldLooseKey("a")
        GeneratedKind::LooseKey(_) => is_key_call(names.first, value),
        // function () {}
        GeneratedKind::Method(_) => is_function_value(value),
        GeneratedKind::SuperFn(_) => is_function_value(value),
        GeneratedKind::Closure => is_function_value(value),
        // A
        GeneratedKind::ClassTemp(class) => is_class_value(names, number, class.0, value),
        GeneratedKind::Temp => true,
        GeneratedKind::Param => true,
        GeneratedKind::Args => true,
        GeneratedKind::Private(_) => true,
    }
}

/// Whether the value is the class itself, or, in the statement behind its declaration, a name of it.
fn is_class_value(names: &Generated, number: u32, class: u32, value: &Node) -> bool
    ensures { result ≡ spec.is_class_value names.now.first names.now.ledger.now names.now.lowered.now.program.now number class (child value.now) }
{
    if is_class_itself(class, value) {
        return true;
    }
    let identifiers = names.identifiers.get(class);
    names_class(
        class,
        names.ledger,
        &names.lowered.references,
        identifiers,
        value,
    ) && names.stands_behind(number, class)
}

/// Whether the value is this class expression.
#[tactic(auto, using(crate::proofs::GivenValues::class_itself, crate::proofs::GivenValues::no_class_itself))]
fn is_class_itself(class: u32, value: &Node) -> bool
    ensures { result ≡ spec.is_class_itself class (child value.now) }
{
    match value.kind() {
        // (class {})
        Kind::ClassExpression => class == value.node_id().0,
        _ => false,
    }
}
