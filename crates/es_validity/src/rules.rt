// The rules that a node may break: early errors of ECMA-262, and forms that ESTree does not have.

ghost use Rattle.std.specs.Prelude.{◌≡◌, bytes_eq, codes};
ghost use Rattle.es_base.specs.declared.kind.Kind.{Kind};
ghost use Rattle.es_base.specs.Words.{unary_operator_string};
ghost use Rattle.es_node.specs.View.{kind_of, parts_in};
ghost use Rattle.es_steps.specs.Printable as printable;
ghost use Rattle.es_validity.specs.Known.{around_of};
ghost use Rattle.es_validity.specs.Owners as owners;
ghost use Rattle.es_validity.specs.Rules as rules;

use crate::around::{Around, Owner, Position};
use crate::class::{is_constructor, is_super_call};
use crate::fault::TreeRule;
use crate::inside::is_spine;
use crate::jumps::is_stray;
use crate::parts::{
    ends_in_private, has_id, has_optional, is_spelled, is_string, is_super, is_super_member,
    is_suspending,
};
use es_base::kind::Kind;
use es_base::operator::{UnaryOperator, VariableDeclarationKind};
use es_node::node::Node;
use es_tree::class::{ClassDeclarationRef, MethodDefinitionRef, PropertyDefinitionRef};
use es_tree::expression::{
    CallExpressionRef, ChainExpressionRef, MemberExpressionRef, PrivateFieldRef, UnaryExpressionRef,
};
use es_tree::function::FunctionDeclarationRef;
use es_tree::identifier::{IdentifierReferenceRef, PrivateIdentifierRef};
use es_tree::statement::{ForOfStatementRef, VariableDeclarationRef};

/// The first of the rules that a node breaks; second constructors and names are not looked for here.
pub fn broken_rule(around: &Around, node: &Node) -> Option<TreeRule>
    ensures { result ≡ rules.broken_rule (around_of around.now) (kind_of node.now) (parts_in node.now) }
{
    if breaks_constructor_form(node) {
        Some(TreeRule::ConstructorForm)
    } else if breaks_private_constructor(node) {
        Some(TreeRule::PrivateConstructor)
    } else if breaks_super_call(around, node) {
        Some(TreeRule::SuperCall)
    } else if breaks_super_member(around, node) {
        Some(TreeRule::SuperMember)
    } else if breaks_super_private(node) {
        Some(TreeRule::SuperPrivate)
    } else if breaks_delete_private(node) {
        Some(TreeRule::DeletePrivate)
    } else if is_stray(&around.jumps, node) {
        Some(TreeRule::StrayJump)
    } else if breaks_own_arguments(around, node) {
        Some(TreeRule::OwnArguments)
    } else if breaks_await_yield(around, node) {
        Some(TreeRule::AwaitYield)
    } else if breaks_no_name(around, node) {
        Some(TreeRule::NoName)
    } else if breaks_chain_form(around, node) {
        Some(TreeRule::ChainForm)
    } else if breaks_declaration_place(around, node) {
        Some(TreeRule::DeclarationPlace)
    } else if breaks_module_item(around, node.kind()) {
        Some(TreeRule::ModuleItem)
    } else {
        None
    }
}

/// An element of a class whose kind, name and function do not go together.
#[tactic(auto, using(crate::proofs::OfKinds::no_constructor_form))]
fn breaks_constructor_form(node: &Node) -> bool
    ensures { result ≡ rules.breaks_constructor_form (kind_of node.now) (parts_in node.now) }
{
    match node.kind() {
        Kind::MethodDefinition => has_bad_form(node),
        Kind::PropertyDefinition => {
            let field = PropertyDefinitionRef::from_node(node);
            !field.computed
                && (is_spelled("constructor", field.key)
                    || (field.is_static && is_spelled("prototype", field.key)))
        }
        _ => false,
    }
}

/// The same of a method.
fn has_bad_form(method: &Node) -> bool
    requires { kind_of method.now ≡ Kind.MethodDefinition }
    ensures { result ≡ rules.breaks_constructor_form Kind.MethodDefinition (parts_in method.now) }
{
    let method = MethodDefinitionRef::from_node(method);
    let names_constructor = is_spelled("constructor", method.key)
        && !(method.computed || method.is_static);
    let is_bad_constructor = if is_constructor(method.kind) {
        !names_constructor || is_suspending(method.value)
    } else {
        names_constructor
    };
    let names_prototype = method.is_static
        && (!method.computed && is_spelled("prototype", method.key));
    is_bad_constructor || (names_prototype || has_id(method.value))
}

/// `#constructor`.
#[tactic(auto, using(crate::proofs::OfKinds::no_private_constructor))]
fn breaks_private_constructor(node: &Node) -> bool
    ensures { result ≡ rules.breaks_private_constructor (kind_of node.now) (parts_in node.now) }
{
    match node.kind() {
        Kind::PrivateIdentifier => {
            is_string(PrivateIdentifierRef::from_node(node).name, "constructor")
        }
        _ => false,
    }
}

/// `super(..)` whose owner is no constructor of a class with a heritage.
fn breaks_super_call(around: &Around, node: &Node) -> bool
    ensures { result ≡ rules.breaks_super_call (around_of around.now) (kind_of node.now) (parts_in node.now) }
{
    is_super_call(node) && !may_call_super(around.owner)
}

fn may_call_super(owner: Owner) -> bool
    ensures { result ≡ owners.may_call_super owner }
{
    match owner {
        Owner::Constructor { has_heritage } => has_heritage,
        _ => false,
    }
}

/// `super.x` whose owner is no method, constructor, field value or static block.
fn breaks_super_member(around: &Around, node: &Node) -> bool
    ensures { result ≡ rules.breaks_super_member (around_of around.now) (kind_of node.now) (parts_in node.now) }
{
    is_super_member(node) && !may_use_super(around.owner)
}

fn may_use_super(owner: Owner) -> bool
    ensures { result ≡ owners.may_use_super owner }
{
    match owner {
        Owner::Program | Owner::Function => false,
        _ => true,
    }
}

/// `super.#x`.
#[tactic(auto, using(crate::proofs::OfKinds::no_super_private))]
fn breaks_super_private(node: &Node) -> bool
    ensures { result ≡ rules.breaks_super_private (kind_of node.now) (parts_in node.now) }
{
    match node.kind() {
        Kind::PrivateField => is_super(PrivateFieldRef::from_node(node).object),
        _ => false,
    }
}

/// `delete o.#x`, `delete o?.#x`.
#[tactic(auto, using(crate::proofs::OfKinds::no_delete_private))]
fn breaks_delete_private(node: &Node) -> bool
    ensures { result ≡ rules.breaks_delete_private (kind_of node.now) (parts_in node.now) }
{
    match node.kind() {
        Kind::UnaryExpression => {
            let unary = UnaryExpressionRef::from_node(node);
            is_delete(unary.operator) && ends_in_private(unary.argument)
        }
        _ => false,
    }
}

/// Whether an operator is `delete`.
pub fn is_delete(operator: UnaryOperator) -> bool
    ensures { result ≡ bytes_eq (unary_operator_string operator) (codes "delete") }
{
    match operator {
        UnaryOperator::Delete => true,
        _ => false,
    }
}

/// `arguments` in a field value or a static block.
#[tactic(auto, using(crate::proofs::OfKinds::no_own_arguments))]
fn breaks_own_arguments(around: &Around, node: &Node) -> bool
    ensures { result ≡ rules.breaks_own_arguments (around_of around.now) (kind_of node.now) (parts_in node.now) }
{
    match node.kind() {
        Kind::IdentifierReference => {
            is_initializer(around.owner)
                && is_string(IdentifierReferenceRef::from_node(node).name, "arguments")
        }
        _ => false,
    }
}

fn is_initializer(owner: Owner) -> bool
    ensures { result ≡ owners.is_initializer owner }
{
    match owner {
        Owner::FieldValue { .. } | Owner::StaticBlock => true,
        _ => false,
    }
}

/// `await x`, `for await (..) ..` and `yield x` where they may not stand.
#[tactic(auto, using(crate::proofs::OfKinds::await_kind, crate::proofs::OfKinds::yield_kind, crate::proofs::OfKinds::no_await_yield))]
fn breaks_await_yield(around: &Around, node: &Node) -> bool
    ensures { result ≡ rules.breaks_await_yield (around_of around.now) (kind_of node.now) (parts_in node.now) }
{
    match node.kind() {
        Kind::AwaitExpression => !around.awaits,
        Kind::ForOfStatement => ForOfStatementRef::from_node(node).is_await && !around.awaits,
        Kind::YieldExpression => !around.yields,
        _ => false,
    }
}

/// A class or function declaration without a name, outside `export default`.
fn breaks_no_name(around: &Around, node: &Node) -> bool
    ensures { result ≡ rules.breaks_no_name (around_of around.now) (kind_of node.now) (parts_in node.now) }
{
    is_declaration_without_name(node) && !is_default_export(around.position)
}

#[tactic(auto, using(crate::proofs::OfKinds::no_declaration))]
fn is_declaration_without_name(node: &Node) -> bool
    ensures { result ≡ printable.is_declaration_without_name (kind_of node.now) (parts_in node.now) }
{
    match node.kind() {
        Kind::FunctionDeclaration => FunctionDeclarationRef::from_node(node).id.is_none(),
        Kind::ClassDeclaration => ClassDeclarationRef::from_node(node).id.is_none(),
        _ => false,
    }
}

fn is_default_export(position: Position) -> bool
    ensures { result ≡ rules.is_default_export position }
{
    match position {
        Position::DefaultExport => true,
        _ => false,
    }
}

/// `?.` outside the spine of a chain or on `super`, and a chain without `?.`.
#[tactic(auto, using(crate::proofs::OfKinds::no_chain_form))]
fn breaks_chain_form(around: &Around, node: &Node) -> bool
    ensures { result ≡ rules.breaks_chain_form (around_of around.now) (kind_of node.now) (parts_in node.now) }
{
    match node.kind() {
        Kind::MemberExpression => {
            let member = MemberExpressionRef::from_node(node);
            member.optional && (!is_spine(around.position) || is_super(member.object))
        }
        Kind::PrivateField => {
            let member = PrivateFieldRef::from_node(node);
            member.optional && (!is_spine(around.position) || is_super(member.object))
        }
        Kind::CallExpression => {
            let call = CallExpressionRef::from_node(node);
            call.optional && (!is_spine(around.position) || is_super(call.callee))
        }
        Kind::ChainExpression => !has_optional(ChainExpressionRef::from_node(node).expression),
        _ => false,
    }
}

/// `if (x) let y;`
fn breaks_declaration_place(around: &Around, node: &Node) -> bool
    ensures { result ≡ rules.breaks_declaration_place (around_of around.now) (kind_of node.now) (parts_in node.now) }
{
    is_body(around.position) && is_declaration_body(node)
}

fn is_body(position: Position) -> bool
    ensures { result ≡ rules.is_body position }
{
    match position {
        Position::Body => true,
        _ => false,
    }
}

/// `class C {}`, `let x`, `const x`.
#[tactic(auto, using(crate::proofs::OfKinds::class_body_kind, crate::proofs::OfKinds::no_declaration_body))]
fn is_declaration_body(node: &Node) -> bool
    ensures { result ≡ printable.is_declaration_body (kind_of node.now) (parts_in node.now) }
{
    match node.kind() {
        Kind::ClassDeclaration => true,
        Kind::VariableDeclaration => match VariableDeclarationRef::from_node(node).kind {
            VariableDeclarationKind::Var => false,
            VariableDeclarationKind::Let | VariableDeclarationKind::Const => true,
        },
        _ => false,
    }
}

/// An import or export outside the body of a module.
fn breaks_module_item(around: &Around, kind: Kind) -> bool
    ensures { result ≡ rules.breaks_module_item (around_of around.now) kind }
{
    is_module_item(kind) && !is_module_place(around.position)
}

fn is_module_item(kind: Kind) -> bool
    ensures { result ≡ printable.is_module_item kind }
{
    matches!(
        kind,
        Kind::ImportDeclaration
            | Kind::ExportNamedDeclaration
            | Kind::ExportDefaultDeclaration
            | Kind::ExportAllDeclaration
    )
}

fn is_module_place(position: Position) -> bool
    ensures { result ≡ rules.is_module_place position }
{
    match position {
        Position::ModuleItem => true,
        _ => false,
    }
}
