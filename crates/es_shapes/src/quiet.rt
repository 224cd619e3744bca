// Which nodes have events by themselves, and which of their parts are evaluated where they stand.

ghost use Rattle.std.specs.Prelude.{◌≡◌, ◌&&◌, ◌||◌, bytes_eq, codes, not};
ghost use Rattle.es_base.specs.Tree.{child};
ghost use Rattle.es_base.specs.declared.kind.Kind.{Kind};
ghost use Rattle.es_node.specs.View.{kind_of, number_in, parts_in};
ghost use Rattle.es_steps.specs.Expressions as expressions;
ghost use Rattle.es_steps.specs.LoweredClasses.{has_no_items, is_regular_expression, referent_of};
ghost use Rattle.es_steps.specs.Parts.{at, is_true, string_of};
ghost use Rattle.es_steps.specs.Quiet as spec;
ghost use Rattle.es_steps.specs.Quiet.{is_new, is_this, is_constant};
ghost use Rattle.es_steps.specs.References.{resolve, varying, changes_free};
ghost use Rattle.es_steps.specs.Scopes.{is_let};
ghost use Rattle.es_shapes.specs.Around.{ids_in, around};
ghost use Rattle.es_shapes.specs.Quiet as kinds;

use crate::around::{ClassNames, Standing, is_class_around};
use crate::asked::leaves_out_fields;
use crate::class_head::names_itself;
use crate::element::is_private_key;
use crate::facts::NameFacts;
use es_base::kind::Kind;
use es_base::literal::LiteralValue;
use es_base::name::Name;
use es_base::operator::{UnaryOperator, VariableDeclarationKind};
use es_base::strings::is_word;
use es_node::node::Node;
use es_steps::options::Options;
use es_tree::class::{ClassDeclarationRef, MethodDefinitionRef, PropertyDefinitionRef};
use es_tree::expression::{MetaPropertyRef, TemplateLiteralRef, UnaryExpressionRef};
use es_tree::identifier::{IdentifierNameRef, IdentifierReferenceRef};
use es_tree::literal::LiteralRef;
use es_tree::statement::{VariableDeclarationRef, VariableDeclaratorRef};

/// Whether the node has an event by itself, whatever its parts do.
#[tactic(auto, using(crate::proofs::ByKind::acts_by_kind))]
pub fn acts<F: NameFacts>(
    options: &Options,
    facts: &F,
    names: &ClassNames,
    standing: Standing,
    node: &Node,
) -> bool
    ensures { result ≡ spec.acts options.now (F.program facts.now) (around (ids_in names.now) standing) (kind_of node.now) (number_in node.now) (parts_in node.now) }
{
    match node.kind() {
        // /a/
        Kind::Literal => is_regular_expression(node),
        // new.target
        Kind::MetaProperty => !is_new(MetaPropertyRef::from_node(node).meta),
        Kind::IdentifierReference => reads_name(facts, names, standing, node),
        Kind::UnaryExpression => !is_quiet_unary(node),
        // `a`
        Kind::TemplateLiteral => !is_one_string(node),
        // static x = 1;
        Kind::PropertyDefinition => is_defined(options, node),
        // class A {}
        Kind::ClassDeclaration => ClassDeclarationRef::from_node(node).id.is_some(),
        // (class A extends f(() => A) {})
        Kind::ClassExpression => names_itself(node),
        // { function f() {} }
        Kind::FunctionDeclaration => standing.in_block,
        // let x;
        Kind::VariableDeclaration => declares_by_let(node),
        // var x;
        Kind::VariableDeclarator => {
            let declarator = VariableDeclaratorRef::from_node(node);
            declarator.init.is_some() || !is_identifier(declarator.id)
        }
        kind => !is_quiet_kind(kind),
    }
}

/// Whether a variable declaration is one by `let`, whose names are given values, or undefined (ECMA-262, 14.3.1.2).
fn declares_by_let(node: &Node) -> bool
    requires { kind_of node.now ≡ Kind.VariableDeclaration }
    ensures { result ≡ is_let (parts_in node.now) }
{
    match VariableDeclarationRef::from_node(node).kind {
        VariableDeclarationKind::Let => true,
        VariableDeclarationKind::Var | VariableDeclarationKind::Const => false,
    }
}

/// Whether nodes of this kind have no events by themselves, whatever their parts are.
fn is_quiet_kind(kind: Kind) -> bool
    ensures { result ≡ kinds.is_quiet_kind kind }
{
    matches!(
        kind,
        Kind::ThisExpression
            | Kind::SequenceExpression
            | Kind::FunctionExpression
            | Kind::ArrowFunctionExpression
            | Kind::ClassBody
            | Kind::MethodDefinition
            | Kind::StaticBlock
            | Kind::ExpressionStatement
            | Kind::BlockStatement
            | Kind::EmptyStatement
    )
}

/// Whether the i-th part of the node is evaluated where the node is.
#[tactic(auto, using(crate::proofs::ByKind::evaluated_by_kind))]
pub fn is_evaluated(node: &Node, i: usize) -> bool
    ensures { result ≡ spec.is_evaluated (kind_of node.now) (parts_in node.now) i }
{
    match node.kind() {
        Kind::SequenceExpression
        | Kind::ClassBody
        | Kind::StaticBlock
        | Kind::VariableDeclaration
        | Kind::ExpressionStatement
        | Kind::BlockStatement => true,
        // class A extends B {}
        Kind::ClassExpression | Kind::ClassDeclaration => i != 0,
        // [k]() {}
        Kind::MethodDefinition => MethodDefinitionRef::from_node(node).computed && i == 0,
        // [k] = 1;
        Kind::PropertyDefinition => PropertyDefinitionRef::from_node(node).computed && i == 0,
        _ => false,
    }
}

// ---- names

/// Whether a reference is read by an event: its binding varies, and is not the name of a class around, or it
/// is free, and no `arguments` that nothing writes.
#[tactic(auto, using(crate::proofs::ByKind::reads_by_binding))]
fn reads_name<F: NameFacts>(facts: &F, names: &ClassNames, standing: Standing, node: &Node) -> bool
    requires { kind_of node.now ≡ Kind.IdentifierReference }
    ensures { result ≡ spec.reads_name (varying (F.program facts.now)) (changes_free (codes "arguments") (F.program facts.now)) (around (ids_in names.now) standing) (string_of (at 0 (parts_in node.now))) (referent_of (number_in node.now) (resolve (F.program facts.now))) }
{
    match facts.binding_of(node.node_id()) {
        Some(binding) => facts.is_varying(binding) && !is_class_around(names, binding),
        None => {
            let name = IdentifierReferenceRef::from_node(node).name;
            !(is_arguments(name) && standing.has_arguments && !facts.changes_arguments())
        }
    }
}

#[tactic(auto, using(es_base::proofs::Ascii::chars_ascii))]
fn is_arguments(name: &Name) -> bool
    ensures { result ≡ expressions.is_arguments name.now }
{
    is_word("arguments", name.as_str())
}

#[tactic(auto, using(es_base::proofs::Ascii::chars_ascii))]
fn is_new_word(name: &Name) -> bool
    ensures { result ≡ bytes_eq name.now (codes "new") }
{
    is_word("new", name.as_str())
}

// ---- parts

/// Whether the node is `void` of a constant, or `delete this`.
fn is_quiet_unary(node: &Node) -> bool
    requires { kind_of node.now ≡ Kind.UnaryExpression }
    ensures { result ≡ (spec.voids_constant (parts_in node.now) || spec.deletes_this (parts_in node.now)) }
{
    let unary = UnaryExpressionRef::from_node(node);
    match unary.operator {
        // void 0
        UnaryOperator::Void => is_constant(unary.argument),
        // delete this
        UnaryOperator::Delete => is_this(unary.argument),
        _ => false,
    }
}

/// Whether the template is one string.
#[tactic(auto, using(crate::proofs::ByKind::one_item, crate::proofs::ByKind::no_items))]
fn is_one_string(node: &Node) -> bool
    requires { kind_of node.now ≡ Kind.TemplateLiteral }
    ensures { result ≡ (spec.has_one_item (at 0 (parts_in node.now)) && has_no_items (at 1 (parts_in node.now))) }
{
    let template = TemplateLiteralRef::from_node(node);
    template.quasis.len() == 1 && template.expressions.is_empty()
}

/// Whether the literal is a regular expression, which is an object that is made (ECMA-262, 13.2.7).
pub fn is_regular_expression(node: &Node) -> bool
    requires { kind_of node.now ≡ Kind.Literal }
    ensures { result ≡ is_regular_expression (at 0 (parts_in node.now)) }
{
    matches!(
        LiteralRef::from_node(node).value,
        LiteralValue::RegExp { .. }
    )
}

/// Whether the node is a literal but a regular expression, or `delete this`.
#[tactic(auto, using(crate::proofs::ByKind::literal_is_constant, crate::proofs::ByKind::unary_is_constant, crate::proofs::ByKind::no_constant))]
fn is_constant(node: &Node) -> bool
    ensures { result ≡ is_constant (child node.now) }
{
    match node.kind() {
        Kind::Literal => !is_regular_expression(node),
        Kind::UnaryExpression => {
            let unary = UnaryExpressionRef::from_node(node);
            unary.operator == UnaryOperator::Delete && is_this(unary.argument)
        }
        _ => false,
    }
}

#[tactic(auto, using(crate::proofs::ByKind::this_by_kind))]
fn is_this(node: &Node) -> bool
    ensures { result ≡ is_this (child node.now) }
{
    matches!(node.kind(), Kind::ThisExpression)
}

/// Whether the node is the `new` of `new.target`.
#[tactic(auto, using(crate::proofs::ByKind::no_new))]
fn is_new(node: &Node) -> bool
    ensures { result ≡ is_new (child node.now) }
{
    match node.kind() {
        Kind::IdentifierName => is_new_word(IdentifierNameRef::from_node(node).name),
        _ => false,
    }
}

#[tactic(auto, using(crate::proofs::ByKind::identifier_by_kind))]
fn is_identifier(node: &Node) -> bool
    ensures { result ≡ spec.is_identifier (child node.now) }
{
    matches!(node.kind(), Kind::BindingIdentifier)
}

/// Whether the field is static and not left out.
fn is_defined(options: &Options, node: &Node) -> bool
    requires { kind_of node.now ≡ Kind.PropertyDefinition }
    ensures { result ≡ (is_true (at 3 (parts_in node.now)) && not (spec.leaves_out_field options.now (parts_in node.now))) }
{
    let field = PropertyDefinitionRef::from_node(node);
    let is_left_out = leaves_out_fields(options)
        && !(is_private_key(field.key) || field.value.is_some());
    field.is_static && !is_left_out
}
