// Forms that are valid and not supported.

ghost use Rattle.std.specs.Prelude.{◌≡◌};
ghost use Rattle.es_base.specs.Conforms.{is_among};
ghost use Rattle.es_node.specs.View.{kind_of, parts_in};
ghost use Rattle.es_steps.specs.FirstForm.{helper_names};
ghost use Rattle.es_steps.specs.Options as asked;
ghost use Rattle.es_validity.specs.Known.{around_of};
ghost use Rattle.es_validity.specs.Owners as owners;
ghost use Rattle.es_validity.specs.Rules as rules;

use crate::around::{Around, Owner, Position};
use crate::fault::LeftOut;
use crate::parts::{is_private_key, is_super, is_super_member};
use crate::rules::is_delete;
use es_base::kind::Kind;
use es_base::name::Name;
use es_base::strings::is_among;
use es_node::node::Node;
use es_steps::options::Options;
use es_tree::class::MethodDefinitionRef;
use es_tree::expression::{CallExpressionRef, MemberExpressionRef, UnaryExpressionRef};
use es_tree::identifier::{BindingIdentifierRef, IdentifierReferenceRef};

/// The first of the forms that a node is; calls of `eval` are not looked for here.
pub fn left_out(options: &Options, around: &Around, node: &Node) -> Option<LeftOut>
    ensures { result ≡ rules.left_out options.now (around_of around.now) (kind_of node.now) (parts_in node.now) }
{
    if is_foreign(node.kind()) {
        Some(LeftOut::Foreign)
    } else if is_with(node.kind()) {
        Some(LeftOut::With)
    } else if takes_helper_name(around, node) {
        Some(LeftOut::HelperName)
    } else if is_loose_method(options, node) {
        Some(LeftOut::LooseMethod)
    } else if is_loose_in(options, node.kind()) {
        Some(LeftOut::LooseIn)
    } else if is_moved_super_form(options, around, node) {
        Some(LeftOut::SuperForm)
    } else if is_super_in_initializer(options, around, node) {
        Some(LeftOut::SuperInInitializer)
    } else {
        None
    }
}

fn is_foreign(kind: Kind) -> bool
    ensures { result ≡ rules.is_foreign kind }
{
    matches!(kind, Kind::Foreign)
}

fn is_with(kind: Kind) -> bool
    ensures { result ≡ rules.is_with kind }
{
    matches!(kind, Kind::WithStatement)
}

/// A name that a lowered program uses is declared or written: `var WeakMap;`, `Object = x`.
#[tactic(auto, using(crate::proofs::OfKinds::no_helper_name))]
fn takes_helper_name(around: &Around, node: &Node) -> bool
    ensures { result ≡ rules.takes_helper_name (around_of around.now) (kind_of node.now) (parts_in node.now) }
{
    match node.kind() {
        Kind::BindingIdentifier => is_helper_name(BindingIdentifierRef::from_node(node).name),
        Kind::IdentifierReference => {
            is_written(around.position)
                && is_helper_name(IdentifierReferenceRef::from_node(node).name)
        }
        _ => false,
    }
}

fn is_written(position: Position) -> bool
    ensures { result ≡ rules.is_written position }
{
    match position {
        Position::Target | Position::PatternTarget => true,
        _ => false,
    }
}

/// Whether a lowered program uses the name.
fn is_helper_name(name: &Name) -> bool
    ensures { result ≡ is_among name.now helper_names }
{
    is_among(
        name.as_str(),
        &["babelHelpers", "WeakMap", "WeakSet", "Object"],
    )
}

/// Whether private members are kept as properties.
fn keeps_privates_as_properties(options: &Options) -> bool
    ensures { result ≡ asked.keeps_privates_as_properties options.now }
{
    match options.es2022.class_properties {
        Some(properties) => { properties.loose || options.assumptions.private_fields_as_properties }
        None => false,
    }
}

/// `#m() {}` where private members are kept as properties.
#[tactic(auto, using(crate::proofs::OfKinds::no_loose_method))]
fn is_loose_method(options: &Options, node: &Node) -> bool
    ensures { result ≡ rules.is_loose_method options.now (kind_of node.now) (parts_in node.now) }
{
    match node.kind() {
        Kind::MethodDefinition => {
            keeps_privates_as_properties(options)
                && is_private_key(MethodDefinitionRef::from_node(node).key)
        }
        _ => false,
    }
}

/// `#x in o` where private members are kept as properties.
fn is_loose_in(options: &Options, kind: Kind) -> bool
    ensures { result ≡ rules.is_loose_in options.now kind }
{
    match kind {
        Kind::PrivateIn => keeps_privates_as_properties(options),
        _ => false,
    }
}

/// A member of `super` in code that moves, in a form that cannot move.
fn is_moved_super_form(options: &Options, around: &Around, node: &Node) -> bool
    ensures { result ≡ rules.is_moved_super_form options.now (around_of around.now) (kind_of node.now) (parts_in node.now) }
{
    (options.es2022.class_properties.is_some() && moves(options, around.owner))
        && is_super_form(around, node)
}

/// Whether what is owned moves out of its class.
fn moves(options: &Options, owner: Owner) -> bool
    ensures { result ≡ owners.moves options.now owner }
{
    match owner {
        Owner::Method { is_private } => is_private,
        Owner::FieldValue { is_static, .. } => is_static,
        Owner::StaticBlock => options.es2022.class_static_block,
        _ => false,
    }
}

/// `[super.x] = y`, `super.x`..``, `super.x?.()`, `delete super.x`.
#[tactic(auto, using(crate::proofs::OfKinds::no_super_form, crate::proofs::OfKinds::super_member_part))]
fn is_super_form(around: &Around, node: &Node) -> bool
    ensures { result ≡ rules.is_super_form (around_of around.now) (kind_of node.now) (parts_in node.now) }
{
    match node.kind() {
        Kind::MemberExpression => {
            is_super(MemberExpressionRef::from_node(node).object) && cannot_move(around.position)
        }
        Kind::CallExpression => {
            let call = CallExpressionRef::from_node(node);
            call.optional && is_super_member(call.callee)
        }
        Kind::UnaryExpression => {
            let unary = UnaryExpressionRef::from_node(node);
            is_delete(unary.operator) && is_super_member(unary.argument)
        }
        _ => false,
    }
}

fn cannot_move(position: Position) -> bool
    ensures { result ≡ rules.cannot_move position }
{
    match position {
        Position::PatternTarget | Position::Tag => true,
        _ => false,
    }
}

/// A member of `super` in an instance field of a class whose constructor has `super()` in its parameters.
fn is_super_in_initializer(options: &Options, around: &Around, node: &Node) -> bool
    ensures { result ≡ rules.is_super_in_initializer options.now (around_of around.now) (kind_of node.now) (parts_in node.now) }
{
    (options.es2022.class_properties.is_some() && is_behind_parameters(around.owner))
        && is_super_member(node)
}

fn is_behind_parameters(owner: Owner) -> bool
    ensures { result ≡ owners.is_behind_parameters owner }
{
    match owner {
        Owner::FieldValue {
            is_static,
            super_in_parameters,
        } => !is_static && super_in_parameters,
        _ => false,
    }
}
