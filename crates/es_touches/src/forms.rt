// The forms of nodes that touches tell apart.

ghost use Rattle.std.specs.Prelude.{◌≡◌, ◌&&◌, ◌||◌, bytes_eq, codes, true};
ghost use Rattle.std.specs.Str.{chars};
ghost use Rattle.es_base.specs.Ascii.{is_ascii};
ghost use Rattle.es_base.specs.Tree.{child, trees};
ghost use Rattle.es_base.specs.declared.kind.Kind.{Kind};
ghost use Rattle.es_node.specs.View.{kind_of, part_of, parts_in};
ghost use Rattle.es_steps.specs.Parts.{at, is_present, items};
ghost use Rattle.es_lowered.specs.DeadZones as spec;
ghost use Rattle.es_lowered.specs.Definitions as definitions;
ghost use Rattle.es_touches.specs.Forms.{are_writable, has_value, is_plain, is_throw_name, is_throwing_callee, is_writer_name, names_key};

use es_base::kind::Kind;
use es_base::strings::spells;
use es_node::node::{Node, Part};
use es_owed_initialized::spelling::spelling;
use es_seen_names::parts::string_at;
use es_shapes::walk::is_any_function;
use es_tree::expression::{
    CallExpressionRef, MemberExpressionRef, ObjectExpressionRef, PropertyRef, SequenceExpressionRef,
};
use es_tree::identifier::IdentifierNameRef;
use es_validity::parts::is_string;

// ---- kinds

/// Whether it runs no code of its own and waits for nothing.
#[tactic(auto, using(crate::proofs::FormsOfNodes::still_kind))]
pub fn is_still(kind: Kind) -> bool
    ensures { result ≡ spec.is_still kind }
{
    is_plain(kind) || is_any_function(kind)
}

fn is_plain(kind: Kind) -> bool
    ensures { result ≡ is_plain kind }
{
    matches!(
        kind,
        Kind::Program
            | Kind::Literal
            | Kind::IdentifierName
            | Kind::PrivateIdentifier
            | Kind::TemplateElement
            | Kind::ClassDeclaration
            | Kind::ClassExpression
            | Kind::ClassBody
            | Kind::Property
            | Kind::BindingProperty
            | Kind::AssignmentTargetProperty
            | Kind::PropertyDefinition
            | Kind::MethodDefinition
            | Kind::StaticBlock
            | Kind::SequenceExpression
            | Kind::ExpressionStatement
            | Kind::EmptyStatement
            | Kind::VariableDeclaration
            | Kind::VariableDeclarator
            | Kind::ExportNamedDeclaration
    )
}

pub fn is_function_declaration(kind: Kind) -> bool
    ensures { result ≡ spec.is_function_declaration kind }
{
    matches!(kind, Kind::FunctionDeclaration)
}

pub fn is_property_definition(kind: Kind) -> bool
    ensures { result ≡ spec.is_property_definition kind }
{
    matches!(kind, Kind::PropertyDefinition)
}

/// Whether the second part is evaluated in front of the first.
pub fn is_turned(kind: Kind) -> bool
    ensures { result ≡ spec.is_turned kind }
{
    matches!(
        kind,
        Kind::VariableDeclarator
            | Kind::AssignmentPattern
            | Kind::ForInStatement
            | Kind::ForOfStatement
    )
}

/// Whether a key that is computed is converted behind itself.
pub fn is_keyed(kind: Kind) -> bool
    ensures { result ≡ spec.is_keyed kind }
{
    matches!(
        kind,
        Kind::Property | Kind::BindingProperty | Kind::AssignmentTargetProperty
    )
}

// ---- targets

/// Whether the part is a member, which is evaluated in front of the value that it may have instead.
pub fn is_member(part: &Part) -> bool
    ensures { result ≡ spec.is_member (part_of part.now) }
{
    match part {
        Part::Child(node) => is_member_node(node),
        _ => false,
    }
}

#[tactic(auto, using(crate::proofs::FormsOfNodes::member_node))]
fn is_member_node(node: &Node) -> bool
    ensures { result ≡ spec.is_member (child node.now) }
{
    matches!(node.kind(), Kind::MemberExpression | Kind::PrivateField)
}

/// Whether the part is a pattern that is assigned to.
pub fn is_pattern(part: &Part) -> bool
    ensures { result ≡ spec.is_pattern (part_of part.now) }
{
    match part {
        Part::Child(node) => is_pattern_node(node),
        _ => false,
    }
}

#[tactic(auto, using(crate::proofs::FormsOfNodes::pattern_node))]
fn is_pattern_node(node: &Node) -> bool
    ensures { result ≡ spec.is_pattern (child node.now) }
{
    matches!(
        node.kind(),
        Kind::ArrayAssignmentTarget | Kind::ObjectAssignmentTarget
    )
}

/// `this`, or a name.
#[tactic(auto, using(crate::proofs::FormsOfNodes::named_node))]
fn is_named_or_this(node: &Node) -> bool
    ensures { result ≡ spec.is_named_or_this (child node.now) }
{
    matches!(
        node.kind(),
        Kind::IdentifierReference | Kind::ThisExpression
    )
}

/// The `_` of `S._`, by which a static private field has its value.
#[tactic(auto, using(crate::proofs::FormsOfNodes::slot_name, crate::proofs::FormsOfNodes::no_slot))]
fn is_value_slot(node: &Node) -> bool
    ensures { result ≡ spec.is_value_slot (child node.now) }
{
    match node.kind() {
        Kind::IdentifierName => spells(string_at(node.parts(), 0), "_"),
        _ => false,
    }
}

/// Whether an assignment to the node sets a field.
#[tactic(auto, using(crate::proofs::FormsOfNodes::sets_none))]
pub fn sets_member(node: &Node) -> bool
    ensures { result ≡ spec.sets_member (child node.now) }
{
    match node.kind() {
        // this.a, b[c]
        Kind::MemberExpression => {
            let member = MemberExpressionRef::from_node(node);
            is_named_or_this(member.object) && !is_value_slot(member.property)
        }
        _ => false,
    }
}

/// Whether the node is the `_` of a setter that a helper has made, which is assigned to.
#[tactic(auto, using(crate::proofs::FormsOfNodes::setter_none))]
pub fn is_setter_slot(node: &Node) -> bool
    ensures { result ≡ spec.is_setter_slot (child node.now) }
{
    match node.kind() {
        // babelHelpers.toSetter(f)._
        Kind::MemberExpression => is_slot_of_call(node),
        _ => false,
    }
}

#[tactic(auto, using(crate::proofs::FormsOfNodes::slot_of_call, crate::proofs::FormsOfNodes::slot_of_none))]
fn is_slot_of_call(node: &Node) -> bool
    requires { kind_of node.now ≡ Kind.MemberExpression }
    ensures { result ≡ spec.is_setter_slot (child node.now) }
{
    let member = MemberExpressionRef::from_node(node);
    match member.object.kind() {
        Kind::CallExpression => is_value_slot(member.property),
        _ => false,
    }
}

// ---- what writes behind an operation

fn is_writer_name(name: &str) -> bool
    ensures { result ≡ is_writer_name (chars name.now) }
{
    spells(name, "superPropSet") || spells(name, "classPrivateFieldSet2")
}

fn writes_by(object: &str, name: &str) -> bool
    ensures { result ≡ (bytes_eq (chars object.now) (codes "babelHelpers") && is_writer_name (chars name.now)) }
{
    spells(object, "babelHelpers") && is_writer_name(name)
}

#[tactic(auto, using(crate::proofs::FormsOfNodes::writer_named, crate::proofs::FormsOfNodes::writer_unnamed))]
fn writes_as(callee: &Node) -> bool
    requires { kind_of callee.now ≡ Kind.MemberExpression }
    ensures { result ≡ spec.is_writer (child callee.now) }
{
    let member = MemberExpressionRef::from_node(callee);
    match member.property.kind() {
        Kind::IdentifierName => {
            let name = string_at(member.property.parts(), 0);
            writes_by(spelling(member.object), name)
        }
        _ => false,
    }
}

#[tactic(auto, using(crate::proofs::FormsOfNodes::writer_none))]
fn is_writer_callee(callee: &Node) -> bool
    ensures { result ≡ spec.is_writer (child callee.now) }
{
    match callee.kind() {
        Kind::MemberExpression => writes_as(callee),
        _ => false,
    }
}

/// Whether a call writes a private member or one of `super` behind the operation that has the number of both.
pub fn is_writer(call: &Node) -> bool
    requires { kind_of call.now ≡ Kind.CallExpression }
    ensures { result ≡ spec.is_writer (at 0 (parts_in call.now)) }
{
    // babelHelpers.superPropSet(A, "a", babelHelpers.superPropGet(A, "a", A) + b, A, 1)
    is_writer_callee(CallExpressionRef::from_node(call).callee)
}

// ---- what always throws

fn is_throw_name(name: &str) -> bool
    ensures { result ≡ is_throw_name (chars name.now) }
{
    spells(name, "readOnlyError") || spells(name, "writeOnlyError")
}

#[tactic(auto, using(crate::proofs::FormsOfNodes::throwing_named, crate::proofs::FormsOfNodes::throwing_unnamed))]
fn names_throw(callee: &Node) -> bool
    requires { kind_of callee.now ≡ Kind.MemberExpression }
    ensures { result ≡ is_throwing_callee (child callee.now) }
{
    let property = MemberExpressionRef::from_node(callee).property;
    match property.kind() {
        Kind::IdentifierName => is_throw_name(string_at(property.parts(), 0)),
        _ => false,
    }
}

#[tactic(auto, using(crate::proofs::FormsOfNodes::throwing_none))]
fn is_throwing_callee(callee: &Node) -> bool
    ensures { result ≡ is_throwing_callee (child callee.now) }
{
    match callee.kind() {
        Kind::MemberExpression => names_throw(callee),
        _ => false,
    }
}

/// Whether the node is the call of a helper that always throws.
#[tactic(auto, using(crate::proofs::FormsOfNodes::throws_call, crate::proofs::FormsOfNodes::throws_none))]
fn throws_always(node: &Node) -> bool
    ensures { result ≡ spec.throws_always (child node.now) }
{
    match node.kind() {
        // babelHelpers.readOnlyError("#a")
        Kind::CallExpression => is_throwing_callee(CallExpressionRef::from_node(node).callee),
        _ => false,
    }
}

/// Whether the last of these always throws.
#[tactic(auto, using(crate::proofs::FormsOfNodes::ends_at))]
fn ends_throwing(expressions: &[Node]) -> bool
    ensures { result ≡ spec.ends_in_throw (trees expressions.now) }
{
    if expressions.is_empty() {
        false
    } else {
        throws_always(&expressions[expressions.len() - 1])
    }
}

/// Whether a sequence ends in what always throws.
pub fn ends_in_throw(sequence: &Node) -> bool
    requires { kind_of sequence.now ≡ Kind.SequenceExpression }
    ensures { result ≡ spec.ends_in_throw (items (at 0 (parts_in sequence.now))) }
{
    ends_throwing(SequenceExpressionRef::from_node(sequence).expressions)
}

// ---- calls that define fields

/// Whether the key is this name.
#[tactic(auto, using(crate::proofs::FormsOfNodes::no_key))]
fn names_key(name: &str, key: &Node) -> bool
    requires { is_ascii name.now ≡ true }
    ensures { result ≡ names_key name.now key.now }
{
    match key.kind() {
        Kind::IdentifierName => is_string(IdentifierNameRef::from_node(key).name, name),
        _ => false,
    }
}

/// Whether the node is a property of this name.
#[tactic(auto, using(crate::proofs::FormsOfNodes::no_value, crate::proofs::FormsOfNodes::value_node))]
fn has_value(name: &str, property: &Node) -> bool
    requires { is_ascii name.now ≡ true }
    ensures { result ≡ has_value name.now (child property.now) }
{
    match property.kind() {
        // { name: value }
        Kind::Property => names_key(name, PropertyRef::from_node(property).key),
        _ => false,
    }
}

#[tactic(auto, using(crate::proofs::FormsOfNodes::not_writable))]
fn are_writable(properties: &[Node]) -> bool
    ensures { result ≡ are_writable (trees properties.now) }
{
    match properties {
        [writable, value] => has_value("writable", writable) && has_value("value", value),
        _ => false,
    }
}

/// `{ writable: true, value: v }`
#[tactic(auto, using(crate::proofs::FormsOfNodes::writable_node, crate::proofs::FormsOfNodes::no_writable))]
fn is_writable(node: &Node) -> bool
    ensures { result ≡ is_present (definitions.writable_part (child node.now)) }
{
    match node.kind() {
        Kind::ObjectExpression => are_writable(ObjectExpressionRef::from_node(node).properties),
        _ => false,
    }
}

fn is_helper(object: &str, name: &str) -> bool
    ensures { result ≡ (bytes_eq (chars object.now) (codes "babelHelpers") && (bytes_eq (chars name.now) (codes "defineProperty") || bytes_eq (chars name.now) (codes "classPrivateFieldInitSpec"))) }
{
    spells(object, "babelHelpers")
        && (spells(name, "defineProperty") || spells(name, "classPrivateFieldInitSpec"))
}

fn is_object(object: &str, name: &str) -> bool
    ensures { result ≡ (bytes_eq (chars object.now) (codes "Object") && bytes_eq (chars name.now) (codes "defineProperty")) }
{
    spells(object, "Object") && spells(name, "defineProperty")
}

/// Whether a call of this function of this object, with this last argument, defines a field.
fn defines_value(object: &str, name: &str, value: &Node) -> bool
    ensures { result ≡ ((bytes_eq (chars object.now) (codes "babelHelpers") && (bytes_eq (chars name.now) (codes "defineProperty") || bytes_eq (chars name.now) (codes "classPrivateFieldInitSpec"))) || ((bytes_eq (chars object.now) (codes "Object") && bytes_eq (chars name.now) (codes "defineProperty")) && is_present (definitions.writable_part (child value.now)))) }
{
    is_helper(object, name) || (is_object(object, name) && is_writable(value))
}

#[tactic(auto, using(crate::proofs::FormsOfNodes::defines_three, crate::proofs::FormsOfNodes::defines_not_three))]
fn defines_by(object: &str, name: &str, arguments: &[Node]) -> bool
    ensures { result ≡ spec.defines_by (chars object.now) (chars name.now) (trees arguments.now) }
{
    match arguments {
        // babelHelpers.defineProperty(o, k, v), Object.defineProperty(o, L, { writable: true, value: v })
        [_, _, value] => defines_value(object, name, value),
        _ => false,
    }
}

#[tactic(auto, using(crate::proofs::FormsOfNodes::defines_named, crate::proofs::FormsOfNodes::defines_unnamed))]
fn defines_as(callee: &Node, arguments: &[Node]) -> bool
    requires { kind_of callee.now ≡ Kind.MemberExpression }
    ensures { result ≡ spec.defines (child callee.now) (trees arguments.now) }
{
    let member = MemberExpressionRef::from_node(callee);
    match member.property.kind() {
        Kind::IdentifierName => {
            let name = string_at(member.property.parts(), 0);
            defines_by(spelling(member.object), name, arguments)
        }
        _ => false,
    }
}

#[tactic(auto, using(crate::proofs::FormsOfNodes::defines_none))]
fn defines_with(callee: &Node, arguments: &[Node]) -> bool
    ensures { result ≡ spec.defines (child callee.now) (trees arguments.now) }
{
    match callee.kind() {
        Kind::MemberExpression => defines_as(callee, arguments),
        _ => false,
    }
}

/// Whether a call defines a field.
pub fn defines(call: &Node) -> bool
    requires { kind_of call.now ≡ Kind.CallExpression }
    ensures { result ≡ spec.defines (at 0 (parts_in call.now)) (items (at 1 (parts_in call.now))) }
{
    let call = CallExpressionRef::from_node(call);
    defines_with(call.callee, call.arguments)
}
