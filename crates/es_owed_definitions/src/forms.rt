// The forms of definitions.

ghost use Rattle.std.specs.Prelude.{◌≡◌, ◌&&◌, ◌++◌, ◌∷◌, [], bytes_eq, codes, not, option_map, true, OnOk};
ghost use Rattle.std.specs.Option.{option_to_list};
ghost use Rattle.std.specs.Str.{chars};
ghost use Rattle.es_base.specs.Ascii.{is_ascii};
ghost use Rattle.es_base.specs.Tree.{child, trees};
ghost use Rattle.es_base.specs.Words.{assignment_operator_string};
ghost use Rattle.es_base.specs.Numbered as numbered;
ghost use Rattle.es_lowered.specs.Definitions as spec;
ghost use Rattle.es_node.specs.View.{kind_of, number_in, parts_in};
ghost use Rattle.es_steps.specs.Context.{generated_as};
ghost use Rattle.es_owed_definitions.specs.Callees.{callee_view, definition_by};
ghost use Rattle.es_owed_definitions.specs.Views.{assigned_definitions, definition_view, definition_views, is_named, key_view, node_part, single_field, two_fields};

use crate::callee::{Callee, callee_of};
use crate::definition::{DefinedKey, FieldDefinition};
use crate::terms::Terms;
use es_base::kind::Kind;
use es_base::ledger::GeneratedKind;
use es_base::operator::AssignmentOperator;
use es_base::strings::spells;
use es_generated::ledger::Ledger;
use es_generated::numbers::is_new;
use es_node::node::Node;
use es_owed_initialized::spelling::spelling;
use es_shapes::asked::sets_fields;
use es_steps::options::Options;
use es_tree::expression::{
    AssignmentExpressionRef, CallExpressionRef, MemberExpressionRef, ObjectExpressionRef,
    PropertyRef,
};
use es_tree::identifier::IdentifierNameRef;
use es_tree::statement::VariableDeclaratorRef;
use es_validity::parts::is_string;
use std::alloc::AllocError;

/// What the name that the node is was generated as, if it was.
pub fn generated_at(node: &Node, ledger: &Ledger) -> Option<GeneratedKind>
    ensures { result ≡ generated_as (spec.spelling (child node.now)) ledger.now }
{
    ledger.generated_as(spelling(node))
}

// ---- objects that are given

/// The value of a property, if that has this ASCII name.
#[tactic(auto, using(crate::proofs::DefinitionForms::property_node, crate::proofs::DefinitionForms::no_property))]
fn property_value<'a>(name: &str, node: &'a Node) -> Option<&'a Node>
    requires { is_ascii name.now ≡ true }
    ensures { node_part result ≡ spec.property_value name.now (child node.now) }
{
    match node.kind() {
        // { name: value }
        Kind::Property => {
            let property = PropertyRef::from_node(node);
            if is_named(name, property.key) {
                Some(property.value)
            } else {
                None
            }
        }
        _ => None,
    }
}

#[tactic(auto, using(crate::proofs::DefinitionForms::no_name))]
fn is_named(name: &str, key: &Node) -> bool
    requires { is_ascii name.now ≡ true }
    ensures { result ≡ is_named name.now key.now }
{
    match key.kind() {
        Kind::IdentifierName => is_string(IdentifierNameRef::from_node(key).name, name),
        _ => false,
    }
}

/// `v` in `{ writable: true, value: v }`.
#[tactic(auto, using(crate::proofs::DefinitionForms::no_writable, crate::proofs::DefinitionForms::writable_node))]
fn writable_part(node: &Node) -> Option<&Node>
    ensures { node_part result ≡ spec.writable_part (child node.now) }
{
    match node.kind() {
        Kind::ObjectExpression => two_fields(ObjectExpressionRef::from_node(node).properties),
        _ => None,
    }
}

fn two_fields(properties: &[Node]) -> Option<&Node>
    ensures { node_part result ≡ two_fields (trees properties.now) }
{
    match properties {
        [writable, value] => {
            if property_value("writable", writable).is_some() {
                property_value("value", value)
            } else {
                None
            }
        }
        _ => None,
    }
}

/// `v` in `{ _: v }`.
#[tactic(auto, using(crate::proofs::DefinitionForms::no_field, crate::proofs::DefinitionForms::field_node))]
pub fn field_part(node: &Node) -> Option<&Node>
    ensures { node_part result ≡ spec.field_part (child node.now) }
{
    match node.kind() {
        Kind::ObjectExpression => single_field(ObjectExpressionRef::from_node(node).properties),
        _ => None,
    }
}

#[tactic(auto, using(crate::proofs::DefinitionForms::not_single))]
fn single_field(properties: &[Node]) -> Option<&Node>
    ensures { node_part result ≡ single_field (trees properties.now) }
{
    match properties {
        [value] => property_value("_", value),
        _ => None,
    }
}

// ---- calls

/// The definition that a call of a helper or of `Object.defineProperty` is.
#[tactic(auto, using(crate::proofs::Calls::call_by))]
fn call_definition<'a>(
    terms: &Terms,
    callee: &Node,
    arguments: &'a [Node],
) -> Option<FieldDefinition<'a>>
    ensures { option_to_list (option_map definition_view result) ≡ spec.call_definition terms.now.first terms.now.ledger.now (child callee.now) (trees arguments.now) }
{
    match callee_of(callee) {
        Some(callee) => definition_by(terms, callee, arguments),
        None => None,
    }
}

fn definition_by<'a>(
    terms: &Terms,
    callee: Callee,
    arguments: &'a [Node],
) -> Option<FieldDefinition<'a>>
    ensures { option_to_list (option_map definition_view result) ≡ definition_by terms.now.first terms.now.ledger.now (callee_view callee.entry) (trees arguments.now) }
{
    if !is_new(terms.first, callee.number) {
        None
    } else if spells(callee.object, "babelHelpers") {
        helper_definition(callee.property, arguments)
    } else if spells(callee.object, "Object") && spells(callee.property, "defineProperty") {
        object_definition(terms.ledger, arguments)
    } else {
        None
    }
}

/// The definition that a call of this helper is.
#[tactic(auto, using(crate::proofs::DefinitionForms::no_arguments))]
fn helper_definition<'a>(helper: &str, arguments: &'a [Node]) -> Option<FieldDefinition<'a>>
    ensures { option_to_list (option_map definition_view result) ≡ spec.helper_definition (chars helper.now) (trees arguments.now) }
{
    match arguments {
        [object, key, value] => valued_definition(helper, object, key, value),
        [object, brand] => branded_definition(helper, object, brand),
        _ => None,
    }
}

fn valued_definition<'a>(
    helper: &str,
    object: &'a Node,
    key: &'a Node,
    value: &'a Node,
) -> Option<FieldDefinition<'a>>
    ensures { option_to_list (option_map definition_view result) ≡ spec.helper_definition (chars helper.now) (trees (object.now ∷ key.now ∷ value.now ∷ [])) }
{
    // babelHelpers.defineProperty(o, k, v)
    let key = if spells(helper, "defineProperty") {
        DefinedKey::Value(key)
        // babelHelpers.classPrivateFieldInitSpec(o, W, v)
    } else if spells(helper, "classPrivateFieldInitSpec") {
        DefinedKey::Private(spelling(key))
    } else {
        return None;
    };
    Some(FieldDefinition {
        object: Some(object),
        key,
        value: Some(value),
    })
}

fn branded_definition<'a>(
    helper: &str,
    object: &'a Node,
    brand: &'a Node,
) -> Option<FieldDefinition<'a>>
    ensures { option_to_list (option_map definition_view result) ≡ spec.helper_definition (chars helper.now) (trees (object.now ∷ brand.now ∷ [])) }
{
    // babelHelpers.classPrivateMethodInitSpec(o, Q)
    if spells(helper, "classPrivateMethodInitSpec") {
        Some(FieldDefinition {
            object: Some(object),
            key: DefinedKey::Brand(spelling(brand)),
            value: None,
        })
    } else {
        None
    }
}

/// The definition that a call of `Object.defineProperty` is.
#[tactic(auto, using(crate::proofs::DefinitionForms::no_loose))]
fn object_definition<'a>(ledger: &Ledger, arguments: &'a [Node]) -> Option<FieldDefinition<'a>>
    ensures { option_to_list (option_map definition_view result) ≡ spec.object_definition ledger.now (trees arguments.now) }
{
    match arguments {
        // Object.defineProperty(o, L, { writable: true, value: v })
        [object, key, descriptor] => match writable_part(descriptor) {
            Some(value) => loose_definition(ledger, object, key, value),
            None => None,
        },
        _ => None,
    }
}

fn loose_definition<'a>(
    ledger: &Ledger,
    object: &'a Node,
    key: &'a Node,
    value: &'a Node,
) -> Option<FieldDefinition<'a>>
    ensures { option_to_list (option_map definition_view result) ≡ spec.loose_by (generated_as (spec.spelling (child key.now)) ledger.now) (child object.now) (child key.now) (child value.now) }
{
    match generated_at(key, ledger) {
        Some(GeneratedKind::LooseKey(_)) => Some(FieldDefinition {
            object: Some(object),
            key: DefinedKey::Private(spelling(key)),
            value: Some(value),
        }),
        _ => None,
    }
}

// ---- assignments

/// The definition of a static field that is given its object: `S = { _: v }`.
#[tactic(auto, using(crate::proofs::DefinitionForms::no_static))]
fn static_definition<'a>(
    ledger: &Ledger,
    target: &'a Node,
    value: Option<&'a Node>,
) -> Option<FieldDefinition<'a>>
    ensures { option_to_list (option_map definition_view result) ≡ spec.static_definition ledger.now (child target.now) (node_part value.entry) }
{
    let Some(value) = value else { return None };
    match field_part(value) {
        Some(value) => static_by(ledger, target, value),
        None => None,
    }
}

fn static_by<'a>(ledger: &Ledger, target: &'a Node, value: &'a Node) -> Option<FieldDefinition<'a>>
    ensures { option_to_list (option_map definition_view result) ≡ spec.static_by (generated_as (spec.spelling (child target.now)) ledger.now) (child target.now) (child value.now) }
{
    match generated_at(target, ledger) {
        Some(GeneratedKind::StaticField(_)) => Some(FieldDefinition {
            object: None,
            key: DefinedKey::Private(spelling(target)),
            value: Some(value),
        }),
        _ => None,
    }
}

/// The definition of a field that is set: `o.k = v`, `o[k] = v`.
#[tactic(auto, using(crate::proofs::DefinitionForms::no_target, crate::proofs::DefinitionForms::not_set))]
fn set_definition<'a>(
    options: &Options,
    target: &'a Node,
    value: &'a Node,
) -> Option<FieldDefinition<'a>>
    ensures { option_to_list (option_map definition_view result) ≡ spec.set_definition options.now (child target.now) (child value.now) }
{
    match target.kind() {
        Kind::MemberExpression if sets_fields(options) => {
            let member = MemberExpressionRef::from_node(target);
            Some(FieldDefinition {
                object: Some(member.object),
                key: member_key(member),
                value: Some(value),
            })
        }
        _ => None,
    }
}

fn member_key(member: MemberExpressionRef<'_>) -> DefinedKey<'_>
    ensures { key_view result ≡ spec.PublicKey (child member.entry.property.now) (not member.entry.computed) }
{
    if member.computed {
        DefinedKey::Value(member.property)
    } else {
        DefinedKey::Name(member.property)
    }
}

// ---- the definitions that a node is by itself

/// Adds the definitions that the node is by itself. Fails on allocation failure alone.
#[tactic(auto, using(crate::proofs::DefinitionForms::no_definition))]
pub fn add_definitions_at<'a>(
    terms: &Terms,
    node: &'a Node,
    definitions: &mut Vec<FieldDefinition<'a>>,
) -> Result<(), AllocError>
    ensures { OnOk result (definition_views definitions.new.items ≡ definition_views definitions.old.items ++ spec.definition_at terms.now.first terms.now.options.now terms.now.ledger.now (kind_of node.now) (number_in node.now) (parts_in node.now)) }
{
    match node.kind() {
        Kind::CallExpression => {
            let call = CallExpressionRef::from_node(node);
            add_some(
                call_definition(terms, call.callee, call.arguments),
                definitions,
            )
        }
        Kind::AssignmentExpression => {
            add_assigned(terms, AssignmentExpressionRef::from_node(node), definitions)
        }
        Kind::VariableDeclarator => {
            let declarator = VariableDeclaratorRef::from_node(node);
            add_some(
                static_definition(terms.ledger, declarator.id, declarator.init),
                definitions,
            )
        }
        _ => Ok(()),
    }
}

/// Adds those that an assignment is. Fails on allocation failure alone.
fn add_assigned<'a>(
    terms: &Terms,
    assignment: AssignmentExpressionRef<'a>,
    definitions: &mut Vec<FieldDefinition<'a>>,
) -> Result<(), AllocError>
    ensures { OnOk result (definition_views definitions.new.items ≡ definition_views definitions.old.items ++ assigned_definitions (numbered.is_new terms.now.first assignment.entry.node_id.0 && bytes_eq (assignment_operator_string assignment.entry.operator) (codes "=")) terms.now.options.now terms.now.ledger.now (child assignment.entry.left.now) (child assignment.entry.right.now)) }
{
    if !(is_new(terms.first, assignment.node_id.0) && is_equals(assignment.operator)) {
        return Ok(());
    }
    let set = set_definition(terms.options, assignment.left, assignment.right);
    add_some(set, definitions)?;
    let given = static_definition(terms.ledger, assignment.left, Some(assignment.right));
    add_some(given, definitions)
}

/// `=`.
fn is_equals(operator: AssignmentOperator) -> bool
    ensures { result ≡ bytes_eq (assignment_operator_string operator) (codes "=") }
{
    matches!(operator, AssignmentOperator::Assign)
}

/// Adds a definition, if there is one. Fails on allocation failure alone.
fn add_some<'a>(
    definition: Option<FieldDefinition<'a>>,
    definitions: &mut Vec<FieldDefinition<'a>>,
) -> Result<(), AllocError>
    ensures { OnOk result (definition_views definitions.new.items ≡ definition_views definitions.old.items ++ option_to_list (option_map definition_view definition.entry)) }
{
    if let Some(definition) = definition {
        definitions.push(definition)?;
    }
    Ok(())
}
